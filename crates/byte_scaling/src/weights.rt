//! Weights as bytes.
ghost use Rattle.std.specs.Prelude.{◌≡◌, IfSome};
ghost use Rattle.fuzzy_meaning.specs.Blocks.{IsWeight};
ghost use Rattle.byte_scaling.specs.Weights.{weight_byte_of};

use fz_num::Dec;

/// The byte of a rule's weight, which scales a truth A to A(v+1)/256: 255 without a WITH, and 127
/// for `WITH 0.5`.
pub fn weight_byte(weight: Option<Dec>) -> u8
    requires { IfSome weight IsWeight }
    ensures { result ≡ weight_byte_of weight }
{
    match weight {
        None => 255,
        Some(w) => ((512 * w.0 as u64 + 10000) / 20000).saturating_sub(1) as u8,
    }
}
