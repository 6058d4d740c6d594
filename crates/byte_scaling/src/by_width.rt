//! The numbers that answers represent, by a call for each width.
//!
//! The program prints answers as they are; these are for users who want the number.
ghost use Rattle.std.specs.Prelude.{◌≡◌, pos};
ghost use Rattle.fuzzy_meaning.specs.Blocks.{IsValidOutput};
ghost use Rattle.byte_scaling.specs.{Cells.value_in, Cells.value_of, Cells.wide_value_of, Widths.parts};

use crate::Width;
use fuzzy_meaning::Output;
use fz_num::Frac;

/// The number that an output byte represents: q/255 of the range above its low end, in units of 1.
pub fn value(output: &Output, q: u8) -> Frac
    requires { IsValidOutput output.now }
    ensures num { result.num ≡ (value_of output.now q).num }
    ensures den { result.den ≡ pos (value_of output.now q).den }
{
    value_for(output, u16::from(q), Width::Byte)
}

/// The number that an answer of 16 bits represents: a/65280 of the range above its low end, in units of 1. An
/// answer is 0 to 65280.
pub fn value16(output: &Output, a: u16) -> Frac
    requires { IsValidOutput output.now }
    ensures num { result.num ≡ (wide_value_of output.now a).num }
    ensures den { result.den ≡ pos (wide_value_of output.now a).den }
{
    value_for(output, a, Width::Word)
}

/// The number that an answer of this width represents, in units of 1.
fn value_for(output: &Output, a: u16, width: Width) -> Frac
    requires { IsValidOutput output.now }
    ensures num { result.num ≡ (value_in (parts width) output.now a).num }
    ensures den { result.den ≡ pos (value_in (parts width) output.now a).den }
{
    let parts = 255 * u32::from(width.parts());
    let above = u64::from(a) * output.hi.above(output.lo);
    Frac {
        num: i128::from(parts) * i128::from(output.lo.0) + i128::from(above),
        den: i128::from(10_000 * parts),
    }
}
