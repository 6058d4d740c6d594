//! Bytes of an input's range.
ghost use Rattle.std.specs.Prelude.{◌≡◌, ◌↔◌, ◌+◌, IsOk, IfOk};
ghost use Rattle.fz_num.specs.Fractions.{over, fraction_of, IsTruth};
ghost use Rattle.fuzzy_meaning.specs.Blocks.{IsValidInput, IsWithin};
ghost use Rattle.byte_scaling.specs.Cells.{byte_of, LiesInCell};

use fuzzy_meaning::Input;
use fz_num::{Dec, Frac};

/// A number lies below the low end of an input's range, or above the high one.
#[derive(Clone, Copy, PartialEq, Eq)]
pub struct OutOfRange;

/// The byte of a number, or `OutOfRange` exactly where the number is not in the range.
pub fn to_byte(input: &Input, x: Dec) -> Result<u8, OutOfRange>
    requires { IsValidInput input.now }
    ensures inside { IsOk result ↔ IsWithin input.now.lo input.now.hi x }
    ensures byte { IfOk result (λ b. b ≡ byte_of input.now x) }
    ensures cell { IfOk result (λ b. LiesInCell input.now b x) }
{
    if x < input.lo || x > input.hi {
        return Err(OutOfRange);
    }
    Ok(byte_within(input, x))
}

/// The byte of a number that is in the range.
pub fn byte_within(input: &Input, x: Dec) -> u8
    requires input { IsValidInput input.now }
    requires x { IsWithin input.now.lo input.now.hi x }
    ensures byte { result ≡ byte_of input.now x }
    ensures cell { LiesInCell input.now result x }
{
    let place = x.above(input.lo) * 256 / input.hi.above(input.lo);
    place.min(255) as u8
}

/// The two ends of a byte's cell, as fractions of the range. The high end belongs to the cell only for byte 255.
pub fn cell(_input: &Input, b: u8) -> (Frac, Frac)
    ensures low { fraction_of result.0 ≡ over b 256 }
    ensures high { fraction_of result.1 ≡ over (b + 1) 256 }
    ensures low_truth { IsTruth 256 result.0 }
    ensures high_truth { IsTruth 256 result.1 }
{
    let low = i128::from(b);
    (
        Frac { num: low, den: 256 },
        Frac {
            num: low + 1,
            den: 256,
        },
    )
}
