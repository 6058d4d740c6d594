//! The bytes of an output's singletons.
ghost use Rattle.std.specs.Prelude.{◌≡◌};
ghost use Rattle.fz_num.specs.Decimals.{distance};
ghost use Rattle.fuzzy_meaning.specs.Blocks.{IsValidOutput, IsWithin};
ghost use Rattle.byte_scaling.specs.Cells.{nearest_byte, IsNearest};

use fuzzy_meaning::Output;
use fz_num::Dec;

/// The byte whose value is nearest to a number of the range; a tie rounds up.
pub fn near(output: &Output, x: Dec) -> u8
    requires output { IsValidOutput output.now }
    requires x { IsWithin output.now.lo output.now.hi x }
    ensures byte { result ≡ nearest_byte output.now x }
    ensures nearest { IsNearest (distance output.now.lo output.now.hi) (distance output.now.lo x) result }
{
    let width = output.hi.above(output.lo);
    let above = x.above(output.lo);
    ((510 * above + width) / (2 * width)) as u8
}
