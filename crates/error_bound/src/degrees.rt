//! The range of a term's degrees.
ghost use Rattle.std.specs.Prelude.{◌≡◌, ◌+◌, ◌*◌, ◌==◌, ◌≤◌, IfSome, ◌≤ℤ◌, option_map};
ghost use Rattle.fz_num.specs.{Fractions.over, Decimals.distance};
ghost use Rattle.fuzzy_meaning.specs.{Blocks.IsValidInput, Blocks.IsValidTerm, Places.rise_at, Places.fall_at};
ghost use Rattle.error_bound.specs.{Places.rise_end, Ratios.value_of, Ratios.IsDegreeRatio, Boxes.degrees_over};
ghost use Rattle.error_bound.specs.Reaches.{span_of, AreTruths};

use crate::boxes::Interval;
use crate::ratio::Ratio;
use fuzzy_meaning::{Input, Trapezoid};
use fz_num::Dec;

/// The least and the greatest degree.
#[derive(Clone, Copy)]
pub(crate) struct Degrees {
    pub(crate) low: Ratio,
    pub(crate) high: Ratio,
}

/// The range of a term's degrees at all points of the cells of an interval.
pub(crate) fn degrees_of(input: &Input, term: &Trapezoid, bytes: Interval) -> Degrees
    requires input { IsValidInput input.now }
    requires term { IsValidTerm input.now.lo input.now.hi term.now }
    ensures value { span_of result ≡ degrees_over input.now term.now bytes }
    ensures truth { AreTruths result }
{
    let width = input.hi.above(input.lo);
    let start = u64::from(bytes.from) * width;
    let end = (u64::from(bytes.to) + 1) * width;
    Degrees {
        low: rising(input.lo, term.a, term.b, start, true).min(falling(
            input.lo, term.c, term.d, end,
        )),
        high: rising(input.lo, term.a, term.b, end, bytes.to == 255).min(falling(
            input.lo, term.c, term.d, start,
        )),
    }
}

/// The degree of the rising side at n/256, or its limit from below if the end is open.
fn rising(lo: Dec, a: Option<Dec>, b: Dec, n: u64, closed: bool) -> Ratio
    requires a { IfSome a (λ p. (lo.0 ≤ℤ p.0) × (p.0 ≤ℤ b.0)) }
    requires b { lo.0 ≤ℤ b.0 }
    requires width { distance lo b ≤ 2000000000 }
    requires n { n ≤ 600000000000 }
    ensures value { value_of result ≡ rise_end closed (option_map (distance lo) a) (distance lo b) (over n 256) }
    ensures truth { IsDegreeRatio result }
{
    let Some(a) = a else {
        return Ratio::ONE;
    };
    let a = a.above(lo);
    let b = b.above(lo);
    if b * 256 < n || (closed && b * 256 == n) {
        Ratio::ONE
    } else if n <= a * 256 {
        Ratio::NONE
    } else {
        Ratio {
            num: n - a * 256,
            den: (b - a) * 256,
        }
    }
}

/// The degree of the falling side at n/256.
fn falling(lo: Dec, c: Dec, d: Option<Dec>, n: u64) -> Ratio
    requires c { lo.0 ≤ℤ c.0 }
    requires d { IfSome d (λ p. (c.0 ≤ℤ p.0) × (distance lo p ≤ 2000000000)) }
    requires width { distance lo c ≤ 2000000000 }
    requires n { n ≤ 600000000000 }
    ensures value { value_of result ≡ fall_at (distance lo c) (option_map (distance lo) d) (over n 256) }
    ensures truth { IsDegreeRatio result }
{
    let Some(d) = d else {
        return Ratio::ONE;
    };
    let c = c.above(lo);
    let d = d.above(lo);
    if n <= c * 256 {
        Ratio::ONE
    } else if d * 256 <= n {
        Ratio::NONE
    } else {
        Ratio {
            num: d * 256 - n,
            den: (d - c) * 256,
        }
    }
}
