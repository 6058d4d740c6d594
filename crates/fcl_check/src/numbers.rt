//! The numbers of a tree.

ghost use Rattle.std.specs.Prelude.{◌≡◌, pos, ◌≤ℤ◌, option_map};
ghost use Rattle.std.specs.Int.{int_min, int_max};
ghost use Rattle.fcl_check.specs.{Spans.ends_in, Loaded.number_of, Loaded.widened};
ghost use Rattle.fcl_check.specs.Sections.{magnitude, value, fallback_number, is_one, ends_of, lies_in};
ghost use Rattle.fcl_check.specs.Sections.{is_empty_range};

use fcl_syntax::{Degree, FallbackValue, Number, Range, SignedNumber};
use fcl_tokens::Amount;
use fz_num::Dec;

/// The greatest magnitude of a number, in 1/10000. No tree of a text has a greater one.
const GREATEST: i64 = 1_000_000_000;

const ONE: i64 = 10_000;

fn magnitude(number: Number) -> i64
    ensures { result ≡ magnitude number.amount }
{
    match number.amount {
        Amount::Zero => 0,
        Amount::One => ONE,
        Amount::Other(value) => value.0,
    }
}

/// The value of a number, in 1/10000.
pub fn value(number: SignedNumber) -> Dec
    ensures { result.0 ≡ value number }
{
    let value = match number {
        SignedNumber::Plus(number) | SignedNumber::Bare(number) => magnitude(number),
        SignedNumber::Minus(number) => 0_i64.saturating_sub(magnitude(number)),
    };
    // No text has a number beyond these ends, but the type of a tree does not say so: what is added to a
    // number that is cut here cannot overflow.
    Dec(value.max(-GREATEST).min(GREATEST))
}

/// The number of DEFAULT, or `None` for NC.
pub fn fallback_number(value_or_nc: FallbackValue) -> Option<Dec>
    ensures { number_of result ≡ option_map value (fallback_number value_or_nc) }
{
    match value_or_nc {
        FallbackValue::Number(number) => Some(value(number)),
        FallbackValue::Nc(_) => None,
    }
}

/// Whether a degree is 1 and not 0.
pub fn is_one(degree: Degree) -> bool
    ensures { result ≡ is_one degree }
{
    match degree {
        Degree::Plus(number) | Degree::Bare(number) => number.is_one,
        Degree::Minus(_) => false,
    }
}

/// The range from `lo` to `hi`.
#[derive(Clone, Copy)]
pub struct Span {
    pub lo: Dec,
    pub hi: Dec,
}

impl Span {
    pub fn of(range: Range) -> Span
        ensures { ends_in result ≡ ends_of range }
    {
        Span {
            lo: value(range.low),
            hi: value(range.high),
        }
    }

    /// The span of one number.
    pub fn at(x: Dec) -> Span
        ensures { ends_in result ≡ (x.0, x.0) }
    {
        Span { lo: x, hi: x }
    }

    pub fn is_empty(self) -> bool
        ensures { result ≡ is_empty_range (ends_in self) }
    {
        self.hi.0 <= self.lo.0
    }

    pub fn holds(self, x: Dec) -> bool
        ensures { result ≡ lies_in (ends_in self) x.0 }
    {
        self.lo.0 <= x.0 && x.0 <= self.hi.0
    }

    /// The span extended to `x`.
    pub fn with(self, x: Dec) -> Span
        ensures { ends_in result ≡ (int_min self.lo.0 x.0, int_max self.hi.0 x.0) }
    {
        Span {
            lo: Dec(self.lo.0.min(x.0)),
            hi: Dec(self.hi.0.max(x.0)),
        }
    }

    /// The same span, but from p to p + 1 if it is the single number p.
    pub fn widened(self) -> Span
        requires { self.hi.0 ≤ℤ pos 1000000000 }
        ensures { ends_in result ≡ widened (ends_in self) }
    {
        if self.lo.0 == self.hi.0 {
            return Span {
                lo: self.lo,
                hi: Dec(self.hi.0 + ONE),
            };
        }
        self
    }
}
