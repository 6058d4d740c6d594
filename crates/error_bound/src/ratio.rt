//! Fractions of two numbers of 64 bits.
ghost use Rattle.std.specs.Prelude.{◌≡◌, ◌≤◌, ◌<◌, ◌*◌, ◌/◌, ◌≤ℤ◌, pos, unsigned_abs, IsTrue, ◌↔◌};
ghost use Rattle.fz_num.specs.Fractions.{over, lesser, greater, one_minus, times, IsBelow, fraction_of, IsTruth};
ghost use Rattle.error_bound.specs.Faults.{parts_up};

use fz_num::{Dec, Frac, Nano};

/// A fraction from 0 to 1. Its denominator is above 0; it need not be in lowest terms.
#[derive(Clone, Copy)]
pub(crate) struct Ratio {
    pub(crate) num: u64,
    pub(crate) den: u64,
}

impl Ratio {
    ghost use Rattle.error_bound.specs.Ratios.{value_of, IsDegreeRatio, IsStrengthRatio};

    pub(crate) const ONE: Ratio = Ratio { num: 1, den: 1 };

    pub(crate) const NONE: Ratio = Ratio { num: 0, den: 1 };

    /// The lesser of the two; the first if they are equal.
    pub(crate) fn min(self, other: Ratio) -> Ratio
        requires left { IsDegreeRatio self }
        requires right { IsDegreeRatio other }
        ensures value { value_of result ≡ lesser (value_of self) (value_of other) }
        ensures ratio { IsDegreeRatio result }
    {
        if self.cross(other) <= other.cross(self) {
            self
        } else {
            other
        }
    }

    /// The greater of the two; the second if they are equal.
    pub(crate) fn max(self, other: Ratio) -> Ratio
        requires left { IsDegreeRatio self }
        requires right { IsDegreeRatio other }
        ensures value { value_of result ≡ greater (value_of self) (value_of other) }
        ensures ratio { IsDegreeRatio result }
    {
        if self.cross(other) > other.cross(self) {
            self
        } else {
            other
        }
    }

    pub(crate) fn one_minus(self) -> Ratio
        requires { IsDegreeRatio self }
        ensures value { value_of result ≡ one_minus (value_of self) }
        ensures ratio { IsDegreeRatio result }
    {
        Ratio {
            num: self.den - self.num,
            den: self.den,
        }
    }

    /// The fraction times a weight from 0 to 1.
    pub(crate) fn times(self, weight: Dec) -> Ratio
        requires ratio { IsDegreeRatio self }
        requires from { pos 0 ≤ℤ weight.0 }
        requires to { weight.0 ≤ℤ pos 10000 }
        ensures value { value_of result ≡ times (value_of self) (unsigned_abs weight.0) }
        ensures ratio { IsStrengthRatio result }
    {
        Ratio {
            num: self.num * weight.0 as u64,
            den: self.den * 10_000,
        }
    }

    /// Whether it is below k/255.
    pub(crate) fn is_below(self, k: u8) -> bool
        requires { IsStrengthRatio self }
        ensures { IsTrue result ↔ IsBelow (value_of self) (over k 255) }
    {
        self.num * 255 < u64::from(k) * self.den
    }

    /// The fraction in 255ths, rounded down.
    pub(crate) fn floor_255(self) -> u8
        requires { IsStrengthRatio self }
        ensures { result ≡ 255 * self.num / self.den }
    {
        (255 * self.num / self.den) as u8
    }

    /// The fraction in parts of 10^9, rounded down.
    pub(crate) fn floor_nano(self) -> Nano
        requires { IsStrengthRatio self }
        ensures { result.0 ≡ self.num * 1000000000 / self.den }
    {
        Nano((u128::from(self.num) * 1_000_000_000 / u128::from(self.den)) as u64)
    }

    /// The fraction in parts of 10^9, rounded up.
    pub(crate) fn up_nano(self) -> Nano
        requires { IsStrengthRatio self }
        ensures { result.0 ≡ parts_up (value_of self) }
    {
        let den = u128::from(self.den);
        Nano(((u128::from(self.num) * 1_000_000_000 + (den - 1)) / den) as u64)
    }

    /// The same fraction in wider numbers.
    pub(crate) fn wide(self) -> Frac
        requires { IsDegreeRatio self }
        ensures value { fraction_of result ≡ value_of self }
        ensures truth { IsTruth 1000000000000 result }
    {
        Frac::over(self.num, self.den)
    }

    /// The numerator over the other's denominator and its own.
    fn cross(self, other: Ratio) -> u128
        ensures { result ≡ self.num * other.den }
    {
        u128::from(self.num) * u128::from(other.den)
    }
}
