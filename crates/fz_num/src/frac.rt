//! Fractions from 0 to 1, and lengths.
ghost use Rattle.std.specs.Prelude.{◌≡◌, ℕ, ◌*◌, ◌/◌, ◌⊎◌, ◌<◌, ◌≤◌, ◌≤ℤ◌, pos, unsigned_abs};
ghost use Rattle.fz_num.specs.Fractions.{over, order, lesser, greater, one_minus, times, up_div, rise, fall, IsNear};

use crate::dec::Dec;
use std::cmp::Ordering;

/// A fraction. Its denominator is above 0; it need not be in lowest terms.
#[derive(Clone, Copy)]
pub struct Frac {
    pub num: i128,
    pub den: i128,
}

/// A length in parts of 10^9.
#[derive(Clone, Copy, PartialEq, Eq, PartialOrd, Ord, Debug)]
pub struct Nano(pub u64);

const BILLION: u128 = 1_000_000_000;

/// The operations on fractions require values from 0 to 1 with denominators of at most 10^16.
impl Frac {
    ghost use Rattle.fz_num.specs.Fractions.{fraction_of, IsTruth};

    /// A number over another.
    pub fn over(num: u64, den: u64) -> Frac
        requires { 0 < den }
        ensures num { result.num ≡ pos num }
        ensures den { result.den ≡ pos den }
        ensures value { fraction_of result ≡ over num den }
        ensures truth { num ≤ den → IsTruth den result }
    {
        Frac {
            num: i128::from(num),
            den: i128::from(den),
        }
    }

    pub fn cmp(self, other: Frac) -> Ordering
        requires left { IsTruth 10000000000000000 self }
        requires right { IsTruth 10000000000000000 other }
        ensures { result ≡ order (fraction_of self) (fraction_of other) }
    {
        self.cross(other).cmp(&other.cross(self))
    }

    /// The lesser of the two; if they are equal, the first.
    pub fn min(self, other: Frac) -> Frac
        requires left { IsTruth 10000000000000000 self }
        requires right { IsTruth 10000000000000000 other }
        ensures value { fraction_of result ≡ lesser (fraction_of self) (fraction_of other) }
        ensures choice { (result ≡ self) ⊎ (result ≡ other) }
    {
        if self.cross(other) <= other.cross(self) {
            self
        } else {
            other
        }
    }

    /// The greater of the two; if they are equal, the second.
    pub fn max(self, other: Frac) -> Frac
        requires left { IsTruth 10000000000000000 self }
        requires right { IsTruth 10000000000000000 other }
        ensures value { fraction_of result ≡ greater (fraction_of self) (fraction_of other) }
        ensures choice { (result ≡ self) ⊎ (result ≡ other) }
    {
        if self.cross(other) > other.cross(self) {
            self
        } else {
            other
        }
    }

    pub fn one_minus(self) -> Frac
        requires { IsTruth 10000000000000000 self }
        ensures value { fraction_of result ≡ one_minus (fraction_of self) }
        ensures truth { IsTruth (unsigned_abs self.den) result }
    {
        Frac {
            num: self.den - self.num,
            den: self.den,
        }
    }

    /// The fraction times a weight of 0 to 1. Its denominator may be 10^12 at most.
    pub fn times(self, weight: Dec) -> Frac
        requires truth { IsTruth 1000000000000 self }
        requires from { pos 0 ≤ℤ weight.0 }
        requires to { weight.0 ≤ℤ pos 10000 }
        ensures value { fraction_of result ≡ times (fraction_of self) (unsigned_abs weight.0) }
        ensures truth { IsTruth (unsigned_abs self.den * 10000) result }
    {
        Frac::over(self.num as u64 * weight.0 as u64, self.den as u64 * 10_000)
    }

    /// How far it is above g/255, rounded up.
    pub fn rise(self, g: u8) -> Nano
        requires { IsTruth 10000000000000000 self }
        ensures value { result.0 ≡ rise 1000000000 g (fraction_of self) }
        ensures near { IsNear 1000000000 g (fraction_of self) result.0 (fall 1000000000 g (fraction_of self)) }
        ensures small { result.0 ≤ 1000000000 }
        ensures least { (r f : ℕ) → IsNear 1000000000 g (fraction_of self) r f → result.0 ≤ r }
    {
        let over = (self.num as u128 * 255).saturating_sub(u128::from(g) * self.den as u128);
        Nano(self.parts_of(over))
    }

    /// How far it is below g/255, rounded up.
    pub fn fall(self, g: u8) -> Nano
        requires { IsTruth 10000000000000000 self }
        ensures value { result.0 ≡ fall 1000000000 g (fraction_of self) }
        ensures near { IsNear 1000000000 g (fraction_of self) (rise 1000000000 g (fraction_of self)) result.0 }
        ensures small { result.0 ≤ 1000000000 }
        ensures least { (r f : ℕ) → IsNear 1000000000 g (fraction_of self) r f → result.0 ≤ f }
    {
        let under = (u128::from(g) * self.den as u128).saturating_sub(self.num as u128 * 255);
        Nano(self.parts_of(under))
    }

    /// The fraction in parts of 10^9, rounded down.
    pub fn floor_nano(self) -> Nano
        requires { IsTruth 10000000000000000 self }
        ensures { result.0 ≡ unsigned_abs self.num * 1000000000 / unsigned_abs self.den }
    {
        Nano((self.num as u128 * BILLION / self.den as u128) as u64)
    }

    /// A numerator over 255 times the denominator, at most 1, in parts of 10^9, rounded up.
    fn parts_of(self, num: u128) -> u64
        requires truth { IsTruth 10000000000000000 self }
        requires num { num ≤ 255 * unsigned_abs self.den }
        ensures value { result ≡ up_div (num * 1000000000) (255 * unsigned_abs self.den) }
        ensures small { result ≤ 1000000000 }
    {
        let whole = 255 * self.den as u128;
        ((num * BILLION + (whole - 1)) / whole) as u64
    }

    /// The numerator over the product of both denominators. Numerator and denominator fit in 64 bits, so it is one
    /// product.
    fn cross(self, other: Frac) -> u128
        requires left { IsTruth 10000000000000000 self }
        requires right { IsTruth 10000000000000000 other }
        ensures { result ≡ unsigned_abs self.num * unsigned_abs other.den }
    {
        u128::from(self.num as u64) * u128::from(other.den as u64)
    }
}
