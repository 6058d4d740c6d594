//! How far the mean of an output's singletons may be from the mean by the masses over bytes.
ghost use Rattle.std.specs.Prelude.{◌≡◌, ◌≤◌, ◌<◌, ◌+◌, ◌-◌, ◌*◌, ℕ, All, length, min};
ghost use Rattle.fz_num.specs.Fractions.{up_div};
ghost use Rattle.cell_error.specs.Errors.{total, sure_mass, most_width};
ghost use Rattle.cell_error.specs.Cuts.{masses, IsSmall};
ghost use Rattle.cell_error.specs.Means.{up as up_of, down as down_of, IsScale, IsByteRange, IsSmallDeviation};
ghost use Rattle.cell_error.specs.Means.{most_deviation};
ghost use Rattle.cell_error.specs.Means.{IsMeanError, IsSmallPull, IsGreaterPull, pulled_num, pulled_den};

use crate::cuts::{Cut, sums};
use crate::ranges::{Deviation, MassRange};

/// The quantities by which the error of a mean is computed.
#[derive(Clone, Copy)]
pub struct Scale {
    /// The width of the range, in 1/10000.
    pub width: u64,
    /// A lower bound on the sum of the exact masses, in parts of 255 * 10^9.
    pub sum: u64,
    /// How far a singleton's byte may be from it, over 255 times the width.
    pub offset: u64,
    /// How many parts a byte of the answer has.
    pub parts: u64,
}

/// How far a mean may be shifted, over a sum of masses.
#[derive(Clone, Copy)]
struct Pull {
    pull: u128,
    mass: u128,
}

/// Up and down.
#[derive(Clone, Copy)]
struct Pulls {
    up: Pull,
    down: Pull,
}

/// The least number of millionths of the range that bounds the distance from an answer, which is the mean by
/// masses over bytes rounded down to a part, to the exact mean, whatever the masses over bytes are within their
/// bounds: each exact mass is above its own by at most its rise, and below by at most its fall.
pub fn mean_error(terms: &[MassRange], deviations: &[Deviation], scale: Scale) -> u32
    requires scale { IsScale scale }
    requires terms { All (IsByteRange scale.width) terms.now }
    requires deviations { All IsSmallDeviation deviations.now }
    requires count { length terms.now ≤ 15 }
    requires pairs { length deviations.now ≡ length terms.now }
    requires some { 1 ≤ sure_mass terms.now }
    ensures { IsMeanError scale terms.now deviations.now result }
{
    let mut worst = pulls_of(terms, deviations, Cut::Nowhere, scale.width);
    for t in terms {
        let above = pulls_of(terms, deviations, Cut::From(t.at), scale.width);
        let below = pulls_of(terms, deviations, Cut::UpTo(t.at), scale.width);
        worst = worst.or(above).or(below);
    }
    let up = scale.millionths(worst.up, 1);
    let down = scale.millionths(worst.down, 0);
    up.max(down)
}

/// How far the mean by the masses of a cut may be shifted.
fn pulls_of(terms: &[MassRange], deviations: &[Deviation], cut: Cut, width: u64) -> Pulls
    requires cut { IsSmall cut }
    requires width { width ≤ most_width }
    requires terms { All (IsByteRange width) terms.now }
    requires deviations { All IsSmallDeviation deviations.now }
    requires count { length terms.now ≤ 15 }
    requires pairs { length deviations.now ≡ length terms.now }
    requires some { 1 ≤ sure_mass terms.now }
    ensures up { result.up.pull ≡ up_of terms.now deviations.now (masses cut terms.now) }
    ensures down { result.down.pull ≡ down_of terms.now deviations.now (masses cut terms.now) }
    ensures up_mass { result.up.mass ≡ total (masses cut terms.now) }
    ensures down_mass { result.down.mass ≡ total (masses cut terms.now) }
    ensures up_small { IsSmallPull result.up }
    ensures down_small { IsSmallPull result.down }
{
    let (sum, mass) = sums(terms, cut, width);
    let mut up = 0;
    let mut down = 0;
    for k in (0..terms.len()).rev() {
        let here = u128::from(terms[k].at) * mass;
        let term = deviations[k];
        up = pull_of(term.rise, term.fall, here, sum) + up;
        down = pull_of(term.fall, term.rise, here, sum) + down;
    }
    Pulls {
        up: Pull { pull: up, mass },
        down: Pull { pull: down, mass },
    }
}

/// The shift by a term: `over` counts if it is above the mean, and `under` if it is below.
fn pull_of(over: u64, under: u64, here: u128, mean: u128) -> u128
    requires over { over ≤ most_deviation }
    requires under { under ≤ most_deviation }
    requires here { here ≤ 7650038250000 }
    requires mean { mean ≤ 7650038250000 }
    ensures pull { result ≡ over * (here - mean) + under * (mean - here) }
    ensures small { result ≤ 22950114750000000000000 }
{
    if here >= mean {
        u128::from(over) * (here - mean)
    } else {
        u128::from(under) * (mean - here)
    }
}

impl Pulls {
    /// The greater of each.
    fn or(self, other: Pulls) -> Pulls
        requires up { IsSmallPull self.up × IsSmallPull other.up }
        requires down { IsSmallPull self.down × IsSmallPull other.down }
        ensures up { IsGreaterPull self.up other.up result.up }
        ensures down { IsGreaterPull self.down other.down result.down }
    {
        Pulls {
            up: self.up.or(other.up),
            down: self.down.or(other.down),
        }
    }
}

impl Pull {
    fn or(self, other: Pull) -> Pull
        requires left { IsSmallPull self }
        requires right { IsSmallPull other }
        ensures { IsGreaterPull self other result }
    {
        if self.pull * other.mass >= other.pull * self.mass {
            self
        } else {
            other
        }
    }
}

impl Scale {
    /// A shift in millionths of the range, rounded up, and at most 1000000.
    fn millionths(self, pull: Pull, floors: u64) -> u32
        requires scale { IsScale self }
        requires pull { IsSmallPull pull }
        requires floors { floors ≤ 1 }
        ensures { result ≡ min 1000000
            (up_div (1000000 * pulled_num self floors pull.pull pull.mass) (pulled_den self pull.mass)) }
    {
        let whole = u128::from(self.sum) * pull.mass;
        let ends = u128::from(self.offset * self.parts + floors * self.width);
        let num = u128::from(65_025 * self.parts) * pull.pull + ends * whole;
        let den = u128::from(255 * self.parts * self.width) * whole;
        ((1_000_000 * num + (den - 1)) / den).min(1_000_000) as u32
    }
}
