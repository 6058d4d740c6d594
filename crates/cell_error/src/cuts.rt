//! Masses that are high on one side of a singleton and low on the other.
ghost use Rattle.std.specs.Prelude.{◌≡◌, ◌≤◌, ◌*◌, ℕ, All, length};
ghost use Rattle.cell_error.specs.Errors.{IsRange, weighted, total, most_width, whole_mass};
ghost use Rattle.cell_error.specs.Cuts.{is_high, masses, IsSmall};

use crate::ranges::MassRange;

/// Which masses are high: none, those from a singleton on, those up to it, or those of the singletons whose
/// product with the first number is at least the second, or at most.
#[derive(Clone, Copy)]
pub(crate) enum Cut {
    Nowhere,
    From(u64),
    UpTo(u64),
    AtLeast(u128, u128),
    AtMost(u128, u128),
}

/// The sum of the singletons weighted by the masses of a cut, and the sum of the masses.
pub(crate) fn sums(terms: &[MassRange], cut: Cut, width: u64) -> (u128, u128)
    requires cut { IsSmall cut }
    requires width { width ≤ most_width }
    requires terms { All (IsRange width) terms.now }
    requires count { length terms.now ≤ 15 }
    ensures sum { result.0 ≡ weighted terms.now (masses cut terms.now) }
    ensures mass { result.1 ≡ total (masses cut terms.now) }
    ensures within { result.0 ≤ width * result.1 }
    ensures small { result.1 ≤ 15 * whole_mass }
{
    let mut sum = 0;
    let mut mass = 0;
    for k in (0..terms.len()).rev() {
        let t = terms[k];
        let m = if is_high(cut, t.at) { t.high } else { t.low };
        sum = u128::from(t.at) * u128::from(m) + sum;
        mass = u128::from(m) + mass;
    }
    (sum, mass)
}

fn is_high(cut: Cut, at: u64) -> bool
    requires cut { IsSmall cut }
    requires at { at ≤ most_width }
    ensures { result ≡ is_high cut at }
{
    match cut {
        Cut::Nowhere => false,
        Cut::From(c) => c <= at,
        Cut::UpTo(c) => at <= c,
        Cut::AtLeast(x, y) => y <= x * u128::from(at),
        Cut::AtMost(x, y) => x * u128::from(at) <= y,
    }
}
