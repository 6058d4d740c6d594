//! The least error that holds for all masses.
ghost use Rattle.std.specs.Prelude.{◌≡◌, ◌≤◌, ◌<◌, ◌*◌, ◌↔◌, ℕ, All, length, IsTrue};
ghost use Rattle.fz_num.specs.Fractions.{over};
ghost use Rattle.cell_error.specs.Errors.{IsAnswer, IsRange, weighted, total, answer_of, IsWithin, Covers, most_width};
ghost use Rattle.cell_error.specs.Errors.{whole_mass};
ghost use Rattle.cell_error.specs.Errors.{IsCellError};
ghost use Rattle.cell_error.specs.Cuts.{is_high, masses, IsErrorAt, IsSmall};
ghost use Rattle.cell_error.specs.declared.cuts.Cut.TheVariants.{Nowhere, AtLeast, AtMost};

use crate::cuts::{Cut, sums};
use crate::ranges::{Answer, MassRange};

/// The least number of millionths of the range that bounds the distance from the answer to the answer for any
/// masses within the given bounds. If there is no mass, `rest` is the answer for them.
pub fn least_error(terms: &[MassRange], rest: u64, answer: Answer) -> u32
    requires answer { IsAnswer answer }
    requires terms { All (IsRange answer.width) terms.now }
    requires count { length terms.now ≤ 15 }
    requires rest { rest ≤ answer.width }
    ensures error { IsCellError answer terms.now rest result }
    ensures small { result ≤ 1000000 }
{
    let mut error = error_at(terms, rest, answer, Cut::Nowhere);
    for t in terms {
        let above = error_at(terms, rest, answer, Cut::From(t.at));
        let below = error_at(terms, rest, answer, Cut::UpTo(t.at));
        error = error.max(above).max(below);
    }
    error
}

/// Whether an error holds for all masses, which takes three passes and no division.
pub fn serves(terms: &[MassRange], rest: u64, answer: Answer, error: u32) -> bool
    requires answer { IsAnswer answer }
    requires terms { All (IsRange answer.width) terms.now }
    requires count { length terms.now ≤ 15 }
    requires rest { rest ≤ answer.width }
    requires error { error ≤ 1000000 }
    ensures { IsTrue result ↔ Covers answer terms.now rest error }
{
    let step = u128::from(answer.parts) * 1_000_000;
    let here = u128::from(answer.value) * 1_000_000;
    let far = u128::from(error) * u128::from(answer.parts);
    let width = u128::from(answer.width);
    let top = (here + far) * width;
    let bottom = here.saturating_sub(far) * width;
    let up = is_up(terms, step, top, answer.width);
    let down = is_down(terms, step, bottom, answer.width);
    let rests = rest_serves(terms, rest, step, top, bottom, answer.width);
    are_all(up, down, rests)
}

fn are_all(up: bool, down: bool, rests: bool) -> bool
    ensures all { IsTrue result → IsTrue up × IsTrue down × IsTrue rests }
    ensures only { IsTrue up → IsTrue down → IsTrue rests → IsTrue result }
{
    up && down && rests
}

/// Whether no masses give more than top/step.
fn is_up(terms: &[MassRange], step: u128, top: u128, width: u64) -> bool
    requires step { step ≤ 65280000000 }
    requires top { top ≤ 300000000000000000000 }
    requires width { width ≤ most_width }
    requires terms { All (IsRange width) terms.now }
    requires count { length terms.now ≤ 15 }
    ensures { IsTrue result ↔ (step * weighted terms.now (masses (AtLeast step top) terms.now)
        ≤ top * total (masses (AtLeast step top) terms.now)) }
{
    let (sum, mass) = sums(terms, Cut::AtLeast(step, top), width);
    step * sum <= top * mass
}

/// Whether no masses give less than bottom/step.
fn is_down(terms: &[MassRange], step: u128, bottom: u128, width: u64) -> bool
    requires step { step ≤ 65280000000 }
    requires bottom { bottom ≤ 300000000000000000000 }
    requires width { width ≤ most_width }
    requires terms { All (IsRange width) terms.now }
    requires count { length terms.now ≤ 15 }
    ensures { IsTrue result ↔ (bottom * total (masses (AtMost step bottom) terms.now)
        ≤ step * weighted terms.now (masses (AtMost step bottom) terms.now)) }
{
    let (sum, mass) = sums(terms, Cut::AtMost(step, bottom), width);
    bottom * mass <= step * sum
}

/// Whether, if there may be no mass, the answer in its place is within the bounds.
fn rest_serves(
    terms: &[MassRange],
    rest: u64,
    step: u128,
    top: u128,
    bottom: u128,
    width: u64,
) -> bool
    requires step { step ≤ 65280000000 }
    requires width { width ≤ most_width }
    requires terms { All (IsRange width) terms.now }
    requires count { length terms.now ≤ 15 }
    requires rest { rest ≤ width }
    ensures { IsTrue result ↔ (total (masses Nowhere terms.now) ≡ 0 → (step * rest ≤ top) × (bottom ≤ step * rest)) }
{
    let (_, mass) = sums(terms, Cut::Nowhere, width);
    if mass > 0 {
        return true;
    }
    let there = step * u128::from(rest);
    there <= top && bottom <= there
}

/// How far the answer is from that for the masses of a cut, rounded up.
fn error_at(terms: &[MassRange], rest: u64, answer: Answer, cut: Cut) -> u32
    requires cut { IsSmall cut }
    requires answer { IsAnswer answer }
    requires terms { All (IsRange answer.width) terms.now }
    requires count { length terms.now ≤ 15 }
    requires rest { rest ≤ answer.width }
    ensures error { IsErrorAt answer (answer_of terms.now rest (masses cut terms.now)) result }
    ensures small { result ≤ 1000000 }
{
    let (sum, mass) = sums(terms, cut, answer.width);
    if mass == 0 {
        apart(answer, u128::from(rest), 1)
    } else {
        apart(answer, sum, mass)
    }
}

/// |value/parts of the range - sum/mass| in millionths of the range, rounded up.
fn apart(answer: Answer, sum: u128, mass: u128) -> u32
    requires answer { IsAnswer answer }
    requires mass_from { 0 < mass }
    requires mass_to { mass ≤ 15 * whole_mass }
    requires sum { sum ≤ answer.width * mass }
    ensures error { IsErrorAt answer (over sum mass) result }
    ensures small { result ≤ 1000000 }
{
    let here = u128::from(answer.value) * u128::from(answer.width) * mass;
    let there = u128::from(answer.parts) * sum;
    let whole = u128::from(answer.parts) * u128::from(answer.width) * mass;
    ((here.abs_diff(there) * 1_000_000 + (whole - 1)) / whole) as u32
}
