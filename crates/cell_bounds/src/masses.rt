//! The masses that an output's terms may have on a cell, and the answer there.
ghost use Rattle.byte_scaling.specs.Widths.{parts};
ghost use Rattle.std.specs.Prelude.{◌≡◌, ◌≤◌, ◌<◌, ◌+◌, ◌*◌, ◌↔◌, ℕ, All, IsTrue, length, take, slice_index};
ghost use Rattle.std.specs.Prelude.{IfSome, IfNone, None};
ghost use Rattle.fz_num.specs.Decimals.{distance};
ghost use Rattle.cell_error.specs.Errors.{IsRange, IsCellError, Covers, sure_mass as sure_mass_of};
ghost use Rattle.fuzzy_meaning.specs.Blocks.{IsValidOutput, output_at};
ghost use Rattle.error_bound.specs.{Masses.AreMasses, Reaches.IsTable};
ghost use Rattle.error_bound.specs.MassRanges.{answer_at, rest_of};
ghost use Rattle.cell_bounds.specs.Cells.{IsCell, IsUnsure, mass_sum, dot_sum, answer_by};
ghost use Rattle.cell_bounds.specs.CellMasses.{AreFit, AreCellMasses, terms_of};
ghost use Rattle.error_bound.specs.Reaches.{block_of, box_of, parts_of};

use byte_scaling::{Width, near};
use cell_error::{Answer, MassRange, least_error, serves};
use error_bound::{BoxTable, Masses, output_of, ranges_of};
use fuzzy_meaning::Output;

/// The ranges of the masses of an output's terms on a cell, how far above the low end of the output's range the
/// answer is if there is no mass, and the answer over bytes.
#[derive(Clone, Copy)]
pub(crate) struct CellMasses {
    pub(crate) ranges: [MassRange; 15],
    /// The number of the output's terms.
    pub(crate) count: usize,
    pub(crate) rest: u64,
    pub(crate) answer: Answer,
}

impl CellMasses {
    /// How far the answer may be from the exact ones.
    pub(crate) fn error(&self) -> u32
        requires { AreFit self.now }
        ensures error { IsCellError self.now.answer (terms_of self.now) self.now.rest result }
        ensures small { result ≤ 1000000 }
    {
        least_error(&self.ranges[..self.count], self.rest, self.answer)
    }

    /// Whether an error covers all masses.
    pub(crate) fn are_served(&self, error: u32) -> bool
        requires fit { AreFit self.now }
        requires error { error ≤ 1000000 }
        ensures { IsTrue result ↔ Covers self.now.answer (terms_of self.now) self.now.rest error }
    {
        serves(&self.ranges[..self.count], self.rest, self.answer, error)
    }
}

/// The masses of an output on a table's cell. With NC there are none if no mass is sure to be above 0, or all masses
/// over bytes are 0.
pub(crate) fn cell_masses(table: &BoxTable, out: u8, masses: &Masses) -> Option<CellMasses>
    requires table { IsTable table.now }
    requires cell { IsCell (box_of table.now) }
    requires out_from { 1 ≤ out }
    requires out_to { out ≤ length (block_of table.now).outputs }
    requires masses { AreMasses (block_of table.now) (box_of table.now) out masses.now }
    requires ordered { (t : ℕ) → t < 15 → slice_index masses.now.lows t ≤ slice_index masses.now.highs t }
    ensures masses { IfSome result (λ c. IfSome (output_at (block_of table.now) out)
        (λ x. AreCellMasses (block_of table.now) (box_of table.now) out x (parts_of table.now) c)) }
    ensures fit { IfSome result AreFit }
    ensures none { IfNone result
        (IfSome (output_at (block_of table.now) out) (IsUnsure (block_of table.now) (box_of table.now) out)) }
{
    let output = output_of(table.table.block, out);
    let ranges = ranges_of(output, &masses.lows, &masses.highs);
    let width = table.table.width;
    match answer(output, &masses.byte_highs, width) {
        Some(value) => with_rest(output, ranges, width, value),
        None => None,
    }
}

/// The answer from the masses over bytes. With NC there is none if they are all 0.
fn answer(output: &Output, masses: &[u64; 15], width: Width) -> Option<u64>
    requires output { IsValidOutput output.now }
    requires masses { (k : ℕ) → k < 15 → slice_index masses.now k ≤ 255 }
    ensures some { IfSome result (λ q. (before : ℕ)
        → answer_by (slice_index masses.now) (parts width) output.now before ≡ q) }
    ensures small { IfSome result (λ q. q ≤ 255 * parts width) }
    ensures nc { IfNone result (output.now.default ≡ None) }
    ensures none { IfNone result (mass_sum (slice_index masses.now) 0 output.now.singletons ≡ 0) }
{
    let parts = u64::from(width.parts());
    let (mass, dot) = byte_sums(output, masses);
    if mass > 0 {
        Some(parts * dot / mass)
    } else {
        match output.default {
            Some(number) => Some(parts * u64::from(near(output, number))),
            None => None,
        }
    }
}

/// The sum of the masses, and that of the singletons' bytes weighted by them.
fn byte_sums(output: &Output, masses: &[u64; 15]) -> (u64, u64)
    requires output { IsValidOutput output.now }
    requires masses { (k : ℕ) → k < 15 → slice_index masses.now k ≤ 255 }
    ensures mass { result.0 ≡ mass_sum (slice_index masses.now) 0 output.now.singletons }
    ensures dot { result.1 ≡ dot_sum (slice_index masses.now) output.now 0 output.now.singletons }
    ensures within { result.1 ≤ 255 * result.0 }
    ensures small { result.0 ≤ 3825 }
{
    let singletons = output.singletons.as_slice();
    let mut mass = 0;
    let mut dot = 0;
    for k in (0..singletons.len()).rev() {
        mass = masses[k] + mass;
        dot = u64::from(near(output, singletons[k])) * masses[k] + dot;
    }
    (mass, dot)
}

/// The masses with DEFAULT as the answer if there is no mass; with NC `None`, unless some mass is sure to be above 0.
fn with_rest(
    output: &Output,
    ranges: [MassRange; 15],
    width: Width,
    value: u64,
) -> Option<CellMasses>
    requires output { IsValidOutput output.now }
    requires terms { All (IsRange (distance output.now.lo output.now.hi)) (take (length output.now.singletons) ranges) }
    requires value { value ≤ 255 * parts width }
    ensures answer { IfSome result (λ c. c.answer ≡ answer_at (parts width) output.now value) }
    ensures terms { IfSome result (λ c. terms_of c ≡ take (length output.now.singletons) ranges) }
    ensures rest { IfSome result (λ c. c.rest ≡ rest_of output.now) }
    ensures fit { IfSome result AreFit }
    ensures sure { IfSome result (λ c. output.now.default ≡ None
        → 0 < sure_mass_of (take (length output.now.singletons) ranges)) }
    ensures nc { IfNone result (output.now.default ≡ None) }
    ensures none { IfNone result (sure_mass_of (take (length output.now.singletons) ranges) ≡ 0) }
{
    let count = output.singletons.len();
    let answer = Answer {
        value,
        parts: 255 * u64::from(width.parts()),
        width: output.hi.above(output.lo),
    };
    match output.default {
        Some(number) => Some(CellMasses {
            ranges,
            count,
            rest: number.above(output.lo),
            answer,
        }),
        None => {
            if sure_mass(&ranges[..count], output) > 0 {
                Some(CellMasses {
                    ranges,
                    count,
                    rest: 0,
                    answer,
                })
            } else {
                None
            }
        }
    }
}

/// The sum of the least masses.
fn sure_mass(terms: &[MassRange], output: &Output) -> u64
    requires terms { All (IsRange (distance output.now.lo output.now.hi)) terms.now }
    requires count { length terms.now ≤ 15 }
    ensures { result ≡ sure_mass_of terms.now }
{
    let mut sum = 0;
    for k in (0..terms.len()).rev() {
        sum = terms[k].low + sum;
    }
    sum
}
