//! The grades of a term and how far each is from the degrees of its cell, byte by byte.
ghost use Rattle.std.specs.Prelude.{◌≡◌, ◌-◌, ◌≤◌, ℕ, length, IfSome, slice_get, slice_index};
ghost use Rattle.fz_num.specs.Decimals.{distance};
ghost use Rattle.fuzzy_meaning.specs.{Blocks.IsValidInput, Blocks.IsValidTerm, Places.points_of};
ghost use Rattle.point_slope.specs.Tables.{row_of, grade_of};
ghost use Rattle.error_bound.specs.Boxes.{least_from, greatest_from};
ghost use Rattle.error_bound.specs.{Errors.IsTermError, CellErrors.cell_rise, CellErrors.cell_fall};
ghost use Rattle.error_bound.specs.Reaches.{AreTermCells};

use crate::boxes::Interval;
use crate::degrees::degrees_of;
use cell_error::Deviation;
use fuzzy_meaning::{Input, Trapezoid};
use fz_num::Nano;
use point_slope::{grade, row};

/// The eps of a term over the bytes from `from` to `to`: the greatest distance, in parts of 10^9 and
/// rounded up, of a grade from the degrees of its cell. The terms of an input count from 1.
pub fn term_error(input: &Input, term: u8, from: u8, to: u8) -> Nano
    requires input { IsValidInput input.now }
    requires term_from { 1 ≤ term }
    requires term_to { term ≤ length input.now.terms }
    requires order { from ≤ to }
    ensures { IfSome (slice_get input.now.terms (term - 1))
        (λ t. IsTermError input.now t (record { from = from; to = to }) result.0) }
{
    let bytes = Interval { from, to };
    let grades = TermCells::new(input, term, bytes).over(bytes);
    Nano(u64::from(grades.rise.max(grades.fall)))
}

/// The least and the greatest grade, and the greatest rise and fall, in parts of 10^9.
#[derive(Clone, Copy)]
pub(crate) struct Grades {
    pub(crate) least: u8,
    pub(crate) greatest: u8,
    pub(crate) rise: u32,
    pub(crate) fall: u32,
}

/// A term's grades at the bytes of an interval, and how far the degrees of their cells rise above them and fall
/// below, in parts of 10^9.
#[derive(Clone, Copy)]
pub(crate) struct TermCells {
    grades: [u8; 256],
    rises: [u32; 256],
    falls: [u32; 256],
}

impl TermCells {
    /// No grades yet.
    pub(crate) const NONE: TermCells = TermCells {
        grades: [0; 256],
        rises: [0; 256],
        falls: [0; 256],
    };

    /// The cells of a term over an interval. The terms of an input count from 1.
    pub(crate) fn new(input: &Input, term: u8, bytes: Interval) -> TermCells
        requires input { IsValidInput input.now }
        requires term_from { 1 ≤ term }
        requires term_to { term ≤ length input.now.terms }
        ensures { IfSome (slice_get input.now.terms (term - 1)) (λ t. AreTermCells input.now t bytes result) }
    {
        let table = row(input, term);
        let term = &input.terms.as_slice()[term as usize - 1];
        cells_under(input, term, table, bytes)
    }

    /// The least and the greatest grade, and the greatest rise and fall, over an interval.
    pub(crate) fn over(&self, bytes: Interval) -> Grades
        requires { bytes.from ≤ bytes.to }
        ensures least { result.least ≡ least_from
            (λ n. slice_index self.now.grades n) bytes.from (bytes.to - bytes.from) }
        ensures greatest { result.greatest ≡ greatest_from
            (λ n. slice_index self.now.grades n) bytes.from (bytes.to - bytes.from) }
        ensures rise { result.rise ≡ greatest_from
            (λ n. slice_index self.now.rises n) bytes.from (bytes.to - bytes.from) }
        ensures fall { result.fall ≡ greatest_from
            (λ n. slice_index self.now.falls n) bytes.from (bytes.to - bytes.from) }
    {
        let from = usize::from(bytes.from);
        let mut grades = Grades {
            least: self.grades[from],
            greatest: self.grades[from],
            rise: self.rises[from],
            fall: self.falls[from],
        };
        for b in from..usize::from(bytes.to) {
            grades = Grades {
                least: grades.least.min(self.grades[b + 1]),
                greatest: grades.greatest.max(self.grades[b + 1]),
                rise: grades.rise.max(self.rises[b + 1]),
                fall: grades.fall.max(self.falls[b + 1]),
            };
        }
        grades
    }
}

fn cells_under(input: &Input, term: &Trapezoid, table: [u8; 4], bytes: Interval) -> TermCells
    requires input { IsValidInput input.now }
    requires term { IsValidTerm input.now.lo input.now.hi term.now }
    ensures grades { (n : ℕ) → bytes.from ≤ n → n ≤ bytes.to → slice_index result.grades n ≡ grade_of table n }
    ensures rises { (n : ℕ) → bytes.from ≤ n → n ≤ bytes.to → slice_index result.rises n
        ≡ cell_rise 1000000000 (points_of input.now term.now) (distance input.now.lo input.now.hi) (grade_of table) n }
    ensures falls { (n : ℕ) → bytes.from ≤ n → n ≤ bytes.to → slice_index result.falls n
        ≡ cell_fall 1000000000 (points_of input.now term.now) (distance input.now.lo input.now.hi) (grade_of table) n }
    ensures rises_small { (n : ℕ) → bytes.from ≤ n → n ≤ bytes.to → slice_index result.rises n ≤ 1000000000 }
    ensures falls_small { (n : ℕ) → bytes.from ≤ n → n ≤ bytes.to → slice_index result.falls n ≤ 1000000000 }
{
    let mut cells = TermCells::NONE;
    for b in usize::from(bytes.from)..usize::from(bytes.to) + 1 {
        cells.grades[b] = grade(table, b as u8);
        let deviation = deviation_of_cell(input, term, table, b as u8);
        cells.rises[b] = deviation.rise as u32;
        cells.falls[b] = deviation.fall as u32;
    }
    cells
}

/// How far the degrees of one byte's cell rise above its grade, and fall below.
fn deviation_of_cell(input: &Input, term: &Trapezoid, table: [u8; 4], b: u8) -> Deviation
    requires input { IsValidInput input.now }
    requires term { IsValidTerm input.now.lo input.now.hi term.now }
    ensures rise { result.rise
        ≡ cell_rise 1000000000 (points_of input.now term.now) (distance input.now.lo input.now.hi) (grade_of table) b }
    ensures fall { result.fall
        ≡ cell_fall 1000000000 (points_of input.now term.now) (distance input.now.lo input.now.hi) (grade_of table) b }
    ensures rise_small { result.rise ≤ 1000000000 }
    ensures fall_small { result.fall ≤ 1000000000 }
{
    let degrees = degrees_of(input, term, Interval { from: b, to: b });
    let g = grade(table, b);
    Deviation {
        rise: degrees.high.wide().rise(g).0,
        fall: degrees.low.wide().fall(g).0,
    }
}
