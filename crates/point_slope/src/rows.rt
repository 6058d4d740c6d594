//! The tables of terms.
ghost use Rattle.std.specs.Prelude.{◌≡◌, ◌-◌, ◌≤◌, length, ◌++◌, slice_get, Some, IfOk, OnOk, option_map};
ghost use Rattle.fuzzy_meaning.specs.Blocks.{IsValid, IsValidInput, IsValidTerm};
ghost use Rattle.point_slope.specs.Tables.{slope_of, row_of, rows_of, table_of};

use byte_scaling::byte_within;
use byte_scaling::laws::bytes_ascend;
use fuzzy_meaning::{Block, Input, Trapezoid};
use fz_list::Memory;
use std::alloc::Global;

/// The slope of a side that is w bytes wide: 255/w to the nearest, a tie rounding up, and 0 for a vertical side.
pub fn slope(w: u8) -> u8
    ensures { result ≡ slope_of w }
{
    if w == 0 {
        return 0;
    }
    let w = u16::from(w);
    ((510 + w) / (2 * w)) as u8
}

/// The table of a term, which counts from 1 in its input: the first and the last byte of its
/// support and the slopes of the rising and the falling side.
pub fn row(input: &Input, term: u8) -> [u8; 4]
    requires input { IsValidInput input.now }
    requires term_from { 1 ≤ term }
    requires term_to { term ≤ length input.now.terms }
    ensures { option_map (row_of input.now) (slice_get input.now.terms (term - 1)) ≡ Some result }
{
    row_of_term(input, &input.terms.as_slice()[term as usize - 1])
}

fn row_of_term(input: &Input, term: &Trapezoid) -> [u8; 4]
    requires input { IsValidInput input.now }
    requires term { IsValidTerm input.now.lo input.now.hi term.now }
    ensures { result ≡ row_of input.now term.now }
{
    bytes_ascend();
    let (first, rise) = match term.a {
        None => (0, 0),
        Some(a) => {
            let first = byte_within(input, a);
            (first, slope(byte_within(input, term.b) - first))
        }
    };
    let (last, fall) = match term.d {
        None => (255, 0),
        Some(d) => {
            let last = byte_within(input, d);
            (last, slope(last - byte_within(input, term.c)))
        }
    };
    [first, last, rise, fall]
}

/// The tables of all input terms, in the order of their declaration.
pub fn table(alloc: Global, block: &Block) -> Result<Vec<[u8; 4]>, Memory>
    requires { IsValid block.now }
    ensures { IfOk result (λ rows. rows.items ≡ table_of block.now) }
{
    let mut rows = Vec::new(alloc);
    for input in block.inputs.as_slice() {
        push_rows(&mut rows, input)?;
    }
    Ok(rows)
}

fn push_rows(rows: &mut Vec<[u8; 4]>, input: &Input) -> Result<(), Memory>
    requires { IsValidInput input.now }
    ensures { OnOk result (rows.new.items ≡ rows.old.items ++ rows_of input.now) }
{
    for term in input.terms.as_slice() {
        rows.push(row_of_term(input, term)).map_err(|_| Memory)?;
    }
    Ok(())
}
