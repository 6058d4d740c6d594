//! Walks over the cells of a box.
ghost use Rattle.std.specs.Prelude.{◌≡◌, ◌≤◌, ◌<◌, ◌+◌, ℕ, IfSome, IfNone, IfOk, IfErr, IsTrue, ◌↔◌, Some};
ghost use Rattle.std.specs.Prelude.{length, map, set, slice_get, slice_index};
ghost use Rattle.fuzzy_meaning.specs.Blocks.{output_at};
ghost use Rattle.error_bound.specs.declared.boxes.Interval.{Interval as TheInterval};
ghost use Rattle.error_bound.specs.{Boxes.IsBox, Boxes.IsBoxOf, Reaches.IsBlockTable};
ghost use Rattle.cell_bounds.specs.{Cells.IsCell, Walks.IsWalk, Walks.IsRaised, Walks.AreAtMost};
ghost use Rattle.cell_bounds.specs.Walks.{whole_ranges, IsFirstFound, AreRaisedBy};
ghost use Rattle.cell_bounds.specs.CellBounds.{IsCellCount, IsCellsBound, IsFirstCellAbove, cell_count, IsUnsureOn};
ghost use Rattle.cell_bounds.specs.CellBounds.{IsFirstUnsure};
ghost use Rattle.error_bound.specs.Reaches.{block_of, box_of, parts_of, IsTableOf};
ghost use Rattle.byte_scaling.specs.Widths.{parts};

use crate::cells::count_above;
use arrayvec::ArrayVec;
use error_bound::{BlockTable, BoxTable, ByteBox, Interval};

/// The greatest number of cells in the box of a leaf of cells.
pub const MOST_CELLS: u32 = 64;

/// A cell, by its bytes, on which the Bound of an output, counted from 1, is above its limit or missing.
#[derive(Clone, Drop)]
pub struct CellAbove {
    pub bytes: ArrayVec<u8, 8>,
    pub out: u8,
    pub bound: u32,
}

/// What is looked for on each cell: Bounds above their limits, of the outputs at the indices from `first` to below
/// `end`. Each limit is at the index of its output.
#[derive(Clone, Copy)]
pub(crate) struct Walk<'a> {
    table: &'a BlockTable<'a>,
    limits: &'a [u32],
    first: u8,
    end: u8,
}

/// The greatest Bound of a box's cells for each output at its index; or the first cell with one above
/// its limit, with the first input's byte rising slowest, and its first such output.
pub fn cells_bounds(
    table: &BlockTable,
    bytes: &ByteBox,
    limits: &[u32],
) -> Result<[u32; 4], CellAbove>
    requires table { IsBlockTable table.now }
    requires bytes { IsBoxOf table.now.block.now bytes.now.0.items }
    requires limits { (k : ℕ) → slice_index limits.now k ≤ 1000000 }
    requires all { length table.now.block.now.outputs ≤ length limits.now }
    ensures bounds { IfOk result (λ bounds. (k : ℕ) → k < length table.now.block.now.outputs
        → IfSome (output_at table.now.block.now (k + 1))
        (λ x. IsCellsBound table.now.block.now bytes.now.0.items (k + 1) x (parts table.now.width)
        (slice_index bounds k))) }
    ensures within { IfOk result (AreAtMost limits.now) }
    ensures above { IfErr result (λ a. IsFirstCellAbove table.now.block.now (parts table.now.width) limits.now 1
        (length table.now.block.now.outputs) bytes.now.0.items a.bytes.items a.out a.bound) }
{
    let walk = Walk {
        table,
        limits,
        first: 0,
        end: table.block.outputs.len() as u8,
    };
    let mut cell = BoxTable::over(table, bytes.copied());
    cell.mark_still_rules();
    walk.over(bytes.copied(), &mut cell, [0; 4])
}

/// The same without limits, or the first output that has no Bound on some cell.
pub fn sure_cells_bounds(table: &BlockTable, bytes: &ByteBox) -> Result<[u32; 4], u8>
    requires table { IsBlockTable table.now }
    requires bytes { IsBoxOf table.now.block.now bytes.now.0.items }
    ensures bounds { IfOk result (λ bounds. (k : ℕ) → k < length table.now.block.now.outputs
        → IfSome (output_at table.now.block.now (k + 1))
        (λ x. IsCellsBound table.now.block.now bytes.now.0.items (k + 1) x (parts table.now.width)
        (slice_index bounds k))) }
    ensures within { IfOk result (AreAtMost whole_ranges) }
    ensures unsure { IfErr result (IsFirstUnsure table.now.block.now (parts table.now.width) bytes.now.0.items) }
{
    let whole = [1_000_000; 4];
    match cells_bounds(table, bytes, &whole) {
        Ok(bounds) => Ok(bounds),
        Err(above) => Err(first_unsure(table, bytes, above.out)),
    }
}

/// The first output that has no Bound on some cell of a box, given one that has none.
fn first_unsure(table: &BlockTable, bytes: &ByteBox, known: u8) -> u8
    requires table { IsBlockTable table.now }
    requires bytes { IsBoxOf table.now.block.now bytes.now.0.items }
    requires known_from { 1 ≤ known }
    requires known_to { known ≤ length table.now.block.now.outputs }
    requires known { IsUnsureOn table.now.block.now (parts table.now.width) bytes.now.0.items known }
    ensures { IsFirstUnsure table.now.block.now (parts table.now.width) bytes.now.0.items result }
{
    let whole = [1_000_000; 4];
    let mut cell = BoxTable::over(table, bytes.copied());
    for place in 0..known - 1 {
        let walk = Walk {
            table: &*table,
            limits: &whole,
            first: place,
            end: place + 1,
        };
        match walk.over(bytes.copied(), &mut cell, [0; 4]) {
            Ok(_) => {}
            Err(above) => return above.out,
        }
    }
    known
}

impl Walk<'_> {
    /// The numbers raised to at least the Bounds of a box's cells, or the first cell above a limit. The table is
    /// moved from cell to cell.
    fn over(
        &self,
        bytes: ByteBox,
        cell: &mut BoxTable,
        so_far: [u32; 4],
    ) -> Result<[u32; 4], CellAbove>
        requires walk { IsWalk self.now }
        requires table { IsTableOf self.now.table.now cell.old }
        requires bytes { IsBoxOf self.now.table.now.block.now bytes.0.items }
        requires so_far { AreAtMost self.now.limits.now so_far }
        ensures table { IsTableOf self.now.table.now cell.new }
        ensures raised { IfOk result (AreRaisedBy self.now bytes.0.items so_far) }
        ensures within { IfOk result (AreAtMost self.now.limits.now) }
        ensures above { IfErr result (IsFirstFound self.now bytes.0.items) }
    {
        let Some(place) = first_wide(&bytes) else {
            return self.at_cell(&bytes, cell, so_far);
        };
        let (left, right) = parted(bytes, place);
        let raised = self.over(left, cell, so_far)?;
        self.over(right, cell, raised)
    }

    /// The same for a box of one cell.
    fn at_cell(
        &self,
        bytes: &ByteBox,
        cell: &mut BoxTable,
        so_far: [u32; 4],
    ) -> Result<[u32; 4], CellAbove>
        requires walk { IsWalk self.now }
        requires table { IsTableOf self.now.table.now cell.old }
        requires bytes { IsBoxOf self.now.table.now.block.now bytes.now.0.items }
        requires cell { IsCell bytes.now.0.items }
        requires so_far { AreAtMost self.now.limits.now so_far }
        ensures table { IsTableOf self.now.table.now cell.new }
        ensures raised { IfOk result (AreRaisedBy self.now bytes.now.0.items so_far) }
        ensures within { IfOk result (AreAtMost self.now.limits.now) }
        ensures above { IfErr result (IsFirstFound self.now bytes.now.0.items) }
    {
        cell.move_to(bytes);
        let mut raised = so_far;
        for place in self.first..self.end {
            let old = raised[place as usize];
            match self.raised(cell, place, old) {
                Ok(new) => raised[place as usize] = new,
                Err(bound) => {
                    return Err(CellAbove {
                        bytes: low_bytes(bytes),
                        out: place + 1,
                        bound,
                    });
                }
            }
        }
        Ok(raised)
    }

    /// A number raised to at least the Bound of the table's cell for the output at an index, or the cell's count if
    /// that is above the output's limit.
    fn raised(&self, table: &BoxTable, place: u8, so_far: u32) -> Result<u32, u32>
        requires walk { IsWalk self.now }
        requires table { IsTableOf self.now.table.now table.now }
        requires cell { IsCell (box_of table.now) }
        requires place { place < self.now.end }
        requires so_far { so_far ≤ slice_index self.now.limits.now place }
        ensures raised { IfOk result (λ n. IfSome (output_at (block_of table.now) (place + 1))
            (λ x. IsRaised (block_of table.now) (box_of table.now) (place + 1) x (parts_of table.now) so_far n)) }
        ensures within { IfOk result (λ n. n ≤ slice_index self.now.limits.now place) }
        ensures count { IfErr result (λ n. IfSome (output_at (block_of table.now) (place + 1))
            (λ x. IsCellCount (block_of table.now) (box_of table.now) (place + 1) x (parts_of table.now) n)) }
        ensures above { IfErr result (λ n. slice_index self.now.limits.now place < n) }
    {
        match count_above(table, place + 1, so_far) {
            None => Ok(so_far),
            Some(count) => {
                if count > self.limits[place as usize] {
                    Err(count)
                } else {
                    Ok(count.max(so_far))
                }
            }
        }
    }
}

/// The index of the first interval with more than one byte.
fn first_wide(bytes: &ByteBox) -> Option<usize>
    requires { IsBox bytes.now.0.items }
    ensures wide { IfSome result (λ k. (v : TheInterval) → slice_get bytes.now.0.items k ≡ Some v → v.from < v.to) }
    ensures there { IfSome result (λ k. k < length bytes.now.0.items) }
    ensures first { IfSome result (λ k. (j : ℕ) (v : TheInterval) → j < k → slice_get bytes.now.0.items j ≡ Some v
        → v.from ≡ v.to) }
    ensures cell { IfNone result (IsCell bytes.now.0.items) }
{
    let intervals = bytes.0.as_slice();
    for k in 0..intervals.len() {
        if intervals[k].from < intervals[k].to {
            return Some(k);
        }
    }
    None
}

/// The two parts of a box: with only the first byte of the interval at an index, and without that byte.
fn parted(bytes: ByteBox, place: usize) -> (ByteBox, ByteBox)
    requires bytes { IsBox bytes.0.items }
    requires there { place < length bytes.0.items }
    requires wide { (v : TheInterval) → slice_get bytes.0.items place ≡ Some v → v.from < v.to }
    ensures left { (v : TheInterval) → slice_get bytes.0.items place ≡ Some v
        → result.0.0.items ≡ set bytes.0.items place (record { from = v.from; to = v.from }) }
    ensures right { (v : TheInterval) → slice_get bytes.0.items place ≡ Some v
        → result.1.0.items ≡ set bytes.0.items place (record { from = v.from + 1; to = v.to }) }
{
    let Interval { from, to } = bytes.0[place];
    let mut left = bytes.copied();
    left.0[place] = Interval { from, to: from };
    let mut right = bytes;
    right.0[place] = Interval { from: from + 1, to };
    (left, right)
}

/// The low bytes of a box.
pub fn low_bytes(bytes: &ByteBox) -> ArrayVec<u8, 8>
    ensures { result.items ≡ map (λ v. v.from) bytes.now.0.items }
{
    let mut low = ArrayVec::new();
    for interval in bytes.0.as_slice() {
        low.push(interval.from);
    }
    low
}

/// Whether a box has no more cells than a leaf of cells may have.
pub fn has_few_cells(bytes: &ByteBox) -> bool
    requires { IsBox bytes.now.0.items }
    ensures { IsTrue result ↔ (cell_count bytes.now.0.items ≤ 64) }
{
    let mut count = 1;
    let intervals = bytes.0.as_slice();
    for k in (0..intervals.len()).rev() {
        let width = u32::from(intervals[k].to - intervals[k].from) + 1;
        count = (width * count).min(MOST_CELLS + 1);
    }
    count <= MOST_CELLS
}
