//! Leaves: whether what their lines state holds on their boxes, and with which Bounds.
ghost use Rattle.std.specs.Prelude.{◌≡◌, ◌≤◌, ◌<◌, ◌+◌, ◌-◌, length, OnOk, IfOk, IfErr, IfSome, Some};
ghost use Rattle.fuzzy_meaning.specs.Blocks.{output_at};
ghost use Rattle.error_bound.specs.{Boxes.IsBoxOf, Leaves.Holds, Bounds.IsBound};
ghost use Rattle.error_bound.specs.Reaches.{IsBlockTable, IsTable, block_of, box_of, parts_of};
ghost use Rattle.box_tree.specs.declared.cert.CertKind.{CertKind as TheKind};
ghost use Rattle.box_tree.specs.declared.cert.LeafLine.TheVariants as leaf_line;
ghost use Rattle.box_tree.specs.Certificates.{IsLeaf};
ghost use Rattle.cert_check.specs.{Trees.part_of, Faults.IsPairFault, Faults.HasPartFault};
ghost use Rattle.cert_check.specs.Walks.{AreBounds, AreRaised, Raises};
ghost use Rattle.byte_scaling.specs.Widths.{parts};

use crate::checker::CheckFault;
use arrayvec::ArrayVec;
use box_tree::LeafLine;
use cell_bounds::laws::narrowed_boxes_stand_for_all;
use cell_bounds::{has_few_cells, sure_cells_bounds};
use error_bound::{BlockTable, BoxTable, ByteBox, Leaf, is_pair_for};

/// Raises the error of each output to at least the Bound of a leaf, or gives the leaf's first fault.
pub(crate) fn raise_errors(
    errors: &mut [u32],
    table: &BlockTable,
    bytes: ByteBox,
    stated: &LeafLine,
    line: u32,
) -> Result<(), CheckFault>
    requires table { IsBlockTable table.now }
    requires bytes { IsBoxOf table.now.block.now bytes.0.items }
    requires stated { (kind : TheKind) × IsLeaf kind (length table.now.block.now.outputs) stated.now }
    requires errors { length errors.old ≡ length table.now.block.now.outputs }
    ensures raised { OnOk result (Raises table.now.block.now (parts table.now.width) (part_of bytes.0.items stated.now)
        errors.old errors.new) }
    ensures fault { IfErr result
        (HasPartFault table.now.block.now (parts table.now.width) (part_of bytes.0.items stated.now) line) }
{
    let bounds = leaf_bounds(&BoxTable::over(table, bytes), stated, line)?;
    raise(errors, &bounds);
    Ok(())
}

/// Raises each error to at least the Bound at its index.
pub fn raise(errors: &mut [u32], bounds: &[u32; 4])
    requires { length errors.old ≤ 4 }
    ensures { AreRaised bounds.now errors.old errors.new }
{
    for o in 0..errors.len() {
        errors[o] = errors[o].max(bounds[o]);
    }
}

/// The Bound of a leaf on a table's box for each output, at its index, or the leaf's first fault.
fn leaf_bounds(table: &BoxTable<'_>, stated: &LeafLine, line: u32) -> Result<[u32; 4], CheckFault>
    requires table { IsTable table.now }
    requires stated { (kind : TheKind) × IsLeaf kind (length (block_of table.now).outputs) stated.now }
    ensures bounds { IfOk result
        (AreBounds (block_of table.now) (parts_of table.now) (part_of (box_of table.now) stated.now)) }
    ensures fault { IfErr result
        (HasPartFault (block_of table.now) (parts_of table.now) (part_of (box_of table.now) stated.now) line) }
{
    match stated {
        LeafLine::Pairs(pairs) => pair_bounds(table, pairs, line),
        LeafLine::Tight => tight_bounds(table, line),
        LeafLine::Cells => cells_bounds(table, line),
    }
}

/// The same for a leaf of cells.
fn cells_bounds(table: &BoxTable<'_>, line: u32) -> Result<[u32; 4], CheckFault>
    requires { IsTable table.now }
    ensures bounds { IfOk result
        (AreBounds (block_of table.now) (parts_of table.now) (part_of (box_of table.now) leaf_line.Cells)) }
    ensures fault { IfErr result
        (HasPartFault (block_of table.now) (parts_of table.now) (part_of (box_of table.now) leaf_line.Cells) line) }
{
    narrowed_boxes_stand_for_all();
    let narrow = table.narrowed();
    if !has_few_cells(&narrow) {
        return Err(CheckFault::TooManyCells(line));
    }
    match sure_cells_bounds(table.table, &narrow) {
        Ok(bounds) => Ok(bounds),
        Err(out) => Err(CheckFault::Unsure(line, out)),
    }
}

/// The same for a tight leaf.
fn tight_bounds(table: &BoxTable<'_>, line: u32) -> Result<[u32; 4], CheckFault>
    requires { IsTable table.now }
    ensures bounds { IfOk result
        (AreBounds (block_of table.now) (parts_of table.now) (part_of (box_of table.now) leaf_line.Tight)) }
    ensures fault { IfErr result
        (HasPartFault (block_of table.now) (parts_of table.now) (part_of (box_of table.now) leaf_line.Tight) line) }
{
    let mut bounds = [0; 4];
    for o in 0..table.table.block.outputs.len() {
        let out = o as u8 + 1;
        match table.tight_bound(out) {
            Some(bound) => bounds[o] = bound,
            None => return Err(CheckFault::Unsure(line, out)),
        }
    }
    Ok(bounds)
}

/// The same for the pairs of a leaf.
fn pair_bounds(
    table: &BoxTable<'_>,
    pairs: &ArrayVec<(u16, u8), 4>,
    line: u32,
) -> Result<[u32; 4], CheckFault>
    requires table { IsTable table.now }
    requires pairs { length pairs.now.items ≡ length (block_of table.now).outputs }
    ensures bounds { IfOk result
        (AreBounds (block_of table.now) (parts_of table.now) (part_of (box_of table.now) (leaf_line.Pairs pairs.now))) }
    ensures fault { IfErr result (HasPartFault (block_of table.now) (parts_of table.now)
        (part_of (box_of table.now) (leaf_line.Pairs pairs.now)) line) }
{
    let named = pairs.as_slice();
    let mut bounds = [0; 4];
    for o in 0..named.len() {
        let (rule, k) = named[o];
        bounds[o] = pair_bound(table, Leaf { rule, k }, o as u8 + 1, line)?;
    }
    Ok(bounds)
}

/// The Bound of a pair for an output on a table's box, or its fault.
fn pair_bound(table: &BoxTable<'_>, pair: Leaf, out: u8, line: u32) -> Result<u32, CheckFault>
    requires table { IsTable table.now }
    requires out_from { 1 ≤ out }
    requires out_to { out ≤ length (block_of table.now).outputs }
    ensures holds { OnOk result (Holds (block_of table.now) (box_of table.now) out pair) }
    ensures bound { IfOk result (λ n. IfSome (output_at (block_of table.now) out)
        (λ x. IsBound (block_of table.now) (box_of table.now) out x (parts_of table.now) pair n)) }
    ensures fault { IfErr result (IsPairFault (block_of table.now) (box_of table.now) out pair line) }
{
    if !is_pair_for(table.table.block, &pair, out) {
        return Err(CheckFault::BadRule(line));
    }
    match table.bound(&pair, out) {
        Ok(bound) => Ok(bound),
        Err(fault) => Err(CheckFault::Leaf(line, fault)),
    }
}
