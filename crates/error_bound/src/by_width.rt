//! The Bound of a leaf on one box, by a call for each width of the answers.
//!
//! Who knows the width beforehand, and has one box, calls these; where there are many boxes, a [`BlockTable`] serves all.
ghost use Rattle.std.specs.Prelude.{◌≤◌, IfOk, IfSome, IfErr, OnOk, length};
ghost use Rattle.fuzzy_meaning.specs.Blocks.{IsValid, output_at};
ghost use Rattle.error_bound.specs.{Boxes.IsBoxOf, Bounds.IsBound, Faults.HasLeafFault, Leaves.Holds, Leaves.IsPairFor};

use crate::boxes::{ByteBox, Leaf, LeafFault};
use crate::tables::{BlockTable, BoxTable};
use byte_scaling::Width;
use fuzzy_meaning::Block;

/// The Bound of a leaf's pair for an output on a box, in millionths of the output's range, for
/// answers that are bytes, or the pair's first fault.
pub fn leaf_bound(block: &Block, bytes: &ByteBox, leaf: &Leaf, out: u8) -> Result<u32, LeafFault>
    requires block { IsValid block.now }
    requires bytes { IsBoxOf block.now bytes.now.0.items }
    requires out_from { 1 ≤ out }
    requires out_to { out ≤ length block.now.outputs }
    requires pair { IsPairFor block.now out leaf.now }
    ensures holds { OnOk result (Holds block.now bytes.now.0.items out leaf.now) }
    ensures bound { IfOk result (λ n. IfSome (output_at block.now out)
        (λ x. IsBound block.now bytes.now.0.items out x 1 leaf.now n)) }
    ensures fault { IfErr result (HasLeafFault block.now bytes.now.0.items out leaf.now) }
{
    BoxTable::over(&BlockTable::for_one_box(block, Width::Byte), bytes.copied()).bound(leaf, out)
}

/// The same for answers of 16 bits.
pub fn leaf_bound16(block: &Block, bytes: &ByteBox, leaf: &Leaf, out: u8) -> Result<u32, LeafFault>
    requires block { IsValid block.now }
    requires bytes { IsBoxOf block.now bytes.now.0.items }
    requires out_from { 1 ≤ out }
    requires out_to { out ≤ length block.now.outputs }
    requires pair { IsPairFor block.now out leaf.now }
    ensures holds { OnOk result (Holds block.now bytes.now.0.items out leaf.now) }
    ensures bound { IfOk result (λ n. IfSome (output_at block.now out)
        (λ x. IsBound block.now bytes.now.0.items out x 256 leaf.now n)) }
    ensures fault { IfErr result (HasLeafFault block.now bytes.now.0.items out leaf.now) }
{
    BoxTable::over(&BlockTable::for_one_box(block, Width::Word), bytes.copied()).bound(leaf, out)
}
