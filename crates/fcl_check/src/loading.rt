//! From trees to blocks.

ghost use Rattle.std.specs.Prelude.{IfOk};
ghost use Rattle.fuzzy_meaning.specs.Blocks.{IsValid};
ghost use Rattle.fcl_check.specs.{Faults.Answers, Faults.first_fault, Loaded.IsBlockOf};

use crate::build::block::block;
use crate::build::source::Source;
use crate::check::first_fault;
use crate::fault::LoadFault;
use crate::laws::spelled_blocks_are_valid;
use crate::names::Names;
use fcl_syntax::Tree;
use fuzzy_meaning::Block;
use std::alloc::Global;

/// The block that a tree spells, or its first load fault.
///
/// The kinds of faults are checked in the order of [`LoadFault`], each at its first offset. If the tree
/// has none, its block is returned, which is valid.
pub fn load(alloc: Global, tree: &Tree) -> Result<Block, LoadFault>
    ensures fault { Answers result (first_fault tree.now.text.items tree.now.block) }
    ensures block { IfOk result (IsBlockOf tree.now.text.items tree.now.block) }
    ensures valid { IfOk result IsValid }
{
    let names = &Names::of(alloc, tree)?;
    if let Some(fault) = first_fault(names) {
        return Err(fault);
    }
    // A text spells the tree, so its block is valid without a test.
    spelled_blocks_are_valid();
    Ok(block(&Source { alloc, names })?)
}
