//! Laws of what is drawn, each the contract of a function that does nothing.
ghost use Rattle.workload.specs.Laws.{DrawnBlocksAreWithinLimits, DrawnTextsSpellBlocks, NumbersHaveWorkloads};
ghost use Rattle.workload.specs.Laws.{WorkloadsAreOne};

use fcl_check::laws::spelled_blocks_are_valid;
use fcl_tokens::laws::cuts_are_tokens;

/// The rules of a block that is drawn can be laid out.
pub fn drawn_blocks_are_within_limits()
    ensures { DrawnBlocksAreWithinLimits }
{}

/// The text with a shift spells the block with this shift.
pub(crate) fn drawn_texts_spell_blocks()
    ensures { DrawnTextsSpellBlocks }
{
    cuts_are_tokens();
    spelled_blocks_are_valid()
}

/// Each number has a workload.
pub fn numbers_have_workloads()
    ensures { NumbersHaveWorkloads }
{
    drawn_texts_spell_blocks()
}

/// A number draws only one block, one list of samples by their bytes, and one plan.
pub fn workloads_are_one()
    ensures { WorkloadsAreOne }
{}
