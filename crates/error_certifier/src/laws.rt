//! Laws of the definitions.
ghost use Rattle.error_certifier.specs.Laws.{AnswersForTargetsAreOne, CellsAreOutOfReach, DefaultsHaveHalvings};
ghost use Rattle.error_certifier.specs.Laws.{EachBlockIsHalved, HalvingsAreWithinTheirTargets, SmallBlocksMeetNoLimit};
ghost use Rattle.error_certifier.specs.Laws.{TightHalvingDecides};

use box_tree::laws::open_boxes_go_on;
use cell_bounds::laws::{
    box_counts_are_one, cell_counts_are_one, claim_bounds_are_one, counts_are_least,
    defaults_have_cell_bounds, each_box_has_a_count, each_box_is_within_or_above,
};
use cert_check::laws::{
    bounded_trees_are_accepted, cuts_have_halves, errors_are_determined, leaves_are_around,
};
use error_bound::laws::{best_leaves_are_one, best_leaves_hold, best_parts_are_small};

/// The result for a block and its targets is unique: a certificate, or why there is none.
pub fn answers_for_targets_are_one()
    ensures { AnswersForTargetsAreOne }
{
    cuts_have_halves();
    errors_are_determined();
    best_leaves_are_one();
    box_counts_are_one();
    cell_counts_are_one();
}

/// There is a result for each block and its targets: halving terminates.
pub fn each_block_is_halved()
    ensures { EachBlockIsHalved }
{
    each_box_has_a_count();
    each_box_is_within_or_above();
    best_leaves_hold();
    best_parts_are_small();
    cuts_have_halves();
    bounded_trees_are_accepted();
}

/// The certificate of a halving is of its kind, and claims no error above its target.
pub fn halvings_are_within_their_targets()
    ensures { HalvingsAreWithinTheirTargets }
{
    cuts_have_halves();
    claim_bounds_are_one();
    open_boxes_go_on();
}

/// If halving stops at a cell, no accepted certificate of the block has a smaller error for that output
/// than the Bound of the cell's best leaf: after a plain halving no plain one, after a tight halving
/// none at all. A stop at a limit states nothing about other certificates.
pub fn cells_are_out_of_reach()
    ensures { CellsAreOutOfReach }
{
    cuts_have_halves();
    leaves_are_around();
    counts_are_least();
}

/// Tight halving of one or two inputs never stops at the limit of leaves.
pub fn small_blocks_meet_no_limit()
    ensures { SmallBlocksMeetNoLimit }
{
    cuts_have_halves();
}

/// It finds a certificate if each output has a number as DEFAULT and the target is the whole range.
pub fn defaults_have_halvings()
    ensures { DefaultsHaveHalvings }
{
    each_block_is_halved();
    cuts_have_halves();
    defaults_have_cell_bounds();
}

/// It finds one whenever some certificate of the block is accepted with errors that are at most their targets.
pub fn tight_halving_decides()
    ensures { TightHalvingDecides }
{
    each_block_is_halved();
    cuts_have_halves();
    cells_are_out_of_reach();
}
