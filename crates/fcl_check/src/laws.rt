//! Laws of load faults and loaded blocks. Each is the contract of a function that only calls laws on
//! which it depends.
ghost use Rattle.fcl_check.specs.OneBlock.{BlocksAreOne, SpelledBlocksAreOne};
ghost use Rattle.fcl_check.specs.{Courses.CourseLaw, Kept.NumbersAreKept, Order.PlacesAscend};
ghost use Rattle.fcl_check.specs.Texts.{EachTextIsJudged, LoadFaultsAreOne, SpelledBlocksAreValid, TreesHaveBlocks};

use fcl_syntax::laws::{each_text_is_read, numbers_in_scale, offsets_ascend, trees_are_one};

/// In a tree that a text spells, the offsets of each kind of load fault ascend, so that the first one,
/// which [`load`](crate::load) returns, is the least.
pub fn places_ascend()
    ensures { PlacesAscend }
{
    offsets_ascend()
}

/// A tree of a text of at most 1048576 bytes has only valid blocks if it has no load fault: its rules are
/// not too deep, since the grammar bounds what is open at once, and not too large, since the text
/// is not.
pub fn spelled_blocks_are_valid()
    ensures { SpelledBlocksAreValid }
{
    offsets_ascend()
}

/// A tree without a load fault has everything that a block needs: it has a block, which
/// [`load`](crate::load) builds.
pub fn trees_have_blocks()
    ensures { TreesHaveBlocks }
{}

/// A loaded number is the token's number with its sign: no text has one beyond the scale, which would be
/// cut down to the end of the scale.
pub fn numbers_are_kept()
    ensures { NumbersAreKept }
{
    numbers_in_scale()
}

/// A tree has at most one block: two that it has are equal.
pub fn blocks_are_one()
    ensures { BlocksAreOne }
{}

/// A text spells at most one block: two that it spells are equal.
pub fn spelled_blocks_are_one()
    ensures { SpelledBlocksAreOne }
{
    trees_are_one();
    blocks_are_one()
}

/// A text has at most one load fault, and none if it spells a block: neither depends on which of its
/// trees is used.
pub fn load_faults_are_one()
    ensures { LoadFaultsAreOne }
{
    trees_are_one()
}

/// Every text of at most 1048576 bytes has a first fault or a load fault, or spells a block.
pub fn each_text_is_judged()
    ensures { EachTextIsJudged }
{
    each_text_is_read();
    spelled_blocks_are_valid();
    trees_have_blocks()
}

/// If the points of a term ascend and their degrees are zeros, then ones, then zeros, the degree of its
/// loaded trapezoid at each number is that of the line through the points: linear between two
/// neighbours, the greatest degree if two points have the same abscissa, and beyond the ends the
/// degree of the nearest end.
pub fn course_law()
    ensures { CourseLaw }
{}
