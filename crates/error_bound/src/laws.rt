//! Laws of the definitions.
ghost use Rattle.error_bound.specs.Laws.{CellsHaveBounds, TermErrorsAre, LeavesHoldInside, BoundsFallInside};
ghost use Rattle.error_bound.specs.Laws.{BoundsFallWithParts, BoundsAreDetermined};
ghost use Rattle.error_bound.specs.Faults.{FaultyLeavesFail, LeafFaultsAreOne, EachLeafIsJudged};
ghost use Rattle.error_bound.specs.BestLeaves.{BestLeavesAreOne, BestLeavesHold, BestBoundsAreLeast};
ghost use Rattle.error_bound.specs.BestLeaves.{EachBoxHasABestBound, BestPartsAreSmall};
ghost use Rattle.error_bound.specs.TightLaws.{TightAnswersAreNear, TightBoundsAreOne, TightBoundsAreSmall};
ghost use Rattle.error_bound.specs.TightLaws.{TightBoundsAreLeast, TightBoundsFallInside, TightBoundsHoldInside};
ghost use Rattle.error_bound.specs.TightLaws.{TightBoundsFallWithParts, EachBoxHasATightCount};
ghost use Rattle.error_bound.specs.Flattening.{flat, FlatteningKeepsReaches};
ghost use Rattle.error_bound.specs.{Answers.AnswersAreNear, MassRanges.AnswersToMassesAreNear};
ghost use Rattle.error_bound.specs.{MassRanges.MassesAreInRange};
ghost use Rattle.error_bound.specs.Matters.{AlikeBoxesHaveOneBound, AlikeBoxesHaveOneRange, AlikeBoxesHaveOneGrade};

use byte_scaling::laws::nearest_is_byte;
use cell_error::laws::means_have_errors;
use fuzzy_meaning::laws::numbers_have_their_degrees;

/// `low` and `high` are the greatest lower and the least upper bound of a term's degrees over the
/// cells of an interval.
pub fn cells_have_bounds()
    ensures { CellsHaveBounds }
{}

/// Over a box the fall of a term is the greatest gap at the low of a cell, and its rise the greatest at the high.
pub fn term_errors_are()
    ensures { TermErrorsAre }
{}

/// On the box of a leaf that holds, an answer over bytes, as a byte or in 16 bits, is within the Bound
/// of the exact answer, or both are the previous answers.
pub fn answers_are_near()
    ensures { AnswersAreNear }
{
    numbers_have_their_degrees();
    nearest_is_byte();
    means_have_errors();
}

/// A leaf that holds on a box holds on every box inside it.
pub fn leaves_hold_inside()
    ensures { LeavesHoldInside }
{}

/// A leaf's Bound is no greater on a box inside its own.
pub fn bounds_fall_inside()
    ensures { BoundsFallInside }
{}

/// A leaf's Bound is no greater for answers with more parts to a byte than one.
pub fn bounds_fall_with_parts()
    ensures { BoundsFallWithParts }
{}

/// The Bound of a leaf on a box is unique.
pub fn bounds_are_determined()
    ensures { BoundsAreDetermined }
{}

/// A leaf with a fault does not hold.
pub fn faulty_leaves_fail()
    ensures { FaultyLeavesFail }
{}

/// A leaf has at most one first fault.
pub fn leaf_faults_are_one()
    ensures { LeafFaultsAreOne }
{}

/// Each pair that is valid for an output holds or has a fault.
pub fn each_leaf_is_judged()
    ensures { EachLeafIsJudged }
{}

/// A box has at most one best leaf for an output.
pub fn best_leaves_are_one()
    ensures { BestLeavesAreOne }
{}

/// Each box has a count for an output: the Bound of its best leaf, or 1000001 if it has none.
pub fn each_box_has_a_best_bound()
    ensures { EachBoxHasABestBound }
{}

/// The `k` of a box's best leaf is at most 255.
pub fn best_parts_are_small()
    ensures { BestPartsAreSmall }
{}

/// The best leaf of a box holds there, and is a pair that a certificate may have.
pub fn best_leaves_hold()
    ensures { BestLeavesHold }
{}

/// The Bound of a box's best leaf is at most that of each leaf that holds on the box or on one
/// around it; and if a box has no best leaf, none holds on it or on a box around it.
pub fn best_bounds_are_least()
    ensures { BestBoundsAreLeast }
{}

/// On a box with a tight Bound, an answer over bytes, as a byte or in 16 bits, is within it of the
/// exact answer, or both are the previous answers.
pub fn tight_answers_are_near()
    ensures { TightAnswersAreNear }
{
    numbers_have_their_degrees();
    nearest_is_byte();
}

/// A box has at most one tight Bound for an output.
pub fn tight_bounds_are_one()
    ensures { TightBoundsAreOne }
{}

/// Each box has one, or is neither silent nor sure.
pub fn each_box_has_a_tight_count()
    ensures { EachBoxHasATightCount }
{
    means_have_errors();
}

/// A tight Bound is at most 1000000, the whole range.
pub fn tight_bounds_are_small()
    ensures { TightBoundsAreSmall }
{}

/// If a leaf holds on a box, the box has a tight Bound, and it is at most the leaf's.
pub fn tight_bounds_are_least()
    ensures { TightBoundsAreLeast }
{
    means_have_errors();
}

/// The tight Bound of a box inside another is no greater.
pub fn tight_bounds_fall_inside()
    ensures { TightBoundsFallInside }
{}

/// A box inside one with a tight Bound has one too.
pub fn tight_bounds_hold_inside()
    ensures { TightBoundsHoldInside }
{
    means_have_errors();
}

/// The tight Bound is no greater for answers with more parts to a byte.
pub fn tight_bounds_fall_with_parts()
    ensures { TightBoundsFallWithParts }
{
    means_have_errors();
}

/// An error that covers all masses that a box's terms may have bounds the distance of the answer from the exact one.
pub fn answers_to_masses_are_near()
    ensures { AnswersToMassesAreNear }
{
    numbers_have_their_degrees();
    nearest_is_byte();
}

/// The masses that a box's terms may have form ranges: their ends are in order, and at most 255.
pub fn masses_are_in_range()
    ensures { MassesAreInRange }
{}

/// A flat condition has the same reach over each box as the condition that it is made from.
pub(crate) fn flattening_keeps_reaches()
    ensures { FlatteningKeepsReaches }
{}

/// Boxes inside another, with the same intervals for the inputs that matter on the outer one, have the same tight
/// Bound for an output.
pub fn alike_boxes_have_one_bound()
    ensures { AlikeBoxesHaveOneBound }
{}

/// On such boxes the masses of an output's terms have the same ranges.
pub fn alike_boxes_have_one_range()
    ensures { AlikeBoxesHaveOneRange }
{}

/// On such boxes the greatest masses over bytes are the same.
pub fn alike_boxes_have_one_grade()
    ensures { AlikeBoxesHaveOneGrade }
{}
