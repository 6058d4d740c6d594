//! Laws of the definitions.
ghost use Rattle.cell_bounds.specs.Cells.{AnswersOnCellsAreNear, ErrorsOnCellsAreOne, UnsureCellsHaveNone};
ghost use Rattle.cell_bounds.specs.CellBounds.{BoxesOfCellsAnswer, CellCountsAreOne, CellsBoundsAreOne};
ghost use Rattle.cell_bounds.specs.CellBounds.{CellsBoundsFallInside, AlikeCellsHaveOneBound};
ghost use Rattle.cell_bounds.specs.CellBounds.{NarrowedBoxesStandForAll, NarrowedBoxesHaveFewerCells};
ghost use Rattle.cell_bounds.specs.CellBounds.{EachCellHasACount, EachBoxHasACellsBound, EachBoxIsWithinOrAbove};
ghost use Rattle.cell_bounds.specs.Claims.{ClaimAnswersAreNear, ClaimBoundsAreOne, ClaimBoundsFallWithParts};
ghost use Rattle.cell_bounds.specs.Claims.{TightClaimsAreLeast, CountsAreLeast, BoxCountsAreOne, CountsAreOne};
ghost use Rattle.cell_bounds.specs.{Claims.EachBoxHasACount, CellBounds.DefaultsHaveCellBounds};

use cell_error::laws::covered_masses_have_errors;
use error_bound::laws::{
    alike_boxes_have_one_bound, alike_boxes_have_one_grade, alike_boxes_have_one_range,
    answers_are_near, answers_to_masses_are_near, best_bounds_are_least, best_leaves_are_one,
    bounds_are_determined, bounds_fall_with_parts, each_box_has_a_best_bound,
    each_box_has_a_tight_count, masses_are_in_range, tight_answers_are_near,
    tight_bounds_are_least, tight_bounds_are_one, tight_bounds_are_small,
    tight_bounds_fall_with_parts, tight_bounds_hold_inside,
};
use point_slope::laws::answers_are_in_range;

/// On a cell with an error, the answer over bytes is within it of the exact answer.
pub fn answers_on_cells_are_near()
    ensures { AnswersOnCellsAreNear }
{
    answers_to_masses_are_near();
}

/// If each cell of a box has a Bound of at most `n`, each answer on the box is within `n` of the exact one, or both
/// are the previous answers.
pub fn boxes_of_cells_answer()
    ensures { BoxesOfCellsAnswer }
{
    tight_answers_are_near();
    answers_on_cells_are_near();
}

/// A cell has at most one error for an output.
pub fn errors_on_cells_are_one()
    ensures { ErrorsOnCellsAreOne }
{}

/// A cell whose masses are unsure has no error.
pub fn unsure_cells_have_none()
    ensures { UnsureCellsHaveNone }
{}

/// Cells of a box with the same bytes for the inputs that matter on the box have the same Bound for an output.
pub fn alike_cells_have_one_bound()
    ensures { AlikeCellsHaveOneBound }
{
    alike_boxes_have_one_bound();
    alike_boxes_have_one_range();
    alike_boxes_have_one_grade();
}

/// So the Bounds of the cells of a narrowed box are those of all cells of the box.
pub fn narrowed_boxes_stand_for_all()
    ensures { NarrowedBoxesStandForAll }
{
    alike_cells_have_one_bound();
}

/// A narrowed box has no more cells than the box.
pub fn narrowed_boxes_have_fewer_cells()
    ensures { NarrowedBoxesHaveFewerCells }
{}

/// Each cell has a count for an output.
pub fn each_cell_has_a_count()
    ensures { EachCellHasACount }
{
    each_box_has_a_tight_count();
    tight_bounds_are_one();
    tight_bounds_are_small();
    masses_are_in_range();
    covered_masses_have_errors();
    answers_are_in_range();
}

/// An output with a number as DEFAULT has a Bound on each cell.
pub fn defaults_have_cell_bounds()
    ensures { DefaultsHaveCellBounds }
{
    each_cell_has_a_count();
    tight_bounds_are_one();
    masses_are_in_range();
    covered_masses_have_errors();
    answers_are_in_range();
}

/// Each box has a greatest Bound of its cells for an output, or one of them has none.
pub fn each_box_has_a_cells_bound()
    ensures { EachBoxHasACellsBound }
{
    each_cell_has_a_count();
}

/// Each box has such Bounds within given limits, or a first cell that is above one.
pub fn each_box_is_within_or_above()
    ensures { EachBoxIsWithinOrAbove }
{
    each_cell_has_a_count();
}

/// Each box has a count for each kind of certificate.
pub fn each_box_has_a_count()
    ensures { EachBoxHasACount }
{
    each_box_has_a_best_bound();
    each_box_has_a_tight_count();
}

/// The count of a cell for an output is unique.
pub fn cell_counts_are_one()
    ensures { CellCountsAreOne }
{}

/// The greatest Bound of a box's cells is unique.
pub fn cells_bounds_are_one()
    ensures { CellsBoundsAreOne }
{}

/// The greatest Bound of the cells is no greater on a part of the box.
pub fn cells_bounds_fall_inside()
    ensures { CellsBoundsFallInside }
{}

/// On a box on which a claim holds, an answer over bytes is within its Bound of the exact answer, or both
/// are the previous answers.
pub fn claim_answers_are_near()
    ensures { ClaimAnswersAreNear }
{
    answers_are_near();
    tight_answers_are_near();
    boxes_of_cells_answer();
}

/// The Bound of a claim on a box is unique.
pub fn claim_bounds_are_one()
    ensures { ClaimBoundsAreOne }
{
    bounds_are_determined();
    tight_bounds_are_one();
}

/// The Bound of a claim that is not one of cells is no greater for answers with more parts to a byte.
pub fn claim_bounds_fall_with_parts()
    ensures { ClaimBoundsFallWithParts }
{
    bounds_fall_with_parts();
    tight_bounds_fall_with_parts();
}

/// If a claim that is not one of cells holds, the tight one holds, and its Bound is no greater.
pub fn tight_claims_are_least()
    ensures { TightClaimsAreLeast }
{
    tight_bounds_are_least();
}

/// No claim on a box around a cell has a smaller Bound than the cell's count: for plain certificates no pair has,
/// and for tight ones no claim at all.
pub fn counts_are_least()
    ensures { CountsAreLeast }
{
    best_bounds_are_least();
    tight_bounds_are_least();
    tight_bounds_hold_inside();
}

/// The count of a box is unique for each kind of certificate.
pub fn box_counts_are_one()
    ensures { BoxCountsAreOne }
{
    best_leaves_are_one();
    bounds_are_determined();
    tight_bounds_are_one();
}

/// The count of a cell is unique for each kind of certificate.
pub fn counts_are_one()
    ensures { CountsAreOne }
{
    box_counts_are_one();
}
