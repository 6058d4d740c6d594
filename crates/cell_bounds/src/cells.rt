//! The error and the Bound of a cell.
ghost use Rattle.std.specs.Prelude.{◌≡◌, ◌<◌, ◌≤◌, ◌⊎◌, ℕ, length, slice_index, IfSome, IfNone, Some, None};
ghost use Rattle.fuzzy_meaning.specs.Blocks.{output_at};
ghost use Rattle.error_bound.specs.{Reaches.IsTable, Masses.AreMasses, Leaves.Holds, Tight.IsTightBound, Tight.IsSure};
ghost use Rattle.cell_bounds.specs.Cells.{IsCell, IsErrorOnCell, IsUnsure};
ghost use Rattle.cell_bounds.specs.CellBounds.{HasCellBound, IsCellBound, IsCellCount};
ghost use Rattle.error_bound.specs.Reaches.{block_of, box_of, parts_of};

use crate::masses::cell_masses;
use cell_error::laws::covered_masses_have_errors;
use error_bound::laws::{tight_bounds_are_one, tight_bounds_are_small};
use error_bound::{BoxTable, Masses};

/// The error of a table's cell for an output: how far its answer may be from the exact ones, in millionths of the
/// output's range. With NC it is `None` if no mass is sure to be above 0, or all masses over bytes are 0.
fn error_by(table: &BoxTable, out: u8, masses: &Masses) -> Option<u32>
    requires table { IsTable table.now }
    requires cell { IsCell (box_of table.now) }
    requires out_from { 1 ≤ out }
    requires out_to { out ≤ length (block_of table.now).outputs }
    requires masses { AreMasses (block_of table.now) (box_of table.now) out masses.now }
    requires ordered { (t : ℕ) → t < 15 → slice_index masses.now.lows t ≤ slice_index masses.now.highs t }
    ensures error { IfSome result (λ n. IfSome (output_at (block_of table.now) out)
        (λ x. IsErrorOnCell (block_of table.now) (box_of table.now) out x (parts_of table.now) n)) }
    ensures small { IfSome result (λ n. n ≤ 1000000) }
    ensures none { IfNone result
        (IfSome (output_at (block_of table.now) out) (IsUnsure (block_of table.now) (box_of table.now) out)) }
{
    match cell_masses(table, out, masses) {
        Some(cell) => Some(cell.error()),
        None => None,
    }
}

/// The Bound of a table's cell for an output: the lesser of its tight Bound and its error, or `None` if it has
/// neither.
fn bound_by(table: &BoxTable, out: u8, masses: &Masses, tight: Option<u32>) -> Option<u32>
    requires table { IsTable table.now }
    requires cell { IsCell (box_of table.now) }
    requires out_from { 1 ≤ out }
    requires out_to { out ≤ length (block_of table.now).outputs }
    requires masses { AreMasses (block_of table.now) (box_of table.now) out masses.now }
    requires ordered { (t : ℕ) → t < 15 → slice_index masses.now.lows t ≤ slice_index masses.now.highs t }
    requires bound { IfSome tight (λ n. IfSome (output_at (block_of table.now) out)
        (λ x. IsTightBound (block_of table.now) (box_of table.now) out x (parts_of table.now) n)) }
    requires loud { IfNone tight (Holds (block_of table.now) (box_of table.now) out (record { rule = 0; k = 0 }) → ⊥) }
    requires unsure { IfNone tight (IfSome (output_at (block_of table.now) out)
        (λ x. IsSure (block_of table.now) (box_of table.now) out x → ⊥)) }
    ensures bound { IfSome result (λ n. IfSome (output_at (block_of table.now) out)
        (λ x. IsCellBound (block_of table.now) (box_of table.now) out x (parts_of table.now) n)) }
    ensures small { IfSome result (λ n. n ≤ 1000000) }
    ensures none { IfNone result (IfSome (output_at (block_of table.now) out)
        (λ x. (n : ℕ) → HasCellBound (block_of table.now) (box_of table.now) out x (parts_of table.now) n → ⊥)) }
{
    tight_bounds_are_one();
    tight_bounds_are_small();
    let error = error_by(table, out, masses);
    less(tight, error)
}

/// The count of a cell for an output: its Bound, or 1000001 if it has none. `None` if the Bound is at most
/// `so_far`, which is tested first, without a division.
pub(crate) fn count_above(table: &BoxTable, out: u8, so_far: u32) -> Option<u32>
    requires table { IsTable table.now }
    requires cell { IsCell (box_of table.now) }
    requires out_from { 1 ≤ out }
    requires out_to { out ≤ length (block_of table.now).outputs }
    requires so_far { so_far ≤ 1000000 }
    ensures count { IfSome result (λ n. IfSome (output_at (block_of table.now) out)
        (λ x. IsCellCount (block_of table.now) (box_of table.now) out x (parts_of table.now) n)) }
    ensures within { IfNone result (IfSome (output_at (block_of table.now) out)
        (λ x. (m : ℕ) × HasCellBound (block_of table.now) (box_of table.now) out x (parts_of table.now) m
        × (m ≤ so_far))) }
{
    covered_masses_have_errors();
    let masses = table.masses(out);
    if let Some(cell) = cell_masses(table, out, &masses) {
        if cell.are_served(so_far) {
            return None;
        }
    }
    let tight = table.tight_bound_by(out, &masses);
    if let Some(bound) = tight {
        if bound <= so_far {
            return None;
        }
    }
    match bound_by(table, out, &masses, tight) {
        Some(bound) => Some(bound),
        None => Some(1_000_001),
    }
}

/// The lesser of two numbers, either of which may be missing.
fn less(left: Option<u32>, right: Option<u32>) -> Option<u32>
    ensures one { IfSome result (λ n. (left ≡ Some n) ⊎ (right ≡ Some n)) }
    ensures left { IfSome result (λ n. IfSome left (λ x. n ≤ x)) }
    ensures right { IfSome result (λ n. IfSome right (λ y. n ≤ y)) }
    ensures no_left { IfNone result (left ≡ None) }
    ensures no_right { IfNone result (right ≡ None) }
{
    match (left, right) {
        (Some(x), Some(y)) => { if x <= y { Some(x) } else { Some(y) } }
        (Some(x), None) => Some(x),
        (None, Some(y)) => Some(y),
        (None, None) => None,
    }
}
