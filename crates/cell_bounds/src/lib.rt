//! How far the answer of a cell may be from the exact ones, given the masses that its terms may have, and the
//! Bounds of cells and of boxes of cells.
#![tactic(auto)]

mod cells;
mod claims;
pub mod laws;
mod masses;
mod walks;

pub use claims::Claim;
pub use walks::{CellAbove, MOST_CELLS, cells_bounds, has_few_cells, low_bytes, sure_cells_bounds};
