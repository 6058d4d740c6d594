//! What leaves of each sort state.

use error_bound::Leaf;

/// What a leaf states about an output.
#[derive(Clone, Copy)]
pub enum Claim {
    /// That a rule is strong, or that none fires.
    Pair(Leaf),
    /// Nothing: its Bound is the tight one.
    Tight,
    /// Nothing: its Bound is the greatest of those of its cells.
    Cells,
}
