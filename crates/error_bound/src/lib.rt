//! How far the answers over bytes may be from the exact ones: boxes of bytes, the error of a term
//! over them, and leaves, which state for a box and an output that a rule is strong or that none fires.
//!
//! [`leaf_bound`] gives the Bound of a leaf that holds, or otherwise its first fault. No answer is
//! farther than the Bound from the exact one, in millionths of the output's range
//! ([`laws::answers_are_near`]). For many leaves of one box a [`BoxTable`] is made once, and for
//! many boxes a [`BlockTable`]; only [`BlockTable::new`] allocates memory.
#![tactic(auto)]

mod bounds;
mod boxes;
mod by_width;
mod cells;
mod choosing;
mod degrees;
mod ends;
mod flattening;
pub mod laws;
mod leaves;
mod literal_errors;
mod masses;
mod matters;
mod nowhere;
mod ratio;
mod reaches;
mod rules;
mod still;
mod tables;
mod tight;

pub use boxes::{ByteBox, Interval, Leaf, LeafFault};
pub use by_width::{leaf_bound, leaf_bound16};
pub use cells::term_error;
pub use choosing::best;
pub use leaves::{is_pair_for, output_of};
pub use tables::{BlockTable, BoxTable};
pub use tight::{Masses, ranges_of};
