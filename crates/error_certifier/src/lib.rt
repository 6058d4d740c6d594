//! Finds a certificate for a block and a target for each output, by halving: if the best leaf of a box for each
//! output is within the output's target, the box is a leaf; else it is cut in the middle of its widest interval.
//!
//! [`certify`] returns the certificate of the halving, or why it stops; [`certify16`] does the same for answers of
//! 16 bits, [`certify_for`] for either kind of certificate and either width, and [`certify_each`] for one target for
//! each output.
//! The certificate is accepted with its claims as errors, each at most its target. If a cell is above a target, no
//! accepted certificate of the block has a smaller error than the cell's for that output (of a plain halving: no plain
//! one): then a greater target is needed, or other rules.
#![tactic(auto)]

mod boxes;
mod by_width;
mod certifier;
mod halving;
pub mod laws;
mod leaves;
mod targets;

pub use by_width::{certify, certify16};
pub use certifier::{NotReached, certify_each, certify_for};
pub use targets::Targets;
