//! Runs of a firmware whose interrupts run code.
//!
//! [`run_handler`] runs an image of a firmware and a handler: an interrupt pushes its frame, sets I, does the
//! writes that its request lists, and does steps from the word at `$FFF2` on up to an RTI, at most 4096. If the
//! firmware is a block's and [`handler_check`] accepts the handler, the RTI is reached within the number of steps
//! that the check returns, and the rows are those of `alone_runs::run`, which does only a request's writes,
//! together with the number of steps of the handler.
#![tactic(auto)]

mod back;
mod form;
mod joint;
pub mod laws;
mod rows;

pub use back::HandlerEnd;
pub use joint::joint_image;
pub use rows::{HandledRow, run_handler};
