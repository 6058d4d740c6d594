//! Interrupt handlers that are code.
//!
//! [`check_handler`] splits an image's bytes into instructions from `$4000` on, and returns the greatest number of
//! instructions on a path to an RTI, or exactly the first fault, in time proportional to the handler's size. An
//! interrupt that runs an accepted handler does no more than one that does some list of writes to free bytes: this
//! is a clause of its contract, and [`laws`] states the same in the terms of run_law.
#![tactic(auto)]

mod check;
mod cut;
mod faults;
mod judge;
mod kinds;
pub mod laws;
mod path_summaries;

pub use check::check_handler;
pub use faults::{Handler, HandlerFault, STEP_LIMIT};
