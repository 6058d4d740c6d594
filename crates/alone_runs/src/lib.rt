//! Runs of a firmware over a trace, under a plan of interrupts.
//!
//! [`run_on`] resets the machine, runs the firmware to its wait loop and gives it one [`Sample`](trace_io::Sample)
//! after the other; a request of the plan is taken at the first boundary between two steps, at or after its
//! moment, where interrupts are allowed. It returns a [`Row`] for each sample and the memory of the last state;
//! [`run`] returns only the rows.
//!
//! The rows and the memory are exactly those of the run's definition over the machine's steps and interrupts, for
//! every firmware, every list of samples and every good plan: a run that reaches a byte that is no instruction, or
//! that uses up its bound on steps, ends there. All memory is allocated before the first step. [`run_on`] is a
//! [`Session`] driven to its end: a run that stops at each boundary.
//!
//! Both are runs of one form of firmware, [`form::AloneForm`], by the loop that all forms share
//! ([`run_forms::run_form`]).
#![tactic(auto)]

pub mod form;
pub mod laws;
mod rows;
mod session;

pub use rows::{Row, row_of, run, run_on};
pub use session::Session;
