//! The run of any form of firmware over its samples, under a plan of interrupts.
//!
//! A [`RunForm`] states which samples a run has, how they are given and taken away, what serves a request, and
//! what a row shows. [`run_form`] resets the machine, runs the code to where it waits and gives it one sample
//! after the other; a request is taken at the first boundary between two steps, at or after its moment, where
//! interrupts are allowed. It returns a row for each sample and the memory of the last state.
//!
//! The rows and the memory are exactly those of the run's definition over the machine's steps and interrupts, for
//! every form and all requests in order: a run that reaches a byte that is no instruction, or that uses up its
//! bound on steps, ends there. All memory is allocated before the first step.
//!
//! [`begun`], [`advance`], [`drive`] and [`into_rows`] are the same run by hand: it stops at each boundary in
//! turn.
#![tactic(auto)]

mod at_once;
mod boundary;
mod form;
pub mod laws;
mod run_state;
mod runs;
mod sample;
mod sample_run;

pub use boundary::SampleState;
pub use form::{RunForm, SampleForm};
pub use run_state::{RunState, advance, drive, fresh_sample, into_rows};
pub use runs::{Start, begun, room_for, run_form};
pub use sample::{Counts, Notes, take_due};
pub use sample_run::run_sample;
