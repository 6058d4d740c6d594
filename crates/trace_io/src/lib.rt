//! Traces: the samples that a run answers, read from text.
//!
//! A trace is comma-separated text with one row per sample and one decimal per input. A [`Sample`] has its values
//! and the byte of each in its input's range. [`read_trace`] returns exactly the samples that the first rows
//! spell, or the fault of the first row that fails.
//!
//! [`first_rows`], by which plans are read too, returns the rows of a text: all of them, or the first 10001, which is
//! one more than a caller accepts. A row is a [`csv::ByteRecord`].
#![tactic(auto)]

pub mod laws;
mod rows;
mod sample;
mod trace;

pub use rows::first_rows;
pub use sample::{Sample, TraceFault};
pub use trace::read_trace;
