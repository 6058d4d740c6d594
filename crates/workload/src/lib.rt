//! A workload drawn from a number: an FCL text, a trace and a plan, large enough to measure a run by.
//!
//! [`generate`] returns a [`Workload`]: three texts, none longer than a file may be, and what they spell. Nothing
//! that it writes is read back: its contract states that, by the definitions of the product's readers, the text
//! spells the block that the number draws, the trace its 1000 samples, and the plan one request for each of them.
//! The only error is lack of memory.
#![tactic(auto)]

mod blocks;
mod draws;
pub mod laws;
mod plans;
mod rows;
mod texts;
mod traces;
mod workload;

pub use workload::{Workload, generate};
