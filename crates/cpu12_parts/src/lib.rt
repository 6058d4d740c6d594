//! The fuzzy instructions of the CPU12 that are executed in parts, one list element at a time, so that an
//! interrupt can come in between: [`rules::Rev`], [`rules::Revw`] and [`wav::Wav`], as [`temps::Resumable`] with
//! [`temps::Temps`] and [`temps::PartEnd`].
//!
//! `part` executes exactly one part, `suspend` pushes what is kept between parts, and `resume` pulls it back. No
//! call allocates memory.
#![tactic(auto)]

pub mod laws;
pub mod rules;
pub mod temps;
pub mod wav;
