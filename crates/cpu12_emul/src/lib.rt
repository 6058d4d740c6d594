//! The emulator of the CPU12: [`machine::Machine`] over any [`cpu12_isa::mem::Mem`], its steps, runs and
//! interrupts, and their results ([`ends::Stepped`], [`ends::RunEnd`], [`ends::Frame`]).
//!
//! A step is one plain instruction or one part of REV, REVW or WAV, and does exactly what its definition states; a
//! trap leaves the machine unchanged. An interrupt pushes WAV's sums if they are running, and its frame, does the
//! handler's writes and pulls the frame; no step and no interrupt allocates memory.
#![tactic(auto)]

pub mod ends;
mod fetch;
pub mod interrupt;
pub mod laws;
pub mod load;
pub mod machine;
mod ruling;
pub mod run;
