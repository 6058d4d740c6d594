//! The commands that run a block's firmware that stands alone: `run`, `run16`, `trun`, `trun16`, `debug` and `gen`.
//!
//! Each is one module, with the form of its words, the indices of those that name its files (`INPUTS`), and
//! `work`, which makes the lines to put from the files' contents, or gives the status of their first fault.
//! Each has a law that contents with an output have no fault, and that accepted contents have one.
#![tactic(auto)]

pub mod debug;
pub mod generate;
pub mod laws;
pub mod run;
mod shown_lines;
