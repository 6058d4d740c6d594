//! The commands that make or check files and run no block's firmware: `compile`, `asm`, `certify`,
//! `check` and their variants, `hcheck` and `exec`.
//!
//! Each is one module, with the form of its words, the indices of those that name its files (`INPUTS`), and
//! `work`, which makes the command's output from the files' contents, or gives the status of their first fault.
//!
//! Each command has a law that contents with an output have no fault, and that contents that are accepted have
//! an output.
#![tactic(auto)]

pub mod asm;
pub mod certify;
pub mod check;
pub mod compile;
pub mod exec;
pub mod hcheck;
pub mod laws;
pub mod lcompile;
mod written;
