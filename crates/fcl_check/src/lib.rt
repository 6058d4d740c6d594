//! From trees of the Fuzzy Control Language to blocks.
//!
//! [`load`] checks what a grammar cannot state: names are declared and given once, terms are
//! trapezoids within their range, limits and weights are kept, and nothing is missing. It returns the
//! tree's [`fuzzy_meaning::Block`], which is valid, if the tree has no load fault, and otherwise the
//! first [`LoadFault`] with its offset.
#![tactic(auto)]

mod build;
mod check;
mod fault;
pub mod laws;
mod loading;
mod names;
mod numbers;
mod parts;

pub use fault::LoadFault;
pub use loading::load;
