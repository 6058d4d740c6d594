//! The tables of the input terms, from which the machine computes grades, and what a block answers over bytes.
//!
//! A term's table is four bytes: the first and the last byte of its support, and the slopes of its two sides. Each
//! call returns exactly the value of its definition; only `table` allocates memory.
#![tactic(auto)]

mod grades;
pub mod laws;
mod rows;

pub use grades::grade;
pub use rows::{row, slope, table};
