//! Calls of the program over files in memory, for the crates that test it: what a call is given, what
//! it is expected to leave, and how the result differs from that.
//!
//! Comparisons return `Ok` if the result is as expected, and otherwise a [`Difference`], so that a test
//! goes through its rows with `?`. Each function returns [`Difference::Memory`], or an `AllocError`, if
//! there is no memory for the files or the comparison. The contract, in short: `Ok` comes only if the
//! program, called with these words over this shelf, left on out and on err exactly what is expected,
//! with that status; and a difference comes only if there is one.
#![tactic(auto)]

mod calls;
mod comparison;
mod difference;
mod files;
mod left;

pub use calls::{call, call_over, code_of};
pub use difference::Difference;
pub use files::{
    BEFORE, Faults, NONE, bytes_of, calls_are, file_holds, push_bytes, push_file, push_room,
    shelf_of,
};
pub use left::{Left, USAGE};
