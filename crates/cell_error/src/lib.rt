//! The error of one cell: how far one answer may be from the answers for all masses within given bounds. And the
//! error of means: how far those by any masses of bytes within given bounds may be from the exact ones, where each
//! mass may be too low or too high by a given amount.
#![tactic(auto)]

mod cuts;
mod errors;
pub mod laws;
mod means;
mod ranges;

pub use errors::{least_error, serves};
pub use means::{Scale, mean_error};
pub use ranges::{Answer, Deviation, MassRange};
