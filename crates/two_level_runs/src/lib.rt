//! Runs of a slow block's firmware with a fast block inside its interrupts.
//!
//! An outer interrupt enters the fast code ([`laws::outer_enters`]), which enables inner interrupts and runs to
//! its return ([`laws::fast_runs_exist`]). [`laws::fast_runs_follow`] states that under inner interrupts it does the
//! same: its counts and frames are read off the run without. [`laws::outer_is_servable`] states that each sample
//! has such a run, [`laws::outer_is_quiet`] what it leaves, and [`laws::outer_serves`] that an outer request is
//! quiet as the law on runs requires. So under all good levels a run at two levels answers as
//! [`laws::answers_under_levels`] states: its slow rows are those of the slow firmware alone, and its fast runs
//! answer their samples.
#![tactic(auto)]

mod fast;
mod fast_code;
mod form;
pub mod laws;
mod rows;
mod serve;

pub use fast_code::InnerFrame;
pub use rows::{TwoRow, run_two};
pub use serve::FastRow;
