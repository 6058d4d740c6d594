//! Two blocks at two levels: a fast block runs inside the interrupts of a slow one's firmware.
//!
//! [`compile_two`] makes the image of both (two_level_code), [`read_levels`] reads which interrupts answer which
//! fast sample (interrupt_plan), and [`run_two`] runs the slow samples under them (two_level_runs) and returns a
//! row for each, with what the fast runs in it answered.
#![tactic(auto)]

pub use interrupt_plan::{Level, Levels, read_levels};
pub use two_level_code::{Two, TwoFault, compile_two};
pub use two_level_runs::{FastRow, InnerFrame, TwoRow, run_two};
