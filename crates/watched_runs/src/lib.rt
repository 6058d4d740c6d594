//! Runs of a firmware that watches its tables, with a byte of them upset while a sample is answered.
//!
//! [`run_upsets`] runs a firmware over a trace under a plan, as `alone_runs::run` does; during a sample with an
//! [`Upset`](interrupt_plan::Upset) its byte holds another value. A [`WatchedRow`] is a row with FAULT, by which
//! the firmware reports on its tables. The rows are exactly those of the run's definition for every firmware; for
//! that of a block with watched tables they are the block's answers if the tables are the image's, and else the
//! outputs' defaults, whatever the plan is. [`laws::answers_under_all_upsets`](laws::answers_under_all_upsets)
//! states this, as an instance of run_law's law.
#![tactic(auto)]

pub mod form;
pub mod laws;
mod run;
mod upsets;

pub use form::WatchedRow;
pub use run::run_upsets;
