//! Runs of a firmware over a trace, under interrupts, for each form of firmware and of handler.
//!
//! [`run`] and [`run_on`] run firmware that stands alone, and a [`Session`] is such a run stopped at each boundary
//! (alone_runs); [`run_handler`] runs the same firmware where interrupts run a handler's code (handled_runs);
//! [`run_posts`] the mailbox form (mailbox_runs); and [`run_upsets`] firmware that watches its tables
//! (watched_runs). Each returns exactly what the definition of its run states, and allocates all its memory before
//! the first step.
#![tactic(auto)]

pub use alone_runs::{Row, Session, run, run_on};
pub use handled_runs::{HandledRow, run_handler};
pub use mailbox_runs::{Answer, PostRun, run_posts};
pub use watched_runs::{WatchedRow, run_upsets};
