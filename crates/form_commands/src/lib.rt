//! The commands that run the other forms of firmware: `hrun`, whose interrupts run a handler's code (`HandledRun`),
//! `lrun`, of two blocks at two levels (`TwoLevelRun`), `mrun`, of the mailbox form under posts (`MailboxRun`), and
//! `srun`, of watched tables under upsets (`WatchedRun`).
//!
//! Each is one module, with the indices of its words (`INPUTS` and `FLAGS`), which give a [`form_run::FormRun`], and
//! `work`, which makes the lines to put from the files' contents, or gives the status of their first fault.
//! Each has a law that contents with an output have no fault, and that accepted contents have one.
#![tactic(auto)]

pub mod form_run;
pub mod hrun;
pub mod laws;
pub mod lrun;
mod mailbox_lines;
pub mod mrun;
pub mod srun;
mod two_level_lines;
