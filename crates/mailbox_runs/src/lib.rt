//! Runs of the mailbox form under posts.
//!
//! [`run_posts`] resets the machine, runs the firmware to its wait loop, and takes each post at the first boundary
//! between two steps, at or after its moment, where interrupts are allowed: its handler puts a sample into the
//! mailbox. A *turn* goes from one arrival at the wait loop to the next. It answers the sample that waits, if
//! there is one. The run ends where the firmware waits, no sample is posted and no post is left.
//!
//! What it returns is exactly the run's definition over the machine's steps and interrupts, for every firmware,
//! all samples and all good posts. In addition, turns are defined from their lengths alone: at which boundaries
//! posts are taken, which samples are answered, and where. That definition involves no memory and no flag.
//! [`laws::turns_are_one`] states that posts have one list of turns, [`laws::last_is_answered`] that the sample
//! posted last is answered last, and [`laws::all_are_taken`] that each post is taken once.
//!
//! For a block's mailbox firmware [`laws::mailbox_runs_turns`] states what such turns are without interrupts: each
//! begins and ends where the code waits and no sample is posted, an idle one takes two steps, and the length of
//! one that answers depends only on the samples up to its own, whatever idle turns came between. The answers are
//! the uninterrupted ones of the samples that are answered. The turns of good posts are such turns
//! ([`laws::turns_have_steps`]).
//!
//! A run under posts follows its turns without interrupts: [`laws::posted_turns_follow`] states this for a turn
//! that answers, [`laws::idle_turns_follow`] for one that does not, and [`laws::runs_are_turns`] for all turns of
//! a run.
#![tactic(auto)]

mod form;
pub mod laws;
mod run;
mod turn;
mod turns;

pub use run::{Answer, PostRun, run_posts};
