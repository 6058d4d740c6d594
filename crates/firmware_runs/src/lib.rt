//! What the runs of every firmware share: whole instructions as the machine's steps, and how a firmware is given
//! samples, waits for one, and is read.
//!
//! [`laws::instructions_are_steps`] states that whole instructions at which an interrupt may come are steps, that
//! as many of these count as there are instructions, and that before each step, also inside REV, REVW and WAV, the
//! state keeps the facts of a run without interrupts. [`give`] writes a sample's bytes and READY as their
//! definition states, and [`answers`] reads exactly the answers in memory, bytes or words: so a sample is given as
//! it is to whole instructions ([`laws::given_is_put`]), and answers are read as they are after these
//! ([`laws::answers_are_values`]).
#![tactic(auto)]

pub mod laws;
mod ports;

pub use ports::{answers, answers_from, copy_of, give, is_busy_here, is_idle};
