//! Runs of a firmware under interrupts follow those without.
//!
//! A run is a list of samples that a form of firmware is given, each with requests for interrupts.
//! [`laws::SoundForm`] states what a form has to prove, whatever its samples, its requests and its handler are;
//! [`laws::runs_follow`] states that every run under good requests then has the steps, the answers and the counts
//! of the run without interrupts, and that each of its states simulates one of that run, provided that the samples
//! leave the contents of the bytes that are open to handlers.
#![tactic(auto)]

pub mod laws;
