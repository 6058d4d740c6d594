//! The instruction of firmware that watches its tables.
//!
//! [`compile_scrub`] makes a block's firmware that sums its tables before each sample and, if they have changed,
//! answers the outputs' defaults with a byte FAULT set. Its image holds exactly the bytes that its definition
//! names. From reset it answers every list of samples in this way, with a byte of its tables changed in each of
//! them or in none, and with interrupts enabled; it is refused exactly where `rule_layout::spread` refuses the
//! block, and allocates memory. [`laws::one_change_is_seen`] states which changes a sum detects.
#![tactic(auto)]

mod check;
pub mod laws;
mod segments;
mod watch;

pub use check::FAULT;
pub use segments::Segment;
pub use watch::compile_scrub;
