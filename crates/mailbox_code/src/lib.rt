//! The firmware of a block whose samples come by an interrupt.
//!
//! [`compile_post`] turns a valid block into a [`firmware_code::Firmware`] in the mailbox form: an interrupt posts a
//! sample, which the code copies while interrupts are kept out. Its image holds exactly the bytes that its definition
//! names and, from reset, answers each sample that it copies as the block does over bytes, within its bounds; it is
//! refused exactly where `rule_layout::spread` refuses the block, and allocates memory. What its runs rest on is in
//! [`laws`].
#![tactic(auto)]

pub mod laws;
mod mailbox;

pub use mailbox::compile_post;
