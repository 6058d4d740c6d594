//! The compiler's last pass: firmware for the CPU12 that answers a block's outputs and stands alone.
//!
//! [`compile`] turns a valid block into a [`firmware_code::Firmware`] that answers bytes, and [`compile16`] into one
//! that answers 16 bits: an image of memory with its code, its tables and its rule list, and bounds on the
//! instructions and steps that a sample takes. The image holds exactly the bytes that its definition names and, from
//! reset and with interrupts enabled, answers every list of samples as the block does over bytes. Both refuse exactly
//! the blocks that `rule_layout::spread` refuses, and allocate memory. What its runs rest on is in [`laws`].
#![tactic(auto)]

mod by_width;
mod firmware;
mod items;
pub mod laws;

pub use by_width::{compile, compile16};
pub use firmware::{compile_for, compile_laid_out};
pub use items::firmware_items;
