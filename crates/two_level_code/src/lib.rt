//! Two blocks at two levels: a fast block runs inside the interrupts of a slow one's firmware.
//!
//! [`compile_two`] makes one image of both: the slow block's firmware as it stands alone, except that the
//! interrupt vector leads to the fast block. The fast block has its code from `$4000` on, and its RAM from `$1400`
//! on: it enables interrupts, answers a sample as its own firmware would, and returns from the interrupt in which
//! it runs. [`laws::two_stand_beside`] states that the slow firmware answers as it does alone under interrupts
//! that may change all that is the fast block's, and [`laws::fast_answers_entered`] that the fast code, wherever
//! an interrupt enters it, reaches its return with its block's answers.
#![tactic(auto)]

mod from_blocks;
mod items;
pub mod laws;
mod two;

pub use from_blocks::{TwoFault, compile_two};
pub use items::fast_map;
pub use two::{FastCode, Two, compile_two_laid_out};
