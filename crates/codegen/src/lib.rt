//! The compiler's last pass: a block's firmware for the CPU12, in each of its forms.
//!
//! [`compile`] makes firmware that stands alone and answers bytes, [`compile16`] firmware that answers 16 bits, and
//! [`compile_for`] either, from the crate alone_code; [`compile_post`] the mailbox form, from mailbox_code;
//! [`compile_scrub`] the form that watches its tables, from watched_code; and [`compile_two`] an image of two blocks
//! at two levels, from two_level_code. Each image holds exactly the bytes of its block's items and answers every
//! list of samples from reset; a block is refused exactly where its rules can't be laid out, as the contracts there
//! state.
#![tactic(auto)]

pub use alone_code::{compile, compile_for, compile16};
pub use firmware_code::Firmware;
pub use mailbox_code::compile_post;
pub use two_level_code::{Two, TwoFault, compile_two};
pub use watched_code::compile_scrub;
