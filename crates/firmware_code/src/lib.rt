//! What the firmware of every form stands on.
//!
//! A form is EVAL of `eval_code` with the code that calls it. [`Firmware`] is an image of memory with the addresses of
//! its parts and the bounds of a sample; [`image_of`] makes the image of items, [`push_vectors`] the vectors in it, and
//! [`frame_code`] is the code before EVAL of a firmware that stands alone. Each has exactly the items or bytes that its
//! definition names, and fails only for lack of memory. What a form needs in order to put its code around EVAL is in
//! [`laws`]: how an instruction continues, how EVAL is called and returns, and where a frame leads.
#![tactic(auto)]

mod firmware;
mod items;
pub mod laws;

pub use firmware::{Firmware, image_of};
pub use items::{frame_code, push_vectors};
