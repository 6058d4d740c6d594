//! Images of memory as S-records.
//!
//! [`write`] returns the records of an image: a header, the bytes by ascending addresses, their count, and the
//! start. Each record of bytes takes as many adjacent bytes as there are, up to 32. [`read`] returns the image
//! that a text gives, or exactly the text's first fault. What is written reads back as the same image.
#![tactic(auto)]

mod fault;
mod fields;
pub mod laws;
mod lines;
mod pieces;
mod reader;
mod records;
mod writer;

pub use fault::SrecFault;
pub use reader::read;
pub use writer::write;
