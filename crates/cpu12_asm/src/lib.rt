//! Memory images, and the assembly of items and of source text into them.
//!
//! An [`Image`] holds some of the bytes of a CPU12's memory, each by its address, and the start address that its
//! reset vector gives. [`assemble_items`] places instructions and bytes one after another and returns their image:
//! it holds exactly the bytes that the items give, each at its address. It refuses a list of items exactly at the
//! first item that would write past the last address, or over a byte that an earlier item gave. [`assemble`]
//! returns the image of a source, or the first line that is at fault: first by the names that the lines define, in
//! order, and then by the bytes that they give.
#![tactic(auto)]

mod expressions;
mod faults;
mod image;
mod items;
pub mod laws;
mod lines;
mod operands;
mod sources;
mod statements;
mod values;

pub use image::{ByteMap, Image};
pub use items::{AsmFault, Item, assemble_items};
pub use sources::assemble;
