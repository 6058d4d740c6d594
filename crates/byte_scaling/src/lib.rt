//! Numbers as bytes and back: the byte of a number in an input's range and that byte's cell, the number that an
//! output's byte or its answer of 16 bits represents, the byte nearest to a number, a weight's byte, and how wide
//! answers are ([`Width`]).
//!
//! A range is divided into 256 half-open cells of equal width, the last including its high end: a number lies in
//! the cell of its byte. Each call returns exactly the value of its definition, and none allocates memory.
#![tactic(auto)]

mod by_width;
mod inputs;
pub mod laws;
mod outputs;
mod weights;
mod width;

pub use by_width::{value, value16};
pub use inputs::{OutOfRange, byte_within, cell, to_byte};
pub use outputs::near;
pub use weights::weight_byte;
pub use width::Width;
