//! Exact numbers: decimals of at most four places ([`Dec`]), fractions ([`Frac`]) and lengths in
//! parts of 10^9 ([`Nano`]).
//!
//! A decimal is read from its text, and faults are reported in a fixed order. The operations on fractions are
//! exact, and never overflow 128 bits for the denominators that they require. No call allocates memory.
#![tactic(auto)]

mod dec;
mod frac;

pub use dec::{Dec, DecFault};
pub use frac::{Frac, Nano};
