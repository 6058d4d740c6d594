//! The rules of a block laid out for the fuzzy instructions REV and REVW (CPU12 Reference Manual).
//!
//! [`spread`] turns each rule into conjunctions, which have neither OR nor NOT, and numbers the bytes that they
//! read and write, the slots. [`LaidOut`] holds the block with the result, and [`Flat::bytes`] and [`Flat::words`]
//! return it as the list that REV or REVW evaluates.
//!
//! `spread` returns exactly the layout of its definition, or refuses exactly where there are more than 512
//! conjunctions or else the list would have more than 9984 bytes. Spreading keeps the truth of each condition
//! ([`laws::spreading_law`]), and so the list leaves each output term its byte mass ([`laws::mass_law`]).
#![tactic(auto)]

mod flat;
pub mod laws;
mod layout;
mod lists;
mod sizes;
mod slots;
mod spreading;

pub use flat::{Conjunction, Flat, LayoutFault, RuleInstruction, Slot};
pub use layout::{LaidOut, require_limits, spread};
