//! A function block and what it means: its inputs, outputs and rules as plain data, the degree of
//! a term, the truth of a condition, the strength of a rule, the mass of an output's term, and the
//! exact answer (IEC 61131-7:2000: linear terms, MIN, MAX, NOT, WITH, COGS).
//!
//! Each call on a block requires a valid one and returns the value of its definition, which involves no bytes,
//! tables or machines. No call allocates memory except [`Condition::not`], which boxes what it negates, and
//! [`heater`], an example for tests.
#![tactic(auto)]

mod answers;
mod block;
mod condition;
mod degrees;
mod examples;
pub mod laws;
mod masses;
mod truths;

pub use answers::exact;
pub use block::{Block, Input, Output, Rule, Trapezoid};
pub use condition::{Condition, Node};
pub use degrees::degree;
pub use examples::heater;
pub use masses::{concludes, mass, strength};
pub use truths::truth;
