//! Tests of the libraries' calls against worked values.
//!
//! Each expected value was worked out by hand from the public standards and the CPU12 Reference Manual, or by a
//! separate program.
#![tactic(auto)]

#[cfg(test)]
mod machine;
#[cfg(test)]
mod runs;
#[cfg(test)]
mod values;
