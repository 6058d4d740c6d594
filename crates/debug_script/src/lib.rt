//! Scripts of the debugger: what their texts spell, and what they show of a run.
//!
//! A [`Script`] is a list of [`Order`]s, one per line: marks are set and removed, the run continues, and registers
//! and bytes are shown. [`read_script`] returns exactly the script that a text spells, or the number of its first
//! line that is malformed.
#![tactic(auto)]

mod breaks;
mod debugger;
pub mod laws;
mod marks;
mod order;
mod reader;
mod shown;

pub use debugger::debug;
pub use order::{Order, Script, ScriptFault};
pub use reader::read_script;
pub use shown::Shown;
