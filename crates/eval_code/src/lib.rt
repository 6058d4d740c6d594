//! The code and data that answer one sample of a block, at the addresses of any memory map.
//!
//! EVAL computes the outputs' answers, of the given width, from the inputs' bytes at a [`MemoryMap`].
//! [`push_block`] appends the items of EVAL, with the code that its caller puts before and after it, its tables,
//! its singletons, its weights and its rule list: exactly the items that `block_items` names.
//! [`laws::eval_answers`] states what EVAL then does wherever these are placed: from its first instruction it goes
//! to the one after its last with the block's answers over bytes, within [`instruction_bound`] and [`steps_by`],
//! and reads, writes and leaves unchanged what its memory map states.
#![tactic(auto)]

mod bounds;
mod code;
mod data;
mod items;
pub mod laws;
mod memory_map;

pub use bounds::{instruction_bound, steps_by};
pub use data::{push_word, rule_bytes, singleton_bytes, table_bytes};
pub use items::{Around, push_block};
pub use memory_map::MemoryMap;
