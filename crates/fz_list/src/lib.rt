//! The two small containers that the other crates use in their plain data, [`List`], over a `Vec`, and [`Text`],
//! over a `String`, and the error of a call that runs out of [`Memory`].
//!
//! A contract sees a `List` as the list of its items and a `Text` as the list of its bytes, so two values with the
//! same contents are equal, whatever their capacities are. Both are made from the container that they hold and
//! give it back, and no call allocates memory.
#![tactic(auto)]

mod list;
mod memory;
mod text;

pub use list::List;
pub use memory::Memory;
pub use text::Text;
