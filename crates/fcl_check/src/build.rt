//! The block of a tree without load faults. It is built without checking the tree again: this can only
//! fail for lack of memory.

pub mod block;
mod conditions;
mod inputs;
mod outputs;
pub mod source;
mod variables;
