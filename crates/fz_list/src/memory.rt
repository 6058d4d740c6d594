//! Lack of memory.

/// Out of memory.
#[derive(Clone, Copy, Debug, Drop)]
pub struct Memory;
