//! Why there is no tree.

ghost use Rattle.std.specs.Prelude.{◌≡◌};
ghost use Rattle.fcl_syntax.specs.declared.fault.ParseError.TheVariants.{Memory};

use std::alloc::{AllocError, AllocFailed};

#[derive(Clone, Copy)]
pub enum Kind {
    Expected,
    Deep,
    Unsupported(u8),
}

/// A fault, and how many tokens are left at it.
#[derive(Clone, Copy)]
pub struct Fault {
    pub kind: Kind,
    pub left: usize,
}

#[derive(Drop)]
pub enum ParseError {
    Memory,
    Fault(Fault),
}

impl From<AllocError> for ParseError {
    ghost from_gives = { λ _ e. e ≡ Memory };

    fn from(_e: AllocError) -> ParseError {
        ParseError::Memory
    }
}

impl<T: Drop> From<AllocFailed<T>> for ParseError {
    ghost from_gives = { λ _ e. e ≡ Memory };

    fn from(_e: AllocFailed<T>) -> ParseError {
        ParseError::Memory
    }
}
