//! How the result of a call differs from what was expected.
ghost use Rattle.std.specs.Prelude.{◌≡◌};
ghost use Rattle.test_program_calls.specs.declared.difference.Difference.TheVariants.{Memory as want};

use fz_list::Memory;
use std::alloc::AllocError;

/// The part of a call's result that is not as expected.
#[derive(Debug, Drop)]
pub enum Difference {
    /// The number of its status.
    Status(u8),
    /// What it left on out.
    Out(String),
    /// What it left on err.
    Err(String),
    /// The name of a file that has other contents, or that cannot be read.
    File(String),
    /// The number of files that it read and wrote.
    Calls(usize),
    /// Out of memory for the files or the comparison.
    Memory,
}

impl From<AllocError> for Difference {
    ghost from_gives = { λ _ d. d ≡ want };

    fn from(_: AllocError) -> Difference {
        Difference::Memory
    }
}

impl From<Memory> for Difference {
    ghost from_gives = { λ _ d. d ≡ want };

    fn from(_: Memory) -> Difference {
        Difference::Memory
    }
}
