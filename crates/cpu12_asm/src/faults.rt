//! The faults of lines.
ghost use Rattle.std.specs.Prelude.{◌≡◌};
ghost use Rattle.cpu12_asm.specs.Faults.{at_line};

use crate::items::AsmFault;

/// Why a line is refused: a fault, or lack of memory.
#[derive(Clone, Copy, Drop)]
pub(crate) enum LineFault {
    BadLine,
    UnknownName,
    Twice,
    BranchFar,
    Range,
    Overlap,
    Memory,
}

impl LineFault {
    /// This fault at a line.
    pub(crate) fn at(self, line: u32) -> AsmFault
        ensures { result ≡ at_line self line }
    {
        match self {
            LineFault::BadLine => AsmFault::BadLine(line),
            LineFault::UnknownName => AsmFault::UnknownName(line),
            LineFault::Twice => AsmFault::Twice(line),
            LineFault::BranchFar => AsmFault::BranchFar(line),
            LineFault::Range => AsmFault::Range(line),
            LineFault::Overlap => AsmFault::Overlap(line),
            LineFault::Memory => AsmFault::Memory,
        }
    }
}
