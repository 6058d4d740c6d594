//! The results of the check of a handler.
use thiserror::Error;

/// A handler that is accepted.
#[derive(Clone, Copy, PartialEq, Eq, Drop)]
pub struct Handler {
    /// The greatest number of instructions on a path, including RTI.
    pub instrs: u32,
}

/// Why an image is no handler, with the address of the instruction. If several faults apply, the result is
/// [`Empty`](HandlerFault::Empty) or [`Outside`](HandlerFault::Outside), or else the first at the least address,
/// in this order.
#[derive(Clone, Copy, Debug, PartialEq, Eq, Drop, Error)]
pub enum HandlerFault {
    /// There is no byte at `$4000`.
    #[error("the handler is empty")]
    Empty,
    /// This is the least address of a byte outside `$4000` to `$4FFF`, or after a gap.
    #[error("a byte at {0} stands outside")]
    Outside(u16),
    /// No path through lower addresses leads here.
    #[error("nothing leads to {0}")]
    Dead(u16),
    /// There is no complete instruction here.
    #[error("no instruction stands at {0}")]
    Trap(u16),
    /// A handler may not contain the instruction here.
    #[error("the instruction at {0} is not allowed")]
    Refused(u16),
    /// The instruction here writes the second address, which is not free.
    #[error("the instruction at {0} writes {1}, which is not free")]
    NotFree(u16, u16),
    /// The branch here goes back.
    #[error("the branch at {0} leads back")]
    Backward(u16),
    /// The branch here goes to the second address, where no instruction begins.
    #[error("the branch at {0} leads to {1}, where no instruction begins")]
    Target(u16, u16),
    /// Two paths lead here with different numbers of bytes pushed, PULA would pull a byte that was not pushed, PSHA
    /// would push a sixteenth, or RTI would leave one.
    #[error("the bytes pushed do not fit at {0}")]
    Height(u16),
    /// No instruction follows the one here, which continues to the next.
    #[error("the instruction at {0} goes on behind the end")]
    Falls(u16),
    /// Out of memory for the check.
    #[error("no memory")]
    Memory,
}

/// The first address of a handler.
pub const CODE_START: u16 = 0x4000;

/// The address after the last that a handler may have.
pub const CODE_LIMIT: u16 = 0x5000;

/// The limit on steps up to an RTI: no path of an accepted handler has more instructions.
pub const STEP_LIMIT: u16 = CODE_LIMIT - CODE_START;
