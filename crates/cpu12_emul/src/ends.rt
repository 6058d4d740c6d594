//! Results of calls of the machine.
ghost use Rattle.std.specs.Prelude.{◌≡◌};
ghost use Rattle.cpu12_emul.specs.Step.{is_part};

use arrayvec::ArrayVec;

/// What a step was: a plain instruction, a part of REV, REVW or WAV that is not its last, or a last part.
#[derive(Clone, Copy, PartialEq, Eq, Drop)]
pub enum Stepped {
    Plain,
    Part,
    LastPart,
}

impl Stepped {
    /// Whether it was a part that is not the last.
    pub fn is_part(self) -> bool
        ensures { result ≡ is_part self }
    {
        match self {
            Stepped::Part => true,
            Stepped::Plain | Stepped::LastPart => false,
        }
    }
}

/// How a run ended: PC at a branch to itself after this number of steps; a trap with the address and the byte that
/// is in no table; or the budget used up, with its number of steps.
#[derive(Clone, Copy, PartialEq, Eq, Drop)]
pub enum RunEnd {
    Arrived(u32),
    Trap(u16, u8),
    Budget(u32),
}

/// What an interrupt pushed: PC, SP after the push, and the bytes from there upwards: 9 of them, or 15 if WAV's
/// sums were running.
#[derive(Drop)]
pub struct Frame {
    pub pc: u16,
    pub sp: u16,
    pub bytes: ArrayVec<u8, 15>,
}
