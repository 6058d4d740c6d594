//! What an instruction executed in parts keeps between them.
ghost use Rattle.std.specs.Prelude.{ℕ, ◌≡◌, List};
ghost use Rattle.cpu12_parts.specs.{declared.temps.Temps.Temps, State.State, Owed.MakesWhole};
ghost use Rattle.cpu12_parts.specs.Parts.{Kind, part_of, after_part, suspended, resumed};
ghost use Rattle.cpu12_parts.specs.Laws.{GoesOn, WritesBelow, IsSteady, state_of};

use cpu12_isa::instr::Regs;
use cpu12_isa::mem::Mem;

/// The sums of WAV: none, running with the sum of products and the sum of weights, or on the stack.
#[derive(Clone, Copy, Drop)]
pub enum Temps {
    Free,
    Running(u32, u16),
    OnStack,
}

/// Whether an instruction is complete after a part.
#[derive(Clone, Copy, PartialEq, Eq, Drop)]
pub enum PartEnd {
    More,
    Done,
}

/// An instruction that is executed in parts, and can be interrupted between two of them. No call allocates memory.
///
/// `is_lawful` does nothing: it states the laws that an implementation has to prove. The law over all cuts follows
/// from them for each implementation ([`over_cuts`](crate::laws::over_cuts)).
pub trait Resumable {
    /// One part, what is pushed before an interrupt, and what is pulled after it.
    ghost kind: { Self → Kind };

    /// The sums that there may be between two parts.
    ghost kept: { Self → Temps → Type 0 };

    /// The whole instruction: with a byte FLAGS it goes, in one more than this number of parts, from one state to
    /// another, and reads and writes at these addresses.
    ghost whole: { Self → ℕ → ℕ → List ℕ → List ℕ → State → State → Type 0 };

    /// Executes one part. Flags that the manual leaves undefined take their bits from `flags`.
    fn part<M: Mem>(&self, r: &mut Regs, m: &mut M, t: &mut Temps, flags: u8) -> PartEnd
        ensures regs { r.new ≡ (part_of (kind self.now) flags (state_of r.old t.old (M.bytes m.old))).regs }
        ensures mem { M.bytes m.new ≡ (after_part (kind self.now) flags (state_of r.old t.old (M.bytes m.old))).mem }
        ensures tags { M.tags m.new ≡ M.tags m.old }
        ensures temps { t.new ≡ (part_of (kind self.now) flags (state_of r.old t.old (M.bytes m.old))).temps }
        ensures end { result ≡ (part_of (kind self.now) flags (state_of r.old t.old (M.bytes m.old))).end };

    /// Pushes what is kept between parts, before an interrupt is taken.
    fn suspend<M: Mem>(&self, r: &mut Regs, m: &mut M, t: &mut Temps)
        ensures regs { r.new ≡ (suspended (kind self.now) (state_of r.old t.old (M.bytes m.old))).regs }
        ensures mem { M.bytes m.new ≡ (suspended (kind self.now) (state_of r.old t.old (M.bytes m.old))).mem }
        ensures tags { M.tags m.new ≡ M.tags m.old }
        ensures temps { t.new ≡ (suspended (kind self.now) (state_of r.old t.old (M.bytes m.old))).temps };

    /// Pulls what was kept between parts.
    fn resume<M: Mem>(&self, r: &mut Regs, m: &mut M, t: &mut Temps)
        ensures regs { r.new ≡ (resumed (kind self.now) (state_of r.old t.old (M.bytes m.old))).regs }
        ensures mem { M.bytes m.new ≡ (resumed (kind self.now) (state_of r.old t.old (M.bytes m.old))).mem }
        ensures tags { M.tags m.new ≡ M.tags m.old }
        ensures temps { t.new ≡ (resumed (kind self.now) (state_of r.old t.old (M.bytes m.old))).temps };

    /// `resume` restores what `suspend` pushed: all is as it was, except for the six bytes below SP. `suspend` writes
    /// only below SP as it was, and `resume` writes nothing. A part leaves SP unchanged, and sums that there may be
    /// between parts. The parts make up the whole instruction, and each reads and writes only where it does.
    fn is_lawful(&self)
        ensures goes_on { GoesOn (kind self.now) (kept self.now) }
        ensures below { WritesBelow (kind self.now) }
        ensures steady { IsSteady (kind self.now) (kept self.now) }
        ensures whole { MakesWhole (kind self.now) (whole self.now) };
}
