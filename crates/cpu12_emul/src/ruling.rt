//! Many parts of REV or REVW at once.
ghost use Rattle.std.specs.Prelude.{ℕ, ◌≡◌, ◌≢◌, ◌≤◌, List, true};
ghost use Rattle.cpu12_isa.specs.{declared.instr.Regs.Regs, Memory.plus};
ghost use Rattle.cpu12_parts.specs.Laws.{IsOff, state_of};
ghost use Rattle.cpu12_emul.specs.Ruling.{Stands, RevGoesOn, RevwGoesOn, Ruled, RulesWhere};
ghost use Rattle.cpu12_emul.specs.{Run.PartsTo, Step.SameMachine};

use crate::fetch::{is_rev, is_revw};
use crate::machine::Machine;
use cpu12_isa::instr::Regs;
use cpu12_isa::mem::{Mem, word_of};
use cpu12_parts::laws::{rev_stays, rev_steady, revw_stays, revw_steady};
use cpu12_parts::rules::{Rev, Revw};
use cpu12_parts::temps::{Resumable, Temps};

/// Whether an address is neither of the two at `pc`.
#[inline(always)]
fn is_beside(at: u16, pc: u16) -> bool
    ensures first { result ≡ true → pc ≢ at }
    ensures second { result ≡ true → plus pc 1 ≢ at }
{
    at.wrapping_sub(pc) >= 2
}

/// REV or REVW, whose parts go on as long as they cannot write to its own two bytes.
trait Ruling: Resumable {
    /// Its second byte.
    ghost opcode: { ℕ };

    /// The next part is not its last, and leaves its own bytes.
    ghost leaves_itself: { List ℕ → Regs → Type 0 };

    /// Whether that holds.
    fn goes_on<M: Mem>(&self, m: &M, r: Regs) -> bool
        ensures { result ≡ true → leaves_itself (M.bytes m.now) r };

    /// Such a part leaves PC, SP and the instruction that is there. This does nothing.
    fn rules(&self)
        ensures { RulesWhere (Self.kind self.now) opcode leaves_itself };
}

impl Ruling for Rev {
    ghost opcode = { 0x3A };

    ghost leaves_itself = { RevGoesOn };

    #[inline(always)]
    fn goes_on<M: Mem>(&self, m: &M, r: Regs) -> bool {
        let e = m.read(r.x);
        e != 0xFF && is_beside(r.y.wrapping_add(e as u16), r.pc)
    }

    fn rules(&self) {
        rev_stays();
        rev_steady();
    }
}

impl Ruling for Revw {
    ghost opcode = { 0x3B };

    ghost leaves_itself = { RevwGoesOn };

    #[inline(always)]
    fn goes_on<M: Mem>(&self, m: &M, r: Regs) -> bool {
        let e = word_of(m.read(r.x), m.read(r.x.wrapping_add(1)));
        e != 0xFFFF && is_beside(e, r.pc)
    }

    fn rules(&self) {
        revw_stays();
        revw_steady();
    }
}

/// Does parts that are not the last and leave the instruction's bytes unchanged, at most `most`. Returns the
/// registers after them, and their number.
fn parts_of<R: Ruling, M: Mem>(
    k: &R,
    m: &mut M,
    regs: Regs,
    temps: Temps,
    flags: u8,
    most: u32,
) -> (Regs, u32)
    requires off { IsOff temps }
    requires stands { Stands R.opcode regs.pc (M.bytes m.old) }
    ensures parts { Ruled R.opcode flags (state_of regs temps (M.bytes m.old))
        (state_of result.0 temps (M.bytes m.new)) result.1 }
    ensures most { result.1 ≤ most }
    ensures tags { M.tags m.new ≡ M.tags m.old }
{
    k.rules();
    let mut r = regs;
    let mut done = 0;
    while done < most && k.goes_on(m, r) {
        let mut t = temps;
        let _ = k.part(&mut r, m, &mut t, flags);
        done += 1;
    }
    (r, done)
}

impl<M: Mem> Machine<M> {
    /// If REV or REVW is at PC and no sums of WAV are running, does parts of it at once: parts that are not the
    /// last, at most `most`, up to one that might write to the instruction's own bytes. Returns how many, 0 if
    /// neither is at PC; the next step is done by `step`. PC and SP are unchanged.
    #[inline(never)]
    pub fn rule_parts(&mut self, most: u32) -> u32
        ensures steps { PartsTo (λ s. (s.regs.pc ≡ self.old.state.regs.pc) × (s.regs.sp ≡ self.old.state.regs.sp))
            self.old.flags result self.old.state self.new.state }
        ensures most { result ≤ most }
        ensures machine { SameMachine self.old self.new }
    {
        if let Temps::Running(_, _) = self.temps {
            return 0;
        }
        if is_rev(&self.mem, self.regs.pc) {
            let (regs, done) = parts_of(
                &Rev,
                &mut self.mem,
                self.regs,
                self.temps,
                self.flags,
                most,
            );
            self.regs = regs;
            return done;
        }
        if is_revw(&self.mem, self.regs.pc) {
            let (regs, done) = parts_of(
                &Revw,
                &mut self.mem,
                self.regs,
                self.temps,
                self.flags,
                most,
            );
            self.regs = regs;
            return done;
        }
        0
    }
}
