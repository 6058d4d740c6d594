//! The machine.
ghost use Rattle.std.specs.Prelude.{ℕ, ◌≡◌, ◌⊎◌, MatchResult, IfErr, Ok, Err, length, slice_index, slice_set};
ghost use Rattle.cpu12_isa.specs.{Act.outcome, Code.decode_at};
ghost use Rattle.cpu12_parts.specs.{Laws.IsOff, Parts.part_of, Parts.after_part};
ghost use Rattle.cpu12_emul.specs.Step.{Whole, SameMachine, kind_of, instruction_act, next_of, applied};
ghost use Rattle.cpu12_emul.specs.Step.{reset_with};

use crate::ends::Stepped;
use crate::fetch::{is_rev, is_revw};
use cpu12_isa::decode::instruction_at;
use cpu12_isa::exec::exec;
use cpu12_isa::instr::{Ccr, Instr, Regs, Trap};
use cpu12_isa::mem::{Mem, word_of};
use cpu12_parts::rules::{Rev, Revw};
use cpu12_parts::temps::{PartEnd, Resumable, Temps};
use cpu12_parts::wav::Wav;
use std::marker::Model;

/// The address of the reset vector.
const RESET_VECTOR: u16 = 0xFFFE;

/// Registers, memory, WAV's sums, and the byte FLAGS, which supplies the flags that the manual leaves undefined.
#[derive(Drop)]
pub struct Machine<M: Mem> {
    pub(crate) regs: Regs,
    pub(crate) temps: Temps,
    /// What it reads and writes.
    pub mem: M,
    pub(crate) flags: u8,
}

impl<M: Mem> Model for Machine<M> {
    ghost use Rattle.cpu12_emul.specs.Step.{Whole};

    ghost Value = { Whole };

    ghost view = { λ a. record {
      state = record { regs = a.regs; temps = a.temps; mem = M.bytes a.mem };
      flags = a.flags;
      tags = M.tags a.mem;
    } };
}

/// The kind of a step that was a part.
fn kind_of(end: PartEnd) -> Stepped
    ensures { result ≡ kind_of end }
{
    match end {
        PartEnd::More => Stepped::Part,
        PartEnd::Done => Stepped::LastPart,
    }
}

impl<M: Mem> Machine<M> {
    /// A machine after reset with this memory: registers 0, CCR `$D0`, PC from `$FFFE`.
    pub fn reset(mem: M, flags: u8) -> Machine<M>
        ensures { result ≡ record { state = reset_with (M.bytes mem); flags = flags; tags = M.tags mem } }
    {
        let pc = word_of(mem.read(RESET_VECTOR), mem.read(RESET_VECTOR + 1));
        let regs = Regs {
            a: 0,
            b: 0,
            x: 0,
            y: 0,
            sp: 0,
            pc,
            ccr: Ccr(0xD0),
        };
        Machine {
            regs,
            temps: Temps::Free,
            mem,
            flags,
        }
    }

    /// The registers.
    pub fn regs(&self) -> Regs
        ensures { result ≡ self.now.state.regs }
    {
        self.regs
    }

    /// The byte at an address.
    pub fn peek(&self, at: u16) -> u8
        ensures { result ≡ slice_index self.now.state.mem at }
    {
        self.mem.read(at)
    }

    /// Memory has 65536 bytes.
    #[inline(always)]
    pub fn has_all_bytes(&self)
        ensures { length self.now.state.mem ≡ 65536 }
    {
        let _mem = &self.mem;
    }

    /// Sets the byte at an address.
    pub fn poke(&mut self, at: u16, value: u8)
        ensures state { self.new.state ≡ record (self.old.state) { mem = slice_set self.old.state.mem at value } }
        ensures machine { SameMachine self.old self.new }
    {
        self.mem.write(at, value);
    }

    /// The memory, without the rest of the machine.
    pub fn into_mem(self) -> M
        ensures bytes { M.bytes result ≡ self.state.mem }
        ensures tags { M.tags result ≡ self.tags }
    {
        let Machine {
            regs: _,
            temps: _,
            mem,
            flags: _,
        } = self;
        mem
    }

    /// One part of an instruction executed in parts.
    fn part<R: Resumable>(&mut self, k: &R) -> Stepped
        ensures regs { self.new.state.regs ≡ (part_of (R.kind k.now) self.old.flags self.old.state).regs }
        ensures temps { self.new.state.temps ≡ (part_of (R.kind k.now) self.old.flags self.old.state).temps }
        ensures mem { self.new.state.mem ≡ (after_part (R.kind k.now) self.old.flags self.old.state).mem }
        ensures kind { result ≡ kind_of (part_of (R.kind k.now) self.old.flags self.old.state).end }
        ensures machine { SameMachine self.old self.new }
    {
        let end = k.part(&mut self.regs, &mut self.mem, &mut self.temps, self.flags);
        kind_of(end)
    }

    /// The step of an instruction at PC, while no sums are running.
    #[inline(always)]
    #[tactic(auto, using(cpu12_isa::proofs::Algebra::outcome_bind))]
    fn instruction(&mut self, i: &Instr) -> Stepped
        ensures next { applied
            (outcome (instruction_act self.old.flags self.old.state.regs self.old.state.temps (Ok i.now))
            self.old.state.mem) self.old.state.mem
            ≡ Ok (record { state = self.new.state; kind = result }) }
        ensures machine { SameMachine self.old self.new }
    {
        match *i {
            Instr::Rev => self.part(&Rev),
            Instr::Revw => self.part(&Revw),
            Instr::Wav => self.part(&Wav),
            Instr::Wavr => {
                Wav.resume(&mut self.regs, &mut self.mem, &mut self.temps);
                self.part(&Wav)
            }
            _ => {
                exec(i, &mut self.regs, &mut self.mem, self.flags);
                Stepped::Plain
            }
        }
    }

    /// The step of what is decoded at PC, while no sums are running. A `Trap` leaves the machine unchanged.
    #[inline(always)]
    #[tactic(auto, using(cpu12_isa::proofs::Algebra::outcome_bind))]
    fn decoded_step(&mut self) -> Result<Stepped, Trap>
        requires { IsOff self.old.state.temps }
        ensures next { MatchResult result
            (λ kind. next_of self.old.flags self.old.state ≡ Ok (record { state = self.new.state; kind = kind }))
            (λ t. (next_of self.old.flags self.old.state ≡ Err t.byte) × (t.pc ≡ self.old.state.regs.pc)
            × (self.new ≡ self.old)) }
        ensures trap { IfErr result (λ t. decode_at self.old.state.mem self.old.state.regs.pc ≡ Err t.byte) }
        ensures machine { SameMachine self.old self.new }
    {
        match instruction_at(&self.mem, self.regs.pc) {
            Ok(i) => Ok(self.instruction(&i)),
            Err(trap) => Err(trap),
        }
    }

    /// One step: the next part of WAV if its sums are running, else the plain instruction or the one part that the
    /// bytes at PC give. The result is a `Trap` exactly where `decode` returns it; it leaves the machine
    /// unchanged, and never comes while sums are running.
    #[inline(always)]
    #[tactic(auto, using(cpu12_isa::proofs::Algebra::outcome_bind))]
    pub fn step(&mut self) -> Result<Stepped, Trap>
        ensures next { MatchResult result
            (λ kind. next_of self.old.flags self.old.state ≡ Ok (record { state = self.new.state; kind = kind }))
            (λ t. (next_of self.old.flags self.old.state ≡ Err t.byte) × (t.pc ≡ self.old.state.regs.pc)
            × (self.new ≡ self.old)) }
        ensures trap { IfErr result (λ t. decode_at self.old.state.mem self.old.state.regs.pc ≡ Err t.byte) }
        ensures running { IfErr result (λ _. IsOff self.old.state.temps) }
        ensures machine { SameMachine self.old self.new }
    {
        if let Temps::Running(_, _) = self.temps {
            return Ok(self.part(&Wav));
        }
        // Looked for before anything is decoded, since these two stay at PC for a whole list.
        if is_rev(&self.mem, self.regs.pc) {
            return Ok(self.part(&Rev));
        }
        if is_revw(&self.mem, self.regs.pc) {
            return Ok(self.part(&Revw));
        }
        self.decoded_step()
    }
}
