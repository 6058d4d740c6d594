//! Interrupts.
ghost use Rattle.std.specs.Prelude.{ℕ, ◌≡◌, ◌≤◌, ◌++◌, IsTrue};
ghost use Rattle.arrayvec.specs.ArrayVec.{array_vec_len};
ghost use Rattle.cpu12_isa.specs.{Act.write_all, Memory.from, Memory.bytes_at};
ghost use Rattle.cpu12_parts.specs.{State.State, Parts.suspended, Parts.wav};
ghost use Rattle.cpu12_emul.specs.Take.{may_interrupt, pairs_of, pushed, written, taken, entered, frame_of};
ghost use Rattle.cpu12_emul.specs.{Take.frame_seen, Take.frame_size, Step.SameMachine};

use crate::ends::Frame;
use crate::machine::Machine;
use arrayvec::ArrayVec;
use cpu12_isa::ccr::INTERRUPTS_MASKED;
use cpu12_isa::instr::Write;
use cpu12_isa::mem::{Mem, VECTOR, word_of};
use cpu12_isa::stack::{pull_frame, push_frame};
use cpu12_parts::temps::{Resumable, Temps};
use cpu12_parts::wav::Wav;

impl<M: Mem> Machine<M> {
    /// Whether an interrupt may be taken: I is 0.
    pub fn may_interrupt(&self) -> bool
        ensures { result ≡ may_interrupt self.now.state }
    {
        !self.regs.ccr.has(INTERRUPTS_MASKED)
    }

    /// Takes an interrupt whose handler does these writes and returns: WAV's sums are pushed if they are running,
    /// then the nine bytes of the frame; I is set, the writes are done in order, and the nine bytes are pulled.
    /// Returns what was pushed.
    pub fn interrupt(&mut self, writes: &[Write]) -> Frame
        requires { IsTrue (may_interrupt self.old.state) }
        ensures state { self.new.state ≡ taken writes.now self.old.state }
        ensures frame { frame_seen result ≡ frame_of self.old.state }
        ensures machine { SameMachine self.old self.new }
    {
        let frame = self.push();
        write_each(&mut self.mem, writes);
        pull_frame(&mut self.regs, &self.mem);
        frame
    }

    /// Takes an interrupt up to its handler's first instruction: as `interrupt`, but instead of the pull PC
    /// becomes the word at `$FFF2`.
    pub fn enter(&mut self, writes: &[Write]) -> Frame
        requires { IsTrue (may_interrupt self.old.state) }
        ensures state { self.new.state ≡ entered writes.now self.old.state }
        ensures frame { frame_seen result ≡ frame_of self.old.state }
        ensures machine { SameMachine self.old self.new }
    {
        let frame = self.push();
        write_each(&mut self.mem, writes);
        self.regs.pc = word_of(self.mem.read(VECTOR), self.mem.read(VECTOR + 1));
        frame
    }

    /// Pushes what an interrupt pushes, and sets I.
    fn push(&mut self) -> Frame
        ensures state { self.new.state ≡ pushed (suspended wav self.old.state) }
        ensures frame { frame_seen result ≡ frame_of self.old.state }
        ensures machine { SameMachine self.old self.new }
    {
        let size = size_of(&self.temps);
        Wav.suspend(&mut self.regs, &mut self.mem, &mut self.temps);
        push_frame(&mut self.regs, &mut self.mem);
        self.regs.ccr = self.regs.ccr.put(INTERRUPTS_MASKED, true);
        let bytes = bytes_from(&self.mem, self.regs.sp, size);
        Frame {
            pc: self.regs.pc,
            sp: self.regs.sp,
            bytes,
        }
    }
}

/// How many bytes a frame has.
fn size_of(temps: &Temps) -> usize
    ensures size { result ≡ frame_size temps.now }
    ensures most { result ≤ 15 }
{
    match *temps {
        Temps::Running(_, _) => 15,
        Temps::Free | Temps::OnStack => 9,
    }
}

/// The bytes from an address on.
fn bytes_from<M: Mem>(m: &M, at: u16, n: usize) -> ArrayVec<u8, 15>
    requires { n ≤ 15 }
    ensures { result.items ≡ bytes_at (M.bytes m.now) (from at n) }
{
    let mut bytes = ArrayVec::new();
    let mut left = n;
    let mut next = at;
    while left > 0 {
        bytes.push(m.read(next));
        next = next.wrapping_add(1);
        left -= 1;
    }
    bytes
}

/// Does writes in their order.
fn write_each<M: Mem>(m: &mut M, writes: &[Write])
    ensures mem { M.bytes m.new ≡ write_all (pairs_of writes.now) (M.bytes m.old) }
    ensures tags { M.tags m.new ≡ M.tags m.old }
{
    for w in writes {
        m.write(w.at, w.value);
    }
}
