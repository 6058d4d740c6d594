//! Forms of firmware: what a run is given, and what serves its requests.
ghost use Rattle.std.specs.Prelude.{ℕ, ◌≡◌, ◌<◌, ◌≤◌, ◌+◌, ◌++◌, ◌∷◌, [], true, false, Some, List, length, slice_get};
ghost use Rattle.std.specs.Prelude.{IsTrue, IfOk};
ghost use Rattle.cpu12_parts.specs.{Parts.suspended, Parts.wav, State.State};
ghost use Rattle.cpu12_emul.specs.{Step.SameMachine, Take.may_interrupt, Take.frame_of};
ghost use Rattle.run_forms.specs.{Forms.Harness, Rest.counted_at, Rest.shown_by};

use crate::sample::Counts;
use cpu12_emul::machine::Machine;
use cpu12_isa::mem::Mem;
use fz_list::Memory;
use std::alloc::Global;

/// What the run of a sample needs of a form, with the handler of its requests: requests are of type `A`, notes of
/// them of type `U`, and runs of samples have rows of type `R`. No call changes more of a machine than its state.
pub trait SampleForm<A, U, R> {
    /// What the firmware is given.
    ghost Given: { Type 0 };

    /// What is seen of a handler's report.
    ghost Told: { Type 0 };

    /// What a row shows.
    ghost Shown: { Type 0 };

    /// The samples, the parts of the form, and what rows show.
    ghost harness: { Self → Harness A U R Given Told Shown };

    /// There is room for the notes of this many more requests.
    ghost fits: { U → ℕ → Type 0 };

    /// Which requests its handler can serve.
    ghost serves: { Self → A → Type 0 };

    /// Whether a sample is over once this many of its steps were done.
    fn ends<M: Mem>(&self, m: &Machine<M>, moment: u32) -> bool
        ensures { result ≡ (harness self.now).parts.ends moment m.now.state };

    /// Whether the sample goes on as long as PC and SP stay.
    fn goes_on_here<M: Mem>(&self, m: &Machine<M>) -> bool
        ensures { result ≡ true → (k : ℕ) (s : State) → s.regs.pc ≡ m.now.state.regs.pc
            → s.regs.sp ≡ m.now.state.regs.sp → (harness self.now).parts.ends k s ≡ false };

    /// The sample of a request, counted from 1, and the moment in it from which the request is due.
    fn place(&self, request: &A) -> (u32, u32)
        ensures { result ≡ (harness self.now).parts.place request.now };

    /// Takes the interrupt of a request, from the push of the frame to the return, `moment` steps into the sample,
    /// and notes what it pushed and what its handler reports.
    fn take<M: Mem>(&self, m: &mut Machine<M>, request: &A, moment: u32, notes: &mut U)
        requires open { IsTrue (may_interrupt m.old.state) }
        requires served { serves self.now request.now }
        requires room { (n : ℕ) × fits notes.old (n + 1) }
        ensures state { m.new.state
            ≡ (harness self.now).parts.handle m.old.flags request.now (suspended wav m.old.state) }
        ensures frames { (harness self.now).notes.frames notes.new
            ≡ (harness self.now).notes.frames notes.old ++ (moment, frame_of m.old.state) ∷ [] }
        ensures told { (harness self.now).notes.told notes.new
            ≡ (harness self.now).notes.told notes.old
            ++ (harness self.now).parts.tells m.old.flags request.now (suspended wav m.old.state) ∷ [] }
        ensures room { (n : ℕ) → fits notes.old (n + 1)
            → fits notes.new n }
        ensures machine { SameMachine m.old m.new };
}

/// A form of firmware with its samples.
pub trait RunForm<A, U, R>: SampleForm<A, U, R> {
    /// How many samples there are.
    fn count(&self) -> usize
        ensures { result ≡ length (Self.harness self.now).samples };

    /// Gives sample `k`, counted from 0.
    fn give<M: Mem>(&self, m: &mut Machine<M>, k: usize)
        requires { k < length (Self.harness self.now).samples }
        ensures state { (x : Self.Given) → slice_get (Self.harness self.now).samples k ≡ Some x
            → m.new.state ≡ (Self.harness self.now).parts.give x m.old.state }
        ensures machine { SameMachine m.old m.new };

    /// Takes sample `k` away, whose run ends here.
    fn leave<M: Mem>(&self, m: &mut Machine<M>, k: usize)
        requires { k < length (Self.harness self.now).samples }
        ensures state { (x : Self.Given) → slice_get (Self.harness self.now).samples k ≡ Some x
            → m.new.state ≡ (Self.harness self.now).parts.leave x m.old.state }
        ensures machine { SameMachine m.old m.new };

    /// Room for notes of this many requests.
    fn room(&self, alloc: Global, count: usize) -> Result<U, Memory>
        ensures frames { IfOk result (λ room. (Self.harness self.now).notes.frames room ≡ []) }
        ensures told { IfOk result (λ room. (Self.harness self.now).notes.told room ≡ []) }
        ensures fits { IfOk result (λ room. count ≤ 10000 → Self.fits room count) };

    /// The row of sample `k`, whose run ends here with these counts.
    fn row<M: Mem>(&self, m: &Machine<M>, k: usize, counts: Counts<U>) -> R
        requires sample { k < length (Self.harness self.now).samples }
        requires few { (n : ℕ) × Self.fits counts.notes n }
        ensures { (x : Self.Given) → slice_get (Self.harness self.now).samples k ≡ Some x
            → (Self.harness self.now).seen result
            ≡ shown_by (Self.harness self.now).shows (Self.harness self.now).parts.answers
            (counted_at (Self.harness self.now).notes counts m.now.state) x };
}
