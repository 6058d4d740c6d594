//! The law on runs.
ghost use Rattle.std.specs.Prelude.{ℕ, Bool, List};
ghost use Rattle.cpu12_isa.specs.Agreement.{WritesAgree};
ghost use Rattle.cpu12_parts.specs.State.{State};
ghost use Rattle.cpu12_emul.specs.Simulation.{Marks};
ghost use Rattle.run_law.specs.{Forms.Form, Following.RunFollows, Following.RunsFollow};
ghost use Rattle.run_law.specs.Soundness.{HandlersBegin, Sound, SumsFitBelow, WritesAreQuiet};
ghost use Rattle.run_law.specs.{Moments.TakenAtFirstOpen, Moments.TakenAtOnce, Steps.MachineLaws, Steps.StepLaws};

use cpu12_emul::laws::{
    frame_is_on_stack, plain_is_step, rev_is_step, revw_is_step, step_keeps, sums_are_step,
    takes_quietly, wav_is_step,
};
use cpu12_isa::laws::{bytes_stay, decoded_has_opcode, stack_is_hidden, writes_agree, writes_stay};
use cpu12_parts::laws::{
    rev_fits, rev_is_whole, rev_stays, rev_steady, revw_fits, revw_is_whole, revw_stays,
    revw_steady, wav_fits, wav_is_whole, wav_stays, wav_steady, wav_suspends,
};

/// A form of firmware with its handler, and what it has to prove so that its runs under interrupts follow those
/// without. It has only ghost members: an implementation is the proof that they are sound.
pub trait SoundForm {
    /// What the form depends on, such as the memory map of a firmware.
    ghost Setting: { Type 0 };

    /// What it is given.
    ghost Sample: { Type 0 };

    /// What requests an interrupt.
    ghost Request: { Type 0 };

    /// What a handler reports of its interrupt.
    ghost Told: { Type 0 };

    /// How it is given samples, ends, answers and serves requests.
    ghost form: { Setting → Form Sample Request Told };

    /// How sums that its interrupts pushed may be marked: as on the stack only, unless its handler runs WAV.
    ghost marks: { Marks };

    /// The bytes that are open to the handler.
    ghost open_to: { Setting → ℕ → Bool };

    /// What each state of the run without interrupts keeps.
    ghost holds: { Setting → State → Type 0 };

    /// Which requests are good.
    ghost good: { Setting → Request → Type 0 };

    /// What the open bytes hold after requests.
    ghost own: { Setting → List (Request × Told) → State → Type 0 };

    /// The form is sound. Its proof may use that memories that agree still do after the same writes, and that
    /// listed writes are quiet.
    ghost sound: { (x : Setting) → WritesAgree → WritesAreQuiet
        → Sound marks (open_to x) (form x) (holds x) (good x) (own x) };
}

/// What is known of a step apart from hidden bytes, of what an interrupt pushes and of what is hidden then.
fn machine_laws()
    ensures { MachineLaws }
{
    step_keeps();
    frame_is_on_stack();
    stack_is_hidden();
    wav_suspends();
}

/// In each state that simulates one in which there is room for an interrupt, a handler begins.
pub fn handlers_begin()
    ensures { HandlersBegin }
{
    machine_laws();
}

/// The run of one sample, from any boundary on, follows the run without interrupts, and each handler reports on a
/// state in which it began while the run without interrupts is at that boundary.
pub fn run_follows<F: SoundForm>()
    ensures { (x : F.Setting) → RunFollows F.marks (F.open_to x) (F.form x) (F.holds x) (F.good x) (F.own x) }
{
    machine_laws();
    writes_agree();
    writes_are_quiet();
}

/// The runs of a list of samples, each of which leaves the contents of the open bytes, follow the runs without
/// interrupts: the same number of steps and of instructions, the same answers, the frames and resumed boundaries
/// that are read off the states without interrupts, a state that simulates at every boundary, handlers that report
/// on states in which they began there, and the same last memory except for the bytes that interrupts may change.
pub fn runs_follow<F: SoundForm>()
    ensures { (x : F.Setting) → RunsFollow F.marks (F.open_to x) (F.form x) (F.holds x) (F.good x) (F.own x) }
{
    machine_laws();
    writes_agree();
    writes_are_quiet();
}

/// A request is taken at the least boundary, from its moment on, at which I is 0 in the run without interrupts.
pub fn taken_at_first_open()
    ensures { TakenAtFirstOpen }
{}

/// If I is 0 throughout the run without interrupts, a request is taken at its moment.
pub fn taken_at_once()
    ensures { TakenAtOnce }
{}

/// Registers with SP below pushed sums fit, and SP is at most six lower.
pub fn sums_fit_below()
    ensures { SumsFitBelow }
{}

/// A handler that does writes to open bytes is quiet, and keeps the marks of pushed sums.
pub fn writes_are_quiet()
    ensures { WritesAreQuiet }
{
    takes_quietly();
}

/// What whole instructions are as steps: a plain one is one step, and so is each part of REV, REVW and WAV; the
/// parts fit, PC stays at the instruction between them, and together they are the whole instruction.
pub fn step_laws()
    ensures { StepLaws }
{
    decoded_has_opcode();
    writes_stay();
    bytes_stay();
    plain_is_step();
    rev_is_step();
    rev_fits();
    rev_stays();
    rev_steady();
    rev_is_whole();
    revw_is_step();
    revw_fits();
    revw_stays();
    revw_steady();
    revw_is_whole();
    wav_is_step();
    sums_are_step();
    wav_fits();
    wav_stays();
    wav_steady();
    wav_is_whole();
}
