//! The rows of a firmware that stands alone, over a list of samples under a plan.
ghost use Rattle.std.specs.Prelude.{ℕ, ◌≡◌, ◌≤◌, length, map, IfOk};
ghost use Rattle.interrupt_plan.specs.Plans.{IsGood};
ghost use Rattle.run_forms.specs.Rows.{frames_seen};
ghost use Rattle.alone_runs.specs.{Rows.row_seen, Rows.firmware_rows, Answering.AnswersItsBlock};
ghost use Rattle.trace_io.specs.Traces.{input_bytes};

use crate::laws::answers_under_plans;
use crate::session::Session;
use arrayvec::ArrayVec;
use cpu12_emul::ends::Frame;
use cpu12_isa::mem::Mem;
use cpu12_isa::pages::PageMem;
use firmware_code::Firmware;
use firmware_runs::copy_of;
use fz_list::{List, Memory};
use interrupt_plan::Plan;
use run_forms::{Counts, Notes};
use std::alloc::Global;
use trace_io::Sample;

/// The results of a sample's run.
#[derive(Drop)]
pub struct Row {
    /// The bytes of the inputs.
    pub bytes: ArrayVec<u8, 8>,
    /// The answers at the end: bytes, or words where the firmware's answers are wide.
    pub answers: ArrayVec<u16, 4>,
    /// How many instructions were done: steps that were plain instructions, or the last part of REV, REVW or WAV.
    pub instrs: u32,
    /// How many steps were done, each part counted.
    pub steps: u32,
    /// At how many boundaries an interrupt was taken after a part of REV, REVW or WAV that was not its last.
    pub resumed: u32,
    /// What each interrupt pushed, with its boundary: how many steps of the sample were done.
    pub frames: List<(u32, Frame)>,
}

/// The row of a sample of at most eight bytes, from these counts and what its handlers reported.
pub fn row_of<U>(bytes: &[u8], answers: ArrayVec<u16, 4>, counts: Counts<Notes<U>>) -> (Row, Vec<U>)
    requires { length bytes.now ≤ 8 }
    ensures row { row_seen result.0 ≡ record {
      sample = bytes.now;
      answers = answers.items;
      instrs = counts.instrs;
      steps = counts.moment;
      resumed = counts.resumed;
      frames = frames_seen counts.notes.frames.items;
    } }
    ensures told { result.1 ≡ counts.notes.told }
{
    let Counts {
        arrived: _,
        moment,
        inside: _,
        next: _,
        instrs,
        resumed,
        notes,
    } = counts;
    let Notes { frames, told } = notes;
    let row = Row {
        bytes: copy_of(bytes),
        answers,
        instrs,
        steps: moment,
        resumed,
        frames: List::new(frames),
    };
    (row, told)
}

/// Runs a firmware over a trace under a plan, and returns a row for each sample and the memory of the last state.
/// Bits of `flags` supply the flags that the CPU12 Reference Manual leaves undefined. If the firmware is a
/// block's, the rows have its answers over bytes and the counts of the run without interrupts, within the bounds.
pub fn run_on<M: Mem>(
    alloc: Global,
    firmware: &Firmware,
    samples: &[Sample],
    plan: &Plan,
    flags: u8,
) -> Result<(Vec<Row>, M), Memory>
    requires outputs { firmware.now.outputs ≤ 4 }
    requires plan { IsGood plan.now }
    ensures rows { IfOk result (λ r. map row_seen r.0.items
        ≡ (firmware_rows firmware.now (map input_bytes samples.now) plan.now flags).rows) }
    ensures answers { IfOk result
        (λ r. AnswersItsBlock firmware.now flags (map input_bytes samples.now) plan.now (map row_seen r.0.items)) }
    ensures memory { IfOk result
        (λ r. M.bytes r.1 ≡ (firmware_rows firmware.now (map input_bytes samples.now) plan.now flags).state.mem) }
{
    answers_under_plans();
    let session = Session::new(alloc, firmware, samples, plan, flags)?;
    Ok(session.finish())
}

/// The rows that `run_on` returns, over its own memory.
pub fn run(
    alloc: Global,
    firmware: &Firmware,
    samples: &[Sample],
    plan: &Plan,
    flags: u8,
) -> Result<Vec<Row>, Memory>
    requires outputs { firmware.now.outputs ≤ 4 }
    requires plan { IsGood plan.now }
    ensures rows { IfOk result (λ rows. map row_seen rows.items
        ≡ (firmware_rows firmware.now (map input_bytes samples.now) plan.now flags).rows) }
    ensures answers { IfOk result
        (λ rows. AnswersItsBlock firmware.now flags (map input_bytes samples.now) plan.now (map row_seen rows.items)) }
{
    let (rows, _memory): (Vec<Row>, PageMem) = run_on(alloc, firmware, samples, plan, flags)?;
    Ok(rows)
}
