//! How an outer request is served.
ghost use Rattle.std.specs.Prelude.{ℕ, ◌≡◌, ◌≤◌, None, Some, map, length, MatchOption, IsTrue};
ghost use Rattle.cpu12_parts.specs.Parts.{suspended, wav};
ghost use Rattle.cpu12_emul.specs.{Step.SameMachine, Take.may_interrupt, Take.frame_seen, Take.frame_of};
ghost use Rattle.trace_io.specs.Traces.{input_bytes};
ghost use Rattle.two_level_code.specs.Images.{fast_most};
ghost use Rattle.two_level_runs.specs.Runs.{served, told, served_by, told_by};
ghost use Rattle.two_level_runs.specs.{Rows.sample_of, Rows.outer_of, Harness.fast_seen, Harness.fast_told};

use crate::fast::{answers, enter, run_inside};
use crate::fast_code::InnerFrame;
use arrayvec::ArrayVec;
use cpu12_emul::ends::Frame;
use cpu12_emul::machine::Machine;
use cpu12_isa::mem::Mem;
use interrupt_plan::Level;
use trace_io::Sample;
use two_level_code::Two;

/// The results of a fast run.
#[derive(Drop)]
pub struct FastRow {
    /// The number of its sample, counted from 1.
    pub number: u32,
    /// The answers at its return, in the order of the outputs.
    pub answers: ArrayVec<u16, 4>,
    /// How many instructions were done, including the return: steps that were plain instructions, or the last part
    /// of REV, REVW or WAV.
    pub instrs: u32,
    /// How many steps were done, each part counted.
    pub steps: u32,
    /// At how many boundaries an inner interrupt was taken after a part of REV, REVW or WAV that was not its last.
    pub resumed: u32,
    /// What each inner interrupt pushed.
    pub frames: ArrayVec<InnerFrame, 8>,
}

/// The fast sample of this number, counted from 1, if there is one.
fn sample_of(samples: &[Sample], number: u32) -> Option<&Sample>
    ensures { MatchOption result (sample_of (map input_bytes samples.now) number ≡ None)
        (λ s. sample_of (map input_bytes samples.now) number ≡ Some (input_bytes s.now)) }
{
    if number == 0 {
        None
    } else {
        samples.get(number as usize - 1)
    }
}

/// Takes an outer interrupt with a fast run on the sample of this number, under inner interrupts at these moments.
fn run_fast<M: Mem>(
    m: &mut Machine<M>,
    two: &Two,
    number: u32,
    bytes: &[u8],
    moments: &[u32],
) -> (Frame, FastRow)
    requires allowed { IsTrue (may_interrupt m.old.state) }
    requires outputs { two.now.fast.outputs ≤ 4 }
    requires inputs { length bytes.now ≤ 8 }
    requires few { length moments.now ≤ 8 }
    ensures state { m.new.state ≡ served_by m.old.flags two.now.fast.outputs (fast_most two.now.fast.step_bound)
        moments.now (Some bytes.now) (suspended wav m.old.state) }
    ensures frame { frame_seen result.0 ≡ frame_of m.old.state }
    ensures row { Some (fast_seen result.1) ≡ told_by m.old.flags two.now.fast.outputs
        (fast_most two.now.fast.step_bound) number moments.now (Some bytes.now) (suspended wav m.old.state) }
    ensures machine { SameMachine m.old m.new }
{
    let frame = enter(m, bytes);
    let counts = run_inside(m, two.fast.outputs, two.fast_step_bound(), moments);
    let row = FastRow {
        number,
        answers: answers(m, two.fast.outputs),
        instrs: counts.instrs,
        steps: counts.moment,
        resumed: counts.resumed,
        frames: counts.notes,
    };
    (frame, row)
}

/// Takes the outer interrupt of a level, and returns what it pushed and the results of its fast run, if the level
/// has a fast sample.
pub(crate) fn serve<M: Mem>(
    m: &mut Machine<M>,
    two: &Two,
    fast: &[Sample],
    level: &Level,
) -> (Frame, Option<FastRow>)
    requires allowed { IsTrue (may_interrupt m.old.state) }
    requires outputs { two.now.fast.outputs ≤ 4 }
    ensures state { m.new.state ≡ served m.old.flags two.now.fast.outputs (fast_most two.now.fast.step_bound)
        (outer_of (map input_bytes fast.now) level.now) (suspended wav m.old.state) }
    ensures frame { frame_seen result.0 ≡ frame_of m.old.state }
    ensures told { fast_told result.1 ≡ told m.old.flags two.now.fast.outputs (fast_most two.now.fast.step_bound)
        (outer_of (map input_bytes fast.now) level.now) (suspended wav m.old.state) }
    ensures machine { SameMachine m.old m.new }
{
    match sample_of(fast, level.fast) {
        Some(sample) => {
            let bytes = sample.bytes.as_slice();
            let (frame, row) = run_fast(m, two, level.fast, bytes, level.inner.as_slice());
            (frame, Some(row))
        }
        None => (m.interrupt(&[]), None),
    }
}
