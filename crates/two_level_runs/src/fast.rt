//! The run of the fast code inside an interrupt.
ghost use Rattle.std.specs.Prelude.{ℕ, ◌≡◌, ◌≤◌, length, IsTrue};
ghost use Rattle.cpu12_parts.specs.Parts.{suspended, wav};
ghost use Rattle.cpu12_isa.specs.Memory.{from, bytes_at};
ghost use Rattle.cpu12_emul.specs.{Step.SameMachine, Take.may_interrupt, Take.frame_seen, Take.frame_of};
ghost use Rattle.two_level_code.specs.MemoryMaps.{fast_map};
ghost use Rattle.two_level_runs.specs.{Runs.fast_run, Runs.entered, InnerNotes.inner_notes};
ghost use Rattle.run_forms.specs.Rest.{summary, counted_at};

use crate::fast_code::{FastForm, InnerFrame};
use arrayvec::ArrayVec;
use byte_scaling::Width;
use cpu12_emul::ends::Frame;
use cpu12_emul::machine::Machine;
use cpu12_isa::instr::Write;
use cpu12_isa::mem::Mem;
use firmware_runs::answers_from;
use run_forms::{Counts, fresh_sample, run_sample};
use two_level_code::fast_map;

/// Takes an outer interrupt up to the first instruction of the fast code, with a sample's bytes at its inputs.
pub(crate) fn enter<M: Mem>(m: &mut Machine<M>, bytes: &[u8]) -> Frame
    requires allowed { IsTrue (may_interrupt m.old.state) }
    requires few { length bytes.now ≤ 8 }
    ensures state { m.new.state ≡ entered bytes.now (suspended wav m.old.state) }
    ensures frame { frame_seen result ≡ frame_of m.old.state }
    ensures machine { SameMachine m.old m.new }
{
    let mut writes = [Write { at: 0, value: 0 }; 8];
    let mut next = fast_map().inputs;
    for (k, byte) in bytes.iter().enumerate() {
        writes[k] = Write {
            at: next,
            value: *byte,
        };
        next = next.wrapping_add(1);
    }
    m.enter(&writes[..bytes.len()])
}

/// Runs the fast code, which was just entered, up to its return: at most `most` steps, and while steps are
/// defined. An inner interrupt is due from each of these moments on, of which there are at most eight.
pub(crate) fn run_inside<M: Mem>(
    m: &mut Machine<M>,
    outputs: u8,
    most: u32,
    moments: &[u32],
) -> Counts<ArrayVec<InnerFrame, 8>>
    requires { length moments.now ≤ 8 }
    ensures counted { counted_at inner_notes result m.new.state
        ≡ summary (fast_run m.old.flags outputs most moments.now m.old.state) }
    ensures machine { SameMachine m.old m.new }
{
    let form = FastForm {
        entered: m.regs().sp,
        outputs,
    };
    let mut sample = fresh_sample(most, ArrayVec::new());
    run_sample(m, &form, moments, &mut sample);
    sample.counts
}

/// The answers of the fast code, in the order of the outputs, of which there are at most four.
pub(crate) fn answers<M: Mem>(m: &Machine<M>, outputs: u8) -> ArrayVec<u16, 4>
    requires { outputs ≤ 4 }
    ensures { result.items ≡ bytes_at m.now.state.mem (from fast_map.outputs outputs) }
{
    answers_from(m, Width::Byte, fast_map().outputs, outputs)
}
