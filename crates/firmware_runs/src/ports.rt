//! How a firmware is given samples, and where its answers are.
ghost use Rattle.std.specs.Prelude.{◌≡◌, ◌≤◌, true, false, length};
ghost use Rattle.cpu12_parts.specs.State.{State};
ghost use Rattle.cpu12_emul.specs.Step.{SameMachine};
ghost use Rattle.firmware_code.specs.Interruptible.{is_idle};
ghost use Rattle.firmware_runs.specs.Ports.{given, answer_at, answers_at, answers_in};

use arrayvec::ArrayVec;
use byte_scaling::Width;
use cpu12_emul::machine::Machine;
use cpu12_isa::mem::{Mem, word_of};
use eval_code::MemoryMap;
use firmware_code::Firmware;

/// Whether the firmware waits for a sample: PC is where it waits, and READY is 0.
pub fn is_idle<M: Mem>(memory_map: &MemoryMap, m: &Machine<M>) -> bool
    ensures { result ≡ is_idle memory_map.now m.now.state }
{
    m.regs().pc == memory_map.wait && m.peek(memory_map.sample_flag) == 0
}

/// Whether PC is not where the firmware waits, so that it is busy as long as PC does not change.
#[inline(always)]
pub fn is_busy_here<M: Mem>(memory_map: &MemoryMap, m: &Machine<M>) -> bool
    ensures { result ≡ true → (s : State) → s.regs.pc ≡ m.now.state.regs.pc → is_idle memory_map.now s ≡ false }
{
    m.regs().pc != memory_map.wait
}

/// Gives a sample: writes its bytes from the first input on, and 1 to READY.
pub fn give<M: Mem>(memory_map: &MemoryMap, m: &mut Machine<M>, bytes: &[u8])
    ensures state { m.new.state ≡ given memory_map.now bytes.now m.old.state }
    ensures machine { SameMachine m.old m.new }
{
    let mut at = memory_map.samples;
    for byte in bytes {
        m.poke(at, *byte);
        at = at.wrapping_add(1);
    }
    m.poke(memory_map.sample_flag, 1);
}

/// The answer at an address.
fn answer_at<M: Mem>(m: &Machine<M>, width: Width, at: u16) -> u16
    ensures { result ≡ answer_at width at m.now.state.mem }
{
    let first = m.peek(at);
    match width {
        Width::Byte => u16::from(first),
        Width::Word => word_of(first, m.peek(at.wrapping_add(1))),
    }
}

/// The given number of answers, at most four, one after another from an address on.
pub fn answers_from<M: Mem>(m: &Machine<M>, width: Width, first: u16, count: u8) -> ArrayVec<u16, 4>
    requires { count ≤ 4 }
    ensures { result.items ≡ answers_at width count first m.now.state.mem }
{
    let mut answers = ArrayVec::new();
    let mut at = first;
    let mut left = count;
    while left > 0 {
        answers.push(answer_at(m, width, at));
        at = at.wrapping_add(width.places());
        left -= 1;
    }
    answers
}

/// The answers, in the order of the outputs, of which there are at most four.
pub fn answers<M: Mem>(firmware: &Firmware, m: &Machine<M>) -> ArrayVec<u16, 4>
    requires { firmware.now.outputs ≤ 4 }
    ensures { result.items ≡ answers_in firmware.now m.now.state }
{
    answers_from(
        m,
        firmware.width,
        firmware.memory_map.outputs,
        firmware.outputs,
    )
}

/// A copy of at most eight bytes.
pub fn copy_of(bytes: &[u8]) -> ArrayVec<u8, 8>
    requires { length bytes.now ≤ 8 }
    ensures { result.items ≡ bytes.now }
{
    let mut copy = ArrayVec::new();
    copy.try_extend_from_slice(bytes).unwrap();
    copy
}
