//! The steps of a handler up to its RTI.
ghost use Rattle.std.specs.Prelude.{◌≡◌, ◌≤◌, ◌-◌};
ghost use Rattle.cpu12_emul.specs.Step.{SameMachine};
ghost use Rattle.handler_check.specs.Running.{until_rti, step_limit};
ghost use Rattle.handled_runs.specs.Forms.{end_of};

use cpu12_emul::machine::Machine;
use cpu12_isa::mem::Mem;
use handler_check::STEP_LIMIT;

/// The opcode of RTI.
const RTI: u8 = 0x0B;

/// How the steps of a handler ended.
#[derive(Clone, Copy)]
pub struct HandlerEnd {
    /// How many there were.
    pub steps: u16,
    /// Whether the last was an RTI: otherwise the next step is undefined, or the limit was reached.
    pub done: bool,
}

/// The end when this many steps of the limit are left.
fn ended(left: u16, done: bool) -> HandlerEnd
    requires { left ≤ step_limit }
    ensures { result ≡ record { steps = step_limit - left; done = done } }
{
    HandlerEnd {
        steps: STEP_LIMIT - left,
        done,
    }
}

/// Does steps up to the first RTI, at most [`STEP_LIMIT`] and while steps are defined.
pub(crate) fn until_rti<M: Mem>(m: &mut Machine<M>) -> HandlerEnd
    ensures state { m.new.state ≡ (until_rti m.old.flags step_limit m.old.state).state }
    ensures end { result ≡ end_of (until_rti m.old.flags step_limit m.old.state) }
    ensures machine { SameMachine m.old m.new }
{
    let mut left = STEP_LIMIT;
    while left > 0 {
        let returns = m.peek(m.regs().pc) == RTI;
        match m.step() {
            Ok(_) => {
                left -= 1;
                if returns {
                    return ended(left, true);
                }
            }
            Err(_) => return ended(left, false),
        }
    }
    ended(left, false)
}
