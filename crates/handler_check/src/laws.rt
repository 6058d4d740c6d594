//! Laws of handlers.
ghost use Rattle.handler_check.specs.Images.{HandlersHaveNoFault, FaultsAreOne, CountsAreOne, EachImageIsJudged};
ghost use Rattle.handler_check.specs.Running.{AcceptedIsTake, HandlersRunAsTakes, HandlersAreQuiet, HandlersAreShort};

use cpu12_emul::laws::{holds_image, plain_is_step, takes_quietly};
use cpu12_isa::laws::{decodes_encoded, plain_instructions_leave, writes_agree};
use cpu12_parts::laws::wav_suspends;

/// Accepted code, entered while no sums are running, leaves what some writes to free bytes leave.
pub fn accepted_is_take()
    ensures { AcceptedIsTake }
{
    decodes_encoded();
    writes_agree();
    plain_instructions_leave();
    plain_is_step();
    takes_quietly();
}

/// The interrupts of an accepted handler are interrupts that do some writes to free bytes.
pub fn handlers_run_as_takes()
    ensures { HandlersRunAsTakes }
{
    accepted_is_take();
    wav_suspends();
}

/// An accepted handler is quiet relative to the run without interrupts, whatever is open there.
pub fn handlers_are_quiet()
    ensures { HandlersAreQuiet }
{
    accepted_is_take();
    takes_quietly();
}

/// A path of a handler has at most 4096 instructions, the limit on the steps to an RTI.
pub fn handlers_are_short()
    ensures { HandlersAreShort }
{}

/// If an image is an accepted handler, no image with the same bytes has a fault.
pub fn handlers_have_no_fault()
    ensures { HandlersHaveNoFault }
{
    decodes_encoded();
    holds_image();
}

/// An image has only one first fault, and handlers with the same bytes have the same greatest number of
/// instructions.
pub fn answers_are_one()
    ensures faults { FaultsAreOne }
    ensures counts { CountsAreOne }
{
    decodes_encoded();
    holds_image();
}

/// Each image is an accepted handler or has a fault.
pub fn each_image_is_judged()
    ensures { EachImageIsJudged }
{
    decodes_encoded();
}
