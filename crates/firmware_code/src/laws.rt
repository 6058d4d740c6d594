//! Laws that all forms of firmware rest on.
ghost use Rattle.firmware_code.specs.Frames.{FrameCallsAndLeaves, StartArrives, StartArrivesAlike};
ghost use Rattle.firmware_code.specs.Images.{ImagesAreOne, ItemsHaveImages};
ghost use Rattle.firmware_code.specs.Settings.{CallGoesOn, GivenIsLive, InstructionGoesOn, InstructionsStand};
ghost use Rattle.firmware_code.specs.Settings.{LiveIsIdle, LiveIsInterruptible, MaskedGoesOn, ReturnGoesOn};
ghost use Rattle.firmware_code.specs.Settings.{StraightInstructionGoesOn};
ghost use Rattle.firmware_code.specs.{Arrivals.FreeBytesLeave, Calls.CalledEvalReturns, Laws.LowerLaws};
ghost use Rattle.firmware_code.specs.{Standing.ImageHasFirmware, Uninterrupted.UninterruptedAreOne};

use byte_scaling::laws::nearest_is_byte;
use cpu12_asm::laws::{ascending_bytes_are_one, rising_items};
use cpu12_isa::laws::{encoded_are_bytes, plain_instructions_leave, stays_fit};
use cpu12_parts::laws::executions_are_one;
use eval_code::laws::{
    blocks_are_placed, code_is_decoded, eval_answers, frames_leave, placed_items_stand,
};
use rule_layout::laws::layout_law;

/// What the memory of a firmware depends on.
fn lower_laws()
    ensures { LowerLaws }
{
    layout_law();
    nearest_is_byte();
    stays_fit();
    code_is_decoded();
    placed_items_stand();
    called_eval_returns();
    blocks_are_placed();
}

/// One instruction of the code around EVAL continues: a plain one that leaves SP, which leads to the next one where it
/// goes straight on, a call from an empty stack, or the
/// return from one. Code whose bytes are in the image consists of such instructions.
pub fn instructions_go_on()
    ensures stand { InstructionsStand }
    ensures plain { InstructionGoesOn }
    ensures straight { StraightInstructionGoesOn }
    ensures masked { MaskedGoesOn }
    ensures calls { CallGoesOn }
    ensures returns { ReturnGoesOn }
{
    plain_instructions_leave();
    encoded_are_bytes();
}

/// A state that the code's runs keep may be interrupted, is idle where the code waits and READY is 0, and remains
/// such a state when a sample is given.
pub fn live_states_wait()
    ensures interruptible { LiveIsInterruptible }
    ensures idle { LiveIsIdle }
    ensures given { GivenIsLive }
{}

/// EVAL returns with its block's answers wherever the code around it calls it.
pub fn called_eval_returns()
    ensures { CalledEvalReturns }
{
    eval_answers();
    frames_leave();
}

/// The memory of an image of a block's items followed by the vectors holds the block's firmware.
pub fn image_has_firmware()
    ensures { ImageHasFirmware }
{
    lower_laws();
}

/// The frame of a firmware that stands alone leads from reset to where it waits, with a sample to the code that it
/// calls, and back from there. Over a memory that differs in bytes that interrupts may change it comes to the same
/// state except for these.
pub fn frames_lead()
    ensures arrives { StartArrives }
    ensures alike { StartArrivesAlike }
    ensures turns { FrameCallsAndLeaves }
{}

/// No free byte belongs to the code, the data, the stack or the reset vector of a firmware that stands alone.
pub fn free_bytes_leave()
    ensures { FreeBytesLeave }
{}

/// A firmware has only one list of uninterrupted answers to a list of samples.
pub fn uninterrupted_are_one()
    ensures { UninterruptedAreOne }
{
    executions_are_one();
}

/// Items that never go back to a lower address have an image.
pub fn items_have_images()
    ensures { ItemsHaveImages }
{
    rising_items()
}

/// Items have only one image.
pub fn images_are_one()
    ensures { ImagesAreOne }
{
    ascending_bytes_are_one()
}
