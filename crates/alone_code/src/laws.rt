//! Laws of the firmware that stands alone.
ghost use Rattle.alone_code.specs.Answers.{FirmwareAnswers, FirmwareAnswersBeside, FirmwareArrivesAlike};
ghost use Rattle.alone_code.specs.Firmwares.{BlocksHaveFirmware, FirmwareIsBytes, FirmwaresAreOne};
ghost use Rattle.alone_code.specs.Laws.{LowerLaws};
ghost use Rattle.alone_code.specs.Uninterrupted.{AnsweredAreUninterrupted, FirmwareIsUninterrupted};

use cpu12_isa::laws::stays_fit;
use eval_code::laws::{blocks_are_placed, code_is_decoded};
use firmware_code::laws::{
    called_eval_returns, frames_lead, free_bytes_leave, image_has_firmware, images_are_one,
    items_have_images, live_states_wait,
};

/// What the answers of a firmware depend on.
fn lower_laws()
    ensures { LowerLaws }
{
    stays_fit();
    code_is_decoded();
    called_eval_returns();
    frames_lead();
    live_states_wait();
    image_has_firmware();
}

/// The image of a block's firmware consists of bytes.
pub fn firmware_is_bytes()
    ensures { FirmwareIsBytes }
{
    lower_laws();
}

/// The firmware of a block answers every list of samples over bytes, whatever the open flags are, within its
/// bounds; and no instruction reads what an interrupt may change, whatever bytes outside its code, its data, the
/// stack and the reset vector these are.
pub fn firmware_answers_beside()
    ensures { FirmwareAnswersBeside }
{
    lower_laws();
}

/// The same where interrupts may change the free bytes.
pub fn firmware_answers()
    ensures { FirmwareAnswers }
{
    free_bytes_leave();
    firmware_answers_beside();
}

/// From reset over a memory that is a firmware's except for bytes that interrupts may change, the code first waits
/// in the same state except for these.
pub fn firmware_arrives_alike()
    ensures { FirmwareArrivesAlike }
{
    lower_laws();
}

/// The uninterrupted answers of the firmware of a block exist, and are the block's over bytes.
pub fn firmware_is_uninterrupted()
    ensures { FirmwareIsUninterrupted }
{
    firmware_answers();
}

/// The answers to samples by whole instructions at which interrupts may come are the uninterrupted ones, and the
/// block's over bytes.
pub fn answered_are_uninterrupted()
    ensures { AnsweredAreUninterrupted }
{}

/// A block has firmware of each width.
pub fn blocks_have_firmware()
    ensures { BlocksHaveFirmware }
{
    blocks_are_placed();
    items_have_images()
}

/// Of each width a block has only one firmware.
pub fn firmwares_are_one()
    ensures { FirmwaresAreOne }
{
    images_are_one()
}
