//! Laws of firmware with watched tables.
ghost use Rattle.watched_code.specs.Alike.{WatchedFirmwaresAreOne};
ghost use Rattle.watched_code.specs.Watched.{BlocksHaveWatchedFirmware, WatchedAnswers, WatchedIsBytes};
ghost use Rattle.watched_code.specs.Checksums.{OneChangeIsSeen, TwoChangesMayPass, UnchangedSumIsZero};

use byte_scaling::laws::nearest_is_byte;
use cpu12_isa::laws::stays_fit;
use eval_code::laws::{blocks_are_placed, code_is_decoded};
use firmware_code::laws::{
    called_eval_returns, frames_lead, free_bytes_leave, image_has_firmware, images_are_one,
    instructions_go_on, items_have_images, live_states_wait,
};

/// With its check byte the sum of bytes is 0. If one byte is changed to another value it is not 0; if two are, it
/// may be.
pub fn one_change_is_seen()
    ensures unchanged { UnchangedSumIsZero }
    ensures one { OneChangeIsSeen }
    ensures two { TwoChangesMayPass }
{}

/// The firmware of a block with watched tables answers every list of samples, whatever the open flags are, within
/// its bounds: with the block's answers over bytes and FAULT 0, or with the outputs' defaults and FAULT 1 while a
/// byte of its tables holds another value.
pub fn watched_answers()
    ensures { WatchedAnswers }
{
    nearest_is_byte();
    stays_fit();
    code_is_decoded();
    blocks_are_placed();
    instructions_go_on();
    live_states_wait();
    called_eval_returns();
    frames_lead();
    image_has_firmware();
    free_bytes_leave();
}

/// The image of a block's firmware with watched tables consists of bytes.
pub fn watched_is_bytes()
    ensures { WatchedIsBytes }
{
    nearest_is_byte();
    code_is_decoded();
    blocks_are_placed();
    image_has_firmware();
}

/// A block has firmware with watched tables.
pub fn blocks_have_watched_firmware()
    ensures { BlocksHaveWatchedFirmware }
{
    blocks_are_placed();
    items_have_images()
}

/// A block has only one firmware with watched tables.
pub fn watched_firmwares_are_one()
    ensures { WatchedFirmwaresAreOne }
{
    images_are_one();
}
