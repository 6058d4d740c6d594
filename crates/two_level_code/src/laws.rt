//! Laws of two blocks at two levels.
ghost use Rattle.two_level_code.specs.{Alike.TwosAreOne, Images.AloneHasByteBounds, Images.BlocksHaveTwos};
ghost use Rattle.two_level_code.specs.Running.{FastAnswersEntered};
ghost use Rattle.two_level_code.specs.Standing.{TwoStandBeside};

use alone_code::laws::{firmware_answers_beside, firmware_arrives_alike};
use cpu12_emul::laws::holds_image;
use cpu12_isa::laws::{decodes_encoded, stays_fit};
use eval_code::laws::{blocks_are_placed, eval_answers, frames_leave, placed_items_stand};
use firmware_code::laws::{images_are_one, items_have_images};

/// Wherever an interrupt enters the fast code, it reaches its return with its block's answers, within its bounds,
/// accesses only what is the fast block's, and leaves X unchanged.
pub fn fast_answers_entered()
    ensures { FastAnswersEntered }
{
    blocks_are_placed();
    eval_answers();
    frames_leave();
    decodes_encoded();
    stays_fit();
}

/// The slow firmware answers as it does alone, under interrupts that may change all that is the fast block's, and
/// the free bytes; and an interrupt enters the fast code, which enables interrupts at once.
pub fn two_stand_beside()
    ensures { TwoStandBeside }
{
    blocks_are_placed();
    decodes_encoded();
    holds_image();
    placed_items_stand();
    firmware_answers_beside();
    firmware_arrives_alike();
}

/// A block's firmware that answers bytes and stands alone has the block's bounds.
pub fn alone_has_byte_bounds()
    ensures { AloneHasByteBounds }
{}

/// Two blocks have firmware at two levels.
pub fn blocks_have_twos()
    ensures { BlocksHaveTwos }
{
    blocks_are_placed();
    items_have_images();
}

/// Two blocks have only one firmware at two levels.
pub fn twos_are_one()
    ensures { TwosAreOne }
{
    images_are_one();
}
