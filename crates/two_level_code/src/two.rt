//! Two blocks at two levels.
ghost use Rattle.std.specs.Prelude.{◌≡◌, IfOk};
ghost use Rattle.two_level_code.specs.Images.{IsTwoOf, fast_most};
ghost use Rattle.two_level_code.specs.{Running.AnswersEntered, Standing.StandsBeside, Standing.SlowAnswersBeside};

use crate::items::{slow_map, two_items};
use crate::laws::{fast_answers_entered, two_stand_beside};
use byte_scaling::Width;
use eval_code::laws::blocks_are_placed;
use eval_code::{instruction_bound, steps_by};
use firmware_code::laws::items_have_images;
use firmware_code::{Firmware, image_of};
use rule_layout::LaidOut;
use std::alloc::{AllocError, Global};

/// A slow block with a fast one that runs inside its interrupts.
#[derive(Drop)]
pub struct Two {
    /// The slow block's firmware, in the image of both.
    pub firmware: Firmware,
    /// What is known of the fast block's code.
    pub fast: FastCode,
}

/// How many outputs a fast block has, and the bounds of its firmware that answers bytes and stands alone.
#[derive(Clone, Copy)]
pub struct FastCode {
    pub outputs: u8,
    /// The most instructions that a sample takes there.
    pub instr_bound: u32,
    /// The most steps that a sample takes there.
    pub step_bound: u32,
}

impl Two {
    /// The most instructions that the fast code takes, including its return, with REV, REVW and WAV counting as
    /// one each.
    pub fn fast_bound(&self) -> u32
        ensures { result ≡ fast_most self.now.fast.instr_bound }
    {
        fast_most(self.fast.instr_bound)
    }

    /// The most steps that the fast code takes, including its return.
    pub fn fast_step_bound(&self) -> u32
        ensures { result ≡ fast_most self.now.fast.step_bound }
    {
        fast_most(self.fast.step_bound)
    }
}

/// The most instructions or steps that the fast code takes, from the bound of its block alone.
fn fast_most(bound: u32) -> u32
    ensures { result ≡ fast_most bound }
{
    bound.saturating_sub(4)
}

/// The firmware for two levels: a slow block with a fast block that runs inside its interrupts, both laid out. It
/// can only fail for lack of memory.
pub fn compile_two_laid_out(
    alloc: Global,
    slow: &LaidOut<'_>,
    fast: &LaidOut<'_>,
) -> Result<Two, AllocError>
    ensures two { IfOk result (IsTwoOf slow.now.block.now fast.now.block.now) }

    // The slow firmware answers as it does alone beside interrupts to which all is open that is the fast
    // block's; wherever one enters the fast code, this leads to its return with its block's answers.
    ensures beside { IfOk result (StandsBeside slow.now.block.now fast.now.block.now) }
    ensures slow_answers { IfOk result (SlowAnswersBeside slow.now.block.now) }
    ensures fast_answers { IfOk result (AnswersEntered fast.now.block.now) }
{
    two_stand_beside();
    fast_answers_entered();
    blocks_are_placed();
    items_have_images();
    let items = two_items(alloc, slow, fast)?;
    let image = image_of(alloc, items.as_slice())?;
    let slow_bound = instruction_bound(Width::Byte, slow);
    let fast_bound = instruction_bound(Width::Byte, fast);
    Ok(Two {
        firmware: Firmware {
            image,
            memory_map: slow_map(),
            inputs: slow.block.inputs.len() as u8,
            outputs: slow.block.outputs.len() as u8,
            width: Width::Byte,
            instr_bound: slow_bound,
            step_bound: steps_by(slow, slow_bound),
        },
        fast: FastCode {
            outputs: fast.block.outputs.len() as u8,
            instr_bound: fast_bound,
            step_bound: steps_by(fast, fast_bound),
        },
    })
}
