//! The firmware that stands alone.
ghost use Rattle.std.specs.Prelude.{◌≡◌, IfOk, IfErr, OnOk};
ghost use Rattle.fuzzy_meaning.specs.Blocks.{IsValid};
ghost use Rattle.rule_layout.specs.Layouts.{IsWithinLimits, IsFaultOf};
ghost use Rattle.firmware_code.specs.Uninterrupted.{AnswersUninterrupted};
ghost use Rattle.alone_code.specs.{Firmwares.IsFirmwareOf, Answers.AnswersFrom};

use crate::items::firmware_items;
use crate::laws::{firmware_answers, firmware_is_uninterrupted};
use byte_scaling::Width;
use eval_code::laws::blocks_are_placed;
use eval_code::{MemoryMap, instruction_bound, steps_by};
use firmware_code::{Firmware, image_of};
use fuzzy_meaning::Block;
use rule_layout::{LaidOut, LayoutFault, spread};
use std::alloc::{AllocError, Global};

/// The firmware of a block with answers of the given width, which stands alone in memory. Answers of 16 bits
/// are from 0 to 65280 in steps of 1/256 of a byte, and take two bytes, the high one first. It is refused exactly
/// where the block's rules are: where they spread into more than 512 conjunctions, or into a list of more than
/// 9984 bytes.
pub fn compile_for(alloc: Global, width: Width, block: &Block) -> Result<Firmware, LayoutFault>
    requires { IsValid block.now }
    ensures firmware { IfOk result (IsFirmwareOf block.now) }
    ensures width { IfOk result (λ f. f.width ≡ width) }

    // From reset it answers every list of samples, where an interrupt may come at each instruction;
    // without one its answers are the block's over this width.
    ensures answers { IfOk result (AnswersFrom block.now) }
    ensures uninterrupted { IfOk result (AnswersUninterrupted block.now) }

    // Refused exactly where the rules can't be laid out.
    ensures limits { OnOk result (IsWithinLimits block.now) }
    ensures fault { IfErr result (IsFaultOf block.now) }
{
    let laid_out = spread(alloc, block)?;
    Ok(compile_laid_out(alloc, width, &laid_out)?)
}

/// The same for a block that is already laid out. It can only fail for lack of memory.
pub fn compile_laid_out(
    alloc: Global,
    width: Width,
    laid_out: &LaidOut<'_>,
) -> Result<Firmware, AllocError>
    ensures firmware { IfOk result (IsFirmwareOf laid_out.now.block.now) }
    ensures width { IfOk result (λ f. f.width ≡ width) }
    ensures answers { IfOk result (AnswersFrom laid_out.now.block.now) }
    ensures uninterrupted { IfOk result (AnswersUninterrupted laid_out.now.block.now) }
{
    firmware_answers();
    firmware_is_uninterrupted();
    blocks_are_placed();
    let block = laid_out.block;
    let items = firmware_items(alloc, &MemoryMap::MAIN, width, laid_out)?;
    let image = image_of(alloc, items.as_slice())?;
    let instr_bound = instruction_bound(width, laid_out);
    let step_bound = steps_by(laid_out, instr_bound);
    Ok(Firmware {
        image,
        memory_map: MemoryMap::MAIN,
        inputs: block.inputs.len() as u8,
        outputs: block.outputs.len() as u8,
        width,
        instr_bound,
        step_bound,
    })
}
