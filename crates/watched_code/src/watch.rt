//! Firmware that watches its tables.
ghost use Rattle.std.specs.Prelude.{◌≡◌, IfOk, IfErr, OnOk};
ghost use Rattle.fuzzy_meaning.specs.Blocks.{IsValid};
ghost use Rattle.rule_layout.specs.Layouts.{IsWithinLimits, IsFaultOf};
ghost use Rattle.eval_code.specs.{MemoryMaps.main_map, Items.HasRoom};
ghost use Rattle.firmware_code.specs.Images.{IsImageOf};
ghost use Rattle.watched_code.specs.Watched.{AnswersWatched, IsWatchedFirmwareOf, watched_items};
ghost use Rattle.watched_code.specs.WatchedCode.{watched_front, watched_map};

use crate::check::{code_length, watched_front};
use crate::laws::watched_answers;
use crate::segments::{segment_bounds, segments};
use byte_scaling::Width;
use cpu12_asm::{Image, Item};
use cpu12_isa::instr::Instr;
use eval_code::laws::blocks_are_placed;
use eval_code::{Around, MemoryMap, instruction_bound, push_block, steps_by};
use firmware_code::{Firmware, image_of, push_vectors};
use fuzzy_meaning::Block;
use rule_layout::{LaidOut, LayoutFault, spread};
use std::alloc::{AllocError, Global};

/// The items of the image of a firmware with watched tables, at its memory map and with the code before EVAL.
fn watched_items(
    alloc: Global,
    memory_map: &MemoryMap,
    laid_out: &LaidOut<'_>,
    front: &[Instr],
) -> Result<Vec<Item>, AllocError>
    requires memory_map { memory_map.now ≡ watched_map laid_out.now.block.now }
    requires room { HasRoom memory_map.now }
    requires front { front.now ≡ watched_front main_map laid_out.now.block.now }
    ensures { IfOk result (λ items. items.items ≡ watched_items laid_out.now.block.now) }
{
    let mut items = Vec::new(alloc);
    let behind = [Instr::Rts];
    let around = Around {
        before: front,
        behind: &behind,
    };
    push_block(
        alloc,
        &mut items,
        memory_map,
        Width::Byte,
        laid_out,
        &around,
    )?;
    push_vectors(&mut items, memory_map)?;
    Ok(items)
}

/// The image of a firmware with watched tables. It can only fail for lack of memory.
fn watched_image(
    alloc: Global,
    memory_map: &MemoryMap,
    laid_out: &LaidOut<'_>,
    front: &[Instr],
) -> Result<Image, AllocError>
    requires memory_map { memory_map.now ≡ watched_map laid_out.now.block.now }
    requires front { front.now ≡ watched_front main_map laid_out.now.block.now }
    ensures { IfOk result (IsImageOf (watched_items laid_out.now.block.now)) }
{
    blocks_are_placed();
    let items = watched_items(alloc, memory_map, laid_out, front)?;
    image_of(alloc, items.as_slice())
}

/// The firmware of a block with watched tables, which answers bytes: before each sample it sums the tables, and if
/// they have changed it sets FAULT, the byte at `$1030`, to 1 and answers the outputs' defaults; an output with NC
/// keeps its byte. Otherwise FAULT is 0. It is refused where `compile` is.
pub fn compile_scrub(alloc: Global, block: &Block) -> Result<Firmware, LayoutFault>
    requires { IsValid block.now }
    ensures firmware { IfOk result (IsWatchedFirmwareOf block.now) }

    // From reset it answers every list of samples so, with a byte of its tables changed in each of
    // them or in none, where an interrupt may come at each instruction.
    ensures answers { IfOk result (AnswersWatched block.now) }

    // Refused exactly where the rules can't be laid out.
    ensures limits { OnOk result (IsWithinLimits block.now) }
    ensures fault { IfErr result (IsFaultOf block.now) }
{
    let laid_out = spread(alloc, block)?;
    Ok(compile_scrub_laid_out(alloc, &laid_out)?)
}

/// The same for a block that is already laid out. It can only fail for lack of memory.
fn compile_scrub_laid_out(alloc: Global, laid_out: &LaidOut<'_>) -> Result<Firmware, AllocError>
    ensures firmware { IfOk result (IsWatchedFirmwareOf laid_out.now.block.now) }
    ensures answers { IfOk result (AnswersWatched laid_out.now.block.now) }
{
    blocks_are_placed();
    watched_answers();
    let segments = segments(alloc, &MemoryMap::MAIN, laid_out)?;
    let outputs = laid_out.block.outputs.as_slice();
    let front = watched_front(alloc, &MemoryMap::MAIN, outputs, &segments)?;
    let memory_map = MemoryMap {
        eval: MemoryMap::MAIN.code + code_length(&front),
        ..MemoryMap::MAIN
    };
    let image = watched_image(alloc, &memory_map, laid_out, &front)?;
    let instr_bound = instruction_bound(Width::Byte, laid_out) + 4 + segment_bounds(&segments);
    let step_bound = steps_by(laid_out, instr_bound);
    Ok(Firmware {
        image,
        memory_map,
        inputs: laid_out.block.inputs.len() as u8,
        outputs: laid_out.block.outputs.len() as u8,
        width: Width::Byte,
        instr_bound,
        step_bound,
    })
}
