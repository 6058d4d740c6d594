//! The mailbox form of the firmware.
ghost use Rattle.std.specs.Prelude.{◌≡◌, ◌+◌, ◌^◌, ◌<◌, ◌≤◌, ◌++◌, length, IfOk, IfErr, OnOk};
ghost use Rattle.fuzzy_meaning.specs.Blocks.{IsValid};
ghost use Rattle.rule_layout.specs.Layouts.{IsWithinLimits, IsFaultOf};
ghost use Rattle.mailbox_code.specs.Mailboxes.{mailbox_map, copy_code, mailbox_code, mailbox_items, mailbox_bound};
ghost use Rattle.mailbox_code.specs.{Mailboxes.IsMailboxOf, Turns.TakesPosts};
ghost use Rattle.byte_scaling.specs.declared.width.Width.TheVariants.{Byte};
ghost use Rattle.firmware_code.specs.Uninterrupted.{AnswersUninterrupted};

use crate::laws::{mailbox_is_uninterrupted, mailbox_takes_posts};
use byte_scaling::Width;
use cpu12_asm::Item;
use cpu12_isa::instr::Instr;
use eval_code::laws::blocks_are_placed;
use eval_code::{Around, MemoryMap, instruction_bound, push_block, steps_by};
use firmware_code::{Firmware, image_of, push_vectors};
use fuzzy_meaning::Block;
use rule_layout::{LaidOut, LayoutFault, spread};
use std::alloc::{AllocError, Global};

/// The memory map for this many inputs: each takes six bytes of code for its copy.
fn mailbox_map(inputs: u8) -> MemoryMap
    requires { inputs ≤ 8 }
    ensures { result ≡ mailbox_map inputs }
{
    let copies = 6 * u16::from(inputs);
    MemoryMap {
        interrupt: 0xC019 + copies,
        eval: 0xC01A + copies,
        sample_flag: 0x1028,
        samples: 0x1020,
        ..MemoryMap::MAIN
    }
}

/// Copies of bytes, from one address on to another.
fn push_copies(code: &mut Vec<Instr>, from: u16, to: u16, count: u8) -> Result<(), AllocError>
    requires { (from + count < 2 ^ 16) × (to + count < 2 ^ 16) }
    ensures { OnOk result (code.new.items ≡ code.old.items ++ copy_code from to count) }
{
    for at in 0..u16::from(count) {
        code.push(Instr::MovbExtended(from + at, to + at))?;
    }
    Ok(())
}

/// The code before EVAL. It polls POSTED in a loop; when POSTED is set, it copies MAIL to the inputs while I is 1,
/// so that no handler comes between two bytes of a sample.
fn mailbox_code(alloc: Global, memory_map: &MemoryMap, inputs: u8) -> Result<Vec<Instr>, AllocError>
    requires few { inputs ≤ 8 }
    requires room { (memory_map.now.samples + 8 < 2 ^ 16) × (memory_map.now.inputs + 8 < 2 ^ 16) }
    ensures { IfOk result (λ code. code.items ≡ mailbox_code memory_map.now inputs) }
{
    let mut code = Vec::new(alloc);
    code.extend_from_slice(&[
        Instr::LdsImmediate(0x2000),
        Instr::ClrExtended(memory_map.sample_flag),
        Instr::Andcc(0xEF),
        Instr::LdaaExtended(memory_map.sample_flag),
        Instr::Beq(0xFB),
        Instr::Orcc(0x10),
    ])?;
    push_copies(&mut code, memory_map.samples, memory_map.inputs, inputs)?;
    code.extend_from_slice(&[
        Instr::ClrExtended(memory_map.sample_flag), // Behind the copy, so that no post is lost.
        Instr::Andcc(0xEF), // Let in before EVAL.
        Instr::JsrExtended(memory_map.eval),
        Instr::Bra(239 - 6 * inputs),
        Instr::Rti,
    ])?;
    Ok(code)
}

/// The items of a block's mailbox firmware.
fn mailbox_items(
    alloc: Global,
    memory_map: &MemoryMap,
    width: Width,
    laid_out: &LaidOut<'_>,
) -> Result<Vec<Item>, AllocError>
    requires { memory_map.now ≡ mailbox_map (length laid_out.now.block.now.inputs) }
    ensures { IfOk result
        (λ items. items.items ≡ mailbox_items memory_map.now laid_out.now.block.now width) }
{
    let before = mailbox_code(alloc, memory_map, laid_out.block.inputs.len() as u8)?;
    let mut items = Vec::new(alloc);
    let behind = [Instr::Rts];
    let around = Around {
        before: &before,
        behind: &behind,
    };
    push_block(alloc, &mut items, memory_map, width, laid_out, &around)?;
    push_vectors(&mut items, memory_map)?;
    Ok(items)
}

/// The firmware of a block in the mailbox form, which answers bytes: an interrupt posts a sample by writing its
/// bytes from `$1020` on and 1 to `$1028`, whenever it comes, and the sample posted last is answered next. It is
/// refused where `compile` is.
pub fn compile_post(alloc: Global, block: &Block) -> Result<Firmware, LayoutFault>
    requires { IsValid block.now }
    ensures firmware { IfOk result (IsMailboxOf block.now) }
    ensures width { IfOk result (λ f. f.width ≡ Byte) }

    // From reset it takes its turns, from whatever states interrupts leave before a copy; the copy is
    // masked, and from there on the mailbox is neither read nor written.
    ensures turns { IfOk result (TakesPosts block.now) }

    // Without interrupts its answers are the block's over bytes.
    ensures uninterrupted { IfOk result (AnswersUninterrupted block.now) }

    // Refused exactly where the rules can't be laid out.
    ensures limits { OnOk result (IsWithinLimits block.now) }
    ensures fault { IfErr result (IsFaultOf block.now) }
{
    mailbox_takes_posts();
    mailbox_is_uninterrupted();
    let laid_out = spread(alloc, block)?;
    Ok(compile_post_laid_out(alloc, &laid_out)?)
}

/// The same for a block that is already laid out. It can only fail for lack of memory.
fn compile_post_laid_out(alloc: Global, laid_out: &LaidOut<'_>) -> Result<Firmware, AllocError>
    ensures firmware { IfOk result (IsMailboxOf laid_out.now.block.now) }
    ensures width { IfOk result (λ f. f.width ≡ Byte) }
{
    blocks_are_placed();
    let block = laid_out.block;
    let inputs = block.inputs.len() as u8;
    let memory_map = mailbox_map(inputs);
    let items = mailbox_items(alloc, &memory_map, Width::Byte, laid_out)?;
    let image = image_of(alloc, items.as_slice())?;
    let instr_bound = instruction_bound(Width::Byte, laid_out) + u32::from(inputs) + 2;
    let step_bound = steps_by(laid_out, instr_bound);
    Ok(Firmware {
        image,
        memory_map,
        inputs,
        outputs: block.outputs.len() as u8,
        width: Width::Byte,
        instr_bound,
        step_bound,
    })
}
