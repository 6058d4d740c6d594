//! The items of a firmware that stands alone.
ghost use Rattle.std.specs.Prelude.{◌≡◌, IfOk};
ghost use Rattle.eval_code.specs.Items.{HasRoom};
ghost use Rattle.alone_code.specs.Firmwares.{firmware_items};

use byte_scaling::Width;
use cpu12_asm::Item;
use cpu12_isa::instr::Instr;
use eval_code::{Around, MemoryMap, push_block};
use firmware_code::{frame_code, push_vectors};
use rule_layout::LaidOut;
use std::alloc::{AllocError, Global};

/// The items of the firmware of a block that stands alone at a memory map, with answers of the given width.
pub fn firmware_items(
    alloc: Global,
    memory_map: &MemoryMap,
    width: Width,
    laid_out: &LaidOut<'_>,
) -> Result<Vec<Item>, AllocError>
    requires { HasRoom memory_map.now }
    ensures { IfOk result
        (λ items. items.items ≡ firmware_items memory_map.now laid_out.now.block.now width) }
{
    let mut items = Vec::new(alloc);
    let (before, behind) = (frame_code(memory_map), [Instr::Rts]);
    let around = Around {
        before: &before,
        behind: &behind,
    };
    push_block(alloc, &mut items, memory_map, width, laid_out, &around)?;
    push_vectors(&mut items, memory_map)?;
    Ok(items)
}
