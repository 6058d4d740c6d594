//! The items of a slow firmware with a fast block.
ghost use Rattle.std.specs.Prelude.{◌≡◌, IfOk};
ghost use Rattle.two_level_code.specs.{Images.two_items, MemoryMaps.fast_map, MemoryMaps.slow_map};

use byte_scaling::Width;
use cpu12_asm::Item;
use cpu12_isa::instr::Instr;
use eval_code::{Around, MemoryMap, push_block};
use firmware_code::{frame_code, push_vectors};
use rule_layout::LaidOut;
use std::alloc::{AllocError, Global};

/// How far the fast block's ROM is below that of a firmware that stands alone, and how far its RAM is above.
const LOWERED: u16 = 0x8000;

const RAISED: u16 = 0x0400;

/// The memory map of the fast block. Its code begins with the two-byte instruction that enables interrupts.
pub fn fast_map() -> MemoryMap
    ensures { result ≡ fast_map }
{
    let main = MemoryMap::MAIN;
    let code = main.code - LOWERED;
    MemoryMap {
        code,
        wait: main.wait - LOWERED,
        interrupt: code,
        eval: code + 2,
        tables: main.tables - LOWERED,
        singletons: main.singletons - LOWERED,
        weights: main.weights - LOWERED,
        rules: main.rules - LOWERED,
        sample_flag: main.sample_flag + RAISED,
        samples: main.samples + RAISED,
        inputs: main.inputs + RAISED,
        outputs: main.outputs + RAISED,
        slots: main.slots + RAISED,
    }
}

/// The memory map of the slow firmware, whose interrupts enter the fast block's code.
pub(crate) fn slow_map() -> MemoryMap
    ensures { result ≡ slow_map }
{
    MemoryMap {
        interrupt: fast_map().interrupt,
        ..MemoryMap::MAIN
    }
}

/// The items of the fast block and then those of the slow firmware.
pub(crate) fn two_items(
    alloc: Global,
    slow: &LaidOut<'_>,
    fast: &LaidOut<'_>,
) -> Result<Vec<Item>, AllocError>
    ensures { IfOk result (λ items. items.items ≡ two_items slow.now.block.now fast.now.block.now) }
{
    let memory_map = fast_map();
    let mut items = Vec::new(alloc);
    let (enter, leave) = ([Instr::Andcc(0xEF)], [Instr::Rti]);
    let around_fast = Around {
        before: &enter,
        behind: &leave,
    };
    push_block(
        alloc,
        &mut items,
        &memory_map,
        Width::Byte,
        fast,
        &around_fast,
    )?;
    let main = MemoryMap::MAIN;
    let (frame, back) = (frame_code(&main), [Instr::Rts]);
    let around_slow = Around {
        before: &frame,
        behind: &back,
    };
    push_block(alloc, &mut items, &main, Width::Byte, slow, &around_slow)?;
    push_vectors(&mut items, &slow_map())?;
    Ok(items)
}
