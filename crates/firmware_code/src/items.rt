//! The items that forms of firmware share.
ghost use Rattle.std.specs.Prelude.{◌≡◌, ◌++◌, OnOk};
ghost use Rattle.firmware_code.specs.{Code.frame_code, Images.vector_items};

use cpu12_asm::Item;
use cpu12_isa::instr::Instr;
use cpu12_isa::mem::VECTOR;
use eval_code::{MemoryMap, push_word};
use std::alloc::AllocError;

/// The code before EVAL of a firmware that stands alone.
pub fn frame_code(memory_map: &MemoryMap) -> [Instr; 9]
    ensures { result ≡ frame_code memory_map.now }
{
    [
        Instr::LdsImmediate(0x2000),
        Instr::ClrExtended(memory_map.sample_flag),
        Instr::Andcc(0xEF),
        Instr::LdaaExtended(memory_map.sample_flag),
        Instr::Beq(0xFB),
        Instr::JsrExtended(memory_map.eval),
        Instr::ClrExtended(memory_map.sample_flag),
        Instr::Bra(0xF3),
        Instr::Rti,
    ]
}

/// The interrupt vector and the reset vector.
pub fn push_vectors(items: &mut Vec<Item>, memory_map: &MemoryMap) -> Result<(), AllocError>
    ensures { OnOk result (items.new.items ≡ items.old.items ++ vector_items memory_map.now) }
{
    items.push(Item::Place(VECTOR))?;
    push_word(items, memory_map.interrupt)?;
    items.push(Item::Place(0xFFFE))?;
    push_word(items, memory_map.code)
}
