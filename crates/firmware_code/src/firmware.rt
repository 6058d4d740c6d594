//! Firmware.
ghost use Rattle.std.specs.Prelude.{◌<◌, ◌^◌, length, IfOk};
ghost use Rattle.cpu12_asm.specs.Items.{IsRising};
ghost use Rattle.firmware_code.specs.Images.{IsImageOf};

use byte_scaling::Width;
use cpu12_asm::{AsmFault, Image, Item, assemble_items};
use eval_code::MemoryMap;
use std::alloc::{AllocError, Global};

/// The firmware of a block.
#[derive(Drop)]
pub struct Firmware {
    /// The bytes of its memory, and where it starts.
    pub image: Image,
    /// The addresses of its parts.
    pub memory_map: MemoryMap,
    pub inputs: u8,
    pub outputs: u8,
    /// How wide an answer is: a byte, or two, the high one first.
    pub width: Width,
    /// The most instructions that a sample takes, REV, REVW and WAV counting as one each.
    pub instr_bound: u32,
    /// The most steps that a sample takes: an element of REV, REVW or WAV is a step, as is any
    /// other instruction.
    pub step_bound: u32,
}

/// The image of items with ascending addresses.
pub fn image_of(alloc: Global, items: &[Item]) -> Result<Image, AllocError>
    requires few { length items.now < 2 ^ 32 }
    requires rising { IsRising items.now }
    ensures { IfOk result (IsImageOf items.now) }
{
    match assemble_items(alloc, items) {
        Ok(image) => Ok(image),
        Err(fault) => {
            let is_memory = matches!(&fault, AsmFault::Memory);
            prove!(is_memory);
            Err(AllocError)
        }
    }
}
