//! A machine from an image.
ghost use Rattle.std.specs.Prelude.{ℕ, ◌≡◌, IfOk};
ghost use Rattle.cpu12_isa.specs.Tags.{untagged};
ghost use Rattle.cpu12_emul.specs.{Image.image_memory, Step.reset_with};

use crate::machine::Machine;
use cpu12_asm::Image;
use cpu12_isa::mem::Mem;
use fz_list::Memory;
use std::alloc::Global;

impl<M: Mem> Machine<M> {
    /// A machine after reset with the image in memory, and 0 where the image has no byte: registers 0, CCR `$D0`,
    /// PC from `$FFFE`.
    pub fn new(alloc: Global, image: &Image, flags: u8) -> Result<Machine<M>, Memory>
        ensures { IfOk result (λ m. m ≡ record {
          state = reset_with (image_memory image.now.bytes);
          flags = flags;
          tags = untagged 65536;
        }) }
    {
        let mut mem = M::fresh(alloc)?;
        image.bytes.write_to(&mut mem);
        Ok(Machine::reset(mem, flags))
    }
}
