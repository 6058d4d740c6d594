//! The commands `compile FCL OUT`, `compile16 ..`, `mcompile ..` and `scompile ..`.
ghost use Rattle.command_parts.specs.SeenOutputs.{IsResultOf};
ghost use Rattle.build_commands.specs.Compile.{CompileMakes};

use crate::written::written_firmware;
use command_parts::contents::Content;
use command_parts::firmware::{Form, firmware_of};
use command_parts::output::Output;
use fz_status::Status;
use std::alloc::Global;

/// `compile FCL OUT`, `compile16 ..` with answers of 16 bits, `mcompile ..` in the mailbox form, and `scompile ..` with
/// watched tables.
#[derive(Clone, Copy)]
pub struct Compile {
    /// The form of the firmware.
    pub form: Form,
}

/// The index of the word FCL.
pub static INPUTS: [u32; 1] = [2];

impl Compile {
    /// Compiles the text. The output has the records of the image, and its bounds.
    pub fn work(self, alloc: Global, fcl: &Content) -> Result<Output, Status>
        ensures { IsResultOf (CompileMakes self fcl.now) result }
    {
        let compiled = firmware_of(alloc, self.form, fcl)?;
        written_firmware(alloc, &compiled.firmware)
    }
}
