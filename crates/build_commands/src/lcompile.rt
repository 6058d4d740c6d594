//! The command `lcompile SLOW FAST OUT`.
ghost use Rattle.std.specs.Prelude.{◌≡◌, length, IfOk};
ghost use Rattle.two_level_code.specs.Images.{fast_most};
ghost use Rattle.command_parts.specs.SeenOutputs.{IsResultOf};
ghost use Rattle.build_commands.specs.Lcompile.{LcompileMakes, lcompile_lines};

use crate::written::written_image;
use command_parts::contents::Content;
use command_parts::lines::labelled;
use command_parts::output::Output;
use command_parts::twos::two_of;
use fz_shelf::Line;
use fz_status::Status;
use std::alloc::{AllocError, Global};
use two_level_code::Two;
use two_level_code::laws::alone_has_byte_bounds;

/// The indices of the words SLOW and FAST.
pub static INPUTS: [u32; 2] = [2, 3];

/// The index of the word OUT.
const OUT: u32 = 4;

/// Compiles the slow block of one text, and the fast block of another to run inside its interrupts. The output
/// has the records of the image of both, and their bounds.
pub fn work(alloc: Global, slow: &Content, fast: &Content) -> Result<Output, Status>
    ensures { IsResultOf (LcompileMakes slow.now fast.now) result }
{
    alone_has_byte_bounds();
    let both = two_of(alloc, slow, fast)?;
    let lines = lines(alloc, &both.two)?;
    written_image(alloc, &both.two.firmware.image, OUT, lines)
}

/// The lines of the bounds on instructions of the slow code and of the fast, and of the number of the image's bytes.
fn lines(alloc: Global, two: &Two) -> Result<Vec<Line>, AllocError>
    ensures { IfOk result (λ lines. lines.items ≡ lcompile_lines two.now.firmware.instr_bound
        (fast_most two.now.fast.instr_bound) (length two.now.firmware.image.bytes)) }
{
    let mut lines = Vec::new(alloc);
    lines.push(labelled(alloc, "instructions ", u128::from(two.firmware.instr_bound))?)?;
    lines.push(labelled(alloc, "fast ", u128::from(two.fast_bound()))?)?;
    lines.push(labelled(alloc, "bytes ", two.firmware.image.bytes.len() as u128)?)?;
    Ok(lines)
}
