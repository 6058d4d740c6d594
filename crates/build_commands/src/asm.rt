//! The command `asm SRC OUT`.
ghost use Rattle.std.specs.Prelude.{◌≡◌, ◌∷◌, [], length, IfOk};
ghost use Rattle.std.specs.Prelude.{codes};
ghost use Rattle.command_parts.specs.{SeenOutputs.IsResultOf, Lines.line};
ghost use Rattle.build_commands.specs.Asm.{AsmMakes};

use crate::written::written_image;
use command_parts::contents::Content;
use command_parts::lines::labelled;
use command_parts::output::Output;
use cpu12_asm::{Image, assemble};
use fz_shelf::Line;
use fz_status::Status;
use std::alloc::{AllocError, Global};

/// The index of the word SRC.
pub static INPUTS: [u32; 1] = [2];

/// The index of the word OUT.
const OUT: u32 = 3;

/// Assembles the source. The output has the records of its image, and the number of the image's bytes.
pub fn work(alloc: Global, source: &Content) -> Result<Output, Status>
    ensures { IsResultOf (AsmMakes source.now) result }
{
    let image = assemble(alloc, source.bytes())?;
    let lines = lines(alloc, &image)?;
    written_image(alloc, &image, OUT, lines)
}

/// The line of the number of the image's bytes.
fn lines(alloc: Global, image: &Image) -> Result<Vec<Line>, AllocError>
    ensures { IfOk result (λ lines. lines.items ≡ line (codes "bytes ") (length image.now.bytes) ∷ []) }
{
    let mut lines = Vec::new(alloc);
    lines.push(labelled(alloc, "bytes ", image.bytes.len() as u128)?)?;
    Ok(lines)
}
