//! The records of an image.
ghost use Rattle.std.specs.Prelude.{IfOk};
ghost use Rattle.cpu12_asm.specs.Bytes.{IsAscending};
ghost use Rattle.srecord.specs.{Images.ImageText, Texts.GivesImage};

use crate::pieces::put_pieces;
use crate::records::put_record;
use cpu12_asm::Image;
use std::alloc::{AllocError, Global};

/// The records of bytes, and of a start.
fn text_of(alloc: Global, bytes: &[(u16, u8)], start: u16) -> Result<Vec<u8>, AllocError>
    requires { IsAscending bytes.now }
    ensures { IfOk result (λ text. ImageText bytes.now start text.items) }
{
    let mut text = Vec::new(alloc);
    put_record(alloc, &mut text, b'0', 0, b"FZ12")?;
    let count = put_pieces(alloc, &mut text, bytes)?;
    put_record(alloc, &mut text, b'5', count as u16, &[])?;
    put_record(alloc, &mut text, b'9', start, &[])?;
    Ok(text)
}

/// The records of an image, with upper-case digits, each ended by LF. They read back as the same image.
pub fn write(alloc: Global, image: &Image) -> Result<Vec<u8>, AllocError>
    ensures records { IfOk result (λ text. ImageText image.now.bytes image.now.start text.items) }
    ensures image { IfOk result (λ text. GivesImage text.items image.now) }
{
    let bytes = image.bytes.to_vec(alloc)?;
    text_of(alloc, &bytes, image.start)
}
