//! From a text to its image.
ghost use Rattle.std.specs.Prelude.{IfOk, IfErr, OnOk};
ghost use Rattle.srecord.specs.Texts.{GivesImage};
ghost use Rattle.command_parts.specs.Images.{image_refusals};
ghost use Rattle.command_parts.specs.Images.{records_refusals};
ghost use Rattle.fz_status.specs.Refusals.{IsRefusal};

use crate::contents::Content;
use cpu12_asm::Image;
use fz_status::{ImageFault, Status};
use std::alloc::Global;

/// The image that a text of records gives, or the status of its first fault.
pub fn image_of(alloc: Global, text: &Content) -> Result<Image, Status>
    ensures image { IfOk result (GivesImage text.now) }
    ensures fault { IfErr result (IsRefusal (records_refusals text.now)) }
{
    Ok(srecord::read(alloc, text.bytes())?)
}

/// Checks that a text of records gives this image. Otherwise the status is that of the first fault of
/// the text, of the first address where the byte differs, or of the start.
pub fn require_image(alloc: Global, text: &Content, wanted: &Image) -> Result<(), Status>
    ensures image { OnOk result (GivesImage text.now wanted.now) }
    ensures fault { IfErr result (IsRefusal (image_refusals text.now wanted.now)) }
{
    let given = image_of(alloc, text)?;
    match given.bytes.first_difference(&wanted.bytes) {
        Some(at) => Err(Status::Image(ImageFault::Byte(
            at,
            given.bytes.get(at),
            wanted.bytes.get(at),
        ))),
        None if given.start != wanted.start => {
            Err(Status::Image(ImageFault::Start(given.start, wanted.start)))
        }
        None => Ok(()),
    }
}
