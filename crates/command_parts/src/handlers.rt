//! The handler that a text of records gives.
ghost use Rattle.std.specs.Prelude.{IfOk, IfErr};
ghost use Rattle.command_parts.specs.Handlers.{GivesHandler, handler_refusals};
ghost use Rattle.fz_status.specs.Refusals.{IsRefusal};

use crate::contents::Content;
use crate::images::image_of;
use cpu12_asm::Image;
use fz_status::Status;
use handler_check::{Handler, check_handler};
use std::alloc::Global;

/// A handler that was accepted, with its image.
#[derive(Drop)]
pub struct AcceptedHandler {
    /// The image that the records give.
    pub image: Image,
    /// What the check found out about its code.
    pub handler: Handler,
}

/// The handler that the records give. A fault of the records comes before the first fault of
/// the handler.
pub fn handler_of(alloc: Global, records: &Content) -> Result<AcceptedHandler, Status>
    ensures handler { IfOk result (λ a. GivesHandler records.now a.image a.handler.instrs) }
    ensures fault { IfErr result (IsRefusal (handler_refusals records.now)) }
{
    let image = image_of(alloc, records)?;
    let handler = check_handler(alloc, &image)?;
    Ok(AcceptedHandler { image, handler })
}
