//! The command `hcheck HANDLER`.
ghost use Rattle.std.specs.Prelude.{◌≡◌, ◌∷◌, [], codes, IfOk};
ghost use Rattle.command_parts.specs.{SeenOutputs.IsResultOf, Lines.line};
ghost use Rattle.build_commands.specs.Hcheck.{HcheckMakes};

use command_parts::contents::Content;
use command_parts::handlers::handler_of;
use command_parts::lines::labelled;
use command_parts::output::Output;
use fz_shelf::Line;
use fz_status::Status;
use handler_check::Handler;
use std::alloc::{AllocError, Global};

/// The index of the word HANDLER.
pub static INPUTS: [u32; 1] = [2];

/// Checks the handler that the records give. The output has the number of instructions on its longest path.
pub fn work(alloc: Global, records: &Content) -> Result<Output, Status>
    ensures { IsResultOf (HcheckMakes records.now) result }
{
    let accepted = handler_of(alloc, records)?;
    let lines = lines(alloc, accepted.handler)?;
    Ok(Output { lines, file: None })
}

/// The line of the number of instructions on the handler's longest path.
fn lines(alloc: Global, handler: Handler) -> Result<Vec<Line>, AllocError>
    ensures { IfOk result (λ lines. lines.items ≡ line (codes "handler instructions ") handler.instrs ∷ []) }
{
    let mut lines = Vec::new(alloc);
    lines.push(labelled(alloc, "handler instructions ", u128::from(handler.instrs))?)?;
    Ok(lines)
}
