//! The one line on err, put in parts that need no memory.
ghost use Rattle.std.specs.Prelude.{◌≡◌, ◌++◌, length};
ghost use Rattle.fz_shelf.specs.Told.{gained, HasRoom};
ghost use Rattle.fz_status.specs.Words.{texts_of};
ghost use Rattle.fz_shelf.specs.Puts.{Puts};
ghost use Rattle.fz_status.specs.Errors.{Complains, error_line_of};

use crate::Status;
use crate::fault_lines::{
    put_asm, put_cert, put_fast, put_fcl, put_handler, put_image, put_name, put_not_reached,
    put_number, put_plan, put_text, put_trace, put_trap, put_upset,
};
use crate::words::word;
use fz_shelf::{Failed, Sink, put_parts};

fn put_line<F: Sink>(err: &mut F, words: &[String], status: &Status) -> Result<(), Failed>
    ensures { Puts F.told F.reliable err.old err.new (error_line_of (texts_of words.now) status.now) result }
{
    match status {
        Status::Ok => put_parts(err, &[]),
        Status::Usage => put_text(
            err,
            b"usage: fuzz12 compile, certify, check, run, asm, exec or gen",
        ),
        Status::ReadFault(place) => put_name(err, b"read fault: ", word(words, *place)),
        Status::WriteFault => put_text(err, b"write fault"),
        Status::Fcl(fault) => put_fcl(err, fault),
        Status::Image(fault) => put_image(err, fault),
        Status::Cert(fault) => put_cert(err, fault),
        Status::Trace(fault) => put_trace(err, fault),
        Status::Plan(fault) => put_plan(err, fault),
        Status::Upset(fault) => put_upset(err, fault),
        Status::NotReached(fault) => put_not_reached(err, fault),
        Status::Memory => put_text(err, b"memory"),
        Status::TooLong(place) => put_name(err, b"too long: ", word(words, *place)),
        Status::Asm(fault) => put_asm(err, fault),
        Status::Trap(pc, byte) => put_trap(err, *pc, *byte),
        Status::Budget(steps) => put_number(err, b"budget: ", *steps, b""),
        Status::Handler(fault) => put_handler(err, fault),
        Status::Script(line) => put_number(err, b"script: line ", *line, b""),
        Status::Fast(fault) => put_fast(err, fault),
    }
}

/// Puts the line of a status; `Ok` has none. Allocates no memory. If a put fails, err has taken a
/// prefix of the line.
pub fn report<F: Sink>(err: &mut F, words: &[String], status: &Status)
    ensures quiet { status.now ≡ Status.Ok → F.told err.new ≡ F.told err.old }
    ensures line { (status.now ≡ Status.Ok → ⊥)
        → Complains (error_line_of (texts_of words.now) status.now) (F.told err.old) (F.told err.new) }
    ensures reliable { F.reliable err.old → F.reliable err.new }
    ensures steady { F.reliable err.old
        → HasRoom (F.told err.old).taken (length (error_line_of (texts_of words.now) status.now))
        → (F.told err.new).taken ≡ gained (F.told err.old).taken (error_line_of (texts_of words.now) status.now) }
{
    if let Status::Ok = status {
        return;
    }
    complain(err, words, status);
}

/// Puts the line of a status.
fn complain<F: Sink>(err: &mut F, words: &[String], status: &Status)
    ensures line { Complains (error_line_of (texts_of words.now) status.now) (F.told err.old) (F.told err.new) }
    ensures reliable { F.reliable err.old → F.reliable err.new }
    ensures steady { F.reliable err.old
        → HasRoom (F.told err.old).taken (length (error_line_of (texts_of words.now) status.now))
        → (F.told err.new).taken ≡ gained (F.told err.old).taken (error_line_of (texts_of words.now) status.now) }
{
    let _ = put_line(err, words, status);
}
