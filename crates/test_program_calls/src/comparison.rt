//! Compares what a call left with what it was expected to leave.
ghost use Rattle.std.specs.Prelude.{IfErr, OnOk};
ghost use Rattle.fz_shelf.specs.Fakes.{sink_told};
ghost use Rattle.test_program_calls.specs.Lefts.{IsFirstDifference, Leaves};

use crate::{Difference, Left};
use fz_shelf::MemSink;
use std::alloc::{AllocError, Global};

/// What a sink took, if it is text.
fn text_in(alloc: Global, sink: &MemSink) -> Result<String, AllocError> {
    String::from_str(alloc, str::from_utf8(sink.bytes()).unwrap_or("no text"))
}

/// Checks that a call left this. Otherwise it gives the first difference: on err, on out, then in the status.
pub(crate) fn compare(
    alloc: Global,
    code: u8,
    out: &MemSink,
    err: &MemSink,
    left: &Left,
) -> Result<(), Difference>
    ensures same { OnOk result (Leaves code (sink_told out.now) (sink_told err.now) left.now) }
    ensures differs { IfErr result (IsFirstDifference code (sink_told out.now) (sink_told err.now) left.now) }
{
    if err.bytes() != left.err().as_bytes() {
        return Err(Difference::Err(text_in(alloc, err)?));
    }
    if out.bytes() != left.out().as_bytes() {
        return Err(Difference::Out(text_in(alloc, out)?));
    }
    if code != left.code() {
        return Err(Difference::Status(code));
    }
    Ok(())
}
