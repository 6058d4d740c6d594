//! Whole texts put into a sink that may take only a prefix at a time.
ghost use Rattle.std.specs.Prelude.{OnErr};
ghost use Rattle.std.specs.List.{concat};
ghost use Rattle.fz_shelf.specs.{Lines.GainedLines, Puts.Puts, Told.GainedShort};

use crate::{Failed, Line, Sink};

/// Puts all the bytes. On `Err` the sink has taken a prefix of them.
pub fn put_all<S: Sink>(sink: &mut S, bytes: &[u8]) -> Result<(), Failed>
    ensures puts { Puts S.told S.reliable sink.old sink.new bytes.now result }
    ensures short { OnErr result (GainedShort (S.told sink.old).taken (S.told sink.new).taken bytes.now) }
{
    let mut rest = bytes;
    while !rest.is_empty() {
        let count = sink.put(rest)?;
        rest = &rest[count..];
    }
    Ok(())
}

/// Puts the lines one by one.
pub fn put_lines<S: Sink>(sink: &mut S, lines: &[Line]) -> Result<(), Failed>
    ensures puts { Puts S.told S.reliable sink.old sink.new (concat lines.now) result }
    ensures part { OnErr result (GainedLines (S.told sink.old).taken (S.told sink.new).taken lines.now) }
{
    for line in lines {
        put_all(sink, line.as_bytes())?;
    }
    Ok(())
}
