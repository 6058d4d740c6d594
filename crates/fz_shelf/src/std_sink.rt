//! Standard output and standard error as sinks.
ghost use Rattle.std.specs.Prelude.{◌≡◌, IfOk, IsOk, None, length};
ghost use Rattle.std.specs.Io.KnownBytes.{WriteAppends};
ghost use Rattle.fz_shelf.specs.{Faults.HasCause, Told.after_put, Told.HasRoom, Told.IsPart, Told.IsWithinRoom};

use crate::{Failed, Sink};
use std::io::Write;

/// A writer of the system. Its model does not say what it took, and it is never reliable.
#[derive(Drop)]
pub struct StdSink<W: Write + Drop> {
    writer: W,
    faults: u64,
}

impl<W: Write + Drop> StdSink<W> {
    /// The sink over a writer, with no fault yet.
    pub fn new(writer: W) -> StdSink<W>
        ensures { (⟦<StdSink<W> as Sink>⟧.told result).faults ≡ 0 }
    {
        StdSink { writer, faults: 0 }
    }
}

/// The number of bytes that a writer takes of a piece in one write: at least one, unless the piece is empty.
fn write_once<W: Write>(writer: &mut W, bytes: &[u8]) -> Result<usize, Failed>
    ensures part { IfOk result (λ n. IsPart n (length bytes.now)) }
    ensures given { WriteAppends (W.contents writer.old) (W.contents writer.new) result bytes.now }
{
    match writer.write(bytes) {
        Ok(0) if !bytes.is_empty() => Err(Failed),
        Ok(count) => Ok(count),
        Err(_) => Err(Failed),
    }
}

impl<W: Write + Drop> Sink for StdSink<W> {
    ghost told = { λ s. record { taken = None; faults = s.faults } };

    ghost reliable = { λ s. ⊥ };

    ghost use Rattle.fz_shelf.specs.Writers.{writer_of};

    /// One write. Where the writer's contents are known, they grow by as many bytes as are returned, and no others.
    fn put(&mut self, bytes: &[u8]) -> Result<usize, Failed>
        ensures part { IfOk result (λ n. IsPart n (length bytes.now)) }
        ensures fits { IfOk result (IsWithinRoom (⟦<StdSink<W> as Sink>⟧.told self.old).taken) }
        ensures told { (⟦<StdSink<W> as Sink>⟧.told self.new).taken
            ≡ after_put (⟦<StdSink<W> as Sink>⟧.told self.old).taken bytes.now result }
        ensures cause { HasCause (⟦<StdSink<W> as Sink>⟧.told self.old).faults
            (⟦<StdSink<W> as Sink>⟧.told self.new).faults result }
        ensures reliable { ⟦<StdSink<W> as Sink>⟧.reliable self.old → ⟦<StdSink<W> as Sink>⟧.reliable self.new }
        ensures steady { ⟦<StdSink<W> as Sink>⟧.reliable self.old
            → HasRoom (⟦<StdSink<W> as Sink>⟧.told self.old).taken (length bytes.now) → IsOk result }

        ensures given { WriteAppends (W.contents (writer_of self.old)) (W.contents (writer_of self.new))
            result bytes.now }
    {
        match write_once(&mut self.writer, bytes) {
            Ok(count) => Ok(count),
            Err(Failed) => {
                self.faults = self.faults.saturating_add(1);
                Err(Failed)
            }
        }
    }
}
