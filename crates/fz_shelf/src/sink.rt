//! Sinks that take bytes.
ghost use Rattle.std.specs.Prelude.{◌≡◌, length, IfOk, IsOk};
ghost use Rattle.fz_shelf.specs.Faults.{HasCause};
ghost use Rattle.fz_shelf.specs.Told.{SinkTold, after_put, HasRoom, IsPart, IsWithinRoom};

use crate::Failed;

/// An output that takes bytes, one piece after the other.
pub trait Sink {
    /// The bytes taken so far and the room left, if they are known, and how many puts failed: that
    /// number never falls, and only a put that fails raises it.
    ghost told: { Self → SinkTold };

    /// While it holds, a put within the room left does not fail. Every call preserves it.
    ghost reliable: { Self → Type 0 };

    /// Takes a prefix of the piece, no longer than the room left, and returns its length. It is
    /// 0 only for an empty piece. Allocates no memory.
    fn put(&mut self, bytes: &[u8]) -> Result<usize, Failed>
        ensures part { IfOk result (λ n. IsPart n (length bytes.now)) }
        ensures fits { IfOk result (IsWithinRoom (told self.old).taken) }
        ensures told { (told self.new).taken ≡ after_put (told self.old).taken bytes.now result }
        ensures cause { HasCause (told self.old).faults (told self.new).faults result }
        ensures reliable { reliable self.old → reliable self.new }
        ensures steady { reliable self.old → HasRoom (told self.old).taken (length bytes.now) → IsOk result };
}
