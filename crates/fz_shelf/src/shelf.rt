//! Files by name.
ghost use Rattle.std.specs.Prelude.{◌≡◌, ◌≢◌, [], ℕ, List, length, OnOk, IsErrOf};
ghost use Rattle.fz_shelf.specs.{Files.IsThere, Files.Fits, Files.Written, Told.ShelfTold};
ghost use Rattle.fz_shelf.specs.{Log.asked_after, Log.asked_to_write, Reading.ReadTells, Reading.ReadCounts};
ghost use Rattle.fz_shelf.specs.Reading.{WriteCounts};

use crate::{ReadError, WriteError};

/// The size in bytes of the longest file that can be read.
pub const MOST_BYTES: usize = 1048576;

/// Files by name, as a program sees them.
pub trait Shelf {
    /// What is known of the file of each name: nothing, that there is none, or its bytes and the
    /// greatest number of bytes that it can hold. How many reads failed, how many files were too
    /// long, and how many writes failed: no count ever falls, and only its own fault raises it. And
    /// the log: the names that `read` and `write` were called with, in order, and how each call ended.
    ghost told: { Self → ShelfTold };

    /// While it holds, neither a read of an existing file nor a write within its room fails.
    /// Every call preserves it.
    ghost reliable: { Self → Type 0 };

    /// Fills `into` with the whole file. After an error the contents of `into` are unspecified.
    fn read(&mut self, name: &str, into: &mut Vec<u8>) -> Result<(), ReadError>
        requires { into.old.items ≡ [] }
        ensures files { (told self.new).files ≡ (told self.old).files }
        ensures tells { ReadTells ((told self.old).files name.now) result into.new.items }
        ensures counts { ReadCounts (told self.old).counts (told self.new).counts result }
        ensures asked { (told self.new).asked ≡ asked_after (told self.old).asked name.now result }
        ensures reliable { reliable self.old → reliable self.new }
        ensures steady { reliable self.old → IsThere ((told self.old).files name.now)
            → IsErrOf result ReadError.Failed → ⊥ };

    /// Replaces the file's contents with these bytes, which fit its room. After `Failed` the
    /// file's contents are unspecified, and every other file is unchanged. Allocates memory for
    /// the log alone, before it writes.
    fn write(&mut self, name: &str, bytes: &[u8]) -> Result<(), WriteError>
        ensures written { OnOk result (Written ((told self.old).files name.now) bytes.now
            ((told self.new).files name.now)) }
        ensures others { (other : List ℕ) → other ≢ name.now
            → (told self.new).files other ≡ (told self.old).files other }
        ensures kept { IsErrOf result WriteError.Memory → (told self.new).files ≡ (told self.old).files }
        ensures counts { WriteCounts (told self.old).counts (told self.new).counts result }
        ensures asked { (told self.new).asked ≡ asked_to_write (told self.old).asked name.now result }
        ensures reliable { reliable self.old → reliable self.new }
        ensures steady { reliable self.old → Fits ((told self.old).files name.now) (length bytes.now)
            → IsErrOf result WriteError.Failed → ⊥ };
}
