//! The log of a shelf's reads and writes.
ghost use Rattle.std.specs.Prelude.{◌≡◌, ◌<◌, ◌++◌, ◌∷◌, [], OnOk, IfOk, vec_len, vec_capacity, string_bytes};
ghost use Rattle.fz_shelf.specs.Log.{asked_of};

use std::alloc::{AllocError, Global};

/// How a read or a write ended.
#[derive(Clone, Copy, Debug, PartialEq, Eq)]
pub enum Answer {
    /// The whole file was read.
    Whole,
    /// The read failed, for instance because there is no such file.
    Missed,
    /// The file to read is too long.
    Long,
    /// The bytes were written.
    Written,
    /// The write failed.
    Unwritten,
}

/// One read or write: the name of the file, and how the call ended.
#[derive(Drop)]
pub struct Asked {
    pub name: String,
    pub answer: Answer,
}

/// Reserves the log entry of a call, before anything is read or written.
pub(crate) fn entry_for(
    alloc: Global,
    asked: &mut Vec<Asked>,
    name: &str,
) -> Result<String, AllocError>
    ensures asked { asked.new.items ≡ asked.old.items }
    ensures room { OnOk result (vec_len asked.new < vec_capacity asked.new) }
    ensures name { IfOk result (λ n. string_bytes n ≡ name.now) }
{
    asked.reserve(1)?;
    String::from_str(alloc, name)
}

/// Appends the log entry of a call.
pub(crate) fn record(asked: &mut Vec<Asked>, name: String, answer: Answer)
    requires { vec_len asked.old < vec_capacity asked.old }
    ensures { asked_of asked.new.items ≡ asked_of asked.old.items ++ (string_bytes name, answer) ∷ [] }
{
    asked.push(Asked { name, answer }).unwrap()
}
