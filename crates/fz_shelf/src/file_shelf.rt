//! A shelf of real files, of whose contents its model says nothing.
ghost use Rattle.std.specs.Prelude.{◌≡◌, ◌≤◌, ◌<◌, [], length, IfSome, IsErrOf, OnOk, vec_len, vec_capacity};
ghost use Rattle.std.specs.Prelude.{string_bytes};
ghost use Rattle.fz_shelf.specs.{Files.untold, Log.asked_of, Log.asked_after};

use crate::log::{entry_for, record};
use crate::{Answer, Asked, MOST_BYTES, ReadError, Shelf, WriteError};
use std::alloc::Global;
use std::fs::File;
use std::io::{ErrorKind, Read};
use std::rt::Files;

/// The files of the system by their paths. It is never reliable.
#[derive(Drop)]
pub struct FileShelf<R: Files + Drop> {
    rt: R,
    alloc: Global,
    asked: Vec<Asked>,
    failed_reads: u64,
    too_long: u64,
    failed_writes: u64,
}

impl<R: Files + Drop> FileShelf<R> {
    /// A shelf over the runtime's files, with no call and no fault yet.
    pub fn new(alloc: Global, rt: R) -> FileShelf<R>
        ensures asked { (⟦<FileShelf<R> as Shelf>⟧.told result).asked ≡ [] }
        ensures counts { (⟦<FileShelf<R> as Shelf>⟧.told result).counts ≡ record { reads = 0; longs = 0; writes = 0 } }
    {
        FileShelf {
            rt,
            alloc,
            asked: Vec::new(alloc),
            failed_reads: 0,
            too_long: 0,
            failed_writes: 0,
        }
    }
}

/// All that a reader gives, in pieces of any size, up to one byte more than a file may have.
fn read_whole<R: Read + Drop>(reader: R, into: &mut Vec<u8>) -> Result<(), ReadError>
    requires { into.old.items ≡ [] }
    ensures small { OnOk result (length into.new.items ≤ 1048576) }
    ensures whole { OnOk result (IfSome (R.remaining reader) (λ bytes. into.new.items ≡ bytes)) }
    ensures long { IsErrOf result ReadError.TooLong
        → IfSome (R.remaining reader) (λ bytes. 1048576 < length bytes) }
{
    match reader.take(MOST_BYTES as u64 + 1).read_to_end(into) {
        Ok(count) if count <= MOST_BYTES => Ok(()),
        Ok(_) => Err(ReadError::TooLong),
        Err(fault) if fault.kind() == ErrorKind::OutOfMemory => Err(ReadError::Memory),
        Err(_) => Err(ReadError::Failed),
    }
}

/// The whole file of a name.
fn read_file<R: Files>(rt: &R, name: &str, into: &mut Vec<u8>) -> Result<(), ReadError>
    requires { into.old.items ≡ [] }
    ensures { OnOk result (length into.new.items ≤ 1048576) }
{
    match File::open(rt, name) {
        Ok(file) => read_whole(file, into),
        Err(_) => Err(ReadError::Failed),
    }
}

/// Reads the file once, and adds an entry to the log.
fn read_once<R: Files>(
    alloc: Global,
    rt: &R,
    asked: &mut Vec<Asked>,
    name: &str,
    into: &mut Vec<u8>,
) -> Result<(), ReadError>
    requires { into.old.items ≡ [] }
    ensures small { OnOk result (length into.new.items ≤ 1048576) }
    ensures asked { asked_of asked.new.items ≡ asked_after (asked_of asked.old.items) name.now result }
{
    let entry = match entry_for(alloc, asked, name) {
        Ok(entry) => entry,
        Err(_) => return Err(ReadError::Memory),
    };
    match read_file(rt, name, into) {
        Ok(()) => {
            record(asked, entry, Answer::Whole);
            Ok(())
        }
        Err(ReadError::TooLong) => {
            record(asked, entry, Answer::Long);
            Err(ReadError::TooLong)
        }
        Err(ReadError::Failed) => {
            record(asked, entry, Answer::Missed);
            Err(ReadError::Failed)
        }
        Err(ReadError::Memory) => Err(ReadError::Memory),
    }
}

impl<R: Files + Drop> Shelf for FileShelf<R> {
    ghost told = { λ s. record {
      files = λ name. untold;
      counts = record { reads = s.failed_reads; longs = s.too_long; writes = s.failed_writes };
      asked = asked_of s.asked.items;
    } };

    ghost reliable = { λ s. ⊥ };

    fn read(&mut self, name: &str, into: &mut Vec<u8>) -> Result<(), ReadError> {
        match read_once(self.alloc, &self.rt, &mut self.asked, name, into) {
            Ok(()) => Ok(()),
            Err(ReadError::Memory) => Err(ReadError::Memory),
            Err(ReadError::TooLong) => {
                self.too_long = self.too_long.saturating_add(1);
                Err(ReadError::TooLong)
            }
            Err(ReadError::Failed) => {
                self.failed_reads = self.failed_reads.saturating_add(1);
                Err(ReadError::Failed)
            }
        }
    }

    fn write(&mut self, name: &str, bytes: &[u8]) -> Result<(), WriteError> {
        let entry = match entry_for(self.alloc, &mut self.asked, name) {
            Ok(entry) => entry,
            Err(_) => return Err(WriteError::Memory),
        };
        if std::fs::write(&self.rt, name, bytes).is_err() {
            record(&mut self.asked, entry, Answer::Unwritten);
            self.failed_writes = self.failed_writes.saturating_add(1);
            return Err(WriteError::Failed);
        }
        record(&mut self.asked, entry, Answer::Written);
        Ok(())
    }
}
