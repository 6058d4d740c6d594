//! A shelf in memory.
ghost use Rattle.std.specs.Prelude.{◌≡◌, ◌≢◌, ◌⊎◌, ◌↔◌, ◌≤◌, ◌<◌, [], ℕ, List, length, IfOk, IsErrOf};
ghost use Rattle.std.specs.Prelude.{IsTrue, MatchOption, OnOk, false, position};
ghost use Rattle.std.specs.List.{All};
ghost use Rattle.fz_shelf.specs.{Calls.IsListed, Calls.one_more, Log.asked_after, Log.asked_of, Log.asked_to_write};
ghost use Rattle.fz_shelf.specs.Files.{Fits, IsThere, Written, absent};
ghost use Rattle.fz_shelf.specs.Reading.{ReadCounts, ReadTells, WriteCounts, counts_after_read, counts_after_write};
ghost use Rattle.fz_shelf.specs.MemFiles.{file_in, is_named, IsPlace};

use crate::log::{entry_for, record};
use crate::stored::Stored;
use crate::{Answer, Asked, MOST_BYTES, ReadError, Shelf, WriteError};
use fz_list::{List, Memory, Text};
use std::alloc::Global;

/// One file of a shelf in memory.
#[derive(Drop)]
pub struct MemFile {
    pub name: Text,
    pub bytes: List<u8>,
    /// The greatest number of bytes that can be written to it. Its first contents may be longer.
    pub room: u64,
}

/// A shelf in memory. Of several files with one name only the first is used. Reads and writes
/// are numbered separately, each from 1, and those whose numbers are listed fail.
#[derive(Drop)]
pub struct MemShelf {
    alloc: Global,
    files: Vec<Stored>,
    asked: Vec<Asked>,
    reads: u32,
    writes: u32,
    failing_reads: List<u32>,
    failing_writes: List<u32>,
    failed_reads: u64,
    too_long: u64,
    failed_writes: u64,
}

/// Whether the call after the first `made` ones is to fail.
pub(crate) fn is_listed(failing: &[u32], made: u32) -> bool
    ensures listed { IsTrue result ↔ IsListed failing.now made }
    ensures past { All (λ n. n ≤ made) failing.now → result ≡ false }
{
    made < u32::MAX && failing.contains(&(made + 1))
}

fn first_named(files: &[Stored], name: &str) -> Option<usize>
    ensures { result ≡ position (is_named name.now) files.now }
{
    files.iter().position(|file| file.name() == name)
}

fn place_of(files: &[Stored], name: &str) -> Option<usize>
    ensures { MatchOption result (file_in files.now name.now ≡ absent) (IsPlace files.now name.now) }
{
    first_named(files, name)
}

/// Reserves the memory for the room of each file.
fn store(alloc: Global, files: List<MemFile>) -> Result<Vec<Stored>, Memory>
    ensures { IfOk result (λ stored. stored.items ≡ files) }
{
    let mut all = Vec::new(alloc);
    for file in files.into_vec() {
        let stored = match Stored::new(file) {
            Ok(stored) => stored,
            Err(_) => return Err(Memory),
        };
        match all.push(stored) {
            Ok(()) => {}
            Err(_) => return Err(Memory),
        }
    }
    Ok(all)
}

impl MemShelf {
    ghost use Rattle.fz_shelf.specs.Fakes.{failing_reads_of, failing_writes_of, reads_of, shelf_told, told_first};
    ghost use Rattle.fz_shelf.specs.Fakes.{writes_of};

    /// A shelf with these files. The reads and writes with these numbers fail.
    pub fn new(
        alloc: Global,
        files: List<MemFile>,
        failing_reads: List<u32>,
        failing_writes: List<u32>,
    ) -> Result<MemShelf, Memory>
        ensures told { IfOk result (λ s. shelf_told s ≡ told_first files) }
        ensures numbers { IfOk result (λ s. (reads_of s ≡ 0) × (writes_of s ≡ 0)) }
        ensures failing_reads { IfOk result (λ s. failing_reads_of s ≡ failing_reads) }
        ensures failing_writes { IfOk result (λ s. failing_writes_of s ≡ failing_writes) }
        ensures reliable { All (λ n. n ≤ 0) failing_reads → All (λ n. n ≤ 0) failing_writes
            → IfOk result (λ s. ⟦<MemShelf as Shelf>⟧.reliable s) }
    {
        let files = match store(alloc, files) {
            Ok(files) => files,
            Err(Memory) => return Err(Memory),
        };
        Ok(MemShelf {
            alloc,
            files,
            asked: Vec::new(alloc),
            reads: 0,
            writes: 0,
            failing_reads,
            failing_writes,
            failed_reads: 0,
            too_long: 0,
            failed_writes: 0,
        })
    }

    /// The reads and writes so far, in order.
    pub fn asked(&self) -> &[Asked]
        ensures { asked_of result.now ≡ (shelf_told self.now).asked }
    {
        &self.asked
    }
}

impl Shelf for MemShelf {
    ghost use Rattle.fz_shelf.specs.Fakes.{AreKept, IsReadListed, IsWriteListed, reads_of, shelf_told, writes_of};

    ghost told = { shelf_told };

    ghost reliable = { λ s. All (λ n. n ≤ s.reads) s.failing_reads × All (λ n. n ≤ s.writes) s.failing_writes };

    /// Gives `Failed` only if the read is listed or there is no such file.
    fn read(&mut self, name: &str, into: &mut Vec<u8>) -> Result<(), ReadError>
        requires { into.old.items ≡ [] }
        ensures files { (shelf_told self.new).files ≡ (shelf_told self.old).files }
        ensures tells { ReadTells ((shelf_told self.old).files name.now) result into.new.items }
        ensures counts { ReadCounts (shelf_told self.old).counts (shelf_told self.new).counts result }
        ensures asked { (shelf_told self.new).asked ≡ asked_after (shelf_told self.old).asked name.now result }
        ensures reliable { ⟦<MemShelf as Shelf>⟧.reliable self.old → ⟦<MemShelf as Shelf>⟧.reliable self.new }
        ensures steady { ⟦<MemShelf as Shelf>⟧.reliable self.old
            → IsThere ((shelf_told self.old).files name.now) → IsErrOf result ReadError.Failed → ⊥ }

        ensures counted { (shelf_told self.new).counts ≡ counts_after_read (shelf_told self.old).counts result }
        ensures listed { IsReadListed self.old → IsErrOf result ReadError.Failed ⊎ IsErrOf result ReadError.Memory }
        ensures unlisted { (IsReadListed self.old → ⊥)
            → IsThere ((shelf_told self.old).files name.now) → IsErrOf result ReadError.Failed → ⊥ }
        ensures numbered { (IsErrOf result ReadError.Memory → ⊥) → reads_of self.new ≡ one_more (reads_of self.old) }
        ensures orders { AreKept self.old self.new × (writes_of self.new ≡ writes_of self.old) }
    {
        let entry = entry_for(self.alloc, &mut self.asked, name).map_err(|_| ReadError::Memory)?;
        match place_of(&self.files, name) {
            Some(i) if !is_listed(self.failing_reads.as_slice(), self.reads) => {
                let file = &self.files[i];
                if file.bytes().len() > MOST_BYTES {
                    self.reads = self.reads.saturating_add(1);
                    self.too_long = self.too_long.saturating_add(1);
                    record(&mut self.asked, entry, Answer::Long);
                    return Err(ReadError::TooLong);
                }
                match into.extend_from_slice(file.bytes()) {
                    Ok(()) => {}
                    Err(_) => return Err(ReadError::Memory),
                }
                self.reads = self.reads.saturating_add(1);
                record(&mut self.asked, entry, Answer::Whole);
                Ok(())
            }
            _ => {
                self.reads = self.reads.saturating_add(1);
                self.failed_reads = self.failed_reads.saturating_add(1);
                record(&mut self.asked, entry, Answer::Missed);
                Err(ReadError::Failed)
            }
        }
    }

    /// Fails if the write is listed, if there is no such file, or if the bytes are more than its
    /// room.
    fn write(&mut self, name: &str, bytes: &[u8]) -> Result<(), WriteError>
        ensures written { OnOk result (Written ((shelf_told self.old).files name.now) bytes.now
            ((shelf_told self.new).files name.now)) }
        ensures others { (other : List ℕ) → other ≢ name.now
            → (shelf_told self.new).files other ≡ (shelf_told self.old).files other }
        ensures kept { IsErrOf result WriteError.Memory → (shelf_told self.new).files ≡ (shelf_told self.old).files }
        ensures counts { WriteCounts (shelf_told self.old).counts (shelf_told self.new).counts result }
        ensures asked { (shelf_told self.new).asked ≡ asked_to_write (shelf_told self.old).asked name.now result }
        ensures reliable { ⟦<MemShelf as Shelf>⟧.reliable self.old → ⟦<MemShelf as Shelf>⟧.reliable self.new }
        ensures steady { ⟦<MemShelf as Shelf>⟧.reliable self.old
            → Fits ((shelf_told self.old).files name.now) (length bytes.now) → IsErrOf result WriteError.Failed → ⊥ }

        ensures counted { (shelf_told self.new).counts ≡ counts_after_write (shelf_told self.old).counts result }
        ensures listed { IsWriteListed self.old → IsErrOf result WriteError.Failed ⊎ IsErrOf result WriteError.Memory }
        ensures unlisted { (IsWriteListed self.old → ⊥)
            → Fits ((shelf_told self.old).files name.now) (length bytes.now) → IsErrOf result WriteError.Failed → ⊥ }
        ensures numbered { (IsErrOf result WriteError.Memory → ⊥) → writes_of self.new ≡ one_more (writes_of self.old) }
        ensures orders { AreKept self.old self.new × (reads_of self.new ≡ reads_of self.old) }
    {
        let entry = entry_for(self.alloc, &mut self.asked, name).map_err(|_| WriteError::Memory)?;
        let is_listed = is_listed(self.failing_writes.as_slice(), self.writes);
        self.writes = self.writes.saturating_add(1);
        let place = place_of(&self.files, name);
        match place {
            Some(i) if !is_listed && bytes.len() as u64 <= self.files[i].room() => {
                let file = &mut self.files[i];
                file.replace(bytes);
                record(&mut self.asked, entry, Answer::Written);
                Ok(())
            }
            _ => {
                self.failed_writes = self.failed_writes.saturating_add(1);
                record(&mut self.asked, entry, Answer::Unwritten);
                Err(WriteError::Failed)
            }
        }
    }
}
