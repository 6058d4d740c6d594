//! Files in memory, and which of the calls to them fail.
ghost use Rattle.std.specs.Prelude.{◌≡◌, ◌≢◌, ◌++◌, ◌∷◌, [], codes, length, IfErr, IfOk, OnOk};
ghost use Rattle.fz_shelf.specs.Fakes.{failing_reads_of, failing_writes_of, reads_of, shelf_told, told_first};
ghost use Rattle.fz_shelf.specs.{Fakes.writes_of, Files.Holds, declared.log.Answer.TheVariants.Whole};
ghost use Rattle.test_texts.specs.Parts.{text_of_parts};
ghost use Rattle.test_program_calls.specs.Files.{IsInFile, file_with};

use crate::Difference;
use fz_list::{List, Text};
use fz_shelf::{MemFile, MemShelf, Shelf};
use std::alloc::{AllocError, Global};
use test_texts::joined;

/// The numbers of the calls that fail, and how many bytes a put takes.
#[derive(Clone, Copy)]
pub struct Faults<'a> {
    /// Reads of the shelf, counted from 1.
    pub reads: &'a [u32],
    /// Writes of the shelf, counted from 1.
    pub writes: &'a [u32],
    /// Puts to out, counted from 1.
    pub puts: &'a [u32],
    /// Puts to err, counted from 1.
    pub err_puts: &'a [u32],
    /// The greatest number of bytes that out and err take in one put.
    pub most: u64,
}

/// No call fails.
pub const NONE: Faults<'static> = Faults {
    reads: &[],
    writes: &[],
    puts: &[],
    err_puts: &[],
    most: 1000,
};

/// The contents of a file that can be written, before the call.
pub const BEFORE: &str = "as before\n";

/// A file with this name and these bytes, and room for this many.
fn file(alloc: Global, name: &str, bytes: &[u8], room: u64) -> Result<MemFile, AllocError>
    ensures { IfOk result (λ f. f ≡ file_with name.now bytes.now room) }
{
    Ok(MemFile {
        name: Text::new(String::from_str(alloc, name)?),
        bytes: List::new(bytes.to_vec(alloc)?),
        room,
    })
}

/// Adds a file that cannot be written, with these bytes.
pub fn push_bytes(
    alloc: Global,
    files: &mut Vec<MemFile>,
    name: &str,
    bytes: &[u8],
) -> Result<(), AllocError>
    ensures { OnOk result (files.new.items ≡ files.old.items ++ file_with name.now bytes.now 0 ∷ []) }
{
    files.push(file(alloc, name, bytes, 0)?)?;
    Ok(())
}

/// Adds a file that cannot be written, with the parts of a text.
pub fn push_file(
    alloc: Global,
    files: &mut Vec<MemFile>,
    name: &str,
    text: &[&str],
) -> Result<(), AllocError>
    ensures { OnOk result (files.new.items ≡ files.old.items ++ file_with name.now (text_of_parts text.now) 0 ∷ []) }
{
    push_bytes(alloc, files, name, joined(alloc, text)?.as_bytes())
}

/// Adds a file that can be written, with the contents [`BEFORE`].
pub fn push_room(alloc: Global, files: &mut Vec<MemFile>, name: &str) -> Result<(), AllocError>
    ensures { OnOk result (files.new.items
        ≡ files.old.items ++ file_with name.now (codes "as before\n") 1000000 ∷ []) }
{
    files.push(file(alloc, name, BEFORE.as_bytes(), 1_000_000)?)?;
    Ok(())
}

pub(crate) fn numbers(alloc: Global, numbers: &[u32]) -> Result<List<u32>, AllocError>
    ensures { IfOk result (λ list. list ≡ numbers.now) }
{
    Ok(List::new(numbers.to_vec(alloc)?))
}

/// The shelf of these files.
pub fn shelf_of(alloc: Global, files: Vec<MemFile>, faults: &Faults) -> Result<MemShelf, Difference>
    ensures told { IfOk result (λ s. shelf_told s ≡ told_first files.items) }
    ensures numbers { IfOk result (λ s. (reads_of s ≡ 0) × (writes_of s ≡ 0)) }
    ensures failing_reads { IfOk result (λ s. failing_reads_of s ≡ faults.now.reads.now) }
    ensures failing_writes { IfOk result (λ s. failing_writes_of s ≡ faults.now.writes.now) }
    ensures memory { IfErr result (λ d. d ≡ Difference.Memory) }
{
    let reads = numbers(alloc, faults.reads)?;
    let writes = numbers(alloc, faults.writes)?;
    Ok(MemShelf::new(alloc, List::new(files), reads, writes)?)
}

/// The bytes of a file, or its name if it cannot be read. This read is one of the shelf's too.
pub fn bytes_of(alloc: Global, shelf: &mut MemShelf, name: &str) -> Result<Vec<u8>, Difference>
    ensures held { IfOk result (λ bytes. Holds ((shelf_told shelf.old).files name.now) bytes.items) }
    ensures files { (shelf_told shelf.new).files ≡ (shelf_told shelf.old).files }
    ensures asked { OnOk result ((shelf_told shelf.new).asked
        ≡ (shelf_told shelf.old).asked ++ (name.now, Whole) ∷ []) }
    ensures fault { IfErr result (IsInFile name.now) }
{
    let mut bytes = Vec::new(alloc);
    match shelf.read(name, &mut bytes) {
        Ok(()) => Ok(bytes),
        Err(_) => Err(Difference::File(String::from_str(alloc, name)?)),
    }
}

/// Checks that a file has these bytes; otherwise it gives the file's name. This read is one of the shelf's too.
pub fn file_holds(
    alloc: Global,
    shelf: &mut MemShelf,
    name: &str,
    bytes: &[u8],
) -> Result<(), Difference>
    ensures holds { OnOk result (Holds ((shelf_told shelf.old).files name.now) bytes.now) }
    ensures files { (shelf_told shelf.new).files ≡ (shelf_told shelf.old).files }
    ensures asked { OnOk result ((shelf_told shelf.new).asked
        ≡ (shelf_told shelf.old).asked ++ (name.now, Whole) ∷ []) }
    ensures differs { IfErr result (IsInFile name.now) }
{
    if bytes_of(alloc, shelf, name)?.as_slice() != bytes {
        return Err(Difference::File(String::from_str(alloc, name)?));
    }
    Ok(())
}

/// Checks that the shelf's log has this many reads and writes; otherwise it gives their number.
pub fn calls_are(shelf: &MemShelf, calls: usize) -> Result<(), Difference>
    ensures same { OnOk result (length (shelf_told shelf.now).asked ≡ calls) }
    ensures differs { IfErr result (λ d. (d ≡ Difference.Calls (length (shelf_told shelf.now).asked))
        × (length (shelf_told shelf.now).asked ≢ calls)) }
{
    let found = shelf.asked().len();
    if found != calls {
        return Err(Difference::Calls(found));
    }
    Ok(())
}
