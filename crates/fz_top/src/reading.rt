//! Reading the files that the words name.
ghost use Rattle.std.specs.Prelude.{◌≡◌, ◌<◌, ◌≤◌, length, IfOk, IfErr};
ghost use Rattle.std.specs.List.{All};
ghost use Rattle.fz_shelf.specs.Files.{IsThere};
ghost use Rattle.fz_status.specs.Words.{texts_of, word_at};
ghost use Rattle.command_parts.specs.Contents.{bytes_of};
ghost use Rattle.fz_top.specs.declared.reading.Stop.TheVariants.{Memory};
ghost use Rattle.fz_top.specs.Reads.{ReadsWhole, StopsBy, AreThere, IsFailedRead, names_at, ReadsOne, StopsAt};

use fz_shelf::{ReadError, Shelf};
use fz_status::word;
use std::alloc::{AllocFailed, Global};

/// Why reading stopped, with the index of the word that names the file.
#[derive(Clone, Copy)]
pub(crate) enum Stop {
    Failed(u32),
    TooLong(u32),
    Memory,
}

impl<T: Drop> From<AllocFailed<T>> for Stop {
    ghost from_gives = { λ _ stop. stop ≡ Memory };

    fn from(_: AllocFailed<T>) -> Stop {
        Stop::Memory
    }
}

/// Reads the file that the word at this index names.
fn read_one<S: Shelf>(
    alloc: Global,
    shelf: &mut S,
    words: &[String],
    place: u32,
) -> Result<Vec<u8>, Stop>
    ensures files { (S.told shelf.new).files ≡ (S.told shelf.old).files }
    ensures whole { IfOk result (λ bytes. ReadsOne (texts_of words.now) place
        (S.told shelf.old) (S.told shelf.new) bytes.items) }
    ensures stops { IfErr result (StopsAt (texts_of words.now) place (S.told shelf.old) (S.told shelf.new)) }
    ensures reliable { S.reliable shelf.old → S.reliable shelf.new }
    ensures steady { S.reliable shelf.old → IsThere ((S.told shelf.old).files (word_at (texts_of words.now) place))
        → IfErr result (λ s. IsFailedRead s → ⊥) }
{
    let mut bytes = Vec::new(alloc);
    match shelf.read(word(words, place), &mut bytes) {
        Ok(()) => Ok(bytes),
        Err(ReadError::Failed) => Err(Stop::Failed(place)),
        Err(ReadError::TooLong) => Err(Stop::TooLong(place)),
        Err(ReadError::Memory) => Err(Stop::Memory),
    }
}

/// Reads the files that the words at these indices name, in order, up to the first fault.
pub(crate) fn read_all<S: Shelf>(
    alloc: Global,
    shelf: &mut S,
    words: &[String],
    places: &[u32],
) -> Result<Vec<Vec<u8>>, Stop>
    ensures files { (S.told shelf.new).files ≡ (S.told shelf.old).files }
    ensures whole { IfOk result (λ contents. ReadsWhole (texts_of words.now) places.now
        (S.told shelf.old) (S.told shelf.new) (bytes_of contents.items)) }
    ensures small { IfOk result (λ contents. All (λ c. length c.items ≤ 1048576) contents.items) }
    ensures stops { IfErr result (StopsBy (texts_of words.now) places.now (S.told shelf.old).files
        (S.told shelf.old).counts (S.told shelf.new).counts (S.told shelf.old).asked (S.told shelf.new).asked) }
    ensures reliable { S.reliable shelf.old → S.reliable shelf.new }
    ensures steady { S.reliable shelf.old
        → AreThere (S.told shelf.old).files (names_at (texts_of words.now) places.now)
        → IfErr result (λ s. IsFailedRead s → ⊥) }
{
    let mut contents = Vec::new(alloc);
    for place in places {
        contents.push(read_one(alloc, shelf, words, *place)?)?;
    }
    Ok(contents)
}
