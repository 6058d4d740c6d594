//! Writing the file and putting the lines: the one place where anything leaves the program.
ghost use Rattle.std.specs.Prelude.{◌≡◌, ◌⊎◌, length, OnOk, IsErrOf};
ghost use Rattle.std.specs.List.{concat};
ghost use Rattle.fz_shelf.specs.Told.{HasRoom, world};
ghost use Rattle.fz_status.specs.Words.{texts_of};
ghost use Rattle.command_parts.specs.SeenOutputs.{seen_output};
ghost use Rattle.fz_top.specs.Runs.{ChangesOnly, FileFits, Delivered, WriteFailed, PutFailed};

use command_parts::output::Output;
use fz_shelf::{Failed, Shelf, Sink, WriteError, put_lines};
use fz_status::word;

/// Writes the file, if there is one, and then puts the lines. Where memory is wanted nothing is done.
pub(crate) fn deliver<S: Shelf, O: Sink>(
    words: &[String],
    output: &Output,
    shelf: &mut S,
    out: &mut O,
) -> Result<(), WriteError>
    ensures others { ChangesOnly (texts_of words.now) (seen_output output.now).file
        (S.told shelf.old).files (S.told shelf.new).files }
    ensures done { OnOk result (Delivered (texts_of words.now) (seen_output output.now)
        (world (S.told shelf.old) (O.told out.old)) (world (S.told shelf.new) (O.told out.new))) }
    ensures failed { IsErrOf result WriteError.Failed → WriteFailed (texts_of words.now) (seen_output output.now)
        (world (S.told shelf.old) (O.told out.old)) (world (S.told shelf.new) (O.told out.new))
        ⊎ PutFailed (texts_of words.now) (seen_output output.now)
        (world (S.told shelf.old) (O.told out.old)) (world (S.told shelf.new) (O.told out.new)) }
    ensures memory { IsErrOf result WriteError.Memory
        → world (S.told shelf.new) (O.told out.new) ≡ world (S.told shelf.old) (O.told out.old) }
    ensures shelf_reliable { S.reliable shelf.old → S.reliable shelf.new }
    ensures out_reliable { O.reliable out.old → O.reliable out.new }
    ensures steady { S.reliable shelf.old → O.reliable out.old
        → FileFits (texts_of words.now) (seen_output output.now).file (S.told shelf.old).files
        → HasRoom (O.told out.old).taken (length (concat (seen_output output.now).lines))
        → IsErrOf result WriteError.Failed → ⊥ }
{
    if let Some((place, bytes)) = &output.file {
        shelf.write(word(words, *place), bytes)?;
    }
    match put_lines(out, &output.lines) {
        Ok(()) => Ok(()),
        Err(Failed) => Err(WriteError::Failed),
    }
}
