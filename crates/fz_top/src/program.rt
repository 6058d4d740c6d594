//! The program as one function.
ghost use Rattle.std.specs.Prelude.{◌≡◌, ◌⊎◌, ◌↔◌, length, None, Some, List, ℕ};
ghost use Rattle.fz_shelf.specs.Told.{gained, HasRoom, world};
ghost use Rattle.fz_status.specs.{Words.texts_of, Errors.error_line_of, Errors.Complains, Refusals.CarriesNoMemory};
ghost use Rattle.fz_top.specs.Commands.{command_in, inputs_of, IsUsage, Makes};
ghost use Rattle.fz_top.specs.Runs.{Runs, IsReady, IsReadFault, IsWriteFault, IsTooLong, AreKnown, CanBeDone};
ghost use Rattle.fz_top.specs.Runs.{HasNoFault, IsMade, RoomFor, Settles};
ghost use Rattle.fz_top.specs.declared.command.Command.{Command};
ghost use Rattle.fz_top.specs.{Done.AcceptedIsDone, Keeping.OkKeepsPromise, Others.OkServes};
ghost use Rattle.fz_top.specs.{Reads.names_at, Reads.AreThere};

use crate::command::command_of;
use crate::delivery::deliver;
use crate::laws::{commands_are_settled, contents_have_one_result};
use crate::reading::{Stop, read_all};
use command_parts::laws::flags_are_bytes;
use fz_shelf::{Shelf, Sink, WriteError};
use fz_status::{Status, report};
use fz_words::Refusal;
use promise::{accepted_files_give_firmware, certified_runs_keep_promise, other_runs_serve};
use std::alloc::Global;

/// Runs the command of the words.
fn run<S: Shelf, O: Sink>(alloc: Global, words: &[String], shelf: &mut S, out: &mut O) -> Status
    ensures runs { Runs (texts_of words.now)
        (world (S.told shelf.old) (O.told out.old)) (world (S.told shelf.new) (O.told out.new)) result }
    ensures law { (command_in (texts_of words.now) ≡ None) ↔ IsUsage (texts_of words.now) }
    ensures reads_steady { S.reliable shelf.old → (command : Command) → command_in (texts_of words.now) ≡ Some command
        → AreThere (S.told shelf.old).files (names_at (texts_of words.now) (inputs_of command))
        → IsReadFault result → ⊥ }
    ensures writes_steady { S.reliable shelf.old → O.reliable out.old → (command : Command) (contents : List (List ℕ))
        → IsReady (texts_of words.now) (world (S.told shelf.old) (O.told out.old)) command contents
        → IsWriteFault result → ⊥ }
    ensures shelf_reliable { S.reliable shelf.old → S.reliable shelf.new }
    ensures out_reliable { O.reliable out.old → O.reliable out.new }
{
    let command = match command_of(alloc, words) {
        Ok(command) => command,
        Err(Refusal::Usage) => return Status::Usage,
        Err(Refusal::Memory) => return Status::Memory,
    };
    let contents = match read_all(alloc, shelf, words, command.inputs()) {
        Ok(contents) => contents,
        Err(Stop::Failed(place)) => return Status::ReadFault(place),
        Err(Stop::TooLong(place)) => return Status::TooLong(place),
        Err(Stop::Memory) => return Status::Memory,
    };
    let output = match command.work(alloc, &contents) {
        Ok(output) => output,
        Err(status) => return status,
    };
    match deliver(words, &output, shelf, out) {
        Ok(()) => Status::Ok,
        Err(WriteError::Failed) => Status::WriteFault,
        Err(WriteError::Memory) => Status::Memory,
    }
}

/// Runs the command of the words, of which the first is the program's own name: reads the files
/// that they name, in order, writes a file if the command has one, puts the lines to out, and puts
/// one line to err if something went wrong. Lack of memory is reported as `Memory`, and is never
/// met after the first write or put.
pub fn fuzz12<S: Shelf, O: Sink, F: Sink>(
    alloc: Global,
    words: &[String],
    shelf: &mut S,
    out: &mut O,
    err: &mut F,
) -> Status
    // each status with its cause, and what was read, written and put
    ensures runs { Runs (texts_of words.now)
        (world (S.told shelf.old) (O.told out.old)) (world (S.told shelf.new) (O.told out.new)) result }

    // with the words of `run`, `run16`, `trun` or `trun16` and Ok the program's one sentence holds
    ensures promise { OkKeepsPromise (texts_of words.now)
        (world (S.told shelf.old) (O.told out.old)) (world (S.told shelf.new) (O.told out.new)) result }

    // with the words of another command that runs firmware and Ok the machine serves what its lines tell
    ensures others { OkServes (texts_of words.now)
        (world (S.told shelf.old) (O.told out.old)) (world (S.told shelf.new) (O.told out.new)) result }

    // want of memory has the status of its own alone
    ensures carried { CarriesNoMemory result }

    // Usage exactly where the words are of no command
    ensures usage_only { result ≡ Status.Usage → IsUsage (texts_of words.now) }
    ensures usage_always { IsUsage (texts_of words.now) → (result ≡ Status.Usage) ⊎ (result ≡ Status.Memory) }

    // a file that the shelf tells as too long, those before it being read
    ensures too_long { (place : ℕ) → IsTooLong (texts_of words.now) (S.told shelf.old).files place
        → (result ≡ Status.TooLong place) ⊎ (IsReadFault result ⊎ (result ≡ Status.Memory)) }

    // contents that the shelf tells settle the status: it is that of their one result
    ensures settled { (command : Command) (contents : List (List ℕ)) → command_in (texts_of words.now) ≡ Some command
        → AreKnown (S.told shelf.old).files (names_at (texts_of words.now) (inputs_of command)) contents
        → Settles (Makes command contents) result }
    ensures complete { S.reliable shelf.old → O.reliable out.old → (command : Command) (contents : List (List ℕ))
        → IsReady (texts_of words.now) (world (S.told shelf.old) (O.told out.old)) command contents
        → IsMade (Makes command contents) result ⊎ (result ≡ Status.Memory) }

    // where the contents are accepted it is done, unless a count rose, and also where the shelf and out
    // are reliable with room
    ensures done { (command : Command) (contents : List (List ℕ))
        → CanBeDone (texts_of words.now) (S.told shelf.old).files command contents
        → HasNoFault (world (S.told shelf.old) (O.told out.old)) (world (S.told shelf.new) (O.told out.new))
        ⊎ (S.reliable shelf.old × O.reliable out.old
        × RoomFor (texts_of words.now) (S.told shelf.old).files (O.told out.old).taken (Makes command contents))
        → (result ≡ Status.Ok) ⊎ (result ≡ Status.Memory) }

    // and a run whose files are accepted is done, unless a count rose
    ensures accepted { AcceptedIsDone (texts_of words.now)
        (world (S.told shelf.old) (O.told out.old)) (world (S.told shelf.new) (O.told out.new))
        (S.reliable shelf.old × O.reliable out.old) result }

    // err
    ensures quiet { result ≡ Status.Ok → F.told err.new ≡ F.told err.old }
    ensures line { (result ≡ Status.Ok → ⊥)
        → Complains (error_line_of (texts_of words.now) result) (F.told err.old) (F.told err.new) }
    ensures err_steady { F.reliable err.old
        → HasRoom (F.told err.old).taken (length (error_line_of (texts_of words.now) result))
        → (F.told err.new).taken ≡ gained (F.told err.old).taken (error_line_of (texts_of words.now) result) }

    ensures shelf_reliable { S.reliable shelf.old → S.reliable shelf.new }
    ensures out_reliable { O.reliable out.old → O.reliable out.new }
    ensures err_reliable { F.reliable err.old → F.reliable err.new }
{
    commands_are_settled();
    contents_have_one_result();
    certified_runs_keep_promise();
    other_runs_serve();
    accepted_files_give_firmware();
    flags_are_bytes();
    let status = run(alloc, words, shelf, out);
    report(err, words, &status);
    status
}
