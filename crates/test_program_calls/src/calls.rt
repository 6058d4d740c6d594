//! Calls of the program.
ghost use Rattle.std.specs.Prelude.{◌≡◌, ◌∷◌, [], codes, IfErr, IfOk, OnOk};
ghost use Rattle.fz_shelf.specs.Fakes.{failing_puts_of, most_of, shelf_told, sink_told, told_first};
ghost use Rattle.fz_status.specs.Words.{texts_of};
ghost use Rattle.test_program_calls.specs.Calls.{AnswersCode, CallDiffers, CallLeaves, Called, LeavesBehind};
ghost use Rattle.test_program_calls.specs.Calls.{nothing_taken, words_in};
ghost use Rattle.test_program_calls.specs.Files.{file_with};
ghost use Rattle.test_texts.specs.Parts.{text_of_parts};

use crate::comparison::compare;
use crate::files::{Faults, NONE, numbers, push_file, shelf_of};
use crate::{Difference, Left};
use fz_shelf::{MemShelf, MemSink};
use fz_top::fuzz12;
use std::alloc::{AllocError, Global};

/// A sink that has taken nothing yet, in which the puts with these numbers fail.
fn sink_of(alloc: Global, failing: &[u32], most: u64) -> Result<MemSink, Difference>
    ensures told { IfOk result (λ s. sink_told s ≡ nothing_taken) }
    ensures failing { IfOk result (λ s. failing_puts_of s ≡ failing.now) }
    ensures most { IfOk result (λ s. most_of s ≡ most) }
    ensures memory { IfErr result (λ d. d ≡ Difference.Memory) }
{
    let failing = numbers(alloc, failing)?;
    Ok(MemSink::new(alloc, 1_048_576, failing, most)?)
}

fn words_of(alloc: Global, line: &[&str]) -> Result<Vec<String>, AllocError>
    ensures { IfOk result (λ words. texts_of words.items ≡ words_in line.now) }
{
    let mut words = Vec::new(alloc);
    for word in line {
        words.push(String::from_str(alloc, word)?)?;
    }
    Ok(words)
}

/// Makes the call, and returns the number of its status.
fn status_of(
    alloc: Global,
    words: &[String],
    shelf: &mut MemShelf,
    out: &mut MemSink,
    err: &mut MemSink,
) -> u8
    requires out { sink_told out.old ≡ nothing_taken }
    requires err { sink_told err.old ≡ nothing_taken }
    ensures { Called (texts_of words.now)
        (shelf_told shelf.old) (shelf_told shelf.new) (sink_told out.new) (sink_told err.new) result }
{
    fuzz12(alloc, words, shelf, out, err).code()
}

/// The number of the status of a call with these words, whose puts do not fail.
pub fn code_of(alloc: Global, line: &[&str], shelf: &mut MemShelf) -> Result<u8, Difference>
    ensures code { IfOk result (AnswersCode (words_in line.now) (shelf_told shelf.old) (shelf_told shelf.new)) }
    ensures memory { IfErr result (λ d. d ≡ Difference.Memory) }
{
    let words = words_of(alloc, line)?;
    let mut out = sink_of(alloc, NONE.puts, NONE.most)?;
    let mut err = sink_of(alloc, NONE.err_puts, NONE.most)?;
    Ok(status_of(alloc, &words, shelf, &mut out, &mut err))
}

/// Checks that a call with these words, in which these puts fail, leaves this. Otherwise it gives the first
/// difference: on err, on out, then in the status.
pub fn call(
    alloc: Global,
    line: &[&str],
    shelf: &mut MemShelf,
    faults: &Faults,
    left: &Left,
) -> Result<(), Difference>
    ensures leaves { OnOk result (CallLeaves (words_in line.now)
        (shelf_told shelf.old) (shelf_told shelf.new) left.now) }
    ensures differs { IfErr result (CallDiffers (words_in line.now)
        (shelf_told shelf.old) (shelf_told shelf.new) left.now) }
{
    let words = words_of(alloc, line)?;
    let mut out = sink_of(alloc, faults.puts, faults.most)?;
    let mut err = sink_of(alloc, faults.err_puts, faults.most)?;
    let code = status_of(alloc, &words, shelf, &mut out, &mut err);
    compare(alloc, code, &out, &err, left)
}

/// The same over two files, `first` and `second`, that cannot be written, where no call is listed to fail.
pub fn call_over(
    alloc: Global,
    line: &[&str],
    first: &[&str],
    second: &[&str],
    left: &Left,
) -> Result<(), Difference>
    ensures { OnOk result (LeavesBehind (words_in line.now) (told_first (
        file_with (codes "first") (text_of_parts first.now) 0
        ∷ file_with (codes "second") (text_of_parts second.now) 0 ∷ [])) left.now) }
{
    let mut files = Vec::new(alloc);
    push_file(alloc, &mut files, "first", first)?;
    push_file(alloc, &mut files, "second", second)?;
    let mut shelf = shelf_of(alloc, files, &NONE)?;
    call(alloc, line, &mut shelf, &NONE, left)
}
