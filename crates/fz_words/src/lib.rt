//! The words of the command line: which command they name, by `clap`.
//!
//! The caller gives a table of the commands, each with its name, the number of words that follow it, and the
//! caller's value for it. Every word after the program's own is taken literally, so none may begin with a hyphen.
//! [`command_of`] returns the command of a row exactly where the words are the program's name, the row's name and
//! as many words as the row has; it refuses exactly the words that `clap` refuses, or of which one begins with a
//! hyphen.
#![tactic(auto)]

ghost use Rattle.std.specs.Prelude.{◌≡◌, ◌≢◌, ◌↔◌, ◌+◌, ◌<◌, [], length, map, string_bytes, false, IfOk, OnOk, IsErrOf};
ghost use Rattle.std.specs.Prelude.{None, Some, option_map};
ghost use Rattle.std.specs.List.{list_any};
ghost use Rattle.clap.specs.Words.{app_of, fault_of, rule_of};
ghost use Rattle.clap.specs.declared.Command.TheViews.{out-Command as fields_of};
ghost use Rattle.fz_words.specs.App.{IsRefused, app_with, leaf_app, words_rule};
ghost use Rattle.fz_words.specs.Table.{has_hyphen, any_hyphen, command_in, row_by_form, row_with, rows_of};

use clap::error::ErrorKind;
use clap::{Arg, ArgAction, Command};
use std::alloc::{AllocError, Global};

/// Why words name no command.
#[derive(Clone, Copy, PartialEq, Eq)]
pub enum Refusal {
    /// They match no command.
    Usage,
    /// Out of memory.
    Memory,
}

/// The argument that takes this many words.
fn argument<'a>(alloc: Global, count: usize) -> Arg<'a>
    ensures rule { rule_of result ≡ words_rule count }
    ensures local { result.global ≡ false }
{
    Arg::new(alloc, "words")
        .required(true)
        .action(ArgAction::Set)
        .num_args(count)
}

/// The subcommand of a name with this many words.
fn subcommand<'a>(alloc: Global, name: &'a str, count: usize) -> Result<Command<'a>, AllocError>
    ensures app { IfOk result (λ c. app_of c ≡ leaf_app name.entry.now count) }
    ensures local { IfOk result (λ c. (fields_of c).has_globals ≡ false) }
{
    let command = Command::new(alloc, name);
    if count == 0 {
        return Ok(command);
    }
    command.arg(argument(alloc, count))
}

/// The command line as `clap` sees it: one level of subcommands with required words, and no help.
fn command<'a, T: Copy>(
    alloc: Global,
    rows: &'a [(&'a str, usize, T)],
) -> Result<Command<'a>, AllocError>
    requires some { 0 < length rows.now }
    ensures { IfOk result (λ c. app_of c ≡ app_with (rows_of rows.entry.now)) }
{
    let mut command = Command::new(alloc, "fuzz12")
        .disable_help_flag(true)
        .disable_help_subcommand(true)
        .subcommand_required(true);
    for row in rows.iter() {
        let sub = subcommand(alloc, row.0, row.1)?;
        command = command.subcommand(sub)?;
    }
    Ok(command)
}

/// Whether `clap` accepts the words.
fn takes_words<'a, T: Copy>(
    alloc: Global,
    rows: &'a [(&'a str, usize, T)],
    words: &'a [String],
) -> Result<(), Refusal>
    requires some { 0 < length rows.now }
    ensures taken { OnOk result (fault_of (app_with (rows_of rows.now)) (map string_bytes words.now) ≡ []) }
    ensures refused { IsErrOf result Refusal.Usage
        → fault_of (app_with (rows_of rows.now)) (map string_bytes words.now) ≢ [] }
{
    let command = match command(alloc, rows) {
        Ok(command) => command,
        Err(_) => return Err(Refusal::Memory),
    };
    match command.try_get_matches_from(words) {
        Ok(_) => Ok(()),
        Err(error) => {
            if error.kind() == ErrorKind::OutOfMemory {
                Err(Refusal::Memory)
            } else {
                Err(Refusal::Usage)
            }
        }
    }
}

fn begins_with_hyphen(word: &str) -> bool
    ensures { result ≡ has_hyphen word.now }
{
    match word.as_bytes() {
        [first, ..] => *first == b'-',
        [] => false,
    }
}

fn has_a_hyphen(words: &[String]) -> bool
    ensures { result ≡ list_any (λ w. has_hyphen (string_bytes w)) words.now }
{
    words.iter().any(|word| begins_with_hyphen(word.as_str()))
}

fn any_after_first(words: &[String]) -> bool
    ensures { result ≡ any_hyphen (map string_bytes words.now) }
{
    match words {
        [_, rest @ ..] => has_a_hyphen(rest),
        [] => false,
    }
}

/// The command with this name, and how many words it takes.
fn command_with<T: Copy>(rows: &[(&str, usize, T)], word: &str) -> Option<(usize, T)>
    ensures { result ≡ option_map (λ r. (r.count, r.command)) (row_with (rows_of rows.now) word.now) }
{
    for row in rows.iter() {
        if row.0 == word {
            return Some((row.1, row.2));
        }
    }
    None
}

fn command_by_form<T: Copy>(rows: &[(&str, usize, T)], words: &[String]) -> Option<T>
    ensures { result ≡ option_map (λ r. r.command) (row_by_form (rows_of rows.now) (map string_bytes words.now)) }
{
    let [_, word, rest @ ..] = words else {
        return None;
    };
    match command_with(rows, word.as_str()) {
        Some((count, command)) if count == rest.len() => Some(command),
        _ => None,
    }
}

/// The command of the row that the words match, of which the first is the program's own name. The result is
/// `Usage` exactly where a word after the first begins with a hyphen or `clap` does not accept the words.
pub fn command_of<'a, T: Copy>(
    alloc: Global,
    rows: &'a [(&'a str, usize, T)],
    words: &'a [String],
) -> Result<T, Refusal>
    requires some { 0 < length rows.now }
    ensures named { IfOk result (λ c. command_in (rows_of rows.now) (map string_bytes words.now) ≡ Some c) }
    ensures usage { IsErrOf result Refusal.Usage → command_in (rows_of rows.now) (map string_bytes words.now) ≡ None }

    // words are of a row exactly where clap takes them
    ensures clap { (command_in (rows_of rows.now) (map string_bytes words.now) ≡ None)
        ↔ IsRefused (rows_of rows.now) (map string_bytes words.now) }
{
    if any_after_first(words) {
        return Err(Refusal::Usage);
    }
    match takes_words(alloc, rows, words) {
        Ok(()) => {}
        Err(Refusal::Usage) => return Err(Refusal::Usage),
        Err(Refusal::Memory) => return Err(Refusal::Memory),
    }
    match command_by_form(rows, words) {
        Some(command) => Ok(command),
        None => unreachable!(),
    }
}
