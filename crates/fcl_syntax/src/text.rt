//! From a text to its tree.

ghost use Rattle.std.specs.Prelude.{◌≡◌, ◌≤◌, length, IfOk, IfErr};
ghost use Rattle.std.specs.Str.{str_to_ascii_lowercase};
ghost use Rattle.fcl_syntax.specs.{Grammar.TBlock, Parsed.GivesTree, Parsed.GivesFault, View.view};
ghost use Rattle.fcl_syntax.specs.Text.{SpellsTree, IsFirstFault, OrMemory};
ghost use Rattle.fcl_syntax.specs.TextReading.{Reads, read_text, token_fault, grammar_fault, place_of};

use crate::block::function_block;
use crate::fault::{Kind, ParseError};
use crate::tree::Tree;
use fcl_tokens::laws::cuts_are_tokens;
use fcl_tokens::{LexError, LexFault, LexKind, lex};
use fz_num::DecFault;
use std::alloc::Global;
use thiserror::Error;

/// Why a text has no tree, with the offset of the fault in the text.
#[derive(PartialEq, Debug, Drop, Error)]
pub enum SyntaxFault {
    /// A byte that begins no token.
    #[error("at {0}: a byte that begins no token")]
    BadByte(u32),
    /// A comment without an end, at its beginning.
    #[error("at {0}: a comment without its end")]
    OpenComment(u32),
    /// A number that is no decimal, at its first digit.
    #[error("at {0}: a number out of form ({1:?})")]
    Number(u32, DecFault),
    /// The first token with which no text of the grammar continues the tokens before it, or the text's
    /// length if it ends too early.
    #[error("at {0}: not expected here")]
    Expected(u32),
    /// A part of the grammar that the profile leaves out, and its code from 1 to 8 or 10 to 15.
    #[error("at {0}: not supported (code {1})")]
    Unsupported(u32, u8),
    /// The first parenthesis or NOT with which 65 are open at once.
    #[error("at {0}: too deep")]
    Deep(u32),
    /// Out of memory; the text may have a fault or none.
    #[error("out of memory")]
    Memory,
}

fn token_fault(fault: LexFault) -> SyntaxFault
    ensures { result ≡ token_fault fault }
{
    match fault.kind {
        LexKind::BadByte => SyntaxFault::BadByte(fault.at),
        LexKind::OpenComment => SyntaxFault::OpenComment(fault.at),
        LexKind::Number(reason) => SyntaxFault::Number(fault.at, reason),
    }
}

fn grammar_fault(kind: Kind, at: u32) -> SyntaxFault
    ensures { result ≡ grammar_fault kind at }
{
    match kind {
        Kind::Expected => SyntaxFault::Expected(at),
        Kind::Deep => SyntaxFault::Deep(at),
        Kind::Unsupported(code) => SyntaxFault::Unsupported(at, code),
    }
}

/// The place of the token where this many are left, or the end.
fn place(places: &[u32], left: usize, end: u32) -> u32
    ensures { result ≡ place_of places.now left end }
{
    match places.split_at(places.len().saturating_sub(left)).1 {
        [] => end,
        [first, ..] => *first,
    }
}

fn read(alloc: Global, text: &[u8]) -> Result<Tree, SyntaxFault>
    requires { length text.now ≤ 1048576 }
    ensures read { Reads result (read_text text.now) }
    ensures kept { IfOk result (λ tree. tree.text.items ≡ str_to_ascii_lowercase text.now) }
{
    cuts_are_tokens();
    let (tokens, places) = match lex(alloc, text) {
        Ok(lexed) => lexed,
        Err(LexError::Memory) => return Err(SyntaxFault::Memory),
        Err(LexError::Fault(fault)) => return Err(token_fault(fault)),
    };
    let block = match function_block(alloc, &tokens) {
        Ok(block) => block,
        Err(ParseError::Memory) => return Err(SyntaxFault::Memory),
        Err(ParseError::Fault(fault)) => {
            let at = place(&places, fault.left, text.len() as u32);
            return Err(grammar_fault(fault.kind, at));
        }
    };
    match text.to_ascii_lowercase(alloc) {
        Ok(text) => Ok(Tree { text, block }),
        Err(_) => Err(SyntaxFault::Memory),
    }
}

/// The tree that a text spells, or its first fault.
///
/// Token faults take precedence over all others. Otherwise it is the fault at the first offset; at the
/// same offset `Deep` takes precedence over `Unsupported`, and that over `Expected`.
pub fn parse(alloc: Global, text: &[u8]) -> Result<Tree, SyntaxFault>
    requires { length text.now ≤ 1048576 }

    // A tree that is answered is spelled by the text, and the one spelled is answered.
    ensures found { IfOk result (λ tree. SpellsTree text.now (view tree.block)) }
    ensures only { (t : TBlock) → SpellsTree text.now t → GivesTree result t }
    ensures kept { IfOk result (λ tree. tree.text.items ≡ str_to_ascii_lowercase text.now) }

    // Otherwise it is the text's first fault; a text has at most one.
    ensures fault { IfErr result (OrMemory (IsFirstFault text.now)) }
    ensures only_fault { (e : SyntaxFault) → IsFirstFault text.now e → GivesFault result e }
{
    cuts_are_tokens();
    read(alloc, text)
}
