//! What a line of source means.
ghost use Rattle.std.specs.Prelude.{ℕ, ◌≡◌, ◌≤◌, ◌+◌, ◌^◌, ◌==◌, length, List, Option, IfSome, Some, None};
ghost use Rattle.std.specs.List.{list_all, find};
ghost use Rattle.cpu12_isa.specs.Encodings.{every, encoding_of};
ghost use Rattle.cpu12_asm.specs.{Lines.pieces, Told.told};
ghost use Rattle.cpu12_asm.specs.Statements.{is_expression, are_expressions, part_count, has_parts, is_immediate};
ghost use Rattle.cpu12_asm.specs.Statements.{takes, is_named_by, allowed, action_of, operate, statement_with};
ghost use Rattle.cpu12_asm.specs.Statements.{statement_of};

use crate::expressions::{expression, is, is_name};
use crate::lines::{behind_word, code, cut, first_word};
use cpu12_isa::encodings::{EVERY, Encoding, Operand};
use cpu12_isa::instr::Instr;
use std::alloc::Global;
use std::collections::BTreeMap;

/// What a line does.
#[derive(Clone, Copy)]
pub(crate) enum Action {
    Nothing,
    /// `ORG`: sets the address.
    Origin,
    /// `EQU`: gives its name a value.
    Equate,
    /// `FCB`: gives bytes.
    Bytes,
    /// `FDB`: gives words.
    Words,
    /// An instruction of this encoding, whose operand is filled in later.
    Operate(Encoding),
}

/// A line with its name, which is empty if it has none.
#[derive(Clone, Copy)]
pub(crate) struct Statement<'a> {
    pub name: &'a [u8],
    pub action: Action,
    pub operand: &'a [u8],
}

/// Whether each term is a number or a name, whatever the names' values are.
fn is_expression(alloc: Global, text: &[u8]) -> bool
    requires { length text.now ≤ 2 ^ 32 }
    ensures { result ≡ is_expression text.now }
{
    let no_names = BTreeMap::new(alloc);
    !expression(&no_names, text).bad
}

fn are_expressions(alloc: Global, text: &[u8]) -> bool
    requires { length text.now ≤ 2 ^ 32 }
    ensures { result ≡ are_expressions text.now }
{
    let mut left = Some(text);
    while let Some(parts) = left {
        let (part, rest) = cut(parts, b',');
        if !is_expression(alloc, part) {
            return false;
        }
        left = rest;
    }
    true
}

/// The number of parts separated by commas.
pub(crate) fn part_count(text: &[u8]) -> usize
    requires { length text.now ≤ 2 ^ 32 }
    ensures value { result ≡ part_count text.now }
    ensures bound { result ≤ length text.now + 1 }
{
    let mut count = 0;
    let mut left = Some(text);
    while let Some(parts) = left {
        count += 1;
        left = cut(parts, b',').1;
    }
    count
}

fn has_parts(alloc: Global, n: usize, text: &[u8]) -> bool
    requires { length text.now ≤ 2 ^ 32 }
    ensures { result ≡ has_parts n text.now }
{
    part_count(text) == n && are_expressions(alloc, text)
}

fn is_immediate(alloc: Global, n: usize, text: &[u8]) -> bool
    requires { length text.now ≤ 2 ^ 32 }
    ensures { result ≡ is_immediate n text.now }
{
    match text {
        [] => false,
        [b, parts @ ..] => *b == b'#' && has_parts(alloc, n, parts),
    }
}

fn takes(alloc: Global, operand: Operand, text: &[u8]) -> bool
    requires { length text.now ≤ 2 ^ 32 }
    ensures { result ≡ takes operand text.now }
{
    match operand {
        Operand::Inherent => text.is_empty(),
        Operand::XToD => is(text, "X,D"),
        Operand::YToD => is(text, "Y,D"),
        Operand::PostIncrementX => is(text, "1,X+"),
        Operand::Byte(_) | Operand::Word(_) => is_immediate(alloc, 1, text),
        Operand::Address(_) | Operand::Offset(_) => has_parts(alloc, 1, text),
        Operand::ByteToAddress(_, _) => is_immediate(alloc, 2, text),
        Operand::AddressToAddress(_, _) => has_parts(alloc, 2, text),
    }
}

/// The first of these instructions that a word names and that takes an operand.
fn first_encoding(alloc: Global, word: &[u8], text: &[u8], mut rows: &[Instr]) -> Option<Action>
    requires { length text.now ≤ 2 ^ 32 }
    ensures { result ≡ operate (find (is_named_by word.now text.now) rows.now) }
{
    while let [i, rest @ ..] = rows {
        let encoding = i.encoding();
        if is(word, encoding.mnemonic.text()) && takes(alloc, encoding.operand, text) {
            return Some(Action::Operate(encoding));
        }
        rows = rest;
    }
    None
}

fn allowed(test: bool, action: Action) -> Option<Action>
    ensures { result ≡ allowed test action }
{
    if test { Some(action) } else { None }
}

fn action_of(alloc: Global, is_named: bool, word: &[u8], text: &[u8]) -> Option<Action>
    requires { length text.now ≤ 2 ^ 32 }
    ensures { result ≡ action_of is_named word.now text.now }
{
    if word.is_empty() {
        Some(Action::Nothing)
    } else if is(word, "ORG") {
        allowed(is_expression(alloc, text), Action::Origin)
    } else if is(word, "EQU") {
        allowed(is_named && is_expression(alloc, text), Action::Equate)
    } else if is(word, "FCB") {
        allowed(are_expressions(alloc, text), Action::Bytes)
    } else if is(word, "FDB") {
        allowed(are_expressions(alloc, text), Action::Words)
    } else {
        first_encoding(alloc, word, text, &EVERY)
    }
}

/// What the words after a name mean.
fn statement_with<'a>(alloc: Global, name: &'a [u8], text: &'a [u8]) -> Option<Statement<'a>>
    requires { length text.now ≤ 2 ^ 32 }
    ensures value { told result ≡ statement_with name.now text.now }
    ensures bound { IfSome result (λ s. length s.operand.now ≤ length text.now) }
{
    let operation = first_word(text);
    let behind = behind_word(text);
    let operand = first_word(behind);
    if !behind_word(behind).is_empty() {
        return None;
    }
    match action_of(alloc, !name.is_empty(), operation, operand) {
        Some(action) => Some(Statement {
            name,
            action,
            operand,
        }),
        None => None,
    }
}

/// What a line means, or none if it is malformed.
pub(crate) fn read_line<'a>(alloc: Global, line: &'a [u8]) -> Option<Statement<'a>>
    requires { length line.now ≤ 2 ^ 32 }
    ensures value { told result ≡ statement_of line.now }
    ensures bound { IfSome result (λ s. length s.operand.now ≤ length line.now) }
{
    let code = code(line);
    let name = first_word(code);
    if name.is_empty() || is_name(name) {
        statement_with(alloc, name, behind_word(code))
    } else {
        None
    }
}
