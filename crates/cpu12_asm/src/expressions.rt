//! Expressions and their values.
ghost use Rattle.std.specs.Prelude.{ℕ, ◌≡◌, ◌≤◌, ◌<◌, ◌+◌, ◌*◌, ◌^◌, List, [], ◌∷◌, fold, length, min};
ghost use Rattle.std.specs.Char.{is_ascii_digit, is_ascii_uppercase};
ghost use Rattle.std.specs.Str.{bytes_eq};
ghost use Rattle.std.specs.List.{list_all};
ghost use Rattle.cpu12_isa.specs.Encodings.{encoding_of};
ghost use Rattle.cpu12_asm.specs.{Names.value_in, Lines.pieces, Shapes.may_be_mnemonic};
ghost use Rattle.cpu12_asm.specs.Left.{pieces_left, size_left};
ghost use Rattle.cpu12_asm.specs.Expressions.{is_letter, is_in_name, is_mnemonic, is_directive, is_operation};
ghost use Rattle.cpu12_asm.specs.Expressions.{has_letters_of_name, is_name, is_hex_digit, hex_value, decimal_value};
ghost use Rattle.cpu12_asm.specs.Expressions.{hexadecimal_value, number, plain_term, term_of, with_term, with_group};
ghost use Rattle.cpu12_asm.specs.Expressions.{sum_of};

use crate::lines::cut;
use cpu12_isa::encodings::EVERY;
use std::collections::BTreeMap;

/// Values by names.
pub(crate) type Names<'a> = BTreeMap<&'a [u8], u64>;

/// What a term is.
#[derive(Clone, Copy)]
pub(crate) enum Term {
    Value(u64),
    /// A number above 65535.
    Large,
    /// A name without a value.
    Unknown,
    /// Neither a number nor a name.
    Bad,
}

/// The sums of an expression's terms, those with a plus and those with a minus separately, and which of them have
/// no value. `negative` is the sign of the next term.
#[derive(Clone, Copy)]
pub(crate) struct Sum {
    pub added: u128,
    pub taken: u128,
    pub large: bool,
    pub unknown: bool,
    pub bad: bool,
    pub negative: bool,
}

/// Whether a word is this text.
pub(crate) fn is(word: &[u8], text: &str) -> bool
    ensures { result ≡ bytes_eq word.now text.now }
{
    word == text.as_bytes()
}

fn is_letter(b: u8) -> bool
    ensures { result ≡ is_letter b }
{
    b.is_ascii_uppercase() || b == b'_'
}

fn is_in_name(b: u8) -> bool
    ensures { result ≡ is_in_name b }
{
    is_letter(b) || b.is_ascii_digit()
}

fn is_hex_digit(b: u8) -> bool
    ensures { result ≡ is_hex_digit b }
{
    b.is_ascii_digit() || (b'A'..=b'F').contains(&b)
}

fn are_letters(word: &[u8]) -> bool
    ensures { result ≡ list_all is_ascii_uppercase word.now }
{
    word.iter().all(|b| b.is_ascii_uppercase())
}

/// Whether a word has the shape of a mnemonic: three to five letters.
fn may_be_mnemonic(word: &[u8]) -> bool
    ensures { result ≡ may_be_mnemonic word.now }
{
    word.len() >= 3 && word.len() <= 5 && are_letters(word)
}

fn is_mnemonic(word: &[u8]) -> bool
    ensures { result ≡ is_mnemonic word.now }
{
    // most names have another shape, and need no look at the table
    may_be_mnemonic(word) && EVERY.iter().any(|i| is(word, i.encoding().mnemonic.text()))
}

fn is_directive(word: &[u8]) -> bool
    ensures { result ≡ is_directive word.now }
{
    is(word, "ORG") || is(word, "EQU") || is(word, "FCB") || is(word, "FDB")
}

fn is_operation(word: &[u8]) -> bool
    ensures { result ≡ is_operation word.now }
{
    is_directive(word) || is_mnemonic(word)
}

fn are_in_name(word: &[u8]) -> bool
    ensures { result ≡ list_all is_in_name word.now }
{
    word.iter().all(|b| is_in_name(*b))
}

fn has_letters_of_name(word: &[u8]) -> bool
    ensures { result ≡ has_letters_of_name word.now }
{
    match word {
        [] => false,
        [b, ..] => is_letter(*b) && are_in_name(word),
    }
}

/// Whether a word is a name: a letter or `_`, then letters, digits and `_`, and not an operation.
pub(crate) fn is_name(word: &[u8]) -> bool
    ensures { result ≡ is_name word.now }
{
    has_letters_of_name(word) && !is_operation(word)
}

fn are_decimal(digits: &[u8]) -> bool
    ensures { result ≡ list_all is_ascii_digit digits.now }
{
    digits.iter().all(|b| b.is_ascii_digit())
}

fn are_hex(digits: &[u8]) -> bool
    ensures { result ≡ list_all is_hex_digit digits.now }
{
    digits.iter().all(|b| is_hex_digit(*b))
}

fn hex_value(b: u8) -> u8
    ensures { result ≡ hex_value b }
{
    if b.is_ascii_digit() {
        b.saturating_sub(b'0')
    } else {
        b.saturating_sub(b'A' - 10)
    }
}

/// A decimal number, or 65536 where it is above 65535.
fn decimal(digits: &[u8]) -> u64
    ensures { result ≡ min (decimal_value digits.now) 65536 }
{
    let mut n: u64 = 0;
    for b in digits {
        n = (n * 10 + u64::from(b.saturating_sub(b'0'))).min(65536);
    }
    n
}

/// A hexadecimal number, or 65536 where it is above 65535.
fn hexadecimal(digits: &[u8]) -> u64
    ensures { result ≡ min (hexadecimal_value digits.now) 65536 }
{
    let mut n: u64 = 0;
    for b in digits {
        n = (n * 16 + u64::from(hex_value(*b))).min(65536);
    }
    n
}

/// The term of a number that is counted up to 65536.
fn number(n: u64) -> Term
    ensures { (whole : ℕ) → n ≡ min whole 65536 → result ≡ number whole }
{
    if n <= 65535 {
        Term::Value(n)
    } else {
        Term::Large
    }
}

fn plain_term(names: &Names<'_>, word: &[u8]) -> Term
    ensures { result ≡ plain_term (value_in names.now) word.now }
{
    if !word.is_empty() && are_decimal(word) {
        return number(decimal(word));
    }
    if !is_name(word) {
        return Term::Bad;
    }
    match names.get(word) {
        Some(value) => Term::Value(*value),
        None => Term::Unknown,
    }
}

fn any_term(names: &Names<'_>, word: &[u8]) -> Term
    ensures { result ≡ term_of (value_in names.now) word.now }
{
    match word {
        [] => Term::Bad,
        [b'$', digits @ ..] => {
            if !digits.is_empty() && are_hex(digits) {
                number(hexadecimal(digits))
            } else {
                Term::Bad
            }
        }
        _ => plain_term(names, word),
    }
}

impl Sum {
    fn with(self, term: Term) -> Sum
        requires { self.added + self.taken + 2 ^ 64 < 2 ^ 128 }
        ensures value { result ≡ with_term self term }
        ensures bound { result.added + result.taken ≤ self.added + self.taken + 2 ^ 64 }
    {
        let mut sum = self;
        match term {
            Term::Value(v) if self.negative => sum.taken += u128::from(v),
            Term::Value(v) => sum.added += u128::from(v),
            Term::Large => sum.large = true,
            Term::Unknown => sum.unknown = true,
            Term::Bad => sum.bad = true,
        }
        sum.negative = true;
        sum
    }
}

/// A sum with the terms of a group, of which the first is added and the others are subtracted.
fn with_group(names: &Names<'_>, sum: Sum, group: &[u8]) -> Sum
    requires { sum.added + sum.taken + 2 ^ 64 * (length group.now + 1) < 2 ^ 128 }
    ensures value { result ≡ with_group (value_in names.now) sum group.now }
    ensures bound { result.added + result.taken ≤ sum.added + sum.taken + 2 ^ 64 * (length group.now + 1) }
{
    let mut total = sum;
    total.negative = false;
    let mut left = Some(group);
    while let Some(text) = left {
        let (word, rest) = cut(text, b'-');
        total = total.with(any_term(names, word));
        left = rest;
    }
    total
}

/// The sum of an expression.
pub(crate) fn expression(names: &Names<'_>, text: &[u8]) -> Sum
    requires { length text.now ≤ 2 ^ 32 }
    ensures { result ≡ sum_of (value_in names.now) text.now }
{
    let mut total = Sum {
        added: 0,
        taken: 0,
        large: false,
        unknown: false,
        bad: false,
        negative: false,
    };
    let mut left = Some(text);
    while let Some(groups) = left {
        let (group, rest) = cut(groups, b'+');
        total = with_group(names, total, group);
        left = rest;
    }
    total
}
