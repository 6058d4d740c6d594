//! Bytes to tokens.

ghost use Rattle.std.specs.Prelude.{◌≡◌, ◌<◌, ◌≤◌, ◌+◌, length, map, IfOk, IfErr, IfSome, Ok};
ghost use Rattle.std.specs.Char.{is_ascii_digit};
ghost use Rattle.std.specs.Str.{str_eq_ignore_ascii_case};
ghost use Rattle.fcl_tokens.specs.declared.lexer.LexError.TheVariants.{Memory};
ghost use Rattle.fcl_tokens.specs.Tokens.{is_blank, is_name_start, is_name_byte, is_line_byte, starts_name};
ghost use Rattle.fcl_tokens.specs.Tokens.{meaning_in, amount_of};
ghost use Rattle.fcl_tokens.specs.Lexing.{run, comment_end, starts_close, has_fraction, number_len, word_token};
ghost use Rattle.fcl_tokens.specs.Lexing.{number_piece, open_piece, slash_piece, point_piece, colon_piece};
ghost use Rattle.fcl_tokens.specs.Lexing.{delimiter_piece, piece_of, tokenization, LexFails, PieceFits};

use crate::token::{Amount, MEANINGS, Meaning, Token, Word};
use fz_num::{Dec, DecFault};
use std::alloc::{AllocError, AllocFailed, Global};

/// Why a text has no tokens.
#[derive(Clone, Copy)]
pub enum LexKind {
    /// A byte that begins no token.
    BadByte,
    /// A comment without its end.
    OpenComment,
    /// A number that is no decimal.
    Number(DecFault),
}

/// The first token fault of a text.
#[derive(Clone, Copy)]
pub struct LexFault {
    /// What is wrong.
    pub kind: LexKind,
    /// Where it is: its offset in the text.
    pub at: u32,
}

/// What is at the front of a text, and how many bytes it takes.
#[derive(Clone, Copy)]
pub enum Piece {
    Skip(usize),
    Token(Token, usize),
    Fault(LexKind),
}

fn is_blank(b: u8) -> bool
    ensures { result ≡ is_blank b }
{
    b == b' ' || b == b'\t' || b == b'\r' || b == b'\n'
}

fn is_name_start(b: u8) -> bool
    ensures { result ≡ is_name_start b }
{
    b.is_ascii_alphabetic() || b == b'_'
}

fn is_name_byte(b: u8) -> bool
    ensures { result ≡ is_name_byte b }
{
    is_name_start(b) || b.is_ascii_digit()
}

/// How many letters, digits and `_` are at the front: the length of a name that begins there.
pub fn name_len(bytes: &[u8]) -> usize
    ensures value { result ≡ run is_name_byte bytes.now }
    ensures bound { result ≤ length bytes.now }
{
    bytes.iter().take_while(|b| is_name_byte(**b)).count()
}

fn digits_len(bytes: &[u8]) -> usize
    ensures { result ≡ run is_ascii_digit bytes.now }
{
    bytes.iter().take_while(|b| b.is_ascii_digit()).count()
}

fn line_len(bytes: &[u8]) -> usize
    ensures { result ≡ run is_line_byte bytes.now }
{
    bytes.iter().take_while(|b| **b != b'\n').count()
}

fn has_fraction(bytes: &[u8]) -> bool
    ensures { result ≡ has_fraction bytes.now }
{
    match bytes {
        [b'.', b, ..] => b.is_ascii_digit(),
        _ => false,
    }
}

fn starts_name(bytes: &[u8]) -> bool
    ensures { result ≡ starts_name bytes.now }
{
    match bytes {
        [] => false,
        [b, ..] => is_name_start(*b),
    }
}

fn same_word(a: &[u8], b: &[u8]) -> bool
    ensures { result ≡ str_eq_ignore_ascii_case a.now b.now }
{
    a.eq_ignore_ascii_case(b)
}

fn meaning(mut table: &[(&[u8], Meaning)], text: &[u8]) -> Meaning
    ensures { result ≡ meaning_in (map (λ m. (m.0.now, m.1)) table.entry.now) text.now }
{
    while let [entry, rest @ ..] = table {
        if same_word(entry.0, text) {
            return entry.1;
        }
        table = rest;
    }
    Meaning::Name(Word::Other)
}

#[tactic(auto, unfolding(crate::specs::Lexing::word_token))]
fn word_token(at: u32, text: &[u8]) -> Token
    ensures { result ≡ word_token at text.now }
{
    match meaning(&MEANINGS, text) {
        Meaning::Keyword(keyword) => Token::Word(at, keyword),
        Meaning::Name(word) => Token::Name(at, word),
    }
}

#[tactic(auto, unfolding(crate::specs::Lexing::number_len))]
fn number_len(bytes: &[u8]) -> usize
    ensures value { result ≡ number_len bytes.now }
    ensures digits { run is_ascii_digit bytes.now ≤ result }
    ensures bound { result ≤ length bytes.now }
{
    let n = digits_len(bytes);
    if has_fraction(&bytes[n..]) {
        n + 1 + digits_len(&bytes[n + 1..])
    } else {
        n
    }
}

fn starts_close(bytes: &[u8]) -> bool
    ensures { result ≡ starts_close bytes.now }
{
    match bytes {
        [] => false,
        [b, ..] => *b == b')',
    }
}

// After how many bytes a comment's end is over.
fn comment_end(bytes: &[u8]) -> Option<usize>
    ensures value { result ≡ comment_end bytes.now }
    ensures bound { IfSome result (λ n. n ≤ length bytes.now) }
{
    let mut n = 0;
    let mut rest = bytes;
    'each: while let [b, after @ ..] = rest {
        if *b == b'*' && starts_close(after) {
            return Some(n + 2);
        }
        n += 1;
        rest = after;
    }
    None
}

fn amount(value: Dec) -> Amount
    ensures { result ≡ amount_of value }
{
    if value.0 == 0 {
        Amount::Zero
    } else if value.0 == 10_000 {
        Amount::One
    } else {
        Amount::Other(value)
    }
}

#[tactic(auto, unfolding(crate::specs::Lexing::number_piece))]
fn number_piece(at: u32, bytes: &[u8]) -> Piece
    requires { 0 < run is_ascii_digit bytes.now }
    ensures value { result ≡ number_piece at bytes.now }
    ensures fits { PieceFits result (length bytes.now) }
{
    let n = number_len(bytes);
    if starts_name(&bytes[n..]) {
        return Piece::Fault(LexKind::Number(DecFault::Shape));
    }
    match Dec::read(&bytes[..n]) {
        Ok(value) => Piece::Token(Token::Number(at, amount(value), n == digits_len(bytes)), n),
        Err(fault) => Piece::Fault(LexKind::Number(fault)),
    }
}

#[tactic(auto, unfolding(crate::specs::Lexing::open_piece))]
fn open_piece(at: u32, bytes: &[u8]) -> Piece
    ensures value { result ≡ open_piece at bytes.now }
    ensures fits { PieceFits result (length bytes.now + 1) }
{
    match bytes {
        [b'*', rest @ ..] => match comment_end(rest) {
            Some(n) => Piece::Skip(n + 2),
            None => Piece::Fault(LexKind::OpenComment),
        },
        _ => Piece::Token(Token::Open(at), 1),
    }
}

#[tactic(auto, unfolding(crate::specs::Lexing::slash_piece))]
fn slash_piece(bytes: &[u8]) -> Piece
    ensures value { result ≡ slash_piece bytes.now }
    ensures fits { PieceFits result (length bytes.now + 1) }
{
    match bytes {
        [b'/', rest @ ..] => Piece::Skip(2 + line_len(rest)),
        _ => Piece::Fault(LexKind::BadByte),
    }
}

#[tactic(auto, unfolding(crate::specs::Lexing::point_piece))]
fn point_piece(bytes: &[u8]) -> Piece
    ensures value { result ≡ point_piece bytes.now }
    ensures fits { PieceFits result (length bytes.now + 1) }
{
    match bytes {
        [b'.', ..] => Piece::Token(Token::To, 2),
        _ => Piece::Fault(LexKind::BadByte),
    }
}

#[tactic(auto, unfolding(crate::specs::Lexing::colon_piece))]
fn colon_piece(bytes: &[u8]) -> Piece
    ensures value { result ≡ colon_piece bytes.now }
    ensures fits { PieceFits result (length bytes.now + 1) }
{
    match bytes {
        [b'=', ..] => Piece::Token(Token::Assign, 2),
        _ => Piece::Token(Token::Colon, 1),
    }
}

#[tactic(auto, unfolding(crate::specs::Lexing::delimiter_piece))]
fn delimiter_piece(at: u32, b: u8, bytes: &[u8]) -> Piece
    ensures value { result ≡ delimiter_piece at b bytes.now }
    ensures fits { PieceFits result (length bytes.now + 1) }
{
    match b {
        b'(' => open_piece(at, bytes),
        b'/' => slash_piece(bytes),
        b'.' => point_piece(bytes),
        b':' => colon_piece(bytes),
        b';' => Piece::Token(Token::Semicolon, 1),
        b',' => Piece::Token(Token::Comma, 1),
        b')' => Piece::Token(Token::Close, 1),
        b'+' => Piece::Token(Token::Plus, 1),
        b'-' => Piece::Token(Token::Minus, 1),
        _ => Piece::Fault(LexKind::BadByte),
    }
}

fn front_piece(at: u32, bytes: &[u8]) -> Piece
    requires { 0 < length bytes.now }
    ensures value { result ≡ piece_of at bytes.now }
    ensures fits { PieceFits result (length bytes.now) }
{
    let first = bytes[0];
    if is_blank(first) {
        return Piece::Skip(1);
    }
    if starts_name(bytes) {
        let n = name_len(bytes);
        return Piece::Token(word_token(at, &bytes[..n]), n);
    }
    if first.is_ascii_digit() {
        return number_piece(at, bytes);
    }
    delimiter_piece(at, first, &bytes[1..])
}

/// Why a call has no tokens.
#[derive(Drop)]
pub enum LexError {
    /// Out of memory; the text may or may not have a fault.
    Memory,
    /// The text's first token fault.
    Fault(LexFault),
}

impl From<AllocError> for LexError {
    ghost from_gives = { λ _ e. e ≡ Memory };

    fn from(_e: AllocError) -> LexError {
        LexError::Memory
    }
}

impl<T: Drop> From<AllocFailed<T>> for LexError {
    ghost from_gives = { λ _ e. e ≡ Memory };

    fn from(_e: AllocFailed<T>) -> LexError {
        LexError::Memory
    }
}

/// The tokens of a text, and the place of each, or the first token fault.
pub fn lex(alloc: Global, text: &[u8]) -> Result<(Vec<Token>, Vec<u32>), LexError>
    requires { length text.now ≤ 1048576 }
    ensures found { IfOk result (λ v. tokenization text.now ≡ Ok (v.0.items, v.1.items)) }
    ensures fault { IfErr result (λ e. LexFails e (tokenization text.now)) }
{
    let mut tokens = Vec::new(alloc);
    let mut places = Vec::new(alloc);
    let mut at: usize = 0;
    let mut rest = text;
    'each: while !rest.is_empty() {
        match front_piece(at as u32, rest) {
            Piece::Skip(n) => {
                rest = rest.split_at(n).1;
                at += n;
            }
            Piece::Token(token, n) => {
                tokens.push(token)?;
                places.push(at as u32)?;
                rest = rest.split_at(n).1;
                at += n;
            }
            Piece::Fault(kind) => {
                return Err(LexError::Fault(LexFault {
                    kind,
                    at: at as u32,
                }));
            }
        }
    }
    Ok((tokens, places))
}
