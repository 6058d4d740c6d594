//! Single tokens: which is next, and reading it. After a fault it is unspecified how many tokens are left.

ghost use Rattle.std.specs.Prelude.{◌≡◌, ◌==◌, [], ◌∷◌, length, is_some};
ghost use Rattle.fcl_syntax.specs.TokenClasses.{mem, class_of, keyword_class, word_class, name_classes};
ghost use Rattle.fcl_syntax.specs.TokenClasses.{signed_classes, open_classes};
ghost use Rattle.fcl_syntax.specs.Readers.{Gives, Tries, starts};
ghost use Rattle.fcl_syntax.specs.Reading.{IsBare, unit, some_unit, expect_at, key_at, word_at, open_at, name_at};
ghost use Rattle.fcl_syntax.specs.Reading.{number_at, label_at};

use crate::fault::{Fault, Kind, ParseError};
use crate::tree::{Label, Name, Number};
use fcl_tokens::{Keyword, Token, Word};

pub fn fault(kind: Kind, tokens: &[Token]) -> ParseError
    ensures { result ≡ ParseError.Fault (record { kind = kind; left = length tokens.now }) }
{
    ParseError::Fault(Fault {
        kind,
        left: tokens.len(),
    })
}

/// Reads this token if it is next, and returns whether it was.
#[tactic(auto, unfolding(crate::specs::Reading::token_at))]
pub fn optional(tokens: &mut &[Token], token: Token) -> bool
    requires { IsBare token }
    ensures next { result ≡ starts (class_of token ∷ []) tokens.old.now }
    ensures read { Tries (some_unit result) tokens.old.now tokens.new.now (expect_at token tokens.old.now) }
{
    match *tokens {
        [first, rest @ ..] if *first == token => {
            *tokens = rest;
            true
        }
        _ => false,
    }
}

pub fn expect(tokens: &mut &[Token], token: Token) -> Result<(), ParseError>
    requires { IsBare token }
    ensures { Gives (λ _. (unit, tokens.new.now)) result (expect_at token tokens.old.now) }
{
    if optional(tokens, token) {
        return Ok(());
    }
    Err(fault(Kind::Expected, tokens))
}

fn same_keyword(word: Keyword, wanted: Keyword) -> bool
    ensures same { result ≡ (keyword_class word == keyword_class wanted) }
    ensures among { result ≡ mem (keyword_class word) (keyword_class wanted ∷ []) }
{
    word == wanted
}

/// Reads this keyword if it is next, and returns its offset.
#[tactic(auto, unfolding(crate::specs::Reading::token_at))]
pub fn optional_keyword(tokens: &mut &[Token], wanted: Keyword) -> Option<u32>
    ensures next { is_some result ≡ starts (keyword_class wanted ∷ []) tokens.old.now }
    ensures read { Tries result tokens.old.now tokens.new.now (key_at wanted tokens.old.now) }
{
    match *tokens {
        [Token::Word(at, word), rest @ ..] if same_keyword(*word, wanted) => {
            *tokens = rest;
            Some(*at)
        }
        _ => None,
    }
}

pub fn keyword(tokens: &mut &[Token], wanted: Keyword) -> Result<u32, ParseError>
    ensures { Gives (λ at. (at, tokens.new.now)) result (key_at wanted tokens.old.now) }
{
    match optional_keyword(tokens, wanted) {
        Some(at) => Ok(at),
        None => Err(fault(Kind::Expected, tokens)),
    }
}

#[tactic(auto, unfolding(crate::specs::Reading::token_at))]
pub fn word(tokens: &mut &[Token], wanted: Word) -> Result<u32, ParseError>
    ensures { Gives (λ at. (at, tokens.new.now)) result (word_at wanted tokens.old.now) }
{
    match *tokens {
        [Token::Name(at, word), rest @ ..] if *word == wanted => {
            *tokens = rest;
            Ok(*at)
        }
        _ => Err(fault(Kind::Expected, tokens)),
    }
}

pub fn is_word(tokens: &[Token], wanted: Word) -> bool
    ensures { result ≡ starts (word_class wanted ∷ []) tokens.now }
{
    matches!(tokens, [Token::Name(_, word), ..] if *word == wanted)
}

#[tactic(auto, unfolding(crate::specs::Reading::token_at))]
pub fn open(tokens: &mut &[Token]) -> Result<u32, ParseError>
    ensures { Gives (λ at. (at, tokens.new.now)) result (open_at tokens.old.now) }
{
    match *tokens {
        [Token::Open(at), rest @ ..] => {
            *tokens = rest;
            Ok(*at)
        }
        _ => Err(fault(Kind::Expected, tokens)),
    }
}

pub fn is_open(tokens: &[Token]) -> bool
    ensures { result ≡ starts open_classes tokens.now }
{
    matches!(tokens, [Token::Open(_), ..])
}

#[tactic(auto, unfolding(crate::specs::Reading::token_at))]
pub fn name(tokens: &mut &[Token]) -> Result<Name, ParseError>
    ensures { Gives (λ name. (name, tokens.new.now)) result (name_at tokens.old.now) }
{
    match *tokens {
        [Token::Name(at, word), rest @ ..] => {
            *tokens = rest;
            let (at, word) = (*at, *word);
            Ok(Name { at, word })
        }
        _ => Err(fault(Kind::Expected, tokens)),
    }
}

pub fn is_name(tokens: &[Token]) -> bool
    ensures { result ≡ starts name_classes tokens.now }
{
    matches!(tokens, [Token::Name(..), ..])
}

#[tactic(auto, unfolding(crate::specs::Reading::token_at))]
pub fn number(tokens: &mut &[Token]) -> Result<Number, ParseError>
    ensures { Gives (λ number. (number, tokens.new.now)) result (number_at tokens.old.now) }
{
    match *tokens {
        [Token::Number(at, amount, whole), rest @ ..] => {
            *tokens = rest;
            let (at, amount, whole) = (*at, *amount, *whole);
            Ok(Number { at, amount, whole })
        }
        _ => Err(fault(Kind::Expected, tokens)),
    }
}

/// A number without a point.
#[tactic(auto, unfolding(crate::specs::Reading::token_at))]
pub fn label(tokens: &mut &[Token]) -> Result<Label, ParseError>
    ensures { Gives (λ label. (label, tokens.new.now)) result (label_at tokens.old.now) }
{
    match *tokens {
        [Token::Number(at, amount, true), rest @ ..] => {
            *tokens = rest;
            let (at, amount) = (*at, *amount);
            Ok(Label { at, amount })
        }
        _ => Err(fault(Kind::Expected, tokens)),
    }
}

/// Whether a number or a sign is next.
pub fn is_signed(tokens: &[Token]) -> bool
    ensures { result ≡ starts signed_classes tokens.now }
{
    matches!(tokens, [Token::Plus | Token::Minus | Token::Number(..), ..])
}
