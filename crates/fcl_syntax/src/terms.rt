//! FUZZIFY and DEFUZZIFY.

ghost use Rattle.std.specs.Prelude.{◌≡◌, ◌⊎◌, [], ◌∷◌, map, Ok};
ghost use Rattle.std.proofs.Common.{inr};
ghost use Rattle.fcl_syntax.specs.TokenClasses.{open_classes, fuzzy_line_classes, defuzzy_line_classes, part_classes};
ghost use Rattle.fcl_syntax.specs.TokenClasses.{word_class};
ghost use Rattle.fcl_syntax.specs.Grammar.{TPoint, TTerm, TRange, TDefuzzyLine, TPart};
ghost use Rattle.fcl_syntax.specs.Readers.{Gives};
ghost use Rattle.fcl_syntax.specs.Reading.{sign_at, signed, signed_number_at, coordinate_at, unit_at, zero_at};
ghost use Rattle.fcl_syntax.specs.Reading.{degree_at, point_at, point_from, points_at, term_at};
ghost use Rattle.fcl_syntax.specs.Reading.{opening_at, range_at, fuzzy_line_at, fuzzify_at, setting_at, accu_at};
ghost use Rattle.fcl_syntax.specs.Reading.{singleton_at, fallback_value_at, fallback_at, defuzzy_line_at};
ghost use Rattle.fcl_syntax.specs.Reading.{defuzzify_at, part_at};
ghost use Rattle.fcl_syntax.specs.View.{view_signed_number, view_coordinate, view_degree, view_point, view_term};
ghost use Rattle.fcl_syntax.specs.View.{view_range, view_fuzzy_line, view_fuzzify, view_setting, view_singleton};
ghost use Rattle.fcl_syntax.specs.View.{view_value, view_fallback, view_defuzzy_line, view_defuzzify, view_part};

use crate::fault::{Kind, ParseError};
use crate::repeated::{Repeated, many};
use crate::single::{
    expect, fault, is_name, is_open, is_signed, is_word, keyword, name, number, open, optional,
    word,
};
use crate::tree::{
    Defuzzify, DefuzzyLine, Degree, Fallback, FallbackValue, Fuzzify, FuzzyLine, Number, Part,
    Point, Range, Setting, SignedNumber, Singleton, Term, UnitNumber, ZeroNumber,
};
use fcl_tokens::{Amount, Keyword, Token, Word};
use fz_list::List;
use std::alloc::Global;

// ---- numbers

/// The sign of a number.
#[derive(Clone, Copy)]
enum Sign {
    Plus,
    Minus,
    Bare,
}

/// The sign that is next.
#[tactic(auto, unfolding(crate::specs::Reading::sign_at, crate::specs::Reading::token_at))]
fn next_sign(tokens: &mut &[Token]) -> Sign
    ensures { sign_at tokens.old.now ≡ Ok (result, tokens.new.now) }
{
    match *tokens {
        [Token::Plus, rest @ ..] => {
            *tokens = rest;
            Sign::Plus
        }
        [Token::Minus, rest @ ..] => {
            *tokens = rest;
            Sign::Minus
        }
        _ => Sign::Bare,
    }
}

fn signed(sign: Sign, number: Number) -> SignedNumber
    ensures number { view_signed_number result ≡ signed sign number }
    ensures coordinate { view_coordinate result ≡ signed sign (inr number) }
{
    match sign {
        Sign::Plus => SignedNumber::Plus(number),
        Sign::Minus => SignedNumber::Minus(number),
        Sign::Bare => SignedNumber::Bare(number),
    }
}

#[tactic(auto, unfolding(crate::specs::Reading::signed_at), using(crate::proofs::Parsers::behind_sign_alike))]
pub fn signed_number(tokens: &mut &[Token]) -> Result<SignedNumber, ParseError>
    ensures { Gives (λ x. (view_signed_number x, tokens.new.now)) result (signed_number_at tokens.old.now) }
{
    let sign = next_sign(tokens);
    let number = number(tokens)?;
    Ok(signed(sign, number))
}

/// A number of a point, where a name is refused.
#[tactic(auto, unfolding(crate::specs::Reading::signed_at, crate::specs::Reading::refusing), using(crate::proofs::Parsers::behind_sign_alike))]
fn coordinate(tokens: &mut &[Token]) -> Result<SignedNumber, ParseError>
    ensures { Gives (λ x. (view_coordinate x, tokens.new.now)) result (coordinate_at tokens.old.now) }
{
    let sign = next_sign(tokens);
    if is_name(tokens) {
        return Err(fault(Kind::Unsupported(10), tokens));
    }
    let number = number(tokens)?;
    Ok(signed(sign, number))
}

/// 0 or 1, where a name and another number are refused.
#[tactic(auto, unfolding(crate::specs::Reading::refusing, crate::specs::Reading::token_at))]
fn zero_or_one(tokens: &mut &[Token]) -> Result<UnitNumber, ParseError>
    ensures { Gives (λ x. (inr (inr x), tokens.new.now)) result (unit_at tokens.old.now) }
{
    let (at, is_one, whole, rest) = match *tokens {
        [Token::Number(at, Amount::Zero, whole), rest @ ..] => (*at, false, *whole, rest),
        [Token::Number(at, Amount::One, whole), rest @ ..] => (*at, true, *whole, rest),
        [Token::Number(..), ..] => return Err(fault(Kind::Unsupported(11), tokens)),
        [Token::Name(..), ..] => return Err(fault(Kind::Unsupported(10), tokens)),
        _ => return Err(fault(Kind::Expected, tokens)),
    };
    *tokens = rest;
    Ok(UnitNumber { at, is_one, whole })
}

/// 0 behind a minus sign, where a name and another number are refused.
#[tactic(auto, unfolding(crate::specs::Reading::refusing, crate::specs::Reading::token_at))]
fn zero(tokens: &mut &[Token]) -> Result<ZeroNumber, ParseError>
    ensures { Gives (λ x. (inr (inr x), tokens.new.now)) result (zero_at tokens.old.now) }
{
    match *tokens {
        [Token::Number(at, Amount::Zero, whole), rest @ ..] => {
            *tokens = rest;
            let (at, whole) = (*at, *whole);
            Ok(ZeroNumber { at, whole })
        }
        [Token::Number(..), ..] => Err(fault(Kind::Unsupported(11), tokens)),
        [Token::Name(..), ..] => Err(fault(Kind::Unsupported(10), tokens)),
        _ => Err(fault(Kind::Expected, tokens)),
    }
}

#[tactic(auto, unfolding(crate::specs::Reading::signed_at))]
fn degree(tokens: &mut &[Token]) -> Result<Degree, ParseError>
    ensures { Gives (λ x. (view_degree x, tokens.new.now)) result (degree_at tokens.old.now) }
{
    match next_sign(tokens) {
        Sign::Plus => Ok(Degree::Plus(zero_or_one(tokens)?)),
        Sign::Minus => Ok(Degree::Minus(zero(tokens)?)),
        Sign::Bare => Ok(Degree::Bare(zero_or_one(tokens)?)),
    }
}

// ---- terms of an input

/// A point, behind its "(".
#[tactic(auto, unfolding(crate::specs::Reading::point_from))]
fn point(open_at: u32, tokens: &mut &[Token]) -> Result<Point, ParseError>
    ensures { Gives (λ x. (view_point x, tokens.new.now)) result (point_from open_at tokens.old.now) }
{
    let x = coordinate(tokens)?;
    expect(tokens, Token::Comma)?;
    let degree = degree(tokens)?;
    expect(tokens, Token::Close)?;
    Ok(Point { open_at, x, degree })
}

impl Repeated for Point {
    ghost Tree = { TPoint };

    ghost first = { open_classes };

    ghost read_at = { point_at };

    ghost view = { view_point };

    #[tactic(auto, unfolding(crate::specs::Reading::headed_at, crate::specs::Reading::token_at))]
    fn next(alloc: Global, tokens: &mut &[Token]) -> Result<Option<Point>, ParseError> {
        let [Token::Open(at), rest @ ..] = *tokens else {
            return Ok(None);
        };
        *tokens = rest;
        Ok(Some(point(*at, tokens)?))
    }
}

/// The points of a term, where a number and a sign are refused.
#[tactic(auto, unfolding(crate::specs::Reading::refusing, crate::specs::Reading::some_points_at, crate::specs::Reading::headed_at), using(crate::proofs::TermParsers::point_take))]
fn points(alloc: Global, tokens: &mut &[Token]) -> Result<(Point, List<Point>), ParseError>
    ensures { Gives (λ x. (inr (view_point x.0, map view_point x.1), tokens.new.now)) result
        (points_at tokens.old.now) }
{
    if is_signed(tokens) {
        return Err(fault(Kind::Unsupported(14), tokens));
    }
    let open_at = open(tokens)?;
    let first = point(open_at, tokens)?;
    let more = many::<Point>(alloc, tokens)?;
    Ok((first, more))
}

#[tactic(auto, unfolding(crate::specs::Reading::term_at))]
fn term(alloc: Global, tokens: &mut &[Token]) -> Result<Term, ParseError>
    ensures { Gives (λ x. (view_term x, tokens.new.now)) result (term_at tokens.old.now) }
{
    let at = keyword(tokens, Keyword::Term)?;
    let name = name(tokens)?;
    expect(tokens, Token::Assign)?;
    let (first, more) = points(alloc, tokens)?;
    expect(tokens, Token::Semicolon)?;
    Ok(Term {
        at,
        name,
        first,
        more,
    })
}

// ---- ranges

/// [":="] "("
#[tactic(auto, unfolding(crate::specs::Reading::opening_at))]
fn opening(tokens: &mut &[Token]) -> Result<(bool, u32), ParseError>
    ensures { Gives (λ x. (x, tokens.new.now)) result (opening_at tokens.old.now) }
{
    let assigned = optional(tokens, Token::Assign);
    let at = open(tokens)?;
    Ok((assigned, at))
}

#[tactic(auto, unfolding(crate::specs::Reading::range_at))]
fn range(tokens: &mut &[Token]) -> Result<Range, ParseError>
    ensures { Gives (λ x. (view_range x, tokens.new.now)) result (range_at tokens.old.now) }
{
    let at = keyword(tokens, Keyword::Range)?;
    let (assigned, open_at) = opening(tokens)?;
    let low = signed_number(tokens)?;
    expect(tokens, Token::To)?;
    let high = signed_number(tokens)?;
    expect(tokens, Token::Close)?;
    expect(tokens, Token::Semicolon)?;
    Ok(Range {
        at,
        assigned,
        open_at,
        low,
        high,
    })
}

// ---- FUZZIFY

impl Repeated for FuzzyLine {
    ghost Tree = { TTerm ⊎ TRange };

    ghost first = { fuzzy_line_classes };

    ghost read_at = { fuzzy_line_at };

    ghost view = { view_fuzzy_line };

    #[tactic(auto, unfolding(crate::specs::Reading::either_at))]
    fn next(alloc: Global, tokens: &mut &[Token]) -> Result<Option<FuzzyLine>, ParseError> {
        let line = match *tokens {
            [Token::Word(_, Keyword::Term), ..] => FuzzyLine::Term(term(alloc, tokens)?),
            [Token::Word(_, Keyword::Range), ..] => FuzzyLine::Range(range(tokens)?),
            _ => return Ok(None),
        };
        Ok(Some(line))
    }
}

#[tactic(auto, unfolding(crate::specs::Reading::fuzzify_at), using(crate::proofs::TermParsers::fuzzy_line_take))]
fn fuzzify(alloc: Global, tokens: &mut &[Token]) -> Result<Fuzzify, ParseError>
    ensures { Gives (λ x. (view_fuzzify x, tokens.new.now)) result (fuzzify_at tokens.old.now) }
{
    let at = keyword(tokens, Keyword::Fuzzify)?;
    let name = name(tokens)?;
    let lines = many::<FuzzyLine>(alloc, tokens)?;
    let end = keyword(tokens, Keyword::EndFuzzify)?;
    Ok(Fuzzify {
        at,
        name,
        lines,
        end,
    })
}

// ---- settings

/// `KEYWORD : accepted ;`. Two other words are refused as unsupported, with this code.
#[tactic(auto, unfolding(crate::specs::Reading::setting_at, crate::specs::Reading::refusing))]
pub fn setting(
    tokens: &mut &[Token],
    wanted: Keyword,
    accepted: Word,
    refused: (Word, Word),
    code: u8,
) -> Result<Setting, ParseError>
    ensures { Gives (λ x. (view_setting x, tokens.new.now)) result
        (setting_at wanted accepted (word_class refused.0 ∷ word_class refused.1 ∷ []) code tokens.old.now) }
{
    let at = keyword(tokens, wanted)?;
    expect(tokens, Token::Colon)?;
    if is_word(tokens, refused.0) || is_word(tokens, refused.1) {
        return Err(fault(Kind::Unsupported(code), tokens));
    }
    let word = word(tokens, accepted)?;
    expect(tokens, Token::Semicolon)?;
    Ok(Setting { at, word })
}

pub fn accu(tokens: &mut &[Token]) -> Result<Setting, ParseError>
    ensures { Gives (λ x. (view_setting x, tokens.new.now)) result (accu_at tokens.old.now) }
{
    let refused = (Word::Bsum, Word::Nsum);
    setting(tokens, Keyword::Accu, Word::Max, refused, 4)
}

// ---- DEFUZZIFY

/// A term of an output, where "(" is refused in place of its number.
#[tactic(auto, unfolding(crate::specs::Reading::singleton_at, crate::specs::Reading::refusing))]
fn singleton(tokens: &mut &[Token]) -> Result<Singleton, ParseError>
    ensures { Gives (λ x. (view_singleton x, tokens.new.now)) result (singleton_at tokens.old.now) }
{
    let at = keyword(tokens, Keyword::Term)?;
    let name = name(tokens)?;
    expect(tokens, Token::Assign)?;
    if is_open(tokens) {
        return Err(fault(Kind::Unsupported(13), tokens));
    }
    let value = signed_number(tokens)?;
    expect(tokens, Token::Semicolon)?;
    Ok(Singleton { at, name, value })
}

/// signed_number | NC
#[tactic(auto, unfolding(crate::specs::Reading::either_at))]
fn fallback_value(tokens: &mut &[Token]) -> Result<FallbackValue, ParseError>
    ensures { Gives (λ x. (view_value x, tokens.new.now)) result (fallback_value_at tokens.old.now) }
{
    if is_signed(tokens) {
        return Ok(FallbackValue::Number(signed_number(tokens)?));
    }
    Ok(FallbackValue::Nc(word(tokens, Word::Nc)?))
}

#[tactic(auto, unfolding(crate::specs::Reading::fallback_at))]
fn fallback(tokens: &mut &[Token]) -> Result<Fallback, ParseError>
    ensures { Gives (λ x. (view_fallback x, tokens.new.now)) result (fallback_at tokens.old.now) }
{
    let at = keyword(tokens, Keyword::Default)?;
    expect(tokens, Token::Assign)?;
    let value = fallback_value(tokens)?;
    expect(tokens, Token::Semicolon)?;
    Ok(Fallback { at, value })
}

impl Repeated for DefuzzyLine {
    ghost Tree = { TDefuzzyLine };

    ghost first = { defuzzy_line_classes };

    ghost read_at = { defuzzy_line_at };

    ghost view = { view_defuzzy_line };

    #[tactic(auto, unfolding(crate::specs::Reading::either_at))]
    fn next(alloc: Global, tokens: &mut &[Token]) -> Result<Option<DefuzzyLine>, ParseError> {
        let line = match *tokens {
            [Token::Word(_, Keyword::Term), ..] => DefuzzyLine::Singleton(singleton(tokens)?),
            [Token::Word(_, Keyword::Accu), ..] => DefuzzyLine::Accu(accu(tokens)?),
            [Token::Word(_, Keyword::Method), ..] => {
                let refused = (Word::Centre, Word::Extreme);
                DefuzzyLine::Method(setting(tokens, Keyword::Method, Word::Cogs, refused, 1)?)
            }
            [Token::Word(_, Keyword::Default), ..] => DefuzzyLine::Default(fallback(tokens)?),
            [Token::Word(_, Keyword::Range), ..] => DefuzzyLine::Range(range(tokens)?),
            _ => return Ok(None),
        };
        Ok(Some(line))
    }
}

#[tactic(auto, unfolding(crate::specs::Reading::defuzzify_at), using(crate::proofs::TermParsers::defuzzy_line_take))]
fn defuzzify(alloc: Global, tokens: &mut &[Token]) -> Result<Defuzzify, ParseError>
    ensures { Gives (λ x. (view_defuzzify x, tokens.new.now)) result (defuzzify_at tokens.old.now) }
{
    let at = keyword(tokens, Keyword::Defuzzify)?;
    let name = name(tokens)?;
    let lines = many::<DefuzzyLine>(alloc, tokens)?;
    let end = keyword(tokens, Keyword::EndDefuzzify)?;
    Ok(Defuzzify {
        at,
        name,
        lines,
        end,
    })
}

// ---- both

/// One is next where a part is, or OPTION in its place.
impl Repeated for Part {
    ghost Tree = { TPart };

    ghost first = { part_classes };

    ghost read_at = { part_at };

    ghost view = { view_part };

    #[tactic(auto, unfolding(crate::specs::Reading::refusing, crate::specs::Reading::either_at))]
    fn next(alloc: Global, tokens: &mut &[Token]) -> Result<Option<Part>, ParseError> {
        let part = match *tokens {
            [Token::Word(_, Keyword::Options), ..] => return Err(fault(
                Kind::Unsupported(7),
                tokens,
            )),
            [Token::Word(_, Keyword::Fuzzify), ..] => Part::Fuzzify(fuzzify(alloc, tokens)?),
            [Token::Word(_, Keyword::Defuzzify), ..] => Part::Defuzzify(defuzzify(alloc, tokens)?),
            _ => return Ok(None),
        };
        Ok(Some(part))
    }
}
