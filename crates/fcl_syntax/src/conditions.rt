//! Conditions, with a bound on the number of "(" and NOT that are open at once.

ghost use Rattle.std.specs.Prelude.{◌≡◌};
ghost use Rattle.fcl_syntax.specs.TokenClasses.{follow_classes, opener_classes};
ghost use Rattle.fcl_syntax.specs.Readers.{Gives, starts};
ghost use Rattle.fcl_syntax.specs.Reading.{not_word_at, operand_at, not_at, opened_in, behind_keys_in, and_in, or_in};

use crate::fault::{Fault, Kind, ParseError};
use crate::single::{expect, fault, keyword, name, open, optional_keyword};
use crate::tree::{And, Node, Not, Operand, Or};
use fcl_tokens::{Keyword, Token};
use std::alloc::Global;

/// Whether what may follow an operand is next.
fn is_behind_operand(tokens: &[Token]) -> bool
    ensures { result ≡ starts follow_classes tokens.now }
{
    matches!(
        tokens,
        [
            Token::Word(_, Keyword::And | Keyword::Or | Keyword::Then) | Token::Close,
            ..
        ]
    )
}

/// name IS [NOT] name, unless a condition's operand ends behind the first name.
#[tactic(auto, unfolding(crate::specs::Reading::operand_at, crate::specs::Reading::not_word_at))]
fn operand(tokens: &mut &[Token]) -> Result<Not, ParseError>
    ensures { Gives (λ x. (x, tokens.new.now)) result (operand_at tokens.old.now) }
{
    let variable = name(tokens)?;
    if is_behind_operand(tokens) {
        return Err(ParseError::Fault(Fault {
            kind: Kind::Unsupported(12),
            left: tokens.len() + 1,
        }));
    }
    let is_at = keyword(tokens, Keyword::Is)?;
    let not_at = optional_keyword(tokens, Keyword::Not);
    let term = name(tokens)?;
    Ok(Not {
        node: Node::Is(Operand {
            variable,
            is_at,
            not_at,
            term,
        }),
    })
}

/// Whether "(" or NOT is next.
fn is_opener(tokens: &[Token]) -> bool
    ensures { result ≡ starts opener_classes tokens.now }
{
    matches!(tokens, [Token::Word(_, Keyword::Not) | Token::Open(_), ..])
}

/// A part of a condition, where `room` more "(" and NOT may be open.
#[cycle(condition)]
fn not(alloc: Global, room: u8, tokens: &mut &[Token]) -> Result<Not, ParseError>
    ensures { Gives (λ x. (x, tokens.new.now)) result (not_at room tokens.old.now) }
{
    if !is_opener(tokens) {
        return operand(tokens);
    }
    if room == 0 {
        return Err(fault(Kind::Deep, tokens));
    }
    opened(alloc, room - 1, tokens)
}

#[cycle(condition)]
#[tactic(auto, unfolding(crate::specs::Reading::opened_in, crate::specs::Reading::neg_in, crate::specs::Reading::group_in))]
fn opened(alloc: Global, room: u8, tokens: &mut &[Token]) -> Result<Not, ParseError>
    ensures { Gives (λ x. (x, tokens.new.now)) result (opened_in (not_at room) tokens.old.now) }
{
    if let Some(at) = optional_keyword(tokens, Keyword::Not) {
        let part = not(alloc, room, tokens)?;
        let part = Box::new(alloc, part)?;
        return Ok(Not {
            node: Node::Not(at, part),
        });
    }
    let at = open(tokens)?;
    let group = or(alloc, room, tokens)?;
    expect(tokens, Token::Close)?;
    let group = Box::new(alloc, group)?;
    Ok(Not {
        node: Node::Group(at, group),
    })
}

#[cycle(condition)]
fn conjuncts(alloc: Global, room: u8, tokens: &mut &[Token]) -> Result<Vec<(u32, Not)>, ParseError>
    ensures { Gives (λ x. (x.items, tokens.new.now)) result (behind_keys_in Keyword.And (not_at room) tokens.old.now) }
{
    let mut more = Vec::new(alloc);
    'each: while let Some(at) = optional_keyword(tokens, Keyword::And) {
        let part = not(alloc, room, tokens)?;
        more.push((at, part))?;
    }
    Ok(more)
}

#[cycle(condition)]
#[tactic(auto, unfolding(crate::specs::Reading::joined_in))]
fn and(alloc: Global, room: u8, tokens: &mut &[Token]) -> Result<And, ParseError>
    ensures { Gives (λ x. (x, tokens.new.now)) result (and_in (not_at room) tokens.old.now) }
{
    let first = not(alloc, room, tokens)?;
    let more = conjuncts(alloc, room, tokens)?;
    Ok(And { first, more })
}

#[cycle(condition)]
fn alternatives(
    alloc: Global,
    room: u8,
    tokens: &mut &[Token],
) -> Result<Vec<(u32, And)>, ParseError>
    ensures { Gives (λ x. (x.items, tokens.new.now)) result
        (behind_keys_in Keyword.Or (and_in (not_at room)) tokens.old.now) }
{
    let mut more = Vec::new(alloc);
    'each: while let Some(at) = optional_keyword(tokens, Keyword::Or) {
        let part = and(alloc, room, tokens)?;
        more.push((at, part))?;
    }
    Ok(more)
}

/// A condition in which `room` more "(" and NOT may be open.
#[cycle(condition)]
#[tactic(auto, unfolding(crate::specs::Reading::joined_in))]
pub fn or(alloc: Global, room: u8, tokens: &mut &[Token]) -> Result<Or, ParseError>
    ensures { Gives (λ x. (x, tokens.new.now)) result (or_in (not_at room) tokens.old.now) }
{
    let first = and(alloc, room, tokens)?;
    let more = alternatives(alloc, room, tokens)?;
    Ok(Or { first, more })
}
