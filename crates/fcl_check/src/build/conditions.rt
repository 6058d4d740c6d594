//! Conditions of a block from those of a tree without load faults.
//!
//! The depth of the recursion is the number of "(" and NOT open at once, at most 64 in the tree of a text.

ghost use Rattle.std.specs.Prelude.{◌≡◌, IfOk};
ghost use Rattle.fcl_check.specs.Faults.{and_pairs, not_pairs, or_pairs};
ghost use Rattle.fcl_check.specs.Loaded.{literal_of, negated, not_condition, and_condition, or_condition};
ghost use Rattle.fcl_check.specs.Sources.{block_of, text_of};
ghost use Rattle.fcl_check.specs.WellFormed.{AreKnown, IsKnown};
ghost use Rattle.fcl_syntax.specs.declared.tree.Direction.TheVariants.{Input as InputSide};

use super::source::{Source, numbers};
use fcl_syntax::{And, Direction, Node, Not, Operand, Or};
use fuzzy_meaning::Condition;
use std::alloc::AllocError;

fn literal(source: &Source<'_, '_>, operand: &Operand) -> Result<Condition, AllocError>
    requires { IsKnown (text_of source.now) (block_of source.now) InputSide operand.now.variable operand.now.term }
    ensures { IfOk result (λ c. c ≡ negated operand.now.not_at
        (literal_of (text_of source.now) (block_of source.now) operand.now.variable operand.now.term)) }
{
    let (input, term) = numbers(source, Direction::Input, operand.variable, operand.term);
    let is = Condition::is(input, term);
    if operand.not_at.is_none() {
        return Ok(is);
    }
    Condition::not(source.alloc, is)
}

#[cycle(condition)]
fn not(source: &Source<'_, '_>, part: &Not) -> Result<Condition, AllocError>
    requires { AreKnown (text_of source.now) (block_of source.now) (not_pairs part.now) }
    ensures { IfOk result (λ c. c ≡
        not_condition (literal_of (text_of source.now) (block_of source.now)) part.now) }
{
    match &part.node {
        Node::Is(operand) => literal(source, operand),
        Node::Not(_, inner) => Condition::not(source.alloc, not(source, inner)?),
        Node::Group(_, group) => or(source, group),
    }
}

#[cycle(condition)]
fn and(source: &Source<'_, '_>, and: &And) -> Result<Condition, AllocError>
    requires { AreKnown (text_of source.now) (block_of source.now) (and_pairs and.now) }
    ensures { IfOk result (λ c. c ≡
        and_condition (literal_of (text_of source.now) (block_of source.now)) and.now) }
{
    let first = not(source, &and.first)?;
    if and.more.is_empty() {
        return Ok(first);
    }
    let mut parts = Vec::new(source.alloc);
    parts.push(first)?;
    for (_, conjunct) in &and.more {
        parts.push(not(source, conjunct)?)?;
    }
    Ok(Condition::all(parts))
}

/// The condition of a rule: its parts with OR between them, or the one part that it has.
#[cycle(condition)]
pub fn or(source: &Source<'_, '_>, or: &Or) -> Result<Condition, AllocError>
    requires { AreKnown (text_of source.now) (block_of source.now) (or_pairs or.now) }
    ensures { IfOk result (λ c. c ≡
        or_condition (literal_of (text_of source.now) (block_of source.now)) or.now) }
{
    let first = and(source, &or.first)?;
    if or.more.is_empty() {
        return Ok(first);
    }
    let mut parts = Vec::new(source.alloc);
    parts.push(first)?;
    for (_, alternative) in &or.more {
        parts.push(and(source, alternative)?)?;
    }
    Ok(Condition::any(parts))
}
