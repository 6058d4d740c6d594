//! Flat conditions, for many boxes.
//!
//! AND and OR spread into the rule list, which has little room. But a text may nest them 64 deep with a NOT at each
//! level, and walking through that takes a call for each. A flat condition has NOT at literals only, and no AND
//! directly in an AND nor OR directly in an OR, so that most of the walk is one loop over literals.
ghost use Rattle.std.specs.Prelude.{◌≡◌, IfOk, OnOk, not};
ghost use Rattle.fuzzy_meaning.specs.Conditions.{conditions, group as group_of, under as under_of};
ghost use Rattle.error_bound.specs.Flattening.{is_any as is_any_of, followed, parts as parts_of, flat_under};
ghost use Rattle.error_bound.specs.Flattening.{flat_parts, flat};

use fuzzy_meaning::{Condition, Node};
use std::alloc::{AllocError, Global};

/// Whether parts are joined by OR or by AND.
#[derive(Clone, Copy)]
pub(crate) enum Group {
    Any,
    All,
}

impl Group {
    /// What a group of this kind comes to under an odd number of NOTs, or an even one.
    fn under(self, odd: bool) -> Group
        ensures all { self ≡ Group.All → is_any_of result ≡ odd }
        ensures any { self ≡ Group.Any → is_any_of result ≡ not odd }
    {
        match (self, odd) {
            (Group::Any, false) | (Group::All, true) => Group::Any,
            (Group::Any, true) | (Group::All, false) => Group::All,
        }
    }

    fn is_any(self) -> bool
        ensures { result ≡ is_any_of self }
    {
        match self {
            Group::Any => true,
            Group::All => false,
        }
    }
}

/// The flat condition of a condition.
pub(crate) fn flattened(alloc: Global, condition: &Condition) -> Result<Condition, AllocError>
    ensures { IfOk result (λ c. c ≡ flat condition.now) }
{
    let mut pieces = Vec::new(alloc);
    push_pieces(alloc, condition, Group::All, false, &mut pieces)?;
    Ok(Condition::all(pieces))
}

/// Appends the flat form of a condition to the parts of a group. `odd` means that it is under
/// an odd number of NOTs.
#[cycle(flattening)]
fn push_pieces(
    alloc: Global,
    condition: &Condition,
    outer: Group,
    odd: bool,
    pieces: &mut Vec<Condition>,
) -> Result<(), AllocError>
    ensures { OnOk result (conditions pieces.new.items
        ≡ followed (conditions pieces.old.items) (parts_of (is_any_of outer) (flat_under odd condition.now))) }
{
    match &condition.node {
        Node::Is(input, term) => {
            let literal = under(alloc, Condition::is(*input, *term), odd)?;
            pieces.push(literal)?;
            Ok(())
        }
        Node::Not(part) => push_pieces(alloc, part, outer, !odd, pieces),
        Node::And(parts) => push_group(alloc, parts, outer, Group::All.under(odd), odd, pieces),
        Node::Or(parts) => push_group(alloc, parts, outer, Group::Any.under(odd), odd, pieces),
    }
}

/// Appends a group of parts to the parts of another group.
#[cycle(flattening)]
fn push_group(
    alloc: Global,
    parts: &[Condition],
    outer: Group,
    group: Group,
    odd: bool,
    pieces: &mut Vec<Condition>,
) -> Result<(), AllocError>
    ensures { OnOk result (conditions pieces.new.items ≡ followed (conditions pieces.old.items)
        (parts_of (is_any_of outer) (flat_parts odd (is_any_of group) (conditions parts.now)))) }
{
    if group.is_any() == outer.is_any() {
        return push_each(alloc, parts, group, odd, pieces);
    }
    let mut inner = Vec::new(alloc);
    push_each(alloc, parts, group, odd, &mut inner)?;
    pieces.push(grouped(inner, group))?;
    Ok(())
}

/// The OR of these parts, or the AND.
fn grouped(parts: Vec<Condition>, group: Group) -> Condition
    ensures { result ≡ group_of (is_any_of group) (conditions parts.items) }
{
    match group {
        Group::Any => Condition::any(parts),
        Group::All => Condition::all(parts),
    }
}

/// Appends the flat form of each part to the parts of a group of the same kind.
#[cycle(flattening)]
fn push_each(
    alloc: Global,
    parts: &[Condition],
    group: Group,
    odd: bool,
    pieces: &mut Vec<Condition>,
) -> Result<(), AllocError>
    ensures { OnOk result (conditions pieces.new.items ≡ followed (conditions pieces.old.items)
        (parts_of (is_any_of group) (flat_parts odd (is_any_of group) (conditions parts.now)))) }
{
    for part in parts {
        push_pieces(alloc, part, group, odd, pieces)?;
    }
    Ok(())
}

/// The condition, or its negation if `odd`.
fn under(alloc: Global, condition: Condition, odd: bool) -> Result<Condition, AllocError>
    ensures { IfOk result (λ c. c ≡ under_of odd condition) }
{
    if !odd {
        return Ok(condition);
    }
    Condition::not(alloc, condition)
}
