//! Conditions spread into conjunctions.
ghost use Rattle.std.specs.Prelude.{◌≡◌, ◌++◌, ◌∷◌, [], map, IfOk, OnOk};
ghost use Rattle.fuzzy_meaning.specs.Conditions.{conditions};
ghost use Rattle.rule_layout.specs.Spreading.{spread_of, spread_parts, spreads, choices, literal};
ghost use Rattle.rule_layout.specs.{Grid.FitsGrid, Grid.AllFitGrid, Tables.table_literals};

use crate::flat::Slot;
use crate::slots::SlotNumbers;
use fuzzy_meaning::{Condition, Node};
use fz_list::List;
use std::alloc::{AllocError, Global};

/// The conjunctions that a condition spreads into, by the numbers of their literals' slots. `odd` is set under an
/// odd number of NOTs, where an AND is an OR and an OR an AND.
#[cycle(spread)]
pub fn conjunctions(
    alloc: Global,
    numbers: &SlotNumbers,
    condition: &Condition,
    odd: bool,
) -> Result<Vec<List<u16>>, AllocError>
    requires { FitsGrid condition.now }
    ensures { IfOk result
        (λ v. v.items ≡ table_literals numbers.now.table (spread_of odd condition.now)) }
{
    match &condition.node {
        Node::Is(input, term) => {
            let slot = if odd {
                Slot::Complement(*input, *term)
            } else {
                Slot::Term(*input, *term)
            };
            let literals = vec![in alloc; numbers.number(slot)]?;
            single(alloc, List::new(literals))
        }
        Node::Not(part) => conjunctions(alloc, numbers, part, !odd),
        Node::And(parts) => conjunctions_of_parts(alloc, numbers, parts, odd, odd),
        Node::Or(parts) => conjunctions_of_parts(alloc, numbers, parts, odd, !odd),
    }
}

/// The same for the parts of an OR, `any`, or else of an AND.
#[cycle(spread)]
fn conjunctions_of_parts(
    alloc: Global,
    numbers: &SlotNumbers,
    parts: &[Condition],
    odd: bool,
    any: bool,
) -> Result<Vec<List<u16>>, AllocError>
    requires { AllFitGrid (conditions parts.now) }
    ensures { IfOk result (λ v. v.items
        ≡ table_literals numbers.now.table (spread_parts odd any (conditions parts.now))) }
{
    let mut all = of_no_parts(alloc, any)?;
    for part in parts {
        let more = conjunctions(alloc, numbers, part, odd)?;
        all = joined(alloc, all, more, any)?;
    }
    Ok(all)
}

/// An empty OR, `any`, has no conjunction, and an empty AND has the empty one.
fn of_no_parts(alloc: Global, any: bool) -> Result<Vec<List<u16>>, AllocError>
    ensures { IfOk result (λ v. v.items ≡ spreads.none any) }
{
    if any {
        Ok(Vec::new(alloc))
    } else {
        single(alloc, List::new(Vec::new(alloc)))
    }
}

/// The conjunctions of an OR, `any`, or else of an AND, of two conditions with these.
fn joined(
    alloc: Global,
    mut front: Vec<List<u16>>,
    mut back: Vec<List<u16>>,
    any: bool,
) -> Result<Vec<List<u16>>, AllocError>
    ensures { IfOk result (λ v. v.items ≡ spreads.join any front.items back.items) }
{
    if any {
        front.append(&mut back)?;
        Ok(front)
    } else {
        extended(alloc, front, &back)
    }
}

fn single(alloc: Global, literals: List<u16>) -> Result<Vec<List<u16>>, AllocError>
    ensures { IfOk result (λ v. v.items ≡ literals ∷ []) }
{
    let mut all = Vec::new(alloc);
    all.push(literals)?;
    Ok(all)
}

/// Each head followed by each tail. A single tail is appended to the heads in place, so that an AND of many
/// literals needs no copies.
fn extended(
    alloc: Global,
    heads: Vec<List<u16>>,
    tails: &[List<u16>],
) -> Result<Vec<List<u16>>, AllocError>
    ensures { IfOk result (λ v. v.items ≡ choices heads.items tails.now) }
{
    if let [tail] = tails {
        return followed(alloc, heads, tail.as_slice());
    }
    let mut all = Vec::new(alloc);
    for head in &heads {
        push_choices(alloc, &mut all, head.as_slice(), tails)?;
    }
    Ok(all)
}

/// Each head followed by the tail.
fn followed(
    alloc: Global,
    heads: Vec<List<u16>>,
    tail: &[u16],
) -> Result<Vec<List<u16>>, AllocError>
    ensures { IfOk result (λ v. v.items ≡ map (λ head. head ++ tail.now) heads.items) }
{
    let mut all = Vec::new(alloc);
    for head in heads {
        let mut literals = head.into_vec();
        literals.extend_from_slice(tail)?;
        all.push(List::new(literals))?;
    }
    Ok(all)
}

/// Appends the head followed by each tail to the rest.
fn push_choices(
    alloc: Global,
    all: &mut Vec<List<u16>>,
    head: &[u16],
    tails: &[List<u16>],
) -> Result<(), AllocError>
    ensures { OnOk result (all.new.items ≡ all.old.items ++ map (λ tail. head.now ++ tail) tails.now) }
{
    for tail in tails {
        let mut literals = Vec::from_slice(alloc, head)?;
        literals.extend_from_slice(tail.as_slice())?;
        all.push(List::new(literals))?;
    }
    Ok(())
}
