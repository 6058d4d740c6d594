//! The operands of a condition, in the order of the text.

ghost use Rattle.std.specs.Prelude.{◌≡◌, ℕ, List, Option};
ghost use Rattle.std.specs.Fn.{FnReturnsAt};
ghost use Rattle.std.specs.List.{flat_map};
ghost use Rattle.fcl_check.specs.Faults.{Pair, and_pairs, not_pairs, or_pairs};
ghost use Rattle.fcl_check.specs.{Places.first, Steps.pair_of};
ghost use Rattle.fcl_syntax.specs.declared.tree.Operand.{Operand};

use fcl_syntax::{And, Node, Not, Operand, Or};

/// The first offset that `place` finds at an operand of a condition.
#[cycle(operands)]
pub fn first_in_or<F: Fn(&Operand) -> Option<u32>>(or: &Or, place: &F) -> Option<u32>
    requires { F.IsAlwaysCallable place.now }
    ensures { (places : Pair → List ℕ) → ((o : Operand) (at : Option ℕ) → FnReturnsAt F.Fn place.now o at → at ≡
        first (places (pair_of o))) → result ≡ first (flat_map places (or_pairs or.now)) }
{
    if let Some(at) = first_in_and(&or.first, place) {
        return Some(at);
    }
    for (_, alternative) in &or.more {
        if let Some(at) = first_in_and(alternative, place) {
            return Some(at);
        }
    }
    None
}

#[cycle(operands)]
fn first_in_and<F: Fn(&Operand) -> Option<u32>>(and: &And, place: &F) -> Option<u32>
    requires { F.IsAlwaysCallable place.now }
    ensures { (places : Pair → List ℕ) → ((o : Operand) (at : Option ℕ) → FnReturnsAt F.Fn place.now o at → at ≡
        first (places (pair_of o))) → result ≡ first (flat_map places (and_pairs and.now)) }
{
    if let Some(at) = first_in_not(&and.first, place) {
        return Some(at);
    }
    for (_, conjunct) in &and.more {
        if let Some(at) = first_in_not(conjunct, place) {
            return Some(at);
        }
    }
    None
}

#[cycle(operands)]
fn first_in_not<F: Fn(&Operand) -> Option<u32>>(not: &Not, place: &F) -> Option<u32>
    requires { F.IsAlwaysCallable place.now }
    ensures { (places : Pair → List ℕ) → ((o : Operand) (at : Option ℕ) → FnReturnsAt F.Fn place.now o at → at ≡
        first (places (pair_of o))) → result ≡ first (flat_map places (not_pairs not.now)) }
{
    match &not.node {
        Node::Not(_, part) => first_in_not(part, place),
        Node::Group(_, group) => first_in_or(group, place),
        Node::Is(operand) => place(operand),
    }
}
