//! What is wrong with the names and weights of rules.

ghost use Rattle.std.specs.Prelude.{◌≡◌, ◌++◌, ℕ, List, Option};
ghost use Rattle.std.specs.Fn.{FnReturnsAt};
ghost use Rattle.std.specs.List.{flat_map};
ghost use Rattle.fcl_syntax.specs.declared.{tree.Conclusion.Conclusion, tree.Operand.Operand};
ghost use Rattle.fcl_check.specs.Faults.{Pair, condition_pairs, conclusions_of, direction, mistaken, mistaken_in};
ghost use Rattle.fcl_check.specs.Faults.{mistaken_section, unknown_in, unknown_pair, unknown_section, weight_outside};
ghost use Rattle.fcl_check.specs.{Places.first, Steps.pair_of};

use super::operands::first_in_or;
use super::walk::first_at;
use crate::names::Names;
use crate::numbers::value;
use crate::parts::section_name;
use fcl_syntax::{Conclusion, Direction, Name, Operand, Part, Rule};

/// The direction in which a name is declared.
fn direction(names: &Names<'_>, name: Name) -> Option<Direction>
    ensures { result ≡ direction names.now.tree.now.text.items names.now.tree.now.block name }
{
    let variable = names.variable(names.tree.letters(name))?;
    Some(variable.direction)
}

/// The name of a section's variable, if it is not declared.
pub fn unknown_section(names: &Names<'_>, part: &Part) -> Option<u32>
    ensures { result ≡ first (unknown_section names.now.tree.now.text.items names.now.tree.now.block part.now) }
{
    let name = section_name(part);
    match direction(names, name) {
        Some(_) => None,
        None => Some(name.at),
    }
}

/// The first offset that is found at an operand of a rule, or else at a conclusion.
#[tactic(auto, using(crate::proofs::Places::firsts))]
fn first_in<O: Fn(&Operand) -> Option<u32>, C: Fn(&Conclusion) -> Option<u32>>(
    rule: &Rule,
    operand: O,
    conclusion: C,
) -> Option<u32>
    requires operand { O.IsAlwaysCallable operand }
    requires conclusion { C.IsAlwaysCallable conclusion }
    ensures { (in_pair : Pair → List ℕ) (in_conclusion : Conclusion → List ℕ)
        → ((o : Operand) (at : Option ℕ) → FnReturnsAt O.Fn operand o at → at ≡ first (in_pair (pair_of o)))
        → ((c : Conclusion) (at : Option ℕ) → FnReturnsAt C.Fn conclusion c at → at ≡ first (in_conclusion c))
        → result ≡ first (flat_map in_pair (condition_pairs rule.now) ++ flat_map in_conclusion
        (conclusions_of rule.now)) }
{
    if let Some(at) = first_in_or(&rule.condition, &operand) {
        return Some(at);
    }
    if let Some(at) = conclusion(&rule.first) {
        return Some(at);
    }
    first_at(rule.more.as_slice(), conclusion)
}

/// A variable that is not declared, or a term that it does not have where it stands on its side.
fn unknown_pair(names: &Names<'_>, side: Direction, variable: Name, term: Name) -> Option<u32>
    ensures { result ≡ first (unknown_pair names.now.tree.now.text.items names.now.tree.now.block side variable
        term) }
{
    match direction(names, variable) {
        None => Some(variable.at),
        Some(found) => {
            let (letters, of) = (names.tree.letters(variable), names.tree.letters(term));
            if found == side && names.term(side, letters, of).is_none() {
                Some(term.at)
            } else {
                None
            }
        }
    }
}

/// The first name of a rule that is unknown.
pub fn unknown_name(names: &Names<'_>, rule: &Rule) -> Option<u32>
    ensures { result ≡ first (unknown_in names.now.tree.now.text.items names.now.tree.now.block rule.now) }
{
    first_in(
        rule,
        |operand| unknown_pair(names, Direction::Input, operand.variable, operand.term),
        |conclusion| unknown_pair(
            names,
            Direction::Output,
            conclusion.variable,
            conclusion.term,
        ),
    )
}

/// The WITH of a weight below 0 or above 1.
pub fn weight_outside(rule: &Rule) -> Option<u32>
    ensures { result ≡ first (weight_outside rule.now) }
{
    let weight = rule.weight?;
    let w = value(weight.value);
    if w.0 < 0 || 10_000 < w.0 {
        Some(weight.at)
    } else {
        None
    }
}

/// The name, where its variable is not of this direction.
fn mistaken(names: &Names<'_>, side: Direction, name: Name) -> Option<u32>
    ensures { result ≡ first (mistaken names.now.tree.now.text.items names.now.tree.now.block side name) }
{
    if direction(names, name)? == side {
        None
    } else {
        Some(name.at)
    }
}

/// The name of a section of the wrong sort for its variable.
pub fn mistaken_section(names: &Names<'_>, part: &Part) -> Option<u32>
    ensures { result ≡ first (mistaken_section names.now.tree.now.text.items names.now.tree.now.block part.now) }
{
    match part {
        Part::Fuzzify(section) => mistaken(names, Direction::Input, section.name),
        Part::Defuzzify(section) => mistaken(names, Direction::Output, section.name),
    }
}

/// The first variable of a rule that is on the wrong side.
pub fn mistaken_name(names: &Names<'_>, rule: &Rule) -> Option<u32>
    ensures { result ≡ first (mistaken_in names.now.tree.now.text.items names.now.tree.now.block rule.now) }
{
    first_in(
        rule,
        |operand| mistaken(names, Direction::Input, operand.variable),
        |conclusion| mistaken(names, Direction::Output, conclusion.variable),
    )
}
