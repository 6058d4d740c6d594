//! The kinds of faults in a whole tree, each at its first offset.

ghost use Rattle.std.specs.Prelude.{◌≡◌, ◌++◌, ℕ, List, [], Option, option_map, slice_get};
ghost use Rattle.std.specs.Fn.{FnReturnsAt};
ghost use Rattle.std.specs.List.{flat_map, list_any};
ghost use Rattle.fcl_syntax.specs.declared.tree.Direction.TheVariants as side;
ghost use Rattle.fcl_syntax.specs.declared.{tree.Part.Part as PartNode, tree.Rule.Rule as RuleNode};
ghost use Rattle.fcl_check.specs.Faults.{is_declared_as, is_over, is_whole, mistaken_section, missing_part, too_many};
ghost use Rattle.fcl_check.specs.Faults.{unknown, unknown_section, weight_outside, without_section, wrong_side};
ghost use Rattle.fcl_check.specs.Names.{Declared, declared_in, is_direction};
ghost use Rattle.fcl_check.specs.{Places.at_each, Places.at_if, Places.first, Steps.room_behind};
ghost use Rattle.fcl_check.specs.Sections.{bad_range, falling_points, incomplete, numbers_outside, points_outside};
ghost use Rattle.fcl_check.specs.Sections.{shapeless_terms, terms_over_limit, without_terms};

use super::rules::{
    mistaken_name, mistaken_section, unknown_name, unknown_section, weight_outside,
};
use super::sections::{
    bad_range, falling_point, incomplete, number_outside, point_outside, shapeless_term,
    term_over_limit, without_terms,
};
use super::walk::first_at;
use crate::names::Names;
use fcl_syntax::{Direction, Name, Part, Rule, Tree};

/// How many inputs, outputs and rules a block may have.
const INPUTS: usize = 8;

const OUTPUTS: usize = 4;

const RULES: usize = 256;

/// The first place at a section, or else at a rule.
#[tactic(auto, using(crate::proofs::Places::firsts))]
fn first_in<S: Fn(&Part) -> Option<u32>, R: Fn(&Rule) -> Option<u32>>(
    tree: &Tree,
    section: S,
    rule: R,
) -> Option<u32>
    requires section { S.IsAlwaysCallable section }
    requires rule { R.IsAlwaysCallable rule }
    ensures { (in_section : PartNode → List ℕ) (in_rule : RuleNode → List ℕ)
        → ((p : PartNode) (at : Option ℕ) → FnReturnsAt S.Fn section p at → at ≡ first (in_section p))
        → ((r : RuleNode) (at : Option ℕ) → FnReturnsAt R.Fn rule r at → at ≡ first (in_rule r))
        → result ≡ first (flat_map in_section tree.now.block.parts ++ flat_map in_rule
        tree.now.block.rules.rules) }
{
    match first_at(tree.block.parts.as_slice(), section) {
        Some(at) => Some(at),
        None => first_at(tree.block.rules.rules.as_slice(), rule),
    }
}

/// A name of a section or of a rule that is unknown.
pub fn unknown(names: &Names<'_>) -> Option<u32>
    ensures { result ≡ first (unknown names.now.tree.now.text.items names.now.tree.now.block) }
{
    first_in(
        names.tree,
        |part| unknown_section(names, part),
        |rule| unknown_name(names, rule),
    )
}

/// A section without TERM.
pub fn no_terms(parts: &[Part]) -> Option<u32>
    ensures { result ≡ first (flat_map without_terms parts.now) }
{
    first_at(parts, without_terms)
}

/// How many more inputs and outputs there may be.
#[derive(Clone, Copy)]
struct Room {
    inputs: usize,
    outputs: usize,
}

impl Room {
    /// What is left behind one more of a direction.
    fn behind(self, direction: Direction) -> Option<Room>
        ensures { result ≡ room_behind self direction }
    {
        match direction {
            Direction::Input => Some(Room {
                inputs: self.inputs.checked_sub(1)?,
                ..self
            }),
            Direction::Output => Some(Room {
                outputs: self.outputs.checked_sub(1)?,
                ..self
            }),
        }
    }
}

/// The first declared name of a direction past so many of them.
fn declared_over_limit(declared: &[(Direction, Name)]) -> Option<u32>
    ensures { result ≡ first (at_each (λ (before : List Declared) (d : Declared). at_if
        (is_over before d) d.1.at) [] declared.now) }
{
    let mut room = Room {
        inputs: INPUTS,
        outputs: OUTPUTS,
    };
    for (direction, name) in declared {
        match room.behind(*direction) {
            Some(left) => room = left,
            None => return Some(name.at),
        }
    }
    None
}

fn terms_over_limit(parts: &[Part]) -> Option<u32>
    ensures { result ≡ first (flat_map terms_over_limit parts.now) }
{
    first_at(parts, term_over_limit)
}

fn rule_over_limit(rules: &[Rule]) -> Option<u32>
    ensures { result ≡ option_map (λ (r : RuleNode). r.at) (slice_get rules.now 256) }
{
    rules.get(RULES).map(|rule| rule.at)
}

/// An input, an output, a term or a rule over its limit.
pub fn too_many(names: &Names<'_>) -> Option<u32>
    ensures { result ≡ first (too_many names.now.tree.now.text.items names.now.tree.now.block) }
{
    declared_over_limit(&names.declared)
        .or_else(|| terms_over_limit(names.tree.block.parts.as_slice()))
        .or_else(|| rule_over_limit(names.tree.block.rules.rules.as_slice()))
}

/// A point that is below the one before it.
pub fn points_not_ascending(parts: &[Part]) -> Option<u32>
    ensures { result ≡ first (flat_map falling_points parts.now) }
{
    first_at(parts, falling_point)
}

/// A term that is no trapezoid.
pub fn term_shape(parts: &[Part]) -> Option<u32>
    ensures { result ≡ first (flat_map shapeless_terms parts.now) }
{
    first_at(parts, shapeless_term)
}

/// A point outside its RANGE.
pub fn term_outside(parts: &[Part]) -> Option<u32>
    ensures { result ≡ first (flat_map points_outside parts.now) }
{
    first_at(parts, point_outside)
}

/// A range that is empty, or points that are all the same.
pub fn bad_ranges(names: &Names<'_>) -> Option<u32>
    ensures { result ≡ first (flat_map
        (bad_range (is_declared_as names.now.tree.now.text.items names.now.tree.now.block side.Input))
        names.now.tree.now.block.parts) }
{
    first_at(
        names.tree.block.parts.as_slice(),
        |part| bad_range(names, part),
    )
}

/// A singleton or DEFAULT outside its RANGE.
pub fn singletons_outside(parts: &[Part]) -> Option<u32>
    ensures { result ≡ first (flat_map numbers_outside parts.now) }
{
    first_at(parts, number_outside)
}

/// A weight below 0 or above 1.
pub fn weights_outside(rules: &[Rule]) -> Option<u32>
    ensures { result ≡ first (flat_map weight_outside rules.now) }
{
    first_at(rules, weight_outside)
}

/// An output where an input belongs, or the other way round.
pub fn wrong_side(names: &Names<'_>) -> Option<u32>
    ensures { result ≡ first (wrong_side names.now.tree.now.text.items names.now.tree.now.block) }
{
    first_in(
        names.tree,
        |part| mistaken_section(names, part),
        |rule| mistaken_name(names, rule),
    )
}

fn without_section(names: &Names<'_>) -> Option<u32>
    ensures { result ≡ first (flat_map (without_section names.now.tree.now.text.items names.now.tree.now.block)
        (declared_in names.now.tree.now.block)) }
{
    first_at(&names.declared, |(_, name)| {
        if names.has_section(names.tree.letters(*name)) {
            None
        } else {
            Some(name.at)
        }
    })
}

fn has_direction(declared: &[(Direction, Name)], wanted: Direction) -> bool
    ensures { result ≡ list_any (λ (d : Declared). is_direction wanted d.0) declared.now }
{
    declared.iter().any(|(direction, _)| *direction == wanted)
}

fn is_whole(names: &Names<'_>) -> bool
    ensures { result ≡ is_whole names.now.tree.now.text.items names.now.tree.now.block }
{
    has_direction(&names.declared, Direction::Input)
        && has_direction(&names.declared, Direction::Output)
        && !names.tree.block.rules.rules.as_slice().is_empty()
}

/// A section, a line of one, an input, an output or a rule that is missing.
#[tactic(auto, using(crate::proofs::Places::firsts))]
pub fn missing_part(names: &Names<'_>) -> Option<u32>
    ensures { result ≡ first (missing_part names.now.tree.now.text.items names.now.tree.now.block) }
{
    if let Some(at) = without_section(names) {
        return Some(at);
    }
    match first_at(names.tree.block.parts.as_slice(), incomplete) {
        None if !is_whole(names) => Some(names.tree.block.end),
        at => at,
    }
}
