//! The masses of literals and rules over a box, in whole parts.
//!
//! Rounding keeps the order, so the mass of an AND is the least of the masses of its parts, and that of an OR the
//! greatest: those of literals are computed once for each term of a box, and rules without a weight need no fraction.
ghost use Rattle.std.specs.Prelude.{◌≡◌, ◌≤◌, ◌<◌, ◌-◌, ◌*◌, ◌/◌, IfNone, IfSome, IsTrue, Some, length, map};
ghost use Rattle.std.specs.Prelude.{slice_get};
ghost use Rattle.fz_num.specs.Fractions.{up_div};
ghost use Rattle.fuzzy_meaning.specs.{declared.block.Rule.Rule as TheRule, Blocks.IsValidCondition};
ghost use Rattle.fuzzy_meaning.specs.{Blocks.AreValidConditions, Conditions.all, Conditions.conditions};
ghost use Rattle.fuzzy_meaning.specs.{Conditions.group as group_of};
ghost use Rattle.error_bound.specs.{Flattening.is_any, Masses.AreJoined, Masses.AreMassesOfNone};
ghost use Rattle.error_bound.specs.Ratios.{value_of, IsStrengthRatio};
ghost use Rattle.error_bound.specs.Masses.{AreMassEnds, AreEndsOfCondition, IsAtMost, IsConditionWithin};
ghost use Rattle.error_bound.specs.Masses.{IsRuleMass, IsRuleWithin};
ghost use Rattle.error_bound.specs.Reaches.{AreLiteralsOf, IsTable, block_of, box_of, byte_span_of_ends, literal_of};
ghost use Rattle.error_bound.specs.Reaches.{span_of_ends};
ghost use Rattle.cell_error.specs.Errors.{whole_mass};

use crate::ends::{Ends, ends_of};
use crate::flattening::Group;
use crate::ratio::Ratio;
use crate::reaches::{Literal, literal_in, reach_of_literal};
use crate::tables::BoxTable;
use fuzzy_meaning::laws::parts_are_valid;
use fuzzy_meaning::{Condition, Node};

/// The range of a truth over a box: the least, rounded down, and the greatest, rounded up, in parts of 255 * 10^9,
/// and those over bytes.
#[derive(Clone, Copy)]
pub(crate) struct MassEnds {
    pub(crate) low: u64,
    pub(crate) high: u64,
    pub(crate) byte_low: u64,
    pub(crate) byte_high: u64,
}

impl MassEnds {
    /// Those of what is true nowhere.
    pub(crate) const NOTHING: MassEnds = MassEnds {
        low: 0,
        high: 0,
        byte_low: 0,
        byte_high: 0,
    };

    /// Those of what is true everywhere, as an AND of no parts is.
    pub(crate) const ALL: MassEnds = MassEnds {
        low: 255_000_000_000,
        high: 255_000_000_000,
        byte_low: 255,
        byte_high: 255,
    };

    /// Those of truths between two ends.
    pub(crate) fn of(ends: Ends) -> MassEnds
        requires low { IsStrengthRatio ends.low.truth }
        requires high { IsStrengthRatio ends.high.truth }
        ensures { AreMassEnds (span_of_ends ends) (byte_span_of_ends ends) result }
    {
        MassEnds {
            low: low_part(ends.low.truth),
            high: high_part(ends.high.truth),
            byte_low: u64::from(ends.low.byte),
            byte_high: u64::from(ends.high.byte),
        }
    }

    /// Those under a NOT.
    pub(crate) fn opposite(self) -> MassEnds
        requires low { self.low ≤ whole_mass }
        requires high { self.high ≤ whole_mass }
        requires byte_low { self.byte_low ≤ 255 }
        requires byte_high { self.byte_high ≤ 255 }
        ensures low { result.low ≡ whole_mass - self.high }
        ensures high { result.high ≡ whole_mass - self.low }
        ensures byte_low { result.byte_low ≡ 255 - self.byte_high }
        ensures byte_high { result.byte_high ≡ 255 - self.byte_low }
    {
        MassEnds {
            low: 255_000_000_000 - self.high,
            high: 255_000_000_000 - self.low,
            byte_low: 255 - self.byte_high,
            byte_high: 255 - self.byte_low,
        }
    }

    /// Those of an OR or an AND of no parts.
    #[inline]
    fn of_none(group: Group) -> MassEnds
        ensures { AreMassesOfNone (is_any group) result }
    {
        match group {
            Group::Any => MassEnds::NOTHING,
            Group::All => MassEnds::ALL,
        }
    }

    /// The greater at each end for an OR, the lesser for an AND.
    #[inline]
    fn joined(self, group: Group, other: MassEnds) -> MassEnds
        ensures { AreJoined (is_any group) self other result }
    {
        match group {
            Group::Any => MassEnds {
                low: self.low.max(other.low),
                high: self.high.max(other.high),
                byte_low: self.byte_low.max(other.byte_low),
                byte_high: self.byte_high.max(other.byte_high),
            },
            Group::All => MassEnds {
                low: self.low.min(other.low),
                high: self.high.min(other.high),
                byte_low: self.byte_low.min(other.byte_low),
                byte_high: self.byte_high.min(other.byte_high),
            },
        }
    }

    /// Whether no end is above the other's.
    #[inline]
    fn is_within(self, other: MassEnds) -> bool
        ensures { IsTrue result → IsAtMost self other }
    {
        self.high <= other.high
            && self.low <= other.low
            && self.byte_high <= other.byte_high
            && self.byte_low <= other.byte_low
    }
}

/// A truth in parts of 255 * 10^9, rounded down. Most truths are 0 or 1 and need no division.
fn low_part(truth: Ratio) -> u64
    requires { IsStrengthRatio truth }
    ensures value { result ≡ whole_mass * (value_of truth).num / (value_of truth).den }
    ensures small { result ≤ whole_mass }
{
    if truth.num == 0 {
        0
    } else if truth.num == truth.den {
        255_000_000_000
    } else {
        (255_000_000_000 * u128::from(truth.num) / u128::from(truth.den)) as u64
    }
}

/// The same, rounded up.
fn high_part(truth: Ratio) -> u64
    requires { IsStrengthRatio truth }
    ensures value { result ≡ up_div (whole_mass * (value_of truth).num) (value_of truth).den }
    ensures small { result ≤ whole_mass }
{
    if truth.num == 0 {
        0
    } else if truth.num == truth.den {
        255_000_000_000
    } else {
        let den = u128::from(truth.den);
        ((255_000_000_000 * u128::from(truth.num) + (den - 1)) / den) as u64
    }
}

impl BoxTable<'_> {
    /// The range of the strength of the rule at an index, or `None` if it is within `so_far`.
    pub(crate) fn mass_above(&self, place: usize, so_far: MassEnds) -> Option<MassEnds>
        requires table { IsTable self.now }
        requires place { place < length (block_of self.now).rules }
        ensures mass { IfSome result (λ m. (r : TheRule) → slice_get (block_of self.now).rules place ≡ Some r
            → IsRuleMass (block_of self.now) (box_of self.now) r m) }
        ensures within { IfNone result ((r : TheRule) → slice_get (block_of self.now).rules place ≡ Some r
            → IsRuleWithin (block_of self.now) (box_of self.now) r so_far) }
    {
        match self.literals_of(place) {
            Some(literals) => least_above(literals, so_far, self),
            None => Some(self.mass_of_rule(place)),
        }
    }

    /// The literals of which the condition of the rule at an index is an AND, where they are kept: the rule has no
    /// weight then.
    fn literals_of(&self, place: usize) -> Option<&[Literal]>
        requires table { IsTable self.now }
        requires place { place < length (block_of self.now).rules }
        ensures { IfSome result (λ ls. (r : TheRule) → slice_get (block_of self.now).rules place ≡ Some r
            → AreLiteralsOf (block_of self.now) r ls.now) }
    {
        match &self.table.kept {
            Some(kept) => match &kept.literals[place] {
                Some(literals) => Some(literals.as_slice()),
                None => None,
            },
            None => None,
        }
    }

    /// The range of the strength of the rule at an index.
    fn mass_of_rule(&self, place: usize) -> MassEnds
        requires table { IsTable self.now }
        requires place { place < length (block_of self.now).rules }
        ensures { (r : TheRule) → slice_get (block_of self.now).rules place ≡ Some r
            → IsRuleMass (block_of self.now) (box_of self.now) r result }
    {
        let rule = &self.table.block.rules.as_slice()[place];
        if rule.weight.is_some() {
            MassEnds::of(self.ends_of_rule(place))
        } else {
            mass_of(self.condition_of(place, rule), self)
        }
    }
}

/// The range of an AND of literals, or `None` if it is within `so_far`, as it is where some of them are.
fn least_above(literals: &[Literal], so_far: MassEnds, table: &BoxTable) -> Option<MassEnds>
    requires literals { AreValidConditions (block_of table.now) (conditions (map literal_of literals.now)) }
    requires table { IsTable table.now }
    ensures mass { IfSome result (AreEndsOfCondition (block_of table.now) (box_of table.now)
        (all (conditions (map literal_of literals.now)))) }
    ensures within { IfNone result (IsConditionWithin (block_of table.now) (box_of table.now)
        (all (conditions (map literal_of literals.now))) so_far) }
{
    let mut least = MassEnds::ALL;
    for k in (0..literals.len()).rev() {
        least = mass_of_literal(literals[k], table).joined(Group::All, least);
        if least.is_within(so_far) {
            return None;
        }
    }
    Some(least)
}

/// The range of a condition's truth over a box.
#[cycle(masses)]
fn mass_of(condition: &Condition, table: &BoxTable) -> MassEnds
    requires condition { IsValidCondition (block_of table.now) condition.now }
    requires table { IsTable table.now }
    ensures { AreEndsOfCondition (block_of table.now) (box_of table.now) condition.now result }
{
    match &condition.node {
        Node::And(parts) => mass_among(parts.as_slice(), Group::All, table),
        Node::Or(parts) => mass_among(parts.as_slice(), Group::Any, table),
        _ => MassEnds::of(ends_of(condition, table)),
    }
}

/// The range of an OR or an AND of these parts. Most parts are literals, which need no further call.
#[cycle(masses)]
fn mass_among(parts: &[Condition], group: Group, table: &BoxTable) -> MassEnds
    requires parts { AreValidConditions (block_of table.now) (conditions parts.now) }
    requires table { IsTable table.now }
    ensures { AreEndsOfCondition (block_of table.now) (box_of table.now)
        (group_of (is_any group) (conditions parts.now)) result }
{
    parts_are_valid();
    let mut joined = MassEnds::of_none(group);
    for k in (0..parts.len()).rev() {
        let part = &parts[k];
        let mass = match literal_in(part) {
            Some(literal) => mass_of_literal(literal, table),
            None => mass_of(part, table),
        };
        joined = mass.joined(group, joined);
    }
    joined
}

#[inline]
fn mass_of_literal(literal: Literal, table: &BoxTable) -> MassEnds
    requires literal { IsValidCondition (block_of table.now) (literal_of literal) }
    requires table { IsTable table.now }
    ensures { AreEndsOfCondition (block_of table.now) (box_of table.now) (literal_of literal) result }
{
    let reach = reach_of_literal(literal.input, literal.term, table);
    if literal.negated {
        reach.opposite
    } else {
        reach.mass
    }
}
