//! The greatest and the least truths of conditions over a box.
ghost use Rattle.std.specs.Prelude.{◌≡◌, ◌-◌};
ghost use Rattle.fz_num.specs.Fractions.{one_minus};
ghost use Rattle.fuzzy_meaning.specs.Blocks.{IsValidCondition, AreValidConditions};
ghost use Rattle.fuzzy_meaning.specs.Conditions.{all, conditions, group as group_of, is, levels, under};
ghost use Rattle.fuzzy_meaning.specs.Meaning.{truths};
ghost use Rattle.error_bound.specs.Spans.{end_of as end_of_span, other as other_side};
ghost use Rattle.error_bound.specs.{Flattening.is_any, Ratios.value_of, Ratios.IsDegreeRatio};
ghost use Rattle.error_bound.specs.Reaches.{span_of, byte_span_of, IsSmall, IsTable, IsEndOfCondition};
ghost use Rattle.error_bound.specs.Reaches.{block_of, box_of};

use crate::flattening::Group;
use crate::ratio::Ratio;
use crate::reaches::{Literal, Reach, literal_in, reach_of_literal};
use crate::tables::BoxTable;
use fuzzy_meaning::laws::parts_are_valid;
use fuzzy_meaning::{Condition, Node};

/// The greatest truth of a reach, or the least: exact, and over bytes.
#[derive(Clone, Copy)]
pub(crate) struct End {
    pub(crate) truth: Ratio,
    pub(crate) byte: u8,
}

/// Which end of a reach.
#[derive(Clone, Copy)]
pub(crate) enum Side {
    Low,
    High,
}

impl Side {
    #[inline]
    fn other(self) -> Side
        ensures { result ≡ other_side self }
    {
        match self {
            Side::Low => Side::High,
            Side::High => Side::Low,
        }
    }
}

/// Both ends of a reach.
#[derive(Clone, Copy)]
pub(crate) struct Ends {
    pub(crate) low: End,
    pub(crate) high: End,
}

impl End {
    /// The greatest of no truths.
    pub(crate) const NOTHING: End = End {
        truth: Ratio::NONE,
        byte: 0,
    };

    /// The least of no truths.
    const ALL: End = End {
        truth: Ratio::ONE,
        byte: 255,
    };

    /// The upper or the lower end of a reach.
    #[inline]
    fn of_reach(reach: &Reach, side: Side) -> End
        requires { IsSmall reach.now }
        ensures value { value_of result.truth ≡ end_of_span side (span_of reach.now.degrees) }
        ensures byte { result.byte ≡ end_of_span side (byte_span_of reach.now) }
        ensures small { IsDegreeRatio result.truth }
    {
        match side {
            Side::Low => End {
                truth: reach.degrees.low,
                byte: reach.least,
            },
            Side::High => End {
                truth: reach.degrees.high,
                byte: reach.greatest,
            },
        }
    }

    #[inline]
    fn one_minus(self) -> End
        requires { IsDegreeRatio self.truth }
        ensures value { value_of result.truth ≡ one_minus (value_of self.truth) }
        ensures byte { result.byte ≡ 255 - self.byte }
        ensures small { IsDegreeRatio result.truth }
    {
        End {
            truth: self.truth.one_minus(),
            byte: 255 - self.byte,
        }
    }

    /// The end of an OR or an AND of no parts.
    #[inline]
    fn of_none(group: Group) -> End
        ensures value { value_of result.truth ≡ truths.none (is_any group) }
        ensures byte { result.byte ≡ (levels 255).none (is_any group) }
        ensures small { IsDegreeRatio result.truth }
    {
        match group {
            Group::Any => End::NOTHING,
            Group::All => End::ALL,
        }
    }

    /// The greater of two ends for an OR, the lesser for an AND.
    #[inline]
    fn joined(self, group: Group, other: End) -> End
        requires left { IsDegreeRatio self.truth }
        requires right { IsDegreeRatio other.truth }
        ensures value { value_of result.truth
            ≡ truths.join (is_any group) (value_of self.truth) (value_of other.truth) }
        ensures byte { result.byte ≡ (levels 255).join (is_any group) self.byte other.byte }
        ensures small { IsDegreeRatio result.truth }
    {
        match group {
            Group::Any => End {
                truth: self.truth.max(other.truth),
                byte: self.byte.max(other.byte),
            },
            Group::All => End {
                truth: self.truth.min(other.truth),
                byte: self.byte.min(other.byte),
            },
        }
    }
}

/// The upper or the lower end of a condition's reach over a box.
#[cycle(ends)]
pub(crate) fn end_of(condition: &Condition, side: Side, table: &BoxTable) -> End
    requires condition { IsValidCondition (block_of table.now) condition.now }
    requires table { IsTable table.now }
    ensures { IsEndOfCondition (block_of table.now) (box_of table.now) condition.now side result }
{
    match &condition.node {
        Node::Is(input, term) => { End::of_reach(reach_of_literal(*input, *term, table), side) }
        Node::Not(inner) => end_of(inner, side.other(), table).one_minus(),
        Node::And(parts) => end_among(parts.as_slice(), Group::All, side, table),
        Node::Or(parts) => end_among(parts.as_slice(), Group::Any, side, table),
    }
}

/// The end of an OR or an AND of these parts. Most parts are literals, which need no further call.
#[cycle(ends)]
fn end_among(parts: &[Condition], group: Group, side: Side, table: &BoxTable) -> End
    requires parts { AreValidConditions (block_of table.now) (conditions parts.now) }
    requires table { IsTable table.now }
    ensures { IsEndOfCondition (block_of table.now) (box_of table.now)
        (group_of (is_any group) (conditions parts.now)) side result }
{
    parts_are_valid();
    let mut joined = End::of_none(group);
    for k in (0..parts.len()).rev() {
        let part = &parts[k];
        let end = match literal_in(part) {
            Some(literal) => end_of_literal(literal, side, table),
            None => end_of(part, side, table),
        };
        joined = end.joined(group, joined);
    }
    joined
}

#[inline]
pub(crate) fn end_of_literal(literal: Literal, side: Side, table: &BoxTable) -> End
    requires literal { IsValidCondition (block_of table.now) (under literal.negated (is literal.input literal.term)) }
    requires table { IsTable table.now }
    ensures { IsEndOfCondition (block_of table.now) (box_of table.now)
        (under literal.negated (is literal.input literal.term)) side result }
{
    let reach = reach_of_literal(literal.input, literal.term, table);
    if literal.negated {
        End::of_reach(reach, side.other()).one_minus()
    } else {
        End::of_reach(reach, side)
    }
}

/// Both ends of a condition's reach over a box; those of an AND are found in one walk over its parts.
pub(crate) fn ends_of(condition: &Condition, table: &BoxTable) -> Ends
    requires condition { IsValidCondition (block_of table.now) condition.now }
    requires table { IsTable table.now }
    ensures low { IsEndOfCondition (block_of table.now) (box_of table.now) condition.now Side.Low result.low }
    ensures high { IsEndOfCondition (block_of table.now) (box_of table.now) condition.now Side.High result.high }
{
    match &condition.node {
        Node::And(parts) => ends_of_all(parts.as_slice(), table),
        _ => Ends {
            low: end_of(condition, Side::Low, table),
            high: end_of(condition, Side::High, table),
        },
    }
}

/// Both ends of an AND of these parts.
fn ends_of_all(parts: &[Condition], table: &BoxTable) -> Ends
    requires parts { AreValidConditions (block_of table.now) (conditions parts.now) }
    requires table { IsTable table.now }
    ensures low { IsEndOfCondition (block_of table.now) (box_of table.now) (all (conditions parts.now)) Side.Low
        result.low }
    ensures high { IsEndOfCondition (block_of table.now) (box_of table.now) (all (conditions parts.now)) Side.High
        result.high }
{
    parts_are_valid();
    let mut low = End::of_none(Group::All);
    let mut high = End::of_none(Group::All);
    for k in (0..parts.len()).rev() {
        let ends = ends_of_part(&parts[k], table);
        low = ends.low.joined(Group::All, low);
        high = ends.high.joined(Group::All, high);
    }
    Ends { low, high }
}

/// Both ends of a part of an AND.
#[inline]
fn ends_of_part(part: &Condition, table: &BoxTable) -> Ends
    requires part { IsValidCondition (block_of table.now) part.now }
    requires table { IsTable table.now }
    ensures low { IsEndOfCondition (block_of table.now) (box_of table.now) part.now Side.Low result.low }
    ensures high { IsEndOfCondition (block_of table.now) (box_of table.now) part.now Side.High result.high }
{
    match literal_in(part) {
        Some(literal) => Ends {
            low: end_of_literal(literal, Side::Low, table),
            high: end_of_literal(literal, Side::High, table),
        },
        None => Ends {
            low: end_of(part, Side::Low, table),
            high: end_of(part, Side::High, table),
        },
    }
}
