//! How far the truths of conditions may be above those over bytes, and how far below.
ghost use Rattle.std.specs.Prelude.{◌≡◌, false, if◌then◌else◌};
ghost use Rattle.fuzzy_meaning.specs.Blocks.{IsValidCondition, AreValidConditions};
ghost use Rattle.fuzzy_meaning.specs.Conditions.{all, conditions};
ghost use Rattle.error_bound.specs.{Spans.greatest, Spans.spans, Spans.reversed};
ghost use Rattle.error_bound.specs.Reaches.{IsTable, IsDeviationOfCondition, IsUnitDeviation, fall_to_rise, block_of};
ghost use Rattle.error_bound.specs.Reaches.{box_of};

use crate::reaches::{literal_in, reach_of_literal};
use crate::tables::BoxTable;
use cell_error::Deviation;
use fuzzy_meaning::laws::parts_are_valid;
use fuzzy_meaning::{Condition, Node};

/// How far the truth of a condition may be above that over bytes, and how far below, in parts of 10^9.
#[cycle(errors)]
pub(crate) fn deviation_of(condition: &Condition, table: &BoxTable) -> Deviation
    requires condition { IsValidCondition (block_of table.now) condition.now }
    requires table { IsTable table.now }
    ensures { IsDeviationOfCondition (block_of table.now) (box_of table.now) condition.now result }
{
    match &condition.node {
        Node::Is(input, term) => reach_of_literal(*input, *term, table).deviation,
        Node::Not(inner) => turned(true, deviation_of(inner, table)),
        Node::And(parts) => deviation_among(parts.as_slice(), table),
        Node::Or(parts) => deviation_among(parts.as_slice(), table),
    }
}

/// The same for an AND or an OR of these parts. Most parts are literals, which need no further call.
#[cycle(errors)]
fn deviation_among(parts: &[Condition], table: &BoxTable) -> Deviation
    requires parts { AreValidConditions (block_of table.now) (conditions parts.now) }
    requires table { IsTable table.now }
    ensures { IsDeviationOfCondition (block_of table.now) (box_of table.now) (all (conditions parts.now)) result }
{
    parts_are_valid();
    let mut deviation = Deviation { rise: 0, fall: 0 };
    for k in (0..parts.len()).rev() {
        let part = &parts[k];
        let here = match literal_in(part) {
            Some(literal) => {
                let reach = reach_of_literal(literal.input, literal.term, table);
                turned(literal.negated, reach.deviation)
            }
            None => deviation_of(part, table),
        };
        deviation = greatest_deviation(here, deviation);
    }
    deviation
}

/// The same under a NOT, which exchanges the two, if `negated`.
#[inline]
fn turned(negated: bool, deviation: Deviation) -> Deviation
    requires { IsUnitDeviation deviation }
    ensures value { fall_to_rise result
        ≡ (if negated then reversed (λ n. n) (fall_to_rise deviation) else fall_to_rise deviation) }
    ensures small { IsUnitDeviation result }
{
    if negated {
        Deviation {
            rise: deviation.fall,
            fall: deviation.rise,
        }
    } else {
        deviation
    }
}

/// The greater rise and the greater fall.
#[inline]
fn greatest_deviation(left: Deviation, right: Deviation) -> Deviation
    requires left { IsUnitDeviation left }
    requires right { IsUnitDeviation right }
    ensures value { fall_to_rise result ≡ (spans greatest).join false (fall_to_rise left) (fall_to_rise right) }
    ensures small { IsUnitDeviation result }
{
    Deviation {
        rise: left.rise.max(right.rise),
        fall: left.fall.max(right.fall),
    }
}
