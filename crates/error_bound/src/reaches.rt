//! The ranges of the truths of literals over a box.
ghost use Rattle.std.specs.Prelude.{◌≡◌, IfSome};
ghost use Rattle.fuzzy_meaning.specs.{Blocks.HasTerm, Conditions.is, Conditions.under};
ghost use Rattle.error_bound.specs.Reaches.{IsTable, IsReachOfLiteral, block_of, box_of};

use crate::degrees::Degrees;
use crate::masses::MassEnds;
use crate::ratio::Ratio;
use crate::tables::BoxTable;
use cell_error::Deviation;
use fuzzy_meaning::{Condition, Node};

/// The least and the greatest truth, exact and over bytes, and how far the exact ones may be above those
/// over bytes, and how far below, in parts of 10^9.
#[derive(Clone, Copy)]
pub(crate) struct Reach {
    pub(crate) degrees: Degrees,
    pub(crate) least: u8,
    pub(crate) greatest: u8,
    pub(crate) deviation: Deviation,
    /// The least and the greatest truth in whole parts.
    pub(crate) mass: MassEnds,
    /// And that of NOT.
    pub(crate) opposite: MassEnds,
}

impl Reach {
    /// The reach of what is true nowhere.
    pub(crate) const NOTHING: Reach = Reach {
        degrees: Degrees {
            low: Ratio::NONE,
            high: Ratio::NONE,
        },
        least: 0,
        greatest: 0,
        deviation: Deviation { rise: 0, fall: 0 },
        mass: MassEnds::NOTHING,
        opposite: MassEnds::ALL,
    };
}

/// `input IS term`, or `input IS NOT term`.
#[derive(Clone, Copy)]
pub(crate) struct Literal {
    pub(crate) input: u8,
    pub(crate) term: u8,
    pub(crate) negated: bool,
}

/// The condition as a literal, if it is one, with or without a NOT.
#[inline]
pub(crate) fn literal_in(condition: &Condition) -> Option<Literal>
    ensures { IfSome result (λ l. condition.now ≡ under l.negated (is l.input l.term)) }
{
    match &condition.node {
        Node::Is(input, term) => Some(Literal {
            input: *input,
            term: *term,
            negated: false,
        }),
        Node::Not(inner) => {
            let inner: &Condition = inner;
            match &inner.node {
                Node::Is(input, term) => Some(Literal {
                    input: *input,
                    term: *term,
                    negated: true,
                }),
                _ => None,
            }
        }
        _ => None,
    }
}

/// The reach of a term, by reference.
#[inline]
pub(crate) fn reach_of_literal<'a>(input: u8, term: u8, table: &'a BoxTable) -> &'a Reach
    requires term { HasTerm (block_of table.now) input term }
    requires table { IsTable table.now }
    ensures { IsReachOfLiteral (block_of table.now) (box_of table.now) input term result.now }
{
    &table.rows[input as usize - 1].reaches[term as usize - 1]
}
