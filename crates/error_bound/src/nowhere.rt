//! Conditions that are true nowhere on a box, as one term alone shows.
ghost use Rattle.std.specs.Prelude.{◌≡◌, IsTrue};
ghost use Rattle.fuzzy_meaning.specs.Blocks.{IsValidCondition, AreValidConditions};
ghost use Rattle.fuzzy_meaning.specs.Conditions.{all, conditions};
ghost use Rattle.error_bound.specs.{Ratios.value_of, Reaches.IsTable, Reaches.IsNowhere};
ghost use Rattle.error_bound.specs.Reaches.{block_of, box_of};

use crate::reaches::{Reach, reach_of_literal};
use crate::tables::BoxTable;
use fuzzy_meaning::laws::parts_are_valid;
use fuzzy_meaning::{Condition, Node};

/// Whether a condition is an AND of which one part is a term of degree 0 all over the box, and of grade 0 too.
pub(crate) fn is_nowhere(condition: &Condition, table: &BoxTable) -> bool
    requires condition { IsValidCondition (block_of table.now) condition.now }
    requires table { IsTable table.now }
    ensures { IsTrue result → IsNowhere (block_of table.now) (box_of table.now) condition.now }
{
    match &condition.node {
        Node::And(parts) => some_is_nowhere(parts.as_slice(), table),
        _ => false,
    }
}

/// Whether some part of an AND is such a term.
fn some_is_nowhere(parts: &[Condition], table: &BoxTable) -> bool
    requires parts { AreValidConditions (block_of table.now) (conditions parts.now) }
    requires table { IsTable table.now }
    ensures { IsTrue result → IsNowhere (block_of table.now) (box_of table.now) (all (conditions parts.now)) }
{
    parts_are_valid();
    for k in 0..parts.len() {
        if term_is_nowhere(&parts[k], table) {
            return true;
        }
    }
    false
}

/// Whether a condition is such a term.
fn term_is_nowhere(condition: &Condition, table: &BoxTable) -> bool
    requires condition { IsValidCondition (block_of table.now) condition.now }
    requires table { IsTable table.now }
    ensures { IsTrue result → IsNowhere (block_of table.now) (box_of table.now) condition.now }
{
    match &condition.node {
        Node::Is(input, term) => is_nothing(reach_of_literal(*input, *term, table)),
        _ => false,
    }
}

/// Whether no truth of a reach is above 0.
fn is_nothing(reach: &Reach) -> bool
    ensures num { IsTrue result → (value_of reach.now.degrees.high).num ≡ 0 }
    ensures byte { IsTrue result → reach.now.greatest ≡ 0 }
{
    reach.degrees.high.num == 0 && reach.greatest == 0
}
