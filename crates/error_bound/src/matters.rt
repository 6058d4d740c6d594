//! The inputs that matter on a box: those of which a rule with a strength there uses a term whose degrees or
//! grades differ on the box.
ghost use Rattle.std.specs.Prelude.{◌≡◌, ◌<◌, ◌*◌, ◌+◌, ◌==◌, ◌&&◌, ◌||◌, not, if◌then◌else◌, nat_lt};
ghost use Rattle.std.specs.Prelude.{length, Some, slice_get};
ghost use Rattle.error_bound.specs.declared.boxes.Interval.{Interval as TheInterval};
ghost use Rattle.fuzzy_meaning.specs.declared.block.Rule.{Rule as TheRule};
ghost use Rattle.fuzzy_meaning.specs.Blocks.{IsValidCondition, AreValidConditions};
ghost use Rattle.fuzzy_meaning.specs.Conditions.{all, conditions};
ghost use Rattle.error_bound.specs.{Boxes.IsBoxOf, Reaches.IsTable, Ratios.value_of, Tight.is_still};
ghost use Rattle.error_bound.specs.Matters.{asks_for as asks_for_of, matters as matters_of, narrowed};
ghost use Rattle.error_bound.specs.Reaches.{block_of, box_of};

use crate::boxes::{ByteBox, Interval};
use crate::ends::{End, Side};
use crate::reaches::{Reach, reach_of_literal};
use crate::tables::BoxTable;
use arrayvec::ArrayVec;
use fuzzy_meaning::laws::parts_are_valid;
use fuzzy_meaning::{Condition, Node};

impl BoxTable<'_> {
    /// The table's box, with the interval of each input that doesn't matter there cut down to its low byte.
    pub fn narrowed(&self) -> ByteBox
        requires table { IsTable self.now }
        ensures narrowed { result.0.items ≡ narrowed (block_of self.now) (box_of self.now) }
        ensures bytes { IsBoxOf (block_of self.now) result.0.items }
    {
        let mut narrow = ArrayVec::new();
        for k in 0..self.bytes.0.len() {
            narrow.push(self.interval_that_matters(k));
        }
        ByteBox(narrow)
    }

    /// The interval at an index, cut down to its low byte if its input doesn't matter.
    fn interval_that_matters(&self, place: usize) -> Interval
        requires table { IsTable self.now }
        requires place { place < length (box_of self.now) }
        ensures { (v : TheInterval) → slice_get (box_of self.now) place ≡ Some v
            → result ≡ (if matters_of (block_of self.now) (box_of self.now) (place + 1) then v
            else record { from = v.from; to = v.from }) }
    {
        let interval = self.bytes.0[place];
        if self.matters(place as u8 + 1) {
            interval
        } else {
            Interval {
                from: interval.from,
                to: interval.from,
            }
        }
    }

    /// Whether an input, counted from 1, matters on the table's box.
    fn matters(&self, input: u8) -> bool
        requires table { IsTable self.now }
        ensures { result ≡ matters_of (block_of self.now) (box_of self.now) input }
    {
        for n in 0..self.table.block.rules.len() {
            if self.rule_asks_for(n, input) {
                return true;
            }
        }
        false
    }

    /// Whether the rule at an index has a strength somewhere on the table's box, and uses a term of the input that
    /// differs there.
    fn rule_asks_for(&self, place: usize, input: u8) -> bool
        requires table { IsTable self.now }
        requires place { place < length (block_of self.now).rules }
        ensures { (r : TheRule) → slice_get (block_of self.now).rules place ≡ Some r
            → result ≡ (asks_for_of (block_of self.now) (box_of self.now) input r.cond
            && not (is_still (block_of self.now) (box_of self.now) r)) }
    {
        let rule = &self.table.block.rules.as_slice()[place];
        if !asks_for(&rule.cond, input, self) {
            return false;
        }
        !is_nothing(self.end_of_rule(place, Side::High))
    }
}

/// Whether the greatest strength is 0, and over bytes too.
fn is_nothing(high: End) -> bool
    ensures { result ≡ (((value_of high.truth).num == 0) && (high.byte == 0)) }
{
    high.truth.num == 0 && high.byte == 0
}

/// Whether a condition has a literal of the input whose degrees or grades differ on the box.
#[cycle(asking)]
fn asks_for(condition: &Condition, input: u8, table: &BoxTable) -> bool
    requires condition { IsValidCondition (block_of table.now) condition.now }
    requires table { IsTable table.now }
    ensures { result ≡ asks_for_of (block_of table.now) (box_of table.now) input condition.now }
{
    match &condition.node {
        Node::Is(i, term) => *i == input && is_spread(reach_of_literal(*i, *term, table)),
        Node::Not(inner) => asks_for(inner, input, table),
        Node::And(parts) => some_asks_for(parts.as_slice(), input, table),
        Node::Or(parts) => some_asks_for(parts.as_slice(), input, table),
    }
}

/// Whether some part of an AND or of an OR has one.
#[cycle(asking)]
fn some_asks_for(parts: &[Condition], input: u8, table: &BoxTable) -> bool
    requires parts { AreValidConditions (block_of table.now) (conditions parts.now) }
    requires table { IsTable table.now }
    ensures { result ≡ asks_for_of (block_of table.now) (box_of table.now) input (all (conditions parts.now)) }
{
    parts_are_valid();
    let mut some = false;
    for k in (0..parts.len()).rev() {
        some = asks_for(&parts[k], input, table) || some;
    }
    some
}

/// Whether the degrees of a reach differ, or its grades do.
fn is_spread(reach: &Reach) -> bool
    ensures { result ≡ (nat_lt ((value_of reach.now.degrees.low).num * (value_of reach.now.degrees.high).den)
        ((value_of reach.now.degrees.high).num * (value_of reach.now.degrees.low).den)
        || nat_lt reach.now.least reach.now.greatest) }
{
    let (low, high) = (reach.degrees.low, reach.degrees.high);
    u128::from(low.num) * u128::from(high.den) < u128::from(high.num) * u128::from(low.den)
        || reach.least < reach.greatest
}
