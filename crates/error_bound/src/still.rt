//! Rules that are true nowhere on a box, and so nowhere on its parts.
ghost use Rattle.std.specs.Prelude.{◌≡◌, IsTrue, Some, slice_get, slice_index_or, true, false};
ghost use Rattle.error_bound.specs.Laws.{IsInside};
ghost use Rattle.error_bound.specs.Leaves.{IsStill, concludes_some as concludes_any};
ghost use Rattle.error_bound.specs.Reaches.{AreMarked, IsTable, block_of, box_of};

use crate::boxes::ByteBox;
use crate::leaves::concludes_some;
use crate::nowhere::is_nowhere;
use crate::tables::BoxTable;
use fuzzy_meaning::Rule;

/// Marks of rules that are true nowhere on a box, each at the rule's index; of the rules behind the first 256 nothing is
/// known.
#[derive(Drop)]
pub(crate) struct StillRules {
    pub(crate) around: ByteBox,
    pub(crate) marks: [bool; 256],
}

pub(crate) static NO_MARKS: [bool; 256] = [false; 256];

impl BoxTable<'_> {
    /// Marks the rules that one term shows at once to be true nowhere on the box. The masses on its parts pass them over.
    pub fn mark_still_rules(&mut self)
        requires table { IsTable self.old }
        ensures over { self.new.table ≡ self.old.table }
        ensures bytes { self.new.bytes.0.items ≡ self.old.bytes.0.items }
        ensures table { IsTable self.new }
    {
        self.still.marks = self.marks_here();
        self.still.around = self.bytes.copied();
    }

    fn marks_here(&self) -> [bool; 256]
        requires table { IsTable self.now }
        ensures { AreMarked (block_of self.now) (box_of self.now) result }
    {
        let rules = self.table.block.rules.as_slice();
        let mut marks = NO_MARKS;
        for n in 0..rules.len() {
            if n < 256 {
                marks[n] = self.is_still(n, &rules[n]);
            }
        }
        marks
    }

    /// Whether one term of a rule's condition shows that it is true nowhere on the box.
    fn is_still(&self, place: usize, rule: &Rule) -> bool
        requires table { IsTable self.now }
        requires rule { slice_get (block_of self.now).rules place ≡ Some rule.now }
        ensures { IsTrue result → IsStill (block_of self.now) (box_of self.now) rule.now }
    {
        is_nowhere(self.condition_of(place, rule), self)
    }

    /// The marks, if the box lies in the one that they were made for; else none.
    pub(crate) fn still_rules(&self) -> &[bool; 256]
        requires table { IsTable self.now }
        ensures { AreMarked (block_of self.now) (box_of self.now) result.now }
    {
        if is_inside(&self.bytes, &self.still.around) {
            &self.still.marks
        } else {
            &NO_MARKS
        }
    }
}

/// Whether each interval of a box lies within that of another.
fn is_inside(small: &ByteBox, large: &ByteBox) -> bool
    ensures { IsTrue result → IsInside small.now.0.items large.now.0.items }
{
    let intervals = small.0.as_slice();
    if intervals.len() != large.0.len() {
        return false;
    }
    for k in 0..intervals.len() {
        let around = large.0[k];
        if intervals[k].from < around.from || around.to < intervals[k].to {
            return false;
        }
    }
    true
}

/// Whether a rule concludes a term of an output, and is not marked at its index.
#[inline]
pub(crate) fn is_needed(rule: &Rule, out: u8, place: usize, marks: &[bool; 256]) -> bool
    ensures { result ≡ false → concludes_any rule.now out ≡ true → slice_index_or marks.now place false ≡ true }
{
    if place < 256 && marks[place] {
        return false;
    }
    concludes_some(rule, out)
}
