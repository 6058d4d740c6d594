//! The best leaf of a box.
ghost use Rattle.std.specs.Prelude.{◌≡◌, ◌≤◌, ◌<◌, ◌+◌, ◌*◌, ◌/◌, ℕ, IfSome, IfNone, length};
ghost use Rattle.fuzzy_meaning.specs.Blocks.{IsValid};
ghost use Rattle.error_bound.specs.Best.{IsBest, IsCandidate, IsFirstGreatest};
ghost use Rattle.error_bound.specs.{Boxes.IsBoxOf, Ratios.value_of, Ratios.IsStrengthRatio, Reaches.IsTable};
ghost use Rattle.error_bound.specs.Reaches.{block_of, box_of};

use crate::boxes::{ByteBox, Leaf};
use crate::ends::{End, Side};
use crate::tables::{BlockTable, BoxTable};
use byte_scaling::Width;
use fuzzy_meaning::Block;

/// The best leaf of a box for an output, counted from 1: the silent one if it holds, else the strong
/// one with the greatest `k`, the first rule's on a tie, or `None` if no leaf holds.
pub fn best(block: &Block, bytes: &ByteBox, out: u8) -> Option<Leaf>
    requires block { IsValid block.now }
    requires bytes { IsBoxOf block.now bytes.now.0.items }
    ensures { IsBest block.now bytes.now.0.items out result }
{
    BoxTable::over(&BlockTable::for_one_box(block, Width::Byte), bytes.copied()).best(out)
}

impl BoxTable<'_> {
    /// The best leaf of the table's box for an output.
    pub fn best(&self, out: u8) -> Option<Leaf>
        requires table { IsTable self.now }
        ensures { IsBest (block_of self.now) (box_of self.now) out result }
    {
        match self.silent_fault(out) {
            None => Some(Leaf { rule: 0, k: 0 }),
            Some(_) => self.strongest(out),
        }
    }

    /// The strong leaf with the greatest `k`, the first rule's on a tie.
    fn strongest(&self, out: u8) -> Option<Leaf>
        requires table { IsTable self.now }
        ensures none { IfNone result ((n k : ℕ) → IsCandidate (block_of self.now) (box_of self.now) out n k → ⊥) }
        ensures candidate { IfSome result (λ l. IsCandidate (block_of self.now) (box_of self.now) out l.rule l.k) }
        ensures greatest { IfSome result
            (λ l. IsFirstGreatest (IsCandidate (block_of self.now) (box_of self.now) out) l.rule l.k) }
    {
        let mut rule: u16 = 0;
        let mut part: u8 = 0;
        for n in 0..self.table.block.rules.len() {
            let k = self.part_of_rule(n as u16, out);
            if k > part {
                rule = n as u16 + 1;
                part = k;
            }
        }
        if part == 0 {
            None
        } else {
            Some(Leaf { rule, k: part })
        }
    }

    /// The greatest `k` with which a strong leaf of rule number n + 1 holds, or 0 if there is none.
    fn part_of_rule(&self, n: u16, out: u8) -> u8
        requires table { IsTable self.now }
        requires n { n < length (block_of self.now).rules }
        ensures candidate { 1 ≤ result → IsCandidate (block_of self.now) (box_of self.now) out (n + 1) result }
        ensures only { (k : ℕ) → IsCandidate (block_of self.now) (box_of self.now) out (n + 1) k → k ≡ result }
    {
        if self.may_fire(n as usize, out) {
            part_of(self.end_of_rule(n as usize, Side::Low))
        } else {
            0
        }
    }
}

/// The least strength over a box in 255ths, rounded down, or 0 if the least over bytes is 0.
fn part_of(low: End) -> u8
    requires { IsStrengthRatio low.truth }
    ensures part { 1 ≤ low.byte → result ≡ 255 * (value_of low.truth).num / (value_of low.truth).den }
    ensures none { low.byte ≡ 0 → result ≡ 0 }
{
    if low.byte == 0 {
        return 0;
    }
    low.truth.floor_255()
}
