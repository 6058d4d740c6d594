//! Leaves: whether one holds on a box, and with which Bound.
ghost use Rattle.std.specs.Prelude.{◌≡◌, ◌↔◌, ◌≤◌, ◌<◌, ◌*◌, ℕ, IsTrue, IfOk, IfErr, OnOk, All, IfSome, IfNone};
ghost use Rattle.std.specs.Prelude.{Some, length};
ghost use Rattle.fz_num.specs.Fractions.{over, AtMost};
ghost use Rattle.fuzzy_meaning.specs.Blocks.{IsValid, IsValidOutput, output_at};
ghost use Rattle.fuzzy_meaning.specs.Meaning.{concludes as concludes_it};
ghost use Rattle.error_bound.specs.{Best.silent_leaf, Bounds.IsBound, Spans.only, Reaches.IsTable};
ghost use Rattle.error_bound.specs.Faults.{HasLeafFault, IsStrongFault, IsSilentFault};
ghost use Rattle.error_bound.specs.Leaves.{Holds, IsStill, concludes_some as concludes_any, IsPairFor};
ghost use Rattle.error_bound.specs.Ratios.{value_of, IsStrengthRatio};
ghost use Rattle.error_bound.specs.Reaches.{block_of, box_of, parts_of};

use crate::bounds::{silent_bound, strong_bound};
use crate::boxes::{Leaf, LeafFault};
use crate::ends::{End, Side};
use crate::tables::BoxTable;
use fuzzy_meaning::{Block, Output, Rule};

/// An output of a block, counted from 1.
pub fn output_of(block: &Block, out: u8) -> &Output
    requires block { IsValid block.now }
    requires from { 1 ≤ out }
    requires to { out ≤ length block.now.outputs }
    ensures found { output_at block.now out ≡ Some result.now }
    ensures valid { IsValidOutput result.now }
{
    &block.outputs.as_slice()[out as usize - 1]
}

impl BoxTable<'_> {
    /// The Bound of a leaf's pair for an output on the table's box, or the pair's first fault.
    pub fn bound(&self, leaf: &Leaf, out: u8) -> Result<u32, LeafFault>
        requires table { IsTable self.now }
        requires out_from { 1 ≤ out }
        requires out_to { out ≤ length (block_of self.now).outputs }
        requires pair { IsPairFor (block_of self.now) out leaf.now }
        ensures holds { OnOk result (Holds (block_of self.now) (box_of self.now) out leaf.now) }
        ensures bound { IfOk result (λ n. IfSome (output_at (block_of self.now) out)
            (λ x. IsBound (block_of self.now) (box_of self.now) out x (parts_of self.now) leaf.now n)) }
        ensures fault { IfErr result (HasLeafFault (block_of self.now) (box_of self.now) out leaf.now) }
    {
        let output = output_of(self.table.block, out);
        if leaf.k == 0 {
            return match self.silent_fault(out) {
                Some(fault) => Err(fault),
                None => Ok(silent_bound(output)),
            };
        }
        let low = self.end_of_rule(leaf.rule as usize - 1, Side::Low);
        if let Some(fault) = strong_fault(low, *leaf) {
            return Err(fault);
        }
        let sum = self.sum_of_errors(output, out);
        Ok(strong_bound(output, self.table.width, sum, leaf.k))
    }

    /// The fault of the first rule that concludes a term of an output and whose strength is not 0 all over the box.
    pub(crate) fn silent_fault(&self, out: u8) -> Option<LeafFault>
        requires table { IsTable self.now }
        ensures still { IfNone result (All
            (λ r. (t : ℕ) → IsTrue (concludes_it r out t)
            → IsStill (block_of self.now) (box_of self.now) r) (block_of self.now).rules) }
        ensures fault { IfSome result (HasLeafFault (block_of self.now) (box_of self.now) out silent_leaf) }
    {
        let rules = self.table.block.rules.as_slice();
        for n in 0..rules.len() {
            if self.may_fire(n, out) {
                let high = self.end_of_rule(n, Side::High);
                if let Some(fault) = firing_fault(high, n as u16 + 1) {
                    return Some(fault);
                }
            }
        }
        None
    }
}

/// The fault of a strong leaf, if the least strength of its rule is `low`.
fn strong_fault(low: End, leaf: Leaf) -> Option<LeafFault>
    requires { IsStrengthRatio low.truth }
    ensures low { IfNone result (AtMost (over leaf.k 255) (value_of low.truth)) }
    ensures byte_low { IfNone result (1 ≤ low.byte) }
    ensures fault { IfSome result (IsStrongFault leaf (only (value_of low.truth)) (only low.byte)) }
{
    if low.truth.is_below(leaf.k) {
        Some(LeafFault::Weak(leaf.rule, leaf.k, low.truth.floor_nano()))
    } else if low.byte == 0 {
        Some(LeafFault::Still(leaf.rule))
    } else {
        None
    }
}

/// The fault of a silent leaf at rule number `n`, if the greatest strength of the rule, `high`, is above 0.
fn firing_fault(high: End, n: u16) -> Option<LeafFault>
    requires { IsStrengthRatio high.truth }
    ensures high { IfNone result ((value_of high.truth).num ≡ 0) }
    ensures byte_high { IfNone result (high.byte ≡ 0) }
    ensures fault { IfSome result (IsSilentFault n (only (value_of high.truth)) (only high.byte)) }
{
    if high.truth.num > 0 {
        Some(LeafFault::Silent(n, high.truth.up_nano()))
    } else if high.byte > 0 {
        Some(LeafFault::Loud(n, high.byte))
    } else {
        None
    }
}

/// Whether a pair is valid for an output: both of its numbers are 0, or neither is and it names a
/// rule that concludes a term of the output.
pub fn is_pair_for(block: &Block, leaf: &Leaf, out: u8) -> bool
    ensures { IsTrue result ↔ IsPairFor block.now out leaf.now }
{
    if leaf.rule == 0 || leaf.k == 0 {
        return leaf.rule == 0 && leaf.k == 0;
    }
    match block.rules.as_slice().get(leaf.rule as usize - 1) {
        Some(rule) => concludes_some(rule, out),
        None => false,
    }
}

/// Whether a rule concludes a term of an output.
pub(crate) fn concludes_some(rule: &Rule, out: u8) -> bool
    ensures { result ≡ concludes_any rule.now out }
{
    rule.concl.as_slice().iter().any(|c| c.0 == out)
}
