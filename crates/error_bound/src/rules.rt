//! What leaves need to know about the rules over a box.
ghost use Rattle.std.specs.Prelude.{◌≡◌, ◌≤◌, ◌<◌, ◌+◌, ◌*◌, ◌/◌, ◌≤ℤ◌, length, pos, unsigned_abs, if◌then◌else◌};
ghost use Rattle.std.specs.Prelude.{◌==◌};
ghost use Rattle.std.specs.Prelude.{IfSome, Some, false, true, slice_get};
ghost use Rattle.fz_num.specs.Fractions.{times, up_div};
ghost use Rattle.byte_scaling.specs.Weights.{weight_byte_of};
ghost use Rattle.fuzzy_meaning.specs.{declared.block.Rule.Rule as TheRule, Blocks.IsValidRule};
ghost use Rattle.fuzzy_meaning.specs.{Blocks.IsWeight, Meaning.weight_of};
ghost use Rattle.error_bound.specs.{Errors.apart, Flattening.ReachesAlike};
ghost use Rattle.error_bound.specs.Ratios.{value_of, IsDegreeRatio, IsStrengthRatio};
ghost use Rattle.error_bound.specs.Leaves.{IsStill, concludes_some as concludes_any};
ghost use Rattle.error_bound.specs.Reaches.{IsEndOfRule, IsErrorOfRule, IsTable, IsDeviationOfRule, block_of, box_of};

use crate::ends::{End, Ends, Side, end_of, ends_of};
use crate::leaves::concludes_some;
use crate::literal_errors::deviation_of;
use crate::nowhere::is_nowhere;
use crate::tables::BoxTable;
use byte_scaling::weight_byte;
use cell_error::Deviation;
use fuzzy_meaning::{Condition, Rule};
use fz_num::Dec;

impl BoxTable<'_> {
    /// The error of the strength of the rule at an index.
    pub(crate) fn error_of_rule(&self, place: usize) -> u64
        requires table { IsTable self.now }
        requires place { place < length (block_of self.now).rules }
        ensures { (r : TheRule) → slice_get (block_of self.now).rules place ≡ Some r
            → IsErrorOfRule (block_of self.now) (box_of self.now) r result }
    {
        let rule = &self.table.block.rules.as_slice()[place];
        let condition = self.condition_of(place, rule);
        error_of_strength(rule, condition, self)
    }

    /// How far the strength of the rule at an index may be above that over bytes, and how far below.
    pub(crate) fn deviation_of_rule(&self, place: usize) -> Deviation
        requires table { IsTable self.now }
        requires place { place < length (block_of self.now).rules }
        ensures { (r : TheRule) → slice_get (block_of self.now).rules place ≡ Some r
            → IsDeviationOfRule (block_of self.now) (box_of self.now) r result }
    {
        let rule = &self.table.block.rules.as_slice()[place];
        let condition = self.condition_of(place, rule);
        deviation_of_strength(rule, condition, self)
    }

    /// The upper or the lower end of the strength of the rule at an index.
    pub(crate) fn end_of_rule(&self, place: usize, side: Side) -> End
        requires table { IsTable self.now }
        requires place { place < length (block_of self.now).rules }
        ensures { (r : TheRule) → slice_get (block_of self.now).rules place ≡ Some r
            → IsEndOfRule (block_of self.now) (box_of self.now) r side result }
    {
        let rule = &self.table.block.rules.as_slice()[place];
        let condition = self.condition_of(place, rule);
        end_of_strength(rule, condition, side, self)
    }

    /// Both ends of the strength of the rule at an index.
    pub(crate) fn ends_of_rule(&self, place: usize) -> Ends
        requires table { IsTable self.now }
        requires place { place < length (block_of self.now).rules }
        ensures low { (r : TheRule) → slice_get (block_of self.now).rules place ≡ Some r
            → IsEndOfRule (block_of self.now) (box_of self.now) r Side.Low result.low }
        ensures high { (r : TheRule) → slice_get (block_of self.now).rules place ≡ Some r
            → IsEndOfRule (block_of self.now) (box_of self.now) r Side.High result.high }
    {
        let rule = &self.table.block.rules.as_slice()[place];
        let condition = self.condition_of(place, rule);
        ends_of_strength(rule, condition, self)
    }

    /// Whether the rule at an index concludes a term of an output, and no term in its condition shows at once that the
    /// rule never fires on the box. If not, the rule adds nothing to the output there.
    pub(crate) fn may_fire(&self, place: usize, out: u8) -> bool
        requires table { IsTable self.now }
        requires place { place < length (block_of self.now).rules }
        ensures concludes_it { result ≡ true → (r : TheRule) → slice_get (block_of self.now).rules place ≡ Some r
            → concludes_any r out ≡ true }
        ensures still { result ≡ false → (r : TheRule) → slice_get (block_of self.now).rules place ≡ Some r
            → concludes_any r out ≡ true → IsStill (block_of self.now) (box_of self.now) r }
    {
        let rule = &self.table.block.rules.as_slice()[place];
        if !concludes_some(rule, out) {
            return false;
        }
        let condition = self.condition_of(place, rule);
        !is_nowhere(condition, self)
    }

    /// The condition of the rule at an index, flat if it is kept.
    pub(crate) fn condition_of<'b>(&'b self, place: usize, rule: &'b Rule) -> &'b Condition
        requires table { IsTable self.now }
        requires rule { slice_get (block_of self.now).rules place ≡ Some rule.now }
        ensures { ReachesAlike (block_of self.now) rule.now.cond result.now }
    {
        match &self.table.kept {
            Some(kept) => &kept.conditions[place],
            None => &rule.cond,
        }
    }
}

/// The upper or the lower end of the strength of the rule at an index.
fn end_of_strength(rule: &Rule, condition: &Condition, side: Side, table: &BoxTable) -> End
    requires condition { ReachesAlike (block_of table.now) rule.now.cond condition.now }
    requires rule { IsValidRule (block_of table.now) rule.now }
    requires table { IsTable table.now }
    ensures { IsEndOfRule (block_of table.now) (box_of table.now) rule.now side result }
{
    weighted(rule, end_of(condition, side, table))
}

/// Both ends of the strength of a rule.
fn ends_of_strength(rule: &Rule, condition: &Condition, table: &BoxTable) -> Ends
    requires condition { ReachesAlike (block_of table.now) rule.now.cond condition.now }
    requires rule { IsValidRule (block_of table.now) rule.now }
    requires table { IsTable table.now }
    ensures low { IsEndOfRule (block_of table.now) (box_of table.now) rule.now Side.Low result.low }
    ensures high { IsEndOfRule (block_of table.now) (box_of table.now) rule.now Side.High result.high }
{
    let ends = ends_of(condition, table);
    Ends {
        low: weighted(rule, ends.low),
        high: weighted(rule, ends.high),
    }
}

/// An end of a condition's truth times the weight of a rule.
fn weighted(rule: &Rule, end: End) -> End
    requires rule { IfSome rule.now.weight IsWeight }
    requires end { IsDegreeRatio end.truth }
    ensures value { value_of result.truth ≡ times (value_of end.truth) (weight_of rule.now.weight) }
    ensures byte { result.byte ≡ end.byte * (weight_byte_of rule.now.weight + 1) / 256 }
    ensures small { IsStrengthRatio result.truth }
{
    let weight = rule.weight.unwrap_or(Dec(10_000));
    End {
        truth: end.truth.times(weight),
        byte: scaled(end.byte, weight_byte(rule.weight)),
    }
}

/// The error of the strength of the rule at an index.
fn error_of_strength(rule: &Rule, condition: &Condition, table: &BoxTable) -> u64
    requires condition { ReachesAlike (block_of table.now) rule.now.cond condition.now }
    requires rule { IsValidRule (block_of table.now) rule.now }
    requires table { IsTable table.now }
    ensures { IsErrorOfRule (block_of table.now) (box_of table.now) rule.now result }
{
    let weight = rule.weight.unwrap_or(Dec(10_000));
    let byte = weight_byte(rule.weight);
    let deviation = deviation_of(condition, table);
    deviation.rise.max(deviation.fall) + weight_error(weight, byte) + floor_error(byte)
}

/// How far the strength of the rule at an index may be above that over bytes, and how far below.
fn deviation_of_strength(rule: &Rule, condition: &Condition, table: &BoxTable) -> Deviation
    requires condition { ReachesAlike (block_of table.now) rule.now.cond condition.now }
    requires rule { IsValidRule (block_of table.now) rule.now }
    requires table { IsTable table.now }
    ensures { IsDeviationOfRule (block_of table.now) (box_of table.now) rule.now result }
{
    let weight = rule.weight.unwrap_or(Dec(10_000));
    let byte = weight_byte(rule.weight);
    let deviation = deviation_of(condition, table);
    let apart = weight_error(weight, byte);
    Deviation {
        rise: deviation.rise + apart + floor_error(byte),
        fall: deviation.fall + apart,
    }
}

/// A truth over bytes, scaled by a weight byte.
pub(crate) fn scaled(truth: u8, weight: u8) -> u8
    ensures { result ≡ truth * (weight + 1) / 256 }
{
    (u32::from(truth) * (u32::from(weight) + 1) / 256) as u8
}

/// The distance of a weight from the factor that its byte stands for, in parts of 10^9, rounded up.
fn weight_error(weight: Dec, byte: u8) -> u64
    requires from { pos 0 ≤ℤ weight.0 }
    requires to { weight.0 ≤ℤ pos 10000 }
    ensures value { result ≡ up_div (apart ((byte + 1) * 10000) (unsigned_abs weight.0 * 256) * 1000000000) 2560000 }
    ensures small { result ≤ 1000000000 }
{
    let apart = ((u64::from(byte) + 1) * 10_000).abs_diff(weight.0 as u64 * 256);
    (apart * 1_000_000_000 + 2_559_999) / 2_560_000
}

/// What rounding down may lose: 1/255 in parts of 10^9, rounded up; nothing if the weight's byte is 255.
fn floor_error(byte: u8) -> u64
    ensures value { result ≡ (if byte == 255 then 0 else up_div 1000000000 255) }
{
    if byte == 255 { 0 } else { 3_921_569 }
}
