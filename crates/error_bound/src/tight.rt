//! The tight Bound of a box, which depends on no choice of a rule: it is computed from the ranges of the
//! masses of an output's terms.
ghost use Rattle.std.specs.Prelude.{◌≡◌, ◌≤◌, ◌<◌, ◌+◌, ◌*◌, ◌/◌, All, ◌==◌, if◌then◌else◌, ℕ, true};
ghost use Rattle.std.specs.Prelude.{IfSome, IfNone, Some, length, slice_get, slice_index, take};
ghost use Rattle.fz_num.specs.Fractions.{up_div};
ghost use Rattle.byte_scaling.specs.Widths.{parts};
ghost use Rattle.cell_error.specs.Means.{IsSmallDeviation, most_deviation};
ghost use Rattle.fuzzy_meaning.specs.declared.block.Rule.{Rule as TheRule};
ghost use Rattle.fuzzy_meaning.specs.Blocks.{IsValidOutput, output_at};
ghost use Rattle.fuzzy_meaning.specs.Meaning.{concludes as concludes_it};
ghost use Rattle.error_bound.specs.{Best.silent_leaf, Leaves.Holds, CellErrors.term_errors};
ghost use Rattle.error_bound.specs.Ratios.{value_of, IsRatio};
ghost use Rattle.error_bound.specs.{Errors.rule_rise, Errors.rule_fall, Reaches.IsEndOfRule, Reaches.IsTable};
ghost use Rattle.error_bound.specs.Masses.{AreMasses, AreDeviations, AreSmall, sum_at, offset_at};
ghost use Rattle.error_bound.specs.Masses.{IsBoundAt};
ghost use Rattle.error_bound.specs.Tight.{IsTightBound, IsSure, if_moving, ranges_at, deviations_at};
ghost use Rattle.error_bound.specs.Reaches.{block_of, box_of, parts_of};
ghost use Rattle.cell_error.specs.Errors.{whole_mass};

use crate::bounds::{offset, raise_terms, silent_bound};
use crate::ends::{End, Side};
use crate::leaves::output_of;
use crate::masses::MassEnds;
use crate::still::is_needed;
use crate::tables::BoxTable;
use byte_scaling::Width;
use cell_error::{Deviation, MassRange, Scale, mean_error};
use fuzzy_meaning::{Output, Rule};

/// The ranges of the masses of an output's terms over a box, each at the index of its term.
#[derive(Clone, Copy)]
pub struct Masses {
    /// The least masses in parts of 255 * 10^9, rounded down.
    pub lows: [u64; 15],
    /// The greatest masses in the same parts, rounded up.
    pub highs: [u64; 15],
    /// The least masses over bytes.
    pub byte_lows: [u64; 15],
    /// The greatest masses over bytes.
    pub byte_highs: [u64; 15],
}

/// How far each mass may be above the mass over bytes, and how far below, in parts of 10^9.
#[derive(Clone, Copy)]
pub(crate) struct Deviations {
    rises: [u64; 15],
    falls: [u64; 15],
}

impl BoxTable<'_> {
    /// The tight Bound of the table's box for an output, in millionths of the output's range, or
    /// `None` if there is none.
    pub fn tight_bound(&self, out: u8) -> Option<u32>
        requires table { IsTable self.now }
        requires out_from { 1 ≤ out }
        requires out_to { out ≤ length (block_of self.now).outputs }
        ensures bound { IfSome result (λ n. IfSome (output_at (block_of self.now) out)
            (λ x. IsTightBound (block_of self.now) (box_of self.now) out x (parts_of self.now) n)) }
        ensures loud { IfNone result (Holds (block_of self.now) (box_of self.now) out silent_leaf → ⊥) }
        ensures unsure { IfNone result (IfSome (output_at (block_of self.now) out)
            (λ x. IsSure (block_of self.now) (box_of self.now) out x → ⊥)) }
    {
        self.tight_bound_by(out, &self.masses(out))
    }

    /// The same, from masses that are known already.
    pub fn tight_bound_by(&self, out: u8, masses: &Masses) -> Option<u32>
        requires table { IsTable self.now }
        requires masses { AreMasses (block_of self.now) (box_of self.now) out masses.now }
        requires out_from { 1 ≤ out }
        requires out_to { out ≤ length (block_of self.now).outputs }
        ensures bound { IfSome result (λ n. IfSome (output_at (block_of self.now) out)
            (λ x. IsTightBound (block_of self.now) (box_of self.now) out x (parts_of self.now) n)) }
        ensures loud { IfNone result (Holds (block_of self.now) (box_of self.now) out silent_leaf → ⊥) }
        ensures unsure { IfNone result (IfSome (output_at (block_of self.now) out)
            (λ x. IsSure (block_of self.now) (box_of self.now) out x → ⊥)) }
    {
        let output = output_of(self.table.block, out);
        match self.silent_fault(out) {
            None => Some(silent_bound(output)),
            Some(_) => masses.bound(&self.deviations(out), output, self.table.width),
        }
    }

    /// The ranges of the masses of an output's terms over the table's box.
    pub fn masses(&self, out: u8) -> Masses
        requires table { IsTable self.now }
        ensures masses { AreMasses (block_of self.now) (box_of self.now) out result }
        ensures ordered { (t : ℕ) → t < 15 → slice_index result.lows t ≤ slice_index result.highs t }
    {
        let mut lows = [0; 15];
        let mut highs = [0; 15];
        let mut byte_lows = [0; 15];
        let mut byte_highs = [0; 15];
        let still = self.still_rules();
        let rules = self.table.block.rules.as_slice();
        for n in (0..rules.len()).rev() {
            let rule = &rules[n];
            if is_needed(rule, out, n, still) {
                let so_far = least_masses(&lows, &highs, &byte_lows, &byte_highs, rule, out);
                if let Some(mass) = self.mass_above(n, so_far) {
                    raise_terms(&mut lows, rule, out, mass.low);
                    raise_terms(&mut highs, rule, out, mass.high);
                    raise_terms(&mut byte_lows, rule, out, mass.byte_low);
                    raise_terms(&mut byte_highs, rule, out, mass.byte_high);
                }
            }
        }
        Masses {
            lows,
            highs,
            byte_lows,
            byte_highs,
        }
    }

    /// How far the masses of an output's terms may be above those over bytes on the table's box, and how far below.
    fn deviations(&self, out: u8) -> Deviations
        requires table { IsTable self.now }
        ensures { AreDeviations (block_of self.now) (box_of self.now) out result }
    {
        let mut rises = [0; 15];
        let mut falls = [0; 15];
        let rules = self.table.block.rules.as_slice();
        for n in (0..rules.len()).rev() {
            let rule = &rules[n];
            if self.may_fire(n, out) {
                let high = self.end_of_rule(n, Side::High);
                let deviation = self.moving_deviation(n, high);
                raise_terms(&mut rises, rule, out, deviation.rise);
                raise_terms(&mut falls, rule, out, deviation.fall);
            }
        }
        Deviations { rises, falls }
    }

    /// How far the strength of the rule at an index may be above that over bytes, and how far below; both are 0 if
    /// the rule has no strength anywhere on the box.
    fn moving_deviation(&self, place: usize, high: End) -> Deviation
        requires table { IsTable self.now }
        requires place { place < length (block_of self.now).rules }
        requires high { (r : TheRule) → slice_get (block_of self.now).rules place ≡ Some r
            → IsEndOfRule (block_of self.now) (box_of self.now) r Side.High high }
        ensures rise { (r : TheRule) → slice_get (block_of self.now).rules place ≡ Some r → result.rise
            ≡ if_moving (block_of self.now) (box_of self.now) r
            (rule_rise (term_errors (block_of self.now) (box_of self.now)) r) }
        ensures fall { (r : TheRule) → slice_get (block_of self.now).rules place ≡ Some r → result.fall
            ≡ if_moving (block_of self.now) (box_of self.now) r
            (rule_fall (term_errors (block_of self.now) (box_of self.now)) r) }
        ensures small { IsSmallDeviation result }
    {
        if high.truth.num == 0 && high.byte == 0 {
            Deviation { rise: 0, fall: 0 }
        } else {
            self.deviation_of_rule(place)
        }
    }
}

/// The least of each sort of values at those of an output's terms that a rule concludes.
fn least_masses(
    lows: &[u64; 15],
    highs: &[u64; 15],
    byte_lows: &[u64; 15],
    byte_highs: &[u64; 15],
    rule: &Rule,
    out: u8,
) -> MassEnds
    requires { All (λ c. (1 ≤ c.1) × (c.1 ≤ 15)) rule.now.concl }
    ensures low { (t : ℕ) → t < 15 → concludes_it rule.now out (t + 1) ≡ true → result.low ≤ slice_index lows.now t }
    ensures high { (t : ℕ) → t < 15 → concludes_it rule.now out (t + 1) ≡ true
        → result.high ≤ slice_index highs.now t }
    ensures byte_low { (t : ℕ) → t < 15 → concludes_it rule.now out (t + 1) ≡ true
        → result.byte_low ≤ slice_index byte_lows.now t }
    ensures byte_high { (t : ℕ) → t < 15 → concludes_it rule.now out (t + 1) ≡ true
        → result.byte_high ≤ slice_index byte_highs.now t }
{
    let conclusions = rule.concl.as_slice();
    let mut low = u64::MAX;
    let mut high = u64::MAX;
    let mut byte_low = u64::MAX;
    let mut byte_high = u64::MAX;
    for k in (0..conclusions.len()).rev() {
        let (output, term) = conclusions[k];
        if output == out {
            let place = term as usize - 1;
            low = low.min(lows[place]);
            high = high.min(highs[place]);
            byte_low = byte_low.min(byte_lows[place]);
            byte_high = byte_high.min(byte_highs[place]);
        }
    }
    MassEnds {
        low,
        high,
        byte_low,
        byte_high,
    }
}

impl Masses {
    /// The Bound of a box with these masses, if the sum of the least ones is above 0, and that over bytes too.
    fn bound(&self, deviations: &Deviations, output: &Output, width: Width) -> Option<u32>
        requires output { IsValidOutput output.now }
        requires lows { AreSmall whole_mass self.now.lows }
        requires ordered { (t : ℕ) → t < 15 → slice_index self.now.byte_lows t ≤ slice_index self.now.byte_highs t }
        requires byte_highs { AreSmall 255 self.now.byte_highs }
        requires rises { AreSmall most_deviation deviations.now.rises }
        requires falls { AreSmall most_deviation deviations.now.falls }
        ensures bound { IfSome result (IsBoundAt self.now deviations.now output.now (parts width)) }
        ensures sum { IfSome result (λ n. 1 ≤ sum_at self.now.lows output.now.singletons) }
        ensures bytes { IfSome result (λ n. 1 ≤ sum_at self.now.byte_lows output.now.singletons) }
        ensures none { IfNone result (1 ≤ sum_at self.now.lows output.now.singletons
            → 1 ≤ sum_at self.now.byte_lows output.now.singletons → ⊥) }
    {
        let sum = sum_of(&self.lows, output);
        let bytes = sum_of(&self.byte_lows, output);
        if sum == 0 || bytes == 0 {
            return None;
        }
        let scale = Scale {
            width: output.hi.above(output.lo),
            sum,
            offset: live_offset(&self.byte_highs, output),
            parts: u64::from(width.parts()),
        };
        let ranges = ranges_of(output, &self.byte_lows, &self.byte_highs);
        let deviations = deviations_of(output, &deviations.rises, &deviations.falls);
        let count = output.singletons.len();
        Some(mean_error(&ranges[..count], &deviations[..count], scale))
    }
}

/// The ranges of the masses of an output's terms, given their lower and upper ends.
pub fn ranges_of(output: &Output, lows: &[u64; 15], highs: &[u64; 15]) -> [MassRange; 15]
    requires { IsValidOutput output.now }
    ensures { take (length output.now.singletons) result
        ≡ ranges_at (slice_index lows.now) (slice_index highs.now) output.now.lo 0 output.now.singletons }
{
    let mut ranges = [MassRange {
        at: 0,
        low: 0,
        high: 0,
    }; 15];
    let singletons = output.singletons.as_slice();
    for k in (0..singletons.len()).rev() {
        ranges[k] = MassRange {
            at: singletons[k].above(output.lo),
            low: lows[k],
            high: highs[k],
        };
    }
    ranges
}

/// The deviations of an output's terms.
fn deviations_of(output: &Output, rises: &[u64; 15], falls: &[u64; 15]) -> [Deviation; 15]
    requires { IsValidOutput output.now }
    ensures { take (length output.now.singletons) result
        ≡ deviations_at (slice_index rises.now) (slice_index falls.now) 0 output.now.singletons }
{
    let mut deviations = [Deviation { rise: 0, fall: 0 }; 15];
    for k in (0..output.singletons.len()).rev() {
        deviations[k] = Deviation {
            rise: rises[k],
            fall: falls[k],
        };
    }
    deviations
}

/// The sum of the values of an output's terms.
fn sum_of(values: &[u64; 15], output: &Output) -> u64
    requires output { IsValidOutput output.now }
    requires small { AreSmall whole_mass values.now }
    ensures value { result ≡ sum_at values.now output.now.singletons }
    ensures small { result ≤ 3825000000000 }
{
    let mut sum = 0;
    for k in (0..output.singletons.len()).rev() {
        sum = values[k] + sum;
    }
    sum
}

/// `number`, or 0 for a term whose greatest mass is 0.
fn if_some(high: u64, number: u64) -> u64
    ensures { result ≡ (if high == 0 then 0 else number) }
{
    if high == 0 { 0 } else { number }
}

/// The greatest distance of a singleton from the value of its byte, over the terms whose greatest mass is above 0.
fn live_offset(highs: &[u64; 15], output: &Output) -> u64
    requires output { IsValidOutput output.now }
    ensures value { result ≡ offset_at highs.now output.now }
    ensures small { result ≤ 510002550000 }
{
    let singletons = output.singletons.as_slice();
    let mut greatest = 0;
    for k in (0..singletons.len()).rev() {
        greatest = if_some(highs[k], offset(output, singletons[k])).max(greatest);
    }
    greatest
}
