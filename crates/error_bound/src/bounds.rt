//! The Bound of a leaf.
ghost use Rattle.std.specs.Prelude.{◌≡◌, ◌≤◌, ◌<◌, ◌+◌, ◌*◌, min, max, All, slice_index, if◌then◌else◌, ℕ};
ghost use Rattle.fz_num.specs.{Fractions.up_div, Decimals.distance};
ghost use Rattle.byte_scaling.specs.Widths.{parts};
ghost use Rattle.fuzzy_meaning.specs.Blocks.{IsValidOutput, IsWithin};
ghost use Rattle.fuzzy_meaning.specs.Meaning.{concludes as concludes_it};
ghost use Rattle.error_bound.specs.Bounds.{offset as offset_of, greatest_offset as greatest_offset_of};
ghost use Rattle.error_bound.specs.Bounds.{strong_bound as strong_bound_of, silent_bound as silent_bound_of};
ghost use Rattle.error_bound.specs.Bounds.{errors_from};
ghost use Rattle.error_bound.specs.{CellErrors.term_errors, Errors.output_error as output_error_of, Reaches.IsTable};
ghost use Rattle.error_bound.specs.Reaches.{block_of, box_of};
ghost use Rattle.cell_error.specs.Means.{most_deviation};

use crate::leaves::concludes_some;
use crate::tables::BoxTable;
use byte_scaling::{Width, near};
use fuzzy_meaning::{Output, Rule};
use fz_num::Dec;

/// The Bound of a strong leaf, in millionths of the output's range, for answers of this width, from the sum of its
/// terms' errors and the leaf's `k`.
pub(crate) fn strong_bound(output: &Output, width: Width, sum: u64, k: u8) -> u32
    requires output { IsValidOutput output.now }
    requires sum { sum ≤ 45000000000 }
    requires k { 1 ≤ k }
    ensures { result ≡ strong_bound_of output.now (parts width) sum k }
{
    let bytes = whole_bytes(output);
    let steps = 255 * u64::from(width.parts());
    let offset = greatest_offset(output);
    let ends = offset * steps + bytes;
    let counted = 1_000_000_000 * u64::from(k);
    let num = product(sum * 255, bytes, steps) + u128::from(ends) * u128::from(counted);
    in_millionths(num, product(counted, bytes, steps))
}

/// The Bound of a silent leaf: how far the value of the default's byte is from the default, or 0 with NC.
pub(crate) fn silent_bound(output: &Output) -> u32
    requires { IsValidOutput output.now }
    ensures { result ≡ silent_bound_of output.now }
{
    match output.default {
        None => 0,
        Some(number) => in_millionths(
            u128::from(offset(output, number)),
            u128::from(whole_bytes(output)),
        ),
    }
}

/// 255 times an output's range, in 1/10000.
fn whole_bytes(output: &Output) -> u64
    requires { IsValidOutput output.now }
    ensures value { result ≡ 255 * distance output.now.lo output.now.hi }
    ensures some { 0 < result }
    ensures small { result ≤ 510002550000 }
{
    255 * output.hi.above(output.lo)
}

fn product(x: u64, bytes: u64, steps: u64) -> u128
    requires x { x ≤ 11475000000000 }
    requires bytes { bytes ≤ 510002550000 }
    requires steps { steps ≤ 65280 }
    ensures value { result ≡ x * (bytes * steps) }
    ensures small { result ≤ 382036790174400000000000000000 }
{
    u128::from(x) * u128::from(bytes * steps)
}

/// A fraction in millionths, rounded up, but at most 1000000.
pub(crate) fn in_millionths(num: u128, den: u128) -> u32
    requires num { num ≤ 400000000000000000000000000000 }
    requires den_from { 0 < den }
    requires den_to { den ≤ 400000000000000000000000000000 }
    ensures { result ≡ min 1000000 (up_div (1000000 * num) den) }
{
    ((1_000_000 * num + (den - 1)) / den).min(1_000_000) as u32
}

/// The distance of a number of an output from the value of its byte, as the numerator over `whole_bytes`.
pub(crate) fn offset(output: &Output, number: Dec) -> u64
    requires output { IsValidOutput output.now }
    requires number { IsWithin output.now.lo output.now.hi number }
    ensures value { result ≡ offset_of output.now number }
    ensures small { result ≤ 510002550000 }
{
    let byte = u64::from(near(output, number));
    (byte * output.hi.above(output.lo)).abs_diff(number.above(output.lo) * 255)
}

fn greatest_offset(output: &Output) -> u64
    requires { IsValidOutput output.now }
    ensures value { result ≡ greatest_offset_of output.now output.now.singletons }
    ensures small { result ≤ 510002550000 }
{
    let singletons = output.singletons.as_slice();
    let mut greatest = 0;
    for k in (0..singletons.len()).rev() {
        greatest = offset(output, singletons[k]).max(greatest);
    }
    greatest
}

impl BoxTable<'_> {
    /// The sum of the errors of an output's terms, in parts of 10^9.
    pub(crate) fn sum_of_errors(&self, output: &Output, out: u8) -> u64
        requires table { IsTable self.now }
        requires output { IsValidOutput output.now }
        ensures value { result
            ≡ errors_from (block_of self.now) (term_errors (block_of self.now) (box_of self.now)) out 1
            output.now.singletons }
        ensures small { result ≤ 45000000000 }
    {
        let errors = self.errors_by_term(out);
        let mut sum = 0;
        for k in (0..output.singletons.len()).rev() {
            sum = errors[k] + sum;
        }
        sum
    }

    /// The errors of an output's terms, in order: each is the greatest of the rules that conclude the term.
    fn errors_by_term(&self, out: u8) -> [u64; 15]
        requires table { IsTable self.now }
        ensures value { (t : ℕ) → t < 15 → slice_index result t
            ≡ output_error_of (block_of self.now) (term_errors (block_of self.now) (box_of self.now)) out (t + 1) }
        ensures small { (t : ℕ) → t < 15 → slice_index result t ≤ most_deviation }
    {
        let mut errors = [0; 15];
        let rules = self.table.block.rules.as_slice();
        for n in (0..rules.len()).rev() {
            if concludes_some(&rules[n], out) {
                let error = self.error_of_rule(n);
                raise_terms(&mut errors, &rules[n], out, error);
            }
        }
        errors
    }
}

/// Raises the errors of those of an output's terms that a rule concludes to at least the rule's error.
pub(crate) fn raise_terms(errors: &mut [u64; 15], rule: &Rule, out: u8, error: u64)
    requires { All (λ c. (1 ≤ c.1) × (c.1 ≤ 15)) rule.now.concl }
    ensures { (t : ℕ) → t < 15 → slice_index errors.new t ≡ (if concludes_it rule.now out (t + 1)
        then max error (slice_index errors.old t) else slice_index errors.old t) }
{
    let conclusions = rule.concl.as_slice();
    for k in (0..conclusions.len()).rev() {
        let (output, term) = conclusions[k];
        if output == out {
            let place = term as usize - 1;
            errors[place] = errors[place].max(error);
        }
    }
}
