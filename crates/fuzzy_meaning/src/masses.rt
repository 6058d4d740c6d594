//! Strengths of rules and masses of output terms.
ghost use Rattle.std.specs.Prelude.{◌≡◌, ◌-◌, ◌≤◌, length, slice_get, Some, option_map};
ghost use Rattle.fz_num.specs.Fractions.{fraction_of, IsTruth};
ghost use Rattle.fuzzy_meaning.specs.Blocks.{IsValid, IsValidRule, HasSingleton, AreInputs};
ghost use Rattle.fuzzy_meaning.specs.Meaning.{concludes as concludes_of, strength as strength_of_rule};
ghost use Rattle.fuzzy_meaning.specs.Meaning.{mass as mass_of};

use crate::block::{Block, Rule};
use crate::degrees::NONE;
use crate::truths::truth;
use fz_num::{Dec, Frac};

/// The weight of a rule without a WITH.
const FULL_WEIGHT: Dec = Dec(10_000);

/// The strength of a rule, which counts from 1: its condition's truth times its weight.
pub fn strength(block: &Block, rule: u16, xs: &[Dec]) -> Frac
    requires rule_from { 1 ≤ rule }
    requires rule_to { rule ≤ length block.now.rules }
    requires block { IsValid block.now }
    requires xs { AreInputs block.now xs.now }
    ensures value { option_map (strength_of_rule block.now xs.now) (slice_get block.now.rules (rule - 1))
        ≡ Some (fraction_of result) }
    ensures truth { IsTruth 40000000000000 result }
{
    strength_of(&block.rules.as_slice()[rule as usize - 1], block, xs)
}

fn strength_of(rule: &Rule, block: &Block, xs: &[Dec]) -> Frac
    requires rule { IsValidRule block.now rule.now }
    requires block { IsValid block.now }
    requires xs { AreInputs block.now xs.now }
    ensures value { fraction_of result ≡ strength_of_rule block.now xs.now rule.now }
    ensures truth { IsTruth 40000000000000 result }
{
    let weight = rule.weight.unwrap_or(FULL_WEIGHT);
    truth(&rule.cond, block, xs).times(weight)
}

/// The mass of a term of an output: the greatest strength of the rules that conclude it, or 0.
pub fn mass(block: &Block, out: u8, term: u8, xs: &[Dec]) -> Frac
    requires term { HasSingleton block.now out term }
    requires block { IsValid block.now }
    requires xs { AreInputs block.now xs.now }
    ensures value { fraction_of result ≡ mass_of block.now xs.now out term }
    ensures truth { IsTruth 40000000000000 result }
{
    let rules = block.rules.as_slice();
    let mut greatest = NONE;
    for k in (0..rules.len()).rev() {
        if concludes(&rules[k], out, term) {
            greatest = strength_of(&rules[k], block, xs).max(greatest);
        }
    }
    greatest
}

/// Whether a rule concludes a term of an output.
pub fn concludes(rule: &Rule, out: u8, term: u8) -> bool
    ensures { result ≡ concludes_of rule.now out term }
{
    rule.concl
        .as_slice()
        .iter()
        .any(|c| c.0 == out && c.1 == term)
}
