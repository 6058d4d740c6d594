//! The layout of a block's rules.
ghost use Rattle.std.specs.Prelude.{◌≡◌, ◌*◌, ◌<◌, ◌≤◌, ◌++◌, nat_le, ◌&&◌, not, map, replicate, flat_map, length, All};
ghost use Rattle.std.specs.Prelude.{IfOk, IfErr, OnOk, IfSome, sum_by, true, false};
ghost use Rattle.std.specs.List.{list_any};
ghost use Rattle.std.specs.Coded.{Coded-set};
ghost use Rattle.std.proofs.Props.{props};
ghost use Rattle.fuzzy_meaning.specs.Blocks.{IsValid, IsWeight, rule_size};
ghost use Rattle.rule_layout.specs.declared.flat.LayoutFault.TheVariants.{Memory};
ghost use Rattle.rule_layout.specs.{Props.HasLiterals-prop, Slots.out_slot, Slots.slots_of, Tables.IsInTable};
ghost use Rattle.rule_layout.specs.{Tables.table_number};
ghost use Rattle.rule_layout.specs.Sizes.{IsCountable, IsSizeOfRule, IsSizeOfRules};
ghost use Rattle.rule_layout.specs.Layouts.{flat_of, IsWithinLimits, IsFaultOf, IsLaidOut, rule_spread, rule_weights};
ghost use Rattle.rule_layout.specs.Layouts.{is_below_one, instruction_by, instruction_of, element_width};
ghost use Rattle.rule_layout.specs.Steps.{table_conjunctions, IsSpreadable, with_conclusions};

use crate::flat::{Conjunction, Flat, LayoutFault, RuleInstruction, Slot};
use crate::sizes::{Size, size_of};
use crate::slots::{SlotNumbers, slots};
use crate::spreading::conjunctions;
use byte_scaling::weight_byte;
use fuzzy_meaning::{Block, Rule};
use fz_list::List;
use fz_num::Dec;
use std::alloc::{AllocError, Global};

/// The most bytes of a rule list.
const MOST_LIST_BYTES: u32 = 9984;

/// The most slots that bytes can number in addition to the marks `$FE` and `$FF`.
const MOST_BYTE_SLOTS: usize = 254;

impl From<AllocError> for LayoutFault {
    ghost from_gives = { λ _ e. e ≡ Memory };

    fn from(_: AllocError) -> LayoutFault {
        LayoutFault::Memory
    }
}

/// A block with its rules laid out.
#[derive(Drop)]
pub struct LaidOut<'a> {
    pub block: &'a Block,
    pub flat: Flat,
    pub ghost valid: { IsValid block.now } by { Prim.hlevel (props, HasLiterals-prop) },
    pub ghost limits: { IsWithinLimits block.now },
    pub ghost flat_is: { flat ≡ flat_of block.now } by { Coded-set flat-code flat (flat_of block.now) },

    // What `Flat::bytes` and `Flat::words` ask for.
    pub ghost laid_out: { IsLaidOut flat } by { Prim.hlevel props },
}

/// A block's rules laid out. Where they are over a limit, nothing is spread.
pub fn spread<'a>(alloc: Global, block: &'a Block) -> Result<LaidOut<'a>, LayoutFault>
    requires { IsValid block.now }
    ensures block { IfOk result (λ l. l.block.now ≡ block.now) }
    ensures limits { OnOk result (IsWithinLimits block.now) }
    ensures fault { IfErr result (IsFaultOf block.now) }
{
    let (slots, instruction) = slots_within_limits(alloc, block)?;
    let numbers = SlotNumbers::new(&slots);
    let (conjunctions, weights) = spread_rules(alloc, &numbers, block.rules.as_slice())?;
    let flat = Flat {
        slots: List::new(slots),
        conjunctions: List::new(conjunctions),
        weights: List::new(weights),
        instruction,
    };
    Ok(LaidOut { block, flat })
}

/// Checks that `spread` lays out a block's rules, and spreads nothing.
pub fn require_limits(alloc: Global, block: &Block) -> Result<(), LayoutFault>
    requires { IsValid block.now }
    ensures limits { OnOk result (IsWithinLimits block.now) }
    ensures fault { IfErr result (IsFaultOf block.now) }
{
    let _ = slots_within_limits(alloc, block)?;
    Ok(())
}

/// The slots of a block and the instruction of its list, if its rules are within the limits. `TooManyRules` comes
/// before `ListTooLong`.
fn slots_within_limits(
    alloc: Global,
    block: &Block,
) -> Result<(Vec<Slot>, RuleInstruction), LayoutFault>
    requires { IsValid block.now }
    ensures slots { IfOk result (λ p. p.0.items ≡ slots_of block.now) }
    ensures instruction { IfOk result (λ p. p.1 ≡ instruction_of block.now) }
    ensures limits { OnOk result (IsWithinLimits block.now) }
    ensures fault { IfErr result (IsFaultOf block.now) }
{
    let rules = block.rules.as_slice();
    let size = size_of_rules(rules)?;
    let slots = slots(alloc, block)?;
    let instruction = instruction_of(slots.len(), rules);
    let bytes = element_width(instruction) * size.entries;
    if bytes > MOST_LIST_BYTES {
        return Err(LayoutFault::ListTooLong(bytes));
    }
    Ok((slots, instruction))
}

/// The number of conjunctions that rules spread into and the number of elements of their list.
fn size_of_rules(rules: &[Rule]) -> Result<Size, LayoutFault>
    requires countable { All IsCountable rules.now }
    requires few { length rules.now ≤ 256 }
    ensures { IsSizeOfRules rules.now result }
{
    let mut total = Size::NONE;
    let mut number = 0;
    for rule in rules {
        number += 1;
        let Some(size) = size_of_rule(rule) else {
            return Err(LayoutFault::TooManyRules(number));
        };
        let Some(sum) = total.plus(size) else {
            return Err(LayoutFault::TooManyRules(number));
        };
        total = sum;
    }
    Ok(total)
}

/// The same for one rule: each conjunction has the rule's conclusions and two marks.
fn size_of_rule(rule: &Rule) -> Option<Size>
    requires { IsCountable rule.now }
    ensures { IsSizeOfRule rule.now result }
{
    let size = size_of(&rule.cond, false)?;
    let others = rule.concl.len() as u32 + 2;
    Some(Size {
        conjunctions: size.conjunctions,
        entries: size.entries + size.conjunctions * others,
    })
}

pub(crate) fn instruction_of(slots: usize, rules: &[Rule]) -> RuleInstruction
    ensures { result ≡ instruction_by slots rules.now }
{
    if slots <= MOST_BYTE_SLOTS && !is_weighted(rules) {
        RuleInstruction::Rev
    } else {
        RuleInstruction::Revw
    }
}

/// Whether some rule has a weight below 1.
fn is_weighted(rules: &[Rule]) -> bool
    ensures { result ≡ list_any (λ r. is_below_one r.weight) rules.now }
{
    rules.iter().any(|rule| is_below_one(rule.weight))
}

fn is_below_one(weight: Option<Dec>) -> bool
    ensures { result ≡ is_below_one weight }
{
    match weight {
        None => false,
        Some(weight) => weight.0 < 10000,
    }
}

/// The bytes of an element of the list.
fn element_width(instruction: RuleInstruction) -> u32
    ensures { result ≡ element_width instruction }
{
    match instruction {
        RuleInstruction::Rev => 1,
        RuleInstruction::Revw => 2,
    }
}

/// The conjunctions of some rules, in order, and the weight byte of each.
fn spread_rules(
    alloc: Global,
    numbers: &SlotNumbers,
    rules: &[Rule],
) -> Result<(Vec<Conjunction>, Vec<u8>), AllocError>
    requires spreadable { All IsSpreadable rules.now }
    requires weights { All (λ r. IfSome r.weight IsWeight) rules.now }
    ensures conjunctions { IfOk result
        (λ p. p.0.items ≡ flat_map (table_conjunctions numbers.now.table) rules.now) }
    ensures weights { IfOk result (λ p. p.1.items ≡ flat_map rule_weights rules.now) }
{
    let mut all = Vec::new(alloc);
    let mut weights = Vec::new(alloc);
    for rule in rules {
        let conclusions = conclusions_of(alloc, numbers, rule.concl.as_slice())?;
        let spread = conjunctions(alloc, numbers, &rule.cond, false)?;
        push_times(&mut weights, weight_byte(rule.weight), spread.len())?;
        push_conjunctions(alloc, &mut all, spread, &conclusions)?;
    }
    Ok((all, weights))
}

/// The slots that a rule's conclusions raise.
fn conclusions_of(
    alloc: Global,
    numbers: &SlotNumbers,
    conclusions: &[(u8, u8)],
) -> Result<Vec<u16>, AllocError>
    requires { All (λ p. IsInTable (out_slot p)) conclusions.now }
    ensures { IfOk result
        (λ v. v.items ≡ map (λ p. table_number numbers.now.table (out_slot p)) conclusions.now) }
{
    let mut all = Vec::new(alloc);
    for (output, term) in conclusions {
        all.push(numbers.number(Slot::Out(*output, *term)))?;
    }
    Ok(all)
}

/// Appends conjunctions of one rule to those before.
fn push_conjunctions(
    alloc: Global,
    all: &mut Vec<Conjunction>,
    spread: Vec<List<u16>>,
    conclusions: &[u16],
) -> Result<(), AllocError>
    ensures { OnOk result
        (all.new.items ≡ all.old.items ++ map (with_conclusions conclusions.now) spread.items) }
{
    for literals in spread {
        let conclusions = List::new(Vec::from_slice(alloc, conclusions)?);
        all.push(Conjunction {
            literals,
            conclusions,
        })?;
    }
    Ok(())
}

/// Appends a byte a number of times.
fn push_times(bytes: &mut Vec<u8>, byte: u8, times: usize) -> Result<(), AllocError>
    ensures { OnOk result (bytes.new.items ≡ bytes.old.items ++ replicate times byte) }
{
    for _time in 0..times {
        bytes.push(byte)?;
    }
    Ok(())
}
