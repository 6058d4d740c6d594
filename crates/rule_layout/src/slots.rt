//! The slots of a block and their numbers.
ghost use Rattle.std.specs.Prelude.{◌≡◌, ◌+◌, ◌<◌, ◌≤◌, ◌++◌, map, filter, length, IfOk, OnOk, All};
ghost use Rattle.std.specs.List.{range_with_len};
ghost use Rattle.fuzzy_meaning.specs.Blocks.{IsValid};
ghost use Rattle.rule_layout.specs.Slots.{slots_of, terms_from, term_count, singleton_count, term_slot};
ghost use Rattle.rule_layout.specs.Slots.{complement_slot, out_slot};
ghost use Rattle.rule_layout.specs.Grid.{FitsGrid, IsInGrid};
ghost use Rattle.rule_layout.specs.Tables.{IsInTable, place_of, table_number, IsNumbering, is_marked, AreAdded};
ghost use Rattle.rule_layout.specs.Tables.{AreUsed};

use crate::flat::Slot;
use fuzzy_meaning::{Block, Condition, Input, Node, Output, Rule};
use std::alloc::{AllocError, Global};

/// The most terms of a variable.
const MOST_TERMS: usize = 15;

/// The most slots: terms and complements of 8 inputs, and terms of 4 outputs.
const MOST_SLOTS: usize = 20 * MOST_TERMS;

/// A slot's place in a table with a row for each input's terms, then one for each input's complements, then one
/// for each output.
fn place(slot: Slot) -> usize
    requires { IsInTable slot }
    ensures value { result ≡ place_of slot }
    ensures inside { result < 300 }
{
    let (row, term) = match slot {
        Slot::Term(input, term) => (input as usize - 1, term),
        Slot::Complement(input, term) => (input as usize + 7, term),
        Slot::Out(output, term) => (output as usize + 15, term),
    };
    row * MOST_TERMS + (term as usize - 1)
}

/// The numbers of a block's slots.
#[derive(Drop)]
pub struct SlotNumbers {
    table: [u16; MOST_SLOTS],
}

impl SlotNumbers {
    /// The place of each slot in a list of slots, from 0.
    pub fn new(slots: &[Slot]) -> SlotNumbers
        requires known { All IsInTable slots.now }
        requires few { length slots.now ≤ 300 }
        ensures { IsNumbering slots.now result.table }
    {
        let mut table = [0; MOST_SLOTS];
        // From the last on, so that a slot's first place stays.
        for number in (0..slots.len()).rev() {
            table[place(slots[number])] = number as u16;
        }
        SlotNumbers { table }
    }

    pub fn number(&self, slot: Slot) -> u16
        requires { IsInTable slot }
        ensures { result ≡ table_number self.now.table slot }
    {
        self.table[place(slot)]
    }
}

/// The input terms whose complements are used.
#[derive(Drop)]
struct Complements {
    table: [bool; MOST_SLOTS],
}

impl Complements {
    fn new(rules: &[Rule]) -> Complements
        requires { All (λ r. FitsGrid r.cond) rules.now }
        ensures { AreUsed rules.now result.table }
    {
        let mut complements = Complements {
            table: [false; MOST_SLOTS],
        };
        for rule in rules {
            complements.add(&rule.cond, false);
        }
        complements
    }

    /// Adds those of a condition; `odd` is set under an odd number of NOTs.
    fn add(&mut self, condition: &Condition, odd: bool)
        requires { FitsGrid condition.now }
        ensures { AreAdded odd condition.now self.old.table self.new.table }
    {
        match &condition.node {
            Node::Is(input, term) => {
                if odd {
                    self.table[place(Slot::Complement(*input, *term))] = true;
                }
            }
            Node::Not(part) => self.add(part, !odd),
            Node::And(parts) | Node::Or(parts) => {
                for part in parts {
                    self.add(part, odd);
                }
            }
        }
    }

    fn contains(&self, input: u8, term: u8) -> bool
        requires { IsInGrid input term }
        ensures { result ≡ is_marked self.now.table input term }
    {
        self.table[place(Slot::Complement(input, term))]
    }
}

/// Appends a variable's terms to the terms of the variables before it.
fn push_terms(terms: &mut Vec<(u8, u8)>, variable: u8, count: usize) -> Result<(), AllocError>
    requires { count ≤ 15 }
    ensures { OnOk result
        (terms.new.items ≡ terms.old.items ++ map (λ t. (variable, t)) (range_with_len 1 count)) }
{
    for term in 0..count {
        terms.push((variable, term as u8 + 1))?;
    }
    Ok(())
}

fn input_terms(alloc: Global, inputs: &[Input]) -> Result<Vec<(u8, u8)>, AllocError>
    requires few { length inputs.now ≤ 8 }
    requires few_terms { All (λ x. length x.terms ≤ 15) inputs.now }
    ensures { IfOk result (λ v. v.items ≡ terms_from 1 (map term_count inputs.now)) }
{
    let mut terms = Vec::new(alloc);
    let mut variable = 0;
    for input in inputs {
        variable += 1;
        push_terms(&mut terms, variable, input.terms.len())?;
    }
    Ok(terms)
}

fn output_terms(alloc: Global, outputs: &[Output]) -> Result<Vec<(u8, u8)>, AllocError>
    requires few { length outputs.now ≤ 4 }
    requires few_terms { All (λ x. length x.singletons ≤ 15) outputs.now }
    ensures { IfOk result (λ v. v.items ≡ terms_from 1 (map singleton_count outputs.now)) }
{
    let mut terms = Vec::new(alloc);
    let mut variable = 0;
    for output in outputs {
        variable += 1;
        push_terms(&mut terms, variable, output.singletons.len())?;
    }
    Ok(terms)
}

fn push_term_slots(slots: &mut Vec<Slot>, terms: &[(u8, u8)]) -> Result<(), AllocError>
    ensures { OnOk result (slots.new.items ≡ slots.old.items ++ map term_slot terms.now) }
{
    for (input, term) in terms {
        slots.push(Slot::Term(*input, *term))?;
    }
    Ok(())
}

fn push_complement_slots(
    slots: &mut Vec<Slot>,
    terms: &[(u8, u8)],
    used: &Complements,
) -> Result<(), AllocError>
    requires { All (λ p. IsInGrid p.0 p.1) terms.now }
    ensures { OnOk result (slots.new.items
        ≡ slots.old.items ++ map complement_slot (filter (λ p. is_marked used.now.table p.0 p.1) terms.now)) }
{
    for (input, term) in terms {
        if used.contains(*input, *term) {
            slots.push(Slot::Complement(*input, *term))?;
        }
    }
    Ok(())
}

fn push_out_slots(slots: &mut Vec<Slot>, terms: &[(u8, u8)]) -> Result<(), AllocError>
    ensures { OnOk result (slots.new.items ≡ slots.old.items ++ map out_slot terms.now) }
{
    for (output, term) in terms {
        slots.push(Slot::Out(*output, *term))?;
    }
    Ok(())
}

/// A block's slots: the input terms, the complements that some rule uses and the output terms.
pub fn slots(alloc: Global, block: &Block) -> Result<Vec<Slot>, AllocError>
    requires { IsValid block.now }
    ensures { IfOk result (λ v. v.items ≡ slots_of block.now) }
{
    let terms = input_terms(alloc, block.inputs.as_slice())?;
    let used = Complements::new(block.rules.as_slice());
    let mut slots = Vec::new(alloc);
    push_term_slots(&mut slots, &terms)?;
    push_complement_slots(&mut slots, &terms, &used)?;
    push_out_slots(&mut slots, &output_terms(alloc, block.outputs.as_slice())?)?;
    Ok(slots)
}
