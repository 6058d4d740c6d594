//! The code of EVAL.
ghost use Rattle.std.specs.Prelude.{◌≡◌, ◌+◌, ◌^◌, ◌<◌, ◌≤◌, ◌++◌, map, length, replicate, sum_by, All, OnOk, Some};
ghost use Rattle.std.specs.Prelude.{None};
ghost use Rattle.fuzzy_meaning.specs.Blocks.{IsValidOutput};
ghost use Rattle.cpu12_asm.specs.declared.items.Item.TheVariants.{Op};
ghost use Rattle.rule_layout.specs.Slots.{term_count};
ghost use Rattle.byte_scaling.specs.declared.width.Width.TheVariants as Width;
ghost use Rattle.eval_code.specs.Code.{fuzzify_code, terms_before, slot_code, slots_code, rules_code, quotient_code};
ghost use Rattle.eval_code.specs.Code.{output_code, outputs_code};

use crate::memory_map::MemoryMap;
use byte_scaling::{Width, near};
use cpu12_asm::Item;
use cpu12_isa::instr::Instr;
use fuzzy_meaning::{Input, Output};
use rule_layout::{RuleInstruction, Slot};
use std::alloc::AllocError;

/// Instructions one after another.
pub(crate) fn push_code(items: &mut Vec<Item>, code: &[Instr]) -> Result<(), AllocError>
    ensures { OnOk result (items.new.items ≡ items.old.items ++ map Op code.now) }
{
    for instruction in code {
        items.push(Item::Op(*instruction))?;
    }
    Ok(())
}

/// One instruction, repeated.
fn push_copies(items: &mut Vec<Item>, instruction: Instr, count: usize) -> Result<(), AllocError>
    ensures { OnOk result (items.new.items ≡ items.old.items ++ map Op (replicate count instruction)) }
{
    for _turn in 0..count {
        items.push(Item::Op(instruction))?;
    }
    Ok(())
}

/// The grades of the inputs, the first of which is at `first`.
pub(crate) fn push_fuzzify(
    items: &mut Vec<Item>,
    first: u16,
    inputs: &[Input],
) -> Result<(), AllocError>
    requires { first + length inputs.now < 2 ^ 16 }
    ensures { OnOk result (items.new.items ≡ items.old.items ++ map Op (fuzzify_code first inputs.now)) }
{
    let mut at = first;
    for input in inputs {
        items.push(Item::Op(Instr::LdaaExtended(at)))?;
        push_copies(items, Instr::Mem, input.terms.len())?;
        at += 1;
    }
    Ok(())
}

/// How many terms the inputs before an input have.
fn terms_before(inputs: &[Input], input: u8) -> u16
    requires { sum_by term_count inputs.now ≤ 120 }
    ensures { result ≡ terms_before inputs.now input }
{
    let before = usize::from(input).saturating_sub(1).min(inputs.len());
    let mut terms = 0;
    for input in &inputs[..before] {
        terms += input.terms.len() as u16;
    }
    terms
}

/// What a slot is set to before the rules.
fn push_slot(
    items: &mut Vec<Item>,
    slots: u16,
    inputs: &[Input],
    at: u16,
    slot: Slot,
) -> Result<(), AllocError>
    requires few { sum_by term_count inputs.now ≤ 120 }
    requires room { slots + 512 ≤ 2 ^ 16 }
    ensures { OnOk result (items.new.items ≡ items.old.items ++ map Op (slot_code slots inputs.now at slot)) }
{
    match slot {
        Slot::Term(_, _) => Ok(()),
        Slot::Complement(input, term) => {
            let number = terms_before(inputs, input) + u16::from(term.saturating_sub(1));
            push_code(
                items,
                &[
                    Instr::LdaaExtended(slots + number),
                    Instr::Coma,
                    Instr::StaaExtended(at),
                ],
            )
        }
        Slot::Out(_, _) => push_code(items, &[Instr::ClrExtended(at)]),
    }
}

/// What the slots are set to before the rules.
pub(crate) fn push_slots(
    items: &mut Vec<Item>,
    first: u16,
    inputs: &[Input],
    slots: &[Slot],
) -> Result<(), AllocError>
    requires few { sum_by term_count inputs.now ≤ 120 }
    requires room { first + 512 ≤ 2 ^ 16 }
    requires slots { length slots.now ≤ 300 }
    ensures { OnOk result (items.new.items ≡ items.old.items ++ map Op (slots_code first inputs.now first slots.now)) }
{
    let mut at = first;
    for slot in slots {
        push_slot(items, first, inputs, at, *slot)?;
        at += 1;
    }
    Ok(())
}

/// The rules.
pub(crate) fn push_rules(
    items: &mut Vec<Item>,
    memory_map: &MemoryMap,
    instruction: RuleInstruction,
) -> Result<(), AllocError>
    ensures { OnOk result (items.new.items ≡ items.old.items ++ map Op (rules_code memory_map.now instruction)) }
{
    match instruction {
        RuleInstruction::Rev => push_code(
            items,
            &[
                Instr::LdxImmediate(memory_map.rules),
                Instr::LdyImmediate(memory_map.slots),
                Instr::LdaaImmediate(0xFF),
                Instr::Andcc(0xFD),
                Instr::Rev,
            ],
        ),
        RuleInstruction::Revw => push_code(
            items,
            &[
                Instr::LdxImmediate(memory_map.rules),
                Instr::LdyImmediate(memory_map.weights),
                Instr::LdaaImmediate(0xFF),
                Instr::Andcc(0xFD),
                Instr::Orcc(0x01),
                Instr::Revw,
            ],
        ),
    }
}

/// A byte answer from the sums of WAV, stored at an address. If there is no mass, the default's byte is stored or,
/// with NC, nothing.
fn push_byte_answer(items: &mut Vec<Item>, at: u16, default: Option<u8>) -> Result<(), AllocError>
    ensures { OnOk result (items.new.items ≡ items.old.items ++ map Op (quotient_code Width.Byte at default)) }
{
    match default {
        Some(byte) => push_code(
            items,
            &[
                Instr::CpxImmediate(0),
                Instr::Beq(5),
                Instr::Ediv,
                Instr::TransferYD,
                Instr::Bra(2),
                Instr::LdabImmediate(byte),
                Instr::StabExtended(at),
            ],
        ),
        None => push_code(
            items,
            &[
                Instr::CpxImmediate(0),
                Instr::Beq(6),
                Instr::Ediv,
                Instr::TransferYD,
                Instr::StabExtended(at),
            ],
        ),
    }
}

/// A 16-bit answer, in the same way: the quotient is its high byte, and its low byte comes from the remainder.
fn push_word_answer(items: &mut Vec<Item>, at: u16, default: Option<u8>) -> Result<(), AllocError>
    requires { at + 1 < 2 ^ 16 }
    ensures { OnOk result (items.new.items ≡ items.old.items ++ map Op (quotient_code Width.Word at default)) }
{
    let (high, low) = (at, at + 1);
    let past = match default {
        Some(_) => 15,
        None => 13,
    };
    push_code(
        items,
        &[
            Instr::CpxImmediate(0),
            Instr::Beq(past),
            Instr::Ediv,
            Instr::Fdiv,
            Instr::TransferYD,
            Instr::StabExtended(high),
            Instr::TransferXD,
            Instr::StaaExtended(low),
        ],
    )?;
    match default {
        Some(byte) => push_code(
            items,
            &[
                Instr::Bra(8),
                Instr::LdabImmediate(byte),
                Instr::StabExtended(high),
                Instr::ClrExtended(low),
            ],
        ),
        None => Ok(()),
    }
}

/// An output's answer.
fn push_output(
    items: &mut Vec<Item>,
    width: Width,
    singletons: u16,
    slots: u16,
    at: u16,
    output: &Output,
) -> Result<(), AllocError>
    requires valid { IsValidOutput output.now }
    requires room { at + 1 < 2 ^ 16 }
    ensures { OnOk result (items.new.items
        ≡ items.old.items ++ map Op (output_code width singletons slots at output.now)) }
{
    push_code(
        items,
        &[
            Instr::LdxImmediate(singletons),
            Instr::LdyImmediate(slots),
            Instr::LdabImmediate(output.singletons.len() as u8),
            Instr::Wav,
        ],
    )?;
    let default = output.default.map(|x| near(output, x));
    match width {
        Width::Byte => push_byte_answer(items, at, default),
        Width::Word => push_word_answer(items, at, default),
    }
}

/// The outputs' answers, from the first singleton, slot and answer on.
pub(crate) fn push_outputs(
    items: &mut Vec<Item>,
    width: Width,
    singletons: u16,
    slots: u16,
    answers: u16,
    outputs: &[Output],
) -> Result<(), AllocError>
    requires valid { All IsValidOutput outputs.now }
    requires few { length outputs.now ≤ 4 }
    requires room { (singletons + 64 < 2 ^ 16) × (slots + 64 < 2 ^ 16) × (answers + 8 < 2 ^ 16) }
    ensures { OnOk result (items.new.items
        ≡ items.old.items ++ map Op (outputs_code width singletons slots answers outputs.now)) }
{
    let mut singleton = singletons;
    let mut slot = slots;
    let mut at = answers;
    for output in outputs {
        push_output(items, width, singleton, slot, at, output)?;
        let terms = output.singletons.len() as u16;
        singleton += terms;
        slot += terms;
        at += width.places();
    }
    Ok(())
}
