//! The items of EVAL and its data.
ghost use Rattle.std.specs.Prelude.{◌≡◌, ◌≤◌, ◌++◌, map, length, All, OnOk};
ghost use Rattle.fuzzy_meaning.specs.Blocks.{IsValidInput, IsValidOutput};
ghost use Rattle.cpu12_asm.specs.declared.items.Item.TheVariants.{Op};
ghost use Rattle.eval_code.specs.{Code.eval_code_over, Items.bytes_at, Items.block_items, Items.HasRoom};

use crate::bounds::output_terms;
use crate::code::{push_code, push_fuzzify, push_outputs, push_rules, push_slots};
use crate::data::{push_bytes, rule_bytes, singleton_bytes, table_bytes, weight_bytes};
use crate::memory_map::MemoryMap;
use byte_scaling::Width;
use cpu12_asm::Item;
use cpu12_isa::instr::Instr;
use fuzzy_meaning::{Input, Output};
use rule_layout::laws::flat_has_parts;
use rule_layout::{LaidOut, RuleInstruction, Slot};
use std::alloc::{AllocError, Global};

/// The code that is put around EVAL.
#[derive(Clone, Copy)]
pub struct Around<'a> {
    pub before: &'a [Instr],
    pub behind: &'a [Instr],
}

/// Appends a block's code at a memory map to other items, with what comes before and after EVAL, its tables and
/// its rule list.
pub fn push_block(
    alloc: Global,
    items: &mut Vec<Item>,
    memory_map: &MemoryMap,
    width: Width,
    laid_out: &LaidOut<'_>,
    around: &Around<'_>,
) -> Result<(), AllocError>
    requires { HasRoom memory_map.now }
    ensures { OnOk result (items.new.items ≡ items.old.items ++ block_items memory_map.now laid_out.now.block.now
        width around.now.before.now around.now.behind.now) }
{
    flat_has_parts();
    let (block, flat) = (laid_out.block, &laid_out.flat);
    items.push(Item::Place(memory_map.code))?;
    push_code(items, around.before)?;
    push_eval(
        items,
        memory_map,
        width,
        block.inputs.as_slice(),
        block.outputs.as_slice(),
        flat.slots.as_slice(),
        flat.instruction,
    )?;
    push_code(items, around.behind)?;
    push_bytes_at(items, memory_map.tables, &table_bytes(alloc, block)?)?;
    push_bytes_at(
        items,
        memory_map.singletons,
        &singleton_bytes(alloc, block)?,
    )?;
    push_bytes_at(items, memory_map.weights, weight_bytes(flat))?;
    push_bytes_at(
        items,
        memory_map.rules,
        &rule_bytes(alloc, memory_map.slots, laid_out)?,
    )?;
    Ok(())
}

/// The code that answers a sample, up to its return.
fn push_eval(
    items: &mut Vec<Item>,
    memory_map: &MemoryMap,
    width: Width,
    inputs: &[Input],
    outputs: &[Output],
    slots: &[Slot],
    instruction: RuleInstruction,
) -> Result<(), AllocError>
    requires inputs { All IsValidInput inputs.now }
    requires few_inputs { length inputs.now ≤ 8 }
    requires outputs { All IsValidOutput outputs.now }
    requires few_outputs { length outputs.now ≤ 4 }
    requires slots { length slots.now ≤ 300 }
    requires room { HasRoom memory_map.now }
    ensures { OnOk result (items.new.items
        ≡ items.old.items
        ++ map Op (eval_code_over memory_map.now width inputs.now outputs.now slots.now instruction)) }
{
    push_code(
        items,
        &[
            Instr::LdxImmediate(memory_map.tables),
            Instr::LdyImmediate(memory_map.slots),
        ],
    )?;
    push_fuzzify(items, memory_map.inputs, inputs)?;
    push_slots(items, memory_map.slots, inputs, slots)?;
    push_rules(items, memory_map, instruction)?;
    let first = memory_map.slots + (slots.len() as u16).saturating_sub(output_terms(outputs));
    push_outputs(
        items,
        width,
        memory_map.singletons,
        first,
        memory_map.outputs,
        outputs,
    )?;
    Ok(())
}

/// Bytes one after another from an address on.
fn push_bytes_at(items: &mut Vec<Item>, at: u16, bytes: &[u8]) -> Result<(), AllocError>
    ensures { OnOk result (items.new.items ≡ items.old.items ++ bytes_at at bytes.now) }
{
    items.push(Item::Place(at))?;
    push_bytes(items, bytes)
}
