//! The bytes that EVAL reads in addition to its code.
ghost use Rattle.std.specs.Prelude.{◌≡◌, ◌+◌, ◌^◌, ◌<◌, ◌++◌, map, flat_map, IfOk, OnOk};
ghost use Rattle.fuzzy_meaning.specs.Blocks.{IsValid, IsValidOutput};
ghost use Rattle.cpu12_asm.specs.declared.items.Item.TheVariants.{Byte};
ghost use Rattle.eval_code.specs.Data.{table_bytes, singleton_bytes, singleton_bytes_of, weight_bytes_by};
ghost use Rattle.eval_code.specs.Data.{bytes_of_word, rule_bytes_by};

use byte_scaling::near;
use cpu12_asm::Item;
use fuzzy_meaning::{Block, Output};
use point_slope::table;
use rule_layout::{Flat, LaidOut, RuleInstruction};
use std::alloc::{AllocError, Global};

/// Bytes one after another.
pub(crate) fn push_bytes(items: &mut Vec<Item>, bytes: &[u8]) -> Result<(), AllocError>
    ensures { OnOk result (items.new.items ≡ items.old.items ++ map Byte bytes.now) }
{
    for byte in bytes {
        items.push(Item::Byte(*byte))?;
    }
    Ok(())
}

/// A word, its high byte first.
pub fn push_word(items: &mut Vec<Item>, word: u16) -> Result<(), AllocError>
    ensures { OnOk result (items.new.items ≡ items.old.items ++ map Byte (bytes_of_word word)) }
{
    push_bytes(items, &[(word >> 8) as u8, (word & 0xFF) as u8])
}

/// The tables of a block's terms.
pub fn table_bytes(alloc: Global, block: &Block) -> Result<Vec<u8>, AllocError>
    requires { IsValid block.now }
    ensures { IfOk result (λ v. v.items ≡ table_bytes block.now) }
{
    let rows = match table(alloc, block) {
        Ok(rows) => rows,
        Err(_) => return Err(AllocError),
    };
    let mut bytes = Vec::new(alloc);
    bytes.extend_from_slice(rows.as_slice().as_flattened())?;
    Ok(bytes)
}

/// Appends the singletons of an output to other bytes.
fn add_singletons(bytes: &mut Vec<u8>, output: &Output) -> Result<(), AllocError>
    requires { IsValidOutput output.now }
    ensures { OnOk result (bytes.new.items ≡ bytes.old.items ++ singleton_bytes_of output.now) }
{
    for singleton in output.singletons.as_slice() {
        bytes.push(near(output, *singleton))?;
    }
    Ok(())
}

/// The singletons of all outputs.
pub fn singleton_bytes(alloc: Global, block: &Block) -> Result<Vec<u8>, AllocError>
    requires { IsValid block.now }
    ensures { IfOk result (λ v. v.items ≡ singleton_bytes block.now) }
{
    let mut bytes = Vec::new(alloc);
    for output in block.outputs.as_slice() {
        add_singletons(&mut bytes, output)?;
    }
    Ok(bytes)
}

/// The weights, for REVW only.
pub(crate) fn weight_bytes(flat: &Flat) -> &[u8]
    ensures { result.now ≡ weight_bytes_by flat.now.instruction flat.now.weights }
{
    match flat.instruction {
        RuleInstruction::Rev => &[],
        RuleInstruction::Revw => flat.weights.as_slice(),
    }
}

/// The bytes of words, the high one of each first.
fn bytes_of_words(alloc: Global, words: &[u16]) -> Result<Vec<u8>, AllocError>
    ensures { IfOk result (λ v. v.items ≡ flat_map bytes_of_word words.now) }
{
    let mut bytes = Vec::new(alloc);
    for word in words {
        bytes.push((*word >> 8) as u8)?;
        bytes.push((*word & 0xFF) as u8)?;
    }
    Ok(bytes)
}

/// The rule list, with the slots from an address on.
pub fn rule_bytes(alloc: Global, slots: u16, laid_out: &LaidOut<'_>) -> Result<Vec<u8>, AllocError>
    requires { slots + 1024 < 2 ^ 16 }
    ensures { IfOk result
        (λ v. v.items ≡ rule_bytes_by slots laid_out.now.flat.instruction laid_out.now.flat.conjunctions) }
{
    let flat = &laid_out.flat;
    match flat.instruction {
        RuleInstruction::Rev => flat.bytes(alloc),
        RuleInstruction::Revw => {
            let words = flat.words_from(alloc, slots)?;
            bytes_of_words(alloc, words.as_slice())
        }
    }
}
