//! Bounds on the instructions and steps of a sample.
ghost use Rattle.std.specs.Prelude.{◌≡◌, ◌+◌, ◌≤◌, sum_by, length, All};
ghost use Rattle.fuzzy_meaning.specs.Blocks.{IsValidInput, IsValidOutput};
ghost use Rattle.rule_layout.specs.Slots.{term_count, singleton_count};
ghost use Rattle.eval_code.specs.Bounds.{output_bound, entry_count, revw_bound, instruction_bound, steps_by};

use byte_scaling::Width;
use fuzzy_meaning::{Input, Output};
use rule_layout::laws::flat_has_parts;
use rule_layout::{Conjunction, LaidOut, RuleInstruction};

/// How many terms inputs have.
fn input_terms(inputs: &[Input]) -> u32
    requires valid { All IsValidInput inputs.now }
    requires few { length inputs.now ≤ 8 }
    ensures value { result ≡ sum_by term_count inputs.now }
    ensures few { result ≤ 120 }
{
    let mut terms = 0;
    for input in inputs {
        terms += input.terms.len() as u32;
    }
    terms
}

/// How many terms outputs have.
pub(crate) fn output_terms(outputs: &[Output]) -> u16
    requires valid { All IsValidOutput outputs.now }
    requires few { length outputs.now ≤ 4 }
    ensures value { result ≡ sum_by singleton_count outputs.now }
    ensures few { result ≤ 60 }
{
    let mut terms = 0;
    for output in outputs {
        terms += output.singletons.len() as u16;
    }
    terms
}

/// The most instructions that an output's answer takes.
fn output_bound(width: Width, output: &Output) -> u32
    ensures value { result ≡ output_bound width output.now }
    ensures few { result ≤ 13 }
{
    match (width, output.default) {
        (Width::Byte, Some(_)) => 10,
        (Width::Byte, None) => 9,
        (Width::Word, Some(_)) => 13,
        (Width::Word, None) => 12,
    }
}

/// The most instructions that the outputs' answers take.
fn output_bounds(width: Width, outputs: &[Output]) -> u32
    requires { length outputs.now ≤ 4 }
    ensures value { result ≡ sum_by (output_bound width) outputs.now }
    ensures few { result ≤ 52 }
{
    let mut bound = 0;
    for output in outputs {
        bound += output_bound(width, output);
    }
    bound
}

/// How many elements the rule list has: each conjunction has two marks.
fn elements(conjunctions: &[Conjunction]) -> u32
    requires { sum_by entry_count conjunctions.now ≤ 9984 }
    ensures value { result ≡ sum_by entry_count conjunctions.now }
    ensures few { result ≤ 9984 }
{
    let mut count = 0;
    for conjunction in conjunctions {
        let literals = conjunction.literals.len();
        let conclusions = conjunction.conclusions.len();
        count += (literals + conclusions + 2) as u32;
    }
    count
}

/// REVW takes one more instruction than REV.
fn revw_bound(instruction: RuleInstruction) -> u32
    ensures value { result ≡ revw_bound instruction }
    ensures few { result ≤ 1 }
{
    match instruction {
        RuleInstruction::Rev => 0,
        RuleInstruction::Revw => 1,
    }
}

/// The most instructions that a sample takes.
pub fn instruction_bound(width: Width, laid_out: &LaidOut<'_>) -> u32
    ensures value { result ≡ instruction_bound width laid_out.now.block.now }
    ensures few { result ≤ 2000 }
{
    flat_has_parts();
    let (block, flat) = (laid_out.block, &laid_out.flat);
    let terms = input_terms(block.inputs.as_slice());
    let singletons = u32::from(output_terms(block.outputs.as_slice()));
    let complements = (flat.slots.len() as u32)
        .saturating_sub(terms)
        .saturating_sub(singletons);
    13 + block.inputs.len() as u32
        + terms
        + 3 * complements
        + singletons
        + output_bounds(width, block.outputs.as_slice())
        + revw_bound(flat.instruction)
}

/// The steps of at most this many instructions of a sample.
pub fn steps_by(laid_out: &LaidOut<'_>, instructions: u32) -> u32
    requires { instructions ≤ 130000 }
    ensures { result ≡ steps_by laid_out.now.block.now instructions }
{
    flat_has_parts();
    let block = laid_out.block;
    let singletons = u32::from(output_terms(block.outputs.as_slice()));
    let outputs = block.outputs.len() as u32;
    instructions.saturating_sub(1).saturating_sub(outputs)
        + elements(laid_out.flat.conjunctions.as_slice())
        + singletons
}
