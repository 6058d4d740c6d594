//! Slots and rule lists of blocks that texts spell.
ghost use Rattle.std.specs.Prelude.{IfOk};
ghost use Rattle.fuzzy_meaning.specs.Blocks.{IsValid};

use super::blocks::{block_in, block_of};
use fuzzy_meaning::Block;
use rule_layout::{LaidOut, LayoutFault, RuleInstruction, Slot, require_limits, spread};
use std::alloc::{AllocError, Global};
use std::process::Abort;
use std::test::Fail;
use test_texts::HALF_WEIGHT;

/// The text before the condition of a block's only rule. The block has three input terms, each 1 everywhere.
const HEAD: &str = "FUNCTION_BLOCK a VAR_INPUT x : REAL; END_VAR VAR_OUTPUT y : REAL; END_VAR
FUZZIFY x RANGE (0 .. 1); TERM a := (0, 1); TERM b := (0, 1); TERM c := (0, 1); END_FUZZIFY
DEFUZZIFY y RANGE (0 .. 1); TERM p := 1; METHOD : COGS; DEFAULT := NC; END_DEFUZZIFY
RULEBLOCK r RULE 1 : IF ";

const TAIL: &str = "; END_RULEBLOCK END_FUNCTION_BLOCK";

/// The block whose one rule has this condition, this many times with AND between, and a weight.
fn ruled(alloc: Global, condition: &[u8], times: u32, weight: &[u8]) -> Result<Block, Fail>
    ensures { IfOk result IsValid }
{
    let mut text = Vec::from_slice(alloc, HEAD.as_bytes())?;
    text.extend_from_slice(condition)?;
    for _ in 1..times {
        text.extend_from_slice(b" AND ")?;
        text.extend_from_slice(condition)?;
    }
    text.extend_from_slice(b" THEN y IS p ")?;
    text.extend_from_slice(weight)?;
    text.extend_from_slice(TAIL.as_bytes())?;
    block_of(alloc, &text)
}

/// Fails if the rule list in bytes has another length, or does not begin and end with these bytes.
fn list_is(
    rt: &impl Abort,
    alloc: Global,
    laid_out: &LaidOut<'_>,
    length: usize,
    ends: (&[u8], &[u8]),
) -> Result<(), Fail> {
    match laid_out.flat.instruction {
        RuleInstruction::Rev => {
            let bytes = laid_out.flat.bytes(alloc)?;
            assert!(rt; bytes.len() == length);
            assert!(rt; bytes.starts_with(ends.0));
            assert!(rt; bytes.ends_with(ends.1));
        }
        RuleInstruction::Revw => panic!(rt; "a list of words"),
    }
    Ok(())
}

/// The parts of a text, and the layout of its rules.
struct Laid {
    fcl: &'static [&'static str],
    slots: &'static [Slot],
    weights: &'static [u8],
    words: &'static [u16],
    /// The list in bytes, if the instruction has one.
    bytes: Option<&'static [u8]>,
}

// The OR under the AND makes two rules. The heater with half the weight on its first rule has its list in words.
static LAID: [Laid; 2] = [
    Laid {
        fcl: &[HEAD, "(x IS a OR x IS b) AND x IS NOT c THEN y IS p", TAIL],
        slots: &[
            Slot::Term(1, 1),
            Slot::Term(1, 2),
            Slot::Term(1, 3),
            Slot::Complement(1, 3),
            Slot::Out(1, 1),
        ],
        weights: &[255, 255],
        words: &[
            0x1100, 0x1103, 0xFFFE, 0x1104, 0xFFFE, 0x1101, 0x1103, 0xFFFE, 0x1104, 0xFFFF,
        ],
        bytes: Some(&[0, 3, 0xFE, 4, 0xFE, 1, 3, 0xFE, 4, 0xFF]),
    },
    Laid {
        fcl: &HALF_WEIGHT,
        slots: &[
            Slot::Term(1, 1),
            Slot::Term(1, 2),
            Slot::Out(1, 1),
            Slot::Out(1, 2),
        ],
        weights: &[127, 255],
        words: &[
            0x1100, 0xFFFE, 0x1102, 0xFFFE, 0x1101, 0xFFFE, 0x1103, 0xFFFF,
        ],
        bytes: None,
    },
];

/// Fails if the rules are laid out otherwise.
fn is_laid(
    rt: &impl Abort,
    alloc: Global,
    laid_out: &LaidOut<'_>,
    laid: &Laid,
) -> Result<(), Fail> {
    let flat = &laid_out.flat;
    assert!(rt; flat.slots.as_slice() == laid.slots);
    assert!(rt; flat.weights.as_slice() == laid.weights);
    assert!(rt; flat.words(alloc)?.as_slice() == laid.words);
    match laid.bytes {
        Some(bytes) => list_is(rt, alloc, laid_out, bytes.len(), (bytes, bytes)),
        None => {
            assert!(rt; flat.instruction == RuleInstruction::Revw);
            Ok(())
        }
    }
}

#[test]
fn rules_are_laid_out(rt: HostRuntime) -> Result<(), Fail> {
    let alloc = rt.alloc();
    for laid in LAID.iter() {
        let block = block_in(alloc, laid.fcl)?;
        let Ok(laid_out) = spread(alloc, &block) else {
            panic!(rt; "a fault");
        };
        is_laid(&rt, alloc, &laid_out, laid)?;
    }
    Ok(())
}

const EITHER: &[u8] = b"(x IS a OR x IS b)";

#[test]
fn spreads_nine_factors(rt: HostRuntime) -> Result<(), Fail> {
    let alloc = rt.alloc();
    let block = ruled(alloc, EITHER, 9, b"")?;
    let Ok(laid_out) = spread(alloc, &block) else {
        panic!(rt; "a fault");
    };
    assert!(rt; laid_out.flat.conjunctions.len() == 512);
    let first = [
        0, 0, 0, 0, 0, 0, 0, 0, 0, 0xFE, 3, 0xFE, 0, 0, 0, 0, 0, 0, 0, 0, 1,
    ];
    let last = [1, 1, 1, 1, 1, 1, 1, 1, 1, 0xFE, 3, 0xFF];
    let ends = (first.as_slice(), last.as_slice());
    list_is(&rt, alloc, &laid_out, 6144, ends)
}

#[test]
fn spreads_no_more_than_nine_factors(rt: HostRuntime) -> Result<(), Fail> {
    let alloc = rt.alloc();
    let long = ruled(alloc, EITHER, 9, b"WITH 0.5")?;
    let too_long = Some(LayoutFault::ListTooLong(12288));
    assert!(rt; spread(alloc, &long).err() == too_long);
    assert!(rt; require_limits(alloc, &long).err() == too_long);
    let many = ruled(alloc, EITHER, 10, b"")?;
    assert!(rt; spread(alloc, &many).err() == Some(LayoutFault::TooManyRules(1)));
    Ok(())
}

const VARIABLES: &[u8] = b"FUNCTION_BLOCK a
VAR_INPUT xa, xb, xc, xd, xe, xf, xg, xh : REAL; END_VAR VAR_OUTPUT y : REAL; END_VAR";

/// A name of two letters. The second is the number, counted from `a`.
fn push_name(text: &mut Vec<u8>, first: u8, number: u8) -> Result<(), AllocError> {
    text.extend_from_slice(&[first, b'a'.wrapping_add(number)])
}

/// The terms of a section, all with the same text after the name.
fn push_terms(text: &mut Vec<u8>, count: u8, course: &[u8]) -> Result<(), AllocError> {
    for term in 0..count {
        text.extend_from_slice(b" TERM ")?;
        push_name(text, b't', term)?;
        text.extend_from_slice(course)?;
    }
    Ok(())
}

/// The section of an input with its 15 terms.
fn push_input(text: &mut Vec<u8>, input: u8) -> Result<(), AllocError> {
    text.extend_from_slice(b" FUZZIFY ")?;
    push_name(text, b'x', input)?;
    text.extend_from_slice(b" RANGE (0 .. 1);")?;
    push_terms(text, 15, b" := (0, 1);")?;
    text.extend_from_slice(b" END_FUZZIFY")
}

/// `IF` an input `IS NOT` a term `THEN` the output is its last term.
fn push_rule(text: &mut Vec<u8>, input: u8, term: u8, last: u8) -> Result<(), AllocError> {
    text.extend_from_slice(b" RULE 1 : IF ")?;
    push_name(text, b'x', input)?;
    text.extend_from_slice(b" IS NOT ")?;
    push_name(text, b't', term)?;
    text.extend_from_slice(b" THEN y IS ")?;
    push_name(text, b't', last)?;
    text.extend_from_slice(b";")
}

fn push_inputs(text: &mut Vec<u8>) -> Result<(), AllocError> {
    for input in 0..8 {
        push_input(text, input)?;
    }
    Ok(())
}

fn push_rules(text: &mut Vec<u8>, last: u8) -> Result<(), AllocError> {
    for number in 0..120u8 {
        push_rule(text, number / 15, number % 15, last)?;
    }
    Ok(())
}

/// A block with one output that uses the complement of each of its 120 input terms.
fn widest(alloc: Global, outs: u8) -> Result<Block, Fail>
    ensures { IfOk result IsValid }
{
    let mut text = Vec::from_slice(alloc, VARIABLES)?;
    push_inputs(&mut text)?;
    text.extend_from_slice(b" DEFUZZIFY y RANGE (0 .. 1);")?;
    push_terms(&mut text, outs, b" := 1;")?;
    text.extend_from_slice(b" METHOD : COGS; DEFAULT := NC; END_DEFUZZIFY RULEBLOCK r")?;
    push_rules(&mut text, outs.saturating_sub(1))?;
    text.extend_from_slice(b" END_RULEBLOCK END_FUNCTION_BLOCK")?;
    block_of(alloc, &text)
}

/// Fails if the slots are not those of the terms, their complements and the output's terms, in this order.
fn in_order(rt: &impl Abort, slots: &[Slot], last: u8) {
    assert!(rt; slots.len() == 240 + usize::from(last));
    for (number, slot) in [
        (0, Slot::Term(1, 1)),
        (119, Slot::Term(8, 15)),
        (120, Slot::Complement(1, 1)),
        (239, Slot::Complement(8, 15)),
        (240, Slot::Out(1, 1)),
        (239 + usize::from(last), Slot::Out(1, last)),
    ] {
        assert!(rt; slots.get(number).copied() == Some(slot), "slot {number}");
    }
}

// In bytes the complements have the numbers 120 to 239, and the output's last term 253.
#[test]
fn bytes_number_254_slots(rt: HostRuntime) -> Result<(), Fail> {
    let alloc = rt.alloc();
    let block = widest(alloc, 14)?;
    let Ok(laid_out) = spread(alloc, &block) else {
        panic!(rt; "a fault");
    };
    in_order(&rt, laid_out.flat.slots.as_slice(), 14);
    let first = [120, 0xFE, 253, 0xFE, 121];
    let last = [239, 0xFE, 253, 0xFF];
    let ends = (first.as_slice(), last.as_slice());
    list_is(&rt, alloc, &laid_out, 480, ends)
}

// In words the output's last term is the slot of number 254.
#[test]
fn words_number_255_slots(rt: HostRuntime) -> Result<(), Fail> {
    let alloc = rt.alloc();
    let block = widest(alloc, 15)?;
    let Ok(laid_out) = spread(alloc, &block) else {
        panic!(rt; "a fault");
    };
    let flat = &laid_out.flat;
    in_order(&rt, flat.slots.as_slice(), 15);
    assert!(rt; flat.instruction == RuleInstruction::Revw);
    let words = flat.words(alloc)?;
    assert!(rt; words.len() == 480);
    assert!(rt; words.starts_with(&[0x1178, 0xFFFE, 0x11FE, 0xFFFE, 0x1179]));
    assert!(rt; words.ends_with(&[0x11EF, 0xFFFE, 0x11FE, 0xFFFF]));
    let unscaled = [255; 120];
    assert!(rt; flat.weights.as_slice() == unscaled.as_slice());
    Ok(())
}
