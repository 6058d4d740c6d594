//! Worked samples without a certificate, including blocks for which none is accepted.
ghost use Rattle.std.specs.Prelude.{◌≤◌};
ghost use Rattle.fuzzy_meaning.specs.Blocks.{IsValid};

use crate::values::blocks::{block_in, block_of};
use byte_scaling::Width;
use codegen::{Firmware, compile_for};
use fuzzy_meaning::Block;
use fz_run::Row;
use interrupt_plan::no_interrupts;
use std::alloc::{AllocError, Global};
use std::fmt::Write;
use std::process::Abort;
use std::test::Fail;
use test_texts::{BACK, FRONT, HALF_WEIGHT, LATCH, MIDDLE, SECOND};
use trace_io::read_trace;

/// A sample's answers, and its instructions and steps, if they are given.
struct Sampled {
    answers: &'static [u16],
    instructions: Option<u32>,
    steps: Option<u32>,
}

/// The width of a block's answers, the bound on instructions, if it is given, a trace, and the
/// expected rows of its samples.
struct Worked {
    width: Width,
    bound: Option<u32>,
    trace: &'static str,
    samples: &'static [Sampled],
}

// Texts in parts, each with its samples: the heater without its second rule and with a default that is no end
// of the range, the heater with no weight on its first rule, a block that keeps its answer where no rule fires, and the
// heater with half the weight on its first rule.
static WORKED: [(&[&str], Worked); 4] = [
    (
        &[FRONT, "50", MIDDLE, BACK],
        Worked {
            width: Width::Byte,
            bound: Some(28),
            trace: "256",
            samples: &[Sampled {
                answers: &[128],
                instructions: Some(26),
                steps: Some(30),
            }],
        },
    ),
    (
        &[FRONT, "0", MIDDLE, " WITH 0", SECOND, BACK],
        Worked {
            width: Width::Byte,
            bound: Some(29),
            trace: "64\n0\n",
            samples: &[
                Sampled {
                    answers: &[255],
                    instructions: Some(29),
                    steps: None,
                },
                Sampled {
                    answers: &[0],
                    instructions: Some(27),
                    steps: None,
                },
            ],
        },
    ),
    (
        &[LATCH],
        Worked {
            width: Width::Byte,
            bound: Some(30),
            trace: "128",
            samples: &[Sampled {
                answers: &[0],
                instructions: Some(27),
                steps: None,
            }],
        },
    ),
    (
        &HALF_WEIGHT,
        Worked {
            width: Width::Word,
            bound: None,
            trace: "64",
            samples: &[Sampled {
                answers: &[26276],
                instructions: None,
                steps: None,
            }],
        },
    ),
];

/// The block's firmware.
fn firmware_of(rt: &impl Abort, alloc: Global, width: Width, block: &Block) -> Firmware
    requires { IsValid block.now }
    ensures { result.outputs ≤ 4 }
{
    let Ok(firmware) = compile_for(alloc, width, block) else {
        panic!(rt; "no firmware");
    };
    firmware
}

/// The rows of a trace without interrupts.
fn rows_of(
    rt: &impl Abort,
    alloc: Global,
    block: &Block,
    firmware: &Firmware,
    trace: &str,
) -> Vec<Row>
    requires block { IsValid block.now }
    requires firmware { firmware.now.outputs ≤ 4 }
{
    if trace.len() > 1_048_576 {
        panic!(rt; "too long");
    }
    let Ok(samples) = read_trace(alloc, trace.as_bytes(), block) else {
        panic!(rt; "no samples");
    };
    let plan = no_interrupts(alloc);
    let Ok(rows) = alone_runs::run(alloc, firmware, &samples, &plan, 0) else {
        panic!(rt; "no rows");
    };
    rows
}

/// Fails if a row differs.
fn is_row(rt: &impl Abort, row: &Row, wanted: &Sampled) {
    assert!(rt; row.answers.as_slice() == wanted.answers);
    if let Some(instructions) = wanted.instructions {
        assert!(rt; row.instrs == instructions);
    }
    if let Some(steps) = wanted.steps {
        assert!(rt; row.steps == steps);
    }
}

fn are_rows(rt: &impl Abort, rows: &[Row], wanted: &[Sampled]) {
    assert!(rt; rows.len() == wanted.len());
    for (row, sampled) in rows.iter().zip(wanted) {
        is_row(rt, row, sampled);
    }
}

/// Fails if a block's bound or one of its samples' rows differs.
fn samples(rt: &impl Abort, alloc: Global, block: &Block, worked: &Worked)
    requires { IsValid block.now }
{
    let firmware = firmware_of(rt, alloc, worked.width, block);
    if let Some(bound) = worked.bound {
        assert!(rt; firmware.instr_bound == bound);
    }
    let rows = rows_of(rt, alloc, block, &firmware, worked.trace);
    are_rows(rt, rows.as_slice(), worked.samples);
}

#[test]
fn worked_samples(rt: HostRuntime) -> Result<(), Fail> {
    for (parts, worked) in WORKED.iter() {
        let block = block_in(rt.alloc(), parts)?;
        samples(&rt, rt.alloc(), &block, worked);
    }
    Ok(())
}

const FULL_VARIABLES: &str = "FUNCTION_BLOCK full
VAR_INPUT x1, x2, x3, x4, x5, x6, x7, x8 : REAL; END_VAR
VAR_OUTPUT y1, y2, y3, y4 : REAL; END_VAR
";

const FULL_SAMPLES: &str = "112,240,240,240,240,240,240,240
0,240,240,240,240,240,240,240
240,16,16,16,16,16,16,16
";

/// The singleton of term `k` of output `o` of a full block.
fn singleton(o: u32, k: u32) -> u32
    requires { (1 ≤ k) × (k ≤ 15) }
{
    match o {
        1 => 17 * k,
        2 => 255 - 17 * k,
        3 => 17 * k - 16,
        _ => 16 * k,
    }
}

/// Input `i`: the degree of its term `k` is 1 only at 16*k, and 0 from the points of the neighbouring
/// terms on.
fn push_input(text: &mut String, i: u32) -> Result<(), AllocError> {
    write!(text, "FUZZIFY x{i} RANGE := (0 .. 256);\n")?;
    for k in 1..16u32 {
        let (first, mid, last) = (16 * k - 16, 16 * k, 16 * k + 16);
        write!(text, "TERM t{k} := ({first}, 0) ({mid}, 1) ({last}, 0);\n")?;
    }
    text.push_str("END_FUZZIFY\n")
}

fn push_output(text: &mut String, o: u32, default: &str) -> Result<(), AllocError> {
    write!(text, "DEFUZZIFY y{o} RANGE := (0 .. 255);\n")?;
    for k in 1..16u32 {
        let value = singleton(o, k);
        write!(text, "TERM s{k} := {value};\n")?;
    }
    write!(text, "METHOD : COGS; DEFAULT := {default}; END_DEFUZZIFY\n")
}

/// Rules that use the complement of each term, and spread into two conjunctions each.
fn push_rules(text: &mut String) -> Result<(), AllocError> {
    for r in 0..256u32 {
        let (k, i) = (r % 15 + 1, r % 120 / 15 + 1);
        write!(
            text,
            "RULE {r} : IF x1 IS t{k} AND (x{i} IS NOT t{k} OR x2 IS NOT t{k})"
        )?;
        write!(
            text,
            " THEN y1 IS s{k}, y2 IS s{k}, y3 IS s{k}, y4 IS s{k};\n"
        )?;
    }
    Ok(())
}

/// A block at every limit: 8 inputs of 15 terms, 4 outputs of 15 terms, and 256 rules that spread
/// into 512 conjunctions.
fn full_text(alloc: Global) -> Result<String, AllocError> {
    let mut text = String::from_str(alloc, FULL_VARIABLES)?;
    for i in 1..9u32 {
        push_input(&mut text, i)?;
    }
    push_output(&mut text, 1, "3")?;
    push_output(&mut text, 2, "4")?;
    push_output(&mut text, 3, "NC")?;
    push_output(&mut text, 4, "NC")?;
    text.push_str("RULEBLOCK r\n")?;
    push_rules(&mut text)?;
    text.push_str("END_RULEBLOCK\nEND_FUNCTION_BLOCK\n")?;
    Ok(text)
}

// Where x1 is at the point of its term k and no other input is at that of theirs, only the rules of
// term k fire, wholly: each output answers its singleton k. Where x1 is at 0 none fires. The bound is
// 13 + 8 + 120 + 3*120 + 60 + 10*2 + 9*2 + 1, and where nothing fires an output with a number as its
// DEFAULT takes 2 instructions less, and one with NC 3.
static FULL: Worked = Worked {
    width: Width::Byte,
    bound: Some(600),
    trace: FULL_SAMPLES,
    samples: &[
        Sampled {
            answers: &[119, 136, 103, 112],
            instructions: Some(600),
            steps: None,
        },
        Sampled {
            answers: &[3, 4, 103, 112],
            instructions: Some(590),
            steps: None,
        },
        Sampled {
            answers: &[255, 0, 239, 240],
            instructions: Some(600),
            steps: None,
        },
    ],
};

#[test]
fn a_block_at_every_limit(rt: HostRuntime) -> Result<(), Fail> {
    let text = full_text(rt.alloc())?;
    let block = block_of(rt.alloc(), text.as_bytes())?;
    samples(&rt, rt.alloc(), &block, &FULL);
    Ok(())
}
