//! The FCL text.
ghost use Rattle.std.specs.Prelude.{◌≡◌, ◌<◌, ◌++◌, IfOk, OnOk};
ghost use Rattle.std.specs.Fmt.{decimal};
ghost use Rattle.workload.specs.Texts.{fcl_text, rule_text};

use itoa::Buffer;
use std::alloc::{AllocError, Global};

/// Inputs, outputs and terms; the rules follow.
static VARIABLES: [u8; 964] = *b"FUNCTION_BLOCK generated
VAR_INPUT x : REAL; y : REAL; END_VAR
VAR_OUTPUT z : REAL; END_VAR
FUZZIFY x
TERM t0 := (0, 1) (32, 0); TERM t1 := (0, 0) (32, 1) (64, 0); TERM t2 := (32, 0) (64, 1) (96, 0);
TERM t3 := (64, 0) (96, 1) (128, 0); TERM t4 := (96, 0) (128, 1) (160, 0); TERM t5 := (128, 0) (160, 1) (192, 0);
TERM t6 := (160, 0) (192, 1) (224, 0); TERM t7 := (192, 0) (224, 1) (256, 0); TERM t8 := (224, 0) (256, 1);
RANGE := (0 .. 256);
END_FUZZIFY
FUZZIFY y
TERM t0 := (0, 1) (32, 0); TERM t1 := (0, 0) (32, 1) (64, 0); TERM t2 := (32, 0) (64, 1) (96, 0);
TERM t3 := (64, 0) (96, 1) (128, 0); TERM t4 := (96, 0) (128, 1) (160, 0); TERM t5 := (128, 0) (160, 1) (192, 0);
TERM t6 := (160, 0) (192, 1) (224, 0); TERM t7 := (192, 0) (224, 1) (256, 0); TERM t8 := (224, 0) (256, 1);
RANGE := (0 .. 256);
END_FUZZIFY
DEFUZZIFY z
TERM s0 := 0; TERM s1 := 25; TERM s2 := 50; TERM s3 := 75; TERM s4 := 100;
METHOD : COGS; DEFAULT := 0;
END_DEFUZZIFY
RULEBLOCK rules
";

/// The FCL text with this shift.
pub(crate) fn text_of(alloc: Global, shift: u8) -> Result<Vec<u8>, AllocError>
    requires { shift < 5 }
    ensures { IfOk result (λ text. text.items ≡ fcl_text shift) }
{
    let mut text = Vec::from_slice(alloc, &VARIABLES)?;
    for n in 0..81u32 {
        push_rule(&mut text, shift, n)?;
    }
    text.extend_from_slice(b"END_RULEBLOCK\nEND_FUNCTION_BLOCK\n")?;
    Ok(text)
}

/// Rule number n, from 0.
fn push_rule(text: &mut Vec<u8>, shift: u8, n: u32) -> Result<(), AllocError>
    requires shift { shift < 5 }
    requires number { n < 81 }
    ensures { OnOk result (text.new.items ≡ text.old.items ++ rule_text shift n) }
{
    let (i, j) = (n / 9, n % 9);
    text.extend_from_slice(b"RULE ")?;
    push_number(text, n + 1)?;
    text.extend_from_slice(b" : IF x IS t")?;
    push_number(text, i)?;
    text.extend_from_slice(b" AND y IS t")?;
    push_number(text, j)?;
    text.extend_from_slice(b" THEN z IS s")?;
    push_number(text, (i + 2 * j + u32::from(shift)) % 5)?;
    text.extend_from_slice(b";\n")?;
    Ok(())
}

fn push_number(text: &mut Vec<u8>, n: u32) -> Result<(), AllocError>
    ensures { OnOk result (text.new.items ≡ text.old.items ++ decimal n) }
{
    let mut buffer = Buffer::new();
    text.extend_from_slice(buffer.format(n).as_bytes())
}
