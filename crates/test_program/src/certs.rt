//! Certificates from files: worked errors and faults.
ghost use Rattle.std.specs.Prelude.{◌≤◌};

use std::alloc::{AllocError, Global};
use std::fmt::Write;
use std::test::Fail;
use test_program_calls::{Difference, Left, call_over, rows};
use test_texts::{
    BLOCK, HALF_WEIGHT, HALVES, LATCH, NODES_OF_THE_LATCH, QUARTERS, ROUNDED, TWO_OUTPUTS,
};

/// A command, the parts of a text and those of a certificate, and what the command leaves.
#[derive(Clone, Copy)]
pub(crate) struct Certificate {
    pub(crate) command: &'static str,
    pub(crate) fcl: &'static [&'static str],
    pub(crate) cert: &'static [&'static str],
    pub(crate) left: Left<'static>,
}

const CERTIFIED: Left<'static> = Left::Lines("error 1 19609\ninstructions 28\n");

/// The heater's certificate.
const HEATER: Certificate = Certificate {
    command: "check",
    fcl: &[BLOCK],
    cert: &["FZC 1\nclaim 19609\n", HALVES],
    left: CERTIFIED,
};

/// The certificate of a block with two outputs. The singleton 30 has the byte 77, whose value is 30.196 of 100: the
/// second output's error is greater than the heater's by 0.00196 of its range.
const BOTH: Certificate = Certificate {
    fcl: &[TWO_OUTPUTS],
    cert: &["FZC 1\nclaim 19609 21569\n", QUARTERS],
    left: Left::Lines("error 1 19609\nerror 2 21569\ninstructions 43\n"),
    ..HEATER
};

static CERTIFICATES: [Certificate; 17] = rows! { Certificate:
    HEATER {};
    HEATER { cert: &["FZC 1\nclaim 20000\n", HALVES] };
    HEATER { cert: &["FZC 1\nclaim 19608\n", HALVES] }
        refused 6 "cert: output 1 claims 19608, computed 19609\n";
    HEATER { cert: &["FZC 1\nclaim 19609\nsplit 1 128\n"] } refused 6 "cert: early\n";
    HEATER { cert: &["FZC 1\nclaim 19609\nsplit 1 128\nleaf 1 128\nleaf 2 127\n"] }
        refused 6 "cert: line 4: weak rule 1 k 128 low 500000000\n";
    HEATER { cert: &["FZC 1\nclaim 19609\nsplit 1 0\nleaf 1 127\nleaf 2 127\n"] }
        refused 6 "cert: line 3: bad cut\n";
    HEATER { cert: &["FZC 1\nclaim 19609\nsplit 1 128\nleaf 2 127\nleaf 2 127\n"] }
        refused 6 "cert: line 4: weak rule 2 k 127 low 0\n";
    HEATER { cert: &["FZC 1\nclaim 19609\nsplit 1 128\nleaf 0 0\nleaf 2 127\n"] }
        refused 6 "cert: line 4: silent rule 1 high 1000000000\n";
    HEATER { cert: &["FZC 1\nclaim 19609\n", HALVES, "leaf 0 0\n"] } refused 6 "cert: line 6: late\n";
    HEATER { cert: &["FZC 1\nclaim 1 1\nleaf 0 0 0 0\n"] } refused 6 "cert: outputs 2 1\n";
    HEATER { command: "check16", cert: &["FZC 2\nclaim 15702\n", HALVES] }
        leaves "error 1 15702\ninstructions 31\n";
    HEATER { command: "check16", cert: &["FZC 1\nclaim 19609\n", HALVES] }
        refused 6 "cert: line 1: bad line\n";
    HEATER { fcl: &HALF_WEIGHT, cert: &["FZC 1\nclaim 51417\nsplit 1 128\nleaf 1 63\nleaf 2 127\n"] }
        leaves "error 1 51417\ninstructions 29\n";
    HEATER { fcl: &HALF_WEIGHT, cert: &["FZC 1\nclaim 51417\nsplit 1 128\nleaf 1 64\nleaf 2 127\n"] }
        refused 6 "cert: line 4: weak rule 1 k 64 low 250000000\n";
    HEATER { fcl: &[LATCH], cert: &["FZC 1\nclaim 3922\n", NODES_OF_THE_LATCH] }
        leaves "error 1 3922\ninstructions 30\n";
    HEATER { fcl: &[LATCH], cert: &["FZC 1\nclaim 19609\n", HALVES] }
        refused 6 "cert: line 4: weak rule 1 k 127 low 0\n";
    HEATER { fcl: &[], cert: &["FZC 3\n"] } refused 4 "fcl: at 0: expected\n";
};

static OTHERS: [Certificate; 9] = rows! { Certificate:
    BOTH {};
    BOTH { cert: &["FZC 1\nclaim 19609 21568\n", QUARTERS] }
        refused 6 "cert: output 2 claims 21568, computed 21569\n";
    BOTH { cert: &["FZC 1\nclaim 19608 21568\n", QUARTERS] }
        refused 6 "cert: output 1 claims 19608, computed 19609\n";
    BOTH {
        cert: &[
            "FZC 1\nclaim 19609 21569\nsplit 1 128\nsplit 2 128\nleaf 1 127 3 128\nleaf 1 128 4 127\n",
            "leaf 1 127 3 127\n",
        ]
    } refused 6 "cert: line 5: weak rule 3 k 128 low 500000000\n";
    HEATER { cert: &["FZC 1\nclaim 19609\nsplit 1 128\nleaf 3 127\nleaf 2 127\n"] }
        refused 6 "cert: line 4: bad rule\n";
    HEATER { fcl: &[ROUNDED], cert: &["FZC 1\nclaim 19609\nsplit 1 56\nleaf 2 1\nleaf 0 0\n"] }
        refused 6 "cert: line 4: still rule 2\n";
    HEATER { fcl: &[ROUNDED], cert: &["FZC 1\nclaim 19609\nsplit 1 56\nleaf 2 2\nleaf 0 0\n"] }
        refused 6 "cert: line 4: weak rule 2 k 2 low 5000000\n";
    HEATER { fcl: &[ROUNDED], cert: &["FZC 1\nclaim 19609\nsplit 1 56\nleaf 0 0\nleaf 0 0\n"] }
        refused 6 "cert: line 4: loud rule 1 byte 55\n";
    HEATER { fcl: &[ROUNDED], cert: &["FZC 1\nclaim 19609\nsplit 1 57\nleaf 0 0\nleaf 0 0\n"] }
        refused 6 "cert: line 4: silent rule 1 high 5000000\n";
};

pub(crate) fn judge(alloc: Global, rows: &[Certificate]) -> Result<(), Difference> {
    for row in rows {
        let line = ["fuzz12", row.command, "first", "second"];
        call_over(alloc, &line, row.fcl, row.cert, &row.left)?;
    }
    Ok(())
}

#[test]
fn certificates(rt: HostRuntime) -> Result<(), Fail> {
    judge(rt.alloc(), &CERTIFICATES)?;
    judge(rt.alloc(), &OTHERS)?;
    Ok(())
}

static CHECK: [&str; 4] = ["fuzz12", "check", "first", "second"];

/// The line of a cut of the only input.
fn push_cut(text: &mut String, cut: u32) -> Result<(), AllocError> {
    write!(text, "split 1 {cut}\n")
}

/// A leaf for a byte, with the rule that is stronger there.
fn push_leaf(text: &mut String, byte: u32) -> Result<(), AllocError>
    requires { byte ≤ 255 }
{
    let (rule, part) = if byte < 128 {
        (1, 254 - byte)
    } else {
        (2, byte - 1)
    };
    write!(text, "leaf {rule} {part}\n")
}

/// The heater's certificate with a leaf for each byte, cut from the last byte down, but with this
/// first cut and this many leaves.
fn each_byte(alloc: Global, first: u32, leaves: u32) -> Result<String, AllocError>
    requires { leaves ≤ 256 }
{
    let mut text = String::from_str(alloc, "FZC 1\nclaim 11796\n")?;
    push_cut(&mut text, first)?;
    for cut in (1..255u32).rev() {
        push_cut(&mut text, cut)?;
    }
    for byte in 0..leaves {
        push_leaf(&mut text, byte)?;
    }
    Ok(text)
}

/// As many leaves as there may be, each after a cut, and one more.
fn a_leaf_more(alloc: Global) -> Result<String, AllocError> {
    let mut text = String::from_str(alloc, "FZC 1\nclaim 0\n")?;
    for _ in 0..4096u32 {
        text.push_str("split 1 1\nleaf 0 0\n")?;
    }
    text.push_str("leaf 0 0\n")?;
    Ok(text)
}

fn judge_heater(alloc: Global, cert: &str, left: &Left) -> Result<(), Difference> {
    call_over(alloc, &CHECK, &[BLOCK], &[cert], left)
}

#[test]
fn long_certificates(rt: HostRuntime) -> Result<(), Fail> {
    let alloc = rt.alloc();
    let left = Left::Lines("error 1 11796\ninstructions 28\n");
    judge_heater(alloc, &each_byte(alloc, 255, 256)?, &left)?;
    let left = Left::Refused(6, "cert: early\n");
    judge_heater(alloc, &each_byte(alloc, 0, 255)?, &left)?;
    let left = Left::Refused(6, "cert: line 8195: too many leaves\n");
    judge_heater(alloc, &a_leaf_more(alloc)?, &left)?;
    Ok(())
}
