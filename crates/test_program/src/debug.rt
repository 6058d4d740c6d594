//! Scripts of the debugger over runs of the heater.
use fz_shelf::MemShelf;
use std::alloc::{AllocError, Global};
use std::test::Fail;
use test_program_calls::{Difference, Left, NONE, call, push_bytes, push_file, rows, shelf_of};
use test_texts::{BLOCK, RECORDS};

/// A trace, a plan and a script, and what a run of the heater with them leaves.
#[derive(Clone, Copy)]
struct Debugged {
    trace: &'static str,
    plan: &'static str,
    script: &'static str,
    left: Left<'static>,
}

/// The heater's run with an empty plan and an empty script.
const HEATER: Debugged = Debugged {
    trace: "64\n",
    plan: "",
    script: "",
    left: Left::Lines("sample 1 bytes 64 answers 64 instructions 28 steps 36 resumed 0 frames 0\n"),
};

/// Two interrupts between the two parts of WAV.
const TWICE: &str = "1,26\n1,26\n";

// The positions and registers are worked out from the listing of the heater: the loop begins at C008, REV stands at
// C031 with its eight bytes of rules, WAV at C03B, and the instruction before C04C stores the answer.
static DEBUGGED: [Debugged; 10] = rows! { Debugged:
    HEATER { plan: TWICE, script: "watch 1010\ngo\nregs\nmem 1010 1\n" } leaves "stop 1 33 C04C
pc C04C a 00 b 40 x 00FF y 0040 sp 1FFE ccr C0
mem 1010 40
sample 1 bytes 64 answers 64 instructions 28 steps 36 resumed 1 frames 2
frame 1 26 C03C 1FEF 15
frame 1 26 C03C 1FEF 9
";
    HEATER { plan: TWICE, script: "break C031\ngo\nstep 3\n" } leaves "stop 1 14 C031
stop 1 17 C031
sample 1 bytes 64 answers 64 instructions 28 steps 36 resumed 1 frames 2
frame 1 26 C03C 1FEF 15
frame 1 26 C03C 1FEF 9
";
    HEATER {};
    HEATER {
        script: "unbreak C031\nbreak C031\nwatch 1010\nbreak c031\nunbreak C031\nunwatch 1010\ngo\ngo\nstep 1\n"
    } leaves "stop 1 36 C008
stop 1 36 C008
stop 1 36 C008
sample 1 bytes 64 answers 64 instructions 28 steps 36 resumed 0 frames 0
";
    HEATER { trace: "64\n0\n", script: "mem FFFE 4\nbreak C008\ngo\ngo\nstep 1000000\n" }
        leaves "mem FFFE C0 00 00 00
stop 1 36 C008
stop 2 0 C008
stop 2 36 C008
sample 1 bytes 64 answers 64 instructions 28 steps 36 resumed 0 frames 0
sample 2 bytes 0 answers 0 instructions 28 steps 36 resumed 0 frames 0
";
    HEATER { trace: "", script: "regs\nstep 5\n" } leaves "pc C008 a 00 b 00 x 0000 y 0000 sp 2000 ccr C4
stop 0 0 C008
";
    HEATER { script: "step 0\n" } refused 15 "script: line 1\n";
    HEATER { script: "go\nbreak  C031\n" } refused 15 "script: line 2\n";
    HEATER { plan: "0,0\n", script: "step 0\n" } refused 7 "plan: row 1: bad row\n";
    HEATER { trace: "257\n", plan: "0,0\n", script: "step 0\n" }
        refused 7 "trace: row 1: input 1 out of range\n";
};

const LINE: [&str; 8] = [
    "fuzz12", "debug", "a.fcl", "a.s19", "a.csv", "a.plan", "00", "script",
];

/// The five files.
fn shelf(alloc: Global, trace: &str, plan: &str, script: &[u8]) -> Result<MemShelf, Difference> {
    let mut files = Vec::new(alloc);
    push_file(alloc, &mut files, "a.fcl", &[BLOCK])?;
    push_file(alloc, &mut files, "a.s19", &[RECORDS])?;
    push_file(alloc, &mut files, "a.csv", &[trace])?;
    push_file(alloc, &mut files, "a.plan", &[plan])?;
    push_bytes(alloc, &mut files, "script", script)?;
    shelf_of(alloc, files, &NONE)
}

fn debug(alloc: Global, debugged: &Debugged) -> Result<(), Difference> {
    let script = debugged.script.as_bytes();
    let mut shelf = shelf(alloc, debugged.trace, debugged.plan, script)?;
    call(alloc, &LINE, &mut shelf, &NONE, &debugged.left)
}

#[test]
fn debugs(rt: HostRuntime) -> Result<(), Fail> {
    for debugged in DEBUGGED.iter() {
        debug(rt.alloc(), debugged)?;
    }
    Ok(())
}

/// PC at each boundary of the sample after the first one, from the lengths of the instructions; REV has eight parts,
/// and WAV two with both interrupts between them.
const EACH_BOUNDARY: &str = "stop 1 1 C00B
stop 1 2 C00D
stop 1 3 C016
stop 1 4 C019
stop 1 5 C01C
stop 1 6 C01F
stop 1 7 C020
stop 1 8 C021
stop 1 9 C024
stop 1 10 C027
stop 1 11 C02A
stop 1 12 C02D
stop 1 13 C02F
stop 1 14 C031
stop 1 15 C031
stop 1 16 C031
stop 1 17 C031
stop 1 18 C031
stop 1 19 C031
stop 1 20 C031
stop 1 21 C031
stop 1 22 C033
stop 1 23 C036
stop 1 24 C039
stop 1 25 C03B
stop 1 26 C03C
stop 1 27 C03D
stop 1 28 C040
stop 1 29 C042
stop 1 30 C043
stop 1 31 C045
stop 1 32 C049
stop 1 33 C04C
stop 1 34 C010
stop 1 35 C013
stop 1 36 C008
sample 1 bytes 64 answers 64 instructions 28 steps 36 resumed 1 frames 2
frame 1 26 C03C 1FEF 15
frame 1 26 C03C 1FEF 9
";

/// A script of this many lines.
fn push_lines(script: &mut Vec<u8>, line: &[u8], count: u32) -> Result<(), AllocError> {
    for _ in 0..count {
        script.extend_from_slice(line)?;
    }
    Ok(())
}

#[test]
fn each_boundary(rt: HostRuntime) -> Result<(), Fail> {
    let mut script = Vec::new(rt.alloc());
    push_lines(&mut script, b"step 1\n", 36)?;
    let mut shelf = shelf(rt.alloc(), "64\n", TWICE, &script)?;
    let left = Left::Lines(EACH_BOUNDARY);
    call(rt.alloc(), &LINE, &mut shelf, &NONE, &left)?;
    Ok(())
}

/// A script of 1048576 bytes.
fn long_script(alloc: Global) -> Result<Vec<u8>, AllocError> {
    let mut script = Vec::new(alloc);
    push_lines(&mut script, b"watch 1010\n", 95_318)?;
    push_lines(&mut script, b"unwatch 1010\n", 6)?;
    Ok(script)
}

#[test]
fn a_long_script(rt: HostRuntime) -> Result<(), Fail> {
    let script = long_script(rt.alloc())?;
    assert_eq!(rt; script.len(), 1_048_576);
    let mut shelf = shelf(rt.alloc(), "64\n", "", &script)?;
    let left = Left::Lines(
        "sample 1 bytes 64 answers 64 instructions 28 steps 36 resumed 0 frames 0\n",
    );
    call(rt.alloc(), &LINE, &mut shelf, &NONE, &left)?;
    Ok(())
}
