//! Runs of two blocks at two levels: fast runs inside the interrupts of a slow block.
use super::files::succeeds;
use fz_shelf::MemShelf;
use std::alloc::Global;
use std::test::Fail;
use test_program_calls::{Difference, Left, NONE, call, push_file, push_room, rows, shelf_of};
use test_texts::{
    BLOCK, CELLS, HALF_WEIGHT, HALVES, LATCH, NODES_OF_THE_LATCH, RECORDS, RECORDS_OF_BOTH,
};

/// What `lrun` is given, and what it leaves.
#[derive(Clone, Copy)]
struct AtLevels {
    slow: &'static [&'static str],
    fast: &'static [&'static str],
    /// The image, if it is not the one that `lcompile` writes.
    image: Option<&'static str>,
    slow_cert: &'static [&'static str],
    fast_cert: &'static [&'static str],
    slow_trace: &'static str,
    fast_trace: &'static str,
    levels: &'static str,
    left: Left<'static>,
}

const CERT: &[&str] = &["FZC 1\nclaim 19609\n", HALVES];

/// The heater at both levels under no interrupt.
const HEATERS: AtLevels = AtLevels {
    slow: &[BLOCK],
    fast: &[BLOCK],
    image: Some(RECORDS_OF_BOTH),
    slow_cert: CERT,
    fast_cert: CERT,
    slow_trace: "64\n",
    fast_trace: "0\n",
    levels: "",
    left: Left::Lines(
        "error 1 19609
fast error 1 19609
instructions 28
fast instructions 24
sample 1 bytes 64 answers 64 instructions 28 steps 36 resumed 0 frames 0
",
    ),
};

// The fast code comes to EVAL by one instruction in the place of the slow one's three. So it is at a boundary where the
// slow code is two behind, and at an address that is `$8014` lower: in REV at boundary 15 and `$401D`, in WAV at
// boundary 24 and `$4028`. Its return is at boundary 31 and `$4038`.
static RUNS: [AtLevels; 11] = rows! { AtLevels:
    HEATERS {};
    HEATERS { levels: "1,26,1,24\n" } leaves "error 1 19609
fast error 1 19609
instructions 28
fast instructions 24
sample 1 bytes 64 answers 64 instructions 28 steps 36 resumed 1 frames 1
frame 1 26 C03C 1FEF 15
fast 1 answers 0 instructions 24 steps 32 resumed 1
inner 24 4028 1FE0 15
";
    // I is first 0 after ANDCC.
    HEATERS { levels: "1,26,1,0\n" } leaves "error 1 19609
fast error 1 19609
instructions 28
fast instructions 24
sample 1 bytes 64 answers 64 instructions 28 steps 36 resumed 1 frames 1
frame 1 26 C03C 1FEF 15
fast 1 answers 0 instructions 24 steps 32 resumed 0
inner 1 4002 1FE6 9
";
    // No fast run, and then one at the same boundary; the sums of the slow WAV stand on the stack already.
    HEATERS { fast_trace: "0\n64\n", levels: "1,26,0\n1,26,2,24,24\n" } leaves "error 1 19609
fast error 1 19609
instructions 28
fast instructions 24
sample 1 bytes 64 answers 64 instructions 28 steps 36 resumed 1 frames 2
frame 1 26 C03C 1FEF 15
frame 1 26 C03C 1FEF 9
fast 2 answers 64 instructions 24 steps 32 resumed 1
inner 24 4028 1FE0 15
inner 24 4028 1FE0 9
";
    // Before and inside REV, inside WAV, before the return, and behind it.
    HEATERS { levels: "1,26,1,12,15,24,31,32\n" } leaves "error 1 19609
fast error 1 19609
instructions 28
fast instructions 24
sample 1 bytes 64 answers 64 instructions 28 steps 36 resumed 1 frames 1
frame 1 26 C03C 1FEF 15
fast 1 answers 0 instructions 24 steps 32 resumed 2
inner 12 401D 1FE6 9
inner 15 401D 1FE6 9
inner 24 4028 1FE0 15
inner 31 4038 1FE6 9
";
    // In two samples, of which the second ends before its level's moment, and one that is not there.
    HEATERS { slow_trace: "64\n0\n256\n", fast_trace: "0\n64\n", levels: "1,0,2,0,0\n2,36,1\n3,14,1\n4,0,1\n" }
        leaves "error 1 19609
fast error 1 19609
instructions 28
fast instructions 24
sample 1 bytes 64 answers 64 instructions 28 steps 36 resumed 0 frames 1
frame 1 0 C008 1FF7 9
fast 2 answers 64 instructions 24 steps 32 resumed 0
inner 1 4002 1FEE 9
inner 1 4002 1FEE 9
sample 2 bytes 0 answers 0 instructions 28 steps 36 resumed 0 frames 0
sample 3 bytes 255 answers 255 instructions 28 steps 36 resumed 0 frames 1
frame 3 14 C031 1FF5 9
fast 1 answers 0 instructions 24 steps 32 resumed 0
";
    // Traces with no sample.
    HEATERS { slow_trace: "", fast_trace: "", levels: "1,26,0\n" }
        leaves "error 1 19609\nfast error 1 19609\ninstructions 28\nfast instructions 24\n";
    // A fast block that keeps its answer answers after the fast run before, whichever samples these are of.
    HEATERS {
        fast: &[LATCH],
        image: None,
        fast_cert: &["FZC 1\nclaim 3922\n", NODES_OF_THE_LATCH],
        slow_trace: "64\n64\n",
        fast_trace: "0\n128\n200\n",
        levels: "1,0,2\n1,0,3\n1,0,2\n2,0,1\n2,0,2\n"
    } leaves "error 1 19609
fast error 1 3922
instructions 28
fast instructions 26
sample 1 bytes 64 answers 64 instructions 28 steps 36 resumed 0 frames 3
frame 1 0 C008 1FF7 9
fast 2 answers 0 instructions 23 steps 31 resumed 0
frame 1 0 C008 1FF7 9
fast 3 answers 0 instructions 26 steps 34 resumed 0
frame 1 0 C008 1FF7 9
fast 2 answers 0 instructions 23 steps 31 resumed 0
sample 2 bytes 64 answers 64 instructions 28 steps 36 resumed 0 frames 2
frame 2 0 C008 1FF7 9
fast 1 answers 255 instructions 26 steps 34 resumed 0
frame 2 0 C008 1FF7 9
fast 2 answers 255 instructions 23 steps 31 resumed 0
";
    // The same as the slow one.
    HEATERS {
        slow: &[LATCH],
        image: None,
        slow_cert: &["FZC 1\nclaim 3922\n", NODES_OF_THE_LATCH],
        slow_trace: "0\n128\n",
        fast_trace: "64\n",
        levels: "1,0,1\n2,0,1,0\n"
    } leaves "error 1 3922
fast error 1 19609
instructions 30
fast instructions 24
sample 1 bytes 0 answers 255 instructions 30 steps 38 resumed 0 frames 1
frame 1 0 C008 1FF7 9
fast 1 answers 64 instructions 24 steps 32 resumed 0
sample 2 bytes 128 answers 255 instructions 27 steps 35 resumed 0 frames 1
frame 2 0 C008 1FF7 9
fast 1 answers 64 instructions 24 steps 32 resumed 0
inner 1 4002 1FEE 9
";
    // Weights at both levels.
    HEATERS {
        slow: &HALF_WEIGHT,
        fast: &HALF_WEIGHT,
        image: None,
        slow_cert: WEIGHTED,
        fast_cert: WEIGHTED,
        fast_trace: "64\n",
        levels: "1,0,1,0\n"
    } leaves "error 1 51417
fast error 1 51417
instructions 29
fast instructions 25
sample 1 bytes 64 answers 102 instructions 29 steps 37 resumed 0 frames 1
frame 1 0 C008 1FF7 9
fast 1 answers 102 instructions 25 steps 33 resumed 0
inner 1 4002 1FEE 9
";
    // Claims above the errors.
    HEATERS { slow_cert: &["FZC 1\nclaim 20000\n", HALVES], fast_cert: &["FZC 1\nclaim 20001\n", HALVES] };
};

const WEIGHTED: &[&str] = &["FZC 1\nclaim 51417\nsplit 1 128\nleaf 1 63\nleaf 2 127\n"];

const LOW_CLAIM: &[&str] = &["FZC 1\nclaim 19608\n", HALVES];

// Of two faults the first is told.
static REFUSED: [AtLevels; 15] = rows! { AtLevels:
    HEATERS { slow: &[], fast: &["x"] } refused 4 "fcl: at 0: expected\n";
    HEATERS { fast: &["x"], image: Some("") } refused 4 "fast fcl: at 0: expected\n";
    HEATERS { image: Some(""), slow_cert: &[] } refused 5 "image: no end\n";
    // The image of `compile`.
    HEATERS { image: Some(RECORDS) } refused 5 "image: 4000: none, compile gives 10\n";
    HEATERS { slow_cert: LOW_CLAIM, fast_cert: &[] } refused 6 "cert: output 1 claims 19608, computed 19609\n";
    HEATERS { fast_cert: LOW_CLAIM, slow_trace: "256.0001" }
        refused 6 "fast cert: output 1 claims 19608, computed 19609\n";
    HEATERS { fast_cert: &[] } refused 6 "fast cert: early\n";
    HEATERS { slow_cert: &[CELLS] } refused 6 "cert: line 1: bad line\n";
    HEATERS { fast_cert: &[CELLS] } refused 6 "fast cert: line 1: bad line\n";
    HEATERS { slow_trace: "256.0001", fast_trace: "x" } refused 7 "trace: row 1: input 1 out of range\n";
    HEATERS { fast_trace: "0\n256.0001", levels: "x" } refused 7 "fast trace: row 2: input 1 out of range\n";
    // There is one fast sample.
    HEATERS { slow_trace: "64\n0\n", levels: "1,26,2\n" } refused 7 "plan: row 1: bad row\n";
    HEATERS { fast_trace: "", levels: "1,26,0\n1,26,1\n" } refused 7 "plan: row 2: bad row\n";
    HEATERS { levels: "1,26,1,5,4\n" } refused 7 "plan: row 1: bad row\n";
    HEATERS { levels: "2,5,0\n1,9,1\n" } refused 7 "plan: row 2: not ascending\n";
};

/// The heater at both levels under tight certificates.
const TIGHT: AtLevels = AtLevels {
    slow_cert: &[CELLS],
    fast_cert: &[CELLS],
    ..HEATERS
};

const UNSURE: &[&str] = &["FZC 3\nclaim 3907\nleaf\n"];

const MANY: &[&str] = &["FZC 3\nclaim 3907\ncells\n"];

static TIGHT_RUNS: [AtLevels; 7] = rows! { AtLevels:
    TIGHT { levels: "1,26,1,24\n" } leaves "error 1 3907
fast error 1 3907
instructions 28
fast instructions 24
sample 1 bytes 64 answers 64 instructions 28 steps 36 resumed 1 frames 1
frame 1 26 C03C 1FEF 15
fast 1 answers 0 instructions 24 steps 32 resumed 1
inner 24 4028 1FE0 15
";
    TIGHT { slow_cert: CERT, fast_cert: &[] } refused 6 "cert: line 1: bad line\n";
    TIGHT { fast_cert: CERT, slow_trace: "256.0001" } refused 6 "fast cert: line 1: bad line\n";
    TIGHT { slow_cert: UNSURE } refused 6 "cert: line 3: unsure output 1\n";
    TIGHT { fast_cert: UNSURE } refused 6 "fast cert: line 3: unsure output 1\n";
    TIGHT { slow_cert: MANY } refused 6 "cert: line 3: too many cells\n";
    TIGHT { fast_cert: MANY } refused 6 "fast cert: line 3: too many cells\n";
};

/// The eight files. The image is empty if `lcompile` is to write it.
fn shelf(alloc: Global, run: &AtLevels) -> Result<MemShelf, Difference> {
    let mut files = Vec::new(alloc);
    push_file(alloc, &mut files, "slow", run.slow)?;
    push_file(alloc, &mut files, "fast", run.fast)?;
    push_file(alloc, &mut files, "slow.cert", run.slow_cert)?;
    push_file(alloc, &mut files, "fast.cert", run.fast_cert)?;
    push_file(alloc, &mut files, "slow.csv", &[run.slow_trace])?;
    push_file(alloc, &mut files, "fast.csv", &[run.fast_trace])?;
    push_file(alloc, &mut files, "levels", &[run.levels])?;
    match run.image {
        Some(image) => push_file(alloc, &mut files, "image", &[image])?,
        None => push_room(alloc, &mut files, "image")?,
    }
    shelf_of(alloc, files, &NONE)
}

fn case(alloc: Global, command: &str, run: &AtLevels) -> Result<(), Difference> {
    let mut shelf = shelf(alloc, run)?;
    if run.image.is_none() {
        let line = ["fuzz12", "lcompile", "slow", "fast", "image"];
        succeeds(alloc, &line, &mut shelf)?;
    }
    let line = [
        "fuzz12",
        command,
        "slow",
        "fast",
        "image",
        "slow.cert",
        "fast.cert",
        "slow.csv",
        "fast.csv",
        "levels",
        "00",
    ];
    call(alloc, &line, &mut shelf, &NONE, &run.left)
}

#[test]
fn runs_at_two_levels(rt: HostRuntime) -> Result<(), Fail> {
    for run in RUNS.iter() {
        case(rt.alloc(), "lrun", run)?;
    }
    for run in TIGHT_RUNS.iter() {
        case(rt.alloc(), "tlrun", run)?;
    }
    Ok(())
}

#[test]
fn refused_runs_at_two_levels(rt: HostRuntime) -> Result<(), Fail> {
    for run in REFUSED.iter() {
        case(rt.alloc(), "lrun", run)?;
    }
    Ok(())
}
