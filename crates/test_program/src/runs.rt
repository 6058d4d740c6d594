//! Runs with five files: worked samples under worked plans.
use super::files::succeeds;
use super::reads::RUN;
use fz_shelf::MemShelf;
use std::alloc::Global;
use std::test::Fail;
use test_program_calls::{Difference, Left, NONE, call, push_file, push_room, rows, shelf_of};
use test_texts::{
    BACK, BLOCK, COLD, FRONT, HALF_WEIGHT, HALVES, LATCH, NODES_OF_THE_LATCH, NOTS, OPENED,
    QUARTERS, SECOND, TWO_OUTPUTS,
};

/// What `run`, `run16`, `trun` or `trun16` is given, and what it leaves.
#[derive(Clone, Copy)]
struct Ran {
    command: &'static str,
    fcl: &'static [&'static str],
    cert: &'static [&'static str],
    trace: &'static str,
    plan: &'static str,
    left: Left<'static>,
}

/// The heater's run with no plan.
const HEATER: Ran = Ran {
    command: "run",
    fcl: &[BLOCK],
    cert: &["FZC 1\nclaim 19609\n", HALVES],
    trace: "64\n",
    plan: "",
    left: RUN,
};

// The frames are worked out from the registers before and after the instructions at their places, and the last
// lines from the bytes that JSR and the interrupts leave on the stack, and those that they write.
static RUNS: [Ran; 22] = rows! { Ran:
    HEATER {};
    HEATER { trace: "0\n256\n" } leaves "error 1 19609
instructions 28
sample 1 bytes 0 answers 0 instructions 28 steps 36 resumed 0 frames 0
sample 2 bytes 255 answers 255 instructions 28 steps 36 resumed 0 frames 0
left 208
";
    HEATER { trace: "127.9999\n64.9\n" } leaves "error 1 19609
instructions 28
sample 1 bytes 127 answers 127 instructions 28 steps 36 resumed 0 frames 0
sample 2 bytes 64 answers 64 instructions 28 steps 36 resumed 0 frames 0
left 208
";
    HEATER { trace: "" } leaves "error 1 19609\ninstructions 28\nleft 0\n";
    HEATER { trace: "256.0001" } refused 7 "trace: row 1: input 1 out of range\n";
    HEATER { cert: &["FZC 1\nclaim 20000\n", HALVES] };
    HEATER { cert: &["FZC 1\nclaim 19608\n", HALVES], trace: "256.0001" }
        refused 6 "cert: output 1 claims 19608, computed 19609\n";
    HEATER { plan: "1,17\n" } leaves "error 1 19609
instructions 28
sample 1 bytes 64 answers 64 instructions 28 steps 36 resumed 1 frames 1
frame 1 17 C031 1FF5 9
left 1070
";
    HEATER { plan: "1,26\n1,26\n" } leaves "error 1 19609
instructions 28
sample 1 bytes 64 answers 64 instructions 28 steps 36 resumed 1 frames 2
frame 1 26 C03C 1FEF 15
frame 1 26 C03C 1FEF 9
left 1139
";
    HEATER { plan: "1,25\n" } leaves "error 1 19609
instructions 28
sample 1 bytes 64 answers 64 instructions 28 steps 36 resumed 0 frames 1
frame 1 25 C03B 1FF5 9
left 946
";
    HEATER { plan: "1,14\n" } leaves "error 1 19609
instructions 28
sample 1 bytes 64 answers 64 instructions 28 steps 36 resumed 0 frames 1
frame 1 14 C031 1FF5 9
left 1137
";
    HEATER { plan: "1,36\n" };
    HEATER { plan: "1,0,1800,FF,1FDF,01\n" } leaves "error 1 19609
instructions 28
sample 1 bytes 64 answers 64 instructions 28 steps 36 resumed 0 frames 1
frame 1 0 C008 1FF7 9
left 660
";
    HEATER { plan: "1,0,17FF,00\n" } refused 7 "plan: row 1: not free 17FF\n";
    HEATER { plan: "1,5\n1,4\n" } refused 7 "plan: row 2: not ascending\n";
    HEATER { trace: "256.0001", plan: "0,1\n" } refused 7 "trace: row 1: input 1 out of range\n";
    HEATER { command: "run16", cert: &["FZC 2\nclaim 15702\n", HALVES] } leaves "error 1 15702
instructions 31
sample 1 bytes 64 answers 16384 instructions 31 steps 39 resumed 0 frames 0
left 208
";
    HEATER {
        fcl: &[
            FRONT, OPENED, NOTS, NOTS, NOTS, NOTS, NOTS, NOTS, NOTS, NOTS, COLD, SECOND, BACK,
        ]
    };
    HEATER { fcl: &HALF_WEIGHT, cert: &["FZC 1\nclaim 51417\nsplit 1 128\nleaf 1 63\nleaf 2 127\n"] }
        leaves "error 1 51417
instructions 29
sample 1 bytes 64 answers 102 instructions 29 steps 37 resumed 0 frames 0
left 208
";
    HEATER { fcl: &[LATCH], cert: &["FZC 1\nclaim 3922\n", NODES_OF_THE_LATCH], trace: "0\n128\n200\n128\n" }
        leaves "error 1 3922
instructions 30
sample 1 bytes 0 answers 255 instructions 30 steps 38 resumed 0 frames 0
sample 2 bytes 128 answers 255 instructions 27 steps 35 resumed 0 frames 0
sample 3 bytes 200 answers 0 instructions 30 steps 38 resumed 0 frames 0
sample 4 bytes 128 answers 0 instructions 27 steps 35 resumed 0 frames 0
left 208
";
    // The request comes inside the second output's WAV.
    HEATER {
        fcl: &[TWO_OUTPUTS],
        cert: &["FZC 1\nclaim 19609 21569\n", QUARTERS],
        trace: "64,128\n0,255\n",
        plan: "1,50\n"
    } leaves "error 1 19609
error 2 21569
instructions 43
sample 1 bytes 64 128 answers 64 38 instructions 43 steps 60 resumed 1 frames 1
frame 1 50 C060 1FEF 15
sample 2 bytes 0 255 answers 0 0 instructions 43 steps 60 resumed 0 frames 0
left 1054
";
    HEATER { fcl: &[TWO_OUTPUTS], cert: &["FZC 1\nclaim 19609 21568\n", QUARTERS], trace: "64,128\n" }
        refused 6 "cert: output 2 claims 21568, computed 21569\n";
};

/// The heater's run under its tight certificate.
const TIGHT: Ran = Ran {
    command: "trun",
    cert: &["FZC 3\nclaim 19547\nsplit 1 128\nleaf\nleaf\n"],
    left: Left::Lines(
        "error 1 11735
instructions 28
sample 1 bytes 64 answers 64 instructions 28 steps 36 resumed 0 frames 0
left 208
",
    ),
    ..HEATER
};

static TIGHT_RUNS: [Ran; 6] = rows! { Ran:
    TIGHT {};
    TIGHT {
        cert: &[
            "FZC 3\nclaim 3907\nsplit 1 128\nsplit 1 64\ncells\ncells\nsplit 1 192\ncells\ncells\n",
        ],
        plan: "1,26\n1,26\n"
    } leaves "error 1 3907
instructions 28
sample 1 bytes 64 answers 64 instructions 28 steps 36 resumed 1 frames 2
frame 1 26 C03C 1FEF 15
frame 1 26 C03C 1FEF 9
left 1139
";
    TIGHT { command: "trun16", cert: &["FZC 4\nclaim 15641\nsplit 1 128\nleaf\nleaf\n"] }
        leaves "error 1 7828
instructions 31
sample 1 bytes 64 answers 16384 instructions 31 steps 39 resumed 0 frames 0
left 208
";
    TIGHT { cert: &["FZC 3\nclaim 11734\nsplit 1 128\nleaf\nleaf\n"], trace: "256.0001" }
        refused 6 "cert: output 1 claims 11734, computed 11735\n";
    TIGHT { cert: &["FZC 1\nclaim 19609\n", HALVES] } refused 6 "cert: line 1: bad line\n";
    TIGHT { command: "run" } refused 6 "cert: line 1: bad line\n";
};

/// The five files, with an empty image.
fn shelf(alloc: Global, ran: &Ran) -> Result<MemShelf, Difference> {
    let mut files = Vec::new(alloc);
    push_file(alloc, &mut files, "n.fcl", ran.fcl)?;
    push_file(alloc, &mut files, "n.cert", ran.cert)?;
    push_file(alloc, &mut files, "n.csv", &[ran.trace])?;
    push_file(alloc, &mut files, "n.plan", &[ran.plan])?;
    push_room(alloc, &mut files, "n.s19")?;
    shelf_of(alloc, files, &NONE)
}

/// Checks a run of the image that `compile` writes first.
fn run(alloc: Global, ran: &Ran) -> Result<(), Difference> {
    let mut shelf = shelf(alloc, ran)?;
    let wide = matches!(ran.command, "run16" | "trun16");
    let command = if wide { "compile16" } else { "compile" };
    succeeds(alloc, &["fuzz12", command, "n.fcl", "n.s19"], &mut shelf)?;
    let line = [
        "fuzz12",
        ran.command,
        "n.fcl",
        "n.s19",
        "n.cert",
        "n.csv",
        "n.plan",
        "00",
    ];
    call(alloc, &line, &mut shelf, &NONE, &ran.left)
}

#[test]
fn runs(rt: HostRuntime) -> Result<(), Fail> {
    for ran in RUNS.iter() {
        run(rt.alloc(), ran)?;
    }
    for ran in TIGHT_RUNS.iter() {
        run(rt.alloc(), ran)?;
    }
    Ok(())
}
