//! Runs whose interrupts run a handler's code.
use super::five_files::{FiveFiles, run_each};
use std::test::Fail;
use test_program_calls::{Left, rows};
use test_texts::{BLOCK, CELLS, HALVES};

/// `INC $1800`, RTI
const COUNT: &str = "S10740007218000B23\nS9030000FC\n";

/// PSHA, `INC $1800`, BNE over the next, `INC $1801`, PULA, RTI
const COUNT_WIDE: &str = "S10E4000367218002603721801320B00\nS9030000FC\n";

/// The heater's run with no request.
const HEATER: FiveFiles = FiveFiles {
    fcl: BLOCK,
    records: COUNT,
    cert: &["FZC 1\nclaim 19609\n", HALVES],
    trace: "64\n",
    requests: "",
    left: Left::Lines(
        "error 1 19609
instructions 28
sample 1 bytes 64 answers 64 instructions 28 steps 36 resumed 0 frames 0 handler 0
",
    ),
};

// The lines are those of `run` under the same plan, and each interrupt does the steps of the handler's path.
static RUNS: [FiveFiles; 18] = rows! { FiveFiles:
    HEATER {};
    HEATER { trace: "" } leaves "error 1 19609\ninstructions 28\n";
    // inside REV
    HEATER { requests: "1,17\n" } leaves "error 1 19609
instructions 28
sample 1 bytes 64 answers 64 instructions 28 steps 36 resumed 1 frames 1 handler 2
frame 1 17 C031 1FF5 9
";
    // behind its first part and before its last
    HEATER { records: COUNT_WIDE, requests: "1,15\n1,21\n" } leaves "error 1 19609
instructions 28
sample 1 bytes 64 answers 64 instructions 28 steps 36 resumed 2 frames 2 handler 10
frame 1 15 C031 1FF5 9
frame 1 21 C031 1FF5 9
";
    HEATER { requests: "1,26\n" } leaves "error 1 19609
instructions 28
sample 1 bytes 64 answers 64 instructions 28 steps 36 resumed 1 frames 1 handler 2
frame 1 26 C03C 1FEF 15
";
    HEATER { requests: "1,26\n1,26\n" } leaves "error 1 19609
instructions 28
sample 1 bytes 64 answers 64 instructions 28 steps 36 resumed 1 frames 2 handler 4
frame 1 26 C03C 1FEF 15
frame 1 26 C03C 1FEF 9
";
    // a request that is not taken
    HEATER { requests: "1,36\n" };
    // the branch is taken
    HEATER { records: COUNT_WIDE, requests: "1,26\n" } leaves "error 1 19609
instructions 28
sample 1 bytes 64 answers 64 instructions 28 steps 36 resumed 1 frames 1 handler 5
frame 1 26 C03C 1FEF 15
";
    // it is not, where the request writes FF first, and it is at the next
    HEATER { records: COUNT_WIDE, trace: "64\n64\n", requests: "2,26,1800,FF\n2,26\n" } leaves "error 1 19609
instructions 28
sample 1 bytes 64 answers 64 instructions 28 steps 36 resumed 0 frames 0 handler 0
sample 2 bytes 64 answers 64 instructions 28 steps 36 resumed 1 frames 2 handler 11
frame 2 26 C03C 1FEF 15
frame 2 26 C03C 1FEF 9
";
    // `INC $17FF`, RTI
    HEATER { records: "S10740007217FF0B25\nS9030000FC\n" } refused 14 "handler: 4000: not free 17FF\n";
    // PSHA, RTI
    HEATER { records: "S1054000360B79\nS9030000FC\n" } refused 14 "handler: 4001: height\n";
    // the first of two faults is told
    HEATER { fcl: "", records: "" } refused 4 "fcl: at 0: expected\n";
    HEATER { records: "", cert: &[] } refused 5 "image: no end\n";
    HEATER { records: "S9030000FC\n", cert: &[] } refused 14 "handler: empty\n";
    HEATER { cert: &["FZC 1\nclaim 19608\n", HALVES], trace: "256.0001" }
        refused 6 "cert: output 1 claims 19608, computed 19609\n";
    HEATER { cert: &[CELLS] } refused 6 "cert: line 1: bad line\n";
    HEATER { trace: "256.0001", requests: "0,1\n" } refused 7 "trace: row 1: input 1 out of range\n";
    HEATER { requests: "1,0,17FF,00\n" } refused 7 "plan: row 1: not free 17FF\n";
};

/// The same under a tight certificate.
const TIGHT: FiveFiles = FiveFiles {
    cert: &[CELLS],
    ..HEATER
};

static TIGHT_RUNS: [FiveFiles; 5] = rows! { FiveFiles:
    TIGHT { requests: "1,17\n" } leaves "error 1 3907
instructions 28
sample 1 bytes 64 answers 64 instructions 28 steps 36 resumed 1 frames 1 handler 2
frame 1 17 C031 1FF5 9
";
    TIGHT { cert: &["FZC 1\nclaim 19609\n", HALVES] } refused 6 "cert: line 1: bad line\n";
    TIGHT { cert: &["FZC 3\nclaim 3907\nleaf\n"] } refused 6 "cert: line 3: unsure output 1\n";
    TIGHT { cert: &["FZC 3\nclaim 3907\ncells\n"] } refused 6 "cert: line 3: too many cells\n";
    TIGHT { records: "S9030000FC\n", cert: &[] } refused 14 "handler: empty\n";
};

#[test]
fn handled_runs(rt: HostRuntime) -> Result<(), Fail> {
    run_each(rt.alloc(), "hrun", &RUNS)?;
    run_each(rt.alloc(), "thrun", &TIGHT_RUNS)?;
    Ok(())
}
