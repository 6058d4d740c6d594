//! Runs of the mailbox form, whose samples interrupts post.
use super::five_files::{FiveFiles, run_each};
use std::test::Fail;
use test_program_calls::{Left, rows};
use test_texts::{BLOCK, CELLS, HALVES, MAILBOX_RECORDS, RECORDS};

/// The heater's run with no post.
const HEATER: FiveFiles = FiveFiles {
    fcl: BLOCK,
    records: MAILBOX_RECORDS,
    cert: &["FZC 1\nclaim 19609\n", HALVES],
    trace: "64\n0\n",
    requests: "",
    left: Left::Lines("error 1 19609\ninstructions 31\nresumed 0\n"),
};

// A turn that answers takes the 36 steps of `run`, without CLR READY, and with ORCC, a copy, CLR POSTED and ANDCC: 39.
// I is 1 from its boundary 3 to 6; REV begins at boundary 18, and WAV at 29.
static RUNS: [FiveFiles; 19] = rows! { FiveFiles:
    HEATER {};
    // The second comes while the first is copied.
    HEATER { requests: "0,1\n3,2\n" } leaves "error 1 19609
instructions 31
answer 1 sample 1 at 39 bytes 64 answers 64 instructions 31
answer 2 sample 2 at 78 bytes 0 answers 0 instructions 31
frame 0 C008 1FF7 9
frame 6 C01A 1FF7 9
resumed 0
";
    // It comes before the copy, in place of the first.
    HEATER { requests: "0,1\n2,2\n" } leaves "error 1 19609
instructions 31
answer 1 sample 2 at 39 bytes 0 answers 0 instructions 31
frame 0 C008 1FF7 9
frame 2 C00D 1FF7 9
resumed 0
";
    // Idle turns, and a post of no sample.
    HEATER { requests: "3,1,1800,FF\n5,0\n" } leaves "error 1 19609
instructions 31
answer 1 sample 1 at 43 bytes 64 answers 64 instructions 31
frame 3 C00B 1FF7 9
frame 5 C00B 1FF7 9
resumed 0
";
    // Inside REV, and inside WAV, which pushes its sums too.
    HEATER { requests: "0,1\n21,0\n30,2\n" } leaves "error 1 19609
instructions 31
answer 1 sample 1 at 39 bytes 64 answers 64 instructions 31
answer 2 sample 2 at 78 bytes 0 answers 0 instructions 31
frame 0 C008 1FF7 9
frame 21 C03B 1FF5 9
frame 30 C046 1FEF 15
resumed 2
";
    // A sample again, behind idle turns up to boundary 999999.
    HEATER { requests: "0,1\n1000000,1\n" } leaves "error 1 19609
instructions 31
answer 1 sample 1 at 39 bytes 64 answers 64 instructions 31
answer 2 sample 1 at 1000040 bytes 64 answers 64 instructions 31
frame 0 C008 1FF7 9
frame 1000000 C00B 1FF7 9
resumed 0
";
    HEATER { trace: "", requests: "0,0\n" }
        leaves "error 1 19609\ninstructions 31\nframe 0 C008 1FF7 9\nresumed 0\n";
    // the first of two faults is told
    HEATER { fcl: "", records: "" } refused 4 "fcl: at 0: expected\n";
    HEATER { records: "", cert: &[] } refused 5 "image: no end\n";
    // the image of `compile`
    HEATER { records: RECORDS } refused 5 "image: C005: 00, compile gives 28\n";
    HEATER { cert: &["FZC 1\nclaim 19608\n", HALVES], trace: "256.0001" }
        refused 6 "cert: output 1 claims 19608, computed 19609\n";
    HEATER { trace: "256.0001", requests: "x" } refused 7 "trace: row 1: input 1 out of range\n";
    HEATER { cert: &[CELLS] } refused 6 "cert: line 1: bad line\n";
    HEATER { requests: "3,1\n0,2\n" } refused 7 "plan: row 2: not ascending\n";
    HEATER { requests: "0,2\n0,3\n" } refused 7 "plan: row 2: bad row\n";
    HEATER { trace: "", requests: "0,1\n" } refused 7 "plan: row 1: bad row\n";
    HEATER { requests: "1000001,1\n" } refused 7 "plan: row 1: bad row\n";
    HEATER { requests: "0,1,1028,00\n" } refused 7 "plan: row 1: not free 1028\n";
    HEATER { requests: "0\n" } refused 7 "plan: row 1: bad row\n";
};

/// The same under a tight certificate.
const TIGHT: FiveFiles = FiveFiles {
    cert: &[CELLS],
    left: Left::Lines("error 1 3907\ninstructions 31\nresumed 0\n"),
    ..HEATER
};

static TIGHT_RUNS: [FiveFiles; 6] = rows! { FiveFiles:
    TIGHT {};
    TIGHT { requests: "0,1\n3,2\n" } leaves "error 1 3907
instructions 31
answer 1 sample 1 at 39 bytes 64 answers 64 instructions 31
answer 2 sample 2 at 78 bytes 0 answers 0 instructions 31
frame 0 C008 1FF7 9
frame 6 C01A 1FF7 9
resumed 0
";
    TIGHT { cert: &["FZC 1\nclaim 19609\n", HALVES] } refused 6 "cert: line 1: bad line\n";
    TIGHT { cert: &["FZC 3\nclaim 3907\nleaf\n"] } refused 6 "cert: line 3: unsure output 1\n";
    TIGHT { cert: &["FZC 3\nclaim 3907\ncells\n"] } refused 6 "cert: line 3: too many cells\n";
    TIGHT { requests: "0,3\n" } refused 7 "plan: row 1: bad row\n";
};

#[test]
fn mailbox_runs_serve(rt: HostRuntime) -> Result<(), Fail> {
    run_each(rt.alloc(), "mrun", &RUNS)?;
    run_each(rt.alloc(), "tmrun", &TIGHT_RUNS)?;
    Ok(())
}
