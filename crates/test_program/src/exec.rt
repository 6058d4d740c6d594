//! Runs of images.
use std::test::Fail;
use test_program_calls::{Left, USAGE, call_over, rows};
use test_texts::SOURCE_RECORDS;

// At $C000 a list without an end, a wavr without a frame, and an RTI, each with its reset vector.
const ENDLESS: &str = "S105C000183AE8\nS105FFFEC0003D\nS903C0003C\n";

const NO_FRAME: &str = "S106C0003C20FEDF\nS105FFFEC0003D\nS903C0003C\n";

const RETURN: &str = "S104C0000B30\nS105FFFEC0003D\nS903C0003C\n";

const ARRIVED: Left<'static> = Left::Lines(
    "pc C003 a FA b 00 x 0000 y 0000 sp 0000 ccr D9 steps 2\n",
);

/// Records, STEPS and FLAGS, and what the call leaves.
#[derive(Clone, Copy)]
struct Execution {
    records: &'static str,
    steps: &'static str,
    flags: &'static str,
    left: Left<'static>,
}

const TEN_STEPS: Execution = Execution {
    records: SOURCE_RECORDS,
    steps: "10",
    flags: "00",
    left: ARRIVED,
};

static EXECUTIONS: [Execution; 24] = rows! { Execution:
    TEN_STEPS {};
    TEN_STEPS { steps: "2" };
    TEN_STEPS { steps: "0000000000000002" };
    TEN_STEPS { steps: "1" } refused 13 "budget: 1\n";
    TEN_STEPS { steps: "0" } refused 13 "budget: 0\n";
    TEN_STEPS { records: ENDLESS, steps: "1000000" } refused 13 "budget: 1000000\n";
    TEN_STEPS { records: NO_FRAME, steps: "1000000" }
        leaves "pc C001 a 00 b 00 x 0000 y 0000 sp 0006 ccr D4 steps 1\n";
    TEN_STEPS { records: RETURN, steps: "1000000" } refused 12 "trap: 0000 00\n";
    TEN_STEPS { records: "S903C0003C" } refused 12 "trap: 0000 00\n";
    TEN_STEPS { records: "S903C0003C", steps: "0" } refused 13 "budget: 0\n";
    TEN_STEPS { records: "S903C0003D" } refused 5 "image: line 1: bad sum 3D 3C\n";
    TEN_STEPS { records: "" } refused 5 "image: no end\n";
    TEN_STEPS { records: "S105FFFF0000FC" } refused 5 "image: line 1: bad line\n";
    TEN_STEPS { records: "S0030000FC\nS804000000FB\n" } refused 5 "image: line 2: wide\n";
    TEN_STEPS { records: "S5030002FA\n", steps: "0" } refused 5 "image: count 2 0\n";
    TEN_STEPS { records: "S903C0003C\n\n", steps: "0" } refused 5 "image: line 2: after end\n";
    TEN_STEPS { steps: "", left: USAGE };
    TEN_STEPS { steps: "1000001", left: USAGE };
    TEN_STEPS { steps: "4294967298", left: USAGE };
    TEN_STEPS { steps: "+1", left: USAGE };
    TEN_STEPS { steps: "1 ", left: USAGE };
    TEN_STEPS { steps: "0x1", left: USAGE };
    TEN_STEPS { steps: "A", left: USAGE };
    TEN_STEPS { flags: "0", left: USAGE };
};

#[test]
fn executions(rt: HostRuntime) -> Result<(), Fail> {
    for row in EXECUTIONS.iter() {
        let line = ["fuzz12", "exec", "first", row.steps, row.flags];
        call_over(rt.alloc(), &line, &[row.records], &[], &row.left)?;
    }
    Ok(())
}
