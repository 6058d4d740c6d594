//! Handlers that are checked.
use std::test::Fail;
use test_program_calls::{Left, call_over, rows};

/// A handler's records, and what the call leaves.
#[derive(Clone, Copy)]
struct Row {
    records: &'static str,
    left: Left<'static>,
}

const NO_BYTE: Row = Row {
    records: "S9030000FC\n",
    left: Left::Refused(14, "handler: empty\n"),
};

/// Accepted handlers, one handler for each fault, and a file without records.
static ROWS: [Row; 13] = rows! { Row:
    // INC $1800; RTI
    NO_BYTE { records: "S10740007218000B23\nS9030000FC\n" } leaves "handler instructions 2\n";
    // a branch over a NOP
    NO_BYTE { records: "S10740002701A70BDE\nS9030000FC\n" } leaves "handler instructions 3\n";
    NO_BYTE {};
    // a byte behind a gap
    NO_BYTE { records: "S10440000BB0\nS10440020BAE\nS9030000FC\n" } refused 14 "handler: 4002: outside\n";
    // BRA over a NOP
    NO_BYTE { records: "S10740002001A70BE5\nS9030000FC\n" } refused 14 "handler: 4002: dead\n";
    // NOP, and a part of INC
    NO_BYTE { records: "S1064000A7721888\nS9030000FC\n" } refused 14 "handler: 4001: trap\n";
    // ANDCC #$EF; RTI
    NO_BYTE { records: "S106400010EF0BAF\nS9030000FC\n" } refused 14 "handler: 4000: refused\n";
    // INC $17FF; RTI
    NO_BYTE { records: "S10740007217FF0B25\nS9030000FC\n" } refused 14 "handler: 4000: not free 17FF\n";
    // BRA *
    NO_BYTE { records: "S105400020FE9C\nS9030000FC\n" } refused 14 "handler: 4000: backward\n";
    // BEQ into INC
    NO_BYTE { records: "S109400027027218000BF8\nS9030000FC\n" } refused 14 "handler: 4000: target 4004\n";
    // PSHA; RTI
    NO_BYTE { records: "S1054000360B79\nS9030000FC\n" } refused 14 "handler: 4001: height\n";
    // NOP
    NO_BYTE { records: "S1044000A714\nS9030000FC\n" } refused 14 "handler: 4000: falls\n";
    NO_BYTE { records: "" } refused 5 "image: no end\n";
};

#[test]
fn handlers_are_checked(rt: HostRuntime) -> Result<(), Fail> {
    let line = ["fuzz12", "hcheck", "first"];
    for row in ROWS.iter() {
        call_over(rt.alloc(), &line, &[row.records], &[], &row.left)?;
    }
    Ok(())
}
