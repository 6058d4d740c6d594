//! The files of a run: which of them are read, and which one is reported.
use super::files::files_of;
use fz_shelf::MemShelf;
use std::alloc::{AllocError, Global};
use std::test::Fail;
use test_program_calls::{Difference, Left, NONE, call, calls_are, push_bytes, shelf_of};
use test_texts::{BLOCK, HALVES, RECORDS, RECORDS_OF_ANOTHER};

// A heater's files, and some that are not.
static HOUSE: [(&str, &[&str]); 7] = [
    ("a.fcl", &[BLOCK]),
    ("a.s19", &[RECORDS]),
    ("a.cert", &["FZC 1\nclaim 19609\n", HALVES]),
    ("a.csv", &["64\n"]),
    ("other.s19", &[RECORDS_OF_ANOTHER]),
    ("empty", &[]),
    ("over.csv", &["256.0001"]),
];

/// One byte more than the longest file that can be read.
fn long(alloc: Global) -> Result<Vec<u8>, AllocError> {
    let mut long = Vec::with_capacity(alloc, 1_048_577)?;
    long.resize(1_048_577, b'0')?;
    Ok(long)
}

fn house(alloc: Global) -> Result<MemShelf, Difference> {
    let mut files = files_of(alloc, &HOUSE)?;
    push_bytes(alloc, &mut files, "long", &long(alloc)?)?;
    shelf_of(alloc, files, &NONE)
}

/// Checks that a call over these files reads this many of them and leaves this.
pub(super) fn case(
    alloc: Global,
    line: &[&str],
    reads: usize,
    left: &Left,
) -> Result<(), Difference> {
    let mut shelf = house(alloc)?;
    call(alloc, line, &mut shelf, &NONE, left)?;
    calls_are(&shelf, reads)
}

/// The words of the heater's run with these flags.
pub(super) fn run_words<'a>(flags: &'a str) -> [&'a str; 8] {
    [
        "fuzz12", "run", "a.fcl", "a.s19", "a.cert", "a.csv", "empty", flags,
    ]
}

/// What the heater's run leaves.
pub(super) const RUN: Left<'static> = Left::Lines(
    "error 1 19609
instructions 28
sample 1 bytes 64 answers 64 instructions 28 steps 36 resumed 0 frames 0
left 208
",
);

/// The five files of a run, the number of those that are read, and what the run leaves.
struct Read {
    names: [&'static str; 5],
    reads: usize,
    left: Left<'static>,
}

macro_rules! refusals {
    ($($names:tt reads $reads:literal refused $code:literal $line:literal;)*) => {
        [$(Read { names: $names, reads: $reads, left: Left::Refused($code, $line) }),*]
    };
}

static READS: [Read; 11] = refusals! {
    ["b.fcl", "a.s19", "a.cert", "a.csv", "empty"] reads 1 refused 2 "read fault: b.fcl\n";
    ["long", "a.s19", "a.cert", "a.csv", "empty"] reads 1 refused 10 "too long: long\n";
    ["empty", "empty", "empty", "over.csv", "a.csv"] reads 5 refused 4 "fcl: at 0: expected\n";
    ["a.fcl", "b.s19", "a.cert", "a.csv", "empty"] reads 2 refused 2 "read fault: b.s19\n";
    ["a.fcl", "empty", "empty", "over.csv", "a.csv"] reads 5 refused 5 "image: no end\n";
    ["a.fcl", "other.s19", "a.cert", "a.csv", "empty"] reads 5 refused 5 "image: D201: FE, compile gives FF\n";
    ["a.fcl", "a.s19", "", "a.csv", "empty"] reads 3 refused 2 "read fault: \n";
    ["a.fcl", "a.s19", "empty", "over.csv", "a.csv"] reads 5 refused 6 "cert: early\n";
    ["a.fcl", "a.s19", "a.cert", "long", "empty"] reads 4 refused 10 "too long: long\n";
    ["a.fcl", "a.s19", "a.cert", "over.csv", "a.csv"] reads 5 refused 7 "trace: row 1: input 1 out of range\n";
    ["a.fcl", "a.s19", "a.cert", "a.csv", "a.csv"] reads 5 refused 7 "plan: row 1: bad row\n";
};

#[test]
fn reads(rt: HostRuntime) -> Result<(), Fail> {
    for row in READS.iter() {
        let [fcl, image, cert, trace, plan] = row.names;
        let line = ["fuzz12", "run", fcl, image, cert, trace, plan, "00"];
        case(rt.alloc(), &line, row.reads, &row.left)?;
    }
    Ok(())
}
