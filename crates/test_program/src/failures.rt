//! For every command, each read, write and put fails in turn.
use super::files::files_of;
use fz_shelf::MemShelf;
use std::alloc::Global;
use std::test::Fail;
use test_program_calls::{
    BEFORE, Difference, Faults, Left, NONE, bytes_of, call, calls_are, file_holds, push_bytes,
    push_room, shelf_of,
};
use test_texts::{
    BLOCK, CELLS, HALVES, MAILBOX_RECORDS, RECORDS, RECORDS_OF_BOTH, SOURCE, SOURCE_RECORDS,
    WATCHED_RECORDS, joined,
};

// The files, but for OUT and the records of 16 bits.
static FILES: [(&str, &[&str]); 18] = [
    ("a.fcl", &[BLOCK]),
    ("a.s19", &[RECORDS]),
    ("both.s19", &[RECORDS_OF_BOTH]),
    ("mailbox.s19", &[MAILBOX_RECORDS]),
    ("watched.s19", &[WATCHED_RECORDS]),
    ("a.cert", &["FZC 1\nclaim 19609\n", HALVES]),
    ("wide.cert", &["FZC 2\nclaim 15702\n", HALVES]),
    ("cells.cert", &[CELLS]),
    (
        "tight.cert",
        &["FZC 3\nclaim 19547\nsplit 1 128\nleaf\nleaf\n"],
    ),
    (
        "tight16.cert",
        &["FZC 4\nclaim 15641\nsplit 1 128\nleaf\nleaf\n"],
    ),
    ("a.csv", &["64\n"]),
    ("levels", &["1,26,1,24\n"]),
    ("posts", &["0,1\n"]),
    ("empty", &[]),
    ("script", &["step 1\nregs\n"]),
    ("small.asm", &[SOURCE]),
    ("small.s19", &[SOURCE_RECORDS]),
    // INC $1800; RTI
    ("handler.s19", &["S10740007218000B23\nS9030000FC\n"]),
];

/// A command whose files are accepted.
struct Accepted {
    line: &'static [&'static str],
    /// The files that it reads, in order.
    reads: &'static [&'static str],
    /// Whether it writes OUT.
    writes: bool,
    lines: &'static [&'static str],
    /// The first three bytes of its lines.
    start: &'static str,
}

impl Accepted {
    /// How many files it reads and writes.
    fn calls(&self) -> usize {
        self.reads.len() + usize::from(self.writes)
    }
}

// A row is the words behind the program's own, and the other fields.
macro_rules! accepted {
    ($([$($word:literal),*] reads $reads:tt writes $writes:literal leaves $lines:tt start $start:literal;)*) => {
        [$(Accepted {
            line: &["fuzz12", $($word),*],
            reads: &$reads,
            writes: $writes,
            lines: &$lines,
            start: $start,
        }),*]
    };
}

static COMMANDS: [Accepted; 19] = accepted! {
    ["asm", "small.asm", "out"] reads ["small.asm"] writes true
        leaves ["bytes 7\n"] start "byt";
    ["check", "a.fcl", "a.cert"] reads ["a.fcl", "a.cert"] writes false
        leaves ["error 1 19609\n", "instructions 28\n"] start "err";
    ["check16", "a.fcl", "wide.cert"] reads ["a.fcl", "wide.cert"] writes false
        leaves ["error 1 15702\n", "instructions 31\n"] start "err";
    ["compile", "a.fcl", "out"] reads ["a.fcl"] writes true
        leaves ["instructions 28\n", "steps 36\n", "bytes 99\n"] start "ins";
    ["compile16", "a.fcl", "out"] reads ["a.fcl"] writes true
        leaves ["instructions 31\n", "steps 39\n", "bytes 112\n"] start "ins";
    ["exec", "small.s19", "10", "00"] reads ["small.s19"] writes false
        leaves ["pc C003 a FA b 00 x 0000 y 0000 sp 0000 ccr D9 steps 2\n"] start "pc ";
    ["hcheck", "handler.s19"] reads ["handler.s19"] writes false
        leaves ["handler instructions 2\n"] start "han";
    ["hrun", "a.fcl", "handler.s19", "a.cert", "a.csv", "empty", "00"]
        reads ["a.fcl", "handler.s19", "a.cert", "a.csv", "empty"] writes false
        leaves [
            "error 1 19609\n",
            "instructions 28\n",
            "sample 1 bytes 64 answers 64 instructions 28 steps 36 resumed 0 frames 0 handler 0\n"
        ] start "err";
    ["mcompile", "a.fcl", "out"] reads ["a.fcl"] writes true
        leaves ["instructions 31\n", "steps 39\n", "bytes 109\n"] start "ins";
    ["mrun", "a.fcl", "mailbox.s19", "a.cert", "a.csv", "posts", "00"]
        reads ["a.fcl", "mailbox.s19", "a.cert", "a.csv", "posts"] writes false
        leaves [
            "error 1 19609\n",
            "instructions 31\n",
            "answer 1 sample 1 at 39 bytes 64 answers 64 instructions 31\n",
            "frame 0 C008 1FF7 9\n",
            "resumed 0\n"
        ] start "err";
    ["run", "a.fcl", "a.s19", "a.cert", "a.csv", "empty", "00"]
        reads ["a.fcl", "a.s19", "a.cert", "a.csv", "empty"] writes false
        leaves [
            "error 1 19609\n",
            "instructions 28\n",
            "sample 1 bytes 64 answers 64 instructions 28 steps 36 resumed 0 frames 0\n",
            "left 208\n"
        ] start "err";
    ["run16", "a.fcl", "wide.s19", "wide.cert", "a.csv", "empty", "00"]
        reads ["a.fcl", "wide.s19", "wide.cert", "a.csv", "empty"] writes false
        leaves [
            "error 1 15702\n",
            "instructions 31\n",
            "sample 1 bytes 64 answers 16384 instructions 31 steps 39 resumed 0 frames 0\n",
            "left 208\n"
        ] start "err";
    ["certify", "a.fcl", "20000", "out"] reads ["a.fcl"] writes true
        leaves ["error 1 19609\n", "leaves 2\n"] start "err";
    ["certify16", "a.fcl", "15702", "out"] reads ["a.fcl"] writes true
        leaves ["error 1 15702\n", "leaves 2\n"] start "err";
    ["debug", "a.fcl", "a.s19", "a.csv", "empty", "00", "script"]
        reads ["a.fcl", "a.s19", "a.csv", "empty", "script"] writes false
        leaves [
            "stop 1 1 C00B\n",
            "pc C00B a 01 b 00 x 0000 y 0000 sp 2000 ccr C0\n",
            "sample 1 bytes 64 answers 64 instructions 28 steps 36 resumed 0 frames 0\n"
        ] start "sto";
    ["lcompile", "a.fcl", "a.fcl", "out"] reads ["a.fcl", "a.fcl"] writes true
        leaves ["instructions 28\n", "fast 24\n", "bytes 174\n"] start "ins";
    ["lrun", "a.fcl", "a.fcl", "both.s19", "a.cert", "a.cert", "a.csv", "a.csv", "levels", "00"]
        reads ["a.fcl", "a.fcl", "both.s19", "a.cert", "a.cert", "a.csv", "a.csv", "levels"] writes false
        leaves [
            "error 1 19609\n",
            "fast error 1 19609\n",
            "instructions 28\n",
            "fast instructions 24\n",
            "sample 1 bytes 64 answers 64 instructions 28 steps 36 resumed 1 frames 1\n",
            "frame 1 26 C03C 1FEF 15\n",
            "fast 1 answers 64 instructions 24 steps 32 resumed 1\n",
            "inner 24 4028 1FE0 15\n"
        ] start "err";
    ["scompile", "a.fcl", "out"] reads ["a.fcl"] writes true
        leaves ["instructions 89\n", "steps 97\n", "bytes 149\n"] start "ins";
    ["srun", "a.fcl", "watched.s19", "a.cert", "a.csv", "empty", "empty", "00"]
        reads ["a.fcl", "watched.s19", "a.cert", "a.csv", "empty", "empty"] writes false
        leaves [
            "error 1 19609\n",
            "instructions 89\n",
            "sample 1 bytes 64 answers 64 instructions 89 steps 97 resumed 0 frames 0 fault 0\n"
        ] start "err";
};

// Those of tight certificates.
static TIGHT: [Accepted; 10] = accepted! {
    ["tcertify", "a.fcl", "20000", "out"] reads ["a.fcl"] writes true
        leaves ["error 1 11735\n", "leaves 2\n"] start "err";
    ["tcertify16", "a.fcl", "20000", "out"] reads ["a.fcl"] writes true
        leaves ["error 1 7828\n", "leaves 2\n"] start "err";
    ["tcheck", "a.fcl", "tight.cert"] reads ["a.fcl", "tight.cert"] writes false
        leaves ["error 1 11735\n", "instructions 28\n"] start "err";
    ["tcheck16", "a.fcl", "tight16.cert"] reads ["a.fcl", "tight16.cert"] writes false
        leaves ["error 1 7828\n", "instructions 31\n"] start "err";
    ["trun", "a.fcl", "a.s19", "tight.cert", "a.csv", "empty", "00"]
        reads ["a.fcl", "a.s19", "tight.cert", "a.csv", "empty"] writes false
        leaves [
            "error 1 11735\n",
            "instructions 28\n",
            "sample 1 bytes 64 answers 64 instructions 28 steps 36 resumed 0 frames 0\n",
            "left 208\n"
        ] start "err";
    ["trun16", "a.fcl", "wide.s19", "tight16.cert", "a.csv", "empty", "00"]
        reads ["a.fcl", "wide.s19", "tight16.cert", "a.csv", "empty"] writes false
        leaves [
            "error 1 7828\n",
            "instructions 31\n",
            "sample 1 bytes 64 answers 16384 instructions 31 steps 39 resumed 0 frames 0\n",
            "left 208\n"
        ] start "err";
    ["thrun", "a.fcl", "handler.s19", "cells.cert", "a.csv", "empty", "00"]
        reads ["a.fcl", "handler.s19", "cells.cert", "a.csv", "empty"] writes false
        leaves [
            "error 1 3907\n",
            "instructions 28\n",
            "sample 1 bytes 64 answers 64 instructions 28 steps 36 resumed 0 frames 0 handler 0\n"
        ] start "err";
    ["tmrun", "a.fcl", "mailbox.s19", "cells.cert", "a.csv", "posts", "00"]
        reads ["a.fcl", "mailbox.s19", "cells.cert", "a.csv", "posts"] writes false
        leaves [
            "error 1 3907\n",
            "instructions 31\n",
            "answer 1 sample 1 at 39 bytes 64 answers 64 instructions 31\n",
            "frame 0 C008 1FF7 9\n",
            "resumed 0\n"
        ] start "err";
    ["tlrun", "a.fcl", "a.fcl", "both.s19", "cells.cert", "cells.cert", "a.csv", "a.csv", "levels", "00"]
        reads ["a.fcl", "a.fcl", "both.s19", "cells.cert", "cells.cert", "a.csv", "a.csv", "levels"] writes false
        leaves [
            "error 1 3907\n",
            "fast error 1 3907\n",
            "instructions 28\n",
            "fast instructions 24\n",
            "sample 1 bytes 64 answers 64 instructions 28 steps 36 resumed 1 frames 1\n",
            "frame 1 26 C03C 1FEF 15\n",
            "fast 1 answers 64 instructions 24 steps 32 resumed 1\n",
            "inner 24 4028 1FE0 15\n"
        ] start "err";
    ["tsrun", "a.fcl", "watched.s19", "cells.cert", "a.csv", "empty", "empty", "00"]
        reads ["a.fcl", "watched.s19", "cells.cert", "a.csv", "empty", "empty"] writes false
        leaves [
            "error 1 3907\n",
            "instructions 89\n",
            "sample 1 bytes 64 answers 64 instructions 89 steps 97 resumed 0 frames 0 fault 0\n"
        ] start "err";
};

// The command that reads no file.
static WORKLOAD: [Accepted; 1] = accepted! {
    ["gen", "7"] reads [] writes false
        leaves [
            "gen 7\n",
            "error 1 357753\n",
            "instructions 48\n",
            "samples 1000\n",
            "frames 1000\n",
            "resumed 900\n",
            "sum 127051\n"
        ] start "gen";
};

/// The shelf with all files, and with these records for answers of 16 bits.
fn house(alloc: Global, wide: &[u8], faults: &Faults) -> Result<MemShelf, Difference> {
    let mut files = files_of(alloc, &FILES)?;
    push_bytes(alloc, &mut files, "wide.s19", wide)?;
    push_room(alloc, &mut files, "out")?;
    shelf_of(alloc, files, faults)
}

/// The outcome of a call: what it leaves, how many files it reads and writes, and what OUT holds then.
#[derive(Clone, Copy)]
struct Outcome<'a> {
    left: Left<'a>,
    calls: usize,
    out: &'a [u8],
}

/// Checks that a call has this outcome, and that each file but OUT is as before.
fn case(
    alloc: Global,
    wide: &[u8],
    line: &[&str],
    faults: &Faults,
    outcome: &Outcome,
) -> Result<(), Difference> {
    let mut shelf = house(alloc, wide, faults)?;
    call(alloc, line, &mut shelf, faults, &outcome.left)?;
    calls_are(&shelf, outcome.calls)?;
    file_holds(alloc, &mut shelf, "out", outcome.out)?;
    file_holds(alloc, &mut shelf, "wide.s19", wide)?;
    for (name, text) in FILES.iter() {
        file_holds(alloc, &mut shelf, name, joined(alloc, text)?.as_bytes())?;
    }
    Ok(())
}

/// What OUT holds after a call in which nothing fails.
fn written(alloc: Global, wide: &[u8], command: &Accepted) -> Result<Vec<u8>, Difference> {
    let mut shelf = house(alloc, wide, &NONE)?;
    let text = joined(alloc, command.lines)?;
    let left = Left::Lines(text.as_str());
    call(alloc, command.line, &mut shelf, &NONE, &left)?;
    let out = bytes_of(alloc, &mut shelf, "out")?;
    if command.writes == (out.as_slice() == BEFORE.as_bytes()) {
        return Err(Difference::File(String::from_str(alloc, "out")?));
    }
    Ok(out)
}

/// The records that `compile16` writes.
fn wide_records(alloc: Global) -> Result<Vec<u8>, Difference> {
    written(alloc, &[], &COMMANDS[4])
}

/// Each read fails: none comes after it, and nothing is written or put.
fn failing_reads(alloc: Global, wide: &[u8], command: &Accepted) -> Result<(), Difference> {
    for (number, name) in (1..9u32).zip(command.reads) {
        let failing = [number];
        let faults = Faults {
            reads: &failing,
            ..NONE
        };
        let line = joined(alloc, &["read fault: ", name, "\n"])?;
        let outcome = Outcome {
            left: Left::Refused(2, line.as_str()),
            calls: number as usize,
            out: BEFORE.as_bytes(),
        };
        case(alloc, wide, command.line, &faults, &outcome)?;
    }
    Ok(())
}

/// The write fails: nothing is put.
fn failing_write(alloc: Global, wide: &[u8], command: &Accepted) -> Result<(), Difference> {
    let faults = Faults {
        writes: &[1],
        ..NONE
    };
    let text = joined(alloc, command.lines)?;
    let outcome = Outcome {
        left: if command.writes {
            Left::Broken("")
        } else {
            Left::Lines(text.as_str())
        },
        calls: command.calls(),
        out: BEFORE.as_bytes(),
    };
    case(alloc, wide, command.line, &faults, &outcome)
}

/// Each put of a line fails: the lines before it are on out, and OUT is whole.
fn failing_puts(alloc: Global, wide: &[u8], command: &Accepted) -> Result<(), Difference> {
    let out = written(alloc, wide, command)?;
    let mut before = String::new(alloc);
    for (number, line) in (1..9u32).zip(command.lines) {
        let failing = [number];
        let faults = Faults {
            puts: &failing,
            ..NONE
        };
        let outcome = Outcome {
            left: Left::Broken(before.as_str()),
            calls: command.calls(),
            out: &out,
        };
        case(alloc, wide, command.line, &faults, &outcome)?;
        before.push_str(line)?;
    }
    Ok(())
}

/// Out takes one byte in each put: all lines are put, or three bytes if the fourth put fails.
fn short_puts(alloc: Global, wide: &[u8], command: &Accepted) -> Result<(), Difference> {
    let out = written(alloc, wide, command)?;
    let text = joined(alloc, command.lines)?;
    let whole = Outcome {
        left: Left::Lines(text.as_str()),
        calls: command.calls(),
        out: &out,
    };
    let faults = Faults { most: 1, ..NONE };
    case(alloc, wide, command.line, &faults, &whole)?;
    let faults = Faults {
        most: 1,
        puts: &[4],
        ..NONE
    };
    let left = Left::Broken(command.start);
    let broken = Outcome {
        left,
        calls: command.calls(),
        out: &out,
    };
    case(alloc, wide, command.line, &faults, &broken)
}

/// The puts of err fail too, after a read that fails: the status is the same, and err has a prefix of the line.
fn failing_err(alloc: Global, wide: &[u8], command: &Accepted) -> Result<(), Difference> {
    let first = Faults {
        reads: &[1],
        err_puts: &[1],
        ..NONE
    };
    let nothing = Outcome {
        left: Left::Refused(2, ""),
        calls: 1,
        out: BEFORE.as_bytes(),
    };
    case(alloc, wide, command.line, &first, &nothing)?;
    let second = Faults {
        err_puts: &[2],
        ..first
    };
    let part = Outcome {
        left: Left::Refused(2, "read fault: "),
        calls: 1,
        out: BEFORE.as_bytes(),
    };
    case(alloc, wide, command.line, &second, &part)
}

fn failing(alloc: Global, commands: &[Accepted]) -> Result<(), Difference> {
    let wide = wide_records(alloc)?;
    for command in commands {
        failing_reads(alloc, &wide, command)?;
        failing_write(alloc, &wide, command)?;
        failing_puts(alloc, &wide, command)?;
        short_puts(alloc, &wide, command)?;
        if !command.reads.is_empty() {
            failing_err(alloc, &wide, command)?;
        }
    }
    Ok(())
}

#[test]
fn failures(rt: HostRuntime) -> Result<(), Fail> {
    failing(rt.alloc(), COMMANDS.as_slice())?;
    failing(rt.alloc(), TIGHT.as_slice())?;
    Ok(())
}

#[test]
fn failures_of_a_workload(rt: HostRuntime) -> Result<(), Fail> {
    failing(rt.alloc(), WORKLOAD.as_slice())?;
    Ok(())
}
