//! Runs with six files: worked samples while the firmware's tables are upset.
use super::files::succeeds;
use fz_shelf::MemShelf;
use std::alloc::{AllocError, Global};
use std::fmt::Write;
use std::test::Fail;
use test_program_calls::{Difference, Left, NONE, call, push_file, push_room, rows, shelf_of};
use test_texts::{BLOCK, CELLS, HALF_WEIGHT, HALVES, LATCH, NODES_OF_THE_LATCH};

/// What `srun` or `tsrun` is given, the command that writes its image, and what it leaves.
#[derive(Clone, Copy)]
struct Ran {
    command: &'static str,
    image_by: &'static str,
    fcl: &'static [&'static str],
    cert: &'static [&'static str],
    trace: &'static str,
    plan: &'static str,
    upsets: &'static str,
    left: Left<'static>,
}

const ANSWERED: Left<'static> = Left::Lines(
    "error 1 19609
instructions 89
sample 1 bytes 64 answers 64 instructions 89 steps 97 resumed 0 frames 0 fault 0
",
);

const UPSET: Left<'static> = Left::Lines(
    "error 1 19609
instructions 89
sample 1 bytes 64 answers 0 instructions 70 steps 70 resumed 0 frames 0 fault 1
",
);

/// The heater's run with no plan and no upset.
const HEATER: Ran = Ran {
    command: "srun",
    image_by: "scompile",
    fcl: &[BLOCK],
    cert: &["FZC 1\nclaim 19609\n", HALVES],
    trace: "64\n",
    plan: "",
    upsets: "",
    left: ANSWERED,
};

/// The check takes 61 instructions in addition to the heater's 28: 3 for each of 18 bytes, 1 for each of 3 segments,
/// and 4. If it fails, BAD follows after 63: 5 with the return, and 2 to LOOP.
static RUNS: [Ran; 26] = rows! { Ran:
    HEATER {};
    HEATER { upsets: "1,D201,FE\n", left: UPSET };
    HEATER { upsets: "1,D201,FF\n" };
    HEATER { upsets: "2,D201,FE\n" };
    // The tables' first and last bytes, and the rule list's.
    HEATER { upsets: "1,D000,80\n", left: UPSET };
    HEATER { upsets: "1,D007,01\n", left: UPSET };
    HEATER { upsets: "1,D200,FF\n", left: UPSET };
    HEATER { upsets: "1,D800,01\n", left: UPSET };
    // The list without its end: it is not evaluated.
    HEATER { upsets: "1,D807,FE\n", left: UPSET };
    // The byte stands there again for the next sample.
    HEATER { trace: "64\n64\n64\n255\n", upsets: "2,D804,00\n4,D001,7F\n" } leaves "error 1 19609
instructions 89
sample 1 bytes 64 answers 64 instructions 89 steps 97 resumed 0 frames 0 fault 0
sample 2 bytes 64 answers 0 instructions 70 steps 70 resumed 0 frames 0 fault 1
sample 3 bytes 64 answers 64 instructions 89 steps 97 resumed 0 frames 0 fault 0
sample 4 bytes 255 answers 0 instructions 70 steps 70 resumed 0 frames 0 fault 1
";
    HEATER { trace: "", upsets: "1,D201,FE\n" } leaves "error 1 19609\ninstructions 89\n";
    // An interrupt inside the check, before its first branch back.
    HEATER { plan: "1,7,1800,55\n" } leaves "error 1 19609
instructions 89
sample 1 bytes 64 answers 64 instructions 89 steps 97 resumed 0 frames 1 fault 0
frame 1 7 C02B 1FF5 9
";
    HEATER { plan: "1,7,1800,55\n", upsets: "1,D201,FE\n" } leaves "error 1 19609
instructions 89
sample 1 bytes 64 answers 0 instructions 70 steps 70 resumed 0 frames 1 fault 1
frame 1 7 C02B 1FF5 9
";
    // One inside REV, 61 steps later than without the check.
    HEATER { plan: "1,78\n" } leaves "error 1 19609
instructions 89
sample 1 bytes 64 answers 64 instructions 89 steps 97 resumed 1 frames 1 fault 0
frame 1 78 C063 1FF5 9
";
    // With NC the answer before stands, and is the one before the next answer too.
    HEATER {
        fcl: &[LATCH],
        cert: &["FZC 1\nclaim 3922\n", NODES_OF_THE_LATCH],
        trace: "0\n200\n128\n200\n128\n",
        upsets: "2,D200,01\n"
    } leaves "error 1 3922
instructions 91
sample 1 bytes 0 answers 255 instructions 91 steps 99 resumed 0 frames 0 fault 0
sample 2 bytes 200 answers 255 instructions 68 steps 68 resumed 0 frames 0 fault 1
sample 3 bytes 128 answers 255 instructions 88 steps 96 resumed 0 frames 0 fault 0
sample 4 bytes 200 answers 0 instructions 91 steps 99 resumed 0 frames 0 fault 0
sample 5 bytes 128 answers 0 instructions 88 steps 96 resumed 0 frames 0 fault 0
";
    // REVW: four segments of 28 bytes in all, 92 instructions more than without the check.
    HEATER { fcl: &HALF_WEIGHT, cert: &["FZC 1\nclaim 51417\nsplit 1 128\nleaf 1 63\nleaf 2 127\n"] }
        leaves "error 1 51417
instructions 121
sample 1 bytes 64 answers 102 instructions 121 steps 129 resumed 0 frames 0 fault 0
";
    // A weight of it.
    HEATER {
        fcl: &HALF_WEIGHT,
        cert: &["FZC 1\nclaim 51417\nsplit 1 128\nleaf 1 63\nleaf 2 127\n"],
        upsets: "1,D300,00\n"
    } leaves "error 1 51417
instructions 121
sample 1 bytes 64 answers 0 instructions 101 steps 101 resumed 0 frames 0 fault 1
";
    // Each file but FCL is refused, and those behind it with it.
    HEATER { image_by: "compile", cert: &["FZC 1\nclaim 19608\n", HALVES] }
        refused 5 "image: C00F: 16, compile gives 21\n";
    HEATER { cert: &["FZC 1\nclaim 19608\n", HALVES], trace: "257\n" }
        refused 6 "cert: output 1 claims 19608, computed 19609\n";
    HEATER { cert: &[CELLS] } refused 6 "cert: line 1: bad line\n";
    HEATER { trace: "257\n", plan: "0,1\n", upsets: "1,D202,00\n" }
        refused 7 "trace: row 1: input 1 out of range\n";
    HEATER { plan: "1,0,17FF,00\n", upsets: "1,D202,00\n" } refused 7 "plan: row 1: not free 17FF\n";
    HEATER { upsets: "1,D202,00\n" } refused 7 "upset: row 1: not table D202\n";
    HEATER { upsets: "1,D201,FE\n2,D201\n" } refused 7 "upset: row 2: bad row\n";
    HEATER { upsets: "1,D201,FE\n1,D200,01\n" } refused 7 "upset: row 2: not ascending\n";
    HEATER { upsets: "1,C000,FE\n" } refused 7 "upset: row 1: not table C000\n";
};

/// The same under a tight certificate.
const TIGHT: Ran = Ran {
    command: "tsrun",
    cert: &[CELLS],
    ..HEATER
};

static TIGHT_RUNS: [Ran; 5] = rows! { Ran:
    TIGHT { plan: "1,7,1800,55\n", upsets: "1,D201,FE\n" } leaves "error 1 3907
instructions 89
sample 1 bytes 64 answers 0 instructions 70 steps 70 resumed 0 frames 1 fault 1
frame 1 7 C02B 1FF5 9
";
    TIGHT { cert: &["FZC 1\nclaim 19609\n", HALVES] } refused 6 "cert: line 1: bad line\n";
    TIGHT { cert: &["FZC 3\nclaim 3907\nleaf\n"] } refused 6 "cert: line 3: unsure output 1\n";
    TIGHT { cert: &["FZC 3\nclaim 3907\ncells\n"] } refused 6 "cert: line 3: too many cells\n";
    TIGHT { upsets: "1,D202,00\n" } refused 7 "upset: row 1: not table D202\n";
};

/// The six files, with an empty image.
fn shelf(alloc: Global, ran: &Ran, trace: &str, upsets: &str) -> Result<MemShelf, Difference> {
    let mut files = Vec::new(alloc);
    push_file(alloc, &mut files, "n.fcl", ran.fcl)?;
    push_file(alloc, &mut files, "n.cert", ran.cert)?;
    push_file(alloc, &mut files, "n.csv", &[trace])?;
    push_file(alloc, &mut files, "n.plan", &[ran.plan])?;
    push_file(alloc, &mut files, "n.upsets", &[upsets])?;
    push_room(alloc, &mut files, "n.s19")?;
    shelf_of(alloc, files, &NONE)
}

/// Checks a run of the image that is written first, with this trace and these upsets.
fn run_over(
    alloc: Global,
    ran: &Ran,
    trace: &str,
    upsets: &str,
    left: &Left,
) -> Result<(), Difference> {
    let mut shelf = shelf(alloc, ran, trace, upsets)?;
    succeeds(
        alloc,
        &["fuzz12", ran.image_by, "n.fcl", "n.s19"],
        &mut shelf,
    )?;
    let line = [
        "fuzz12",
        ran.command,
        "n.fcl",
        "n.s19",
        "n.cert",
        "n.csv",
        "n.plan",
        "n.upsets",
        "FF",
    ];
    call(alloc, &line, &mut shelf, &NONE, left)
}

fn run(alloc: Global, ran: &Ran) -> Result<(), Difference> {
    run_over(alloc, ran, ran.trace, ran.upsets, &ran.left)
}

/// Checks the heater's run with this many upsets, each to the byte that is there already.
fn run_with(alloc: Global, upsets: u32, left: &Left) -> Result<(), Difference> {
    let mut text = String::new(alloc);
    for sample in 0..upsets {
        write!(&mut text, "{},D201,FF\n", sample + 1)?;
    }
    run_over(alloc, &HEATER, HEATER.trace, text.as_str(), left)
}

#[test]
fn runs_under_upsets(rt: HostRuntime) -> Result<(), Fail> {
    for ran in RUNS.iter() {
        run(rt.alloc(), ran)?;
    }
    for ran in TIGHT_RUNS.iter() {
        run(rt.alloc(), ran)?;
    }
    run_with(rt.alloc(), 10_000, &ANSWERED)?;
    run_with(
        rt.alloc(),
        10_001,
        &Left::Refused(7, "upset: too many rows\n"),
    )?;
    Ok(())
}

/// The bits of a byte.
static BITS: [u8; 8] = [0x01, 0x02, 0x04, 0x08, 0x10, 0x20, 0x40, 0x80];

/// The heater's tables by their addresses: the terms' table, the singletons and the rule list.
static TABLES: [(u16, &[u8]); 3] = [
    (0xD000, &[0x00, 0xFF, 0x00, 0x01, 0x00, 0xFF, 0x01, 0x00]),
    (0xD200, &[0x00, 0xFF]),
    (0xD800, &[0x00, 0xFE, 0x02, 0xFE, 0x01, 0xFE, 0x03, 0xFF]),
];

/// A trace with a sample for each bit of a byte, the upsets that flip the bits, and the lines of the run.
#[derive(Drop)]
struct Flips {
    trace: String,
    upsets: String,
    lines: String,
}

/// Adds a sample in which a byte has another value.
fn push_flip(flips: &mut Flips, sample: usize, at: u16, value: u8) -> Result<(), AllocError> {
    write!(&mut flips.trace, "64\n")?;
    write!(&mut flips.upsets, "{sample},{at:04X},{value:02X}\n")?;
    write!(
        &mut flips.lines,
        "sample {sample} bytes 64 answers 0 instructions 70 steps 70 resumed 0 frames 0 fault 1\n"
    )
}

/// The flips of each bit of a byte.
fn flips_of(alloc: Global, at: u16, byte: u8) -> Result<Flips, AllocError> {
    let mut flips = Flips {
        trace: String::new(alloc),
        upsets: String::new(alloc),
        lines: String::from_str(alloc, "error 1 19609\ninstructions 89\n")?,
    };
    for (number, bit) in BITS.iter().enumerate() {
        push_flip(&mut flips, number + 1, at, byte ^ *bit)?;
    }
    Ok(flips)
}

/// Checks the heater's run with each bit of a byte flipped in turn.
fn run_flipped(alloc: Global, at: u16, byte: u8) -> Result<(), Difference> {
    let flips = flips_of(alloc, at, byte)?;
    let left = Left::Lines(flips.lines.as_str());
    run_over(
        alloc,
        &HEATER,
        flips.trace.as_str(),
        flips.upsets.as_str(),
        &left,
    )
}

/// Checks the same for each of the bytes that stand from an address on.
fn run_each_flipped(alloc: Global, from: u16, bytes: &[u8]) -> Result<(), Difference> {
    for (at, byte) in (from..=0xFFFF).zip(bytes) {
        run_flipped(alloc, at, *byte)?;
    }
    Ok(())
}

#[test]
fn each_bit_is_seen(rt: HostRuntime) -> Result<(), Fail> {
    for (from, bytes) in TABLES.iter() {
        run_each_flipped(rt.alloc(), *from, bytes)?;
    }
    Ok(())
}
