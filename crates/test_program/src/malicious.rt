//! Malicious files, and the longest ones of each kind.
use std::alloc::{AllocError, Global};
use std::fmt::Write;
use std::test::Fail;
use test_program_calls::{
    Difference, Left, NONE, call, file_holds, push_file, push_room, shelf_of,
};
use test_texts::{BACK, BLOCK, FRONT, HALVES, OPENED, RECORDS, RECORDS_OF_BOTH};

/// The parts of a long text, each with the number of its repetitions.
type Parts = &'static [(&'static str, u32)];

/// The words, the files that they may name, and what the call leaves.
#[derive(Clone, Copy)]
struct Given {
    line: &'static [&'static str],
    /// The block's text, or a source.
    text: Parts,
    image: Parts,
    cert: Parts,
    trace: Parts,
    plan: Parts,
    left: Leaves,
}

/// What a call leaves.
#[derive(Clone, Copy)]
enum Leaves {
    /// Status 0, and these lines.
    Lines(Parts),
    /// Another status, with its line.
    Refused(u8, &'static str),
}

const RUN: Given = Given {
    line: &[
        "fuzz12", "run", "text", "image", "cert", "trace", "plan", "00",
    ],
    text: &[(BLOCK, 1)],
    image: &[(RECORDS, 1)],
    cert: &[("FZC 1\nclaim 19609\n", 1), (HALVES, 1)],
    trace: &[("64\n", 1)],
    plan: &[],
    left: RAN,
};

const BOUNDS: &str = "error 1 19609\ninstructions 28\n";

const SAMPLE: &str = "sample 1 bytes 64 answers 64 instructions 28 steps 36 resumed 0 frames ";

const RAN: Leaves = Leaves::Lines(&[(BOUNDS, 1), (SAMPLE, 1), ("0\nleft 208\n", 1)]);

const COLD_TERM: &str = "t IS cold";

const EITHER: &str = "(t IS cold OR t IS hot)";

const EITHER_AND: &str = "(t IS cold OR t IS hot) AND ";

const OFF: &str =
    " THEN power IS off;\nRULE 2 : IF t IS hot THEN power IS on;\nEND_RULEBLOCK\nEND_FUNCTION_BLOCK\n";

const CHECK: Given = Given {
    line: &["fuzz12", "check", "text", "cert"],
    left: Leaves::Lines(&[(BOUNDS, 1)]),
    ..RUN
};

const EXEC: Given = Given {
    line: &["fuzz12", "exec", "image", "1000000", "00"],
    left: Leaves::Refused(12, "trap: 0000 00\n"),
    ..RUN
};

const ASM: Given = Given {
    line: &["fuzz12", "asm", "text", "out"],
    ..RUN
};

// A row is the call that it changes, the files that are others, and what is left where that is another.
macro_rules! calls {
    ($($call:ident { $($file:ident: $parts:tt),* }
        $(refused $code:literal $line:literal)? $(leaves $lines:tt)?;)*) => {
        [$(Given {
            $($file: &$parts,)*
            $(left: Leaves::Refused($code, $line),)?
            $(left: Leaves::Lines(&$lines),)?
            ..$call
        }),*]
    };
}

static BLOCKS: [Given; 14] = calls! {
    CHECK { text: [(BLOCK, 1), (" ", 1_048_202)] };
    CHECK { text: [(BLOCK, 1), (" ", 1_048_203)] } refused 10 "too long: text\n";
    CHECK { text: [("(*", 1000)] } refused 4 "fcl: at 0: open comment\n";
    CHECK { text: [("9", 1000)] } refused 4 "fcl: at 0: number\n";
    CHECK { text: [("0", 1000)] } refused 4 "fcl: at 0: expected\n";
    CHECK { text: [(FRONT, 1), (OPENED, 1), ("(", 64), (COLD_TERM, 1), (")", 64), (OFF, 1)] };
    CHECK { text: [(FRONT, 1), (OPENED, 1), ("NOT (", 32), (COLD_TERM, 1), (")", 32), (OFF, 1)] };
    CHECK { text: [(FRONT, 1), (OPENED, 1), ("(", 1000)] } refused 4 "fcl: at 337: too deep\n";
    CHECK {
        text: [
            ("FUNCTION_BLOCK a VAR_INPUT x", 1),
            (",x", 1000),
            (" : REAL; END_VAR RULEBLOCK r END_RULEBLOCK END_FUNCTION_BLOCK", 1)
        ]
    } refused 4 "fcl: at 29: load 1\n";
    CHECK {
        text: [
            (FRONT, 1),
            ("0; END_DEFUZZIFY\nRULEBLOCK r\n", 1),
            ("RULE 1 : IF t IS cold THEN power IS off;\n", 25_000),
            ("RULE 1 : IF t IS cold THEN power IS off", 1),
            (BACK, 1)
        ]
    } refused 4 "fcl: at 10757: load 4\n";
    // Nine choices of two make all 512 conjunctions, and with a weight 12 words each.
    CHECK {
        text: [(FRONT, 1), (OPENED, 1), (EITHER_AND, 8), (EITHER, 1), (" THEN power IS off", 1), (BACK, 1)],
        cert: [("FZC 1\nclaim 0\nleaf 1 128\n", 1)]
    } refused 6 "cert: line 3: weak rule 1 k 128 low 0\n";
    CHECK {
        text: [(FRONT, 1), (OPENED, 1), (EITHER_AND, 8), (EITHER, 1), (" THEN power IS off WITH 0.5", 1), (BACK, 1)]
    } refused 4 "fcl: list too long 12288\n";
    CHECK { text: [(FRONT, 1), (OPENED, 1), (EITHER_AND, 8), (EITHER, 1), (OFF, 1)] }
        refused 4 "fcl: too many rules at rule 2\n";
    CHECK { text: [(FRONT, 1), (OPENED, 1), (EITHER_AND, 9), (EITHER, 1), (OFF, 1)] }
        refused 4 "fcl: too many rules at rule 1\n";
};

static IMAGES: [Given; 8] = calls! {
    RUN { image: [(FALLING, 1), ("S903C0003C\n", 1)] };
    RUN { image: [(FALLING, 1), ("S903C0013B\n", 1)] } refused 5 "image: start C001, compile gives C000\n";
    EXEC { image: [("S0030000FC\n", 1000)] } refused 5 "image: no end\n";
    EXEC { image: [("S0030000FC\r\n", 1000), ("S903C0003C", 1)] };
    EXEC { image: [("S0030000FC\n", 1000), ("S5030001FB\n", 1)] } refused 5 "image: count 1 0\n";
    EXEC { image: [("S105FFFEC0003D\n", 1000)] } refused 5 "image: line 2: overlap\n";
    EXEC { image: [("S", 1000)] } refused 5 "image: line 1: bad line\n";
    EXEC { image: [("S903C0003C\n", 1000)] } refused 5 "image: line 2: after end\n";
};

static CERTIFICATES: [Given; 6] = calls! {
    CHECK { cert: [("FZC 1\nclaim 19609\nsplit 1 255\nleaf 1 127\nleaf 2 127\n", 1)] }
        refused 6 "cert: line 4: weak rule 1 k 127 low 3906250\n";
    CHECK { cert: [("FZC 1\nclaim 19609\n", 1), ("split 1 1\n", 10_000)] } refused 6 "cert: early\n";
    CHECK { cert: [("FZC 1\nclaim 19609\n", 1), ("split 8 255\n", 3)] } refused 6 "cert: early\n";
    CHECK { cert: [("FZC 1\nclaim 19609\nleaf 1 ", 1), ("1", 1000), ("\n", 1)] } refused 6 "cert: line 3: bad line\n";
    CHECK { cert: [("FZC 1\nclaim", 1), (" 1", 1000), ("\n", 1)] } refused 6 "cert: line 2: bad line\n";
    CHECK { cert: [("FZC 1\nclaim 19609\n", 1), (HALVES, 1), ("leaf 0 0\n", 1000)] } refused 6 "cert: line 6: late\n";
};

static TRACES: [Given; 7] = calls! {
    RUN { trace: [("\"\"\n", 10_001)] } refused 7 "trace: row 1: bad row\n";
    RUN { trace: [("\n", 20_000)] } leaves [(BOUNDS, 1), ("left 0\n", 1)];
    RUN { trace: [("\"", 1), ("0", 1000), ("64\"", 1), ("\n", 1)] };
    RUN { trace: [("64.", 1), ("0", 1000)] };
    RUN { trace: [(",", 20_000)] } refused 7 "trace: row 1: bad row\n";
    RUN { trace: [("64\n", 10_000), ("x\n", 1)] } refused 7 "trace: too many rows\n";
    RUN { trace: [("64\n", 9_999), ("x\n", 2)] } refused 7 "trace: row 10000: bad row\n";
};

// A frame at the first boundary of the first sample has PC `$C008` and CCR `$C4` (S and X of reset, and Z of
// the byte that was cleared), and zeros else. JSR then leaves C0 10 in the place of PC: the sum is 404.
static PLANS: [Given; 10] = calls! {
    RUN { plan: [("1,0\n", 10_000)] }
        leaves [(BOUNDS, 1), (SAMPLE, 1), ("10000\n", 1), ("frame 1 0 C008 1FF7 9\n", 10_000), ("left 404\n", 1)];
    RUN {
        plan: [
            ("000000001,000000000,1fdf,01,1fdf,02,1fdf,03,1fdf,04,1fdf,05,1fdf,06,1fdf,07,1fdf,fF\n", 10_000),
            ("\n", 208_576)
        ]
    } leaves [(BOUNDS, 1), (SAMPLE, 1), ("10000\n", 1), ("frame 1 0 C008 1FF7 9\n", 10_000), ("left 659\n", 1)];
    RUN { plan: [("1,0\n", 10_001)] } refused 7 "plan: too many rows\n";
    RUN { plan: [("1,0\n", 10_000), ("x\n", 1)] } refused 7 "plan: too many rows\n";
    RUN { plan: [("1,0\n", 9_999), ("0,0\n", 2)] } refused 7 "plan: row 10000: bad row\n";
    RUN { plan: [("1,0", 1), (",1800,00", 8), ("\n1,0", 1), (",1800,00", 9)] } refused 7 "plan: row 2: bad row\n";
    RUN { plan: [("0,0\n", 1)] } refused 7 "plan: row 1: bad row\n";
    RUN { plan: [("1,0000000000\n", 1)] } refused 7 "plan: row 1: bad row\n";
    RUN { plan: [("2,0,1800,FF\n", 10_000)] };
    RUN { plan: [("1,999999999,1800,FF\n", 10_000)] };
};

/// The heater at both levels, with the same files.
const LEVELS: Given = Given {
    line: &[
        "fuzz12", "lrun", "text", "text", "image", "cert", "cert", "trace", "trace", "plan", "00",
    ],
    image: &[(RECORDS_OF_BOTH, 1)],
    ..RUN
};

const LEVEL_BOUNDS: &str =
    "error 1 19609\nfast error 1 19609\ninstructions 28\nfast instructions 24\n";

const FAST_RUN: &str =
    "frame 1 0 C008 1FF7 9\nfast 1 answers 64 instructions 24 steps 32 resumed 0\n";

/// A fast run with the most interrupts.
const BUSY_RUN: &str = "frame 1 0 C008 1FF7 9
fast 1 answers 64 instructions 24 steps 32 resumed 0
inner 1 4002 1FEE 9
inner 1 4002 1FEE 9
inner 1 4002 1FEE 9
inner 1 4002 1FEE 9
inner 1 4002 1FEE 9
inner 1 4002 1FEE 9
inner 1 4002 1FEE 9
inner 1 4002 1FEE 9
";

// As many fast runs as there may be; and as many as out has room for, each with the most interrupts.
static LEVEL_ROWS: [Given; 4] = calls! {
    LEVELS { plan: [("1,0,1\n", 10_000)] }
        leaves [(LEVEL_BOUNDS, 1), (SAMPLE, 1), ("10000\n", 1), (FAST_RUN, 10_000)];
    LEVELS { plan: [("1,0,1,0,0,0,0,0,0,0,0\n", 4_000)] }
        leaves [(LEVEL_BOUNDS, 1), (SAMPLE, 1), ("4000\n", 1), (BUSY_RUN, 4_000)];
    LEVELS { plan: [("1,0,1\n", 10_000), ("x\n", 1)] } refused 7 "plan: too many rows\n";
    LEVELS { plan: [("1,0,1\n", 9_999), ("1,0,2\n", 2)] } refused 7 "plan: row 10000: bad row\n";
};

static SOURCES: [Given; 10] = calls! {
    ASM { text: [(" ORG $FFFE\n FDB 0\n", 1)] } leaves [("bytes 2\n", 1)];
    ASM { text: [(" ORG $FFFF\n FDB 0\n", 1)] } refused 11 "asm: line 2: range\n";
    ASM { text: [(" FCB 1", 1), ("+1-1", 1000)] } leaves [("bytes 1\n", 1)];
    ASM { text: [(" FDB 0", 1), ("+9999", 7)] } refused 11 "asm: line 1: range\n";
    ASM { text: [(" NOP\n", 999), (" COMA 1\n", 1)] } refused 11 "asm: line 1000: bad line\n";
    ASM { text: [(" FDB B\n", 1000)] } refused 11 "asm: line 1: unknown name\n";
    ASM { text: [("A\n", 1), (" NOP\n", 126), (" BRA A\n", 1)] } leaves [("bytes 128\n", 1)];
    ASM { text: [("A\n", 1), (" NOP\n", 127), (" BRA A\n", 1)] } refused 11 "asm: line 129: branch far\n";
    ASM { text: [(" FCB 1\n", 1000), (" ORG 999\n FCB 2\n", 1)] } refused 11 "asm: line 1002: overlap\n";
    ASM { text: [("A\n", 1000)] } refused 11 "asm: line 2: twice\n";
};

// The block's records from the last address to the first, in small letters, with the header among them and no end.
const FALLING: &str = "s5030000fc
S105FFFEC0003D
s105fff2c01534
S10BD80000FE02FE01FE03FF1D
S105D20000FF29
S0070000465A3132F5
S10BD00000FF000100FF010024
S110C040270511B7642002C6007B10103DD7
S123C02001791102791103CED800CD110086FF10FD183ACED200CD1102C602183C8E000050
S123C000CF200079100010EFB6100027FB16C01679100020F30BCED000CD1100B6100101E6
";

fn push_times(text: &mut String, part: &str, times: u32) -> Result<(), AllocError> {
    for _ in 0..times {
        text.push_str(part)?;
    }
    Ok(())
}

/// A long text from its parts.
fn long(alloc: Global, parts: &[(&str, u32)]) -> Result<String, AllocError> {
    let mut text = String::new(alloc);
    for (part, times) in parts {
        push_times(&mut text, part, *times)?;
    }
    Ok(text)
}

/// Checks that the call leaves what is expected.
fn case(alloc: Global, given: &Given) -> Result<(), Difference> {
    let mut files = Vec::new(alloc);
    let named = [
        ("text", given.text),
        ("image", given.image),
        ("cert", given.cert),
        ("trace", given.trace),
        ("plan", given.plan),
    ];
    for (name, parts) in named {
        let text = long(alloc, parts)?;
        push_file(alloc, &mut files, name, &[text.as_str()])?;
    }
    push_room(alloc, &mut files, "out")?;
    let mut shelf = shelf_of(alloc, files, &NONE)?;
    let lines = match given.left {
        Leaves::Lines(parts) => long(alloc, parts)?,
        Leaves::Refused(_, line) => String::from_str(alloc, line)?,
    };
    let left = match given.left {
        Leaves::Lines(_) => Left::Lines(lines.as_str()),
        Leaves::Refused(code, _) => Left::Refused(code, lines.as_str()),
    };
    call(alloc, given.line, &mut shelf, &NONE, &left)
}

fn cases(alloc: Global, table: &[Given]) -> Result<(), Difference> {
    for given in table {
        case(alloc, given)?;
    }
    Ok(())
}

#[test]
fn malicious_files(rt: HostRuntime) -> Result<(), Fail> {
    for table in [
        BLOCKS.as_slice(),
        IMAGES.as_slice(),
        CERTIFICATES.as_slice(),
        TRACES.as_slice(),
        PLANS.as_slice(),
        LEVEL_ROWS.as_slice(),
        SOURCES.as_slice(),
    ] {
        cases(rt.alloc(), table)?;
    }
    Ok(())
}

/// As many long labels as a source has room for, each at the address 0.
fn labels(alloc: Global) -> Result<String, AllocError> {
    let mut text = String::new(alloc);
    for number in 0..8192u32 {
        write!(&mut text, "L{number:0126}\n")?;
    }
    Ok(text)
}

#[test]
fn a_source_of_labels(rt: HostRuntime) -> Result<(), Fail> {
    let alloc = rt.alloc();
    let text = labels(alloc)?;
    let mut files = Vec::new(alloc);
    push_file(alloc, &mut files, "text", &[text.as_str()])?;
    push_room(alloc, &mut files, "out")?;
    let mut shelf = shelf_of(alloc, files, &NONE)?;
    let left = Left::Lines("bytes 0\n");
    call(alloc, ASM.line, &mut shelf, &NONE, &left)?;
    let records = "S0070000465A3132F5\nS5030000FC\nS9030000FC\n";
    file_holds(alloc, &mut shelf, "out", records.as_bytes())?;
    Ok(())
}

/// The record of one byte, with its checksum.
fn push_record(text: &mut String, address: u16, byte: u8) -> Result<(), AllocError> {
    let [high, low] = address.to_be_bytes();
    let sum = 4u8.wrapping_add(high).wrapping_add(low).wrapping_add(byte);
    let check = 255 - sum;
    write!(text, "S104{address:04X}{byte:02X}{check:02X}\n")
}

/// Each byte of memory in its own record, from the last address to the first: a branch to itself at
/// `$C000`, to which reset leads.
fn every_byte(alloc: Global) -> Result<String, AllocError> {
    let mut text = String::new(alloc);
    for address in (0..=0xFFFFu16).rev() {
        let byte = match address {
            0xC000 => 0x20,
            0xC001 => 0xFE,
            0xFFFE => 0xC0,
            _ => 0,
        };
        push_record(&mut text, address, byte)?;
    }
    text.push_str("S9030000FC\n")?;
    Ok(text)
}

#[test]
fn a_record_for_each_byte(rt: HostRuntime) -> Result<(), Fail> {
    let alloc = rt.alloc();
    let text = every_byte(alloc)?;
    let mut files = Vec::new(alloc);
    push_file(alloc, &mut files, "image", &[text.as_str()])?;
    let mut shelf = shelf_of(alloc, files, &NONE)?;
    let line = ["fuzz12", "exec", "image", "0", "00"];
    let left = Left::Lines("pc C000 a 00 b 00 x 0000 y 0000 sp 0000 ccr D0 steps 0\n");
    call(alloc, &line, &mut shelf, &NONE, &left)?;
    Ok(())
}

/// The lines of as many samples as a trace may have.
fn lines_of_samples(alloc: Global) -> Result<String, AllocError> {
    let mut text = String::from_str(alloc, BOUNDS)?;
    for k in 1..10_001u32 {
        let counts = "bytes 64 answers 64 instructions 28 steps 36 resumed 0 frames 0";
        write!(&mut text, "sample {k} {counts}\n")?;
    }
    text.push_str("left 208\n")?;
    Ok(text)
}

#[test]
fn a_trace_at_its_limit(rt: HostRuntime) -> Result<(), Fail> {
    let alloc = rt.alloc();
    let trace = long(alloc, &[("64\n", 10_000), ("\n", 1_018_576)])?;
    let mut files = Vec::new(alloc);
    push_file(alloc, &mut files, "text", &[BLOCK])?;
    push_file(alloc, &mut files, "image", &[RECORDS])?;
    push_file(alloc, &mut files, "cert", &["FZC 1\nclaim 19609\n", HALVES])?;
    push_file(alloc, &mut files, "trace", &[trace.as_str()])?;
    push_file(alloc, &mut files, "plan", &[])?;
    let mut shelf = shelf_of(alloc, files, &NONE)?;
    let lines = lines_of_samples(alloc)?;
    let left = Left::Lines(lines.as_str());
    call(alloc, RUN.line, &mut shelf, &NONE, &left)?;
    Ok(())
}
