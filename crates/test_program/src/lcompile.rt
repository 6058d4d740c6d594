//! The image of two blocks at two levels, and texts of them that are refused.
use std::alloc::Global;
use std::test::Fail;
use test_program_calls::{
    BEFORE, Difference, Left, NONE, call, file_holds, push_file, push_room, rows, shelf_of,
};
use test_texts::{BLOCK, RECORDS_OF_BOTH};

/// The texts of SLOW and of FAST, if there is one, what the call leaves, and what OUT holds then.
#[derive(Clone, Copy)]
struct Both {
    slow: &'static str,
    fast: Option<&'static str>,
    left: Left<'static>,
    records: &'static str,
}

/// The heater at both levels.
const HEATERS: Both = Both {
    slow: BLOCK,
    fast: Some(BLOCK),
    left: Left::Lines("instructions 28\nfast 24\nbytes 174\n"),
    records: RECORDS_OF_BOTH,
};

static BOTH: [Both; 6] = rows! { Both:
    HEATERS {};
    HEATERS { slow: "", fast: Some("x"), records: BEFORE } refused 4 "fcl: at 0: expected\n";
    HEATERS { fast: Some("x"), records: BEFORE } refused 4 "fast fcl: at 0: expected\n";
    HEATERS { fast: Some("FUNCTION_BLOCK a RULEBLOCK r END_RULEBLOCK END_FUNCTION_BLOCK"), records: BEFORE }
        refused 4 "fast fcl: at 43: load 12\n";
    HEATERS { slow: "", fast: None, records: BEFORE } refused 2 "read fault: fast\n";
    HEATERS { fast: None, records: BEFORE } refused 2 "read fault: fast\n";
};

fn compile_both(alloc: Global, row: &Both) -> Result<(), Difference> {
    let mut files = Vec::new(alloc);
    push_file(alloc, &mut files, "slow", &[row.slow])?;
    if let Some(fast) = row.fast {
        push_file(alloc, &mut files, "fast", &[fast])?;
    }
    push_room(alloc, &mut files, "out")?;
    let mut shelf = shelf_of(alloc, files, &NONE)?;
    let line = ["fuzz12", "lcompile", "slow", "fast", "out"];
    call(alloc, &line, &mut shelf, &NONE, &row.left)?;
    file_holds(alloc, &mut shelf, "out", row.records.as_bytes())
}

#[test]
fn two_blocks(rt: HostRuntime) -> Result<(), Fail> {
    for row in BOTH.iter() {
        compile_both(rt.alloc(), row)?;
    }
    Ok(())
}
