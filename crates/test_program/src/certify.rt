//! Certificates that are found, and targets that are not reached.
use std::alloc::Global;
use std::test::Fail;
use test_program_calls::{
    BEFORE, Difference, Left, NONE, USAGE, call, file_holds, push_file, push_room, rows, shelf_of,
};
use test_texts::{BACK, BLOCK, FRONT, LATCH, MIDDLE, TWO_OUTPUTS};

/// The parts of a text, TARGET, what the call leaves, and what OUT holds then, if that is given.
#[derive(Clone, Copy)]
pub(crate) struct Search {
    pub(crate) command: &'static str,
    pub(crate) fcl: &'static [&'static str],
    pub(crate) target: &'static str,
    pub(crate) left: Left<'static>,
    pub(crate) out: Option<&'static str>,
}

/// The heater, halved once.
const HEATER: Search = Search {
    command: "certify",
    fcl: &[BLOCK],
    target: "20000",
    left: Left::Lines("error 1 19609\nleaves 2\n"),
    out: Some("FZC 1\nclaim 19609\nsplit 1 128\nleaf 1 127\nleaf 2 127\n"),
};

static SEARCHES: [Search; 13] = rows! { Search:
    HEATER {};
    HEATER { target: "0019609" };
    HEATER { command: "certify16", target: "15702" } leaves "error 1 15702\nleaves 2\n"
        makes "FZC 2\nclaim 15702\nsplit 1 128\nleaf 1 127\nleaf 2 127\n";
    HEATER { target: "5000" } refused 8 "not reached: cell 0 output 1 bound 11765\n" makes BEFORE;
    HEATER { fcl: &[FRONT, "50", MIDDLE, BACK], target: "1000000" }
        refused 8 "not reached: cell 254 output 1 bound 1000001\n" makes BEFORE;
    HEATER { fcl: &[LATCH], target: "3922" } leaves "error 1 3922\nleaves 4\n"
        makes "FZC 1\nclaim 3922\nsplit 1 128\nsplit 1 64\nleaf 1 255\nleaf 0 0\nsplit 1 192\nleaf 0 0\nleaf 2 255\n";
    HEATER { fcl: &[TWO_OUTPUTS], target: "21569" } leaves "error 1 19609\nerror 2 21569\nleaves 4\n"
        makes "FZC 1
claim 19609 21569
split 1 128
split 2 128
leaf 1 127 3 127
leaf 1 127 4 127
split 2 128
leaf 2 127 3 127
leaf 2 127 4 127
";
    // A target of 14000 needs 2944 leaves.
    HEATER { fcl: &[TWO_OUTPUTS], target: "13757" } refused 8 "not reached: leaf limit\n" makes BEFORE;
    HEATER { fcl: &[] } refused 4 "fcl: at 0: expected\n" makes BEFORE;
    HEATER { target: "1000001", left: USAGE } makes BEFORE;
    HEATER { target: "1e4", left: USAGE } makes BEFORE;
    // A list is for tight certificates alone.
    HEATER { fcl: &[TWO_OUTPUTS], target: "21569,21569", left: USAGE } makes BEFORE;
    HEATER { command: "certify16", fcl: &[TWO_OUTPUTS], target: "21569,21569", left: USAGE } makes BEFORE;
};

pub(crate) fn find(alloc: Global, row: &Search) -> Result<(), Difference> {
    let mut files = Vec::new(alloc);
    push_file(alloc, &mut files, "first", row.fcl)?;
    push_room(alloc, &mut files, "out")?;
    let mut shelf = shelf_of(alloc, files, &NONE)?;
    let line = ["fuzz12", row.command, "first", row.target, "out"];
    call(alloc, &line, &mut shelf, &NONE, &row.left)?;
    match row.out {
        Some(out) => file_holds(alloc, &mut shelf, "out", out.as_bytes()),
        None => Ok(()),
    }
}

#[test]
fn searches(rt: HostRuntime) -> Result<(), Fail> {
    for row in SEARCHES.iter() {
        find(rt.alloc(), row)?;
    }
    Ok(())
}
