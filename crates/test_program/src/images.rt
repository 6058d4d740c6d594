//! Images that are written.
use std::alloc::Global;
use std::test::Fail;
use test_program_calls::{
    BEFORE, Difference, Left, NONE, call, file_holds, push_file, push_room, rows, shelf_of,
};
use test_texts::{
    BLOCK, MAILBOX_RECORDS, RECORDS, SOURCE, SOURCE_RECORDS, TWO_OUTPUTS, WATCHED_RECORDS,
};

/// A command, the text of its file, what it leaves, and what the file OUT holds then, if that is given.
#[derive(Clone, Copy)]
struct Written {
    command: &'static str,
    source: &'static str,
    left: Left<'static>,
    out: Option<&'static str>,
}

const COMPILED: Written = Written {
    command: "compile",
    source: BLOCK,
    left: Left::Lines("instructions 28\nsteps 36\nbytes 99\n"),
    out: Some(RECORDS),
};

static WRITTEN: [Written; 9] = rows! { Written:
    COMPILED {};
    COMPILED { command: "compile16", out: None } leaves "instructions 31\nsteps 39\nbytes 112\n";
    COMPILED { source: TWO_OUTPUTS, out: None } leaves "instructions 43\nsteps 60\nbytes 153\n";
    COMPILED { command: "scompile" } leaves "instructions 89\nsteps 97\nbytes 149\n" makes WATCHED_RECORDS;
    COMPILED { command: "mcompile" } leaves "instructions 31\nsteps 39\nbytes 109\n" makes MAILBOX_RECORDS;
    COMPILED { command: "mcompile", source: "" } refused 4 "fcl: at 0: expected\n" makes BEFORE;
    COMPILED { source: "" } refused 4 "fcl: at 0: expected\n" makes BEFORE;
    COMPILED { command: "asm", source: SOURCE } leaves "bytes 7\n" makes SOURCE_RECORDS;
    COMPILED { command: "asm", source: "A NOP\na NOP\n" } refused 11 "asm: line 2: twice\n" makes BEFORE;
};

fn write(alloc: Global, row: &Written) -> Result<(), Difference> {
    let mut files = Vec::new(alloc);
    push_file(alloc, &mut files, "in", &[row.source])?;
    push_room(alloc, &mut files, "out")?;
    let mut shelf = shelf_of(alloc, files, &NONE)?;
    let line = ["fuzz12", row.command, "in", "out"];
    call(alloc, &line, &mut shelf, &NONE, &row.left)?;
    if let Some(out) = row.out {
        file_holds(alloc, &mut shelf, "out", out.as_bytes())?;
    }
    Ok(())
}

#[test]
fn images(rt: HostRuntime) -> Result<(), Fail> {
    for row in WRITTEN.iter() {
        write(rt.alloc(), row)?;
    }
    Ok(())
}
