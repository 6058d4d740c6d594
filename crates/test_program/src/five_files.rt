//! Commands with five files and flags.
use std::alloc::Global;
use test_program_calls::{Difference, Left, NONE, call, push_file, shelf_of};

/// What a command with five files is given, with the flags 00, and what it leaves.
#[derive(Clone, Copy)]
pub(crate) struct FiveFiles {
    pub(crate) fcl: &'static str,
    /// IMAGE or HANDLER.
    pub(crate) records: &'static str,
    pub(crate) cert: &'static [&'static str],
    pub(crate) trace: &'static str,
    /// PLAN or POSTS.
    pub(crate) requests: &'static str,
    pub(crate) left: Left<'static>,
}

fn run(alloc: Global, command: &str, given: &FiveFiles) -> Result<(), Difference> {
    let mut files = Vec::new(alloc);
    push_file(alloc, &mut files, "n.fcl", &[given.fcl])?;
    push_file(alloc, &mut files, "n.s19", &[given.records])?;
    push_file(alloc, &mut files, "n.cert", given.cert)?;
    push_file(alloc, &mut files, "n.csv", &[given.trace])?;
    push_file(alloc, &mut files, "n.plan", &[given.requests])?;
    let mut shelf = shelf_of(alloc, files, &NONE)?;
    let line = [
        "fuzz12", command, "n.fcl", "n.s19", "n.cert", "n.csv", "n.plan", "00",
    ];
    call(alloc, &line, &mut shelf, &NONE, &given.left)
}

/// Checks that the command leaves what each row states.
pub(crate) fn run_each(alloc: Global, command: &str, rows: &[FiveFiles]) -> Result<(), Difference> {
    for given in rows {
        run(alloc, command, given)?;
    }
    Ok(())
}
