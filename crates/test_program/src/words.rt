//! Words that are those of a command, and words that are not.
use super::reads::{RUN, case, run_words};
use std::test::Fail;
use test_program_calls::USAGE;

#[test]
fn flags(rt: HostRuntime) -> Result<(), Fail> {
    for flags in ["00", "FF", "fF", "7e"] {
        case(rt.alloc(), &run_words(flags), 5, &RUN)?;
    }
    Ok(())
}

#[test]
fn no_flags(rt: HostRuntime) -> Result<(), Fail> {
    for flags in ["", "0", "000", "0g", "+1", "-1"] {
        case(rt.alloc(), &run_words(flags), 0, &USAGE)?;
    }
    Ok(())
}

static OF_NO_COMMAND: [&[&str]; 12] = [
    &[],
    &["fuzz12", ""],
    &["fuzz12", "run"],
    &["fuzz12", "help"],
    &["fuzz12", "--help"],
    &["fuzz12", "-h"],
    &["fuzz12", "gen"],
    &[
        "fuzz12", "run", "-a", "a.s19", "a.cert", "a.csv", "empty", "00",
    ],
    &["fuzz12", "run", "a.fcl", "a.csv", "00"],
    &["fuzz12", "hrun", "a", "b", "c", "d", "e", "0G"],
    &["fuzz12", "mrun", "a", "b", "c", "d", "e", "0G"],
    &[
        "fuzz12", "lrun", "a", "b", "c", "d", "e", "f", "g", "h", "0G",
    ],
];

#[test]
fn of_no_command(rt: HostRuntime) -> Result<(), Fail> {
    for line in OF_NO_COMMAND.iter() {
        case(rt.alloc(), line, 0, &USAGE)?;
    }
    Ok(())
}
