//! What is reported about a call that does not leave what is expected.
use fz_shelf::MemShelf;
use std::alloc::Global;
use std::test::Fail;
use test_program_calls::{
    BEFORE, Difference, Left, NONE, call, call_over, calls_are, file_holds, push_file, push_room,
    shelf_of,
};
use test_texts::{SOURCE, SOURCE_RECORDS};

/// What a call with the records of an empty handler does not leave: another status, line, or lines on out.
static OTHERS: [Left<'static>; 4] = [
    Left::Refused(13, "handler: empty\n"),
    Left::Refused(14, "handler: empty"),
    Left::Lines("handler: empty\n"),
    Left::Broken(""),
];

#[test]
fn another_outcome_is_told(rt: HostRuntime) -> Result<(), Fail> {
    let line = ["fuzz12", "hcheck", "first"];
    let records = ["S9030000FC\n"];
    let left = Left::Refused(14, "handler: empty\n");
    call_over(rt.alloc(), &line, &records, &[], &left)?;
    for left in OTHERS.iter() {
        assert!(rt; call_over(rt.alloc(), &line, &records, &[], left).is_err());
    }
    // INC $1800; RTI
    let records = ["S10740007218000B23\nS9030000FC\n"];
    let left = Left::Lines("handler instructions 3\n");
    assert!(rt; call_over(rt.alloc(), &line, &records, &[], &left).is_err());
    Ok(())
}

/// The shelf after a call that assembles [`SOURCE`].
fn assembled(alloc: Global) -> Result<MemShelf, Difference> {
    let mut files = Vec::new(alloc);
    push_file(alloc, &mut files, "in", &[SOURCE])?;
    push_room(alloc, &mut files, "out")?;
    let mut shelf = shelf_of(alloc, files, &NONE)?;
    let line = ["fuzz12", "asm", "in", "out"];
    call(alloc, &line, &mut shelf, &NONE, &Left::Lines("bytes 7\n"))?;
    Ok(shelf)
}

/// Checks that a file has this text.
fn holds(alloc: Global, shelf: &mut MemShelf, name: &str, text: &str) -> bool {
    file_holds(alloc, shelf, name, text.as_bytes()).is_ok()
}

#[test]
fn another_file_is_told(rt: HostRuntime) -> Result<(), Fail> {
    let alloc = rt.alloc();
    let mut shelf = assembled(alloc)?;
    assert!(rt; calls_are(&shelf, 2).is_ok());
    assert!(rt; calls_are(&shelf, 1).is_err());
    assert!(rt; holds(alloc, &mut shelf, "out", SOURCE_RECORDS));
    assert!(rt; !holds(alloc, &mut shelf, "out", BEFORE));
    assert!(rt; !holds(alloc, &mut shelf, "none", ""));
    Ok(())
}
