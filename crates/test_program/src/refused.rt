//! Texts that spell no function block, each refused with its fault and the fault's offset.
use std::alloc::{AllocError, Global};
use std::test::Fail;
use test_program_calls::{Difference, Left, NONE, call, push_bytes, shelf_of};
use test_texts::{FAULTS, Flaw, LOAD_FAULTS, with_load_fault};

/// The line of a fault at an offset.
fn line_of(alloc: Global, at: usize, flaw: Flaw) -> Result<String, AllocError> {
    match flaw {
        Flaw::BadByte => format!(in alloc; "fcl: at {at}: bad byte\n"),
        Flaw::OpenComment => format!(in alloc; "fcl: at {at}: open comment\n"),
        Flaw::Number(_) => format!(in alloc; "fcl: at {at}: number\n"),
        Flaw::Expected => format!(in alloc; "fcl: at {at}: expected\n"),
        Flaw::Unsupported(code) => format!(in alloc; "fcl: at {at}: unsupported {code}\n"),
        Flaw::Deep => format!(in alloc; "fcl: at {at}: too deep\n"),
    }
}

/// Checks that this text is refused with this line.
fn is_refused(alloc: Global, text: &[u8], line: &str) -> Result<(), Difference> {
    let mut files = Vec::new(alloc);
    push_bytes(alloc, &mut files, "text", text)?;
    push_bytes(alloc, &mut files, "cert", b"")?;
    let mut shelf = shelf_of(alloc, files, &NONE)?;
    let words = ["fuzz12", "check", "text", "cert"];
    call(alloc, &words, &mut shelf, &NONE, &Left::Refused(4, line))
}

#[test]
fn faults(rt: HostRuntime) -> Result<(), Fail> {
    let alloc = rt.alloc();
    for (front, back, flaw) in FAULTS.iter() {
        let mut text = Vec::from_slice(alloc, front)?;
        text.extend_from_slice(back)?;
        let line = line_of(alloc, front.len(), *flaw)?;
        is_refused(alloc, &text, line.as_str())?;
    }
    Ok(())
}

#[test]
fn load_faults(rt: HostRuntime) -> Result<(), Fail> {
    let alloc = rt.alloc();
    for (front, back, kind) in LOAD_FAULTS.iter() {
        let (text, at) = with_load_fault(alloc, front, back)?;
        let line = format!(in alloc; "fcl: at {at}: load {kind}\n")?;
        is_refused(alloc, &text, line.as_str())?;
    }
    Ok(())
}
