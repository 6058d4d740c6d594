//! Texts that spell no block, with their faults as values.
use fcl_check::{LoadFault, load};
use fcl_syntax::{SyntaxFault, parse};
use std::alloc::Global;
use std::test::Fail;
use test_texts::{FAULTS, Flaw, LOAD_FAULTS, with_load_fault};

/// What `parse` returns for a text with this fault at this offset.
fn syntax_fault(at: u32, flaw: Flaw) -> SyntaxFault {
    match flaw {
        Flaw::BadByte => SyntaxFault::BadByte(at),
        Flaw::OpenComment => SyntaxFault::OpenComment(at),
        Flaw::Number(fault) => SyntaxFault::Number(at, fault),
        Flaw::Expected => SyntaxFault::Expected(at),
        Flaw::Unsupported(code) => SyntaxFault::Unsupported(at, code),
        Flaw::Deep => SyntaxFault::Deep(at),
    }
}

/// The load fault of a kind. Kinds count from 1.
fn load_fault(at: u32, kind: u8) -> Option<LoadFault> {
    match kind {
        1 => Some(LoadFault::Twice(at)),
        2 => Some(LoadFault::Unknown(at)),
        3 => Some(LoadFault::NoTerms(at)),
        4 => Some(LoadFault::TooMany(at)),
        5 => Some(LoadFault::PointsNotAscending(at)),
        6 => Some(LoadFault::TermShape(at)),
        7 => Some(LoadFault::TermOutside(at)),
        8 => Some(LoadFault::BadRange(at)),
        9 => Some(LoadFault::SingletonOutside(at)),
        10 => Some(LoadFault::WeightOutside(at)),
        11 => Some(LoadFault::WrongSide(at)),
        12 => Some(LoadFault::MissingPart(at)),
        _ => None,
    }
}

/// Why a text has no tree.
fn parse_fault_of(alloc: Global, text: &[u8]) -> Option<SyntaxFault> {
    if text.len() > 1_048_576 {
        return None;
    }
    parse(alloc, text).err()
}

/// Why the tree of a text has no block.
fn load_fault_of(alloc: Global, text: &[u8]) -> Result<Option<LoadFault>, Fail> {
    if text.len() > 1_048_576 {
        return Err(Fail::new("too long"));
    }
    let tree = parse(alloc, text)?;
    Ok(load(alloc, &tree).err())
}

#[test]
fn a_text_without_a_tree_has_a_fault(rt: HostRuntime) -> Result<(), Fail> {
    for (front, back, flaw) in FAULTS.iter() {
        let mut text = Vec::from_slice(rt.alloc(), front)?;
        text.extend_from_slice(back)?;
        let wanted = syntax_fault(u32::try_from(front.len())?, *flaw);
        assert!(rt;
            parse_fault_of(rt.alloc(), &text) == Some(wanted),
            "{text:?}"
        );
    }
    Ok(())
}

#[test]
fn a_tree_without_a_block_has_a_load_fault(rt: HostRuntime) -> Result<(), Fail> {
    for (front, back, kind) in LOAD_FAULTS.iter() {
        let (text, at) = with_load_fault(rt.alloc(), front, back)?;
        let wanted = load_fault(u32::try_from(at)?, *kind);
        assert!(rt; load_fault_of(rt.alloc(), &text)? == wanted, "{text:?}");
    }
    Ok(())
}
