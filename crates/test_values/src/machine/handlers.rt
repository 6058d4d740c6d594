//! Handlers that are accepted, and one for each fault.
use cpu12_asm::{AsmFault, Item, assemble_items};
use handler_check::{Handler, HandlerFault, check_handler};
use std::alloc::{AllocError, Global};
use std::test::Fail;

type Judged = Result<Handler, HandlerFault>;

/// Adds bytes from an address on.
pub(crate) fn push_bytes(
    items: &mut Vec<Item>,
    place: u16,
    bytes: &[u8],
) -> Result<(), AllocError> {
    items.push(Item::Place(place))?;
    for byte in bytes {
        items.push(Item::Byte(*byte))?;
    }
    Ok(())
}

/// The result of the check of an image of these items.
fn judged_items(alloc: Global, items: &[Item]) -> Result<Judged, AsmFault> {
    if items.len() > 0x1_0000 {
        return Err(AsmFault::Memory);
    }
    let image = assemble_items(alloc, items)?;
    Ok(check_handler(alloc, &image))
}

/// The result of the check of these bytes, from `$4000` on.
fn judged(alloc: Global, bytes: &[u8]) -> Result<Judged, Fail> {
    let mut items = Vec::new(alloc);
    push_bytes(&mut items, 0x4000, bytes)?;
    Ok(judged_items(alloc, items.as_slice())?)
}

fn accepted(instrs: u32) -> Judged {
    Ok(Handler { instrs })
}

static ACCEPTED: [(&[u8], u32); 6] = [
    // INC $1800; RTI
    (&[0x72, 0x18, 0x00, 0x0B], 2),
    (&[0x0B], 1),
    // PSHA; PULA; RTI
    (&[0x36, 0x32, 0x0B], 3),
    // a branch over a NOP
    (&[0x27, 0x01, 0xA7, 0x0B], 3),
    // three branches, each over the next
    (&[0x27, 0x02, 0x26, 0x02, 0x27, 0x01, 0xA7, 0x0B], 5),
    // the way by the branch is the longer one
    (&[0x27, 0x03, 0xA7, 0x20, 0x03, 0xA7, 0xA7, 0xA7, 0x0B], 5),
];

#[test]
fn handlers_are_accepted(rt: HostRuntime) -> Result<(), Fail> {
    let alloc = rt.alloc();
    for row in ACCEPTED.iter() {
        assert!(rt; judged(alloc, row.0)? == accepted(row.1));
    }
    Ok(())
}

static FAULTS: [(&[u8], HandlerFault); 14] = [
    (&[], HandlerFault::Empty),
    // BRA over a NOP that nothing else leads to
    (&[0x20, 0x01, 0xA7, 0x0B], HandlerFault::Dead(0x4002)),
    // the cut ends in the middle of INC
    (&[0xA7, 0x72, 0x18], HandlerFault::Trap(0x4001)),
    // no instruction begins so, and nothing leads there
    (&[0x0B, 0x18], HandlerFault::Dead(0x4001)),
    // ANDCC
    (&[0x10, 0xEF, 0x0B], HandlerFault::Refused(0x4000)),
    (
        &[0x72, 0x17, 0xFF, 0x0B],
        HandlerFault::NotFree(0x4000, 0x17FF),
    ),
    (
        &[0x72, 0x1F, 0xE0, 0x0B],
        HandlerFault::NotFree(0x4000, 0x1FE0),
    ),
    (&[0x20, 0xFE], HandlerFault::Backward(0x4000)),
    // BEQ into the middle of INC
    (
        &[0x27, 0x02, 0x72, 0x18, 0x00, 0x0B],
        HandlerFault::Target(0x4000, 0x4004),
    ),
    // PSHA; RTI
    (&[0x36, 0x0B], HandlerFault::Height(0x4001)),
    // PULA; RTI
    (&[0x32, 0x0B], HandlerFault::Height(0x4000)),
    // BEQ over PSHA
    (&[0x27, 0x01, 0x36, 0x0B], HandlerFault::Height(0x4003)),
    (&[0xA7], HandlerFault::Falls(0x4000)),
    // BEQ to the end
    (&[0x27, 0x00], HandlerFault::Target(0x4000, 0x4002)),
];

#[test]
fn first_faults_are_told(rt: HostRuntime) -> Result<(), Fail> {
    let alloc = rt.alloc();
    for row in FAULTS.iter() {
        assert!(rt; judged(alloc, row.0)? == Err(row.1));
    }
    Ok(())
}

#[test]
fn bytes_outside_are_told(rt: HostRuntime) -> Result<(), Fail> {
    let alloc = rt.alloc();
    for at in [0x0000, 0x3FFF, 0x4002, 0x5000, 0xFFFF] {
        let mut items = Vec::new(alloc);
        push_bytes(&mut items, 0x4000, &[0x0B])?;
        push_bytes(&mut items, at, &[0x0B])?;
        let judged = judged_items(alloc, items.as_slice())?;
        assert!(rt; judged == Err(HandlerFault::Outside(at)));
    }
    Ok(())
}

#[test]
fn whole_range_is_accepted(rt: HostRuntime) -> Result<(), Fail> {
    let alloc = rt.alloc();
    let mut bytes = vec![in alloc; 0xA7u8; 4095]?;
    bytes.push(0x0B)?;
    assert!(rt; judged(alloc, bytes.as_slice())? == accepted(4096));
    bytes.push(0x0B)?;
    assert!(rt; judged(alloc, bytes.as_slice())? == Err(HandlerFault::Outside(0x5000)));
    Ok(())
}

#[test]
fn fifteen_bytes_are_pushed(rt: HostRuntime) -> Result<(), Fail> {
    let alloc = rt.alloc();
    let mut bytes = vec![in alloc; 0x36u8; 15]?;
    for _ in 0..15 {
        bytes.push(0x32)?;
    }
    bytes.push(0x0B)?;
    assert!(rt; judged(alloc, bytes.as_slice())? == accepted(31));
    bytes.insert(0, 0x36)?;
    assert!(rt; judged(alloc, bytes.as_slice())? == Err(HandlerFault::Height(0x400F)));
    Ok(())
}
