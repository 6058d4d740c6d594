//! Items, their images, and the records of the images.
use super::handlers::push_bytes;
use cpu12_asm::{AsmFault, Item, assemble_items};
use cpu12_isa::instr::Instr;
use srecord::write;
use std::alloc::{AllocError, Global};
use std::test::Fail;
use test_texts::RECORDS;

// The heater's code from `$C000` on, by the instruction: the beginning with its loop and the handler, then EVAL from the
// grades of the input over the rules to the answer.
static CODE: [Instr; 33] = [
    Instr::LdsImmediate(0x2000),
    Instr::ClrExtended(0x1000),
    Instr::Andcc(0xEF),
    Instr::LdaaExtended(0x1000),
    Instr::Beq(0xFB),
    Instr::JsrExtended(0xC016),
    Instr::ClrExtended(0x1000),
    Instr::Bra(0xF3),
    Instr::Rti,
    Instr::LdxImmediate(0xD000),
    Instr::LdyImmediate(0x1100),
    Instr::LdaaExtended(0x1001),
    Instr::Mem,
    Instr::Mem,
    Instr::ClrExtended(0x1102),
    Instr::ClrExtended(0x1103),
    Instr::LdxImmediate(0xD800),
    Instr::LdyImmediate(0x1100),
    Instr::LdaaImmediate(0xFF),
    Instr::Andcc(0xFD),
    Instr::Rev,
    Instr::LdxImmediate(0xD200),
    Instr::LdyImmediate(0x1102),
    Instr::LdabImmediate(2),
    Instr::Wav,
    Instr::CpxImmediate(0),
    Instr::Beq(0x05),
    Instr::Ediv,
    Instr::TransferYD,
    Instr::Bra(0x02),
    Instr::LdabImmediate(0),
    Instr::StabExtended(0x1010),
    Instr::Rts,
];

// Its tables, the singletons, the rule list, and the two vectors.
static DATA: [(u16, &[u8]); 5] = [
    (0xD000, &[0x00, 0xFF, 0x00, 0x01, 0x00, 0xFF, 0x01, 0x00]),
    (0xD200, &[0x00, 0xFF]),
    (0xD800, &[0x00, 0xFE, 0x02, 0xFE, 0x01, 0xFE, 0x03, 0xFF]),
    (0xFFF2, &[0xC0, 0x15]),
    (0xFFFE, &[0xC0, 0x00]),
];

/// The items of the heater's firmware.
fn heater(alloc: Global) -> Result<Vec<Item>, AllocError> {
    let mut items = Vec::new(alloc);
    items.push(Item::Place(0xC000))?;
    for instr in CODE.iter() {
        items.push(Item::Op(*instr))?;
    }
    for (place, bytes) in DATA.iter() {
        push_bytes(&mut items, *place, bytes)?;
    }
    Ok(items)
}

/// Items, with the fault of the first one that cannot be placed.
static FAULTS: [(&[Item], AsmFault); 5] = [
    (
        &[Item::Place(0xFFFF), Item::Op(Instr::Coma), Item::Byte(0)],
        AsmFault::Range(3),
    ),
    (
        &[Item::Place(0xFFFE), Item::Op(Instr::JsrExtended(0))],
        AsmFault::Range(2),
    ),
    (
        &[Item::Byte(1), Item::Place(0), Item::Byte(1)],
        AsmFault::Overlap(3),
    ),
    (
        &[
            Item::Place(2),
            Item::Byte(1),
            Item::Place(0),
            Item::Op(Instr::LdxImmediate(0)),
        ],
        AsmFault::Overlap(4),
    ),
    // Of one item the end of memory is told.
    (
        &[
            Item::Place(0xFFFF),
            Item::Byte(1),
            Item::Place(0xFFFF),
            Item::Op(Instr::Rev),
        ],
        AsmFault::Range(4),
    ),
];

#[test]
fn items_are_assembled_or_refused(rt: HostRuntime) -> Result<(), Fail> {
    let alloc = rt.alloc();
    let items = heater(alloc)?;
    assert!(rt; items.len() == 61);
    let image = assemble_items(alloc, items.as_slice())?;
    assert!(rt; (image.bytes.len(), image.start) == (99, 0xC000));
    assert!(rt; write(alloc, &image)?.as_slice() == RECORDS.as_bytes());
    for (items, fault) in FAULTS.iter() {
        assert!(rt; items.len() < 100);
        assert!(rt; assemble_items(alloc, items).err() == Some(*fault));
    }
    Ok(())
}
