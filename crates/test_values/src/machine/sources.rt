//! Sources and their bytes, from the instruction tables of the CPU12 Reference Manual.
use cpu12_asm::{AsmFault, assemble};
use std::test::Fail;

/// Each encoding once, from `$C000`.
static EACH_FORM: &'static str =
    " ORG $C000\n LDAA #$12\n LDAA $3456\n LDAB #$12\n LDAB $3456\n LDX #$3456\n LDY #$3456\n \
    LDS #$3456\n STAA $3456\n STAB $3456\n CLR $3456\n COMA\n CPX #$3456\nL1 BEQ L1\nL2 BNE L2+2\n \
    BCC L2\n BCS L2\n BRA L3\n JSR $3456\n RTS\nL3 ANDCC #$12\n ORCC #$12\n TFR X,D\n TFR Y,D\n \
    EDIV\n FDIV\n RTI\n NOP\n INC $3456\n DEC $3456\n ADDA #$12\n ADDA $3456\n ADDB #$12\n \
    ADDB $3456\n ADDB 1,X+\n ADCA #$12\n SUBA #$12\n SUBA $3456\n CMPA #$12\n CMPA $3456\n \
    ANDA #$12\n ANDA $3456\n ORAA #$12\n ORAA $3456\n INX\n DEX\n INY\n DEY\n PSHA\n PULA\n \
    MOVB #$12,$3456\n MOVB $3456,$789A\n MEM\n REV\n REVW\n WAV\n WAVR\n";

static EACH_FORM_BYTES: [u8; 124] = [
    0x86, 0x12, 0xB6, 0x34, 0x56, 0xC6, 0x12, 0xF6, 0x34, 0x56, 0xCE, 0x34, 0x56, 0xCD, 0x34, 0x56,
    0xCF, 0x34, 0x56, 0x7A, 0x34, 0x56, 0x7B, 0x34, 0x56, 0x79, 0x34, 0x56, 0x41, 0x8E, 0x34, 0x56,
    0x27, 0xFE, 0x26, 0x00, 0x24, 0xFC, 0x25, 0xFA, 0x20, 0x04, 0x16, 0x34, 0x56, 0x3D, 0x10, 0x12,
    0x14, 0x12, 0xB7, 0x54, 0xB7, 0x64, 0x11, 0x18, 0x11, 0x0B, 0xA7, 0x72, 0x34, 0x56, 0x73, 0x34,
    0x56, 0x8B, 0x12, 0xBB, 0x34, 0x56, 0xCB, 0x12, 0xFB, 0x34, 0x56, 0xEB, 0x30, 0x89, 0x12, 0x80,
    0x12, 0xB0, 0x34, 0x56, 0x81, 0x12, 0xB1, 0x34, 0x56, 0x84, 0x12, 0xB4, 0x34, 0x56, 0x8A, 0x12,
    0xBA, 0x34, 0x56, 0x08, 0x09, 0x02, 0x03, 0x36, 0x32, 0x18, 0x0B, 0x12, 0x34, 0x56, 0x18, 0x0C,
    0x34, 0x56, 0x78, 0x9A, 0x01, 0x18, 0x3A, 0x18, 0x3B, 0x18, 0x3C, 0x3C,
];

static FAULTS: [(&'static str, AsmFault); 8] = [
    (" LDAA #1 ,2\n", AsmFault::BadLine(1)),
    (" ORG B\nB NOP\n", AsmFault::UnknownName(1)),
    (" LDAA C\nA NOP\nA NOP\n", AsmFault::Twice(3)),
    (" LDAA #256\n", AsmFault::Range(1)),
    (" ORG $FFFF\n FDB 1\n", AsmFault::Range(2)),
    (" BRA $82\n", AsmFault::BranchFar(1)),
    (" FCB 1\n ORG 0\n FCB 1\n", AsmFault::Overlap(3)),
    ("STAA EQU 1", AsmFault::BadLine(1)),
];

#[test]
fn assembles_each_form(rt: HostRuntime) -> Result<(), Fail> {
    let source = EACH_FORM.as_bytes();
    assert!(rt; source.len() < 2000);
    let image = assemble(rt.alloc(), source)?;
    assert!(rt; image.bytes.len() == EACH_FORM_BYTES.len());
    let mut at: u16 = 0xC000;
    for byte in &EACH_FORM_BYTES {
        assert!(rt; image.bytes.get(at) == Some(*byte));
        at = at.wrapping_add(1);
    }
    Ok(())
}

#[test]
fn refuses_at_lines(rt: HostRuntime) -> Result<(), Fail> {
    for (source, fault) in &FAULTS {
        let text = source.as_bytes();
        assert!(rt; text.len() < 2000);
        match assemble(rt.alloc(), text) {
            Ok(_) => assert!(rt; false),
            Err(found) => assert!(rt; found == *fault),
        }
    }
    Ok(())
}
