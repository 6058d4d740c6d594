//! The code of the heater in 16 bits and in the mailbox form, byte by byte.
use byte_scaling::Width;
use codegen::{Firmware, compile_post, compile16};
use fuzzy_meaning::heater;
use std::process::Abort;
use std::test::Fail;

// With answers of 16 bits, from CPX #0 behind WAV on: BEQ D, EDIV, FDIV, TFR Y,D, STAB $1010, TFR X,D,
// STAA $1011, BRA S, D LDAB #0, STAB $1010, CLR $1011, S RTS.
const WORD_CODE: [u8; 29] = [
    0x8E, 0x00, 0x00, 0x27, 0x0F, 0x11, 0x18, 0x11, 0xB7, 0x64, 0x7B, 0x10, 0x10, 0xB7, 0x54, 0x7A,
    0x10, 0x11, 0x20, 0x08, 0xC6, 0x00, 0x7B, 0x10, 0x10, 0x79, 0x10, 0x11, 0x3D,
];

// LDS #$2000, CLR $1028, ANDCC #$EF, LOOP LDAA $1028, BEQ LOOP, ORCC #$10, MOVB $1020,$1001, CLR $1028,
// ANDCC #$EF, JSR $C020, BRA LOOP, RTI.
const MAILBOX_CODE: [u8; 32] = [
    0xCF, 0x20, 0x00, 0x79, 0x10, 0x28, 0x10, 0xEF, 0xB6, 0x10, 0x28, 0x27, 0xFB, 0x14, 0x10, 0x18,
    0x0C, 0x10, 0x20, 0x10, 0x01, 0x79, 0x10, 0x28, 0x10, 0xEF, 0x16, 0xC0, 0x20, 0x20, 0xE9, 0x0B,
];

/// Fails if a firmware has not this many bytes, not this code from an address on, or other bounds.
fn is_coded(rt: &impl Abort, firmware: &Firmware, count: usize, from: u16, code: &[u8]) {
    let bytes = &firmware.image.bytes;
    assert!(rt; bytes.len() == count);
    for (at, byte) in (from..=0xFFFF).zip(code) {
        assert!(rt; bytes.get(at) == Some(*byte));
    }
    assert!(rt; (firmware.instr_bound, firmware.step_bound) == (31, 39));
}

#[test]
fn code_of_the_heater_in_16_bits(rt: HostRuntime) -> Result<(), Fail> {
    let alloc = rt.alloc();
    let Ok(firmware) = compile16(alloc, &heater(alloc)?) else {
        panic!(rt; "a fault");
    };
    is_coded(&rt, &firmware, 112, 0xC03D, &WORD_CODE);
    assert!(rt; firmware.width == Width::Word);
    Ok(())
}

#[test]
fn mailbox_of_the_heater(rt: HostRuntime) -> Result<(), Fail> {
    let alloc = rt.alloc();
    let Ok(firmware) = compile_post(alloc, &heater(alloc)?) else {
        panic!(rt; "a fault");
    };
    is_coded(&rt, &firmware, 109, 0xC000, &MAILBOX_CODE);
    let bytes = &firmware.image.bytes;
    assert!(rt; (bytes.get(0xFFF2), bytes.get(0xFFF3)) == (Some(0xC0), Some(0x1F)));
    Ok(())
}
