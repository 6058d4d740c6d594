//! The machine on the heater's firmware, and on a source's image. What its interrupts push is in `runs`.
use cpu12_emul::ends::RunEnd;
use cpu12_emul::machine::Machine;
use cpu12_isa::instr::Trap;
use cpu12_isa::mem::FlatMem;
use srecord::read;
use std::alloc::Global;
use std::test::Fail;
use test_texts::{RECORDS, SOURCE_RECORDS};

/// The machine with the image of these records.
fn machine_of(alloc: Global, records: &str) -> Result<Machine<FlatMem>, Fail> {
    if records.len() > 1_048_576 {
        return Err(Fail::new("too long"));
    }
    let image = read(alloc, records.as_bytes())?;
    Ok(Machine::new(alloc, &image, 0)?)
}

/// Does this many steps.
fn steps(m: &mut Machine<FlatMem>, count: u32) -> Result<(), Trap> {
    for _ in 0..count {
        m.step()?;
    }
    Ok(())
}

/// The machine at the first boundary of a sample with this byte.
fn at_sample(alloc: Global, byte: u8) -> Result<Machine<FlatMem>, Fail> {
    let mut m = machine_of(alloc, RECORDS)?;
    steps(&mut m, 3)?;
    m.poke(0x1001, byte);
    m.poke(0x1000, 1);
    Ok(m)
}

#[test]
fn entering_goes_to_the_vector(rt: HostRuntime) -> Result<(), Fail> {
    let mut m = at_sample(rt.alloc(), 64)?;
    steps(&mut m, 17)?;
    assert!(rt; m.may_interrupt());
    let f = m.enter(&[]);
    assert!(rt; f.bytes.len() == 9);
    assert!(rt; m.regs().pc == 0xC015);
    assert!(rt; !m.may_interrupt());
    steps(&mut m, 1)?;
    assert!(rt; m.regs().pc == 0xC031);
    assert!(rt; m.may_interrupt());
    Ok(())
}

#[test]
fn runs_end(rt: HostRuntime) -> Result<(), Fail> {
    let mut m = machine_of(rt.alloc(), SOURCE_RECORDS)?;
    assert!(rt; m.run(1) == RunEnd::Budget(1));
    assert!(rt; m.run(10) == RunEnd::Arrived(1));
    let r = m.regs();
    assert!(rt; (r.pc, r.a, r.ccr.0) == (0xC003, 0xFA, 0xD9));
    let mut empty = machine_of(rt.alloc(), "S9030000FC\n")?;
    assert!(rt; empty.run(10) == RunEnd::Trap(0, 0));
    Ok(())
}
