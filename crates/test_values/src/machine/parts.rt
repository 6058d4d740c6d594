//! REV, REVW and WAV on worked bytes, suspended and resumed at every boundary, and not at all.
use cpu12_isa::instr::{Ccr, Regs};
use cpu12_isa::mem::{FlatMem, Mem};
use cpu12_isa::stack::place;
use cpu12_parts::rules::{Rev, Revw};
use cpu12_parts::temps::{PartEnd, Resumable, Temps};
use cpu12_parts::wav::Wav;
use fz_list::Memory;
use std::alloc::Global;
use std::process::Abort;
use std::test::Fail;

/// Registers with SP at the top of the stack and the instruction at `$C000`.
fn regs(a: u8, b: u8, x: u16, y: u16, ccr: u8) -> Regs {
    Regs {
        a,
        b,
        x,
        y,
        sp: 0x2000,
        pc: 0xC000,
        ccr: Ccr(ccr),
    }
}

/// Does all parts, at most 100, and returns their number.
fn parts<R: Resumable>(k: &R, r: &mut Regs, m: &mut FlatMem, cut: bool) -> u32 {
    let mut t = Temps::Free;
    let mut done = 0;
    for _ in 0..100 {
        done = add_one(done);
        match k.part(r, m, &mut t, 0) {
            PartEnd::Done => break,
            PartEnd::More => {}
        }
        if cut {
            k.suspend(r, m, &mut t);
            k.resume(r, m, &mut t);
        }
    }
    done
}

fn add_one(n: u32) -> u32 {
    n.wrapping_add(1)
}

/// The bytes of memory and the registers before an instruction, how many parts it takes, and the bytes and the
/// registers after it, but for PC.
#[derive(Drop)]
struct Case {
    given: &'static [(u16, &'static [u8])],
    before: Regs,
    parts: u32,
    left: &'static [(u16, u8)],
    after: Regs,
}

/// The memory before an instruction.
fn memory(alloc: Global, case: &Case) -> Result<FlatMem, Memory> {
    let mut m = FlatMem::fresh(alloc)?;
    for (at, bytes) in case.given {
        place(&mut m, *at, bytes);
    }
    Ok(m)
}

/// Fails if the instruction leaves something else, cut at every boundary or not at all.
fn leaves<R: Resumable>(rt: &impl Abort, alloc: Global, k: &R, case: &Case) -> Result<(), Fail> {
    for cut in [false, true] {
        let mut m = memory(alloc, case)?;
        let mut r = case.before;
        assert!(rt; parts(k, &mut r, &mut m, cut) == case.parts);
        assert!(rt; case.left.iter().all(|(at, byte)| m.read(*at) == *byte));
        let mut end = case.after;
        end.pc = 0xC002;
        assert!(rt; r == end);
    }
    Ok(())
}

#[test]
fn rev_raises_to_the_least(rt: HostRuntime) -> Result<(), Fail> {
    let case = Case {
        given: &[
            (0x1100, &[200, 30, 120, 0, 0, 0]),
            (
                0xD800,
                &[0x00, 0x02, 0xFE, 0x04, 0xFE, 0x01, 0xFE, 0x05, 0xFF],
            ),
        ],
        before: regs(0xFF, 0, 0xD800, 0x1100, 0xD0),
        parts: 9,
        left: &[(0x1104, 120), (0x1105, 30)],
        after: regs(30, 0, 0xD809, 0x1100, 0xD2),
    };
    leaves(&rt, rt.alloc(), &Rev, &case)
}

#[test]
fn revw_cuts_by_weights(rt: HostRuntime) -> Result<(), Fail> {
    let case = Case {
        given: &[
            (0x1100, &[191, 64, 0, 0]),
            (0xD300, &[127, 255]),
            (0xD800, &[0x11, 0x00, 0xFF, 0xFE, 0x11, 0x02, 0xFF, 0xFE]),
            (0xD808, &[0x11, 0x01, 0xFF, 0xFE, 0x11, 0x03, 0xFF, 0xFF]),
        ],
        before: regs(0xFF, 0, 0xD800, 0xD300, 0xD1),
        parts: 8,
        left: &[(0x1102, 95), (0x1103, 64)],
        after: regs(64, 0, 0xD810, 0xD302, 0xD3),
    };
    leaves(&rt, rt.alloc(), &Revw, &case)
}

#[test]
fn wav_sums_and_ediv_divides(rt: HostRuntime) -> Result<(), Fail> {
    let case = Case {
        given: &[(0xD200, &[0, 128, 255]), (0x1100, &[0, 120, 30])],
        before: regs(0, 3, 0xD200, 0x1100, 0xD0),
        parts: 3,
        left: &[],
        // Y:D is 23010 and X is 150.
        after: regs(0x59, 0xE2, 150, 0, 0xD4),
    };
    leaves(&rt, rt.alloc(), &Wav, &case)?;
    let mut r = case.after;
    r.divide(0);
    assert!(rt; (r.y, r.a, r.b) == (153, 0, 60));
    Ok(())
}
