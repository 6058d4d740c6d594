//! The vectors, each decoded, encoded and executed.
use super::vectors::{
    BRANCHES, CONJUNCTIONS_AND_DEGREES, LOADS_AND_STORES, STEPS_AND_COMPARISONS, SUMS,
    TRANSFERS_AND_DIVISIONS, Vector,
};
use cpu12_isa::decode::decode;
use cpu12_isa::encode::encode;
use cpu12_isa::exec::exec;
use cpu12_isa::instr::Trap;
use cpu12_isa::mem::{FlatMem, Mem};
use cpu12_isa::stack::place;
use std::alloc::Global;
use std::process::Abort;
use std::test::Fail;

/// The byte for the open flags: H, N and V are 1, Z and C are 0.
const FLAGS: u8 = 0x2A;

/// Writes these bytes to memory.
fn give(m: &mut FlatMem, given: &[(u16, u8)]) {
    for (at, byte) in given {
        m.write(*at, *byte);
    }
}

/// Whether these bytes are in memory.
fn stand(m: &FlatMem, bytes: &[(u16, u8)]) -> bool {
    bytes.iter().all(|(at, byte)| m.read(*at) == *byte)
}

/// Whether the vector's bytes are the encoding of their instruction, and it leaves the vector's registers.
fn leads(m: &mut FlatMem, v: &Vector) -> Result<bool, Trap> {
    let (i, size) = decode(m, 0xC000)?;
    if size as usize != v.code.len() || encode(&i).as_slice() != v.code {
        return Ok(false);
    }
    if !i.is_plain() {
        return Ok(false);
    }
    let mut r = v.before;
    exec(&i, &mut r, m, FLAGS);
    Ok(r == v.after)
}

fn agree(rt: &impl Abort, alloc: Global, vectors: &[Vector]) -> Result<(), Fail> {
    for v in vectors {
        let mut m = FlatMem::fresh(alloc)?;
        place(&mut m, 0xC000, v.code);
        give(&mut m, v.given);
        assert!(rt; leads(&mut m, v)?, "{}", v.name);
        assert!(rt; stand(&m, v.stands), "{}", v.name);
    }
    Ok(())
}

#[test]
fn each_form_by_the_manual(rt: HostRuntime) -> Result<(), Fail> {
    let alloc = rt.alloc();
    agree(&rt, alloc, LOADS_AND_STORES.as_slice())?;
    agree(&rt, alloc, BRANCHES.as_slice())?;
    agree(&rt, alloc, TRANSFERS_AND_DIVISIONS.as_slice())?;
    agree(&rt, alloc, STEPS_AND_COMPARISONS.as_slice())?;
    agree(&rt, alloc, SUMS.as_slice())?;
    agree(&rt, alloc, CONJUNCTIONS_AND_DEGREES.as_slice())?;
    Ok(())
}
