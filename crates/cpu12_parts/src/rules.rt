//! REV and REVW: rule evaluation (CPU12 Reference Manual, section 9.5).
ghost use Rattle.std.specs.Prelude.{ℕ, ◌≡◌, ◌+◌, ◌*◌, ◌/◌, ◌^◌, List, slice_index};
ghost use Rattle.cpu12_isa.specs.Act.{outcome, write_all};
ghost use Rattle.cpu12_parts.specs.Parts.{rev, revw, weighted, met};
ghost use Rattle.cpu12_parts.specs.{Laws.Any, Owed.whole_rev, Owed.whole_revw};

use crate::laws::{
    rev_is_whole, rev_keeps_nothing, rev_steady, revw_is_whole, revw_keeps_nothing, revw_steady,
};
use crate::temps::{PartEnd, Resumable, Temps};
use cpu12_isa::ccr::{CARRY, HNZ, HNZC, OVERFLOW};
use cpu12_isa::instr::Regs;
use cpu12_isa::mem::{Mem, word_of};

/// REV: the list at X has bytes, which are offsets from Y. `$FE` separates antecedents from conclusions and a rule
/// from the next, and `$FF` ends the list. V states whether an offset is that of an antecedent or of a conclusion.
pub struct Rev;

/// REVW: the list at X has words, which are addresses. `$FFFE` separates and `$FFFF` ends; if C is 1, each rule's
/// truth is scaled by the weight byte at Y.
pub struct Revw;

impl Resumable for Rev {
    ghost kind = { λ _. rev };

    ghost kept = { λ _. Any };

    ghost whole = { λ _. whole_rev };

    fn part<M: Mem>(&self, r: &mut Regs, m: &mut M, _t: &mut Temps, flags: u8) -> PartEnd {
        let e = m.read(r.x);
        let concluding = r.ccr.has(OVERFLOW);
        r.x = r.x.wrapping_add(1);
        r.ccr = r.ccr.opened(HNZC, flags);
        if e == 0xFF {
            r.pass(2);
            return PartEnd::Done;
        }
        if e == 0xFE {
            if concluding {
                r.a = 255;
            }
            r.ccr = r.ccr.put(OVERFLOW, !concluding);
            return PartEnd::More;
        }
        let at = r.y.wrapping_add(e as u16);
        let v = m.read(at);
        if concluding {
            m.write(at, v.max(r.a));
        } else {
            r.a = r.a.min(v);
        }
        PartEnd::More
    }

    fn suspend<M: Mem>(&self, _r: &mut Regs, _m: &mut M, _t: &mut Temps) {}

    fn resume<M: Mem>(&self, _r: &mut Regs, _m: &mut M, _t: &mut Temps) {}

    fn is_lawful(&self) {
        rev_keeps_nothing();
        rev_steady();
        rev_is_whole();
    }
}

/// A truth scaled by a weight byte.
fn weighted(a: u8, w: u8) -> u8
    ensures { result ≡ weighted a w }
{
    (a as u16 * (w as u16 + 1) / 256) as u8
}

impl Resumable for Revw {
    ghost kind = { λ _. revw };

    ghost kept = { λ _. Any };

    ghost whole = { λ _. whole_revw };

    fn part<M: Mem>(&self, r: &mut Regs, m: &mut M, _t: &mut Temps, flags: u8) -> PartEnd {
        let e = word_of(m.read(r.x), m.read(r.x.wrapping_add(1)));
        let concluding = r.ccr.has(OVERFLOW);
        let weighing = r.ccr.has(CARRY);
        r.x = r.x.wrapping_add(2);
        r.ccr = r.ccr.opened(HNZ, flags);
        if e == 0xFFFF {
            r.pass(2);
            return PartEnd::Done;
        }
        if e == 0xFFFE {
            r.ccr = r.ccr.put(OVERFLOW, !concluding);
            if concluding {
                r.a = 255;
            } else if weighing {
                r.a = weighted(r.a, m.read(r.y));
                r.y = r.y.wrapping_add(1);
            }
            return PartEnd::More;
        }
        let v = m.read(e);
        if concluding {
            m.write(e, v.max(r.a));
        } else {
            r.a = r.a.min(v);
        }
        PartEnd::More
    }

    fn suspend<M: Mem>(&self, _r: &mut Regs, _m: &mut M, _t: &mut Temps) {}

    fn resume<M: Mem>(&self, _r: &mut Regs, _m: &mut M, _t: &mut Temps) {}

    fn is_lawful(&self) {
        revw_keeps_nothing();
        revw_steady();
        revw_is_whole();
    }
}
