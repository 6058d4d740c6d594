//! The bytes of a handler as instructions.
ghost use Rattle.std.specs.Prelude.{◌≡◌, ◌≤◌, ◌<◌, ◌+◌, ◌-◌, ℕ, List, true, false, Ok, IfOk, IfSome, IfNone, length};
ghost use Rattle.std.specs.Prelude.{slice_get, unwrap_or};
ghost use Rattle.cpu12_isa.specs.declared.instr.Instr.{Instr};
ghost use Rattle.cpu12_isa.specs.Code.{FitCode, FitsOperands, StandsAt, decode_at};
ghost use Rattle.handler_check.specs.Cut.{code_start, code_limit, code_end, size_of, HasCode};
ghost use Rattle.handler_check.specs.{Paths.IsIn, Faults.IsFirst, Judging.AreFirsts, PathSummaries.list_of};

use crate::faults::CODE_START;
use cpu12_isa::decode::decode;
use cpu12_isa::instr::Instr;
use cpu12_isa::mem::Mem;
use std::alloc::{AllocError, Global};

/// A handler's bytes, split into instructions from `$4000` on.
#[derive(Drop)]
pub(crate) struct Cut {
    pub(crate) code: Vec<Instr>,
    /// For each byte whether an instruction begins with it. The byte at which the split ends counts as a first one
    /// too.
    pub(crate) firsts: Vec<bool>,
    /// Whether there are bytes after the last instruction that begin none.
    pub(crate) trapped: bool,
}

impl Cut {
    /// The table's entry for a place.
    fn entry(&self, to: u16) -> bool
        requires { code_start ≤ to }
        ensures { result ≡ unwrap_or (slice_get self.now.firsts.items (to - code_start)) false }
    {
        match self.firsts.get(usize::from(to - CODE_START)) {
            Some(first) => *first,
            None => false,
        }
    }

    /// Whether an instruction begins at a place.
    fn is_first(&self, to: u16) -> bool
        requires table { AreFirsts self.now.code.items self.now.trapped self.now.firsts.items }
        requires low { code_start ≤ to }
        ensures yes { result ≡ true → IsFirst self.now.code.items self.now.trapped to }
        ensures no { result ≡ false → IsFirst self.now.code.items self.now.trapped to → ⊥ }
    {
        self.entry(to)
    }

    /// The place, if there is one and no instruction begins there.
    pub(crate) fn missing(&self, to: Option<u16>) -> Option<u16>
        requires table { AreFirsts self.now.code.items self.now.trapped self.now.firsts.items }
        requires low { IfSome to (λ at. code_start ≤ at) }
        ensures some { IfSome result (λ q. IsIn (list_of to) q
            × (IsFirst self.now.code.items self.now.trapped q → ⊥)) }
        ensures none { IfNone result ((q : ℕ) → IsIn (list_of to) q
            → IsFirst self.now.code.items self.now.trapped q) }
    {
        match to {
            Some(at) => { if self.is_first(at) { None } else { Some(at) } }
            None => None,
        }
    }
}

/// The instruction that is complete at a place, before another place, and its size.
fn whole_at<M: Mem>(m: &M, at: u16, end: u16) -> Option<(Instr, u16)>
    requires { at ≤ end }
    ensures stands { IfSome result (λ x. StandsAt (M.bytes m.now) at x.0) }
    ensures fits { IfSome result (λ x. FitsOperands x.0) }
    ensures size { IfSome result (λ x. x.1 ≡ size_of x.0) }
    ensures within { IfSome result (λ x. at + x.1 ≤ end) }
    ensures none { IfNone result ((i : Instr) → decode_at (M.bytes m.now) at ≡ Ok i → end < at + size_of i) }
{
    match decode(m, at) {
        Ok((instr, size)) => {
            let size = u16::from(size);
            if size <= end - at {
                Some((instr, size))
            } else {
                None
            }
        }
        Err(_) => None,
    }
}

/// The instructions from `$4000` up to a place, one after the other, as long as they are complete.
pub(crate) fn cut_of<M: Mem>(alloc: Global, m: &M, end: u16) -> Result<Cut, AllocError>
    requires low { code_start ≤ end }
    requires high { end ≤ code_limit }
    ensures fits { IfOk result (λ c. FitCode c.code.items) }
    ensures table { IfOk result (λ c. AreFirsts c.code.items c.trapped c.firsts.items) }
    ensures stands { IfOk result (λ c. HasCode c.code.items (M.bytes m.now)) }
    ensures size { IfOk result (λ c. code_start + length c.firsts.items ≡ end) }
    ensures stops { IfOk result (λ c. c.trapped ≡ true → (i : Instr)
        → decode_at (M.bytes m.now) (code_end c.code.items) ≡ Ok i
        → end < code_end c.code.items + size_of i) }
{
    let mut code = Vec::new(alloc);
    let mut firsts = vec![in alloc; false; usize::from(end - CODE_START)]?;
    let mut at = CODE_START;
    while at < end {
        firsts[usize::from(at - CODE_START)] = true;
        match whole_at(m, at, end) {
            Some((instr, size)) => {
                code.push(instr)?;
                at += size;
            }
            None => {
                return Ok(Cut {
                    code,
                    firsts,
                    trapped: true,
                });
            }
        }
    }
    Ok(Cut {
        code,
        firsts,
        trapped: false,
    })
}
