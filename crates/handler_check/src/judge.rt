//! The instructions of a handler, checked one after the other.
ghost use Rattle.std.specs.Prelude.{◌≡◌, ◌≢◌, ◌⊎◌, ◌≤◌, ◌<◌, ◌+◌, ℕ, Some, false, IfOk, IfErr, IfSome, IfNone};
ghost use Rattle.std.specs.Prelude.{MatchOption, length};
ghost use Rattle.cpu12_isa.specs.Code.{FitCode};
ghost use Rattle.handler_check.specs.Cut.{code_start, code_limit, size_of, IsAt};
ghost use Rattle.handler_check.specs.{Accepted.IsAccepted, Faults.IsFirstFault, Paths.kind_of};
ghost use Rattle.handler_check.specs.Judging.{AreFirsts, AreJudged, Fails, Passes};
ghost use Rattle.handler_check.specs.PathSummaries.{summary_at, IsSummary};

use crate::cut::Cut;
use crate::faults::{CODE_START, Handler, HandlerFault};
use crate::kinds::{Kind, kind_of, size};
use crate::path_summaries::{PathSummaries, PathSummary};
use cpu12_isa::instr::Instr;
use std::alloc::Global;

/// The kind of the instruction at a place whose paths have this summary, or the first fault that applies to it.
fn kind_at(cut: &Cut, at: u16, instr: Instr, summary: PathSummary) -> Result<Kind, HandlerFault>
    requires table { AreFirsts cut.now.code.items cut.now.trapped cut.now.firsts.items }
    requires low { code_start ≤ at }
    requires high { at < code_limit }
    requires here { IsAt cut.now.code.items at instr }
    requires summary { IsSummary cut.now.code.items at summary }
    ensures kind { IfOk result (λ kind. kind_of instr ≡ Some kind) }
    ensures passes { IfOk result (λ kind. Passes cut.now.code.items cut.now.trapped at instr summary 9) }
    ensures fault { IfErr result (λ f. Fails cut.now.code.items cut.now.trapped at instr summary f) }
{
    let Some(kind) = kind_of(instr) else {
        return Err(HandlerFault::Refused(at));
    };
    if let Some(to) = kind.not_free() {
        return Err(HandlerFault::NotFree(at, to));
    }
    if kind.goes_back() {
        return Err(HandlerFault::Backward(at));
    }
    if let Some(to) = cut.missing(kind.branches_to(at)) {
        return Err(HandlerFault::Target(at, to));
    }
    if summary.meets || !kind.fits_height(summary.height) {
        return Err(HandlerFault::Height(at));
    }
    match cut.missing(kind.falls_to(at + size(&instr))) {
        Some(_) => Err(HandlerFault::Falls(at)),
        None => Ok(kind),
    }
}

/// The greatest number of instructions on a path to an RTI: `best` so far, and `most` on a path that ends here if the
/// instruction is one.
fn longest(kind: Kind, best: u32, most: u32) -> u32
    ensures over { best ≤ result }
    ensures few { kind ≡ Kind.Returns → most ≤ result }
    ensures one { (result ≡ best) ⊎ ((kind ≡ Kind.Returns) × (most ≡ result)) }
{
    if matches!(kind, Kind::Returns) && best < most {
        most
    } else {
        best
    }
}

/// Checks the instruction at a place: if no fault applies, the paths to it continue, and the result is the
/// greatest number of instructions on a path to an RTI so far.
fn judge_one(
    cut: &Cut,
    summaries: &mut PathSummaries,
    at: u16,
    instr: Instr,
    best: u32,
) -> Result<u32, HandlerFault>
    requires table { AreFirsts cut.now.code.items cut.now.trapped cut.now.firsts.items }
    requires low { code_start ≤ at }
    requires high { at < code_limit }
    requires here { IsAt cut.now.code.items at instr }
    requires judged { AreJudged cut.now.code.items cut.now.trapped at best (summary_at summaries.old.places.items) }
    requires size { length summaries.old.places.items ≡ length cut.now.firsts.items }
    ensures judged { IfOk result (λ more. AreJudged cut.now.code.items cut.now.trapped (at + size_of instr)
        more (summary_at summaries.new.places.items)) }
    ensures fault { IfErr result (λ f. IsFirstFault cut.now.code.items cut.now.trapped f) }
    ensures size { length summaries.new.places.items ≡ length summaries.old.places.items }
{
    let summary = match summaries.get(at) {
        Some(summary) => summary,
        None => return Err(HandlerFault::Dead(at)),
    };
    let kind = kind_at(cut, at, instr, summary)?;
    let next = PathSummary {
        height: kind.height_after(summary.height),
        most: summary.most + 1,
        meets: false,
    };
    summaries.lead(kind.falls_to(at + size(&instr)), next);
    summaries.lead(kind.branches_to(at), next);
    Ok(longest(kind, best, next.most))
}

/// The summaries before any instruction is checked: a path of no instruction leads to `$4000`.
fn first_summaries(alloc: Global, cut: &Cut) -> Result<PathSummaries, HandlerFault>
    requires { 0 < length cut.now.firsts.items }
    ensures judged { IfOk result (λ summaries. AreJudged cut.now.code.items cut.now.trapped code_start 0
        (summary_at summaries.places.items)) }
    ensures size { IfOk result (λ summaries. length summaries.places.items ≡ length cut.now.firsts.items) }
    ensures err { IfErr result (λ f. f ≡ HandlerFault.Memory) }
{
    let mut summaries = match PathSummaries::new(alloc, cut.firsts.len()) {
        Ok(summaries) => summaries,
        Err(_) => return Err(HandlerFault::Memory),
    };
    let first = PathSummary {
        height: 0,
        most: 0,
        meets: false,
    };
    summaries.lead(Some(CODE_START), first);
    Ok(summaries)
}

/// The first fault at the place after the last instruction, if there are bytes.
fn fault_behind(summaries: &PathSummaries, at: u16) -> HandlerFault
    requires { code_start ≤ at }
    ensures { MatchOption (summary_at summaries.now.places.items at) (result ≡ HandlerFault.Dead at)
        (λ summary. result ≡ HandlerFault.Trap at) }
{
    match summaries.get(at) {
        Some(_) => HandlerFault::Trap(at),
        None => HandlerFault::Dead(at),
    }
}

/// Checks a split of at least one byte.
pub(crate) fn judge(alloc: Global, cut: &Cut) -> Result<Handler, HandlerFault>
    requires table { AreFirsts cut.now.code.items cut.now.trapped cut.now.firsts.items }
    requires fits { FitCode cut.now.code.items }
    requires some { 0 < length cut.now.firsts.items }
    ensures ends { IfOk result (λ h. cut.now.trapped ≡ false) }
    ensures accepted { IfOk result (λ h. IsAccepted cut.now.code.items h.instrs) }
    ensures fault { IfErr result (λ f. f ≢ HandlerFault.Memory
        → IsFirstFault cut.now.code.items cut.now.trapped f) }
{
    let mut summaries = first_summaries(alloc, cut)?;
    let mut at = CODE_START;
    let mut best = 0;
    for instr in &cut.code {
        best = judge_one(cut, &mut summaries, at, *instr, best)?;
        at += size(instr);
    }
    if cut.trapped {
        return Err(fault_behind(&summaries, at));
    }
    Ok(Handler { instrs: best })
}
