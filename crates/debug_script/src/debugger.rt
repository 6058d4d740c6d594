//! A session that executes a script.
ghost use Rattle.std.specs.Prelude.{◌≡◌, ◌≤◌, ◌||◌, ◌++◌, length, map, IfOk, OnOk};
ghost use Rattle.std.specs.BTreeSet.{contains_by};
ghost use Rattle.std.specs.Ordering.{nat_cmp};
ghost use Rattle.cpu12_isa.specs.{Memory.bytes_at, Memory.from, Watching.any_changed, Watching.nothing_noted};
ghost use Rattle.interrupt_plan.specs.Plans.{IsGood};
ghost use Rattle.alone_runs.specs.{Answering.AnswersItsBlock, Rows.first_state, Rows.firmware_rows, Rows.row_seen};
ghost use Rattle.trace_io.specs.Traces.{input_bytes};
ghost use Rattle.run_forms.specs.Positions.{positions};
ghost use Rattle.debug_script.specs.Going.{AreTold, Leads, place_of};
ghost use Rattle.debug_script.specs.Showing.{marks_after, place_after, shown, shown_of, stop_at, stops};
ghost use Rattle.debug_script.specs.{Noting.KeepsNotes, Noting.NotesBytes, Places.distance, Places.on};

use crate::marks::Marks;
use crate::order::Order;
use crate::shown::Shown;
use alone_runs::laws::answers_under_plans;
use alone_runs::{Row, Session};
use cpu12_isa::laws::nothing_is_watched;
use cpu12_isa::mem::Mem;
use cpu12_isa::pages::PageMem;
use cpu12_isa::watching::WatchedMem;
use firmware_code::Firmware;
use fz_list::{List, Memory};
use interrupt_plan::Plan;
use std::alloc::{AllocError, Global};
use trace_io::Sample;

/// Advances `count` positions, or to the last.
fn step<M: Mem>(session: &mut Session<'_, WatchedMem<M>>, count: u32)
    ensures place { place_of session.new ≡ on count (place_of session.old) }
    ensures leads { Leads session.old session.new }
    ensures notes { KeepsNotes session.old session.new }
{
    let mut left = count;
    while left > 0 {
        if !session.advance() {
            return;
        }
        session.has_all_bytes();
        session.note();
        left -= 1;
    }
}

/// Whether the run stops at its position, coming from the one whose bytes are noted.
#[inline(always)]
fn is_stopped<M: Mem>(session: &Session<'_, WatchedMem<M>>, marks: &Marks) -> bool
    ensures { result ≡ (contains_by (nat_cmp session.now.rest.here.state.regs.pc) marks.now.breaks
        || any_changed session.now.noted session.now.rest.here.state.mem) }
{
    marks.breaks.contains(session.regs().pc) || session.has_changed()
}

/// Advances to the first position that stops the run, or to the last.
fn go<M: Mem>(session: &mut Session<'_, WatchedMem<M>>, marks: &Marks)
    requires { NotesBytes marks.now.watches session.old }
    ensures place { place_of session.new
        ≡ on (distance (stops marks.now) (place_of session.old)) (place_of session.old) }
    ensures leads { Leads session.old session.new }
    ensures notes { NotesBytes marks.now.watches session.new }
{
    while session.advance() {
        session.has_all_bytes();
        let stops = is_stopped(session, marks);
        session.note();
        if stops {
            return;
        }
    }
}

/// The position of a session.
fn stop<M: Mem>(session: &Session<'_, WatchedMem<M>>) -> Shown
    requires { session.now.rest.here.sample ≤ 4294967295 }
    ensures { result ≡ stop_at session.now.rest.here }
{
    let (sample, moment) = session.at();
    Shown::Stop(sample, moment, session.regs().pc)
}

/// The given number of bytes from an address on.
fn bytes_from<M: Mem>(
    alloc: Global,
    session: &Session<'_, WatchedMem<M>>,
    at: u16,
    count: u32,
) -> Result<Vec<u8>, AllocError>
    ensures { IfOk result (λ bytes. bytes.items ≡ bytes_at session.now.rest.here.state.mem (from at count)) }
{
    let mut bytes = Vec::new(alloc);
    let mut next = at;
    for _ in 0..count {
        bytes.push(session.byte(next))?;
        next = next.wrapping_add(1);
    }
    Ok(bytes)
}

/// Executes an order, and appends what it shows to what was shown.
fn obey<M: Mem>(
    alloc: Global,
    order: Order,
    marks: &mut Marks,
    session: &mut Session<'_, WatchedMem<M>>,
    shown: &mut Vec<Shown>,
) -> Result<(), AllocError>
    requires told { AreTold (place_of session.old) }
    requires notes { NotesBytes marks.old.watches session.old }
    ensures place { OnOk result (place_of session.new ≡ place_after order marks.old (place_of session.old)) }
    ensures leads { OnOk result (Leads session.old session.new) }
    ensures marks { OnOk result (marks.new ≡ marks_after order marks.old) }
    ensures notes { OnOk result (NotesBytes marks.new.watches session.new) }
    ensures shown { OnOk result (shown.new.items ≡ shown.old.items ++ shown_of order (place_of session.new)) }
{
    match order {
        Order::Break(at) => marks.set_break(at),
        Order::Unbreak(at) => {
            marks.take_break(at);
            Ok(())
        }
        Order::Watch(at) => {
            session.watch(at);
            marks.set_watch(at)
        }
        Order::Unwatch(at) => {
            session.unwatch(at);
            marks.take_watch(at);
            Ok(())
        }
        Order::Step(count) => {
            step(session, count);
            shown.push(stop(session))?;
            Ok(())
        }
        Order::Go => {
            go(session, marks);
            shown.push(stop(session))?;
            Ok(())
        }
        Order::Registers => {
            shown.push(Shown::Registers(session.regs()))?;
            Ok(())
        }
        Order::Memory(at, count) => {
            let bytes = bytes_from(alloc, session, at, count)?;
            shown.push(Shown::Bytes(at, List::new(bytes)))?;
            Ok(())
        }
    }
}

/// Executes the orders of a script one after the other.
fn obey_all<M: Mem>(
    alloc: Global,
    script: &[Order],
    session: &mut Session<'_, WatchedMem<M>>,
) -> Result<Vec<Shown>, AllocError>
    requires told { AreTold (place_of session.old) }
    requires notes { session.old.noted ≡ nothing_noted }
    ensures shown { IfOk result (λ all. all.items ≡ shown script.now (place_of session.old)) }
    ensures leads { OnOk result (Leads session.old session.new) }
{
    nothing_is_watched();
    let mut marks = Marks::new(alloc)?;
    let mut all = Vec::new(alloc);
    for order in script {
        obey(alloc, *order, &mut marks, session, &mut all)?;
    }
    Ok(all)
}

/// Runs a firmware over a trace under a plan, and executes a script on the way. Returns what the script shows, and
/// the rows of the whole run, which are those of [`alone_runs::run`], whatever the script.
pub fn debug(
    alloc: Global,
    firmware: &Firmware,
    samples: &[Sample],
    plan: &Plan,
    flags: u8,
    script: &[Order],
) -> Result<(Vec<Shown>, Vec<Row>), Memory>
    requires outputs { firmware.now.outputs ≤ 4 }
    requires plan { IsGood plan.now }
    requires samples { length samples.now ≤ 4294967295 }
    ensures shown { IfOk result (λ r. r.0.items
        ≡ shown script.now (positions (first_state firmware.now flags)
        (firmware_rows firmware.now (map input_bytes samples.now) plan.now flags))) }
    ensures rows { IfOk result (λ r. map row_seen r.1.items
        ≡ (firmware_rows firmware.now (map input_bytes samples.now) plan.now flags).rows) }
    ensures answers { IfOk result (λ r.
        AnswersItsBlock firmware.now flags (map input_bytes samples.now) plan.now (map row_seen r.1.items)) }
{
    answers_under_plans();
    let mut session: Session<WatchedMem<PageMem>> = Session::new(
        alloc, firmware, samples, plan, flags,
    )?;
    let Ok(all) = obey_all(alloc, script, &mut session) else {
        return Err(Memory);
    };
    let (rows, _memory) = session.finish();
    Ok((all, rows))
}
