//! The run of any form over its samples under a plan.
ghost use Rattle.std.specs.Prelude.{ℕ, ◌≡◌, ◌≤◌, ◌+◌, [], All, length, map, IfOk, vec_capacity};
ghost use Rattle.cpu12_isa.specs.Tags.{untagged};
ghost use Rattle.cpu12_emul.specs.Step.{SameMachine};
ghost use Rattle.run_forms.specs.Rows.{arrival, arrived_at, frames_seen, harness_rows, shown};
ghost use Rattle.run_forms.specs.{Rooms.Fits, Slices.HaveRoom, Slices.IsInOrder, Slices.requests_first};
ghost use Rattle.run_forms.specs.RunRests.{from_here, shown_run, rest_here, IsUnderWay};

use crate::form::RunForm;
use crate::run_state::{RunState, before_samples, begin, drive, into_rows};
use crate::sample::Notes;
use cpu12_asm::Image;
use cpu12_emul::machine::Machine;
use cpu12_isa::mem::Mem;
use fz_list::Memory;
use std::alloc::Global;
use std::collections::VecDeque;

/// Where a run begins, and how long its samples may take.
#[derive(Drop)]
pub struct Start<'a> {
    /// The contents of memory at reset.
    pub image: &'a Image,
    /// The address at which its code waits for a sample.
    pub wait: u16,
    /// How many steps it may take to get there, and how many a sample may take at most.
    pub most: u32,
}

/// Runs a form over its samples under requests in order, and returns a row for each sample and the memory of the
/// last state. Bits of `flags` supply the flags that the CPU12 Reference Manual leaves undefined. All memory is
/// allocated before the first step, and lack of memory is the only error.
pub fn run_form<M: Mem, A, U: Drop, R: Drop, F: RunForm<A, U, R>>(
    alloc: Global,
    form: &F,
    start: &Start,
    plan: &[A],
    flags: u8,
) -> Result<(Vec<R>, M), Memory>
    requires served { All (F.serves form.now) plan.now }
    requires order { IsInOrder (F.harness form.now).parts.place plan.now }
    ensures rows { IfOk result (λ r. map (F.harness form.now).seen r.0.items
        ≡ shown (F.harness form.now).shows (harness_rows flags (F.harness form.now) start.now.most plan.now
        (arrived_at flags start.now.wait start.now.most start.now.image.now.bytes))) }
    ensures memory { IfOk result (λ r. M.bytes r.1
        ≡ (harness_rows flags (F.harness form.now) start.now.most plan.now
        (arrived_at flags start.now.wait start.now.most start.now.image.now.bytes)).state.mem) }
{
    let (mut machine, mut run_state) = begun(alloc, form, start, plan, flags)?;
    drive(&mut machine, form, plan, &mut run_state);
    let rows = into_rows(&mut machine, form, run_state);
    Ok((rows, machine.into_mem()))
}

/// A machine and a run at its first position. All memory is allocated here.
pub fn begun<M: Mem, A, U: Drop, R: Drop, F: RunForm<A, U, R>>(
    alloc: Global,
    form: &F,
    start: &Start,
    plan: &[A],
    flags: u8,
) -> Result<(Machine<M>, RunState<U, R>), Memory>
    requires served { All (F.serves form.now) plan.now }
    requires order { IsInOrder (F.harness form.now).parts.place plan.now }
    ensures first { IfOk result (λ r. from_here (rest_here flags (F.harness form.now) plan.now r.1 r.0.state)
        ≡ shown_run (F.harness form.now).shows
        (arrived_at flags start.now.wait start.now.most start.now.image.now.bytes)
        (harness_rows flags (F.harness form.now) start.now.most plan.now
        (arrived_at flags start.now.wait start.now.most start.now.image.now.bytes))) }
    ensures under_way { IfOk result (λ r. IsUnderWay F.fits (F.harness form.now) plan.now r.1) }
    ensures machine { IfOk result (λ r.
        r.0 ≡ record { state = r.0.state; flags = flags; tags = untagged 65536 }) }
{
    let count = form.count();
    let none = form.room(alloc, 0)?;
    let rooms = make_rooms(alloc, form, count, plan)?;
    let Ok(rows) = Vec::with_capacity(alloc, count) else {
        return Err(Memory);
    };
    let mut machine = Machine::new(alloc, start.image, flags)?;
    arrive(&mut machine, start.wait, start.most);
    let mut run_state = before_samples(form, start.most, plan, none, rooms, rows);
    begin(&mut machine, form, plan, &mut run_state);
    Ok((machine, run_state))
}

/// Does steps until PC is at LOOP, at most `budget` of them, and while steps are defined.
fn arrive<M: Mem>(m: &mut Machine<M>, loop_at: u16, budget: u32)
    ensures state { m.new.state ≡ arrival m.old.flags loop_at budget m.old.state }
    ensures machine { SameMachine m.old m.new }
{
    let mut left = budget;
    while left > 0 {
        if m.regs().pc == loop_at {
            return;
        }
        match m.step() {
            Ok(_) => left -= 1,
            Err(_) => return,
        }
    }
}

/// How many of these requests, from the first on, belong to sample `k`.
pub(crate) fn count_of<A, U, R, F: RunForm<A, U, R>>(form: &F, requests: &[A], k: usize) -> usize
    ensures { result ≡ length (requests_first (F.harness form.now).parts.place k requests.now) }
{
    let mut count = 0;
    for request in requests {
        if form.place(request).0 as usize != k {
            return count;
        }
        count += 1;
    }
    count
}

/// Room for what this many requests push and report.
pub fn room_for<U: Drop>(alloc: Global, count: usize) -> Result<Notes<U>, Memory>
    ensures frames { IfOk result (λ room. frames_seen room.frames.items ≡ []) }
    ensures told { IfOk result (λ room. room.told.items ≡ []) }
    ensures capacity { IfOk result (λ room.
        (count ≤ vec_capacity room.frames) × (count ≤ vec_capacity room.told)) }
    ensures fits { IfOk result (λ room. count ≤ 10000 → Fits room count) }
{
    let Ok(frames) = Vec::with_capacity(alloc, count) else {
        return Err(Memory);
    };
    let Ok(told) = Vec::with_capacity(alloc, count) else {
        return Err(Memory);
    };
    Ok(Notes { frames, told })
}

/// Room for notes of the requests of each sample.
fn make_rooms<A, U: Drop, R, F: RunForm<A, U, R>>(
    alloc: Global,
    form: &F,
    samples: usize,
    plan: &[A],
) -> Result<VecDeque<U>, Memory>
    ensures { IfOk result (λ rooms. HaveRoom F.fits (F.harness form.now).notes (F.harness form.now).parts.place 1
        samples plan.now rooms.items) }
{
    let Ok(mut rooms) = VecDeque::with_capacity(alloc, samples) else {
        return Err(Memory);
    };
    let mut next = 0;
    let mut first = 0;
    while next < samples {
        next += 1;
        let count = count_of(form, &plan[first..], next);
        let room = form.room(alloc, count)?;
        match rooms.push_back(room) {
            Ok(()) => {}
            Err(_) => return Err(Memory),
        }
        first += count;
    }
    Ok(rooms)
}
