//! A run in progress, sample by sample.
ghost use Rattle.std.specs.Prelude.{ℕ, ◌≡◌, ◌≤◌, ◌<◌, ◌+◌, ◌-◌, ◌^◌, List};
ghost use Rattle.std.specs.Prelude.{[], All, true, false, length, map, drop, vec_len, vec_capacity};
ghost use Rattle.cpu12_parts.specs.State.{State};
ghost use Rattle.cpu12_emul.specs.Step.{SameMachine};
ghost use Rattle.run_forms.specs.{Rest.counted_at, Rest.shown_by, Rows.harness_rows};
ghost use Rattle.run_forms.specs.Slices.{HasRoom, HaveRoom, IsInOrder};
ghost use Rattle.run_forms.specs.RunRests.{rest_before, at_position, from_here, left_by, rest_here, rows_here};
ghost use Rattle.run_forms.specs.RunRests.{sample_at, shown_run, state_here, with_row, IsUnderWay};

use crate::at_once::pass_parts;
use crate::boundary::{SampleState, come, pass};
use crate::form::RunForm;
use crate::runs::count_of;
use crate::sample::Counts;
use cpu12_emul::machine::Machine;
use cpu12_isa::mem::Mem;
use std::collections::VecDeque;
use std::mem;

/// Where a run in progress is, with the rows of the samples before and the room that is left.
#[derive(Drop)]
pub struct RunState<U, R> {
    /// Where the run of the sample given last is.
    pub sample: SampleState<U>,
    /// How many steps a sample may take at most.
    pub most: u32,
    /// How many samples were given.
    pub number: usize,
    /// Where the requests of the last of them begin in the plan.
    pub first: usize,
    /// Where those of the next begin.
    pub behind: usize,
    /// Room for what the requests of each remaining sample push and report.
    pub rooms: VecDeque<U>,
    /// The rows of the samples before.
    pub rows: Vec<R>,
}

/// Before the first boundary of a sample that may take `budget` steps.
pub fn fresh_sample<U>(budget: u32, notes: U) -> SampleState<U>
    ensures counts { result.counts ≡ record {
      arrived = false;
      moment = 0;
      inside = false;
      next = 0;
      instrs = 0;
      resumed = 0;
      notes = notes;
    } }
    ensures left { result.left ≡ budget }
    ensures on { result.over ≡ false }
    ensures sum { result.counts.moment + result.left < 2 ^ 32 }
{
    let counts = Counts {
        arrived: false,
        moment: 0,
        inside: false,
        next: 0,
        instrs: 0,
        resumed: 0,
        notes,
    };
    SampleState {
        counts,
        left: budget,
        over: false,
    }
}

/// Takes sample `number` away, whose run ends here, and appends its row to those before. There is no sample 0.
fn end_sample<M: Mem, A, U: Drop, R, F: RunForm<A, U, R>>(
    m: &mut Machine<M>,
    form: &F,
    number: usize,
    counts: Counts<U>,
    rows: &mut Vec<R>,
)
    requires number { number ≤ length (F.harness form.now).samples }
    requires len { vec_len rows.old ≡ number - 1 }
    requires few { (n : ℕ) × F.fits counts.notes n }
    requires room { number ≤ vec_capacity rows.old }
    ensures rows { map (F.harness form.now).seen rows.new.items
        ≡ with_row (map (F.harness form.now).seen rows.old.items)
        (shown_by (F.harness form.now).shows (F.harness form.now).parts.answers
        (counted_at (F.harness form.now).notes counts m.old.state))
        (sample_at number (F.harness form.now).samples) }
    ensures state { m.new.state ≡ left_by (F.harness form.now).parts.leave
        (sample_at number (F.harness form.now).samples) m.old.state }
    ensures len { vec_len rows.new ≡ number }
    ensures room { vec_capacity rows.old ≤ vec_capacity rows.new }
    ensures machine { SameMachine m.old m.new }
{
    if number == 0 {
        return;
    }
    let row = form.row(m, number - 1, counts);
    rows.push(row).unwrap();
    form.leave(m, number - 1);
}

/// Gives the next sample, and arrives at its first boundary.
#[inline(never)]
fn give_next<M: Mem, A, U: Drop, R, F: RunForm<A, U, R>>(
    m: &mut Machine<M>,
    form: &F,
    plan: &[A],
    p: &mut RunState<U, R>,
)
    requires served { All (F.serves form.now) plan.now }
    requires under_way { IsUnderWay F.fits (F.harness form.now) plan.now p.old }
    requires left { p.old.number < length (F.harness form.now).samples }
    ensures rest { from_here (rest_here m.old.flags (F.harness form.now) plan.now p.new m.new.state)
        ≡ rest_before m.old.flags (F.harness form.now) p.old.most (p.old.number + 1) (drop p.old.behind plan.now)
        (drop p.old.number (F.harness form.now).samples)
        (rows_here (F.harness form.now) p.old m.old.state) (state_here (F.harness form.now) p.old m.old.state) }
    ensures under_way { IsUnderWay F.fits (F.harness form.now) plan.now p.new }
    ensures machine { SameMachine m.old m.new }
{
    let Some(room) = p.rooms.pop_front() else {
        unreachable!()
    };
    let sample = mem::replace(&mut p.sample, fresh_sample(p.most, room));
    end_sample(m, form, p.number, sample.counts, &mut p.rows);
    form.give(m, p.number);
    p.number += 1;
    p.first = p.behind;
    p.behind += count_of(form, &plan[p.first..], p.number);
    come(m, form, &plan[p.first..p.behind], &mut p.sample);
}

/// Advances to the next position of the run. Returns whether there is one.
#[inline(always)]
pub fn advance<M: Mem, A, U: Drop, R, F: RunForm<A, U, R>>(
    m: &mut Machine<M>,
    form: &F,
    plan: &[A],
    p: &mut RunState<U, R>,
) -> bool
    requires served { All (F.serves form.now) plan.now }
    requires under_way { IsUnderWay F.fits (F.harness form.now) plan.now p.old }
    ensures goes { result ≡ true → rest_here m.old.flags (F.harness form.now) plan.now p.old m.old.state
        ≡ at_position (record { sample = p.old.number; moment = p.old.sample.counts.moment; state = m.old.state })
        (from_here (rest_here m.old.flags (F.harness form.now) plan.now p.new m.new.state)) }
    ensures ends { result ≡ false → rest_here m.old.flags (F.harness form.now) plan.now p.old m.old.state
        ≡ record {
          here = record { sample = p.old.number; moment = p.old.sample.counts.moment; state = m.old.state };
          later = [];
          rows = rows_here (F.harness form.now) p.old m.old.state;
          state = state_here (F.harness form.now) p.old m.old.state;
        } }
    ensures same { result ≡ false → (p.new ≡ p.old) × (m.new ≡ m.old) }
    ensures under_way { IsUnderWay F.fits (F.harness form.now) plan.now p.new }
    ensures machine { SameMachine m.old m.new }
{
    if pass(m, form, &plan[p.first..p.behind], &mut p.sample) {
        return true;
    }
    if p.number == form.count() {
        return false;
    }
    give_next(m, form, plan, p);
    true
}

/// Before the first sample of a run each of whose samples may take `most` steps.
pub(crate) fn before_samples<A, U, R, F: RunForm<A, U, R>>(
    form: &F,
    most: u32,
    plan: &[A],
    none: U,
    rooms: VecDeque<U>,
    rows: Vec<R>,
) -> RunState<U, R>
    requires order { IsInOrder (F.harness form.now).parts.place plan.now }
    requires rooms { HaveRoom F.fits (F.harness form.now).notes (F.harness form.now).parts.place 1
        (length (F.harness form.now).samples) plan.now rooms.items }
    requires none { rows.items ≡ [] }
    requires empty { HasRoom {A = A} F.fits (F.harness form.now).notes [] none }
    requires room { length (F.harness form.now).samples ≤ vec_capacity rows }
    ensures rest { (flags : ℕ) (s : State) → rest_here flags (F.harness form.now) plan.now result s
        ≡ at_position (record { sample = 0; moment = 0; state = s })
        (rest_before flags (F.harness form.now) most 1 plan.now (F.harness form.now).samples [] s) }
    ensures most { result.most ≡ most }
    ensures under_way { IsUnderWay F.fits (F.harness form.now) plan.now result }
{
    let mut sample = fresh_sample(0, none);
    sample.over = true;
    RunState {
        sample,
        most,
        number: 0,
        first: 0,
        behind: 0,
        rooms,
        rows,
    }
}

/// Arrives at the first position of a run, from before the first sample.
pub(crate) fn begin<M: Mem, A, U: Drop, R, F: RunForm<A, U, R>>(
    m: &mut Machine<M>,
    form: &F,
    plan: &[A],
    p: &mut RunState<U, R>,
)
    requires served { All (F.serves form.now) plan.now }
    requires under_way { IsUnderWay F.fits (F.harness form.now) plan.now p.old }
    requires before { rest_here m.old.flags (F.harness form.now) plan.now p.old m.old.state
        ≡ at_position (record { sample = 0; moment = 0; state = m.old.state })
        (rest_before m.old.flags (F.harness form.now) p.old.most 1 plan.now (F.harness form.now).samples []
        m.old.state) }
    ensures first { from_here (rest_here m.old.flags (F.harness form.now) plan.now p.new m.new.state)
        ≡ shown_run (F.harness form.now).shows m.old.state
        (harness_rows m.old.flags (F.harness form.now) p.old.most plan.now m.old.state) }
    ensures under_way { IsUnderWay F.fits (F.harness form.now) plan.now p.new }
    ensures machine { SameMachine m.old m.new }
{
    advance(m, form, plan, p);
}

/// Advances to the last position.
pub fn drive<M: Mem, A, U: Drop, R, F: RunForm<A, U, R>>(
    m: &mut Machine<M>,
    form: &F,
    plan: &[A],
    p: &mut RunState<U, R>,
)
    requires served { All (F.serves form.now) plan.now }
    requires under_way { IsUnderWay F.fits (F.harness form.now) plan.now p.old }
    ensures rows { rows_here (F.harness form.now) p.new m.new.state
        ≡ (rest_here m.old.flags (F.harness form.now) plan.now p.old m.old.state).rows }
    ensures state { state_here (F.harness form.now) p.new m.new.state
        ≡ (rest_here m.old.flags (F.harness form.now) plan.now p.old m.old.state).state }
    ensures under_way { IsUnderWay F.fits (F.harness form.now) plan.now p.new }
{
    while advance(m, form, plan, p) {
        pass_parts(m, form, &plan[p.first..p.behind], &mut p.sample);
    }
}

/// All rows of a run whose last sample ends here, and is taken away.
pub fn into_rows<M: Mem, A, U: Drop, R, F: RunForm<A, U, R>>(
    m: &mut Machine<M>,
    form: &F,
    p: RunState<U, R>,
) -> Vec<R>
    requires number { p.number ≤ length (F.harness form.now).samples }
    requires few { (n : ℕ) × F.fits p.sample.counts.notes n }
    requires len { vec_len p.rows ≡ p.number - 1 }
    requires room { p.number ≤ vec_capacity p.rows }
    ensures rows { map (F.harness form.now).seen result.items ≡ rows_here (F.harness form.now) p m.old.state }
    ensures state { m.new.state ≡ state_here (F.harness form.now) p m.old.state }
{
    let RunState {
        sample,
        most: _,
        number,
        first: _,
        behind: _,
        rooms: _,
        mut rows,
    } = p;
    end_sample(m, form, number, sample.counts, &mut rows);
    rows
}
