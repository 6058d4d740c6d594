//! A run that stops at each boundary.
ghost use Rattle.std.specs.Prelude.{ℕ, ◌≡◌, ◌≤◌, ◌∷◌, [], true, false, Some, None, IfOk};
ghost use Rattle.std.specs.Prelude.{length, min, map, slice_index, slice_set};
ghost use Rattle.cpu12_isa.specs.Watching.{any_changed, noted_again, nothing_noted};
ghost use Rattle.interrupt_plan.specs.Plans.{IsGood};
ghost use Rattle.alone_runs.specs.Rows.{row_seen, first_state, firmware_rows};
ghost use Rattle.trace_io.specs.Traces.{input_bytes};
ghost use Rattle.run_forms.specs.RunRests.{from_here, at_position, of_run};

use crate::form::AloneForm;
use crate::rows::Row;
use cpu12_emul::machine::Machine;
use cpu12_isa::instr::Regs;
use cpu12_isa::mem::Mem;
use cpu12_isa::watching::WatchedMem;
use firmware_code::Firmware;
use fz_list::Memory;
use interrupt_plan::{Plan, Request};
use run_forms::laws::rows_are_shown;
use run_forms::{Notes, RunState, Start, advance, begun, drive, into_rows};
use std::alloc::Global;
use std::marker::Model;
use trace_io::Sample;

/// A run of a firmware over a trace under a plan, stopped at one of its positions: the pairs of a sample, counted
/// from 1, and a boundary in it, in order. The state at a position is that after what is taken there. A run over
/// no sample has only position 0 of sample 0. Over a memory that notes bytes ([`WatchedMem`]) a session reports
/// whether watched bytes have changed.
#[derive(Drop)]
pub struct Session<'a, M: Mem> {
    machine: Machine<M>,
    form: AloneForm<'a>,
    plan: &'a Plan,
    run_state: RunState<Notes<()>, Row>,
}

impl<'a, M: Mem> Model for Session<'a, M> {
    ghost use Rattle.run_forms.specs.RunRests.{rest_here, IsUnderWay};
    ghost use Rattle.run_forms.specs.Rooms.{Fits};
    ghost use Rattle.alone_runs.specs.Rows.{writes_harness};
    ghost use Rattle.alone_runs.specs.Sessions.{SessionSeen};

    ghost Value = { SessionSeen };

    ghost view = { λ a. record {
      rest = rest_here a.machine.flags (writes_harness a.form.firmware.now a.form.samples.now)
          a.plan.now a.run_state a.machine.state;
      noted = a.machine.tags;
    } };

    ghost invariant = { λ a. IsUnderWay Fits (writes_harness a.form.firmware.now a.form.samples.now) a.plan.now
        a.run_state };
}

impl<'a, M: Mem> Session<'a, M> {
    /// A session at the first position of a run. Bits of `flags` supply the flags that the CPU12 Reference Manual
    /// leaves undefined. All memory is allocated here.
    pub fn new(
        alloc: Global,
        firmware: &'a Firmware,
        samples: &'a [Sample],
        plan: &'a Plan,
        flags: u8,
    ) -> Result<Session<'a, M>, Memory>
        requires outputs { firmware.now.outputs ≤ 4 }
        requires plan { IsGood plan.now }
        ensures rest { IfOk result (λ s. from_here s.rest ≡ of_run (first_state firmware.now flags)
            (firmware_rows firmware.now (map input_bytes samples.now) plan.now flags)) }
        ensures noted { IfOk result (λ s. s.noted ≡ nothing_noted) }
    {
        rows_are_shown::<Request, Notes<()>, Row, AloneForm>();
        let form = AloneForm { firmware, samples };
        let start = Start {
            image: &firmware.image,
            wait: firmware.memory_map.wait,
            most: firmware.step_bound,
        };
        let (machine, run_state) = begun(alloc, &form, &start, plan.as_slice(), flags)?;
        Ok(Session {
            machine,
            form,
            plan,
            run_state,
        })
    }

    /// Advances to the next position. At the last one, and only there, it returns false and changes nothing.
    pub fn advance(&mut self) -> bool
        ensures goes { result ≡ true → self.old.rest
            ≡ at_position self.old.rest.here (from_here self.new.rest) }
        ensures ends { result ≡ false → (self.old.rest.later ≡ []) × (self.new ≡ self.old) }
        ensures noted { self.new.noted ≡ self.old.noted }
    {
        advance(
            &mut self.machine,
            &self.form,
            self.plan.as_slice(),
            &mut self.run_state,
        )
    }

    /// The registers.
    pub fn regs(&self) -> Regs
        ensures { result ≡ self.now.rest.here.state.regs }
    {
        self.machine.regs()
    }

    /// The byte at an address.
    pub fn byte(&self, address: u16) -> u8
        ensures { result ≡ slice_index self.now.rest.here.state.mem address }
    {
        self.machine.peek(address)
    }

    /// Memory has 65536 bytes.
    #[inline(always)]
    pub fn has_all_bytes(&self)
        ensures { length self.now.rest.here.state.mem ≡ 65536 }
    {
        self.machine.has_all_bytes()
    }

    /// The position: the sample, where any past 4294967295 counts as that, and the boundary.
    pub fn at(&self) -> (u32, u32)
        ensures sample { result.0 ≡ min self.now.rest.here.sample 4294967295 }
        ensures moment { result.1 ≡ self.now.rest.here.moment }
    {
        let sample = u32::try_from(self.run_state.number).unwrap_or(u32::MAX);
        (sample, self.run_state.sample.counts.moment)
    }

    /// Advances to the last position, and returns all rows of the run and the memory of its last state.
    pub fn finish(self) -> (Vec<Row>, M)
        ensures rows { map row_seen result.0.items ≡ self.entry.rest.rows }
        ensures memory { M.bytes result.1 ≡ self.entry.rest.state.mem }
    {
        let Session {
            mut machine,
            form,
            plan,
            mut run_state,
        } = self;
        drive(&mut machine, &form, plan.as_slice(), &mut run_state);
        let rows = into_rows(&mut machine, &form, run_state);
        (rows, machine.into_mem())
    }
}

impl<'a, M: Mem> Session<'a, WatchedMem<M>> {
    /// Watches an address: notes the byte that is there.
    pub fn watch(&mut self, at: u16)
        ensures rest { self.new.rest ≡ self.old.rest }
        ensures noted { self.new.noted
            ≡ slice_set self.old.noted at (Some (slice_index self.old.rest.here.state.mem at)) }
    {
        self.machine.mem.watch(at);
    }

    /// Stops watching an address.
    pub fn unwatch(&mut self, at: u16)
        ensures rest { self.new.rest ≡ self.old.rest }
        ensures noted { self.new.noted ≡ slice_set self.old.noted at None }
    {
        self.machine.mem.unwatch(at);
    }

    /// Notes the bytes at all watched addresses again.
    #[inline(always)]
    pub fn note(&mut self)
        ensures rest { self.new.rest ≡ self.old.rest }
        ensures noted { self.new.noted ≡ noted_again self.old.noted self.old.rest.here.state.mem }
    {
        self.machine.mem.note();
    }

    /// Whether the byte at any watched address differs from the noted one.
    #[inline(always)]
    pub fn has_changed(&self) -> bool
        ensures { result ≡ any_changed self.now.noted self.now.rest.here.state.mem }
    {
        self.machine.mem.has_changed()
    }
}
