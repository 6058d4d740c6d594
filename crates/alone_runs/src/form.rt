//! The form of a firmware that stands alone.
ghost use Rattle.std.specs.Prelude.{ℕ, ◌≡◌, ◌<◌, ◌≤◌, List, length};
ghost use Rattle.run_law.specs.Forms.{RowSeen};
ghost use Rattle.run_forms.specs.Rooms.{Fits};
ghost use Rattle.alone_runs.specs.Showing.{ShowsSample};
ghost use Rattle.alone_runs.specs.Rows.{writes_harness};
ghost use Rattle.cpu12_emul.specs.Simulation.{OnStackOnly};
ghost use Rattle.interrupt_plan.specs.Plans.{IsGoodRequest};
ghost use Rattle.interrupt_plan.specs.declared.Request as plan;
ghost use Rattle.alone_runs.specs.{Forms.with_writes, Following.Alone, Following.Nothing, SoundAloneProof.sound};
ghost use Rattle.firmware_runs.specs.Facts.{FactsBeside};

use crate::rows::{Row, row_of};
use cpu12_emul::machine::Machine;
use cpu12_isa::mem::Mem;
use firmware_code::Firmware;
use firmware_runs::{answers, give, is_busy_here, is_idle};
use fz_list::Memory;
use interrupt_plan::Request;
use run_forms::{Counts, Notes, RunForm, SampleForm, room_for};
use run_law::laws::SoundForm;
use std::alloc::Global;
use trace_io::Sample;

/// A firmware that stands alone, with a trace. Its handler does the writes that a request lists, to free bytes,
/// whatever else is open.
#[derive(Drop)]
pub struct AloneForm<'a> {
    /// The firmware, of at most four outputs.
    pub firmware: &'a Firmware,
    /// The trace.
    pub samples: &'a [Sample],
    ghost outputs: { firmware.now.outputs ≤ 4 },
}

impl<'a> SampleForm<Request, Notes<()>, Row> for AloneForm<'a> {
    ghost Given = { List ℕ };

    ghost Told = { Unit {0} };

    ghost Shown = { RowSeen (List ℕ) };

    ghost harness = { λ x. writes_harness x.firmware.now x.samples.now };

    ghost fits = { Fits };

    ghost serves = { λ _ _. Unit {0} };

    fn ends<M: Mem>(&self, m: &Machine<M>, _moment: u32) -> bool {
        is_idle(&self.firmware.memory_map, m)
    }

    #[inline(always)]
    fn goes_on_here<M: Mem>(&self, m: &Machine<M>) -> bool {
        is_busy_here(&self.firmware.memory_map, m)
    }

    fn place(&self, request: &Request) -> (u32, u32) {
        (request.sample, request.moment)
    }

    fn take<M: Mem>(
        &self,
        m: &mut Machine<M>,
        request: &Request,
        moment: u32,
        notes: &mut Notes<()>,
    ) {
        let frame = m.interrupt(request.writes.as_slice());
        notes.put(moment, frame, ());
    }
}

impl<'a> RunForm<Request, Notes<()>, Row> for AloneForm<'a> {
    fn count(&self) -> usize {
        self.samples.len()
    }

    fn give<M: Mem>(&self, m: &mut Machine<M>, k: usize) {
        give(
            &self.firmware.memory_map,
            m,
            self.samples[k].bytes.as_slice(),
        );
    }

    fn leave<M: Mem>(&self, _m: &mut Machine<M>, _k: usize) {}

    fn room(&self, alloc: Global, count: usize) -> Result<Notes<()>, Memory> {
        room_for(alloc, count)
    }

    fn row<M: Mem>(&self, m: &Machine<M>, k: usize, counts: Counts<Notes<()>>) -> Row
        requires sample { k < length (writes_harness self.now.firmware.now self.now.samples.now).samples }
        requires few { (n : ℕ) × Fits counts.notes n }
        ensures { ShowsSample (writes_harness self.now.firmware.now self.now.samples.now) k counts m.now.state result }
    {
        let bytes = self.samples[k].bytes.as_slice();
        row_of(bytes, answers(self.firmware, m), counts).0
    }
}

impl<'a> SoundForm for AloneForm<'a> {
    ghost Setting = { Alone };

    ghost Sample = { List ℕ };

    ghost Request = { plan.Request };

    ghost Told = { Unit {0} };

    ghost form = { λ x. with_writes x.flags x.firmware };

    ghost marks = { OnStackOnly };

    ghost open_to = { λ x. x.open_to };

    ghost holds = { λ x. FactsBeside x.open_to x.flags x.firmware };

    ghost good = { λ _. IsGoodRequest };

    ghost own = { λ _. Nothing };

    ghost sound = { λ x agree quiet. sound x.open_to x.opens x.flags x.firmware x.low agree quiet };
}
