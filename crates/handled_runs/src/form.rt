//! A firmware whose interrupts run code, as a form of runs.
ghost use Rattle.std.specs.Prelude.{ℕ, ◌≡◌, ◌≤◌, ◌<◌, List, length};
ghost use Rattle.run_forms.specs.Rooms.{Fits};
ghost use Rattle.alone_runs.specs.Showing.{ShowsSample};
ghost use Rattle.handled_runs.specs.Forms.{HandledSeen, code_harness, steps_of};
ghost use Rattle.handled_runs.specs.declared.back.HandlerEnd as end;
ghost use Rattle.cpu12_emul.specs.Simulation.{OnStackOnly};
ghost use Rattle.interrupt_plan.specs.Plans.{IsGoodRequest};
ghost use Rattle.interrupt_plan.specs.declared.Request as plan;
ghost use Rattle.firmware_runs.specs.Facts.{FactsBeside};
ghost use Rattle.handled_runs.specs.{Open.is_open_to_code, Forms.with_code};
ghost use Rattle.handled_runs.specs.SoundHandledProof.{Handled, HandlerStands, sound};

use crate::back::{HandlerEnd, until_rti};
use crate::rows::HandledRow;
use alone_runs::row_of;
use cpu12_emul::machine::Machine;
use cpu12_isa::mem::Mem;
use firmware_code::Firmware;
use firmware_runs::{answers, give, is_busy_here, is_idle};
use fz_list::Memory;
use interrupt_plan::Request;
use run_forms::{Counts, Notes, RunForm, SampleForm, room_for};
use run_law::laws::SoundForm;
use std::alloc::Global;
use trace_io::Sample;

/// A firmware that stands alone, with a handler in memory and a trace. If the handler is accepted it is a sound
/// form.
#[derive(Drop)]
pub(crate) struct HandledForm<'a> {
    /// The firmware, of at most four outputs.
    pub(crate) firmware: &'a Firmware,
    /// The trace.
    pub(crate) samples: &'a [Sample],
    ghost outputs: { firmware.now.outputs ≤ 4 },
}

/// How many steps were reported in all.
fn steps_in(told: &[HandlerEnd]) -> u32
    requires { length told.now ≤ 10000 }
    ensures { result ≡ steps_of told.now }
{
    told.iter().map(|end| u32::from(end.steps)).sum()
}

impl<'a> SampleForm<Request, Notes<HandlerEnd>, HandledRow> for HandledForm<'a> {
    ghost Given = { List ℕ };

    ghost Told = { end.HandlerEnd };

    ghost Shown = { HandledSeen };

    ghost harness = { λ x. code_harness x.firmware.now x.samples.now };

    ghost fits = { Fits };

    ghost serves = { λ _ _. Unit {0} };

    fn ends<M: Mem>(&self, m: &Machine<M>, _moment: u32) -> bool {
        is_idle(&self.firmware.memory_map, m)
    }

    #[inline(always)]
    fn goes_on_here<M: Mem>(&self, m: &Machine<M>) -> bool {
        is_busy_here(&self.firmware.memory_map, m)
    }

    fn place(&self, request: &Request) -> (u32, u32) {
        (request.sample, request.moment)
    }

    fn take<M: Mem>(
        &self,
        m: &mut Machine<M>,
        request: &Request,
        moment: u32,
        notes: &mut Notes<HandlerEnd>,
    ) {
        let frame = m.enter(request.writes.as_slice());
        let end = until_rti(m);
        notes.put(moment, frame, end);
    }
}

impl<'a> RunForm<Request, Notes<HandlerEnd>, HandledRow> for HandledForm<'a> {
    fn count(&self) -> usize {
        self.samples.len()
    }

    fn give<M: Mem>(&self, m: &mut Machine<M>, k: usize) {
        give(
            &self.firmware.memory_map,
            m,
            self.samples[k].bytes.as_slice(),
        );
    }

    fn leave<M: Mem>(&self, _m: &mut Machine<M>, _k: usize) {}

    fn room(&self, alloc: Global, count: usize) -> Result<Notes<HandlerEnd>, Memory> {
        room_for(alloc, count)
    }

    fn row<M: Mem>(&self, m: &Machine<M>, k: usize, counts: Counts<Notes<HandlerEnd>>) -> HandledRow
        requires sample { k < length (code_harness self.now.firmware.now self.now.samples.now).samples }
        requires few { (n : ℕ) × Fits counts.notes n }
        ensures { ShowsSample (code_harness self.now.firmware.now self.now.samples.now) k counts m.now.state result }
    {
        let handler = steps_in(counts.notes.told.as_slice());
        let bytes = self.samples[k].bytes.as_slice();
        let row = row_of(bytes, answers(self.firmware, m), counts).0;
        HandledRow { row, handler }
    }
}

impl<'a> SoundForm for HandledForm<'a> {
    ghost Setting = { Handled };

    ghost Sample = { List ℕ };

    ghost Request = { plan.Request };

    ghost Told = { end.HandlerEnd };

    ghost form = { λ x. with_code x.flags x.firmware };

    ghost marks = { OnStackOnly };

    ghost open_to = { λ _. is_open_to_code };

    ghost holds = { λ x. FactsBeside is_open_to_code x.flags x.firmware };

    ghost good = { λ _. IsGoodRequest };

    ghost own = { λ x. HandlerStands x.handler x.most };

    ghost sound = { λ x agree quiet. sound x agree quiet };
}
