//! A firmware with watched tables, as a form of runs.
ghost use Rattle.std.specs.Prelude.{ℕ, ◌≡◌, ◌<◌, ◌≤◌, ◌+◌, List, Some, length, map, slice_get};
ghost use Rattle.run_forms.specs.Rooms.{Fits};
ghost use Rattle.alone_runs.specs.Showing.{ShowsSample};
ghost use Rattle.trace_io.specs.Traces.{input_bytes};
ghost use Rattle.watched_code.specs.Watched as tables;
ghost use Rattle.watched_runs.specs.{Rows.FaultSeen, Rows.watched_harness, Samples.AscendThroughout};
ghost use Rattle.cpu12_isa.specs.Regions.{is_free};
ghost use Rattle.cpu12_emul.specs.Simulation.{OnStackOnly};
ghost use Rattle.interrupt_plan.specs.Plans.{IsGoodRequest};
ghost use Rattle.interrupt_plan.specs.declared.Request as plan;
ghost use Rattle.alone_runs.specs.Following.{Alone, Nothing};
ghost use Rattle.watched_runs.specs.{Forms.watched_form, Forms.FactsWatched, SoundWatchedProof.sound};

use crate::upsets::{change, restore, upset_of};
use alone_runs::{Row, row_of};
use cpu12_emul::machine::Machine;
use cpu12_isa::mem::Mem;
use firmware_code::Firmware;
use firmware_runs::{answers, give, is_busy_here, is_idle};
use fz_list::Memory;
use interrupt_plan::{Request, Upset};
use run_forms::{Counts, Notes, RunForm, SampleForm, room_for};
use run_law::laws::SoundForm;
use std::alloc::Global;
use trace_io::Sample;
use watched_code::FAULT;

/// The results of a sample's run, and FAULT at its end.
#[derive(Drop)]
pub struct WatchedRow {
    /// The row.
    pub row: Row,
    /// The byte at FAULT: 1 if a byte of the tables differed from the image's, and else 0.
    pub fault: u8,
}

/// A firmware with watched tables, with a trace and upsets. Its handler does the writes that a request lists.
#[derive(Drop)]
pub struct WatchedForm<'a> {
    /// The firmware, of at most four outputs.
    pub firmware: &'a Firmware,
    /// The trace.
    pub samples: &'a [Sample],
    /// The upsets of its samples, at most one byte in each.
    pub upsets: &'a [Upset],
    ghost outputs: { firmware.now.outputs ≤ 4 },
    ghost ascend: { AscendThroughout upsets.now },
}

/// The bytes of a sample, at most eight.
fn bytes_of(samples: &[Sample], k: usize) -> &[u8]
    requires { k < length samples.now }
    ensures bytes { (bytes : List ℕ) → slice_get (map input_bytes samples.now) k ≡ Some bytes → result.now ≡ bytes }
    ensures few { length result.now ≤ 8 }
{
    samples[k].bytes.as_slice()
}

/// The number of sample `k`, counted from 1.
fn number_of(samples: &[Sample], k: usize) -> usize
    requires { k < length samples.now }
    ensures { result ≡ k + 1 }
{
    k + 1
}

impl<'a> SampleForm<Request, Notes<()>, WatchedRow> for WatchedForm<'a> {
    ghost Given = { tables.Watched };

    ghost Told = { Unit {0} };

    ghost Shown = { FaultSeen };

    ghost harness = { λ x. watched_harness x.firmware.now x.samples.now x.upsets.now };

    ghost fits = { Fits };

    ghost serves = { λ _ _. Unit {0} };

    fn ends<M: Mem>(&self, m: &Machine<M>, _moment: u32) -> bool {
        is_idle(&self.firmware.memory_map, m)
    }

    #[inline(always)]
    fn goes_on_here<M: Mem>(&self, m: &Machine<M>) -> bool {
        is_busy_here(&self.firmware.memory_map, m)
    }

    fn place(&self, request: &Request) -> (u32, u32) {
        (request.sample, request.moment)
    }

    fn take<M: Mem>(
        &self,
        m: &mut Machine<M>,
        request: &Request,
        moment: u32,
        notes: &mut Notes<()>,
    ) {
        let frame = m.interrupt(request.writes.as_slice());
        notes.put(moment, frame, ());
    }
}

impl<'a> RunForm<Request, Notes<()>, WatchedRow> for WatchedForm<'a> {
    fn count(&self) -> usize {
        self.samples.len()
    }

    fn give<M: Mem>(&self, m: &mut Machine<M>, k: usize) {
        give(&self.firmware.memory_map, m, bytes_of(self.samples, k));
        change(m, upset_of(self.upsets, number_of(self.samples, k)));
    }

    fn leave<M: Mem>(&self, m: &mut Machine<M>, k: usize) {
        restore(
            m,
            &self.firmware.image,
            upset_of(self.upsets, number_of(self.samples, k)),
        );
    }

    fn room(&self, alloc: Global, count: usize) -> Result<Notes<()>, Memory> {
        room_for(alloc, count)
    }

    fn row<M: Mem>(&self, m: &Machine<M>, k: usize, counts: Counts<Notes<()>>) -> WatchedRow
        requires sample { k
            < length (watched_harness self.now.firmware.now self.now.samples.now self.now.upsets.now).samples }
        requires few { (n : ℕ) × Fits counts.notes n }
        ensures { ShowsSample (watched_harness self.now.firmware.now self.now.samples.now self.now.upsets.now) k counts
            m.now.state result }
    {
        let answers = answers(self.firmware, m);
        WatchedRow {
            row: row_of(bytes_of(self.samples, k), answers, counts).0,
            fault: m.peek(FAULT),
        }
    }
}

impl<'a> SoundForm for WatchedForm<'a> {
    ghost Setting = { Alone };

    ghost Sample = { tables.Watched };

    ghost Request = { plan.Request };

    ghost Told = { Unit {0} };

    ghost form = { λ x. watched_form x.flags x.firmware };

    ghost marks = { OnStackOnly };

    ghost open_to = { λ _. is_free };

    ghost holds = { λ x. FactsWatched x.flags };

    ghost good = { λ _. IsGoodRequest };

    ghost own = { λ _. Nothing };

    ghost sound = { λ x agree quiet. sound x.flags x.firmware x.low agree quiet };
}
