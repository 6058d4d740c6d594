//! A slow firmware with a fast block, as a form of runs.
ghost use Rattle.std.specs.Prelude.{ℕ, ◌≡◌, ◌≤◌, ◌<◌, List, Option, length};
ghost use Rattle.run_forms.specs.Rooms.{Fits};
ghost use Rattle.alone_runs.specs.Showing.{ShowsSample};
ghost use Rattle.two_level_runs.specs.{Runs.FastSeen, Rows.TwoLevelSeen, Rows.two_level_form};
ghost use Rattle.two_level_runs.specs.{Harness.two_level_harness};
ghost use Rattle.cpu12_emul.specs.Simulation.{OnStackOrNone};
ghost use Rattle.interrupt_plan.specs.declared.levels.Level as plan;
ghost use Rattle.interrupt_plan.specs.Levels.{IsGoodLevel};
ghost use Rattle.two_level_code.specs.{Images.slow_alone, MemoryMaps.is_open_to_fast};
ghost use Rattle.firmware_runs.specs.Facts.{FactsBeside};
ghost use Rattle.two_level_runs.specs.Levels.{Levels, FastStands};

use crate::rows::TwoRow;
use crate::serve::{FastRow, serve};
use alone_runs::row_of;
use cpu12_emul::machine::Machine;
use cpu12_isa::mem::Mem;
use firmware_runs::{answers, give, is_busy_here, is_idle};
use fz_list::Memory;
use interrupt_plan::Level;
use run_forms::{Counts, Notes, RunForm, SampleForm, room_for};
use run_law::laws::SoundForm;
use std::alloc::Global;
use trace_io::Sample;
use two_level_code::Two;

/// A slow firmware with a fast block that runs inside its interrupts, with a trace of each.
#[derive(Drop)]
pub(crate) struct TwoLevelForm<'a> {
    /// Both, of at most four outputs each.
    pub(crate) two: &'a Two,
    /// The slow trace.
    pub(crate) slow: &'a [Sample],
    /// The fast trace.
    pub(crate) fast: &'a [Sample],
    ghost slow_outputs: { two.now.firmware.outputs ≤ 4 },
    ghost fast_outputs: { two.now.fast.outputs ≤ 4 },
}

impl<'a> SampleForm<Level, Notes<Option<FastRow>>, TwoRow> for TwoLevelForm<'a> {
    ghost Given = { List ℕ };

    ghost Told = { Option FastSeen };

    ghost Shown = { TwoLevelSeen };

    ghost harness = { λ x. two_level_harness x.two.now x.slow.now x.fast.now };

    ghost fits = { Fits };

    ghost serves = { λ _ _. Unit {0} };

    fn ends<M: Mem>(&self, m: &Machine<M>, _moment: u32) -> bool {
        is_idle(&self.two.firmware.memory_map, m)
    }

    #[inline(always)]
    fn goes_on_here<M: Mem>(&self, m: &Machine<M>) -> bool {
        is_busy_here(&self.two.firmware.memory_map, m)
    }

    fn place(&self, level: &Level) -> (u32, u32) {
        (level.sample, level.moment)
    }

    fn take<M: Mem>(
        &self,
        m: &mut Machine<M>,
        level: &Level,
        moment: u32,
        notes: &mut Notes<Option<FastRow>>,
    ) {
        let (frame, told) = serve(m, self.two, self.fast, level);
        notes.put(moment, frame, told);
    }
}

impl<'a> RunForm<Level, Notes<Option<FastRow>>, TwoRow> for TwoLevelForm<'a> {
    fn count(&self) -> usize {
        self.slow.len()
    }

    fn give<M: Mem>(&self, m: &mut Machine<M>, k: usize) {
        give(
            &self.two.firmware.memory_map,
            m,
            self.slow[k].bytes.as_slice(),
        );
    }

    fn leave<M: Mem>(&self, _m: &mut Machine<M>, _k: usize) {}

    fn room(&self, alloc: Global, count: usize) -> Result<Notes<Option<FastRow>>, Memory> {
        room_for(alloc, count)
    }

    fn row<M: Mem>(
        &self,
        m: &Machine<M>,
        k: usize,
        counts: Counts<Notes<Option<FastRow>>>,
    ) -> TwoRow
        requires sample { k < length (two_level_harness self.now.two.now self.now.slow.now self.now.fast.now).samples }
        requires few { (n : ℕ) × Fits counts.notes n }
        ensures { ShowsSample (two_level_harness self.now.two.now self.now.slow.now self.now.fast.now) k counts
            m.now.state result }
    {
        let bytes = self.slow[k].bytes.as_slice();
        let (row, fast) = row_of(bytes, answers(&self.two.firmware, m), counts);
        TwoRow { row, fast }
    }
}

impl<'a> SoundForm for TwoLevelForm<'a> {
    ghost Setting = { Levels };

    ghost Sample = { List ℕ };

    ghost Request = { plan.Level };

    ghost Told = { Option FastSeen };

    ghost form = { λ x. two_level_form x.flags x.two x.samples };

    ghost marks = { OnStackOrNone };

    ghost open_to = { λ _. is_open_to_fast };

    ghost holds = { λ x. FactsBeside is_open_to_fast x.flags (slow_alone x.slow x.two) };

    ghost good = { λ x. IsGoodLevel (length x.samples) };

    ghost own = { λ x. FastStands x.fast x.two x.samples };

    ghost sound = { λ x agree quiet. x.sound agree quiet };
}
