//! Runs of a firmware with watched tables under upsets.
ghost use Rattle.std.specs.Prelude.{ℕ, ◌≡◌, ◌≤◌, map, IfOk};
ghost use Rattle.interrupt_plan.specs.{Plans.IsGood, Upsets.AreGoodUpsets};
ghost use Rattle.trace_io.specs.Traces.{input_bytes};
ghost use Rattle.watched_runs.specs.{Rows.row_seen, Rows.upset_rows, Rows.faults_of, Answering.AnswersItsSamples};

use crate::form::{WatchedForm, WatchedRow};
use crate::laws::answers_under_all_upsets;
use crate::upsets::ascending;
use alone_runs::laws::plans_are_in_order;
use cpu12_isa::pages::PageMem;
use firmware_code::Firmware;
use fz_list::Memory;
use interrupt_plan::{Plan, Upsets};
use run_forms::{Start, run_form};
use std::alloc::Global;
use trace_io::Sample;

/// Runs firmware with watched tables over a trace under a plan, with upsets: during the sample with an upset's
/// number, counted from 1, the upset's byte holds its value, and afterwards the image's byte is restored. Returns
/// a row for each sample. Bits of `flags` supply the flags that the CPU12 Reference Manual leaves undefined. All
/// memory is allocated before the first step, and lack of memory is the only error.
///
/// If the firmware is that of a block with watched tables, a sample without an upset, or with one whose value is
/// the image's byte, is answered as the block answers it over bytes, with FAULT 0, and each other sample by the
/// outputs' defaults, or with NC by the byte before, with FAULT 1.
pub fn run_upsets(
    alloc: Global,
    firmware: &Firmware,
    samples: &[Sample],
    plan: &Plan,
    upsets: &Upsets,
    flags: u8,
) -> Result<Vec<WatchedRow>, Memory>
    requires outputs { firmware.now.outputs ≤ 4 }
    requires plan { IsGood plan.now }
    requires upsets { AreGoodUpsets firmware.now.image.bytes upsets.now }
    ensures rows { IfOk result (λ rows. map row_seen rows.items
        ≡ faults_of firmware.now (upset_rows firmware.now (map input_bytes samples.now) plan.now upsets.now flags)) }
    ensures answers { IfOk result (λ rows. AnswersItsSamples firmware.now flags (map input_bytes samples.now) plan.now
        upsets.now (map row_seen rows.items)) }
{
    answers_under_all_upsets();
    plans_are_in_order();
    let upsets = ascending(upsets);
    let form = WatchedForm {
        firmware,
        samples,
        upsets,
    };
    let start = Start {
        image: &firmware.image,
        wait: firmware.memory_map.wait,
        most: firmware.step_bound,
    };
    let (rows, _memory): (Vec<WatchedRow>, PageMem) = run_form(
        alloc,
        &form,
        &start,
        plan.as_slice(),
        flags,
    )?;
    Ok(rows)
}
