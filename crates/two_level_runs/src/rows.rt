//! The rows of a slow firmware with fast runs inside its interrupts.
ghost use Rattle.std.specs.Prelude.{◌≡◌, ◌≤◌, map, length, IfOk};
ghost use Rattle.interrupt_plan.specs.Levels.{AreGoodLevels};
ghost use Rattle.trace_io.specs.Traces.{input_bytes};
ghost use Rattle.two_level_runs.specs.{Answering.AnswersItsBlocks, Rows.two_level_seen, Harness.row_seen};

use crate::form::TwoLevelForm;
use crate::laws::{answers_under_levels, levels_are_in_order};
use crate::serve::FastRow;
use alone_runs::Row;
use cpu12_isa::pages::PageMem;
use fz_list::Memory;
use interrupt_plan::Levels;
use run_forms::{Start, run_form};
use std::alloc::Global;
use trace_io::Sample;
use two_level_code::Two;

/// The results of the run of a slow sample, and the fast runs in its interrupts.
#[derive(Drop)]
pub struct TwoRow {
    /// The slow firmware's row.
    pub row: Row,
    /// The fast run of each interrupt in turn, if it had one.
    pub fast: Vec<Option<FastRow>>,
}

/// Runs two levels: the slow firmware over a trace, where interrupts run the fast block over the fast trace, which
/// inner interrupts interrupt in turn. Returns a row for each slow sample. Bits of `flags` supply the flags that
/// the CPU12 Reference Manual leaves undefined. All memory is allocated before the first step, and lack of memory
/// is the only error. If the firmware is that of two blocks, the rows are as
/// [`answers_under_levels`](crate::laws::answers_under_levels) states.
pub fn run_two(
    alloc: Global,
    two: &Two,
    slow: &[Sample],
    fast: &[Sample],
    levels: &Levels,
    flags: u8,
) -> Result<Vec<TwoRow>, Memory>
    requires slow_outputs { two.now.firmware.outputs ≤ 4 }
    requires fast_outputs { two.now.fast.outputs ≤ 4 }
    requires levels { AreGoodLevels (length fast.now) levels.now }
    ensures rows { IfOk result (λ rows. map row_seen rows.items
        ≡ two_level_seen two.now (map input_bytes slow.now) (map input_bytes fast.now) levels.now flags) }
    ensures answers { IfOk result (λ rows. AnswersItsBlocks two.now flags (map input_bytes slow.now)
        (map input_bytes fast.now) levels.now) }
{
    answers_under_levels();
    levels_are_in_order();
    let form = TwoLevelForm { two, slow, fast };
    let start = Start {
        image: &two.firmware.image,
        wait: two.firmware.memory_map.wait,
        most: two.firmware.step_bound,
    };
    let (rows, _memory): (Vec<TwoRow>, PageMem) = run_form(
        alloc,
        &form,
        &start,
        levels.as_slice(),
        flags,
    )?;
    Ok(rows)
}
