//! The rows of a firmware whose interrupts run code.
ghost use Rattle.std.specs.Prelude.{ℕ, ◌≡◌, ◌≤◌, map, IfOk};
ghost use Rattle.handler_check.specs.Images.{IsHandler};
ghost use Rattle.interrupt_plan.specs.Plans.{IsGood};
ghost use Rattle.trace_io.specs.Traces.{input_bytes};
ghost use Rattle.handled_runs.specs.{Forms.row_seen, Forms.handled_seen, Answering.HandlesItsBlock};

use crate::form::HandledForm;
use crate::joint::joint_image;
use crate::laws::handled_answers;
use alone_runs::Row;
use alone_runs::laws::plans_are_in_order;
use cpu12_asm::Image;
use cpu12_emul::laws::images_load_alike;
use cpu12_isa::pages::PageMem;
use firmware_code::Firmware;
use fz_list::Memory;
use interrupt_plan::Plan;
use run_forms::{Start, run_form};
use std::alloc::Global;
use trace_io::Sample;

/// The results of a sample's run, and how many steps of the handler the interrupts of the sample did.
#[derive(Drop)]
pub struct HandledRow {
    pub row: Row,
    pub handler: u32,
}

/// Runs a firmware over a trace under a plan, where each interrupt runs the code of a handler's image, up to its
/// RTI or to the limit for all handlers, and returns a row for each sample. Bits of `flags` supply the flags that
/// the CPU12 Reference Manual leaves undefined. If the image is an accepted handler and the firmware a block's,
/// the rows are those of `alone_runs::run`, and each interrupt reaches its RTI, after at most as many steps as the
/// handler has instructions on a path. Lack of memory is the only error.
pub fn run_handler(
    alloc: Global,
    firmware: &Firmware,
    image: &Image,
    samples: &[Sample],
    plan: &Plan,
    flags: u8,
) -> Result<Vec<HandledRow>, Memory>
    requires outputs { firmware.now.outputs ≤ 4 }
    requires plan { IsGood plan.now }
    ensures rows { IfOk result (λ rows. map row_seen rows.items
        ≡ handled_seen firmware.now image.now.bytes (map input_bytes samples.now) plan.now flags) }
    ensures answers { (instrs : ℕ) → IsHandler image.now.bytes instrs
        → IfOk result (λ rows. HandlesItsBlock firmware.now image.now.bytes instrs flags
        (map input_bytes samples.now) plan.now (map row_seen rows.items)) }
{
    plans_are_in_order();
    images_load_alike();
    handled_answers();
    let joint = joint_image(alloc, &firmware.image, image)?;
    let form = HandledForm { firmware, samples };
    let start = Start {
        image: &joint,
        wait: firmware.memory_map.wait,
        most: firmware.step_bound,
    };
    let (rows, _memory): (Vec<HandledRow>, PageMem) = run_form(
        alloc,
        &form,
        &start,
        plan.as_slice(),
        flags,
    )?;
    Ok(rows)
}
