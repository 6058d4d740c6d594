//! A workload from a number.
ghost use Rattle.std.specs.Prelude.{◌≤◌, length, IfOk};
ghost use Rattle.workload.specs.Workloads.{IsWorkload};

use crate::blocks::block_of;
use crate::draws::Draws;
use crate::laws::drawn_texts_spell_blocks;
use crate::plans::{PlanText, drawn_plan};
use crate::texts::text_of;
use crate::traces::{Trace, drawn_trace};
use fuzzy_meaning::Block;
use fz_list::Memory;
use interrupt_plan::Plan;
use std::alloc::{AllocError, Global};
use trace_io::Sample;

/// An FCL text with 81 rules over two inputs, 1000 samples of it, and a request in each sample.
#[derive(Drop)]
pub struct Workload {
    pub text: Vec<u8>,
    pub trace: Vec<u8>,
    pub plan: Vec<u8>,
    /// The block that the text spells.
    pub block: Block,
    /// The samples of the trace.
    pub samples: Vec<Sample>,
    /// The requests of the plan.
    pub requests: Plan,
}

/// The workload of a number. Its texts are written and not read back: what they spell is proved.
pub fn generate(alloc: Global, number: u32) -> Result<Workload, Memory>
    ensures workload { IfOk result (λ w.
        IsWorkload number w.text.items w.trace.items w.plan.items w.block w.samples.items w.requests) }

    // no text is longer than a file may be
    ensures short_text { IfOk result (λ w. length w.text.items ≤ 1048576) }
    ensures short_trace { IfOk result (λ w. length w.trace.items ≤ 1048576) }
    ensures short_plan { IfOk result (λ w. length w.plan.items ≤ 1048576) }
{
    workload_of(alloc, number).map_err(|_| Memory)
}

/// The same, with the allocator's error.
fn workload_of(alloc: Global, number: u32) -> Result<Workload, AllocError>
    ensures workload { IfOk result (λ w.
        IsWorkload number w.text.items w.trace.items w.plan.items w.block w.samples.items w.requests) }
    ensures short_text { IfOk result (λ w. length w.text.items ≤ 1048576) }
    ensures short_trace { IfOk result (λ w. length w.trace.items ≤ 1048576) }
    ensures short_plan { IfOk result (λ w. length w.plan.items ≤ 1048576) }
{
    drawn_texts_spell_blocks();
    let mut draws = Draws::of(number);
    let shift = draws.shift();
    let text = text_of(alloc, shift)?;
    let block = block_of(alloc, shift)?;
    let input = &block.inputs.as_slice()[0];
    let Trace {
        text: trace,
        samples,
    } = drawn_trace(alloc, &mut draws, input)?;
    let PlanText {
        text: plan,
        requests,
    } = drawn_plan(alloc, &mut draws)?;
    Ok(Workload {
        text,
        trace,
        plan,
        block,
        samples,
        requests,
    })
}
