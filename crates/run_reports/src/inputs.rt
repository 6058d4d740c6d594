//! The files that runs share: CERT, TRACE and PLAN.
ghost use Rattle.std.specs.Prelude.{IfOk, IfErr};
ghost use Rattle.fuzzy_meaning.specs.Blocks.{IsValid};
ghost use Rattle.interrupt_plan.specs.Plans.{Spells as SpellsPlan};
ghost use Rattle.trace_io.specs.Traces.{Spells};
ghost use Rattle.fz_status.specs.Refusals.{IsRefusal};
ghost use Rattle.command_parts.specs.Readings.{IsRefused};
ghost use Rattle.run_reports.specs.Inputs.{AcceptsInputs, inputs_reading, plan_in, trace_refusals};

use crate::files::InputFiles;
use box_tree::CertFormat;
use command_parts::certs::errors_under;
use command_parts::contents::Content;
use fuzzy_meaning::Block;
use fz_status::Status;
use interrupt_plan::{Plan, read_plan};
use std::alloc::Global;
use trace_io::{Sample, read_trace};

/// What a certificate, a trace and a plan give, if all three are accepted.
#[derive(Drop)]
pub struct Inputs {
    /// The error of each output under the certificate.
    pub errors: Vec<u32>,
    /// The samples of the trace.
    pub samples: Vec<Sample>,
    /// The requests of the plan.
    pub plan: Plan,
}

/// What CERT, TRACE and PLAN give, or the first fault in their order.
pub fn inputs_of(
    alloc: Global,
    format: CertFormat,
    block: &Block,
    files: &InputFiles,
) -> Result<Inputs, Status>
    requires { IsValid block.now }
    ensures inputs { IfOk result (λ i.
        AcceptsInputs format block.now files.now i.errors.items i.samples.items i.plan) }
    ensures fault { IfErr result (IsRefused (inputs_reading format block.now files.now)) }
{
    let errors = errors_under(alloc, format, block, &files.cert)?;
    let samples = samples_of(alloc, block, &files.trace)?;
    let plan = plan_of(alloc, &files.plan)?;
    Ok(Inputs {
        errors,
        samples,
        plan,
    })
}

/// The samples that a trace spells for a block.
pub fn samples_of(alloc: Global, block: &Block, text: &Content) -> Result<Vec<Sample>, Status>
    requires { IsValid block.now }
    ensures samples { IfOk result (λ samples. Spells block.now.inputs text.now samples.items) }
    ensures fault { IfErr result (IsRefusal (trace_refusals block.now text.now)) }
{
    Ok(read_trace(alloc, text.bytes(), block)?)
}

/// The plan that a text spells.
pub fn plan_of(alloc: Global, text: &Content) -> Result<Plan, Status>
    ensures plan { IfOk result (SpellsPlan text.now) }
    ensures fault { IfErr result (IsRefusal (plan_in text.now).refuses) }
{
    Ok(read_plan(alloc, text.bytes())?)
}
