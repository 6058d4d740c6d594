//! The commands `hrun FCL HANDLER CERT TRACE PLAN FLAGS` and `thrun ..`: the certified run whose interrupts run a
//! handler's code.
ghost use Rattle.std.specs.Prelude.{◌≡◌, ◌≤◌, ◌++◌, length, IfOk, IfErr};
ghost use Rattle.std.specs.List.{All};
ghost use Rattle.command_parts.specs.{Contents.bytes_of, Lines.counted, Readings.IsRefused};
ghost use Rattle.command_parts.specs.SeenOutputs.{IsResultOf};
ghost use Rattle.run_reports.specs.{HandledRun.AcceptsHandled, HandledRun.handled_reading, RowLines.begun_lines};
ghost use Rattle.run_reports.specs.{Settled.PutsLines, declared.files.HandledFiles.HandledFiles};
ghost use Rattle.interrupt_plan.specs.Plans.{IsGood};
ghost use Rattle.form_commands.specs.Hrun.{HrunMakes, handled_files, handled_report, handled_row_lines, hrun_lines};
ghost use Rattle.handled_runs.specs.Forms.{row_seen};

use crate::form_run::FormRun;
use crate::laws::hrun_is_settled;
use box_tree::{CertFormat, CertKind};
use byte_scaling::Width;
use command_parts::contents::Content;
use command_parts::firmware::{Compiled, Form, firmware_of};
use command_parts::handlers::{AcceptedHandler, handler_of};
use command_parts::output::Output;
use fz_shelf::Line;
use fz_status::Status;
use handled_runs::{HandledRow, run_handler};
use run_reports::files::{HandledFiles, InputFiles};
use run_reports::inputs::{Inputs, inputs_of};
use run_reports::row_lines::{begun, push_labelled_row};
use std::alloc::{AllocError, Global};

/// The indices of the words FCL, HANDLER, CERT, TRACE and PLAN.
pub static INPUTS: [u32; 5] = [2, 3, 4, 5, 6];

/// The index of the word FLAGS.
pub const FLAGS: u32 = 7;

/// The contents of the files of [`INPUTS`], by name.
pub fn files_of(contents: &[Vec<u8>]) -> HandledFiles<'_>
    requires { All (λ c. length c.items ≤ 1048576) contents.now }
    ensures { result ≡ handled_files (bytes_of contents.now) }
{
    HandledFiles {
        fcl: Content::at(contents, 0),
        handler: Content::at(contents, 1),
        inputs: InputFiles {
            cert: Content::at(contents, 2),
            trace: Content::at(contents, 3),
            plan: Content::at(contents, 4),
        },
    }
}

/// What the files give, if all of them are accepted.
#[derive(Drop)]
struct Accepted {
    compiled: Compiled,
    handler: AcceptedHandler,
    inputs: Inputs,
}

impl Accepted {
    /// What the files give, or the first fault in their order.
    fn of(alloc: Global, kind: CertKind, files: &HandledFiles) -> Result<Accepted, Status>
        ensures accepted { IfOk result (λ a. AcceptsHandled kind files.now a.compiled.block
            a.compiled.firmware a.handler.image a.handler.handler.instrs a.inputs.errors.items
            a.inputs.samples.items a.inputs.plan) }
        ensures fault { IfErr result (IsRefused (handled_reading kind files.now)) }
    {
        let compiled = firmware_of(alloc, Form::Alone(Width::Byte), &files.fcl)?;
        let handler = handler_of(alloc, &files.handler)?;
        let format = CertFormat {
            kind,
            width: Width::Byte,
        };
        let inputs = inputs_of(alloc, format, &compiled.block, &files.inputs)?;
        Ok(Accepted {
            compiled,
            handler,
            inputs,
        })
    }

    /// The lines of the run.
    fn output(&self, alloc: Global, flags: u8) -> Result<Output, Status>
        requires outputs { self.now.compiled.firmware.outputs ≤ 4 }
        requires plan { IsGood self.now.inputs.plan }
        ensures { PutsLines (hrun_lines (handled_report flags self.now.compiled self.now.handler
            self.now.inputs.errors.items self.now.inputs.samples.items self.now.inputs.plan)) result }
    {
        let firmware = &self.compiled.firmware;
        let rows = run_handler(
            alloc,
            firmware,
            &self.handler.image,
            &self.inputs.samples,
            &self.inputs.plan,
            flags,
        )?;
        let lines = lines(alloc, &self.inputs.errors, firmware.instr_bound, &rows)?;
        Ok(Output { lines, file: None })
    }
}

/// Checks all files, then runs the samples of the trace under the plan, whose interrupts run the handler's code.
/// The output has the lines of the run.
pub fn work(alloc: Global, run: FormRun, files: &HandledFiles) -> Result<Output, Status>
    ensures { IsResultOf (HrunMakes run files.now) result }
{
    hrun_is_settled();
    let accepted = Accepted::of(alloc, run.kind, files)?;
    accepted.output(alloc, run.flags)
}

/// The lines of the errors, the bound on instructions, and each sample with its frames.
fn lines(
    alloc: Global,
    errors: &[u32],
    bound: u32,
    rows: &[HandledRow],
) -> Result<Vec<Line>, AllocError>
    ensures { IfOk result (λ lines. lines.items
        ≡ begun_lines errors.now bound ++ counted (λ k r. handled_row_lines k (row_seen r)) 1 rows.now) }
{
    let mut lines = begun(alloc, errors, bound)?;
    for (at, row) in rows.iter().enumerate() {
        let handler = row.handler;
        push_labelled_row(alloc, &mut lines, at + 1, &row.row, " handler ", handler)?;
    }
    Ok(lines)
}
