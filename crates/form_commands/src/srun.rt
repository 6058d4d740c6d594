//! The commands `srun FCL IMAGE CERT TRACE PLAN UPSETS FLAGS` and `tsrun ..`: the run of a firmware with watched
//! tables, whose bytes are upset.
ghost use Rattle.std.specs.Prelude.{◌≡◌, ◌≤◌, ◌++◌, length, IfOk, IfErr};
ghost use Rattle.std.specs.List.{All};
ghost use Rattle.interrupt_plan.specs.{Plans.IsGood, Upsets.AreGoodUpsets, UpsetTexts.SpellsUpsets};
ghost use Rattle.fz_status.specs.{Refusals.IsRefusal};
ghost use Rattle.command_parts.specs.{Contents.bytes_of, Lines.counted, Readings.IsRefused};
ghost use Rattle.command_parts.specs.SeenOutputs.{IsResultOf};
ghost use Rattle.form_commands.specs.Srun.{SrunMakes, srun_lines, watched_files, watched_report, watched_row_lines};
ghost use Rattle.run_reports.specs.{RowLines.begun_lines, WatchedRun.AcceptsWatched, WatchedRun.upset_refusals};
ghost use Rattle.run_reports.specs.WatchedRun.{watched_reading};
ghost use Rattle.run_reports.specs.{Settled.PutsLines, declared.files.WatchedFiles.WatchedFiles};
ghost use Rattle.watched_runs.specs.Rows.{row_seen};

use crate::form_run::FormRun;
use crate::laws::srun_is_settled;
use box_tree::{CertFormat, CertKind};
use byte_scaling::Width;
use command_parts::contents::Content;
use command_parts::firmware::{Compiled, Form, firmware_of};
use command_parts::images::require_image;
use command_parts::output::Output;
use cpu12_asm::Image;
use fz_shelf::Line;
use fz_status::Status;
use interrupt_plan::{Upsets, read_upsets};
use run_reports::files::{InputFiles, WatchedFiles};
use run_reports::inputs::{Inputs, inputs_of};
use run_reports::row_lines::{begun, push_labelled_row};
use std::alloc::{AllocError, Global};
use watched_runs::{WatchedRow, run_upsets};

/// The indices of the words FCL, IMAGE, CERT, TRACE, PLAN and UPSETS.
pub static INPUTS: [u32; 6] = [2, 3, 4, 5, 6, 7];

/// The index of the word FLAGS.
pub const FLAGS: u32 = 8;

/// The contents of the files of [`INPUTS`], by name.
pub fn files_of(contents: &[Vec<u8>]) -> WatchedFiles<'_>
    requires { All (λ c. length c.items ≤ 1048576) contents.now }
    ensures { result ≡ watched_files (bytes_of contents.now) }
{
    WatchedFiles {
        fcl: Content::at(contents, 0),
        image: Content::at(contents, 1),
        inputs: InputFiles {
            cert: Content::at(contents, 2),
            trace: Content::at(contents, 3),
            plan: Content::at(contents, 4),
        },
        upsets: Content::at(contents, 5),
    }
}

/// What the files give, if all of them are accepted.
#[derive(Drop)]
struct Accepted {
    compiled: Compiled,
    inputs: Inputs,
    upsets: Upsets,
}

impl Accepted {
    /// What the files give, or the first fault in their order.
    fn of(alloc: Global, kind: CertKind, files: &WatchedFiles) -> Result<Accepted, Status>
        ensures accepted { IfOk result (λ a. AcceptsWatched kind files.now
            a.compiled.block a.compiled.firmware a.inputs.errors.items a.inputs.samples.items a.inputs.plan
            a.upsets) }
        ensures fault { IfErr result (IsRefused (watched_reading kind files.now)) }
    {
        let compiled = firmware_of(alloc, Form::Watched, &files.fcl)?;
        require_image(alloc, &files.image, &compiled.firmware.image)?;
        let format = CertFormat {
            kind,
            width: Width::Byte,
        };
        let inputs = inputs_of(alloc, format, &compiled.block, &files.inputs)?;
        let upsets = upsets_of(alloc, &files.upsets, &compiled.firmware.image)?;
        Ok(Accepted {
            compiled,
            inputs,
            upsets,
        })
    }

    /// The lines of the run.
    fn output(&self, alloc: Global, flags: u8) -> Result<Output, Status>
        requires outputs { self.now.compiled.firmware.outputs ≤ 4 }
        requires plan { IsGood self.now.inputs.plan }
        requires upsets { AreGoodUpsets self.now.compiled.firmware.image.bytes self.now.upsets }
        ensures { PutsLines (srun_lines (watched_report flags self.now.compiled self.now.inputs.errors.items
            self.now.inputs.samples.items self.now.inputs.plan self.now.upsets)) result }
    {
        let firmware = &self.compiled.firmware;
        let rows = run_upsets(
            alloc,
            firmware,
            &self.inputs.samples,
            &self.inputs.plan,
            &self.upsets,
            flags,
        )?;
        let lines = lines(alloc, &self.inputs.errors, firmware.instr_bound, &rows)?;
        Ok(Output { lines, file: None })
    }
}

/// Checks all files, then runs the samples of the trace under the plan, each with its upset. The output has the
/// lines of the run.
pub fn work(alloc: Global, run: FormRun, files: &WatchedFiles) -> Result<Output, Status>
    ensures { IsResultOf (SrunMakes run files.now) result }
{
    srun_is_settled();
    let accepted = Accepted::of(alloc, run.kind, files)?;
    accepted.output(alloc, run.flags)
}

/// The upsets of an image's tables that a text spells.
fn upsets_of(alloc: Global, text: &Content, image: &Image) -> Result<Upsets, Status>
    ensures upsets { IfOk result (SpellsUpsets image.now.bytes text.now) }
    ensures fault { IfErr result (IsRefusal (upset_refusals image.now.bytes text.now)) }
{
    Ok(read_upsets(alloc, text.bytes(), image)?)
}

/// The lines of the errors, the bound on instructions, and each sample with its frames.
fn lines(
    alloc: Global,
    errors: &[u32],
    bound: u32,
    rows: &[WatchedRow],
) -> Result<Vec<Line>, AllocError>
    ensures { IfOk result (λ lines. lines.items
        ≡ begun_lines errors.now bound ++ counted (λ k r. watched_row_lines k (row_seen r)) 1 rows.now) }
{
    let mut lines = begun(alloc, errors, bound)?;
    for (at, row) in rows.iter().enumerate() {
        let fault = u32::from(row.fault);
        push_labelled_row(alloc, &mut lines, at + 1, &row.row, " fault ", fault)?;
    }
    Ok(lines)
}
