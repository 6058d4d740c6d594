//! The commands `run FCL IMAGE CERT TRACE PLAN FLAGS`, `run16 ..`, `trun ..` and `trun16 ..`: the certified run.
ghost use Rattle.std.specs.Prelude.{◌≡◌, ◌≤◌, length, map, IfOk, IfErr};
ghost use Rattle.std.specs.List.{All};
ghost use Rattle.alone_runs.specs.Rows.{row_seen};
ghost use Rattle.fz_status.specs.Words.{texts_of};
ghost use Rattle.command_parts.specs.{Contents.bytes_of, Readings.IsRefused};
ghost use Rattle.command_parts.specs.SeenOutputs.{IsResultOf};
ghost use Rattle.run_reports.specs.{CertifiedRun.AcceptsRun, CertifiedRun.run_reading, Reports.report_of};
ghost use Rattle.run_reports.specs.{Reports.left_of, RowLines.run_lines};
ghost use Rattle.run_reports.specs.declared.files.RunFiles.{RunFiles};
ghost use Rattle.run_reports.specs.Settled.{PutsLines};
ghost use Rattle.interrupt_plan.specs.Plans.{IsGood};
ghost use Rattle.run_commands.specs.Run.{RunMakes, files_in, run_in, run_told};

use crate::laws::run_is_settled;
use alone_runs::{Row, run_on};
use box_tree::CertFormat;
use command_parts::contents::Content;
use command_parts::firmware::{Compiled, Form, firmware_of};
use command_parts::images::require_image;
use command_parts::output::Output;
use command_parts::words::flags;
use cpu12_isa::mem::Mem;
use cpu12_isa::pages::PageMem;
use fz_shelf::Line;
use fz_status::{Status, word};
use run_reports::files::{InputFiles, RunFiles};
use run_reports::inputs::{Inputs, inputs_of};
use run_reports::row_lines::{begun, push_labelled, push_rows};
use std::alloc::{AllocError, Global};

/// `run FCL IMAGE CERT TRACE PLAN FLAGS`, `trun ..` under tight certificates, and both with `16` for answers
/// of 16 bits.
#[derive(Clone, Copy)]
pub struct Run {
    /// The format of the certificate, whose width is that of the firmware's answers.
    format: CertFormat,
    /// The byte from which the open flags are taken.
    flags: u8,
}

/// The indices of the words FCL, IMAGE, CERT, TRACE and PLAN.
pub static INPUTS: [u32; 5] = [2, 3, 4, 5, 6];

/// The index of the word FLAGS.
const FLAGS: u32 = 7;

/// The contents of the files of [`INPUTS`], by name.
pub fn files_of(contents: &[Vec<u8>]) -> RunFiles<'_>
    requires { All (λ c. length c.items ≤ 1048576) contents.now }
    ensures { result ≡ files_in (bytes_of contents.now) }
{
    RunFiles {
        fcl: Content::at(contents, 0),
        image: Content::at(contents, 1),
        inputs: InputFiles {
            cert: Content::at(contents, 2),
            trace: Content::at(contents, 3),
            plan: Content::at(contents, 4),
        },
    }
}

/// What the files give, if all of them are accepted.
#[derive(Drop)]
struct Accepted {
    compiled: Compiled,
    inputs: Inputs,
}

impl Accepted {
    /// What the files give, or the first fault in their order.
    fn of(alloc: Global, run: Run, files: &RunFiles) -> Result<Accepted, Status>
        ensures accepted { IfOk result (λ a. AcceptsRun run.format files.now a.compiled.block
            a.compiled.firmware a.inputs.errors.items a.inputs.samples.items a.inputs.plan) }
        ensures fault { IfErr result (IsRefused (run_reading run.format files.now)) }
    {
        let compiled = firmware_of(alloc, Form::Alone(run.format.width), &files.fcl)?;
        require_image(alloc, &files.image, &compiled.firmware.image)?;
        let inputs = inputs_of(alloc, run.format, &compiled.block, &files.inputs)?;
        Ok(Accepted { compiled, inputs })
    }

    /// The lines of the run.
    fn output(&self, alloc: Global, flags: u8) -> Result<Output, Status>
        requires outputs { self.now.compiled.firmware.outputs ≤ 4 }
        requires plan { IsGood self.now.inputs.plan }
        ensures { PutsLines (run_told flags self.now.compiled self.now.inputs.errors.items
            self.now.inputs.samples.items self.now.inputs.plan) result }
    {
        let firmware = &self.compiled.firmware;
        let (rows, memory) = run_on::<PageMem>(
            alloc,
            firmware,
            &self.inputs.samples,
            &self.inputs.plan,
            flags,
        )?;
        let bound = firmware.instr_bound;
        let left = left_in(&memory);
        let lines = lines(alloc, &self.inputs.errors, bound, &rows, left)?;
        Ok(Output { lines, file: None })
    }
}

impl Run {
    /// The command of these words.
    pub fn of(format: CertFormat, words: &[String]) -> Option<Run>
        ensures { result ≡ run_in format (texts_of words.now) }
    {
        let flags = flags(word(words, FLAGS))?;
        Some(Run { format, flags })
    }

    /// Checks all files, then runs the samples of the trace under the plan. The output has the lines of
    /// the run.
    pub fn work(self, alloc: Global, files: &RunFiles) -> Result<Output, Status>
        ensures { IsResultOf (RunMakes self files.now) result }
    {
        run_is_settled();
        let accepted = Accepted::of(alloc, self, files)?;
        accepted.output(alloc, self.flags)
    }
}

/// The lines of the errors, the bound on instructions, each sample with its frames, and the sum.
fn lines(
    alloc: Global,
    errors: &[u32],
    bound: u32,
    rows: &[Row],
    left: u32,
) -> Result<Vec<Line>, AllocError>
    ensures { IfOk result (λ lines. lines.items
        ≡ run_lines (report_of errors.now bound (map row_seen rows.now)) left) }
{
    let mut lines = begun(alloc, errors, bound)?;
    push_rows(alloc, &mut lines, rows)?;
    push_labelled(alloc, &mut lines, "left ", u128::from(left))?;
    Ok(lines)
}

/// The sum of the bytes from the first free one to the end of the stack.
fn left_in<M: Mem>(memory: &M) -> u32
    ensures { result ≡ left_of (M.bytes memory.now) }
{
    let mut sum = 0u32;
    for at in 0x1800..0x2000u16 {
        sum += u32::from(memory.read(at));
    }
    sum
}
