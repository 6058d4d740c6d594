//! The commands `lrun SLOW FAST IMAGE SCERT FCERT STRACE FTRACE LEVELS FLAGS` and `tlrun ..`: the run of two blocks at
//! two levels.
ghost use Rattle.std.specs.Prelude.{◌≡◌, ◌≤◌, length, IfOk, IfErr};
ghost use Rattle.std.specs.List.{All};
ghost use Rattle.fuzzy_meaning.specs.Blocks.{IsValid};
ghost use Rattle.interrupt_plan.specs.Levels.{AreGoodLevels, SpellsLevels};
ghost use Rattle.fz_status.specs.{Refusals.IsRefusal};
ghost use Rattle.command_parts.specs.Contents.{bytes_of};
ghost use Rattle.command_parts.specs.SeenOutputs.{IsResultOf};
ghost use Rattle.trace_io.specs.Traces.{Spells as SpellsTrace};
ghost use Rattle.command_parts.specs.{Certs.AcceptsCert, Certs.cert_in, Readings.IsRefused, Readings.for_fast};
ghost use Rattle.run_reports.specs.{Inputs.trace_in, TwoLevelRun.AcceptsTwoLevelInputs, TwoLevelRun.two_level_inputs};
ghost use Rattle.run_reports.specs.TwoLevelRun.{levels_in};
ghost use Rattle.run_reports.specs.{Settled.PutsLines, declared.files.TwoLevelFiles.TwoLevelFiles};
ghost use Rattle.form_commands.specs.Lrun.{LrunMakes, two_level_files, two_level_run, lrun_lines};

use crate::form_run::FormRun;
use crate::laws::lrun_is_settled;
use crate::two_level_lines::lines;
use box_tree::{CertFormat, CertKind};
use byte_scaling::Width;
use command_parts::certs::errors_under;
use command_parts::contents::Content;
use command_parts::images::require_image;
use command_parts::output::Output;
use command_parts::twos::{CompiledTwoLevel, two_of};
use fuzzy_meaning::Block;
use fz_status::Status;
use interrupt_plan::{Levels, read_levels};
use run_reports::files::TwoLevelFiles;
use run_reports::inputs::samples_of;
use run_reports::laws::spelled_traces_are_short;
use std::alloc::Global;
use trace_io::Sample;
use two_level_runs::run_two;

/// The indices of the words SLOW, FAST, IMAGE, SCERT, FCERT, STRACE, FTRACE and LEVELS.
pub static INPUTS: [u32; 8] = [2, 3, 4, 5, 6, 7, 8, 9];

/// The index of the word FLAGS.
pub const FLAGS: u32 = 10;

/// The contents of the files of [`INPUTS`], by name.
pub fn files_of(contents: &[Vec<u8>]) -> TwoLevelFiles<'_>
    requires { All (λ c. length c.items ≤ 1048576) contents.now }
    ensures { result ≡ two_level_files (bytes_of contents.now) }
{
    TwoLevelFiles {
        slow: Content::at(contents, 0),
        fast: Content::at(contents, 1),
        image: Content::at(contents, 2),
        slow_cert: Content::at(contents, 3),
        fast_cert: Content::at(contents, 4),
        slow_trace: Content::at(contents, 5),
        fast_trace: Content::at(contents, 6),
        levels: Content::at(contents, 7),
    }
}

/// What the files besides SLOW and FAST give, if all of them are accepted.
#[derive(Drop)]
struct Accepted {
    errors: Vec<u32>,
    fast_errors: Vec<u32>,
    samples: Vec<Sample>,
    fast_samples: Vec<Sample>,
    levels: Levels,
}

impl Accepted {
    /// What they give, or the first fault in their order.
    fn of(
        alloc: Global,
        kind: CertKind,
        compiled: &CompiledTwoLevel,
        files: &TwoLevelFiles,
    ) -> Result<Accepted, Status>
        requires slow { IsValid compiled.now.slow }
        requires fast { IsValid compiled.now.fast }
        ensures accepted { IfOk result (λ a. AcceptsTwoLevelInputs kind files.now compiled.now
            a.errors.items a.fast_errors.items a.samples.items a.fast_samples.items a.levels) }
        ensures fault { IfErr result (IsRefused (two_level_inputs kind files.now compiled.now)) }
    {
        spelled_traces_are_short();
        require_image(alloc, &files.image, &compiled.two.firmware.image)?;
        let format = CertFormat {
            kind,
            width: Width::Byte,
        };
        let errors = errors_under(alloc, format, &compiled.slow, &files.slow_cert)?;
        let fast_errors = fast_errors_of(alloc, format, &compiled.fast, &files.fast_cert)?;
        let samples = samples_of(alloc, &compiled.slow, &files.slow_trace)?;
        let fast_samples = fast_samples_of(alloc, &compiled.fast, &files.fast_trace)?;
        let levels = levels_of(alloc, &files.levels, &fast_samples)?;
        Ok(Accepted {
            errors,
            fast_errors,
            samples,
            fast_samples,
            levels,
        })
    }

    /// The lines of the run.
    fn output(
        &self,
        alloc: Global,
        compiled: &CompiledTwoLevel,
        flags: u8,
    ) -> Result<Output, Status>
        requires outputs { (compiled.now.two.firmware.outputs ≤ 4) × (compiled.now.two.fast.outputs ≤ 4) }
        requires levels { AreGoodLevels (length self.now.fast_samples.items) self.now.levels }
        ensures { PutsLines (lrun_lines (two_level_run flags compiled.now self.now.errors.items
            self.now.fast_errors.items self.now.samples.items self.now.fast_samples.items self.now.levels)) result }
    {
        let two = &compiled.two;
        let rows = run_two(
            alloc,
            two,
            &self.samples,
            &self.fast_samples,
            &self.levels,
            flags,
        )?;
        let lines = lines(alloc, &self.errors, &self.fast_errors, two, &rows)?;
        Ok(Output { lines, file: None })
    }
}

/// Checks all files, then runs the slow samples under the levels. The output has the lines of the samples and of
/// the fast runs.
pub fn work(alloc: Global, run: FormRun, files: &TwoLevelFiles) -> Result<Output, Status>
    ensures { IsResultOf (LrunMakes run files.now) result }
{
    lrun_is_settled();
    let compiled = two_of(alloc, &files.slow, &files.fast)?;
    let accepted = Accepted::of(alloc, run.kind, &compiled, files)?;
    accepted.output(alloc, &compiled, run.flags)
}

/// The errors with which FCERT is accepted.
fn fast_errors_of(
    alloc: Global,
    format: CertFormat,
    fast: &Block,
    cert: &Content,
) -> Result<Vec<u32>, Status>
    requires { IsValid fast.now }
    ensures accepted { IfOk result (λ errors. AcceptsCert format fast.now cert.now errors.items) }
    ensures fault { IfErr result (IsRefusal (for_fast (cert_in format fast.now cert.now)).refuses) }
{
    match errors_under(alloc, format, fast, cert) {
        Ok(errors) => Ok(errors),
        Err(status) => Err(status.of_fast()),
    }
}

/// The samples that FTRACE spells.
fn fast_samples_of(alloc: Global, fast: &Block, trace: &Content) -> Result<Vec<Sample>, Status>
    requires { IsValid fast.now }
    ensures samples { IfOk result (λ samples. SpellsTrace fast.now.inputs trace.now samples.items) }
    ensures fault { IfErr result (IsRefusal (for_fast (trace_in fast.now trace.now)).refuses) }
{
    match samples_of(alloc, fast, trace) {
        Ok(samples) => Ok(samples),
        Err(status) => Err(status.of_fast()),
    }
}

/// The levels over these fast samples that a text spells.
fn levels_of(alloc: Global, text: &Content, fast: &[Sample]) -> Result<Levels, Status>
    requires { length fast.now ≤ 10000 }
    ensures levels { IfOk result (SpellsLevels (length fast.now) text.now) }
    ensures fault { IfErr result (IsRefusal (levels_in (length fast.now) text.now).refuses) }
{
    Ok(read_levels(alloc, text.bytes(), fast.len() as u32)?)
}
