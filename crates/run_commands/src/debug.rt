//! The command `debug FCL IMAGE TRACE PLAN FLAGS SCRIPT`: what a script shows of a run, and the run.
ghost use Rattle.std.specs.Prelude.{◌≡◌, ◌≤◌, length, IfOk, IfErr, Ok};
ghost use Rattle.std.specs.List.{All};
ghost use Rattle.fz_status.specs.{Refusals.IsRefusal, Words.texts_of};
ghost use Rattle.command_parts.specs.Contents.{bytes_of};
ghost use Rattle.command_parts.specs.SeenOutputs.{IsResultOf};
ghost use Rattle.command_parts.specs.Readings.{IsRefused};
ghost use Rattle.debug_script.specs.Scripts.{script_of as script_in};
ghost use Rattle.run_commands.specs.Debug.{DebugMakes, Debugs, debug_files, debug_in};
ghost use Rattle.run_commands.specs.Debug.{debug_reading, debug_told, script_refusals};
ghost use Rattle.run_reports.specs.Settled.{PutsLines};
ghost use Rattle.interrupt_plan.specs.Plans.{IsGood};

use crate::laws::debug_is_settled;
use crate::shown_lines::lines;
use byte_scaling::Width;
use command_parts::contents::Content;
use command_parts::firmware::{Compiled, Form, firmware_of};
use command_parts::images::require_image;
use command_parts::output::Output;
use command_parts::words::flags;
use debug_script::{Script, ScriptFault, debug, read_script};
use fz_status::{Status, word};
use interrupt_plan::Plan;
use run_reports::inputs::{plan_of, samples_of};
use run_reports::laws::spelled_traces_are_short;
use std::alloc::Global;
use trace_io::Sample;

/// `debug FCL IMAGE TRACE PLAN FLAGS SCRIPT`
#[derive(Clone, Copy)]
pub struct DebugRun {
    /// The byte from which the open flags are taken.
    flags: u8,
}

/// The indices of the words FCL, IMAGE, TRACE, PLAN and SCRIPT.
pub static INPUTS: [u32; 5] = [2, 3, 4, 5, 7];

/// The index of the word FLAGS.
const FLAGS: u32 = 6;

/// The files of a run under a script.
#[derive(Drop)]
pub struct DebugFiles<'a> {
    pub fcl: Content<'a>,
    pub image: Content<'a>,
    pub trace: Content<'a>,
    pub plan: Content<'a>,
    pub script: Content<'a>,
}

/// The contents of the files of [`INPUTS`], by name.
pub fn files_of(contents: &[Vec<u8>]) -> DebugFiles<'_>
    requires { All (λ c. length c.items ≤ 1048576) contents.now }
    ensures { result ≡ debug_files (bytes_of contents.now) }
{
    DebugFiles {
        fcl: Content::at(contents, 0),
        image: Content::at(contents, 1),
        trace: Content::at(contents, 2),
        plan: Content::at(contents, 3),
        script: Content::at(contents, 4),
    }
}

/// What the files give, if all of them are accepted.
#[derive(Drop)]
struct Accepted {
    compiled: Compiled,
    samples: Vec<Sample>,
    plan: Plan,
    script: Script,
}

impl Accepted {
    /// What the files give, or the first fault in their order.
    fn of(alloc: Global, files: &DebugFiles) -> Result<Accepted, Status>
        ensures accepted { IfOk result (λ a. Debugs files.now
            a.compiled.block a.compiled.firmware a.samples.items a.plan a.script) }
        ensures fault { IfErr result (IsRefused (debug_reading files.now)) }
    {
        let compiled = firmware_of(alloc, Form::Alone(Width::Byte), &files.fcl)?;
        require_image(alloc, &files.image, &compiled.firmware.image)?;
        let samples = samples_of(alloc, &compiled.block, &files.trace)?;
        let plan = plan_of(alloc, &files.plan)?;
        let script = script_of(alloc, &files.script)?;
        Ok(Accepted {
            compiled,
            samples,
            plan,
            script,
        })
    }

    /// The lines of what the script shows of the run, and those of the run.
    fn output(&self, alloc: Global, flags: u8) -> Result<Output, Status>
        requires outputs { self.now.compiled.firmware.outputs ≤ 4 }
        requires plan { IsGood self.now.plan }
        requires samples { length self.now.samples.items ≤ 10000 }
        ensures { PutsLines (debug_told flags self.now.compiled self.now.samples.items self.now.plan
            self.now.script) result }
    {
        let (shown, rows) = debug(
            alloc,
            &self.compiled.firmware,
            &self.samples,
            &self.plan,
            flags,
            self.script.as_slice(),
        )?;
        let lines = lines(alloc, &shown, &rows)?;
        Ok(Output { lines, file: None })
    }
}

impl DebugRun {
    /// The command of these words.
    pub fn of(words: &[String]) -> Option<DebugRun>
        ensures { result ≡ debug_in (texts_of words.now) }
    {
        let flags = flags(word(words, FLAGS))?;
        Some(DebugRun { flags })
    }

    /// Checks all files, then runs the samples of the trace under the plan and does the script's orders
    /// on the way. The output has what the script shows, and the lines of the samples.
    pub fn work(self, alloc: Global, files: &DebugFiles) -> Result<Output, Status>
        ensures { IsResultOf (DebugMakes self files.now) result }
    {
        spelled_traces_are_short();
        debug_is_settled();
        let accepted = Accepted::of(alloc, files)?;
        accepted.output(alloc, self.flags)
    }
}

/// The script that a text spells.
fn script_of(alloc: Global, text: &Content) -> Result<Script, Status>
    ensures script { IfOk result (λ script. script_in text.now ≡ Ok script) }
    ensures fault { IfErr result (IsRefusal (script_refusals text.now)) }
{
    match read_script(alloc, text.bytes()) {
        Ok(script) => Ok(script),
        Err(ScriptFault::Memory) => Err(Status::Memory),
        Err(ScriptFault::Line(line)) => Err(Status::Script(line)),
    }
}
