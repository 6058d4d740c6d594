//! The commands `mrun FCL IMAGE CERT TRACE POSTS FLAGS` and `tmrun ..`: the run of a firmware in the mailbox form, to
//! which interrupts post samples.
ghost use Rattle.std.specs.Prelude.{◌≡◌, ◌+◌, ◌^◌, ◌<◌, ◌≤◌, length, IfOk, IfErr};
ghost use Rattle.std.specs.List.{All};
ghost use Rattle.interrupt_plan.specs.Posts.{AreGoodPosts, SpellsPosts};
ghost use Rattle.fz_status.specs.{Refusals.IsRefusal};
ghost use Rattle.command_parts.specs.Contents.{bytes_of};
ghost use Rattle.command_parts.specs.SeenOutputs.{IsResultOf};
ghost use Rattle.command_parts.specs.Readings.{IsRefused};
ghost use Rattle.form_commands.specs.Mrun.{MrunMakes, mrun_lines, mailbox_files, mailbox_run};
ghost use Rattle.run_reports.specs.MailboxRun.{AcceptsMailbox, mailbox_reading, posts_in};
ghost use Rattle.run_reports.specs.{Settled.PutsLines, declared.files.MailboxFiles.MailboxFiles};

use crate::form_run::FormRun;
use crate::laws::mrun_is_settled;
use crate::mailbox_lines::lines;
use box_tree::{CertFormat, CertKind};
use byte_scaling::Width;
use command_parts::certs::errors_under;
use command_parts::contents::Content;
use command_parts::firmware::{Compiled, Form, firmware_of};
use command_parts::images::require_image;
use command_parts::output::Output;
use fz_status::Status;
use interrupt_plan::{Posts, read_posts};
use mailbox_runs::run_posts;
use run_reports::files::MailboxFiles;
use run_reports::inputs::samples_of;
use run_reports::laws::spelled_traces_are_short;
use std::alloc::Global;
use trace_io::Sample;

/// The indices of the words FCL, IMAGE, CERT, TRACE and POSTS.
pub static INPUTS: [u32; 5] = [2, 3, 4, 5, 6];

/// The index of the word FLAGS.
pub const FLAGS: u32 = 7;

/// The contents of the files of [`INPUTS`], by name.
pub fn files_of(contents: &[Vec<u8>]) -> MailboxFiles<'_>
    requires { All (λ c. length c.items ≤ 1048576) contents.now }
    ensures { result ≡ mailbox_files (bytes_of contents.now) }
{
    MailboxFiles {
        fcl: Content::at(contents, 0),
        image: Content::at(contents, 1),
        cert: Content::at(contents, 2),
        trace: Content::at(contents, 3),
        posts: Content::at(contents, 4),
    }
}

/// What the files give, if all of them are accepted.
#[derive(Drop)]
struct Accepted {
    compiled: Compiled,
    errors: Vec<u32>,
    samples: Vec<Sample>,
    posts: Posts,
}

impl Accepted {
    /// What the files give, or the first fault in their order.
    fn of(alloc: Global, kind: CertKind, files: &MailboxFiles) -> Result<Accepted, Status>
        ensures accepted { IfOk result (λ a. AcceptsMailbox kind files.now
            a.compiled.block a.compiled.firmware a.errors.items a.samples.items a.posts) }
        ensures fault { IfErr result (IsRefused (mailbox_reading kind files.now)) }
    {
        spelled_traces_are_short();
        let compiled = firmware_of(alloc, Form::Mailbox, &files.fcl)?;
        require_image(alloc, &files.image, &compiled.firmware.image)?;
        let format = CertFormat {
            kind,
            width: Width::Byte,
        };
        let errors = errors_under(alloc, format, &compiled.block, &files.cert)?;
        let samples = samples_of(alloc, &compiled.block, &files.trace)?;
        let posts = posts_of(alloc, &files.posts, &samples)?;
        Ok(Accepted {
            compiled,
            errors,
            samples,
            posts,
        })
    }

    /// The lines of the run.
    fn output(&self, alloc: Global, flags: u8) -> Result<Output, Status>
        requires outputs { (self.now.compiled.firmware.outputs ≤ 4)
            × (self.now.compiled.firmware.memory_map.outputs + 8 < 2 ^ 16) }
        requires posts { AreGoodPosts (length self.now.samples.items) self.now.posts }
        ensures { PutsLines (mrun_lines (mailbox_run flags self.now.compiled self.now.errors.items
            self.now.samples.items self.now.posts)) result }
    {
        let firmware = &self.compiled.firmware;
        let told = run_posts(alloc, firmware, &self.samples, &self.posts, flags)?;
        let lines = lines(alloc, &self.errors, firmware.instr_bound, &told)?;
        Ok(Output { lines, file: None })
    }
}

/// Checks all files, then runs the firmware under the posts. The output has the lines of the run.
pub fn work(alloc: Global, run: FormRun, files: &MailboxFiles) -> Result<Output, Status>
    ensures { IsResultOf (MrunMakes run files.now) result }
{
    mrun_is_settled();
    let accepted = Accepted::of(alloc, run.kind, files)?;
    accepted.output(alloc, run.flags)
}

/// The posts of these samples that a text spells.
fn posts_of(alloc: Global, text: &Content, samples: &[Sample]) -> Result<Posts, Status>
    requires { length samples.now ≤ 10000 }
    ensures posts { IfOk result (SpellsPosts (length samples.now) text.now) }
    ensures fault { IfErr result (IsRefusal (posts_in (length samples.now) text.now).refuses) }
{
    Ok(read_posts(alloc, text.bytes(), samples.len() as u32)?)
}
