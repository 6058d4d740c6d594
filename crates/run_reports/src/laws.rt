//! Laws of reports and of the files that runs share. Each is the contract of a function that does nothing.
ghost use Rattle.run_reports.specs.Laws.{AnswersAreReported, AnswersKeepTheBound, SpelledBytesFit};
ghost use Rattle.run_reports.specs.Laws.{SpelledTracesAreShort};
ghost use Rattle.run_reports.specs.{Nearness.AnswersAreWithinErrors, Faultless.FaultlessAnswersAreNear};
ghost use Rattle.run_reports.specs.Judged.{HandledFilesAreJudged, TwoLevelFilesAreJudged, MailboxFilesAreJudged};
ghost use Rattle.run_reports.specs.Judged.{PlansAreJudged, RunFilesAreJudged, TracesAreJudged};
ghost use Rattle.run_reports.specs.Judged.{WatchedFilesAreJudged};
ghost use Rattle.run_reports.specs.{Inputs.PlansAreExact, Inputs.TracesAreExact, Posted.MailboxAnswersAreNear};

use command_parts::laws::{
    certs_are_judged, firmwares_are_judged, handlers_are_judged, images_are_judged, twos_are_judged,
};
use interrupt_plan::laws::{spelled_entries_are_one, spelled_plans_have_no_fault};
use trace_io::laws::{first_rows_are_one, spelled_traces_have_no_fault};

/// A trace spells at most 10000 samples.
pub fn spelled_traces_are_short()
    ensures { SpelledTracesAreShort }
{}

/// The bytes of a trace's samples are input bytes of the block.
pub fn spelled_bytes_fit()
    ensures { SpelledBytesFit }
{}

/// Answering a sample takes no more instructions than the block's bound.
pub fn answers_keep_the_bound()
    ensures { AnswersKeepTheBound }
{}

/// A firmware's answers to the samples of a trace are its report.
pub fn answers_are_reported()
    ensures { AnswersAreReported }
{
    answers_are_within_errors()
}

/// The samples of a trace are unique as lists of bytes, or the trace is refused.
pub fn traces_are_exact()
    ensures { TracesAreExact }
{
    first_rows_are_one();
    spelled_traces_have_no_fault();
    trace_io::laws::first_faults_are_one()
}

/// A text spells exactly one plan, or it is refused.
pub fn plans_are_exact()
    ensures { PlansAreExact }
{
    spelled_entries_are_one();
    spelled_plans_have_no_fault();
    interrupt_plan::laws::first_faults_are_one()
}

/// Under each accepted certificate the answers of a block's firmware, as bytes or in 16 bits, are
/// within its errors of the exact answers, which are defined without bytes, tables, slots or machine.
pub fn answers_are_within_errors()
    ensures { AnswersAreWithinErrors }
{
    cert_check::laws::accepted_answers_are_near();
}

/// With watched tables, the answers in rows in which FAULT was 0 are within the errors of each
/// accepted certificate of the exact answers, if no output has NC; with NC only those in rows before
/// the first in which FAULT was 1.
pub fn faultless_answers_are_near()
    ensures { FaultlessAnswersAreNear }
{
    cert_check::laws::accepted_answers_are_near();
}

/// Under each accepted certificate, a block's answer to a posted sample of a trace is within its errors
/// of the exact answer, which depends on the samples answered so far, in the order they were answered.
pub fn mailbox_answers_are_near()
    ensures { MailboxAnswersAreNear }
{
    cert_check::laws::accepted_answers_are_near();
}

/// A trace spells samples, or it is refused.
pub fn traces_are_judged()
    ensures { TracesAreJudged }
{
    trace_io::laws::each_text_is_judged()
}

/// A text spells a plan, or it is refused.
pub fn plans_are_judged()
    ensures { PlansAreJudged }
{
    interrupt_plan::laws::each_text_is_judged()
}

/// Each file of `run` gives something or is refused.
pub fn run_files_are_judged()
    ensures { RunFilesAreJudged }
{
    firmwares_are_judged();
    images_are_judged();
    certs_are_judged();
    trace_io::laws::each_text_is_judged();
    interrupt_plan::laws::each_text_is_judged()
}

/// Each file of `hrun` does.
pub fn handled_files_are_judged()
    ensures { HandledFilesAreJudged }
{
    firmwares_are_judged();
    handlers_are_judged();
    certs_are_judged();
    trace_io::laws::each_text_is_judged();
    interrupt_plan::laws::each_text_is_judged()
}

/// Each file of `mrun` does.
pub fn mailbox_files_are_judged()
    ensures { MailboxFilesAreJudged }
{
    firmwares_are_judged();
    images_are_judged();
    certs_are_judged();
    trace_io::laws::each_text_is_judged();
    interrupt_plan::laws::each_text_is_judged()
}

/// Each file of `srun` does.
pub fn watched_files_are_judged()
    ensures { WatchedFilesAreJudged }
{
    firmwares_are_judged();
    images_are_judged();
    certs_are_judged();
    trace_io::laws::each_text_is_judged();
    interrupt_plan::laws::each_text_is_judged()
}

/// Each file of `lrun` does.
pub fn two_level_files_are_judged()
    ensures { TwoLevelFilesAreJudged }
{
    twos_are_judged();
    images_are_judged();
    certs_are_judged();
    trace_io::laws::each_text_is_judged();
    interrupt_plan::laws::each_text_is_judged()
}
