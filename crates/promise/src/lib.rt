//! What the program promises of a certified run (`Promise`), in terms of the block that FCL spells, the image that
//! IMAGE's records give, the samples, the interrupts, the machine's run of that image, FCL's exact answers, and the
//! printed numbers alone. It mentions no pass of the compiler and no part of the checker.
//!
//! Its functions do nothing: each is a law, stated by its contract.
#![tactic(auto)]

ghost use Rattle.promise.specs.Laws.{AcceptedFilesGiveFirmware, AcceptedFilesKeepPromise, CertifiedRunsKeepPromise};
ghost use Rattle.promise.specs.Laws.{PrintedNumbersAreOne};
ghost use Rattle.promise.specs.{OneRun.PromisedRowsAreOne, OtherRuns.OtherRunsServe};

use alone_code::laws::firmware_answers;
use cpu12_emul::laws::images_load_alike;
use eval_code::laws::bounds_are_few;
use fcl_check::laws::spelled_blocks_are_one;
use mailbox_code::laws::mailbox_takes_posts;
use mailbox_runs::laws::{mailbox_runs_turns, turns_have_steps};
use run_commands::laws::accepted_runs_make_output;
use run_forms::laws::{arrives_plainly, plain_is_one_step};
use run_law::laws::taken_at_once;
use run_reports::laws::{plans_are_exact, spelled_bytes_fit, traces_are_exact};
use srecord::laws::images_are_one;

/// A certified run keeps its promise.
pub fn certified_runs_keep_promise()
    ensures { CertifiedRunsKeepPromise }
{
    bounds_are_few();
    firmware_answers();
    plain_is_one_step();
    arrives_plainly()
}

/// The errors and the bound that a printed text gives are unique.
pub fn printed_numbers_are_one()
    ensures { PrintedNumbersAreOne }
{}

/// Promises over the same files have the same rows and the same final sum.
pub fn promised_rows_are_one()
    ensures { PromisedRowsAreOne }
{
    spelled_blocks_are_one();
    images_are_one();
    images_load_alike();
    traces_are_exact();
    plans_are_exact();
}

/// Accepted files give firmware, and they are those that the command accepts.
pub fn accepted_files_give_firmware()
    ensures { AcceptedFilesGiveFirmware }
{}

/// The promise without the program: for accepted files there are lines that keep it.
pub fn accepted_files_keep_promise()
    ensures { AcceptedFilesKeepPromise }
{
    certified_runs_keep_promise();
    accepted_runs_make_output()
}

/// The machine serves the samples of the other runs, the turns of a mailbox firmware, and the fast runs.
pub fn other_runs_serve()
    ensures { OtherRunsServe }
{
    taken_at_once();
    firmware_answers();
    mailbox_runs_turns();
    mailbox_takes_posts();
    plain_is_one_step();
    spelled_bytes_fit();
    turns_have_steps();
    arrives_plainly()
}
