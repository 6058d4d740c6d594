//! Laws of runs under upsets.
ghost use Rattle.watched_runs.specs.Answering.{AnswersUnderAllUpsets};

use crate::form::WatchedForm;
use alone_runs::laws::requests_are_good;
use firmware_runs::laws::{given_is_put, instructions_are_steps};
use run_forms::laws::arrives_plainly;
use run_law::laws::{runs_follow, taken_at_once};
use watched_code::laws::watched_answers;

/// The firmware of a block with watched tables answers every list of samples under every good plan and all good
/// upsets: a row's answers are the block's over bytes and FAULT is 0, or, if a byte of the tables is upset, the
/// defaults and 1, each after the row before; its counts are those of the run without interrupts over the memory
/// with that byte, within the bounds; and the run follows that run.
pub fn answers_under_all_upsets()
    ensures { AnswersUnderAllUpsets }
{
    instructions_are_steps();
    given_is_put();
    arrives_plainly();
    requests_are_good();
    watched_answers();
    runs_follow::<WatchedForm>();
    taken_at_once();
}
