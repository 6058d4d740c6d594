//! Laws of turns, each the contract of a function that does nothing.
ghost use Rattle.interrupt_plan.specs.declared.Post as plan;
ghost use Rattle.mailbox_runs.specs.{Answering.AnswersUnderAllPosts, Behind.FollowsBehind, Shifts.RunsCountOn};
ghost use Rattle.mailbox_runs.specs.PostedTurns.{IdleTurnsFollow, PostedTurnsFollow};
ghost use Rattle.mailbox_runs.specs.Turns.{AllAreTaken, LastIsAnswered, TurnsAreOne};
ghost use Rattle.mailbox_runs.specs.{TurnsExist.PostsHaveTurns, WholeRuns.RunsAreTurns};
ghost use Rattle.mailbox_runs.specs.UninterruptedTurns.{MailboxRunsTurns, TurnsHaveSteps};
ghost use Rattle.mailbox_runs.specs.UsedLaws.{PostingLaws, TurnLaws};

use crate::form::MailboxForm;
use cpu12_emul::laws::{
    frame_is_on_stack, plain_is_step, step_agrees, step_keeps, takes_quietly, wavr_goes_on,
};
use cpu12_isa::laws::{stack_is_hidden, writes_agree, writes_stay};
use cpu12_parts::laws::wav_suspends;
use firmware_code::laws::uninterrupted_are_one;
use firmware_runs::laws::instructions_are_steps;
use mailbox_code::laws::{
    mailbox_is_uninterrupted, mailbox_steps_are_few, mailbox_takes_posts, mailbox_takes_samples,
};
use run_forms::laws::plain_is_one_step;
use run_law::laws::{run_follows, taken_at_first_open};

/// Posts have only one list of turns, whatever the turns' lengths are.
pub fn turns_are_one()
    ensures { TurnsAreOne }
{}

/// The sample that is posted last is answered last, whatever the turns' lengths are.
pub fn last_is_answered()
    ensures { LastIsAnswered }
{}

/// Each post is taken once, in their order.
pub fn all_are_taken()
    ensures { AllAreTaken }
{}

/// The turns of good posts answer existing samples, each in the number of steps given for the samples up to its
/// own; the other turns take 2 steps, or none.
pub fn turns_have_steps()
    ensures { TurnsHaveSteps }
{}

/// The mailbox firmware of a block runs such turns without interrupts: each begins and ends where the
/// code waits and no sample is posted, and the answers are the uninterrupted ones of the samples that
/// are answered, and the block's, within the firmware's bound.
pub fn mailbox_runs_turns()
    ensures { MailboxRunsTurns }
{
    plain_is_one_step();
    instructions_are_steps();
    mailbox_takes_posts();
    mailbox_takes_samples();
    mailbox_is_uninterrupted();
    uninterrupted_are_one();
}

/// Good posts have turns, however many steps the turns take.
pub fn posts_have_turns()
    ensures { PostsHaveTurns }
{}

/// A turn that begins at a later boundary runs as one that begins at boundary 0, with moments and frames
/// counted from there.
pub fn turns_count_on()
    ensures { RunsCountOn (Unit {0}) plan.Post (Unit {0}) }
{}

/// What is known where posts come: about their writes, about steps, and about interrupts that are taken.
fn posting_laws()
    ensures { PostingLaws }
{
    writes_agree();
    writes_stay();
    stack_is_hidden();
    wav_suspends();
    takes_quietly();
    frame_is_on_stack();
    step_agrees();
    step_keeps();
    wavr_goes_on();
    plain_is_step();
    plain_is_one_step();
}

/// After the copy a turn under posts follows the turn without interrupts, and the mailbox holds the sample that
/// was posted last.
pub fn turns_follow_behind()
    ensures { FollowsBehind }
{
    posting_laws();
    run_follows::<MailboxForm>();
}

/// What is known about turns under posts.
fn turn_laws()
    ensures { TurnLaws }
{
    posting_laws();
    taken_at_first_open();
    turns_count_on();
    turns_follow_behind();
}

/// Under posts a turn that answers is the turn without interrupts of the sample that was posted last before the
/// copy: it takes its steps and ends in its state, except for free bytes and the mailbox, which holds the sample
/// that was posted last after the copy. From the copy on its states simulate those.
pub fn posted_turns_follow()
    ensures { PostedTurnsFollow }
{
    turn_laws();
}

/// Under posts an idle turn is the idle turn without interrupts: it takes two steps and ends in its state, except
/// for free bytes and the mailbox, which holds the sample that was posted last.
pub fn idle_turns_follow()
    ensures { IdleTurnsFollow }
{
    posting_laws();
}

/// The run under good posts is that of its turns, each starting where the one before ended without interrupts, and
/// after the copy its states simulate theirs.
pub fn runs_are_turns()
    ensures { RunsAreTurns }
{
    turn_laws();
}

/// The mailbox firmware of a block answers under all good posts by its turns, which are as long as without posts
/// and whose states after the copy are simulated by its own.
pub fn posts_are_answered()
    ensures { AnswersUnderAllPosts }
{
    posts_have_turns();
    turns_have_steps();
    mailbox_runs_turns();
    runs_are_turns();
    mailbox_steps_are_few();
}
