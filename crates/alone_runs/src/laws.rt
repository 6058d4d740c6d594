//! Laws of runs.
ghost use Rattle.alone_runs.specs.Answering.{AnswersUnderPlans, FirmwareRunsBeside, FirstStatesAgree, FirstStatesAlike};
ghost use Rattle.alone_runs.specs.Following.{RunsFollowAlone, RunsFollowBeside};
ghost use Rattle.alone_runs.specs.Given.{PlansAreInOrder, RequestsAreGood};
ghost use Rattle.alone_runs.specs.OpenBytes.{GivenLeavesOpen, StepsLeaveOpen};

use crate::form::AloneForm;
use alone_code::laws::{
    answered_are_uninterrupted, firmware_answers, firmware_answers_beside, firmware_arrives_alike,
};
use cpu12_emul::laws::{step_agrees, wavr_goes_on};
use cpu12_isa::laws::writes_stay;
use cpu12_parts::laws::wav_suspends;
use firmware_runs::laws::{answers_are_values, given_is_put, instructions_are_steps};
use run_forms::laws::arrives_plainly;
use run_law::laws::{runs_follow, taken_at_once};

/// The run of a firmware that stands alone follows the run without interrupts under every good plan, if each state
/// of the latter keeps the facts of [`FactsAlone`]: its answers and its counts of instructions and steps are the
/// same, its resumed counts and frames are read off the states without interrupts, and each of its states is the
/// same except for the bytes that plans may write, the stack below SP, and WAV's sums between an interrupt and
/// their pull.
///
/// [`FactsAlone`]: the record of that name in the crate's specifications
pub fn runs_follow_alone()
    ensures { RunsFollowAlone }
{
    runs_follow_beside();
    requests_are_good();
    taken_at_once();
}

/// The same whatever else is open in addition to the free bytes.
pub fn runs_follow_beside()
    ensures { RunsFollowBeside }
{
    runs_follow::<AloneForm>();
}

/// The firmware of a block, of either width, answers every list of samples under every good plan as it does
/// without interrupts: each row is that of its sample, its answers and its number of instructions are the
/// uninterrupted ones, which are the block's over bytes, and its steps are those without interrupts, all within
/// the bounds; the states without interrupts keep the facts; and the run follows them.
pub fn answers_under_plans()
    ensures { AnswersUnderPlans }
{
    instructions_are_steps();
    given_is_put();
    arrives_plainly();
    answers_are_values();
    firmware_answers();
    answered_are_uninterrupted();
    runs_follow_alone();
}

/// The requests of each sample of a good plan are good, and their moments ascend.
pub fn requests_are_good()
    ensures { RequestsAreGood }
{}

/// The requests of a good plan are in order.
pub fn plans_are_in_order()
    ensures { PlansAreInOrder }
{}

/// The firmware of a block answers all samples without interrupts, each within its bound of steps, and each state
/// keeps the facts, whatever bytes outside its code, its data, the stack and the reset vector are open to
/// handlers.
pub fn firmware_runs_beside()
    ensures { FirmwareRunsBeside }
{
    instructions_are_steps();
    given_is_put();
    arrives_plainly();
    firmware_answers_beside();
}

/// From reset over a memory that is a firmware's except for open bytes, it first waits in the same state except
/// for these, which are as they were.
pub fn first_states_alike()
    ensures { FirstStatesAlike }
{
    arrives_plainly();
    firmware_arrives_alike();
}

/// Such a state is the first one except for what is hidden.
pub fn first_states_agree()
    ensures { FirstStatesAgree }
{}

/// A step of a run under interrupts leaves what is open to handlers unchanged, and so does the push of the sums.
pub fn steps_leave_open()
    ensures { StepsLeaveOpen }
{
    step_agrees();
    wavr_goes_on();
    writes_stay();
    wav_suspends();
}

/// A sample leaves what is open to handlers unchanged, if its bytes and READY are not open.
pub fn given_leaves_open()
    ensures { GivenLeavesOpen }
{
    writes_stay();
}
