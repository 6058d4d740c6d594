//! Laws of runs at two levels.
ghost use Rattle.two_level_runs.specs.Steps.{FastRunsExist, FastStepsReturn};
ghost use Rattle.two_level_runs.specs.{Answering.AnswersUnderLevels, Answering.RowsAreSeen, Entered.FastIsEntered};
ghost use Rattle.two_level_runs.specs.{Inside.FastRunsFollow, Order.LevelsAreInOrder, Order.LevelsMakeAPlan};
ghost use Rattle.two_level_runs.specs.Outer.{OuterEnters, OuterIsServable, OuterIsQuiet, OuterServes};

use crate::fast_code::FastForm;
use crate::form::TwoLevelForm;
use alone_code::laws::firmware_is_uninterrupted;
use alone_runs::laws::{
    answers_under_plans, firmware_runs_beside, first_states_agree, first_states_alike,
    given_leaves_open, requests_are_good, steps_leave_open,
};
use cpu12_emul::laws::{holds_image, step_fits, step_keeps, takes_quietly};
use cpu12_isa::laws::{bytes_stay, frame_comes_back, writes_stay};
use cpu12_parts::laws::wav_suspends;
use eval_code::laws::frames_leave;
use firmware_runs::laws::instruction_stays_within;
use run_law::laws::{run_follows, runs_follow, sums_fit_below, taken_at_once, writes_are_quiet};
use two_level_code::laws::{fast_answers_entered, two_stand_beside};

/// The whole instructions with which the fast code answers, and its return, are steps from the state in which it
/// was entered to that after the interrupt, within its bounds; before each step the state keeps what the law on
/// runs requires, and it accesses only what is the fast block's own.
fn fast_steps_return()
    ensures { FastStepsReturn }
{
    frames_leave();
    instruction_stays_within();
}

/// Wherever the fast code of two blocks is entered, it has such a run.
pub fn fast_runs_exist()
    ensures { FastRunsExist }
{
    fast_answers_entered();
    fast_steps_return();
}

/// Under inner requests with nondecreasing moments, a run of the fast code follows the run without: the same steps
/// and instructions, the frames and the resumed count that are read off it, and the same last state except for the
/// stack below SP. Its frames are below the SP with which it was entered. A request of moment 0 is taken at
/// boundary 1.
pub fn fast_runs_follow()
    ensures { FastRunsFollow }
{
    bytes_stay();
    step_fits();
    step_keeps();
    wav_suspends();
    sums_fit_below();
    run_follows::<FastForm>();
}

/// An outer interrupt that finds the fast code in memory enters it.
pub fn outer_enters()
    ensures { OuterEnters }
{
    writes_stay();
    bytes_stay();
}

/// There is a state, over memory as the image of two blocks makes it, from which an interrupt enters the fast
/// code.
pub fn fast_is_entered()
    ensures { FastIsEntered }
{
    holds_image();
    two_stand_beside();
    outer_enters();
}

/// Where the fast code of two blocks can be entered, each of its samples has a run, within its bound.
pub fn outer_is_servable()
    ensures { OuterIsServable }
{
    outer_enters();
    fast_runs_exist();
}

/// An outer interrupt leaves the registers unchanged, leaves no sums running, and leaves memory unchanged except
/// for the fast block's RAM, which holds its answers, and the stack below SP.
pub fn outer_is_quiet()
    ensures { OuterIsQuiet }
{
    writes_stay();
    bytes_stay();
    frame_comes_back();
    fast_runs_follow();
}

/// An outer request, with or without a fast run, is quiet relative to the slow firmware, as the law on runs
/// requires.
pub fn outer_serves()
    ensures { OuterServes }
{
    writes_are_quiet();
    outer_is_quiet();
}

/// Under all good levels a run at two levels reaches the end of each slow sample, with the rows of the slow
/// firmware alone under a plan at the same places that writes nothing. Each fast run begins where the slow run
/// without interrupts is at its level's moment, reaches its return, and answers its sample as the fast block does,
/// after the fast run before it, within the fast block's bounds; what is reported of it is read off its run
/// without inner requests.
pub fn answers_under_levels()
    ensures { AnswersUnderLevels }
{
    bytes_stay();
    step_fits();
    step_keeps();
    wav_suspends();
    sums_fit_below();
    takes_quietly();
    steps_leave_open();
    given_leaves_open();
    fast_runs_follow();
    outer_is_quiet();
    outer_enters();
    outer_is_servable();
    outer_serves();
    two_stand_beside();
    firmware_runs_beside();
    first_states_alike();
    first_states_agree();
    taken_at_once();
    answers_under_plans();
    requests_are_good();
    firmware_is_uninterrupted();
    runs_follow::<TwoLevelForm>();
}

/// Good levels are requests in order.
pub fn levels_are_in_order()
    ensures { LevelsAreInOrder }
{}

/// Requests at the places of good levels that write nothing are a good plan.
pub fn levels_make_a_plan()
    ensures { LevelsMakeAPlan }
{}

/// What is seen of a run at two levels has its slow rows.
pub fn rows_are_seen()
    ensures { RowsAreSeen }
{}
