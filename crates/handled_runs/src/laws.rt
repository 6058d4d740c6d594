//! Laws of runs whose interrupts run code.
ghost use Rattle.handled_runs.specs.Answering.{HandledAnswers, HandlersRunAlike, StatesRunAsTakes};

use crate::back::HandlerEnd;
use crate::form::HandledForm;
use crate::rows::HandledRow;
use alone_runs::laws::{
    firmware_runs_beside, first_states_agree, first_states_alike, given_leaves_open,
    requests_are_good, runs_follow_beside, steps_leave_open,
};
use cpu12_emul::laws::{holds_image, images_load_alike};
use handler_check::laws::{handlers_are_quiet, handlers_run_as_takes};
use interrupt_plan::Request;
use run_forms::Notes;
use run_forms::laws::rows_are_shown;
use run_law::laws::{handlers_begin, runs_follow, sums_fit_below};

/// Under every good plan a block's firmware whose interrupts run an accepted handler gives the rows of the run in
/// which they only do the listed writes, and each interrupt reaches its handler's RTI after at most as many steps
/// as the handler has instructions on a path.
pub fn handled_answers()
    ensures { HandledAnswers }
{
    steps_leave_open();
    given_leaves_open();
    handlers_are_quiet();
    sums_fit_below();
    holds_image();
    firmware_runs_beside();
    first_states_alike();
    first_states_agree();
    runs_follow_beside();
    requests_are_good();
    runs_follow::<HandledForm>();
    rows_are_shown::<Request, Notes<HandlerEnd>, HandledRow, HandledForm>();
}

/// In each state of such a run the handler can begin, and its interrupt is one that writes free bytes.
pub fn states_run_as_takes()
    ensures { StatesRunAsTakes }
{
    handlers_begin();
    sums_fit_below();
    handlers_run_as_takes();
}

/// Handlers with the same bytes give the same rows.
pub fn handlers_run_alike()
    ensures { HandlersRunAlike }
{
    images_load_alike()
}
