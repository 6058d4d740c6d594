//! Laws of runs of any form.
ghost use Rattle.run_forms.specs.{Arrival.ArrivesPlainly, Arrival.PlainIsOneStep, Showing.RowsAreShown};

use crate::form::RunForm;
use cpu12_emul::laws::plain_is_step;

/// A plain instruction is one step, while no sums are running.
pub fn plain_is_one_step()
    ensures { PlainIsOneStep }
{
    plain_is_step();
}

/// Plain instructions from reset to LOOP are the steps by which a run gets there.
pub fn arrives_plainly()
    ensures { ArrivesPlainly }
{
    plain_is_step();
}

/// What is shown of the runs of a form has a row for each sample, and what its requests reported.
pub fn rows_are_shown<A, U, R, F: RunForm<A, U, R>>()
    ensures { RowsAreShown F.Given A F.Told }
{}
