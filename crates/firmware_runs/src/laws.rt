//! The laws of whole instructions, and of what is given and answered.
ghost use Rattle.firmware_runs.specs.{Instructions.InstructionsAreSteps, Within.InstructionStaysWithin};
ghost use Rattle.firmware_runs.specs.Ports.{AnswersAreValues, GivenIsPut};

use run_forms::laws::plain_is_one_step;
use run_law::laws::step_laws;

/// A whole instruction that leaves SP no lower consists of steps, one of which counts: each step reads no byte
/// that is hidden from the instruction and writes none that the instruction keeps, leaves I unchanged, and is
/// shown to handlers to which no other byte is open.
pub fn instruction_stays_within()
    ensures { InstructionStaysWithin }
{
    step_laws();
}

/// Whole instructions on a sample, at each of which an interrupt may come, are steps: as many count as there are
/// instructions, and before each step, also inside REV, REVW and WAV, the state keeps the facts of a run and the
/// image.
pub fn instructions_are_steps()
    ensures { InstructionsAreSteps }
{
    step_laws();
    plain_is_one_step();
}

/// A sample is given to a run as it is to whole instructions.
pub fn given_is_put()
    ensures { GivenIsPut }
{}

/// Answers that end within memory are read as they are after whole instructions.
pub fn answers_are_values()
    ensures { AnswersAreValues }
{}
