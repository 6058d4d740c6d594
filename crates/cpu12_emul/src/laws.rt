//! Laws of the machine.
ghost use Rattle.cpu12_isa.specs.declared.instr.Instr.TheVariants.{Rev, Revw, Wav};
ghost use Rattle.cpu12_parts.specs.Parts.{rev, revw, wav};
ghost use Rattle.cpu12_emul.specs.{Fits.StepFits, Image.HoldsImage, Image.ImagesLoadAlike, Run.RunsEndOnce};
ghost use Rattle.cpu12_emul.specs.Simulation.{StepAgrees, WavrGoesOn, StepKeeps, TakesQuietly, TakeKeeps};
ghost use Rattle.cpu12_emul.specs.Simulation.{FrameIsOnStack, PlainIsStep, PartIsStep, PushLaws, SumsAreStep};

use cpu12_isa::laws::{
    bytes_stay, decoded_fits, frame_comes_back, stack_is_hidden, stays_fit, writes_agree,
};
use cpu12_parts::laws::{rev_fits, revw_fits, wav_fits, wav_suspends};

/// A memory made from an image holds exactly its bytes.
pub fn holds_image()
    ensures { HoldsImage }
{}

/// Images with the same bytes give the same memory.
pub fn images_load_alike()
    ensures { ImagesLoadAlike }
{}

/// A run has exactly one end.
pub fn runs_end_once()
    ensures { RunsEndOnce }
{}

/// A plain instruction is one step.
pub fn plain_is_step()
    ensures { PlainIsStep }
{}

/// A part of REV is one step.
pub fn rev_is_step()
    ensures { PartIsStep Rev rev }
{}

/// A part of REVW is one step.
pub fn revw_is_step()
    ensures { PartIsStep Revw revw }
{}

/// The first part of WAV is one step.
pub fn wav_is_step()
    ensures { PartIsStep Wav wav }
{}

/// A part of WAV while its sums are running is one step.
pub fn sums_are_step()
    ensures { SumsAreStep }
{}

/// Two states that agree outside hidden bytes have the same step, if what it reads is not hidden.
pub fn step_agrees()
    ensures { StepAgrees }
{
    writes_agree();
}

/// A step with WAV's sums on the stack is the step with the sums running.
pub fn wavr_goes_on()
    ensures { WavrGoesOn }
{}

/// A step keeps the simulation.
pub fn step_keeps()
    ensures { StepKeeps }
{
    step_agrees();
    wavr_goes_on();
}

/// What an interrupt pushes and hides.
fn push_laws()
    ensures { PushLaws }
{
    frame_comes_back();
    stack_is_hidden();
    wav_suspends();
}

/// An interrupt that writes open bytes changes nothing but these and bytes below SP.
pub fn takes_quietly()
    ensures { TakesQuietly }
{
    push_laws();
}

/// An interrupt that writes open bytes keeps the simulation.
pub fn take_keeps()
    ensures { TakeKeeps }
{
    push_laws();
}

/// A frame has the registers' nine bytes, and the sums' six if they are running.
pub fn frame_is_on_stack()
    ensures { FrameIsOnStack }
{
    wav_suspends();
}

/// A step leaves registers, sums and bytes within their sizes.
pub fn step_fits()
    ensures { StepFits }
{
    stays_fit();
    bytes_stay();
    decoded_fits();
    rev_fits();
    revw_fits();
    wav_fits();
}
