//! Laws of the parts.
ghost use Rattle.cpu12_parts.specs.Parts.{rev, revw, wav};
ghost use Rattle.cpu12_parts.specs.Inside.{own_address, second_byte, GoesOnAt, LeavesSums, WritesNothing};
ghost use Rattle.cpu12_parts.specs.Inside.{PushesRunning, PushesNone};
ghost use Rattle.cpu12_parts.specs.Laws.{AreKept, Any, GoesOn, WritesBelow, KeepsNothing, IsSteady};
ghost use Rattle.cpu12_parts.specs.Laws.{CutsChangeNothing, RevIsWhole, RevwIsWhole, WavIsWhole, RevOverCuts};
ghost use Rattle.cpu12_parts.specs.Laws.{RevwOverCuts, WavOverCuts};
ghost use Rattle.cpu12_parts.specs.Executions.{WholeStepsAreOne, ExecutionsAreOne};
ghost use Rattle.cpu12_parts.specs.{Fits.PartFits, Owed.OverCuts};

use crate::temps::Resumable;
use cpu12_isa::laws::writes_agree;

/// The law over all cuts, for every instruction executed in parts: its parts, cut at any boundaries by `suspend`
/// and then `resume`, end after as many parts as the whole instruction has, and in its state except for the six
/// bytes below SP, provided that it reads none of these.
pub fn over_cuts<R: Resumable>(k: &R)
    ensures { OverCuts (R.kind k.now) (R.whole k.now) }
{
    writes_agree();
    k.is_lawful();
}

/// WAV's `resume` restores what its `suspend` pushed.
pub fn wav_goes_on()
    ensures { GoesOn wav AreKept }
{}

/// WAV's `suspend` writes below SP as it was, and its `resume` writes nothing.
pub fn wav_writes_below()
    ensures { WritesBelow wav }
{}

/// A part of WAV keeps SP, and leaves sums that fit.
pub fn wav_steady()
    ensures { IsSteady wav AreKept }
{}

/// REV keeps nothing between its parts.
pub fn rev_keeps_nothing()
    ensures { KeepsNothing rev }
{}

/// A part of REV keeps SP.
pub fn rev_steady()
    ensures { IsSteady rev Any }
{}

/// REVW keeps nothing between its parts.
pub fn revw_keeps_nothing()
    ensures { KeepsNothing revw }
{}

/// A part of REVW keeps SP.
pub fn revw_steady()
    ensures { IsSteady revw Any }
{}

/// WAV's parts make up the whole instruction, and access only what it does.
pub fn wav_is_whole()
    ensures { WavIsWhole }
{}

/// Cuts between WAV's parts change nothing but bytes below SP.
pub fn wav_cuts()
    ensures { CutsChangeNothing wav }
{
    writes_agree();
    wav_goes_on();
    wav_steady();
}

/// Cuts between REV's parts change nothing.
pub fn rev_cuts()
    ensures { CutsChangeNothing rev }
{
    writes_agree();
    rev_keeps_nothing();
    rev_steady();
}

/// Cuts between REVW's parts change nothing.
pub fn revw_cuts()
    ensures { CutsChangeNothing revw }
{
    writes_agree();
    revw_keeps_nothing();
    revw_steady();
}

/// REV's parts make up the whole instruction, and access only what it does.
pub fn rev_is_whole()
    ensures { RevIsWhole }
{}

/// REVW's parts make up the whole instruction, and access only what it does.
pub fn revw_is_whole()
    ensures { RevwIsWhole }
{}

/// REV's parts, cut at any boundaries by `suspend` and then `resume`, end in the whole instruction's state except
/// for the six bytes below SP.
pub fn rev_over_cuts()
    ensures { RevOverCuts }
{
    rev_cuts();
    rev_is_whole();
}

/// REVW's parts, cut at any boundaries by `suspend` and then `resume`, end in the whole instruction's state except
/// for the six bytes below SP.
pub fn revw_over_cuts()
    ensures { RevwOverCuts }
{
    revw_cuts();
    revw_is_whole();
}

/// WAV's parts, cut at any boundaries by `suspend` and then `resume`, end in the whole instruction's state except
/// for the six bytes below SP.
pub fn wav_over_cuts()
    ensures { WavOverCuts }
{
    wav_cuts();
    wav_is_whole();
}

/// A part of REV leaves registers and bytes that fit.
pub fn rev_fits()
    ensures { PartFits rev }
{}

/// A part of REVW leaves registers and bytes that fit.
pub fn revw_fits()
    ensures { PartFits revw }
{}

/// A part of WAV leaves registers and bytes that fit.
pub fn wav_fits()
    ensures { PartFits wav }
{}

/// Between two parts of REV, PC is still at it, and I and the sums are as they were.
pub fn rev_stays()
    ensures goes_on { GoesOnAt own_address rev }
    ensures sums { LeavesSums rev }
{}

/// Between two parts of REVW, PC is still at it, and I and the sums are as they were.
pub fn revw_stays()
    ensures goes_on { GoesOnAt own_address revw }
    ensures sums { LeavesSums revw }
{}

/// Between two parts of WAV, PC is at its second byte, I is as it was, and nothing is written.
pub fn wav_stays()
    ensures goes_on { GoesOnAt second_byte wav }
    ensures writes { WritesNothing wav }
{}

/// Before an interrupt, running sums are pushed; if none are running, nothing is.
pub fn wav_suspends()
    ensures running { PushesRunning }
    ensures none { PushesNone }
{}

/// A whole instruction leads to exactly one state, in one number of parts.
pub fn whole_steps_are_one()
    ensures { WholeStepsAreOne }
{}

/// Whole instructions reach only one first state that stops, in one way.
pub fn executions_are_one()
    ensures { ExecutionsAreOne }
{}
