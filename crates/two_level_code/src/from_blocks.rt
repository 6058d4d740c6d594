//! Two levels from two blocks, which the program has laid out already.
ghost use Rattle.std.specs.Prelude.{IfOk, IfErr, OnOk};
ghost use Rattle.fuzzy_meaning.specs.Blocks.{IsValid};
ghost use Rattle.two_level_code.specs.{Faults.AreWithinLimits, Faults.IsTwoFaultOf, Images.IsTwoOf};
ghost use Rattle.two_level_code.specs.{Running.AnswersEntered, Standing.StandsBeside, Standing.SlowAnswersBeside};

use crate::two::{Two, compile_two_laid_out};
use fuzzy_meaning::Block;
use rule_layout::{LayoutFault, spread};
use std::alloc::{AllocError, Global};
use thiserror::Error;

/// Why two blocks are refused: for the slow one's rules, or else for the fast one's, or for lack of memory, which
/// implies nothing about either.
#[derive(Clone, Copy, PartialEq, Eq, Debug, Error)]
pub enum TwoFault {
    /// The slow block's rules can't be laid out. It is never `LayoutFault::Memory`.
    #[error("the slow block's rules can't be laid out")]
    Slow(LayoutFault),
    /// The fast block's rules can't be laid out. It is never `LayoutFault::Memory`.
    #[error("the fast block's rules can't be laid out")]
    Fast(LayoutFault),
    /// Out of memory for the firmware.
    #[error("no memory")]
    Memory,
}

/// [`compile_two_laid_out`] for two blocks that are not laid out yet. It is refused where the slow block's rules
/// can't be laid out, or else where the fast one's can't.
pub fn compile_two(alloc: Global, slow: &Block, fast: &Block) -> Result<Two, TwoFault>
    requires slow { IsValid slow.now }
    requires fast { IsValid fast.now }
    ensures two { IfOk result (IsTwoOf slow.now fast.now) }
    ensures beside { IfOk result (StandsBeside slow.now fast.now) }
    ensures slow_answers { IfOk result (SlowAnswersBeside slow.now) }
    ensures fast_answers { IfOk result (AnswersEntered fast.now) }

    // Refused exactly where the rules of one can't be laid out.
    ensures limits { OnOk result (AreWithinLimits slow.now fast.now) }
    ensures fault { IfErr result (IsTwoFaultOf slow.now fast.now) }
{
    let slow = match spread(alloc, slow) {
        Ok(slow) => slow,
        Err(LayoutFault::Memory) => return Err(TwoFault::Memory),
        Err(fault) => return Err(TwoFault::Slow(fault)),
    };
    let fast = match spread(alloc, fast) {
        Ok(fast) => fast,
        Err(LayoutFault::Memory) => return Err(TwoFault::Memory),
        Err(fault) => return Err(TwoFault::Fast(fault)),
    };
    match compile_two_laid_out(alloc, &slow, &fast) {
        Ok(two) => Ok(two),
        Err(AllocError) => Err(TwoFault::Memory),
    }
}
