//! From two texts to their blocks, and to the firmware of both at two levels.
ghost use Rattle.std.specs.Prelude.{IfOk, IfErr};
ghost use Rattle.command_parts.specs.{Firmwares.GivesBlock, Firmwares.text_refusals, Twos.GivesTwo, Twos.two_refusals};
ghost use Rattle.two_level_code.specs.Images.{IsTwoOf};
ghost use Rattle.fz_status.specs.Refusals.{IsRefusal};

use crate::contents::Content;
use crate::firmware::spelled_block;
use fuzzy_meaning::Block;
use fz_status::Status;
use rule_layout::{LaidOut, spread};
use std::alloc::Global;
use two_level_code::{Two, compile_two_laid_out};

/// A slow and a fast block with the firmware of both.
#[derive(Drop)]
pub struct CompiledTwoLevel {
    /// The block that the first text spells.
    pub slow: Block,
    /// The block that the second text spells, which runs inside the interrupts of the first.
    pub fast: Block,
    /// The firmware of both.
    pub two: Two,
}

/// The blocks that the texts spell, and the firmware of both. Faults of the first text come first, and
/// then those of the second, as faults of the fast block's file.
pub fn two_of(alloc: Global, slow: &Content, fast: &Content) -> Result<CompiledTwoLevel, Status>
    ensures gives { IfOk result (λ c. GivesTwo slow.now fast.now c.slow c.fast c.two) }
    ensures fault { IfErr result (IsRefusal (two_refusals slow.now fast.now)) }
{
    let slow = spelled_block(alloc, slow)?;
    let beside = two_beside(alloc, &spread(alloc, &slow)?, fast);
    match beside {
        Ok((fast, two)) => Ok(CompiledTwoLevel { slow, fast, two }),
        Err(status) => Err(status.of_fast()),
    }
}

/// The fast block that the text spells, and its firmware beside the slow block.
fn two_beside(alloc: Global, slow: &LaidOut<'_>, fast: &Content) -> Result<(Block, Two), Status>
    ensures fast { IfOk result (λ p. GivesBlock fast.now p.0) }
    ensures two { IfOk result (λ p. IsTwoOf slow.now.block.now p.0 p.1) }
    ensures fault { IfErr result (IsRefusal (text_refusals fast.now)) }
{
    let fast = spelled_block(alloc, fast)?;
    let two = compile_two_laid_out(alloc, slow, &spread(alloc, &fast)?)?;
    Ok((fast, two))
}
