//! From a text to its block, and to the block's firmware.
ghost use Rattle.std.specs.Prelude.{IfOk, IfErr, OnOk};
ghost use Rattle.fuzzy_meaning.specs.Blocks.{IsValid};
ghost use Rattle.rule_layout.specs.Layouts.{IsFaultOf, IsWithinLimits};
ghost use Rattle.fcl_check.specs.Texts.{SpellsBlock};
ghost use Rattle.command_parts.specs.Firmwares.{GivesBlock, GivesFirmware, IsOfForm, text_refusals};
ghost use Rattle.fz_status.specs.Refusals.{IsRefusal};

use crate::contents::Content;
use alone_code::compile_for;
use byte_scaling::Width;
use fcl_check::load;
use fcl_syntax::parse;
use firmware_code::Firmware;
use fuzzy_meaning::Block;
use fz_status::Status;
use mailbox_code::compile_post;
use rule_layout::{LayoutFault, require_limits};
use std::alloc::Global;
use watched_code::compile_scrub;

/// A block with its firmware.
#[derive(Drop)]
pub struct Compiled {
    /// The block that the text spells.
    pub block: Block,
    /// The block's firmware.
    pub firmware: Firmware,
}

/// The form of a block's firmware: what is around EVAL in it.
#[derive(Clone, Copy)]
pub enum Form {
    /// The firmware stands alone, with answers of this width.
    Alone(Width),
    /// Interrupts post its samples.
    Mailbox,
    /// It watches its tables.
    Watched,
}

/// The block that the text spells, and its firmware of this form. Faults of the grammar come first,
/// then those of the block, then those of the layout.
pub fn firmware_of(alloc: Global, form: Form, text: &Content) -> Result<Compiled, Status>
    ensures gives { IfOk result (λ c. GivesFirmware form text.now c.block c.firmware) }
    ensures fault { IfErr result (IsRefusal (text_refusals text.now)) }
{
    let block = spelled_block(alloc, text)?;
    let firmware = compile_form(alloc, form, &block)?;
    Ok(Compiled { block, firmware })
}

/// A block's firmware of this form.
fn compile_form(alloc: Global, form: Form, block: &Block) -> Result<Firmware, LayoutFault>
    requires { IsValid block.now }
    ensures firmware { IfOk result (IsOfForm form block.now) }
    ensures limits { OnOk result (IsWithinLimits block.now) }
    ensures fault { IfErr result (IsFaultOf block.now) }
{
    match form {
        Form::Alone(width) => compile_for(alloc, width, block),
        Form::Mailbox => compile_post(alloc, block),
        Form::Watched => compile_scrub(alloc, block),
    }
}

/// The block that the text spells, which can be laid out. The faults are those of `firmware_of`.
pub fn block_of(alloc: Global, text: &Content) -> Result<Block, Status>
    ensures gives { IfOk result (GivesBlock text.now) }
    ensures fault { IfErr result (IsRefusal (text_refusals text.now)) }
{
    let block = spelled_block(alloc, text)?;
    require_limits(alloc, &block)?;
    Ok(block)
}

/// The block that the text spells.
pub fn spelled_block(alloc: Global, text: &Content) -> Result<Block, Status>
    ensures block { IfOk result (SpellsBlock text.now) }
    ensures fault { IfErr result (IsRefusal (text_refusals text.now)) }
{
    let tree = parse(alloc, text.bytes())?;
    Ok(load(alloc, &tree)?)
}
