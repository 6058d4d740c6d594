//! Firmware that stands alone, by a call for each width of its answers.
//!
//! Who knows the width beforehand calls these; the others take it as an argument.
ghost use Rattle.std.specs.Prelude.{◌≡◌, IfOk, IfErr, OnOk};
ghost use Rattle.fuzzy_meaning.specs.Blocks.{IsValid};
ghost use Rattle.rule_layout.specs.Layouts.{IsWithinLimits, IsFaultOf};
ghost use Rattle.firmware_code.specs.Uninterrupted.{AnswersUninterrupted};
ghost use Rattle.alone_code.specs.{Firmwares.IsFirmwareOf, Answers.AnswersFrom};
ghost use Rattle.byte_scaling.specs.declared.width.Width.TheVariants.{Byte, Word};

use crate::firmware::compile_for;
use byte_scaling::Width;
use firmware_code::Firmware;
use fuzzy_meaning::Block;
use rule_layout::LayoutFault;
use std::alloc::Global;

/// [`compile_for`] for answers that are bytes.
pub fn compile(alloc: Global, block: &Block) -> Result<Firmware, LayoutFault>
    requires { IsValid block.now }
    ensures firmware { IfOk result (IsFirmwareOf block.now) }
    ensures width { IfOk result (λ f. f.width ≡ Byte) }
    ensures answers { IfOk result (AnswersFrom block.now) }
    ensures uninterrupted { IfOk result (AnswersUninterrupted block.now) }
    ensures limits { OnOk result (IsWithinLimits block.now) }
    ensures fault { IfErr result (IsFaultOf block.now) }
{
    compile_for(alloc, Width::Byte, block)
}

/// [`compile_for`] for answers of 16 bits.
pub fn compile16(alloc: Global, block: &Block) -> Result<Firmware, LayoutFault>
    requires { IsValid block.now }
    ensures firmware { IfOk result (IsFirmwareOf block.now) }
    ensures width { IfOk result (λ f. f.width ≡ Word) }
    ensures answers { IfOk result (AnswersFrom block.now) }
    ensures uninterrupted { IfOk result (AnswersUninterrupted block.now) }
    ensures limits { OnOk result (IsWithinLimits block.now) }
    ensures fault { IfErr result (IsFaultOf block.now) }
{
    compile_for(alloc, Width::Word, block)
}
