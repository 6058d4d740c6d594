//! Laws of EVAL and its data.
ghost use Rattle.eval_code.specs.{Bounds.BoundsAreFew, Evaluation.EvalAnswers, Firing.RulesGiveMasses};
ghost use Rattle.eval_code.specs.Frames.{FramesLeave};
ghost use Rattle.eval_code.specs.Placed.{BlockGivesBytes, BlockHasParts, BlockIsShort, BlockRises, BlockStands};
ghost use Rattle.eval_code.specs.Placed.{BlockGivesAtParts, BlockStaysInside, GivesBehind};
ghost use Rattle.eval_code.specs.Standing.{BytesStand, CodeIsBytes, CodeStands, DecodesWhereItStands, ImageIsBytes};
ghost use Rattle.eval_code.specs.Standing.{ZeroBelow};

use byte_scaling::laws::nearest_is_byte;
use cpu12_asm::laws::rising_items;
use cpu12_emul::laws::holds_image;
use cpu12_isa::laws::{
    decodes_encoded, encoded_are_bytes, plain_instructions_leave, stays_fit, writes_stay,
};
use rule_layout::laws::{layout_law, mass_law};

/// The rules leave the masses of the outputs' terms in their slots.
pub fn rules_give_masses()
    ensures { RulesGiveMasses }
{
    layout_law();
    mass_law();
}

/// An instruction is decoded wherever its bytes are, and code whose operands fit consists of bytes.
pub fn code_is_decoded()
    ensures decoded { DecodesWhereItStands }
    ensures bytes { CodeIsBytes }
{
    decodes_encoded();
    encoded_are_bytes();
}

/// In the memory of an image of ascending items, bytes and code that follow a place are there from it on, and
/// below the first place memory is 0; if what they give are bytes, it is a memory of bytes.
pub fn placed_items_stand()
    ensures bytes { BytesStand }
    ensures code { CodeStands }
    ensures below { ZeroBelow }
    ensures fits { ImageIsBytes }
{
    rising_items();
    holds_image();
}

/// A run in a frame leaves SP, I and X, the bytes that the frame does not write, and no sums where there were none.
pub fn frames_leave()
    ensures { FramesLeave }
{
    writes_stay();
}

/// EVAL answers a block over bytes, as bytes or in 16 bits, at the addresses of any memory map whose regions are
/// disjoint, wherever SP is and whether or not interrupts are masked. It goes from its first instruction to after
/// its last, and accesses only what its memory map reserves for it.
pub fn eval_answers()
    ensures { EvalAnswers }
{
    layout_law();
    nearest_is_byte();
    stays_fit();
    plain_instructions_leave();
    encoded_are_bytes();
    code_is_decoded();
    rules_give_masses();
}

/// The bound on a sample's instructions is from 13 to 2000; that on the steps of this many instructions is at most
/// 5 less and at most 10044 more.
pub fn bounds_are_few()
    ensures { BoundsAreFew }
{
    layout_law();
}

/// A block's items at a memory map, with code before and after EVAL, ascend, are few, and give bytes only at its
/// parts, from the code to the rule list's end; each part of its data has a byte. In the memory of an image of
/// ascending items that include these, EVAL is there with its data, between that code.
pub fn blocks_are_placed()
    ensures rises { BlockRises }
    ensures short { BlockIsShort }
    ensures parts { BlockHasParts }
    ensures inside { BlockStaysInside }
    ensures at_parts { BlockGivesAtParts }
    ensures behind { GivesBehind }
    ensures bytes { BlockGivesBytes }
    ensures stands { BlockStands }
{
    layout_law();
    nearest_is_byte();
    encoded_are_bytes();
    rising_items();
    holds_image();
}
