//! Laws of the trees that texts spell. Each is the contract of a function that only calls a law on which
//! it depends.
ghost use Rattle.fcl_syntax.specs.{Offsets.OffsetsAscend, Scale.NumbersInScale};
ghost use Rattle.fcl_syntax.specs.Readings.{EachTextIsRead, FirstFaultsAreOne, TreesAreOne};

use fcl_tokens::laws::{cuts_are_tokens, tokens_ascend, tokens_in_scale};

/// No number in the tree of a text is beyond 100000, since a number token beyond it is a fault.
pub fn numbers_in_scale()
    ensures { NumbersInScale }
{
    tokens_in_scale()
}

/// The offsets in the tree of a text ascend in the order in which the grammar spells its parts, and
/// they lie within the text.
pub fn offsets_ascend()
    ensures { OffsetsAscend }
{
    tokens_ascend()
}

/// Every text of at most 1048576 bytes spells a tree or has a first fault.
pub fn each_text_is_read()
    ensures { EachTextIsRead }
{
    cuts_are_tokens()
}

/// A text spells at most one tree.
pub fn trees_are_one()
    ensures { TreesAreOne }
{
    cuts_are_tokens()
}

/// A text has at most one first fault, and none if it spells a tree.
pub fn first_faults_are_one()
    ensures { FirstFaultsAreOne }
{
    cuts_are_tokens()
}
