//! Blocks that texts spell.
ghost use Rattle.std.specs.Prelude.{IfOk};
ghost use Rattle.fuzzy_meaning.specs.Blocks.{IsValid};

use fcl_check::load;
use fcl_syntax::parse;
use fuzzy_meaning::Block;
use std::alloc::Global;
use std::test::Fail;
use test_texts::joined;

/// The block of a text.
pub(crate) fn block_of(alloc: Global, text: &[u8]) -> Result<Block, Fail>
    ensures { IfOk result IsValid }
{
    if text.len() > 1_048_576 {
        return Err(Fail::new("too long"));
    }
    let tree = parse(alloc, text)?;
    Ok(load(alloc, &tree)?)
}

/// The block of a text in parts.
pub(crate) fn block_in(alloc: Global, parts: &[&str]) -> Result<Block, Fail>
    ensures { IfOk result IsValid }
{
    block_of(alloc, joined(alloc, parts)?.as_bytes())
}
