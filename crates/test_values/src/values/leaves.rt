//! Leaves over the bytes of one input: their Bounds, or why they do not hold, and the best ones.
ghost use Rattle.std.specs.Prelude.{◌≡◌, ◌≤◌, length};
ghost use Rattle.fuzzy_meaning.specs.Blocks.{IsValid};
ghost use Rattle.error_bound.specs.Boxes.{IsBoxOf};

use super::blocks::block_of;
use arrayvec::ArrayVec;
use error_bound::LeafFault::{Loud, Silent, Still, Weak};
use error_bound::{
    ByteBox, Interval, Leaf, LeafFault, best, is_pair_for, leaf_bound, leaf_bound16,
};
use fuzzy_meaning::Block;
use fz_num::Nano;
use std::process::Abort;
use std::test::Fail;
use test_texts::{BLOCK, LATCH, ROUNDED};

/// A leaf's rule and `k`, with its Bound for answers that are bytes and that for answers of 16 bits, or why it does
/// not hold.
type Bounded = ((u16, u8), Result<(u32, u32), LeafFault>);

/// The best leaf of a block's only output over the bytes of a range, and the Bounds or faults of other leaves there.
struct Boxed {
    fcl: &'static str,
    from: u8,
    to: u8,
    best: Option<(u16, u8)>,
    leaves: &'static [Bounded],
}

// A row is a block's text, the bytes from one to another, the best leaf, and leaves with what is told of them.
macro_rules! boxes {
    ($($fcl:ident $from:literal to $to:literal best $best:expr => [$($leaf:expr),*];)*) => {
        [$(Boxed { fcl: $fcl, from: $from, to: $to, best: $best, leaves: &[$($leaf),*] }),*]
    };
}

static BOXES: [Boxed; 8] = boxes! {
    BLOCK 0 to 255 best None => [
        ((0, 0), Err(Silent(1, Nano(1_000_000_000)))),
        ((1, 1), Err(Weak(1, 1, Nano(0)))),
        ((2, 1), Err(Weak(2, 1, Nano(0))))
    ];
    BLOCK 0 to 127 best Some((1, 127)) => [
        ((1, 127), Ok((19609, 15702))),
        ((1, 128), Err(Weak(1, 128, Nano(500_000_000)))),
        ((1, 1), Ok((1_000_000, 1_000_000)))
    ];
    // Both rules come down to 127/256, and to the byte 127.
    BLOCK 127 to 128 best Some((1, 126)) => [
        ((1, 126), Ok((11859, 7952))),
        ((2, 126), Ok((11859, 7952))),
        ((2, 127), Err(Weak(2, 127, Nano(496_093_750))))
    ];
    ROUNDED 0 to 55 best None => [
        ((0, 0), Err(Loud(1, 55))),
        ((1, 1), Err(Weak(1, 1, Nano(0)))),
        ((2, 1), Err(Still(2))),
        ((2, 2), Err(Weak(2, 2, Nano(5_000_000))))
    ];
    ROUNDED 0 to 56 best None => [((0, 0), Err(Silent(1, Nano(5_000_000)))), ((2, 1), Err(Still(2)))];
    ROUNDED 128 to 255 best Some((1, 91)) => [
        ((1, 91), Ok((813_580, 809_674))),
        ((2, 1), Err(Weak(2, 1, Nano(0))))
    ];
    LATCH 64 to 191 best Some((0, 0)) => [((0, 0), Ok((0, 0))), ((1, 1), Err(Weak(1, 1, Nano(0))))];
    LATCH 192 to 255 best Some((2, 255)) => [
        ((2, 255), Ok((3922, 16))),
        ((0, 0), Err(Silent(2, Nano(1_000_000_000))))
    ];
};

/// The box of these bytes of a block's only input.
pub(crate) fn box_of(block: &Block, from: u8, to: u8) -> ByteBox
    requires input { length block.now.inputs ≡ 1 }
    requires bytes { from ≤ to }
    ensures { IsBoxOf block.now result.0.items }
{
    let mut intervals = ArrayVec::new();
    intervals.push(Interval { from, to });
    ByteBox(intervals)
}

/// Fails if a leaf of the only output has another Bound or another fault.
fn are_bounded(rt: &impl Abort, block: &Block, bytes: &ByteBox, wanted: &[Bounded])
    requires block { IsValid block.now }
    requires bytes { IsBoxOf block.now bytes.now.0.items }
    requires output { length block.now.outputs ≡ 1 }
{
    for ((rule, k), bounds) in wanted {
        let leaf = Leaf { rule: *rule, k: *k };
        assert!(rt; is_pair_for(block, &leaf, 1));
        assert!(rt; leaf_bound(block, bytes, &leaf, 1) == bounds.map(|bound| bound.0));
        assert!(rt; leaf_bound16(block, bytes, &leaf, 1) == bounds.map(|bound| bound.1));
    }
}

#[test]
fn leaves_have_bounds_or_faults(rt: HostRuntime) -> Result<(), Fail> {
    for row in BOXES.iter() {
        let block = block_of(rt.alloc(), row.fcl.as_bytes())?;
        assert!(rt; block.inputs.len() == 1);
        assert!(rt; block.outputs.len() == 1);
        assert!(rt; row.from <= row.to);
        let bytes = box_of(&block, row.from, row.to);
        let found = best(&block, &bytes, 1);
        assert!(rt; found.map(|leaf| (leaf.rule, leaf.k)) == row.best);
        are_bounded(&rt, &block, &bytes, row.leaves);
    }
    Ok(())
}
