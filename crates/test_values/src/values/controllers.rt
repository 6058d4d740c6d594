//! Tight certificates of controllers of two and three inputs. Halving them to thousands of leaves takes more steps than
//! `rt try` does by itself: give it `--steps 20000000000`.
ghost use Rattle.fuzzy_meaning.specs.Blocks.{IsValid};

use super::blocks::block_of;
use arrayvec::ArrayVec;
use box_tree::{Cert, CertFormat};
use error_certifier::{NotReached, Targets, certify_each, certify_for};
use fuzzy_meaning::Block;
use std::alloc::Global;
use std::test::Fail;
use test_texts::{BLIND, DRYER, PUMP, ROOM};

/// What halving gives.
enum Found {
    /// The error of each output, and how many leaves.
    Leaves(&'static [u32], usize),
    /// The bytes of a cell, the output that is above its target there, and its Bound.
    Cell(&'static [u8], u8, u32),
    LeafLimit,
}

/// A block, a target for all outputs or one for each, and what halving gives.
struct Row(&'static str, &'static [u32], Found);

static ROWS: [Row; 13] = [
    Row(ROOM, &[19_898], Found::Leaves(&[19_898, 10_172], 278)),
    Row(ROOM, &[19_898, 6250], Found::Leaves(&[19_898, 6250], 357)),
    Row(ROOM, &[19_897, 6250], Found::Cell(&[129, 247], 1, 19_898)),
    Row(ROOM, &[19_898, 6249], Found::Cell(&[0, 1], 2, 6250)),
    Row(PUMP, &[1_000_000], Found::Leaves(&[75_537], 122)),
    Row(PUMP, &[34_008], Found::Leaves(&[34_008], 1038)),
    Row(PUMP, &[34_007], Found::Cell(&[191, 190, 129], 1, 34_008)),
    Row(BLIND, &[1_000_000], Found::Leaves(&[1_000_000], 159)),
    Row(BLIND, &[61_518], Found::Leaves(&[61_518], 4096)),
    Row(BLIND, &[61_517], Found::LeafLimit),
    Row(DRYER, &[1_000_000], Found::Leaves(&[23_438], 64)),
    Row(DRYER, &[14_926], Found::Leaves(&[14_926], 3280)),
    Row(DRYER, &[14_925], Found::Cell(&[0, 191, 1], 1, 14_926)),
];

/// The tight certificate for one target or for two, or why there is none.
fn halved(alloc: Global, block: &Block, targets: &[u32]) -> Result<Result<Cert, NotReached>, Fail>
    requires { IsValid block.now }
{
    match targets {
        [target] if *target <= 1_000_000 => {
            Ok(certify_for(alloc, CertFormat::TIGHT, block, *target))
        }
        [first, second] if *first <= 1_000_000 && *second <= 1_000_000 => {
            let mut each = ArrayVec::new();
            each.push(*first);
            each.push(*second);
            let targets = Targets::Each(each);
            Ok(certify_each(alloc, CertFormat::TIGHT, block, &targets))
        }
        _ => Err(Fail::new("no target")),
    }
}

fn is_found(found: &Result<Cert, NotReached>, wanted: &Found) -> bool {
    match (found, wanted) {
        (Ok(cert), Found::Leaves(errors, leaves)) => {
            cert.claims.as_slice() == *errors && cert.nodes.len() / 2 + 1 == *leaves
        }
        (Err(NotReached::Cell(bytes, output, bound)), Found::Cell(cell, out, above)) => {
            bytes.as_slice() == *cell && (output, bound) == (out, above)
        }
        (Err(NotReached::LeafLimit), Found::LeafLimit) => true,
        _ => false,
    }
}

#[test]
fn controllers_are_halved(rt: HostRuntime) -> Result<(), Fail> {
    let alloc = rt.alloc();
    for Row(fcl, targets, wanted) in ROWS.iter() {
        let block = block_of(alloc, fcl.as_bytes())?;
        let found = halved(alloc, &block, targets)?;
        assert!(rt; is_found(&found, wanted));
    }
    Ok(())
}
