//! The leaf of a box, for either kind of certificate.
ghost use Rattle.std.specs.Prelude.{◌≡◌, ◌≤◌, ◌<◌, ◌+◌, ℕ, length, IfOk, IfErr, IfSome, Some, slice_get, slice_index};
ghost use Rattle.fuzzy_meaning.specs.{declared.block.Output.Output, Blocks.output_at};
ghost use Rattle.error_bound.specs.{Reaches.IsTable, BestLeaves.IsBestBound, Tight.IsTightBound, Tight.IsTightCount};
ghost use Rattle.box_tree.specs.declared.cert.CertKind.TheVariants.{Named, Tight};
ghost use Rattle.box_tree.specs.Certificates.{IsPair};
ghost use Rattle.error_certifier.specs.Halving.{IsWithinTarget, IsFirstAbove};
ghost use Rattle.error_certifier.specs.Trees.{AreTightBounds, IsFoundLeaf};
ghost use Rattle.error_bound.specs.Reaches.{block_of, box_of, parts_of};

use arrayvec::ArrayVec;
use box_tree::LeafLine;
use error_bound::laws::{best_leaves_hold, faulty_leaves_fail};
use error_bound::{BoxTable, Interval, Leaf};

/// A leaf within the targets: what its line states, and its Bound for each output, at its index.
#[derive(Drop)]
pub(crate) struct FoundLeaf {
    pub(crate) stated: LeafLine,
    pub(crate) bounds: [u32; 4],
}

/// What becomes of a box.
#[derive(Drop)]
pub(crate) enum Piece {
    /// A leaf.
    Leaf(FoundLeaf),
    /// It is to be cut in the interval at this index.
    Cut(usize, Interval),
}

/// The index of the first output whose best leaf is above its target, and that leaf's Bound.
#[derive(Clone, Copy)]
pub(crate) struct Above {
    pub(crate) place: u8,
    pub(crate) bound: u32,
}

/// The leaf with the best pairs of a table's box, if each is within its output's target.
pub(crate) fn best_leaf(table: &BoxTable<'_>, targets: &[u32]) -> Result<FoundLeaf, Above>
    requires table { IsTable table.now }
    requires targets { length targets.now ≡ length (block_of table.now).outputs }
    requires millionths { (k : ℕ) → slice_index targets.now k ≤ 1000000 }
    ensures leaf { IfOk result
        (IsFoundLeaf Named (block_of table.now) (parts_of table.now) targets.now (box_of table.now)) }
    ensures above { IfErr result
        (λ a. IsFirstAbove Named (block_of table.now) (parts_of table.now) targets.now (box_of table.now) a.place
        a.bound) }
{
    best_leaves_hold();
    let mut pairs = ArrayVec::new();
    let mut bounds = [0; 4];
    for o in 0..table.table.block.outputs.len() {
        match best_within(table, o as u8, targets[o]) {
            Ok((leaf, bound)) => {
                pairs.push((leaf.rule, leaf.k));
                bounds[o] = bound;
            }
            Err(bound) => {
                return Err(Above {
                    place: o as u8,
                    bound,
                });
            }
        }
    }
    Ok(FoundLeaf {
        stated: LeafLine::Pairs(pairs),
        bounds,
    })
}

/// The tight Bounds of a table's box, each at the index of its output, if each is within its output's target.
pub(crate) fn tight_bounds(table: &BoxTable<'_>, targets: &[u32]) -> Result<[u32; 4], Above>
    requires table { IsTable table.now }
    requires targets { length targets.now ≡ length (block_of table.now).outputs }
    requires millionths { (k : ℕ) → slice_index targets.now k ≤ 1000000 }
    ensures bounds { IfOk result
        (AreTightBounds (block_of table.now) (parts_of table.now) targets.now (box_of table.now)) }
    ensures above { IfErr result
        (λ a. IsFirstAbove Tight (block_of table.now) (parts_of table.now) targets.now (box_of table.now) a.place
        a.bound) }
{
    let mut bounds = [0; 4];
    for o in 0..table.table.block.outputs.len() {
        match tight_within(table, o as u8, targets[o]) {
            Ok(bound) => bounds[o] = bound,
            Err(bound) => {
                return Err(Above {
                    place: o as u8,
                    bound,
                });
            }
        }
    }
    Ok(bounds)
}

/// The tight Bound for the output at an index, if it is at most a target; else the Bound as the error, or
/// 1000001 if there is none.
fn tight_within(table: &BoxTable<'_>, place: u8, target: u32) -> Result<u32, u32>
    requires table { IsTable table.now }
    requires place { place < length (block_of table.now).outputs }
    requires target { target ≤ 1000000 }
    ensures bound { IfOk result (λ bound. IfSome (output_at (block_of table.now) (place + 1))
        (λ x. IsTightBound (block_of table.now) (box_of table.now) (place + 1) x (parts_of table.now) bound)) }
    ensures within { IfOk result (λ bound. bound ≤ target) }
    ensures above { IfErr result (λ bound. target < bound) }
    ensures count { IfErr result (λ bound. IfSome (output_at (block_of table.now) (place + 1))
        (λ x. IsTightCount (block_of table.now) (box_of table.now) (place + 1) x (parts_of table.now) bound)) }
{
    match table.tight_bound(place + 1) {
        Some(bound) if bound <= target => Ok(bound),
        Some(bound) => Err(bound),
        None => Err(1_000_001),
    }
}

/// The best leaf for the output at an index with its Bound, if that is at most a target; else the
/// Bound as the error, or 1000001 if there is no best leaf.
fn best_within(table: &BoxTable<'_>, place: u8, target: u32) -> Result<(Leaf, u32), u32>
    requires table { IsTable table.now }
    requires place { place < length (block_of table.now).outputs }
    requires target { target ≤ 1000000 }
    ensures within { IfOk result (λ best. (x : Output) → slice_get (block_of table.now).outputs place ≡ Some x
        → IsWithinTarget (block_of table.now) (parts_of table.now) target (box_of table.now) (place + 1) x best.0
        best.1) }
    ensures pair { IfOk result (λ best. IsPair (best.0.rule, best.0.k)) }
    ensures above { IfErr result (λ bound. target < bound) }
    ensures bound { IfErr result (λ bound. (x : Output) → slice_get (block_of table.now).outputs place ≡ Some x
        → IsBestBound (block_of table.now) (box_of table.now) (place + 1) x (parts_of table.now) bound) }
{
    best_leaves_hold();
    faulty_leaves_fail();
    let Some(leaf) = table.best(place + 1) else {
        return Err(1_000_001);
    };
    match table.bound(&leaf, place + 1) {
        Ok(bound) if bound <= target => Ok((leaf, bound)),
        Ok(bound) => Err(bound),
        Err(_) => unreachable!(),
    }
}
