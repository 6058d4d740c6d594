//! Halving, box by box.
ghost use Rattle.std.specs.Prelude.{◌≡◌, ◌≢◌, ◌≤◌, ◌<◌, ◌+◌, ◌++◌, ◌∷◌, ℕ, length, replicate, OnOk, IfOk, IfErr, []};
ghost use Rattle.fuzzy_meaning.specs.Blocks.{IsValid};
ghost use Rattle.error_bound.specs.{Boxes.IsBoxOf};
ghost use Rattle.box_tree.specs.declared.cert.CertKind.TheVariants as kind;
ghost use Rattle.box_tree.specs.declared.cert.Node.TheVariants as node;
ghost use Rattle.cert_check.specs.Walks.{AreRaised};
ghost use Rattle.error_certifier.specs.{Halving.Stops, Halving.IsAbove, Targets.AreTargets};
ghost use Rattle.error_certifier.specs.Trees.{IsTask, IsTreeFor, IsPiece, GrowsBy, StopsTask, IsTaskPiece};
ghost use Rattle.error_bound.specs.Reaches.{IsTableOf, block_of, box_of, parts_of, IsTable};

use crate::boxes::{middle, widest};
use crate::certifier::NotReached;
use crate::leaves::{FoundLeaf, Piece, best_leaf, tight_bounds};
use arrayvec::ArrayVec;
use box_tree::{Cert, CertKind, LeafLine, Node};
use byte_scaling::Width;
use cell_bounds::laws::narrowed_boxes_stand_for_all;
use cell_bounds::{cells_bounds, has_few_cells, low_bytes};
use cert_check::laws::cuts_have_halves;
use cert_check::{halves, raise};
use error_bound::{BlockTable, BoxTable, ByteBox};
use fuzzy_meaning::Block;
use fz_list::List;
use std::alloc::{AllocError, Global};

/// The greatest number of leaves of a certificate that halving gives.
const MOST_LEAVES: u16 = 4096;

/// What is halved, and for which targets.
#[derive(Drop)]
pub(crate) struct Task<'a> {
    kind: CertKind,
    /// What all boxes need to know about the block.
    pub(crate) table: BlockTable<'a>,
    /// The target of each output.
    targets: ArrayVec<u32, 4>,
}

/// The part of a tree that is built so far, from the left.
#[derive(Drop)]
pub(crate) struct Tree {
    nodes: Vec<Node>,
    /// The greatest Bound of the leaves for each output.
    errors: Vec<u32>,
    leaves: u16,
}

impl<'a> Task<'a> {
    pub(crate) fn new(
        alloc: Global,
        kind: CertKind,
        block: &'a Block,
        targets: ArrayVec<u32, 4>,
        width: Width,
    ) -> Result<Task<'a>, AllocError>
        requires block { IsValid block.now }
        requires targets { AreTargets block.now targets.items }
        ensures task { IfOk result IsTask }
        ensures kind { IfOk result (λ task. task.kind ≡ kind) }
        ensures block { IfOk result (λ task. task.table.block.now ≡ block.now) }
        ensures targets { IfOk result (λ task. task.targets.items ≡ targets.items) }
        ensures width { IfOk result (λ task. task.table.width ≡ width) }
    {
        let table = BlockTable::new(alloc, block, width)?;
        Ok(Task {
            kind,
            table,
            targets,
        })
    }

    /// Halves a box until each part of it is a leaf, and appends the nodes to those of the tree.
    /// The table is moved from box to box.
    pub(crate) fn halve(
        &self,
        bytes: ByteBox,
        table: &mut BoxTable,
        tree: &mut Tree,
    ) -> Result<(), NotReached>
        requires task { IsTask self.now }
        requires bytes { IsBoxOf self.now.table.block.now bytes.0.items }
        requires table { IsTableOf self.now.table table.old }
        requires tree { IsTreeFor self.now.table.block.now tree.old }
        ensures table { IsTableOf self.now.table table.new }
        ensures tree { OnOk result (IsTreeFor self.now.table.block.now tree.new) }
        ensures grows { OnOk result (GrowsBy self.now bytes.0.items tree.old tree.new) }
        ensures stops { IfErr result (λ stop. stop ≢ NotReached.Memory
            → StopsTask self.now bytes.0.items tree.old.leaves stop) }
    {
        cuts_have_halves();
        let (place, interval) = match self.found(&bytes, table) {
            Ok(Piece::Leaf(leaf)) => return tree.push_leaf(leaf),
            Ok(Piece::Cut(place, interval)) => (place, interval),
            Err(stop) => return Err(stop),
        };
        let cut = middle(interval);
        if tree.nodes.push(Node::Split(place as u8 + 1, cut)).is_err() {
            return Err(NotReached::Memory);
        }
        let (left, right) = halves(bytes, place, interval, cut);
        self.halve(left, table, tree)?;
        self.halve(right, table, tree)
    }

    /// What becomes of a box, or the cell in it that is above a target.
    fn found(&self, bytes: &ByteBox, table: &mut BoxTable) -> Result<Piece, NotReached>
        requires task { IsTask self.now }
        requires bytes { IsBoxOf self.now.table.block.now bytes.now.0.items }
        requires table { IsTableOf self.now.table table.old }
        ensures table { IsTableOf self.now.table table.new }
        ensures piece { IfOk result (IsTaskPiece self.now bytes.now.0.items) }
        ensures stuck { IfErr result (λ stop. (n : ℕ) → StopsTask self.now bytes.now.0.items n stop) }
    {
        table.move_to(bytes);
        match self.kind {
            CertKind::Named => self.named_leaf(table),
            CertKind::Tight => self.tight_leaf(table),
        }
    }

    /// The same for a table's box and a plain certificate.
    fn named_leaf(&self, table: &BoxTable) -> Result<Piece, NotReached>
        requires table { IsTable table.now }
        requires targets { AreTargets (block_of table.now) self.now.targets.items }
        ensures piece { IfOk result
            (IsPiece kind.Named (block_of table.now) (parts_of table.now) self.now.targets.items (box_of table.now)) }
        ensures stuck { IfErr result (λ stop. (n : ℕ) → Stops kind.Named (block_of table.now) (parts_of table.now)
            self.now.targets.items (box_of table.now) n stop) }
    {
        match best_leaf(table, self.targets.as_slice()) {
            Ok(leaf) => Ok(Piece::Leaf(leaf)),
            Err(above) => {
                let (place, interval) = widest(&table.bytes);
                if interval.from == interval.to {
                    Err(NotReached::Cell(low_bytes(&table.bytes), above.place + 1, above.bound))
                } else {
                    Ok(Piece::Cut(place, interval))
                }
            }
        }
    }

    /// The same for a table's box and a tight certificate.
    fn tight_leaf(&self, table: &BoxTable) -> Result<Piece, NotReached>
        requires table { IsTable table.now }
        requires targets { AreTargets (block_of table.now) self.now.targets.items }
        ensures piece { IfOk result
            (IsPiece kind.Tight (block_of table.now) (parts_of table.now) self.now.targets.items (box_of table.now)) }
        ensures stuck { IfErr result (λ stop. (n : ℕ) → Stops kind.Tight (block_of table.now) (parts_of table.now)
            self.now.targets.items (box_of table.now) n stop) }
    {
        match tight_bounds(table, self.targets.as_slice()) {
            Ok(bounds) => Ok(Piece::Leaf(FoundLeaf {
                stated: LeafLine::Tight,
                bounds,
            })),
            Err(_above) => self.cells_leaf(table),
        }
    }

    /// The same for a tight certificate, if the tight leaf of the table's box is above a target.
    fn cells_leaf(&self, table: &BoxTable) -> Result<Piece, NotReached>
        requires table { IsTable table.now }
        requires targets { AreTargets (block_of table.now) self.now.targets.items }
        requires above { IsAbove kind.Tight (block_of table.now) (parts_of table.now) self.now.targets.items
            (box_of table.now) }
        ensures piece { IfOk result
            (IsPiece kind.Tight (block_of table.now) (parts_of table.now) self.now.targets.items (box_of table.now)) }
        ensures stuck { IfErr result (λ stop. (n : ℕ) → Stops kind.Tight (block_of table.now) (parts_of table.now)
            self.now.targets.items (box_of table.now) n stop) }
    {
        narrowed_boxes_stand_for_all();
        let narrow = table.narrowed();
        if !has_few_cells(&narrow) {
            let (place, interval) = widest(&narrow);
            return Ok(Piece::Cut(place, interval));
        }
        match cells_bounds(table.table, &narrow, self.targets.as_slice()) {
            Ok(bounds) => Ok(Piece::Leaf(FoundLeaf {
                stated: LeafLine::Cells,
                bounds,
            })),
            Err(above) => Err(NotReached::Cell(above.bytes, above.out, above.bound)),
        }
    }
}

impl Tree {
    /// A tree without nodes yet, for this number of outputs.
    pub(crate) fn new(alloc: Global, outputs: usize) -> Result<Tree, AllocError>
        ensures nodes { IfOk result (λ tree. tree.nodes.items ≡ []) }
        ensures errors { IfOk result (λ tree. tree.errors.items ≡ replicate outputs 0) }
        ensures leaves { IfOk result (λ tree. tree.leaves ≡ 0) }
    {
        let errors = vec![in alloc; 0; outputs]?;
        Ok(Tree {
            nodes: Vec::new(alloc),
            errors,
            leaves: 0,
        })
    }

    /// Appends a leaf to the nodes, and raises the errors to at least its Bounds.
    fn push_leaf(&mut self, leaf: FoundLeaf) -> Result<(), NotReached>
        requires { length self.old.errors.items ≤ 4 }
        ensures nodes { OnOk result (self.new.nodes.items ≡ self.old.nodes.items ++ node.Leaf leaf.stated ∷ []) }
        ensures errors { OnOk result (AreRaised leaf.bounds self.old.errors.items self.new.errors.items) }
        ensures leaves { OnOk result (self.new.leaves ≡ self.old.leaves + 1) }
        ensures few { OnOk result (self.old.leaves < 4096) }
        ensures limit { IfErr result (λ stop.
            stop ≢ NotReached.Memory → (stop ≡ NotReached.LeafLimit) × (4096 ≤ self.old.leaves)) }
        ensures full { IfErr result (λ stop. 4096 ≤ self.old.leaves → stop ≡ NotReached.LeafLimit) }
    {
        if self.leaves >= MOST_LEAVES {
            return Err(NotReached::LeafLimit);
        }
        let FoundLeaf { stated, bounds } = leaf;
        if self.nodes.push(Node::Leaf(stated)).is_err() {
            return Err(NotReached::Memory);
        }
        self.leaves += 1;
        raise(&mut self.errors, &bounds);
        Ok(())
    }

    /// The certificate with the nodes, which claims their errors.
    pub(crate) fn into_cert(self) -> Cert
        ensures claims { result.claims ≡ self.errors.items }
        ensures nodes { result.nodes ≡ self.nodes.items }
    {
        let Tree { nodes, errors, .. } = self;
        Cert {
            claims: List::new(errors),
            nodes: List::new(nodes),
        }
    }
}
