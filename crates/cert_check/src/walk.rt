//! A walk over the nodes of a tree, with a stack of the open boxes: those whose nodes are still to come.
ghost use Rattle.std.specs.Prelude.{◌≡◌, ◌<◌, ◌+◌, List, ◌∷◌, ◌++◌, length, replicate, OnOk, IfOk, IfErr, []};
ghost use Rattle.std.specs.Prelude.{IfSome, IfNone, None};
ghost use Rattle.fuzzy_meaning.specs.Blocks.{IsValid};
ghost use Rattle.box_tree.specs.{Certificates.AreClaims, Trees.IsTree, declared.cert.Node.Node as TheNode};
ghost use Rattle.cert_check.specs.Faults.{IsFirstOver, AreClaimed};

use crate::boxes::{push, push_halves, whole_box};
use crate::checker::CheckFault;
use crate::leaves::raise_errors;
use box_tree::Node;
use box_tree::laws::open_boxes_go_on;
use byte_scaling::Width;
use error_bound::{BlockTable, ByteBox};
use fuzzy_meaning::Block;
use std::alloc::{AllocError, Global};

/// The greatest number of boxes that are open at once: 255 cuts of each of 8 inputs, and one more.
const MOST_BOXES: usize = 2041;

/// A walk over the nodes of a certificate. It takes them one by one, without allocating memory.
#[derive(Drop)]
pub(crate) struct Walk<'a> {
    claims: &'a [u32],
    /// What the leaves' boxes need to know about the block.
    table: BlockTable<'a>,
    /// The open boxes, the next one last.
    boxes: Vec<ByteBox>,
    /// The error of each output over the leaves taken so far.
    errors: Vec<u32>,
    /// The line of the next node.
    line: u32,
    /// The first fault, if there was one.
    fault: Option<CheckFault>,
}

impl<'a> Walk<'a> {
    ghost use Rattle.cert_check.specs.Walks.{HasTaken, IsBehind, AreFirst, IsSameTask, HasWalkFault, AreWalkErrors};

    /// A walk that has taken no node yet, for answers of this width.
    pub(crate) fn new(
        alloc: Global,
        block: &'a Block,
        claims: &'a [u32],
        width: Width,
    ) -> Result<Walk<'a>, AllocError>
        requires block { IsValid block.now }
        requires claims { AreClaims claims.now }
        ensures begun { IfOk result (HasTaken []) }
        ensures block { IfOk result (λ walk. walk.table.block.now ≡ block.now) }
        ensures claims { IfOk result (λ walk. walk.claims.now ≡ claims.now) }
        ensures width { IfOk result (λ walk. walk.table.width ≡ width) }
    {
        let table = BlockTable::new(alloc, block, width)?;
        let outputs = table.block.outputs.len();
        let mut boxes = Vec::with_capacity(alloc, MOST_BOXES)?;
        push(&mut boxes, whole_box(table.block));
        let errors = zeros(alloc, outputs)?;
        let fault = if claims.len() == outputs {
            None
        } else {
            Some(CheckFault::Outputs(claims.len() as u32, outputs as u32))
        };
        Ok(Walk {
            claims,
            table,
            boxes,
            errors,
            line: 3,
            fault,
        })
    }

    /// Takes the next node. After a fault it does nothing.
    pub(crate) fn take(&mut self, node: &Node)
        requires { (nodes : List TheNode) × HasTaken nodes self.old
            × AreFirst (length self.old.claims.now) (nodes ++ node.now ∷ []) }
        ensures same { IsSameTask self.new self.old }
        ensures taken { (nodes : List TheNode) → HasTaken nodes self.old
            → AreFirst (length self.old.claims.now) (nodes ++ node.now ∷ [])
            → HasTaken (nodes ++ node.now ∷ []) self.new }
    {
        if self.fault.is_some() {
            return;
        }
        match self.visit(node) {
            Ok(()) => self.line += 1,
            Err(fault) => self.fault = Some(fault),
        }
    }

    /// Takes a node, if there was no fault before.
    fn visit(&mut self, node: &Node) -> Result<(), CheckFault>
        requires { (nodes : List TheNode) × HasTaken nodes self.old × IsBehind nodes self.old
            × AreFirst (length self.old.claims.now) (nodes ++ node.now ∷ []) }
        ensures same { IsSameTask self.new self.old }
        ensures line { self.new.line ≡ self.old.line }
        ensures no_fault { self.new.fault ≡ self.old.fault }
        ensures behind { OnOk result ((nodes : List TheNode) → IsBehind nodes self.old
            → AreFirst (length self.old.claims.now) (nodes ++ node.now ∷ [])
            → IsBehind (nodes ++ node.now ∷ []) (record self.new { line = self.old.line + 1 })) }
        ensures fault { IfErr result (λ fault. (nodes rest : List TheNode) → IsBehind nodes self.old
            → AreFirst (length self.old.claims.now) (nodes ++ node.now ∷ [])
            → HasWalkFault self.old (nodes ++ node.now ∷ rest) fault) }
    {
        open_boxes_go_on();
        let Some(bytes) = self.boxes.pop() else {
            return Ok(());
        };
        match node {
            Node::Split(input, cut) => {
                push_halves(&mut self.boxes, bytes, *input, *cut, self.line)
            }
            Node::Leaf(stated) => {
                raise_errors(&mut self.errors, &self.table, bytes, stated, self.line)
            }
        }
    }

    /// The errors of the certificate with the nodes taken, or its first fault.
    pub(crate) fn finish(self) -> Result<Vec<u32>, CheckFault>
        requires { (nodes : List TheNode) × HasTaken nodes self }
        ensures accepted { (nodes : List TheNode) → HasTaken nodes self.entry
            → IsTree nodes → IfOk result
            (λ errors. AreWalkErrors self.entry nodes errors.items) }
        ensures fault { (nodes : List TheNode) → HasTaken nodes self.entry → IsTree nodes
            → IfErr result (HasWalkFault self.entry nodes) }
    {
        if let Some(fault) = self.fault {
            return Err(fault);
        }
        match first_over(self.errors.as_slice(), self.claims) {
            Some(o) => Err(CheckFault::Claimed(o as u8 + 1, self.claims[o], self.errors[o])),
            None => Ok(self.errors),
        }
    }
}

fn zeros(alloc: Global, count: usize) -> Result<Vec<u32>, AllocError>
    ensures { IfOk result (λ zeros. zeros.items ≡ replicate count 0) }
{
    vec![in alloc; 0; count]
}

/// The index of the first error that is greater than its claim.
fn first_over(errors: &[u32], claims: &[u32]) -> Option<usize>
    requires { length errors.now ≡ length claims.now }
    ensures within { IfSome result (λ o. o < length errors.now) }
    ensures over { IfSome result (IsFirstOver errors.now claims.now) }
    ensures none { IfNone result (AreClaimed errors.now claims.now) }
{
    for o in 0..errors.len() {
        if errors[o] > claims[o] {
            return Some(o);
        }
    }
    None
}
