//! A certificate's text, node by node.
ghost use Rattle.std.specs.Prelude.{◌≡◌, ◌≤◌, ◌<◌, ◌+◌, ℕ, List, [], ◌∷◌, ◌++◌, length, MatchOption, IfSome, IfOk};
ghost use Rattle.std.specs.Prelude.{IfErr, Err};
ghost use Rattle.box_tree.specs.declared.{cert.CertFormat.CertFormat as TheFormat, cert.Node.Node as TheNode};
ghost use Rattle.box_tree.specs.declared.cert.CertFault.{CertFault as TheFault};

use crate::cert::{CertFault, CertFormat, CertKind, Node};
use crate::header::{behind_version, claims_at, copy_of};
use crate::nodes::node_at;
use arrayvec::ArrayVec;

/// The most leaves of a certificate, of all kinds together.
const MOST_LEAVES: u32 = 4096;

/// Reads a certificate's text node by node, without allocating memory.
#[derive(Drop)]
pub struct Lines<'a> {
    kind: CertKind,
    /// What is not read yet.
    rest: &'a [u8],
    claims: ArrayVec<u32, 4>,
    /// How many lines are read.
    read: u32,
    /// How many boxes have no node yet.
    open_boxes: u32,
    leaves: u32,
    /// The fault that was found.
    fault: Option<CertFault>,
    ghost short: { read + length rest.now ≤ 1048578 },
    ghost few_open: { open_boxes ≤ read },
    ghost few_leaves: { leaves ≤ 4096 },
}

impl<'a> Lines<'a> {
    ghost use Rattle.box_tree.specs.Certificates.{CertText, HasFault, IsNode};
    ghost use Rattle.box_tree.specs.Reading.{HasRead, HasFailed, claims_of, cert_of, StandsBefore, unread_len};

    /// The reader of a text that must have a certificate of this format.
    pub fn of(format: CertFormat, text: &'a [u8]) -> Result<Lines<'a>, CertFault>
        requires { length text.now ≤ 1048576 }
        ensures begun { IfOk result (HasRead format text.now []) }
        ensures fault { IfErr result (HasFault format text.now) }
    {
        if text.is_empty() {
            return Err(CertFault::Early);
        }
        let claim_text = match behind_version(format, text) {
            Some(rest) => rest,
            None => return Err(CertFault::BadLine(1)),
        };
        if claim_text.is_empty() {
            return Err(CertFault::Early);
        }
        match claims_at(claim_text) {
            Some((claims, rest)) => Ok(Lines {
                kind: format.kind,
                rest,
                claims,
                read: 2,
                open_boxes: 1,
                leaves: 0,
                fault: None,
            }),
            None => Err(CertFault::BadLine(2)),
        }
    }

    /// The claims of the text's second line.
    pub fn claims(&self) -> ArrayVec<u32, 4>
        ensures { result.items ≡ claims_of self.now }
    {
        copy_of(self.claims.as_slice())
    }

    /// The next node, or `None` exactly at the end of a text without a fault. After a fault it returns the same
    /// fault again.
    pub fn next(&mut self) -> Result<Option<Node>, CertFault>
        ensures less { IfOk result (λ next. IfSome next (λ _. unread_len self.new < unread_len self.old)) }
        ensures claims { claims_of self.new ≡ claims_of self.old }
        ensures node { (f : TheFormat) (text : List ℕ) (nodes : List TheNode)
            → HasRead f text nodes self.old
            → IfOk result
            (λ next. MatchOption next (CertText f text (cert_of self.old nodes) × (self.new ≡ self.old))
            (λ node. HasRead f text (nodes ++ node ∷ []) self.new)) }
        ensures fault { (f : TheFormat) (text : List ℕ) (nodes : List TheNode)
            → HasRead f text nodes self.old
            → IfErr result (λ fault. HasFault f text fault × HasFailed fault self.new) }
        ensures again { (fault : TheFault) → HasFailed fault self.old → (result ≡ Err fault) × (self.new ≡ self.old) }
    {
        if let Some(fault) = self.fault {
            return Err(fault);
        }
        match self.node_here() {
            Ok(Some((node, behind))) => {
                self.rest = behind;
                self.read += 1;
                match node {
                    Node::Split(_, _) => self.open_boxes += 1,
                    Node::Leaf(_) => {
                        self.open_boxes -= 1;
                        self.leaves += 1;
                    }
                }
                Ok(Some(node))
            }
            Ok(None) => Ok(None),
            Err(fault) => {
                self.fault = Some(fault);
                Err(fault)
            }
        }
    }

    /// The node of the next line with what follows it, `None` at the end of the text, or the fault of this line.
    fn node_here(&self) -> Result<Option<(Node, &'a [u8])>, CertFault>
        ensures node { IfOk result (λ next. MatchOption next ((self.now.rest.now ≡ []) × (self.now.open_boxes ≡ 0))
            (λ r. StandsBefore r.0 r.1.now self.now)) }
        ensures fault { (f : TheFormat) (text : List ℕ) (nodes : List TheNode)
            → HasRead f text nodes self.now
            → IfErr result (HasFault f text) }
    {
        if self.rest.is_empty() {
            return if self.open_boxes == 0 {
                Ok(None)
            } else {
                Err(CertFault::Early)
            };
        }
        let line = self.read + 1;
        let (node, behind) = match node_at(self.rest, self.kind, self.claims.len()) {
            Some(found) => found,
            None => return Err(CertFault::BadLine(line)),
        };
        if self.open_boxes == 0 {
            return Err(CertFault::Late(line));
        }
        match node {
            Node::Leaf(_) if self.leaves == MOST_LEAVES => Err(CertFault::TooManyLeaves(line)),
            _ => Ok(Some((node, behind))),
        }
    }
}
