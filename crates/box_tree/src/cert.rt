//! Certificates, and why a text has none.
use arrayvec::ArrayVec;
use byte_scaling::Width;
use fz_list::List;
use thiserror::Error;

/// A certificate: what it claims of each output's error, and a tree of boxes.
#[derive(Drop)]
pub struct Cert {
    /// One claim for each output, 1 to 4 of them, each 0 to 1000000 millionths of its range.
    pub claims: List<u32>,
    /// The tree in prefix order: each split comes before its left part, and that before its right.
    pub nodes: List<Node>,
}

impl Cert {
    ghost use Rattle.std.specs.Prelude.{◌≡◌};
    ghost use Rattle.box_tree.specs.Trees.{leaf_count};

    /// How many leaves its tree has.
    pub fn leaves(&self) -> usize
        ensures { result ≡ leaf_count self.now.nodes }
    {
        let nodes = self.nodes.as_slice();
        let mut leaves = 0;
        for k in (0..nodes.len()).rev() {
            if let Node::Leaf(_) = nodes[k] {
                leaves += 1;
            }
        }
        leaves
    }
}

/// What the leaves of a certificate state.
#[derive(Clone, Copy, PartialEq, Eq)]
pub enum CertKind {
    /// Each leaf names for each output a rule, and how much of its truth is relied on.
    Named,
    /// Each leaf is a single word, for its box as a whole or for its cells.
    Tight,
}

/// What the version in a text's first line states: the kind of its certificate, and the width of the answers that
/// it is for.
#[derive(Clone, Copy, PartialEq, Eq)]
pub struct CertFormat {
    pub kind: CertKind,
    pub width: Width,
}

impl CertFormat {
    ghost use Rattle.std.specs.Prelude.{◌≡◌};
    ghost use Rattle.box_tree.specs.Texts.{version_of};

    /// Of certificates that name rules, for answers that are bytes: version 1.
    pub const NAMED: CertFormat = CertFormat {
        kind: CertKind::Named,
        width: Width::Byte,
    };

    /// The same for answers of 16 bits: version 2.
    pub const NAMED16: CertFormat = CertFormat {
        kind: CertKind::Named,
        width: Width::Word,
    };

    /// Of tight certificates, for answers that are bytes: version 3.
    pub const TIGHT: CertFormat = CertFormat {
        kind: CertKind::Tight,
        width: Width::Byte,
    };

    /// The same for answers of 16 bits: version 4.
    pub const TIGHT16: CertFormat = CertFormat {
        kind: CertKind::Tight,
        width: Width::Word,
    };

    /// The version of its texts.
    pub(crate) fn version(self) -> u32
        ensures { result ≡ version_of self.kind self.width }
    {
        match (self.kind, self.width) {
            (CertKind::Named, Width::Byte) => 1,
            (CertKind::Named, Width::Word) => 2,
            (CertKind::Tight, Width::Byte) => 3,
            (CertKind::Tight, Width::Word) => 4,
        }
    }
}

/// A node of a tree of boxes.
#[derive(Clone, Drop)]
pub enum Node {
    /// The input, from 1 to 8, and the byte where its interval is cut: the left part has the bytes below, the
    /// right part those from there on.
    Split(u8, u8),
    /// A box that is not cut.
    Leaf(LeafLine),
}

/// What the line of a leaf states.
#[derive(Clone, Drop)]
pub enum LeafLine {
    /// One pair for each claim: the number of a rule, from 1 to 256, and how many 255ths of its truth are relied
    /// on, from 1 to 255; or 0 and 0, if no rule has any. In certificates of kind `Named`.
    Pairs(ArrayVec<(u16, u8), 4>),
    /// The word `leaf` alone, for the box as a whole. In certificates of kind `Tight`.
    Tight,
    /// The word `cells` alone, for each cell of the box. In certificates of kind `Tight`.
    Cells,
}

/// Why a text has no certificate. Lines count from 1.
#[derive(Clone, Copy, PartialEq, Eq, Debug, Error)]
pub enum CertFault {
    /// That line is malformed or not allowed there, or it has no end.
    #[error("line {0} is malformed")]
    BadLine(u32),
    /// The text ends before its claims, or with a box that has no leaf.
    #[error("the text ends early")]
    Early,
    /// That line follows a whole tree.
    #[error("line {0} is too late")]
    Late(u32),
    /// That line is leaf 4097, counting all kinds of leaves.
    #[error("line {0} has too many leaves")]
    TooManyLeaves(u32),
    /// Out of memory for the certificate.
    #[error("no memory")]
    Memory,
}
