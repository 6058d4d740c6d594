//! Certificates as text: a claim for each output, and a tree of boxes in prefix order.
//!
//! A [`Cert`] holds the claims and the nodes of the tree. Its leaves name rules, or are tight: a [`CertFormat`]
//! states which, and which answers it is for. [`read`] returns exactly the certificate that a text
//! spells, or exactly its first fault; [`write`] returns the text, and what is written reads back as the same
//! certificate. [`Lines`] reads a text node by node without allocating memory: a caller knows at each node which
//! nodes the text begins with, at the end that they are its certificate, and at a fault that it is the text's
//! first. Each of these exists once for all kinds and widths.
#![tactic(auto)]

mod by_width;
mod cert;
mod header;
pub mod laws;
mod lines;
mod nodes;
mod reader;
mod text;
mod writer;

pub use by_width::{read, read16, write, write16};
pub use cert::{Cert, CertFault, CertFormat, CertKind, LeafLine, Node};
pub use lines::Lines;
pub use reader::read_for;
pub use writer::write_for;
