//! Whether a certificate is accepted, and with which errors, or its first fault.
ghost use Rattle.std.specs.Prelude.{◌≢◌, ◌<◌, IfOk, IfErr};
ghost use Rattle.fuzzy_meaning.specs.Blocks.{IsValid};
ghost use Rattle.box_tree.specs.declared.cert.CertKind.{CertKind as TheKind};
ghost use Rattle.box_tree.specs.Certificates.{IsCert};
ghost use Rattle.cert_check.specs.{Acceptance.IsAccepted, Faults.HasCheckFault};
ghost use Rattle.byte_scaling.specs.Widths.{parts as parts_of};

use crate::walk::Walk;
use box_tree::Cert;
use byte_scaling::Width;
use error_bound::LeafFault;
use fuzzy_meaning::Block;
use std::alloc::Global;
use thiserror::Error;

/// Why a certificate is not accepted. Lines count from 1, and the first node's is line 3; outputs and
/// rules count from 1.
#[derive(Clone, Copy, PartialEq, Eq, Debug, Error)]
pub enum CheckFault {
    /// The number of claims and that of outputs, which differ.
    #[error("{0} claims for {1} outputs")]
    Outputs(u32, u32),
    /// The cut on that line is at an input that the block does not have, or not inside its interval.
    #[error("line {0} cuts no interval")]
    BadCut(u32),
    /// A pair on that line names no rule that concludes a term of its output.
    #[error("line {0} names no rule of its output")]
    BadRule(u32),
    /// A pair on that line does not hold on its box.
    #[error("line {0} does not hold")]
    Leaf(u32, LeafFault),
    /// The leaf on that line has no Bound for that output, or one of its cells has none.
    #[error("line {0} is unsure of output {1}")]
    Unsure(u32, u8),
    /// The leaf of cells on that line has more than 64 cells.
    #[error("line {0} has too many cells")]
    TooManyCells(u32),
    /// That output's claim, and its error, which is greater.
    #[error("output {0} has a claim of {1} and an error of {2}")]
    Claimed(u8, u32, u32),
    /// Out of memory for the errors or the open boxes.
    #[error("no memory")]
    Memory,
}

/// The error of each output in millionths of its range, for answers of this width, or the first
/// fault of a certificate of either kind, in the order of its lines, of the pairs on a line, and with
/// the claims last.
pub fn check_for(
    alloc: Global,
    width: Width,
    block: &Block,
    cert: &Cert,
) -> Result<Vec<u32>, CheckFault>
    requires block { IsValid block.now }
    requires cert { (kind : TheKind) × IsCert kind cert.now }
    ensures accepted { IfOk result (λ errors. IsAccepted block.now (parts_of width) cert.now errors.items) }
    ensures fault { IfErr result (λ fault.
        fault ≢ CheckFault.Memory → HasCheckFault block.now (parts_of width) cert.now fault) }
{
    let mut walk = match Walk::new(alloc, block, cert.claims.as_slice(), width) {
        Ok(walk) => walk,
        Err(_) => return Err(CheckFault::Memory),
    };
    for node in cert.nodes.as_slice() {
        walk.take(node);
    }
    walk.finish()
}
