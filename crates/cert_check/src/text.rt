//! Checks a certificate while its text is read, node by node.
ghost use Rattle.std.specs.Prelude.{◌≢◌, ◌≤◌, ℕ, List as Items, length, IfOk, IfErr, []};
ghost use Rattle.fuzzy_meaning.specs.Blocks.{IsValid};
ghost use Rattle.byte_scaling.specs.Widths.{parts as parts_of};
ghost use Rattle.box_tree.specs.declared.cert.CertFormat.{CertFormat as TheFormat};
ghost use Rattle.box_tree.specs.Reading.{HasRead};
ghost use Rattle.cert_check.specs.TextFaults.{IsAcceptedText, HasTextFault};

use crate::checker::CheckFault;
use crate::walk::Walk;
use box_tree::{CertFault, CertFormat, Lines};
use byte_scaling::Width;
use fuzzy_meaning::Block;
use std::alloc::Global;
use thiserror::Error;

/// Why a text is refused as a certificate: for a fault of its lines, for a fault of the certificate that
/// they spell, or for lack of memory, whatever the text.
#[derive(Clone, Copy, PartialEq, Eq, Debug, Error)]
pub enum TextFault {
    /// The text spells no certificate. The fault is never `CertFault::Memory`.
    #[error("{0}")]
    Text(CertFault),
    /// The text spells a certificate that is not accepted. The fault is never `CheckFault::Memory`.
    #[error("{0}")]
    Check(CheckFault),
    /// Out of memory for the errors or the open boxes.
    #[error("no memory")]
    Memory,
}

/// The errors that a text's certificate of this format is accepted with, or why the text is refused: its
/// first fault as a text, or else the first fault of its certificate. It builds no tree, and allocates
/// all memory before the first node.
pub fn check_text_for(
    alloc: Global,
    format: CertFormat,
    block: &Block,
    text: &[u8],
) -> Result<Vec<u32>, TextFault>
    requires block { IsValid block.now }
    requires text { length text.now ≤ 1048576 }
    ensures accepted { IfOk result
        (λ errors. IsAcceptedText block.now (parts_of format.width) format text.now errors.items) }
    ensures refused { IfErr result (λ refusal. refusal ≢ TextFault.Memory
        → HasTextFault block.now (parts_of format.width) format text.now refusal) }
{
    match Lines::of(format, text) {
        Ok(lines) => errors_of(alloc, block, lines, format.width),
        Err(fault) => Err(TextFault::Text(fault)),
    }
}

/// The errors of a text whose claims have been read, or why it is refused. After a fault of the
/// certificate the rest of the text is still read, since a fault of the text takes precedence.
fn errors_of(
    alloc: Global,
    block: &Block,
    mut lines: Lines<'_>,
    width: Width,
) -> Result<Vec<u32>, TextFault>
    requires block { IsValid block.now }
    requires lines { (format : TheFormat) × (text : Items ℕ) × HasRead format text [] lines }
    ensures accepted { (format : TheFormat) (text : Items ℕ) → HasRead format text [] lines.entry
        → IfOk result (λ errors. IsAcceptedText block.now (parts_of width) format text errors.items) }
    ensures refused { (format : TheFormat) (text : Items ℕ) → HasRead format text [] lines.entry
        → IfErr result (λ refusal. refusal ≢ TextFault.Memory
        → HasTextFault block.now (parts_of width) format text refusal) }
{
    let claims = lines.claims();
    let mut walk = match Walk::new(alloc, block, claims.as_slice(), width) {
        Ok(walk) => walk,
        Err(_) => return Err(TextFault::Memory),
    };
    loop {
        match lines.next() {
            Ok(Some(node)) => walk.take(&node),
            Ok(None) => break,
            Err(fault) => return Err(TextFault::Text(fault)),
        }
    }
    match walk.finish() {
        Ok(errors) => Ok(errors),
        Err(fault) => Err(TextFault::Check(fault)),
    }
}
