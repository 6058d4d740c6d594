//! The checks of certificates that name rules, by a call for each width of the answers.
//!
//! Who knows the width beforehand calls these; the others take it as an argument.
ghost use Rattle.std.specs.Prelude.{◌≢◌, ◌≤◌, length, IfOk, IfErr};
ghost use Rattle.fuzzy_meaning.specs.Blocks.{IsValid};
ghost use Rattle.box_tree.specs.declared.cert.{CertKind.TheVariants.Named};
ghost use Rattle.box_tree.specs.Certificates.{IsCert};
ghost use Rattle.cert_check.specs.{Acceptance.IsAccepted, Faults.HasCheckFault};
ghost use Rattle.cert_check.specs.TextFaults.{IsAcceptedText, HasTextFault};

use crate::checker::{CheckFault, check_for};
use crate::text::{TextFault, check_text_for};
use box_tree::{Cert, CertFormat};
use byte_scaling::Width;
use fuzzy_meaning::Block;
use std::alloc::Global;

/// The error of each output in millionths of its range, for answers that are bytes, or the first
/// fault of a plain certificate: [`check_for`] for bytes.
pub fn check(alloc: Global, block: &Block, cert: &Cert) -> Result<Vec<u32>, CheckFault>
    requires block { IsValid block.now }
    requires cert { IsCert Named cert.now }
    ensures accepted { IfOk result (λ errors. IsAccepted block.now 1 cert.now errors.items) }
    ensures fault { IfErr result (λ fault.
        fault ≢ CheckFault.Memory → HasCheckFault block.now 1 cert.now fault) }
{
    check_for(alloc, Width::Byte, block, cert)
}

/// [`check_for`] for a plain certificate and answers of 16 bits.
pub fn check16(alloc: Global, block: &Block, cert: &Cert) -> Result<Vec<u32>, CheckFault>
    requires block { IsValid block.now }
    requires cert { IsCert Named cert.now }
    ensures accepted { IfOk result (λ errors. IsAccepted block.now 256 cert.now errors.items) }
    ensures fault { IfErr result (λ fault.
        fault ≢ CheckFault.Memory → HasCheckFault block.now 256 cert.now fault) }
{
    check_for(alloc, Width::Word, block, cert)
}

/// [`check_text_for`] for texts of version 1, whose certificates name rules, and answers that are bytes.
pub fn check_text(alloc: Global, block: &Block, text: &[u8]) -> Result<Vec<u32>, TextFault>
    requires block { IsValid block.now }
    requires text { length text.now ≤ 1048576 }
    ensures accepted { IfOk result (λ errors. IsAcceptedText block.now 1 CertFormat.NAMED text.now errors.items) }
    ensures refused { IfErr result (λ refusal. refusal ≢ TextFault.Memory
        → HasTextFault block.now 1 CertFormat.NAMED text.now refusal) }
{
    check_text_for(alloc, CertFormat::NAMED, block, text)
}

/// [`check_text_for`] for texts of version 2, whose certificates name rules, and answers of 16 bits.
pub fn check_text16(alloc: Global, block: &Block, text: &[u8]) -> Result<Vec<u32>, TextFault>
    requires block { IsValid block.now }
    requires text { length text.now ≤ 1048576 }
    ensures accepted { IfOk result (λ errors. IsAcceptedText block.now 256 CertFormat.NAMED16 text.now errors.items) }
    ensures refused { IfErr result (λ refusal. refusal ≢ TextFault.Memory
        → HasTextFault block.now 256 CertFormat.NAMED16 text.now refusal) }
{
    check_text_for(alloc, CertFormat::NAMED16, block, text)
}
