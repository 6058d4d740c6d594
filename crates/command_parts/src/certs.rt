//! Certificates of a block: the errors that a given one is accepted with, and the one that halving finds.
ghost use Rattle.std.specs.Prelude.{IfOk, IfErr};
ghost use Rattle.box_tree.specs.Certificates.{IsCert};
ghost use Rattle.error_certifier.specs.{Halving.IsHalvingFor, Laws.AreWithin, Targets.targets_of};
ghost use Rattle.fuzzy_meaning.specs.Blocks.{IsValid};
ghost use Rattle.command_parts.specs.Certs.{AcceptsCert};
ghost use Rattle.command_parts.specs.Certs.{cert_refusals, target_refusals};
ghost use Rattle.command_parts.specs.Words.{AreMillionths};
ghost use Rattle.byte_scaling.specs.Widths.{parts};
ghost use Rattle.fz_status.specs.Refusals.{IsRefusal};

use crate::contents::Content;
use box_tree::{Cert, CertFormat};
use cert_check::check_text_for;
use error_certifier::{Targets, certify_each};
use fuzzy_meaning::Block;
use fz_status::Status;
use std::alloc::Global;

/// The error of each output under a certificate's text of this format, or the status of its refusal.
pub fn errors_under(
    alloc: Global,
    format: CertFormat,
    block: &Block,
    cert: &Content,
) -> Result<Vec<u32>, Status>
    requires block { IsValid block.now }
    ensures accepts { IfOk result (λ errors. AcceptsCert format block.now cert.now errors.items) }
    ensures refused { IfErr result (IsRefusal (cert_refusals format block.now cert.now)) }
{
    Ok(check_text_for(alloc, format, block, cert.bytes())?)
}

/// The certificate of this format that halving finds for a block and these targets.
pub fn halved(
    alloc: Global,
    format: CertFormat,
    block: &Block,
    targets: &Targets,
) -> Result<Cert, Status>
    requires block { IsValid block.now }
    requires targets { AreMillionths targets.now }
    ensures halving { IfOk result
        (IsHalvingFor format.kind block.now (parts format.width) (targets_of block.now targets.now)) }
    ensures within { IfOk result (λ cert. AreWithin (targets_of block.now targets.now) cert.claims) }
    ensures cert { IfOk result (IsCert format.kind) }
    ensures stops { IfErr result (IsRefusal (target_refusals format targets.now block.now)) }
{
    Ok(certify_each(alloc, format, block, targets)?)
}
