//! Plain certificates for one target, by a call for each width of the answers.
//!
//! Who knows the width beforehand calls these; the others take it within the certificate's format.
ghost use Rattle.std.specs.Prelude.{◌≢◌, ◌≤◌, All, IfOk, IfErr};
ghost use Rattle.fuzzy_meaning.specs.Blocks.{IsValid};
ghost use Rattle.box_tree.specs.{declared.cert.CertKind.TheVariants.Named, Certificates.IsCert};
ghost use Rattle.error_certifier.specs.{Halving.IsHalving, Halving.StopsAt, Laws.SaysOutOfReach};

use crate::certifier::{NotReached, certify_for};
use box_tree::{Cert, CertFormat};
use fuzzy_meaning::Block;
use std::alloc::Global;

/// The plain certificate that halving gives for one target for all outputs, in millionths of each output's range,
/// for answers that are bytes.
pub fn certify(alloc: Global, block: &Block, target: u32) -> Result<Cert, NotReached>
    requires block { IsValid block.now }
    requires target { target ≤ 1000000 }
    ensures halved { IfOk result (IsHalving Named block.now 1 target) }
    ensures within { IfOk result (λ cert. All (λ error. error ≤ target) cert.claims) }
    ensures cert { IfOk result (IsCert Named) }
    ensures stops { IfErr result (λ stop. stop ≢ NotReached.Memory → StopsAt Named block.now 1 target stop) }
    ensures out_of_reach { IfErr result (SaysOutOfReach Named block.now 1 target) }
{
    certify_for(alloc, CertFormat::NAMED, block, target)
}

/// The same for answers of 16 bits.
pub fn certify16(alloc: Global, block: &Block, target: u32) -> Result<Cert, NotReached>
    requires block { IsValid block.now }
    requires target { target ≤ 1000000 }
    ensures halved { IfOk result (IsHalving Named block.now 256 target) }
    ensures within { IfOk result (λ cert. All (λ error. error ≤ target) cert.claims) }
    ensures cert { IfOk result (IsCert Named) }
    ensures stops { IfErr result (λ stop. stop ≢ NotReached.Memory → StopsAt Named block.now 256 target stop) }
    ensures out_of_reach { IfErr result (SaysOutOfReach Named block.now 256 target) }
{
    certify_for(alloc, CertFormat::NAMED16, block, target)
}
