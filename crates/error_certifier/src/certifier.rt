//! Certificates for a target, or why it is not reached.
ghost use Rattle.std.specs.Prelude.{◌≢◌, ◌≤◌, All, IfOk, IfErr};
ghost use Rattle.fuzzy_meaning.specs.Blocks.{IsValid};
ghost use Rattle.box_tree.specs.Certificates.{IsCert};
ghost use Rattle.byte_scaling.specs.Widths.{parts as parts_of};
ghost use Rattle.error_certifier.specs.{Halving.IsHalving, Halving.StopsAt, Laws.SaysOutOfReach, Laws.AreWithin};
ghost use Rattle.error_certifier.specs.{Halving.IsHalvingFor, Halving.StopsFor, Laws.SaysOutOfReachFor};
ghost use Rattle.error_certifier.specs.Targets.{AreTargets, targets_of};

use crate::halving::{Task, Tree};
use crate::laws::{cells_are_out_of_reach, halvings_are_within_their_targets};
use crate::targets::Targets;
use arrayvec::ArrayVec;
use box_tree::{Cert, CertFormat, CertKind};
use byte_scaling::Width;
use cert_check::whole_box;
use error_bound::BoxTable;
use fuzzy_meaning::Block;
use std::alloc::Global;
use thiserror::Error;

/// Why halving gives no certificate.
#[derive(Clone, PartialEq, Eq, Debug, Drop, Error)]
pub enum NotReached {
    /// The bytes of a cell, one for each input, the first output, counted from 1, that is above its
    /// target there, and the Bound of its best leaf in millionths of its range, or 1000001 if it has
    /// none. With tight leaves it is the first such cell of a box of at most 64.
    #[error("on a cell output {1} has a Bound of {2}")]
    Cell(ArrayVec<u8, 8>, u8, u32),
    /// Halving needs more than 4096 leaves. Another certificate may need fewer.
    #[error("more than 4096 leaves")]
    LeafLimit,
    /// The number of targets given and that of the block's outputs, which differ.
    #[error("{0} targets for {1} outputs")]
    Outputs(u8, u8),
    /// Out of memory for the certificate, or for the table of the block.
    #[error("no memory")]
    Memory,
}

/// The certificate of this format that halving gives for one target for all outputs.
pub fn certify_for(
    alloc: Global,
    format: CertFormat,
    block: &Block,
    target: u32,
) -> Result<Cert, NotReached>
    requires block { IsValid block.now }
    requires target { target ≤ 1000000 }
    ensures halved { IfOk result (IsHalving format.kind block.now (parts_of format.width) target) }
    ensures within { IfOk result (λ cert. All (λ error. error ≤ target) cert.claims) }
    ensures cert { IfOk result (IsCert format.kind) }
    ensures stops { IfErr result
        (λ stop. stop ≢ NotReached.Memory → StopsAt format.kind block.now (parts_of format.width) target stop) }
    ensures out_of_reach { IfErr result (SaysOutOfReach format.kind block.now (parts_of format.width) target) }
{
    certify_each(alloc, format, block, &Targets::All(target))
}

/// The same with a target for each output.
pub fn certify_each(
    alloc: Global,
    format: CertFormat,
    block: &Block,
    targets: &Targets,
) -> Result<Cert, NotReached>
    requires block { IsValid block.now }
    requires targets { All (λ target. target ≤ 1000000) (targets_of block.now targets.now) }
    ensures halved { IfOk result
        (IsHalvingFor format.kind block.now (parts_of format.width) (targets_of block.now targets.now)) }
    ensures within { IfOk result (λ cert. AreWithin (targets_of block.now targets.now) cert.claims) }
    ensures cert { IfOk result (IsCert format.kind) }
    ensures stops { IfErr result (λ stop. stop ≢ NotReached.Memory
        → StopsFor format.kind block.now (parts_of format.width) (targets_of block.now targets.now) stop) }
    ensures out_of_reach { IfErr result
        (SaysOutOfReachFor format.kind block.now (parts_of format.width) (targets_of block.now targets.now)) }
{
    let numbers = targets.numbers(block.outputs.len());
    if numbers.len() != block.outputs.len() {
        return Err(NotReached::Outputs(numbers.len() as u8, block.outputs.len() as u8));
    }
    certified(alloc, format.kind, block, numbers, format.width)
}

/// The same with a number for each output, for answers of this width.
fn certified(
    alloc: Global,
    kind: CertKind,
    block: &Block,
    targets: ArrayVec<u32, 4>,
    width: Width,
) -> Result<Cert, NotReached>
    requires block { IsValid block.now }
    requires targets { AreTargets block.now targets.items }
    ensures halved { IfOk result (IsHalvingFor kind block.now (parts_of width) targets.items) }
    ensures within { IfOk result (λ cert. AreWithin targets.items cert.claims) }
    ensures cert { IfOk result (IsCert kind) }
    ensures stops { IfErr result
        (λ stop. stop ≢ NotReached.Memory → StopsFor kind block.now (parts_of width) targets.items stop) }
    ensures out_of_reach { IfErr result (SaysOutOfReachFor kind block.now (parts_of width) targets.items) }
{
    cells_are_out_of_reach();
    halvings_are_within_their_targets();
    let Ok(task) = Task::new(alloc, kind, block, targets, width) else {
        return Err(NotReached::Memory);
    };
    let Ok(mut tree) = Tree::new(alloc, block.outputs.len()) else {
        return Err(NotReached::Memory);
    };
    let mut table = BoxTable::over(&task.table, whole_box(block));
    match task.halve(whole_box(block), &mut table, &mut tree) {
        Ok(()) => Ok(tree.into_cert()),
        Err(stop) => Err(stop),
    }
}
