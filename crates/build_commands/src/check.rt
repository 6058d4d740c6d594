//! The commands `check FCL CERT`, `check16 ..`, and `tcheck ..` and `tcheck16 ..` of tight certificates.
ghost use Rattle.std.specs.Prelude.{◌≡◌, IfErr, IfOk};
ghost use Rattle.eval_code.specs.Bounds.{instruction_bound};
ghost use Rattle.command_parts.specs.{Firmwares.GivesBlock, Firmwares.text_refusals, SeenOutputs.IsResultOf};
ghost use Rattle.fz_status.specs.Refusals.{IsRefusal};
ghost use Rattle.build_commands.specs.Check.{CheckMakes, check_lines};

use box_tree::CertFormat;
use byte_scaling::Width;
use command_parts::certs::errors_under;
use command_parts::contents::Content;
use command_parts::firmware::spelled_block;
use command_parts::lines::{labelled, push_errors};
use command_parts::output::Output;
use eval_code::instruction_bound;
use fuzzy_meaning::Block;
use fz_shelf::Line;
use fz_status::Status;
use rule_layout::spread;
use std::alloc::{AllocError, Global};

/// `check FCL CERT`, `tcheck ..` of tight certificates, and both with `16` for answers of 16 bits.
#[derive(Clone, Copy)]
pub struct Check {
    /// The format of the certificate, whose width is that of the firmware's answers.
    pub format: CertFormat,
}

/// The indices of the words FCL and CERT.
pub static INPUTS: [u32; 2] = [2, 3];

impl Check {
    /// Checks the certificate against the text's block. The output has the error of each output and
    /// the bound on instructions.
    pub fn work(self, alloc: Global, fcl: &Content, cert: &Content) -> Result<Output, Status>
        ensures { IsResultOf (CheckMakes self fcl.now cert.now) result }
    {
        let (block, instructions) = bounded(alloc, self.format.width, fcl)?;
        let errors = errors_under(alloc, self.format, &block, cert)?;
        let lines = lines(alloc, errors.as_slice(), instructions)?;
        Ok(Output { lines, file: None })
    }
}

/// The text's block, and the bound on instructions of its firmware with answers of this width.
fn bounded(alloc: Global, width: Width, fcl: &Content) -> Result<(Block, u32), Status>
    ensures block { IfOk result (λ p. GivesBlock fcl.now p.0) }
    ensures bound { IfOk result (λ p. p.1 ≡ instruction_bound width p.0) }
    ensures fault { IfErr result (IsRefusal (text_refusals fcl.now)) }
{
    let block = spelled_block(alloc, fcl)?;
    let instructions = instruction_bound(width, &spread(alloc, &block)?);
    Ok((block, instructions))
}

/// The lines of the error of each output, and of the bound on instructions.
fn lines(alloc: Global, errors: &[u32], instructions: u32) -> Result<Vec<Line>, AllocError>
    ensures { IfOk result (λ lines. lines.items ≡ check_lines errors.now instructions) }
{
    let mut lines = Vec::new(alloc);
    push_errors(alloc, &mut lines, "error ", errors)?;
    lines.push(labelled(alloc, "instructions ", u128::from(instructions))?)?;
    Ok(lines)
}
