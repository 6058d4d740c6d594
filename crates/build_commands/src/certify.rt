//! The commands `certify FCL TARGET OUT`, `certify16 ..`, and `tcertify ..` and `tcertify16 ..` for tight certificates.
ghost use Rattle.std.specs.Prelude.{◌≡◌, IfOk};
ghost use Rattle.box_tree.specs.{Trees.leaf_count};
ghost use Rattle.fz_status.specs.{Words.texts_of};
ghost use Rattle.build_commands.specs.Certify.{CertifyMakes, certify_in, certify_lines};
ghost use Rattle.command_parts.specs.SeenOutputs.{IsResultOf};

use box_tree::{Cert, CertFormat, write_for};
use command_parts::certs::halved;
use command_parts::contents::Content;
use command_parts::firmware::block_of;
use command_parts::lines::{labelled, push_errors};
use command_parts::output::Output;
use command_parts::words::{TargetWord, targets_in};
use fz_shelf::Line;
use fz_status::{Status, word};
use std::alloc::{AllocError, Global};

/// `certify FCL TARGET OUT`, `tcertify ..` for tight certificates, and both with `16` for answers of 16 bits.
#[derive(Drop)]
pub struct Certify {
    /// The format of the certificate.
    format: CertFormat,
    /// The greatest error allowed for each output, in millionths of its range.
    targets: TargetWord,
}

/// The index of the word FCL.
pub static INPUTS: [u32; 1] = [2];

/// The index of the word TARGET.
const TARGET: u32 = 3;

/// The index of the word OUT.
const OUT: u32 = 4;

impl Certify {
    /// The command of these words.
    pub fn of(format: CertFormat, words: &[String]) -> Option<Certify>
        ensures { result ≡ certify_in format (texts_of words.now) }
    {
        let targets = targets_in(format.kind, word(words, TARGET))?;
        Some(Certify { format, targets })
    }

    /// Halves the boxes of the text's block until each has a leaf within the targets. The output has
    /// the certificate, the error of each output and the number of leaves.
    pub fn work(self, alloc: Global, fcl: &Content) -> Result<Output, Status>
        ensures { IsResultOf (CertifyMakes self fcl.now) result }
    {
        let format = self.format;
        let block = block_of(alloc, fcl)?;
        let cert = halved(alloc, format, &block, self.targets.get())?;
        let text = write_for(alloc, format, &cert)?;
        let lines = lines(alloc, &cert)?;
        Ok(Output {
            lines,
            file: Some((OUT, text)),
        })
    }
}

/// The lines of the error of each output, and of the number of leaves.
fn lines(alloc: Global, cert: &Cert) -> Result<Vec<Line>, AllocError>
    ensures { IfOk result (λ lines. lines.items ≡
        certify_lines cert.now.claims (leaf_count cert.now.nodes)) }
{
    let errors = cert.claims.as_slice();
    let mut lines = Vec::new(alloc);
    push_errors(alloc, &mut lines, "error ", errors)?;
    lines.push(labelled(alloc, "leaves ", cert.leaves() as u128)?)?;
    Ok(lines)
}
