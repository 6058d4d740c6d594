//! Whole certificates from texts.
ghost use Rattle.std.specs.Prelude.{◌≡◌, ◌≢◌, ◌≤◌, ℕ, List as Items, [], length, IfOk, IfErr};
ghost use Rattle.box_tree.specs.declared.cert.CertFormat.{CertFormat as TheFormat};
ghost use Rattle.box_tree.specs.{Certificates.CertText, Certificates.HasFault, Reading.HasRead};

use crate::cert::{Cert, CertFault, CertFormat, Node};
use crate::lines::Lines;
use arrayvec::ArrayVec;
use fz_list::List;
use std::alloc::Global;

/// The certificate of this format that a text has, or the text's first fault.
pub fn read_for(alloc: Global, format: CertFormat, text: &[u8]) -> Result<Cert, CertFault>
    requires { length text.now ≤ 1048576 }
    ensures cert { IfOk result (CertText format text.now) }
    ensures fault { IfErr result (λ fault. fault ≢ CertFault.Memory → HasFault format text.now fault) }
{
    match Lines::of(format, text) {
        Ok(lines) => cert_behind(alloc, lines),
        Err(fault) => Err(fault),
    }
}

/// The certificate of a text whose first two lines were read.
fn cert_behind(alloc: Global, mut lines: Lines<'_>) -> Result<Cert, CertFault>
    ensures cert { (f : TheFormat) (text : Items ℕ) → HasRead f text [] lines.entry
        → IfOk result (CertText f text) }
    ensures fault { (f : TheFormat) (text : Items ℕ) → HasRead f text [] lines.entry
        → IfErr result (λ fault. fault ≢ CertFault.Memory → HasFault f text fault) }
{
    let mut nodes = Vec::new(alloc);
    loop {
        match lines.next() {
            Ok(Some(node)) => match nodes.push(node) {
                Ok(()) => {}
                Err(_) => return Err(CertFault::Memory),
            },
            Ok(None) => return cert_of(alloc, &lines.claims(), nodes),
            Err(fault) => return Err(fault),
        }
    }
}

fn cert_of(alloc: Global, claims: &ArrayVec<u32, 4>, nodes: Vec<Node>) -> Result<Cert, CertFault>
    ensures cert { IfOk result (λ cert. (cert.claims ≡ claims.now.items) × (cert.nodes ≡ nodes.items)) }
    ensures memory { IfErr result (λ fault. fault ≡ CertFault.Memory) }
{
    match Vec::from_slice(alloc, claims.as_slice()) {
        Ok(claims) => Ok(Cert {
            claims: List::new(claims),
            nodes: List::new(nodes),
        }),
        Err(_) => Err(CertFault::Memory),
    }
}
