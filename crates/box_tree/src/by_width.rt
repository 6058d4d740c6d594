//! Certificates that name rules, by a call for each width of the answers that they are for.
//!
//! Who knows the width beforehand calls these; the others take it within their [`CertFormat`].
ghost use Rattle.std.specs.Prelude.{◌≢◌, ◌≤◌, [], length, IfOk, IfErr};
ghost use Rattle.box_tree.specs.{Certificates.CertText, Certificates.HasFault, Certificates.IsCert, Reading.HasRead};

use crate::cert::{Cert, CertFault, CertFormat, CertKind};
use crate::lines::Lines;
use crate::reader::read_for;
use crate::writer::write_for;
use std::alloc::{AllocError, Global};

/// The certificate of a text of version 1, or the text's first fault.
pub fn read(alloc: Global, text: &[u8]) -> Result<Cert, CertFault>
    requires { length text.now ≤ 1048576 }
    ensures cert { IfOk result (CertText CertFormat.NAMED text.now) }
    ensures fault { IfErr result (λ fault.
        fault ≢ CertFault.Memory → HasFault CertFormat.NAMED text.now fault) }
{
    read_for(alloc, CertFormat::NAMED, text)
}

/// The certificate of a text of version 2, which is for answers of 16 bits, or the text's first
/// fault.
pub fn read16(alloc: Global, text: &[u8]) -> Result<Cert, CertFault>
    requires { length text.now ≤ 1048576 }
    ensures cert { IfOk result (CertText CertFormat.NAMED16 text.now) }
    ensures fault { IfErr result (λ fault.
        fault ≢ CertFault.Memory → HasFault CertFormat.NAMED16 text.now fault) }
{
    read_for(alloc, CertFormat::NAMED16, text)
}

/// The text of a certificate that names rules, of version 1.
pub fn write(alloc: Global, cert: &Cert) -> Result<Vec<u8>, AllocError>
    requires { IsCert CertKind.Named cert.now }
    ensures { IfOk result (λ text. CertText CertFormat.NAMED text.items cert.now) }
{
    write_for(alloc, CertFormat::NAMED, cert)
}

/// The text of a certificate that names rules, for answers of 16 bits, of version 2.
pub fn write16(alloc: Global, cert: &Cert) -> Result<Vec<u8>, AllocError>
    requires { IsCert CertKind.Named cert.now }
    ensures { IfOk result (λ text. CertText CertFormat.NAMED16 text.items cert.now) }
{
    write_for(alloc, CertFormat::NAMED16, cert)
}

impl<'a> Lines<'a> {
    /// The reader of a text of version 1, after its claims.
    pub fn new(text: &'a [u8]) -> Result<Lines<'a>, CertFault>
        requires { length text.now ≤ 1048576 }
        ensures begun { IfOk result (HasRead CertFormat.NAMED text.now []) }
        ensures fault { IfErr result (HasFault CertFormat.NAMED text.now) }
    {
        Lines::of(CertFormat::NAMED, text)
    }

    /// The reader of a text of version 2, which is that of a certificate for answers of 16 bits.
    pub fn new16(text: &'a [u8]) -> Result<Lines<'a>, CertFault>
        requires { length text.now ≤ 1048576 }
        ensures begun { IfOk result (HasRead CertFormat.NAMED16 text.now []) }
        ensures fault { IfErr result (HasFault CertFormat.NAMED16 text.now) }
    {
        Lines::of(CertFormat::NAMED16, text)
    }
}
