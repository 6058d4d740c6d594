//! The fields of a line.
ghost use Rattle.std.specs.Prelude.{◌≡◌, ◌≢◌, ◌+◌, ◌↔◌, ◌++◌, ℕ, List, [], ◌∷◌, sum, MatchOption, MatchResult, IsTrue};
ghost use Rattle.std.specs.Prelude.{Some, None};
ghost use Rattle.srecord.specs.Lines.{body_of, checksum_of, FieldsFail, FitsKind, HasGoodFields, Opens, OpeningFails};
ghost use Rattle.srecord.specs.Lines.{is_wide, kind_of, parts_of};

use crate::fault::SrecFault;
use crate::records::checksum;
use hex::FromHexError;
use std::alloc::Global;

/// What a record gives.
#[derive(Clone, Copy, PartialEq, Eq)]
pub(crate) enum Kind {
    /// S0: nothing.
    Header,
    /// S1: bytes, the first of them at its address.
    Bytes,
    /// S5: the number of S1 records before it, as its address.
    Count,
    /// S9: the start, as its address.
    Start,
}

/// The fields of a record after its kind.
#[derive(Drop)]
pub(crate) struct Fields<'a> {
    pub(crate) address: u16,
    pub(crate) payload: &'a [u8],
    /// The checksum in the text.
    sum: u8,
    /// The right checksum.
    want: u8,
}

/// The digit after a line's letter, and the digits after that.
fn parts_of(line: &[u8]) -> Option<(u8, &[u8])>
    ensures { MatchOption result (parts_of line.now ≡ None) (λ r. parts_of line.now ≡ Some (r.0, r.1.now)) }
{
    if line.len() >= 2 && (line[0] == b'S' || line[0] == b's') {
        Some((line[1], &line[2..]))
    } else {
        None
    }
}

fn is_wide(digit: u8) -> bool
    ensures { result ≡ is_wide digit }
{
    digit == b'2' || digit == b'3' || digit == b'7' || digit == b'8'
}

fn kind_of(digit: u8) -> Option<Kind>
    ensures { result ≡ kind_of digit }
{
    match digit {
        b'0' => Some(Kind::Header),
        b'1' => Some(Kind::Bytes),
        b'5' => Some(Kind::Count),
        b'9' => Some(Kind::Start),
        _ => None,
    }
}

/// The fault of line `number`, whose digits spell no bytes.
fn refusal(error: FromHexError, number: u32) -> SrecFault
    ensures memory { error ≡ FromHexError.OutOfMemory → result ≡ SrecFault.Memory }
    ensures bad { result ≢ SrecFault.Memory → result ≡ SrecFault.BadLine number }
{
    match error {
        FromHexError::OutOfMemory => SrecFault::Memory,
        _ => SrecFault::BadLine(number),
    }
}

/// The kind of a line, and the bytes that its digits spell.
pub(crate) fn opened(alloc: Global, line: &[u8], number: u32) -> Result<(Kind, Vec<u8>), SrecFault>
    ensures { MatchResult result (λ r. Opens line.now r.0 r.1.items)
        (λ fault. fault ≢ SrecFault.Memory → OpeningFails line.now number fault) }
{
    let (digit, digits) = match parts_of(line) {
        Some(parts) => parts,
        None => return Err(SrecFault::BadLine(number)),
    };
    if is_wide(digit) {
        return Err(SrecFault::Wide(number));
    }
    let kind = match kind_of(digit) {
        Some(kind) => kind,
        None => return Err(SrecFault::BadLine(number)),
    };
    match hex::decode(alloc, digits) {
        Ok(bytes) => Ok((kind, bytes)),
        Err(error) => Err(refusal(error, number)),
    }
}

/// Whether a record of the kind may have this address and data.
fn fits(kind: Kind, address: u16, payload: &[u8]) -> bool
    ensures { IsTrue result ↔ FitsKind kind address payload.now }
{
    match kind {
        Kind::Header => true,
        Kind::Bytes => usize::from(address) + payload.len() <= 0x1_0000,
        Kind::Count | Kind::Start => payload.is_empty(),
    }
}

/// The fields of bytes, if the first is the number of those after it.
fn split(bytes: &[u8]) -> Option<Fields<'_>>
    ensures { MatchOption result
        ((at : ℕ) (payload : List ℕ) (sum : ℕ) → bytes.now ≢ body_of at payload ++ sum ∷ [])
        (λ f. (bytes.now ≡ body_of f.address f.payload.now ++ f.sum ∷ [])
        × (f.want ≡ checksum_of (body_of f.address f.payload.now))) }
{
    if bytes.len() < 4 || usize::from(bytes[0]) + 1 != bytes.len() {
        return None;
    }
    let (body, sum) = bytes.split_at(bytes.len() - 1);
    Some(Fields {
        address: u16::from(body[1]) * 256 + u16::from(body[2]),
        payload: &body[3..],
        sum: sum[0],
        want: checksum(body),
    })
}

/// The fields of a record of this kind and these bytes, whose checksum is right.
pub(crate) fn fields_of(kind: Kind, bytes: &[u8], number: u32) -> Result<Fields<'_>, SrecFault>
    ensures { MatchResult result (λ f. HasGoodFields kind bytes.now f.address f.payload.now)
        (FieldsFail kind bytes.now number) }
{
    let fields = match split(bytes) {
        Some(fields) => fields,
        None => return Err(SrecFault::BadLine(number)),
    };
    if !fits(kind, fields.address, fields.payload) {
        return Err(SrecFault::BadLine(number));
    }
    if fields.sum != fields.want {
        return Err(SrecFault::BadSum(number, fields.sum, fields.want));
    }
    Ok(fields)
}
