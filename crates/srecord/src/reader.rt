//! Images from records.
ghost use Rattle.std.specs.Prelude.{◌≡◌, ◌≢◌, ◌≤◌, ◌<◌, ◌+◌, ℕ, List, [], ◌∷◌, ◌++◌, length, IfOk, IfErr, OnOk, Ok};
ghost use Rattle.std.specs.Prelude.{true, false};
ghost use Rattle.cpu12_asm.specs.Bytes.{byte_at};
ghost use Rattle.srecord.specs.Texts.{GivesImage, HasFault, IsFree, IsTaken, with_bytes};

use crate::fault::SrecFault;
use crate::fields::{Fields, Kind, fields_of, opened};
use crate::lines::cut_line;
use cpu12_asm::{ByteMap, Image};
use std::alloc::Global;

/// What the lines read so far give.
#[derive(Drop)]
struct Reader {
    bytes: ByteMap,
    /// The number of records of bytes.
    records: u32,
    start: Option<u16>,
}

impl Reader {
    ghost use Rattle.srecord.specs.Texts.{Give, Given, LineFails, MayFollow, RecordFails, given_with};
    ghost use Rattle.srecord.specs.Reading.{Has};

    /// Adds what a record gives.
    fn take_record(&mut self, kind: Kind, fields: &Fields<'_>, number: u32) -> Result<(), SrecFault>
        requires room { kind ≡ Kind.Bytes → fields.now.address + length fields.now.payload.now ≤ 65536 }
        requires few { self.old.records < number }
        ensures few { OnOk result (self.new.records ≤ number) }
        ensures follows { (g : Given) → Has self.old g
            → OnOk result (MayFollow g kind fields.now.address fields.now.payload.now
            × Has self.new (given_with g kind fields.now.address fields.now.payload.now)) }
        ensures fault { (g : Given) → Has self.old g
            → IfErr result (λ fault. fault ≢ SrecFault.Memory
            → RecordFails g number kind fields.now.address fields.now.payload.now fault) }
    {
        match kind {
            Kind::Header => {}
            Kind::Bytes => {
                if !put_bytes(&mut self.bytes, fields.address, fields.payload)? {
                    return Err(SrecFault::Overlap(number));
                }
                self.records += 1;
            }
            Kind::Count => {
                let count = u32::from(fields.address);
                if count != self.records {
                    return Err(SrecFault::CountDiffers(count, self.records));
                }
            }
            Kind::Start => self.start = Some(fields.address),
        }
        Ok(())
    }

    /// Adds what a line gives.
    fn take_line(&mut self, alloc: Global, line: &[u8], number: u32) -> Result<(), SrecFault>
        requires few { self.old.records < number }
        ensures few { OnOk result (self.new.records ≤ number) }
        ensures given { (before : List (List ℕ)) (g : Given) → Give before g → Has self.old g
            → OnOk result ((h : Given) × Give (before ++ line.now ∷ []) h × Has self.new h) }
        ensures fault { (g : Given) → Has self.old g
            → IfErr result (λ fault. fault ≢ SrecFault.Memory → LineFails g number line.now fault) }
    {
        if self.start.is_some() {
            return Err(SrecFault::AfterEnd(number));
        }
        let (kind, bytes) = opened(alloc, line, number)?;
        let fields = fields_of(kind, &bytes, number)?;
        self.take_record(kind, &fields, number)
    }
}

/// Puts bytes one after another from an address on, and returns whether all of their addresses were free.
fn put_bytes(bytes: &mut ByteMap, address: u16, payload: &[u8]) -> Result<bool, SrecFault>
    requires { address + length payload.now ≤ 65536 }
    ensures put { result ≡ Ok true
        → (q : ℕ) → byte_at bytes.new q ≡ with_bytes (byte_at bytes.old) address payload.now q }
    ensures free { result ≡ Ok true → IsFree (byte_at bytes.old) address payload.now }
    ensures taken { result ≡ Ok false → IsTaken (byte_at bytes.old) address payload.now }
    ensures memory { IfErr result (λ fault. fault ≡ SrecFault.Memory) }
{
    for (i, byte) in payload.iter().enumerate() {
        let at = (usize::from(address) + i) as u16;
        if bytes.get(at).is_some() {
            return Ok(false);
        }
        if bytes.insert(at, *byte).is_err() {
            return Err(SrecFault::Memory);
        }
    }
    Ok(true)
}

/// The image of a text of records, or the text's first fault. Its start is the S9 record's address.
///
/// Digits and the letter S may have either case; lines end with LF or CR LF, which the last may lack. S0 and S5
/// records may be anywhere before the S9 record, or be left out.
pub fn read(alloc: Global, text: &[u8]) -> Result<Image, SrecFault>
    requires { length text.now ≤ 1048576 }
    ensures image { IfOk result (GivesImage text.now) }
    ensures fault { IfErr result (λ fault. fault ≢ SrecFault.Memory → HasFault text.now fault) }
{
    let mut reader = Reader {
        bytes: ByteMap::new(alloc),
        records: 0,
        start: None,
    };
    let mut rest = text;
    let mut count = 0;
    while !rest.is_empty() {
        let (line, behind) = cut_line(rest);
        count += 1;
        reader.take_line(alloc, line, count)?;
        rest = behind;
    }
    match reader.start {
        Some(start) => Ok(Image {
            bytes: reader.bytes,
            start,
        }),
        None => Err(SrecFault::NoEnd),
    }
}
