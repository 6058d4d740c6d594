//! The text of one record.
ghost use Rattle.std.specs.Prelude.{◌≡◌, ◌≤◌, ◌++◌, length, sum, OnOk};
ghost use Rattle.hex.specs.Hex.{IsBytes};
ghost use Rattle.srecord.specs.Lines.{body_of, checksum_of, record_text};

use arrayvec::ArrayVec;
use std::alloc::{AllocError, Global};

/// A record's count, address and bytes.
fn body_of_record(address: u16, bytes: &[u8]) -> ArrayVec<u8, 40>
    requires { length bytes.now ≤ 32 }
    ensures { result.items ≡ body_of address bytes.now }
{
    let mut body = ArrayVec::new();
    body.push(bytes.len() as u8 + 3);
    body.push((address / 256) as u8);
    body.push((address % 256) as u8);
    for byte in bytes {
        body.push(*byte);
    }
    body
}

/// The one's complement of the low byte of the sum.
pub(crate) fn checksum(body: &[u8]) -> u8
    requires { length body.now ≤ 256 }
    ensures { result ≡ checksum_of body.now }
{
    let mut total: u32 = 0;
    for byte in body {
        total += u32::from(*byte);
    }
    255 - (total % 256) as u8
}

/// Appends the record of this digit.
pub(crate) fn put_record(
    alloc: Global,
    text: &mut Vec<u8>,
    digit: u8,
    address: u16,
    bytes: &[u8],
) -> Result<(), AllocError>
    requires { length bytes.now ≤ 32 }
    ensures record { OnOk result (text.new.items ≡ text.old.items ++ record_text digit address bytes.now) }
    ensures bytes { IsBytes bytes.now }
{
    let mut body = body_of_record(address, bytes);
    let sum = checksum(body.as_slice());
    body.push(sum);
    let digits = hex::encode_upper(alloc, body.as_slice())?;
    text.push(b'S')?;
    text.push(digit)?;
    text.extend_from_slice(digits.as_bytes())?;
    text.push(b'\n')?;
    Ok(())
}
