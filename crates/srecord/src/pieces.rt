//! The bytes of an image, cut into records.
ghost use Rattle.std.specs.Prelude.{◌≡◌, ◌≤◌, ◌<◌, ◌+◌, ◌⊎◌, ◌++◌, List, length, take, drop, IfOk, OnOk};
ghost use Rattle.hex.specs.Hex.{IsBytes};
ghost use Rattle.srecord.specs.Images.{AreCut, Piece, StartsAt, data_text};
ghost use Rattle.srecord.specs.{Lines.record_text, Runs.IsRun, Runs.address_at, Runs.bytes_only};

use crate::records::put_record;
use arrayvec::ArrayVec;
use std::alloc::{AllocError, Global};

/// The most bytes of a record.
const MOST_BYTES: usize = 32;

fn address_of(byte: &(u16, u8)) -> u16
    ensures { result ≡ byte.now.0 }
{
    byte.0
}

/// How many of the bytes go into the first record.
fn piece_len(bytes: &[(u16, u8)]) -> usize
    requires { 0 < length bytes.now }
    ensures some { 1 ≤ result }
    ensures few { result ≤ MOST_BYTES }
    ensures within { result ≤ length bytes.now }
    ensures run { IsRun (address_at bytes.now 0) (take result bytes.now) }
    ensures fits { address_at bytes.now 0 + result ≤ 65536 }
    ensures ends { (result ≡ MOST_BYTES) ⊎ (StartsAt (address_at bytes.now 0 + result) (drop result bytes.now) → ⊥) }
{
    let first = usize::from(address_of(&bytes[0]));
    let mut len = 1;
    while len < bytes.len()
        && len < MOST_BYTES
        && usize::from(address_of(&bytes[len])) == first + len
    {
        len += 1;
    }
    len
}

/// Appends the record of adjacent bytes.
fn put_piece(alloc: Global, text: &mut Vec<u8>, bytes: &[(u16, u8)]) -> Result<(), AllocError>
    requires some { 0 < length bytes.now }
    requires few { length bytes.now ≤ MOST_BYTES }
    ensures record { OnOk result
        (text.new.items ≡ text.old.items ++ record_text 49 (address_at bytes.now 0) (bytes_only bytes.now)) }
    ensures bytes { IsBytes (bytes_only bytes.now) }
{
    let mut piece: ArrayVec<u8, 32> = ArrayVec::new();
    for byte in bytes {
        piece.push(byte.1);
    }
    put_record(alloc, text, b'1', bytes[0].0, piece.as_slice())
}

/// Appends the records of bytes, and returns their number.
pub(crate) fn put_pieces(
    alloc: Global,
    text: &mut Vec<u8>,
    bytes: &[(u16, u8)],
) -> Result<usize, AllocError>
    ensures { IfOk result (λ count. (pieces : List Piece) × AreCut bytes.now pieces
        × (text.new.items ≡ text.old.items ++ data_text pieces) × (count ≡ length pieces)) }
{
    let mut rest = bytes;
    let mut count = 0;
    while !rest.is_empty() {
        let (piece, behind) = rest.split_at(piece_len(rest));
        put_piece(alloc, text, piece)?;
        count += 1;
        rest = behind;
    }
    Ok(count)
}
