//! Items, and their assembly.
ghost use Rattle.std.specs.Prelude.{◌≡◌, ◌<◌, ◌≤◌, ◌+◌, ◌^◌, ℕ, List, ◌++◌, length, IfOk, IfErr, OnOk, IsSome, Ok, Err};
ghost use Rattle.cpu12_asm.specs.Bytes.{byte_at, start_of, placed, Holds, IsAscending};
ghost use Rattle.cpu12_asm.specs.Items.{given_by, item_bytes, place_after, CanBePlaced, FailsFirst, IsRising};
ghost use Rattle.cpu12_asm.specs.Items.{IsItemFault, PassesEnd, WritesOver};

use crate::image::{ByteMap, Image, Refusal};
use cpu12_isa::encode::encode;
use cpu12_isa::instr::Instr;
use std::alloc::{AllocError, Global};
use thiserror::Error;

/// An element of an assembly.
#[derive(Clone, Copy, Drop)]
pub enum Item {
    /// The next byte goes to this address.
    Place(u16),
    /// A byte.
    Byte(u8),
    /// An instruction, by its bytes.
    Op(Instr),
}

/// Why items or a source have no image, with the number of the item or the line, from 1.
#[derive(Clone, Copy, Debug, PartialEq, Eq, Drop, Error)]
pub enum AsmFault {
    /// This line is malformed, or its operation does not take its operand.
    #[error("line {0} is malformed")]
    BadLine(u32),
    /// A name on this line has no value, or none yet in `ORG` and `EQU`.
    #[error("line {0} has an unknown name")]
    UnknownName(u32),
    /// This line defines a name again.
    #[error("line {0} defines a name again")]
    Twice(u32),
    /// The target of this line's branch is more than 128 bytes back or 127 ahead.
    #[error("line {0} branches too far")]
    BranchFar(u32),
    /// A value on this line is out of range, or a byte of this item or line would be past the last address.
    #[error("{0} is out of range")]
    Range(u32),
    /// A byte of this item or line would be where an earlier one is.
    #[error("{0} writes over an earlier byte")]
    Overlap(u32),
    /// Out of memory for the image.
    #[error("no memory")]
    Memory,
}

/// The image of items. The first item is at address 0, and each other item follows the one before it, except that
/// a byte or an instruction after an [`Item::Place`] is at that place.
pub fn assemble_items(alloc: Global, items: &[Item]) -> Result<Image, AsmFault>
    requires { length items.now < 2 ^ 32 }
    ensures bytes { IfOk result (λ image. Holds image.bytes (given_by items.now)) }
    ensures ascending { IfOk result (λ image. IsAscending image.bytes) }
    ensures start { IfOk result (λ image. image.start ≡ start_of image.bytes) }
    ensures fault { IfErr result IsItemFault }
    ensures range { (n : ℕ) → result ≡ Err (AsmFault.Range n) → FailsFirst PassesEnd items.now n }
    ensures overlap { (n : ℕ) → result ≡ Err (AsmFault.Overlap n) → FailsFirst WritesOver items.now n }
    // Items that never go back can be placed.
    ensures rising { IsRising items.now → IfErr result (λ fault. fault ≡ AsmFault.Memory) }
{
    let mut bytes = ByteMap::new(alloc);
    let mut place: u32 = 0;
    let mut number: u32 = 0;
    for item in items {
        number += 1;
        place = match put_item(&mut bytes, place, item) {
            Ok(after) => after,
            Err(Refusal::PastEnd) => return Err(AsmFault::Range(number)),
            Err(Refusal::Taken) => return Err(AsmFault::Overlap(number)),
            Err(Refusal::Memory) => return Err(AsmFault::Memory),
        };
    }
    let start = bytes.start();
    Ok(Image { bytes, start })
}

/// Puts an item's bytes at an address, and returns the address after it.
fn put_item(bytes: &mut ByteMap, place: u32, item: &Item) -> Result<u32, Refusal>
    requires { place ≤ 2 ^ 16 }
    ensures behind { IfOk result (λ after. (after ≡ place_after place item.now) × (after ≤ 2 ^ 16)) }
    ensures held { (given : List (ℕ × ℕ)) → Holds bytes.old given
        → OnOk result (Holds bytes.new (given ++ placed place (item_bytes item.now))) }
    ensures past { result ≡ Err Refusal.PastEnd → 2 ^ 16 < place + length (item_bytes item.now) }
    ensures taken { result ≡ Err Refusal.Taken → (place + length (item_bytes item.now) ≤ 2 ^ 16)
        × ((given : List (ℕ × ℕ)) → Holds bytes.old given
        → (k : ℕ) × (k < length (item_bytes item.now)) × IsSome (byte_at given (place + k))) }
{
    match *item {
        Item::Place(at) => Ok(u32::from(at)),
        Item::Byte(byte) => bytes.put_all(place, &[byte]),
        Item::Op(instruction) => bytes.put_all(place, encode(&instruction).as_slice()),
    }
}
