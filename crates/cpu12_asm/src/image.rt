//! Images of memory.
ghost use Rattle.std.specs.Prelude.{◌≡◌, ◌↔◌, ◌<◌, ◌≤◌, ◌+◌, ◌^◌, ℕ, List, [], ◌++◌, length, Some, None, Ok, Err};
ghost use Rattle.std.specs.Prelude.{IsTrue, IsSome, OnOk, OnErr, IfOk, IfSome, IfNone, if◌then◌else◌, slice_index};
ghost use Rattle.std.specs.Prelude.{unwrap_or};
ghost use Rattle.std.specs.BTreeMap.{is_at};
ghost use Rattle.std.specs.Ordering.{nat_cmp};
ghost use Rattle.cpu12_asm.specs.Bytes.{byte_at, start_of, placed, Holds, IsAscending, IsFirstDifference};
ghost use Rattle.cpu12_asm.specs.Bytes.{IsFirstMissing};

use cpu12_isa::mem::Mem;
use std::alloc::{AllocError, Global};
use std::collections::BTreeMap;
use std::marker::Model;

/// Bytes by their addresses. A contract sees the list of addresses with their bytes.
#[derive(Drop)]
pub struct ByteMap {
    bytes: BTreeMap<u16, u8>,
}

impl Model for ByteMap {
    ghost use Rattle.std.specs.Prelude.{ℕ, List};
    ghost use Rattle.std.specs.BTreeMap.{IsOrdered};
    ghost use Rattle.std.specs.Ordering.{nat_cmp};

    ghost Value = { List (ℕ × ℕ) };

    ghost view = { λ m. m.bytes.entries };

    ghost invariant = { λ m. IsOrdered nat_cmp m.bytes };
}

impl ByteMap {
    /// No bytes.
    pub fn new(alloc: Global) -> ByteMap
        ensures { result ≡ [] }
    {
        ByteMap {
            bytes: BTreeMap::new(alloc),
        }
    }

    /// How many bytes there are.
    pub fn len(&self) -> usize
        ensures { result ≡ length self.now }
    {
        self.bytes.len()
    }

    pub fn is_empty(&self) -> bool
        ensures { IsTrue result ↔ (self.now ≡ []) }
    {
        self.bytes.is_empty()
    }

    /// The byte at an address.
    pub fn get(&self, at: u16) -> Option<u8>
        ensures { result ≡ byte_at self.now at }
    {
        self.bytes.get(&at).copied()
    }

    /// The bytes with their addresses, in ascending order.
    pub fn to_vec(&self, alloc: Global) -> Result<Vec<(u16, u8)>, AllocError>
        ensures bytes { IfOk result (λ bytes. bytes.items ≡ self.now) }
        ensures ascending { IsAscending self.now }
    {
        self.bytes
            .iter()
            .map(|(at, byte)| (*at, *byte))
            .collect(alloc)
    }

    /// The least address at which two maps have different bytes, or only one of them has a byte.
    pub fn first_difference(&self, other: &ByteMap) -> Option<u16>
        ensures differs { IfSome result (IsFirstDifference self.now other.now) }
        ensures same { IfNone result ((q : ℕ) → byte_at self.now q ≡ byte_at other.now q) }
    {
        match (self.first_missing(other), other.first_missing(self)) {
            (Some(here), Some(there)) => Some(here.min(there)),
            (Some(here), None) => Some(here),
            (None, there) => there,
        }
    }

    /// The least address with a byte at which the other map has none.
    fn first_missing(&self, other: &ByteMap) -> Option<u16>
        ensures missing { IfSome result (IsFirstMissing self.now other.now) }
        ensures none { IfNone result ((q b : ℕ) → byte_at self.now q ≡ Some b → byte_at other.now q ≡ Some b) }
    {
        for (at, byte) in &self.bytes {
            if other.get(*at) != Some(*byte) {
                return Some(*at);
            }
        }
        None
    }

    /// Puts a byte at an address, replacing any that is there.
    pub fn insert(&mut self, at: u16, byte: u8) -> Result<(), AllocError>
        ensures put { OnOk result ((q : ℕ)
            → byte_at self.new q ≡ (if is_at (nat_cmp at) q then Some byte else byte_at self.old q)) }
        ensures err { OnErr result (self.new ≡ self.old) }
    {
        match self.bytes.insert(at, byte) {
            Ok(_) => Ok(()),
            Err(_) => Err(AllocError),
        }
    }

    /// The word at the reset vector, or 0 where one of its bytes is missing.
    pub fn start(&self) -> u16
        ensures value { result ≡ start_of self.now }
        ensures ascending { IsAscending self.now }
    {
        let _ = &self.bytes;
        match (self.get(0xFFFE), self.get(0xFFFF)) {
            (Some(high), Some(low)) => u16::from(high) * 256 + u16::from(low),
            _ => 0,
        }
    }

    /// Writes each byte to its address in a memory; the memory's other bytes are unchanged.
    pub fn write_to<M: Mem>(&self, m: &mut M)
        ensures bytes { (at : ℕ) → at < 2 ^ 16
            → slice_index (M.bytes m.new) at ≡ unwrap_or (byte_at self.now at) (slice_index (M.bytes m.old) at) }
        ensures tags { M.tags m.new ≡ M.tags m.old }
    {
        for (at, byte) in &self.bytes {
            m.write(*at, *byte);
        }
    }

    /// Puts bytes one after another from an address on, where there may be none yet, and returns the address after
    /// the last.
    pub(crate) fn put_all(&mut self, place: u32, bytes: &[u8]) -> Result<u32, Refusal>
        requires place { place ≤ 2 ^ 16 }
        requires few { length bytes.now ≤ 2 ^ 16 }
        ensures behind { IfOk result (λ after. (after ≡ place + length bytes.now) × (after ≤ 2 ^ 16)) }
        ensures held { (given : List (ℕ × ℕ)) → Holds self.old given
            → OnOk result (Holds self.new (given ++ placed place bytes.now)) }
        ensures past { result ≡ Err Refusal.PastEnd → 2 ^ 16 < place + length bytes.now }
        ensures taken { result ≡ Err Refusal.Taken → (place + length bytes.now ≤ 2 ^ 16)
            × ((given : List (ℕ × ℕ)) → Holds self.old given
            → (k : ℕ) × (k < length bytes.now) × IsSome (byte_at given (place + k))) }
    {
        let end = place + bytes.len() as u32;
        if end > 0x1_0000 {
            return Err(Refusal::PastEnd);
        }
        let mut at = place;
        for byte in bytes {
            let address = at as u16;
            if self.get(address).is_some() {
                return Err(Refusal::Taken);
            }
            match self.insert(address, *byte) {
                Ok(()) => {}
                Err(_) => return Err(Refusal::Memory),
            }
            at += 1;
        }
        Ok(end)
    }
}

/// Why bytes can't be put into an image.
#[derive(Clone, Copy)]
pub(crate) enum Refusal {
    PastEnd,
    Taken,
    Memory,
}

/// Some bytes of memory, and the address where the processor starts: the word at `$FFFE`, the reset
/// vector (CPU12 Reference Manual, section 7), where the image has both its bytes, else 0.
#[derive(Drop)]
pub struct Image {
    pub bytes: ByteMap,
    pub start: u16,
}
