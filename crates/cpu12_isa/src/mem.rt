//! Memory, and words made of bytes.
ghost use Rattle.std.specs.Prelude.{ℕ, ◌≡◌, List, Option, length, slice_index, slice_set, IfOk};
ghost use Rattle.cpu12_isa.specs.Memory.{zeros, word_of, high_of, low_of};
ghost use Rattle.cpu12_isa.specs.{Regions.is_free, Tags.untagged};

use fz_list::Memory;
use std::alloc::{AllocError, Global};

/// The address of the interrupt's vector.
pub const VECTOR: u16 = 0xFFF2;

/// The first free byte; the free bytes go up to the stack.
pub const FREE_START: u16 = 0x1800;

/// The first byte of the stack.
pub const STACK_START: u16 = 0x1FE0;

/// Whether a byte is free: the firmware neither reads nor writes it, so a handler may write it.
pub fn is_free(at: u16) -> bool
    ensures { result ≡ is_free at }
{
    FREE_START <= at && at < STACK_START
}

/// What an instruction reads and writes: 65536 bytes by their addresses.
pub trait Mem: Sized {
    /// The 65536 bytes.
    ghost bytes: { Self → List ℕ };

    /// For each address the tag that it has beside its byte, if it has one. No write changes this.
    ghost tags: { Self → List (Option ℕ) };

    /// A memory of zeros without a tag.
    fn fresh(alloc: Global) -> Result<Self, Memory>
        ensures bytes { IfOk result (λ m. bytes m ≡ zeros 65536) }
        ensures tags { IfOk result (λ m. tags m ≡ untagged 65536) };

    /// The byte at an address.
    fn read(&self, at: u16) -> u8
        ensures { result ≡ slice_index (bytes self.now) at };

    /// Sets the byte at an address.
    fn write(&mut self, at: u16, value: u8)
        ensures bytes { bytes self.new ≡ slice_set (bytes self.old) at value }
        ensures tags { tags self.new ≡ tags self.old };

    ghost size: { (m : Self) → length (bytes m) ≡ 65536 };
}

/// A memory with all its bytes in one vector, for tests and small tools.
#[derive(Drop)]
pub struct FlatMem {
    cells: Vec<u8>,
    ghost full: { length cells.items ≡ 65536 },
}

/// n zeros.
#[tactic(auto, unfolding(crate::specs::Memory::zeros))]
pub(crate) fn zeroed(alloc: Global, n: usize) -> Result<Vec<u8>, AllocError>
    ensures { IfOk result (λ v. v.items ≡ zeros n) }
{
    vec![in alloc; 0u8; n]
}

impl Mem for FlatMem {
    ghost bytes = { λ m. m.cells.items };

    ghost tags = { λ m. untagged 65536 };

    ghost size = { λ m. m.full };

    #[tactic(auto, using(crate::proofs::Zeros::length_zeros))]
    fn fresh(alloc: Global) -> Result<Self, Memory> {
        match zeroed(alloc, 65536) {
            Ok(cells) => Ok(FlatMem { cells }),
            Err(_) => Err(Memory),
        }
    }

    fn read(&self, at: u16) -> u8 {
        self.cells[at as usize]
    }

    fn write(&mut self, at: u16, value: u8) {
        self.cells[at as usize] = value;
    }
}

/// A word from its high and its low byte.
pub fn word_of(high: u8, low: u8) -> u16
    ensures { result ≡ word_of high low }
{
    high as u16 * 256 + low as u16
}

/// The high byte of a word.
pub fn high_of(word: u16) -> u8
    ensures { result ≡ high_of word }
{
    (word / 256) as u8
}

/// The low byte of a word.
pub fn low_of(word: u16) -> u8
    ensures { result ≡ low_of word }
{
    (word % 256) as u8
}
