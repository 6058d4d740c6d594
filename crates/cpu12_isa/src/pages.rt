//! Memory that allocates room only for pages that are written to.
ghost use Rattle.std.specs.Prelude.{ℕ, ◌≡◌, ◌≢◌, ◌==◌, ◌/◌, ◌<◌, true, false, if◌then◌else◌, count_by, length};
ghost use Rattle.std.specs.Prelude.{replicate, slice_index, slice_set, IfOk};
ghost use Rattle.cpu12_isa.specs.Pages.{ArePages, bytes_in, given_in, given_with};
ghost use Rattle.cpu12_isa.specs.{Memory.zeros, Tags.untagged};

use crate::mem::{Mem, zeroed};
use fz_list::Memory;
use std::alloc::Global;

/// A memory of 256 pages of 256 bytes. A page holds zeros, as all do at first, until a byte other than 0 is
/// written to it; then it takes the next slot of a pool that `fresh` allocated as a whole, so that no write
/// allocates memory.
#[derive(Drop)]
pub struct PageMem {
    /// For each page the index of its slot in the pool, in pages; 0 is that of the zero page.
    table: [u16; 256],
    pool: Vec<u8>,
    /// The last slot in use.
    used: u16,
    ghost pages: { ArePages table pool.items used },
    ghost full: { length (bytes_in table pool.items 65536) ≡ 65536 },
}

/// A table of 256 pages that hold zeros.
fn no_places() -> [u16; 256]
    ensures { result ≡ replicate 256 0 }
{
    [0; 256]
}

impl PageMem {
    ghost use Rattle.cpu12_isa.specs.PageMemory.{given};

    /// How many pages were ever given a byte other than 0, 0 to 256.
    pub fn pages(&self) -> u16
        ensures { result ≡ count_by (λ is_given. is_given) (given self.now) }
    {
        self.used
    }

    /// All bytes 0.
    pub fn new(alloc: Global) -> Result<PageMem, Memory>
        ensures bytes { IfOk result (λ m. ⟦<PageMem as Mem>⟧.bytes m ≡ zeros 65536) }
        ensures none { IfOk result (λ m. given m ≡ replicate 256 false) }
    {
        match zeroed(alloc, 65792) {
            Ok(pool) => Ok(PageMem {
                table: no_places(),
                pool,
                used: 0,
            }),
            Err(_) => Err(Memory),
        }
    }

    /// Sets the byte at an address.
    pub fn set(&mut self, at: u16, value: u8)
        ensures bytes { ⟦<PageMem as Mem>⟧.bytes self.new ≡ slice_set (⟦<PageMem as Mem>⟧.bytes self.old) at value }
        ensures given { given self.new ≡ given_with (given self.old) at value }
    {
        let page = (at / 256) as u8;
        if value != 0 {
            self.give(page);
        } else if self.table[page as usize] == 0 {
            return;
        }
        self.put(at, value)
    }

    /// Gives a page its own slot, if it has none.
    fn give(&mut self, page: u8)
        ensures bytes { ⟦<PageMem as Mem>⟧.bytes self.new ≡ ⟦<PageMem as Mem>⟧.bytes self.old }
        ensures given { given self.new ≡ slice_set (given self.old) page true }
        ensures has_place { slice_index self.new.table page ≢ 0 }
    {
        if self.table[page as usize] == 0 {
            self.used += 1;
            self.table[page as usize] = self.used;
        }
    }

    /// Writes to a page that has its own slot.
    fn put(&mut self, at: u16, value: u8)
        requires has_place { slice_index self.old.table (at / 256) ≢ 0 }
        ensures bytes { ⟦<PageMem as Mem>⟧.bytes self.new ≡ slice_set (⟦<PageMem as Mem>⟧.bytes self.old) at value }
        ensures given { given self.new ≡ given self.old }
    {
        let place = self.table[(at / 256) as usize] as usize;
        self.pool[place * 256 + (at % 256) as usize] = value;
    }
}

impl Mem for PageMem {
    ghost bytes = { λ m. bytes_in m.table m.pool.items 65536 };

    ghost tags = { λ m. untagged 65536 };

    ghost size = { λ m. m.full };

    ghost use Rattle.cpu12_isa.specs.PageMemory.{given};

    /// All bytes 0, and no page with its own slot.
    fn fresh(alloc: Global) -> Result<Self, Memory>
        ensures bytes { IfOk result (λ m. ⟦<PageMem as Mem>⟧.bytes m ≡ zeros 65536) }
        ensures tags { IfOk result (λ m. ⟦<PageMem as Mem>⟧.tags m ≡ untagged 65536) }
        ensures none { IfOk result (λ m. given m ≡ replicate 256 false) }
    {
        PageMem::new(alloc)
    }

    fn read(&self, at: u16) -> u8 {
        let place = self.table[(at / 256) as usize] as usize;
        self.pool[place * 256 + (at % 256) as usize]
    }

    /// Sets the byte at an address. A byte other than 0 gives its page its own slot.
    fn write(&mut self, at: u16, value: u8)
        ensures bytes { ⟦<PageMem as Mem>⟧.bytes self.new ≡ slice_set (⟦<PageMem as Mem>⟧.bytes self.old) at value }
        ensures tags { ⟦<PageMem as Mem>⟧.tags self.new ≡ ⟦<PageMem as Mem>⟧.tags self.old }
        ensures given { given self.new ≡ given_with (given self.old) at value }
    {
        self.set(at, value)
    }
}
