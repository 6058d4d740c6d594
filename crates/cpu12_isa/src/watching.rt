//! Memory that reports whether watched bytes have changed.
ghost use Rattle.std.specs.Prelude.{ℕ, ◌≡◌, ◌<◌, List, Option, Some, None, true, length, option_map, slice_index};
ghost use Rattle.std.specs.Prelude.{slice_index_or, slice_set, IfOk};
ghost use Rattle.arrayvec.specs.ArrayVec.{array_vec_len};
ghost use Rattle.cpu12_isa.specs.{Memory.zeros, Tags.untagged};
ghost use Rattle.cpu12_isa.specs.Watching.{noted_again, is_changed, any_changed, is_listed, AreListed};

use crate::mem::Mem;
use arrayvec::ArrayVec;
use fz_list::Memory;
use std::alloc::{AllocError, Global};

/// A memory over another that notes the bytes at watched addresses, and reports whether any of them differs from
/// what was noted: a watched address has the noted byte as its tag. As long as no watched byte has changed, this
/// takes one test.
#[derive(Drop)]
pub struct WatchedMem<M: Mem> {
    inner: M,
    /// For each address the byte that was noted there, if it is watched.
    table: Vec<Option<u8>>,
    /// Watched addresses that were given a byte other than the noted one; when the list is full, there may be
    /// more.
    written: ArrayVec<u16, 64>,
    ghost size: { length table.items ≡ 65536 },
    ghost listed: { array_vec_len written < 64 → AreListed written.items table.items (M.bytes inner) },
}

/// A table of n addresses, none watched.
#[tactic(auto, unfolding(crate::specs::Tags::untagged))]
fn unwatched(alloc: Global, n: usize) -> Result<Vec<Option<u8>>, AllocError>
    ensures { IfOk result (λ v. v.items ≡ untagged n) }
{
    vec![in alloc; None; n]
}

/// Whether the noted byte differs from the one in memory.
#[inline(always)]
fn is_changed(noted: Option<u8>, byte: u8) -> bool
    ensures { result ≡ is_changed noted byte }
{
    match noted {
        Some(was) => was != byte,
        None => false,
    }
}

/// Whether a noted byte at a listed address differs from memory's.
fn any_listed<M: Mem>(table: &[Option<u8>], m: &M, written: &[u16]) -> bool
    requires size { length table.now ≡ 65536 }
    requires listed { AreListed written.now table.now (M.bytes m.now) }
    ensures { result ≡ any_changed table.now (M.bytes m.now) }
{
    for at in written {
        if is_changed(table[*at as usize], m.read(*at)) {
            return true;
        }
    }
    false
}

/// Whether any noted byte differs from memory's.
fn any_of_all<M: Mem>(table: &[Option<u8>], m: &M) -> bool
    requires { length table.now ≡ 65536 }
    ensures { result ≡ any_changed table.now (M.bytes m.now) }
{
    for at in 0..0x1_0000u32 {
        if is_changed(table[at as usize], m.read(at as u16)) {
            return true;
        }
    }
    false
}

/// Notes the byte at an address again, if it is watched.
fn note_at<M: Mem>(table: &mut [Option<u8>], m: &M, at: u16)
    requires { length table.old ≡ 65536 }
    ensures { table.new ≡ slice_set table.old at
        (option_map (λ b. slice_index (M.bytes m.now) at) (slice_index_or table.old at None)) }
{
    if table[at as usize].is_some() {
        table[at as usize] = Some(m.read(at));
    }
}

/// Notes the bytes at listed addresses again.
fn note_listed<M: Mem>(table: &mut [Option<u8>], m: &M, written: &[u16])
    requires size { length table.old ≡ 65536 }
    requires listed { AreListed written.now table.old (M.bytes m.now) }
    ensures { table.new ≡ noted_again table.old (M.bytes m.now) }
{
    for at in written {
        note_at(table, m, *at);
    }
}

/// Notes all bytes again.
fn note_all<M: Mem>(table: &mut [Option<u8>], m: &M)
    requires { length table.old ≡ 65536 }
    ensures { table.new ≡ noted_again table.old (M.bytes m.now) }
{
    for at in 0..0x1_0000u32 {
        note_at(table, m, at as u16);
    }
}

/// Notes the bytes at listed addresses again, or all of them if the list is full.
fn note_again<M: Mem>(table: &mut [Option<u8>], m: &M, written: &ArrayVec<u16, 64>)
    requires size { length table.old ≡ 65536 }
    requires listed { array_vec_len written.now < 64 → AreListed written.now.items table.old (M.bytes m.now) }
    ensures { table.new ≡ noted_again table.old (M.bytes m.now) }
{
    if written.is_full() {
        note_all(table, m);
    } else {
        note_listed(table, m, written.as_slice());
    }
}

impl<M: Mem> Mem for WatchedMem<M> {
    ghost bytes = { λ m. M.bytes m.inner };

    ghost tags = { λ m. m.table.items };

    ghost size = { λ m. M.size m.inner };

    fn fresh(alloc: Global) -> Result<Self, Memory> {
        let Ok(table) = unwatched(alloc, 65536) else {
            return Err(Memory);
        };
        Ok(WatchedMem {
            inner: M::fresh(alloc)?,
            table,
            written: ArrayVec::new(),
        })
    }

    #[inline(always)]
    fn read(&self, at: u16) -> u8 {
        self.inner.read(at)
    }

    #[inline(always)]
    fn write(&mut self, at: u16, value: u8) {
        if is_changed(self.table[at as usize], value) {
            self.list(at);
        }
        self.inner.write(at, value);
    }
}

impl<M: Mem> WatchedMem<M> {
    /// Watches an address: notes the byte that is there.
    pub fn watch(&mut self, at: u16)
        ensures bytes { ⟦<WatchedMem<M> as Mem>⟧.bytes self.new ≡ ⟦<WatchedMem<M> as Mem>⟧.bytes self.old }
        ensures noted { ⟦<WatchedMem<M> as Mem>⟧.tags self.new ≡ slice_set (⟦<WatchedMem<M> as Mem>⟧.tags self.old)
            at (Some (slice_index (⟦<WatchedMem<M> as Mem>⟧.bytes self.old) at)) }
    {
        self.table[at as usize] = Some(self.inner.read(at));
    }

    /// Stops watching an address.
    pub fn unwatch(&mut self, at: u16)
        ensures bytes { ⟦<WatchedMem<M> as Mem>⟧.bytes self.new ≡ ⟦<WatchedMem<M> as Mem>⟧.bytes self.old }
        ensures noted { ⟦<WatchedMem<M> as Mem>⟧.tags self.new ≡ slice_set (⟦<WatchedMem<M> as Mem>⟧.tags self.old)
            at None }
    {
        self.table[at as usize] = None;
    }

    /// Notes the bytes at all watched addresses again.
    #[inline(always)]
    pub fn note(&mut self)
        ensures bytes { ⟦<WatchedMem<M> as Mem>⟧.bytes self.new ≡ ⟦<WatchedMem<M> as Mem>⟧.bytes self.old }
        ensures noted { ⟦<WatchedMem<M> as Mem>⟧.tags self.new
            ≡ noted_again (⟦<WatchedMem<M> as Mem>⟧.tags self.old) (⟦<WatchedMem<M> as Mem>⟧.bytes self.old) }
    {
        if !self.written.is_empty() {
            self.note_written();
        }
    }

    /// Whether the byte at any watched address differs from the noted one.
    #[inline(always)]
    pub fn has_changed(&self) -> bool
        ensures { result
            ≡ any_changed (⟦<WatchedMem<M> as Mem>⟧.tags self.now) (⟦<WatchedMem<M> as Mem>⟧.bytes self.now) }
    {
        !self.written.is_empty() && self.is_written_changed()
    }

    /// `note` when some address is listed.
    #[inline(never)]
    fn note_written(&mut self)
        ensures bytes { ⟦<WatchedMem<M> as Mem>⟧.bytes self.new ≡ ⟦<WatchedMem<M> as Mem>⟧.bytes self.old }
        ensures noted { ⟦<WatchedMem<M> as Mem>⟧.tags self.new
            ≡ noted_again (⟦<WatchedMem<M> as Mem>⟧.tags self.old) (⟦<WatchedMem<M> as Mem>⟧.bytes self.old) }
    {
        note_again(&mut self.table, &self.inner, &self.written);
        self.written.clear();
    }

    /// `has_changed` when some address is listed.
    #[inline(never)]
    fn is_written_changed(&self) -> bool
        ensures { result
            ≡ any_changed (⟦<WatchedMem<M> as Mem>⟧.tags self.now) (⟦<WatchedMem<M> as Mem>⟧.bytes self.now) }
    {
        if self.written.is_full() {
            any_of_all(&self.table, &self.inner)
        } else {
            any_listed(&self.table, &self.inner, self.written.as_slice())
        }
    }

    /// Lists an address, if there is room.
    #[inline(never)]
    fn list(&mut self, at: u16)
        ensures bytes { ⟦<WatchedMem<M> as Mem>⟧.bytes self.new ≡ ⟦<WatchedMem<M> as Mem>⟧.bytes self.old }
        ensures noted { ⟦<WatchedMem<M> as Mem>⟧.tags self.new ≡ ⟦<WatchedMem<M> as Mem>⟧.tags self.old }
        ensures listed { array_vec_len self.new.written < 64 → is_listed self.new.written.items at ≡ true }
    {
        if !self.written.is_full() {
            self.written.push(at);
        }
    }
}
