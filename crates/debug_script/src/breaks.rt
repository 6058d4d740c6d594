//! The addresses at which a run stops.
ghost use Rattle.std.specs.Prelude.{◌≡◌, ℕ, false, [], length, slice_index_or, IfOk, OnOk};
ghost use Rattle.std.specs.BTreeSet.{contains_by};
ghost use Rattle.std.specs.Ordering.{nat_cmp};
ghost use Rattle.debug_script.specs.Showing.{with_address, without_address};

use std::alloc::{AllocError, Global};
use std::collections::BTreeSet;
use std::marker::Model;

/// How many addresses there are.
const ADDRESSES: usize = 65536;

/// A set of addresses with a constant-time test for membership.
#[derive(Drop)]
pub(crate) struct Breaks {
    addresses: BTreeSet<u16>,
    /// For each of the 65536 addresses whether it is in the set.
    table: Vec<bool>,
}

impl Model for Breaks {
    ghost use Rattle.std.specs.Prelude.{ℕ};
    ghost use Rattle.std.specs.BTreeSet.{BTreeSet};
    ghost use Rattle.debug_script.specs.Flags.{AreFlags};

    ghost Value = { BTreeSet ℕ };

    ghost view = { λ a. a.addresses };

    ghost invariant = { λ a. AreFlags a.addresses a.table.items };
}

/// A table of this many addresses, none of which is in the set.
fn all_off(alloc: Global, count: usize) -> Result<Vec<bool>, AllocError>
    ensures size { IfOk result (λ table. length table.items ≡ count) }
    ensures off { IfOk result (λ table. (at : ℕ) → slice_index_or table.items at false ≡ false) }
{
    vec![in alloc; false; count]
}

impl Breaks {
    pub(crate) fn new(alloc: Global) -> Result<Breaks, AllocError>
        ensures { IfOk result (λ breaks. breaks ≡ record { keys = [] }) }
    {
        Ok(Breaks {
            addresses: BTreeSet::new(alloc),
            table: all_off(alloc, ADDRESSES)?,
        })
    }

    #[inline(always)]
    pub(crate) fn contains(&self, at: u16) -> bool
        ensures { result ≡ contains_by (nat_cmp at) self.now }
    {
        self.table[at as usize]
    }

    pub(crate) fn insert(&mut self, at: u16) -> Result<(), AllocError>
        ensures { OnOk result (self.new ≡ with_address at self.old) }
    {
        match self.addresses.insert(at) {
            Ok(_) => {
                self.table[at as usize] = true;
                Ok(())
            }
            Err(_) => Err(AllocError),
        }
    }

    pub(crate) fn remove(&mut self, at: u16)
        ensures { self.new ≡ without_address at self.old }
    {
        self.addresses.remove(&at);
        self.table[at as usize] = false;
    }
}
