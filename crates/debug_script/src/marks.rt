//! What stops a run under `go`.
ghost use Rattle.std.specs.Prelude.{◌≡◌, true, false, IfOk, OnOk};
ghost use Rattle.std.specs.BTreeSet.{Updates};
ghost use Rattle.std.specs.Ordering.{nat_cmp};
ghost use Rattle.debug_script.specs.Showing.{no_marks, with_break, with_watch, without_break, without_watch};

use crate::breaks::Breaks;
use std::alloc::{AllocError, Global};
use std::collections::BTreeSet;

/// The addresses at which a run stops, and those whose bytes it watches.
#[derive(Drop)]
pub(crate) struct Marks {
    pub(crate) breaks: Breaks,
    pub(crate) watches: BTreeSet<u16>,
}

impl Marks {
    pub(crate) fn new(alloc: Global) -> Result<Marks, AllocError>
        ensures { IfOk result (λ marks. marks ≡ no_marks) }
    {
        Ok(Marks {
            breaks: Breaks::new(alloc)?,
            watches: BTreeSet::new(alloc),
        })
    }

    pub(crate) fn set_break(&mut self, at: u16) -> Result<(), AllocError>
        ensures { OnOk result (self.new ≡ with_break at self.old) }
    {
        self.breaks.insert(at)
    }

    pub(crate) fn set_watch(&mut self, at: u16) -> Result<(), AllocError>
        ensures marks { OnOk result (self.new ≡ with_watch at self.old) }
        ensures watched { OnOk result (Updates nat_cmp self.old.watches self.new.watches at true) }
    {
        match self.watches.insert(at) {
            Ok(_) => Ok(()),
            Err(_) => Err(AllocError),
        }
    }

    pub(crate) fn take_break(&mut self, at: u16)
        ensures { self.new ≡ without_break at self.old }
    {
        self.breaks.remove(at);
    }

    pub(crate) fn take_watch(&mut self, at: u16)
        ensures marks { self.new ≡ without_watch at self.old }
        ensures watched { Updates nat_cmp self.old.watches self.new.watches at false }
    {
        self.watches.remove(&at);
    }
}
