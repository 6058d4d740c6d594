//! What is known of the paths to the places of a handler.
ghost use Rattle.std.specs.Prelude.{◌≡◌, ◌≤◌, ◌<◌, ◌+◌, ℕ, Some, None, IfOk, IfSome, length, replicate};
ghost use Rattle.handler_check.specs.Cut.{code_start};
ghost use Rattle.handler_check.specs.PathSummaries.{summary_at, join, led_all, list_of};

use crate::faults::CODE_START;
use std::alloc::{AllocError, Global};

/// What is known of the paths to a place: how many bytes they leave pushed, the greatest number of instructions on
/// one, and whether two of them leave different numbers of bytes; if so, the first two numbers mean nothing.
#[derive(Clone, Copy, Drop)]
pub(crate) struct PathSummary {
    pub(crate) height: u8,
    pub(crate) most: u32,
    pub(crate) meets: bool,
}

/// The summary of the paths to each place from `$4000` on that some path reaches.
#[derive(Drop)]
pub(crate) struct PathSummaries {
    pub(crate) places: Vec<Option<PathSummary>>,
}

/// The summary of the previous paths, if there are any, and of one more path.
fn joined(old: Option<PathSummary>, summary: PathSummary) -> PathSummary
    ensures { result ≡ join old summary }
{
    match old {
        None => summary,
        Some(old) => {
            if old.meets || old.height != summary.height {
                PathSummary { meets: true, ..old }
            } else if old.most < summary.most {
                summary
            } else {
                old
            }
        }
    }
}

impl PathSummaries {
    /// No path to any of this many places.
    pub(crate) fn new(alloc: Global, places: usize) -> Result<PathSummaries, AllocError>
        ensures { IfOk result (λ summaries. summaries.places.items ≡ replicate places None) }
    {
        Ok(PathSummaries {
            places: vec![in alloc; None; places]?,
        })
    }

    /// The summary of the paths to a place.
    pub(crate) fn get(&self, at: u16) -> Option<PathSummary>
        requires { code_start ≤ at }
        ensures { result ≡ summary_at self.now.places.items at }
    {
        match self.places.get(usize::from(at - CODE_START)) {
            Some(summary) => *summary,
            None => None,
        }
    }

    /// Adds a path with this summary to a place, if there is one.
    pub(crate) fn lead(&mut self, to: Option<u16>, summary: PathSummary)
        requires { IfSome to (λ at. (code_start ≤ at) × (at < code_start + length self.old.places.items)) }
        ensures summaries { (q : ℕ) → summary_at self.new.places.items q
            ≡ led_all (summary_at self.old.places.items) (list_of to) summary q }
        ensures size { length self.new.places.items ≡ length self.old.places.items }
    {
        if let Some(at) = to {
            let summary = joined(self.get(at), summary);
            self.places[usize::from(at - CODE_START)] = Some(summary);
        }
    }
}
