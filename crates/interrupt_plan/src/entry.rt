//! What rows spell, and how it is read.
ghost use Rattle.std.specs.Prelude.{◌≡◌, ◌↔◌, ◌≤◌, ℕ, List, IfOk, MatchOption, IsTrue};
ghost use Rattle.csv.specs.Records.{fields_of};
ghost use Rattle.cpu12_isa.specs.declared.instr.Write as isa;
ghost use Rattle.interrupt_plan.specs.{Rows.NoLaterThan, Plans.NotAfter, Plans.SpellsRequest, Plans.writes_by};
ghost use Rattle.interrupt_plan.specs.Posts.{NoLater, SpellsPost, writes_in};

use crate::row::{Parts, parts_in};
use crate::{Post, Request};
use cpu12_isa::instr::Write;
use csv::ByteRecord;
use std::alloc::{AllocError, Global};

/// The greatest moment of a post.
const LAST_MOMENT: u32 = 1_000_000;

/// What a row spells: a request of a plan, a post, or a level.
pub(crate) trait Entry: Sized + Drop {
    /// What it writes.
    ghost written: { Self → List isa.Write };

    /// Which others may follow it.
    ghost not_after: { Self → Self → Type 0 };

    /// What it writes, in order.
    fn writes(&self) -> &[Write]
        ensures { result.now ≡ written self.now };

    /// Whether the other may follow it.
    fn is_not_after(&self, other: &Self) -> bool
        ensures { IsTrue result ↔ not_after self.now other.now };
}

/// A reader of rows' entries: a private type, since an impl on an entry's public type would make csv part of what
/// every crate above reads.
pub(crate) trait RowReader<E> {
    /// Which fields spell which entry.
    ghost spells: { Self → List (List ℕ) → E → Type 0 };

    /// The entry of a row.
    fn read(&self, alloc: Global, row: &ByteRecord) -> Result<Option<E>, AllocError>
        ensures { IfOk result (λ entry. MatchOption entry ((e : E) → spells self.now (fields_of row.now) e → ⊥)
            (spells self.now (fields_of row.now))) };
}

/// Whether the first of two pairs of a sample and a moment in it does not come after the second.
pub(crate) fn is_no_later(first: (u32, u32), second: (u32, u32)) -> bool
    ensures { IsTrue result ↔ NoLaterThan first second }
{
    first.0 < second.0 || (first.0 == second.0 && first.1 <= second.1)
}

impl Entry for Request {
    ghost written = { writes_by };

    ghost not_after = { NotAfter };

    fn writes(&self) -> &[Write] {
        self.writes.as_slice()
    }

    fn is_not_after(&self, other: &Request) -> bool {
        is_no_later((self.sample, self.moment), (other.sample, other.moment))
    }
}

/// Reads the rows of a plan.
#[derive(Drop)]
pub(crate) struct RequestReader;

impl RowReader<Request> for RequestReader {
    ghost spells = { λ _. SpellsRequest };

    fn read(&self, alloc: Global, row: &ByteRecord) -> Result<Option<Request>, AllocError> {
        match parts_in(alloc, row)? {
            Some(
                Parts {
                    first: sample,
                    second: moment,
                    writes,
                },
            ) => {
                if sample >= 1 {
                    Ok(Some(Request {
                        sample,
                        moment,
                        writes,
                    }))
                } else {
                    Ok(None)
                }
            }
            None => Ok(None),
        }
    }
}

impl Entry for Post {
    ghost written = { writes_in };

    ghost not_after = { NoLater };

    fn writes(&self) -> &[Write] {
        self.writes.as_slice()
    }

    fn is_not_after(&self, other: &Post) -> bool {
        self.moment <= other.moment
    }
}

/// Reads rows of posts, with the given number of samples.
#[derive(Drop)]
pub(crate) struct PostReader {
    pub(crate) samples: u32,
}

impl RowReader<Post> for PostReader {
    ghost spells = { λ reader. SpellsPost reader.samples };

    fn read(&self, alloc: Global, row: &ByteRecord) -> Result<Option<Post>, AllocError> {
        match parts_in(alloc, row)? {
            Some(
                Parts {
                    first: moment,
                    second: sample,
                    writes,
                },
            ) => {
                if moment <= LAST_MOMENT && sample <= self.samples {
                    Ok(Some(Post {
                        moment,
                        sample,
                        writes,
                    }))
                } else {
                    Ok(None)
                }
            }
            None => Ok(None),
        }
    }
}
