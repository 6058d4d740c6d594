//! Interrupt plans: the schedule of the interrupts that a run takes.
//!
//! A [`Plan`] is a list of [`Request`]s. A request names a sample, a moment in it, counted in steps, and the bytes
//! that its handler writes; it is taken at the first boundary at or after its moment where interrupts are allowed.
//! A good plan writes only bytes that the firmware leaves free, and its requests ascend. [`read_plan`] returns
//! exactly the plan that the rows of a text spell, which is good, or the fault of the first row that fails.
//! [`read_posts`] does the same for the [`Posts`] of the mailbox form, whose handler may post a sample.
//!
//! [`read_levels`] reads the [`Levels`] at which a handler answers fast samples and is itself interrupted.
//!
//! [`read_upsets`] reads in the same way which byte of a firmware's tables holds another value while a sample is
//! answered: a list of [`Upset`]s, at most one for each sample.
#![tactic(auto)]

ghost use Rattle.std.specs.Prelude.{◌≡◌, []};
ghost use Rattle.interrupt_plan.specs.Plans.{IsGood};

use cpu12_isa::instr::Write;
use fz_list::List;
use std::alloc::Global;
use thiserror::Error;

mod entry;
pub mod laws;
mod levels;
mod reader;
mod row;
mod upsets;

pub use levels::{Level, Levels, read_levels};
pub use reader::{read_plan, read_posts};
pub use row::{count_in, word_in};
pub use upsets::{Upset, UpsetFault, Upsets, read_upsets};

/// A request for an interrupt.
#[derive(Drop)]
pub struct Request {
    /// The sample, counted from 1.
    pub sample: u32,
    /// The least number of the sample's steps that are done before it.
    pub moment: u32,
    /// What its handler writes, in order: at most 8 bytes, each from `$1800` to `$1FDF`.
    pub writes: List<Write>,
}

/// Requests that ascend by sample and then by moment, at most 10000 of them.
pub type Plan = List<Request>;

/// A request for an interrupt whose handler may post a sample.
#[derive(Drop)]
pub struct Post {
    /// The least number of the run's steps that are done before it, at most 1000000.
    pub moment: u32,
    /// The sample that it posts, counted from 1, or 0 for none.
    pub sample: u32,
    /// What its handler writes in addition, in order: at most 8 bytes, each from `$1800` to `$1FDF`.
    pub writes: List<Write>,
}

/// Posts that ascend by their moments, at most 10000 of them.
pub type Posts = List<Post>;

/// Why a text is no plan, or has no posts or levels. Rows count from 1.
#[derive(Clone, Copy, PartialEq, Eq, Debug, Error)]
pub enum PlanFault {
    /// There is a row 10001.
    #[error("too many rows")]
    TooMany,
    /// That row does not have its two numbers, a sample and a moment or a moment and a sample, each within its
    /// limits, followed by at most eight pairs of an address and a value; or does not have the numbers of a level.
    #[error("row {0} is malformed")]
    BadRow(u32),
    /// In that row, that address is the first that is not free.
    #[error("row {0}: the byte at {1} is not free")]
    NotFree(u32, u16),
    /// That row belongs before the one above it: a request or a level by its sample and moment, a post by its
    /// moment.
    #[error("row {0} falls back")]
    NotAscending(u32),
    /// Out of memory.
    #[error("no memory")]
    Memory,
}

/// The plan of a run without interrupts. It allocates no memory.
pub fn no_interrupts(alloc: Global) -> Plan
    ensures empty { result ≡ [] }
    ensures good { IsGood result }
{
    List::new(Vec::new(alloc))
}
