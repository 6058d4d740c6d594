//! Where a program's bytes come from and where they go: a [`Shelf`] of files by name, and
//! [`Sink`]s that take bytes, such as standard output, and [`Line`]s.
//!
//! The contracts of both traits are about a model of the value: the files with their bytes and
//! room, the log of reads and writes, the bytes taken so far, and a count for each kind of
//! fault, which only that fault raises. The models of [`MemShelf`] and [`MemSink`] are complete,
//! and they fail where a test lists it; [`FileShelf`] and [`StdSink`] are the thin edge to the
//! operating system, and their models leave the contents open.
//!
//! The contract, in short: a read gives the whole file, and never one above [`MOST_BYTES`]; a
//! put takes a nonempty prefix of what it is given; and no call fails unless the count of that
//! fault has risen, or memory ran out.
#![tactic(auto)]

mod errors;
mod file_shelf;
mod line;
mod log;
mod mem_shelf;
mod mem_sink;
mod parts;
mod shelf;
mod sink;
mod std_sink;
mod stored;
mod whole;

pub use errors::{Failed, ReadError, WriteError};
pub use file_shelf::FileShelf;
pub use line::Line;
pub use log::{Answer, Asked};
pub use mem_shelf::{MemFile, MemShelf};
pub use mem_sink::MemSink;
pub use parts::{Part, put_parts};
pub use shelf::{MOST_BYTES, Shelf};
pub use sink::Sink;
pub use std_sink::StdSink;
pub use whole::{put_all, put_lines};
