//! Why a call failed.

/// A put failed; the sink's count of such faults has risen.
#[derive(Clone, Copy, Debug, PartialEq, Eq)]
pub struct Failed;

/// Why a read failed.
#[derive(Clone, Copy, Debug, PartialEq, Eq)]
pub enum ReadError {
    /// The file does not exist or could not be read; the count of failed reads has risen.
    Failed,
    /// The file has more than [`MOST_BYTES`](crate::MOST_BYTES) bytes; the count of files that are too
    /// long has risen.
    TooLong,
    /// Out of memory. No count has risen, and the log is unchanged.
    Memory,
}

/// Why a write failed.
#[derive(Clone, Copy, Debug, PartialEq, Eq)]
pub enum WriteError {
    /// The file could not be written; the count of failed writes has risen.
    Failed,
    /// Out of memory, before anything was written. No count has risen, and the log is unchanged.
    Memory,
}
