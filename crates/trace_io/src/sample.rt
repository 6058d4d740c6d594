//! Samples, and why a text has none.

use arrayvec::ArrayVec;
use fz_list::List;
use fz_num::Dec;
use thiserror::Error;

/// One value per input, and the byte of each in its input's range.
#[derive(Drop)]
pub struct Sample {
    /// In the order of the inputs.
    pub values: List<Dec>,
    /// In the order of the inputs.
    pub bytes: ArrayVec<u8, 8>,
}

/// Why a text is no trace. Rows count from 1, and so do inputs.
#[derive(Clone, Copy, PartialEq, Eq, Debug, Error)]
pub enum TraceFault {
    /// There is a row 10001.
    #[error("too many rows")]
    TooMany,
    /// That row does not have exactly one decimal per input.
    #[error("row {0}: bad row")]
    BadRow(u32),
    /// In that row, the value of that input is the first that is out of range.
    #[error("row {0}: input {1} out of range")]
    OutOfRange(u32, u8),
    /// Out of memory.
    #[error("no memory")]
    Memory,
}
