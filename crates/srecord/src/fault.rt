//! Why a text gives no image.
use thiserror::Error;

/// Why a text of records gives no image. Lines count from 1; if several faults apply to one line, the result is
/// the first of them in the order [`AfterEnd`](SrecFault::AfterEnd), [`Wide`](SrecFault::Wide),
/// [`BadLine`](SrecFault::BadLine), [`BadSum`](SrecFault::BadSum), [`Overlap`](SrecFault::Overlap),
/// [`CountDiffers`](SrecFault::CountDiffers).
#[derive(Clone, Copy, PartialEq, Eq, Debug, Error)]
pub enum SrecFault {
    /// That line is no record, its count is wrong, or it has data where its kind has none or past the last
    /// address.
    #[error("line {0} is malformed")]
    BadLine(u32),
    /// That line has the first checksum, but the second is right.
    #[error("line {0} has the checksum {1}, not {2}")]
    BadSum(u32, u8, u8),
    /// That line begins as a record with addresses of more than 16 bits: S2, S3, S7 or S8.
    #[error("line {0} has a wide address")]
    Wide(u32),
    /// That line gives a byte to an address that has one.
    #[error("line {0} gives a byte again")]
    Overlap(u32),
    /// An S5 record states the first number of records of bytes, but the second precede it.
    #[error("{0} records are counted where there are {1}")]
    CountDiffers(u32, u32),
    /// No line is an S9 record.
    #[error("the text has no end")]
    NoEnd,
    /// That line follows an S9 record.
    #[error("line {0} follows the end")]
    AfterEnd(u32),
    /// Out of memory for the image.
    #[error("no memory")]
    Memory,
}
