//! Bounds on masses, and an answer.

/// A term of an output: how far its singleton is above the low end of the range, in 1/10000, and the bounds on its
/// mass.
#[derive(Clone, Copy)]
pub struct MassRange {
    pub at: u64,
    pub low: u64,
    pub high: u64,
}

/// An answer: `value` parts of a range of this width in 1/10000, which has `parts` of them.
#[derive(Clone, Copy)]
pub struct Answer {
    pub value: u64,
    pub parts: u64,
    pub width: u64,
}

/// How far a term's mass may be above that over bytes, and how far below, in parts of 10^9.
#[derive(Clone, Copy)]
pub struct Deviation {
    pub rise: u64,
    pub fall: u64,
}
