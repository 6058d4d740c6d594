//! Boxes of bytes, and what a leaf states about one.
ghost use Rattle.std.specs.Prelude.{◌≡◌, ◌<◌, length, set};

use arrayvec::ArrayVec;
use fz_num::Nano;

/// The bytes of an input from `from` to `to`.
#[derive(Clone, Copy, Default)]
pub struct Interval {
    pub from: u8,
    pub to: u8,
}

/// An interval of bytes for each input.
#[derive(Drop)]
pub struct ByteBox(pub ArrayVec<Interval, 8>);

impl ByteBox {
    /// A copy of the box. It allocates no memory.
    pub fn copied(&self) -> ByteBox
        ensures { result.0.items ≡ self.now.0.items }
    {
        let mut intervals = ArrayVec::new();
        for interval in self.0.as_slice() {
            intervals.push(*interval);
        }
        ByteBox(intervals)
    }

    /// Sets the interval at an index.
    pub(crate) fn set_interval(&mut self, place: usize, new: Interval)
        requires { place < length self.old.0.items }
        ensures { self.new.0.items ≡ set self.old.0.items place new }
    {
        self.0[place] = new;
    }
}

/// What a leaf states about an output: that the rule `rule` has a strength of at least `k`/255, or, if
/// both are 0, that no rule fires. Rules count from 1.
#[derive(Clone, Copy, PartialEq, Eq, Debug)]
pub struct Leaf {
    pub rule: u16,
    pub k: u8,
}

/// Why a leaf does not hold on a box.
#[derive(Clone, Copy, PartialEq, Eq, Debug)]
pub enum LeafFault {
    /// The least strength of that rule is below `k`/255: it is this number, rounded down.
    Weak(u16, u8, Nano),
    /// The least strength of that rule over bytes is 0.
    Still(u16),
    /// The greatest strength of that rule is this number, rounded up.
    Silent(u16, Nano),
    /// The greatest strength of that rule over bytes is this byte.
    Loud(u16, u8),
}
