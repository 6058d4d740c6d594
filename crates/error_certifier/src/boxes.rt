//! The widest intervals of boxes, and where they are cut.
ghost use Rattle.std.specs.Prelude.{◌≡◌, ◌≤◌, ◌<◌, ◌-◌, length};
ghost use Rattle.error_bound.specs.Boxes.{IsBox};
ghost use Rattle.error_certifier.specs.Halving.{IsWidest, middle_of};

use error_bound::{ByteBox, Interval};

/// The index of the first of the widest intervals, and that interval.
pub(crate) fn widest(bytes: &ByteBox) -> (usize, Interval)
    requires some { 1 ≤ length bytes.now.0.items }
    requires bytes { IsBox bytes.now.0.items }
    ensures { IsWidest bytes.now.0.items result.0 result.1 }
{
    let intervals = bytes.0.as_slice();
    let mut place = 0;
    for k in 1..intervals.len() {
        if width(intervals[k]) > width(intervals[place]) {
            place = k;
        }
    }
    (place, intervals[place])
}

/// The number of an interval's bytes after the first.
fn width(interval: Interval) -> u8
    requires { interval.from ≤ interval.to }
    ensures { result ≡ interval.to - interval.from }
{
    interval.to - interval.from
}

/// The byte in the middle of an interval: the half of its bytes that is below it is rounded down.
pub(crate) fn middle(interval: Interval) -> u8
    requires { interval.from < interval.to }
    ensures middle { result ≡ middle_of interval }
    ensures above { interval.from < result }
    ensures below { result ≤ interval.to }
{
    interval.from + ((u16::from(interval.to - interval.from) + 1) / 2) as u8
}
