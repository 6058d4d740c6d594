//! Boxes and their halves.
ghost use Rattle.std.specs.Prelude.{◌≡◌, ◌≤◌, ◌<◌, ◌+◌, ◌-◌, ◌∷◌, length, vec_len, vec_capacity, OnOk, IfErr};
ghost use Rattle.std.specs.Prelude.{IfSome, IfNone, Some, slice_get};
ghost use Rattle.error_bound.specs.Boxes.{IsBox};
ghost use Rattle.cert_check.specs.Trees.{whole, left_of, right_of, IsCut};
ghost use Rattle.cert_check.specs.Walks.{stack_of, AreCutOut};

use crate::checker::CheckFault;
use crate::laws::cuts_have_halves;
use arrayvec::ArrayVec;
use error_bound::{ByteBox, Interval};
use fuzzy_meaning::Block;

/// All bytes of all inputs.
pub fn whole_box(block: &Block) -> ByteBox
    requires { length block.now.inputs ≤ 8 }
    ensures { result.0.items ≡ whole block.now }
{
    let mut intervals = ArrayVec::new();
    for _input in block.inputs.as_slice() {
        intervals.push(Interval { from: 0, to: 255 });
    }
    ByteBox(intervals)
}

/// Pushes a box onto a stack that has room for it.
pub(crate) fn push(boxes: &mut Vec<ByteBox>, bytes: ByteBox)
    requires { vec_len boxes.old < vec_capacity boxes.old }
    ensures boxes { stack_of boxes.new.items ≡ bytes.0.items ∷ stack_of boxes.old.items }
    ensures len { vec_len boxes.new ≡ vec_len boxes.old + 1 }
    ensures room { vec_capacity boxes.old ≤ vec_capacity boxes.new }
{
    boxes.push(bytes).unwrap();
}

/// Pushes the halves of a box onto the stack, the left one last.
pub(crate) fn push_halves(
    boxes: &mut Vec<ByteBox>,
    bytes: ByteBox,
    input: u8,
    cut: u8,
    line: u32,
) -> Result<(), CheckFault>
    requires input { 1 ≤ input }
    requires bytes { IsBox bytes.0.items }
    requires cut_out { AreCutOut (bytes.0.items ∷ stack_of boxes.old.items) }
    requires room { 2041 ≤ vec_capacity boxes.old }
    ensures cut { OnOk result (IsCut (input - 1) cut bytes.0.items) }
    ensures boxes { OnOk result (stack_of boxes.new.items ≡ left_of (input - 1) cut bytes.0.items
        ∷ right_of (input - 1) cut bytes.0.items ∷ stack_of boxes.old.items) }
    ensures room { 2041 ≤ vec_capacity boxes.new }
    ensures fault { IfErr result (λ fault. (fault ≡ CheckFault.BadCut line)
        × (IsCut (input - 1) cut bytes.0.items → ⊥)) }
{
    let place = input as usize - 1;
    match interval_cut(&bytes, place, cut) {
        None => Err(CheckFault::BadCut(line)),
        Some(interval) => {
            let (left, right) = halves(bytes, place, interval, cut);
            push(boxes, right);
            push(boxes, left);
            Ok(())
        }
    }
}

/// The interval at an index, if the cut is inside it.
fn interval_cut(bytes: &ByteBox, place: usize, cut: u8) -> Option<Interval>
    ensures inside { IfSome result (λ v.
        IsCut place cut bytes.now.0.items × (slice_get bytes.now.0.items place ≡ Some v)) }
    ensures none { IfNone result (IsCut place cut bytes.now.0.items → ⊥) }
{
    let interval = *bytes.0.as_slice().get(place)?;
    if interval.from < cut && cut <= interval.to {
        Some(interval)
    } else {
        None
    }
}

/// The lower and the upper half of a box that is cut inside the interval at an index.
pub fn halves(bytes: ByteBox, place: usize, interval: Interval, cut: u8) -> (ByteBox, ByteBox)
    requires interval { slice_get bytes.0.items place ≡ Some interval }
    requires above { interval.from < cut }
    requires below { cut ≤ interval.to }
    ensures left { result.0.0.items ≡ left_of place cut bytes.0.items }
    ensures right { result.1.0.items ≡ right_of place cut bytes.0.items }
{
    cuts_have_halves();
    let Interval { from, to } = interval;
    let mut left = bytes.copied();
    left.0[place] = Interval { from, to: cut - 1 };
    let mut right = bytes;
    right.0[place] = Interval { from: cut, to };
    (left, right)
}
