//! The greatest errors allowed for the outputs.
ghost use Rattle.std.specs.Prelude.{◌≡◌, ◌≤◌, replicate, length};
ghost use Rattle.error_certifier.specs.Targets.{numbers_of};

use arrayvec::ArrayVec;

/// The greatest errors allowed for a block's outputs, in millionths of each output's range.
#[derive(Drop)]
pub enum Targets {
    /// One number for all outputs.
    All(u32),
    /// One for each output, in order.
    Each(ArrayVec<u32, 4>),
}

impl Targets {
    /// The target of each output, in order, for a block with this number of outputs.
    pub(crate) fn numbers(&self, outputs: usize) -> ArrayVec<u32, 4>
        requires { outputs ≤ 4 }
        ensures { result.items ≡ numbers_of outputs self.now }
    {
        match self {
            Targets::All(number) => repeated(*number, outputs),
            Targets::Each(numbers) => copy_of(numbers),
        }
    }
}

/// A number, repeated.
fn repeated(number: u32, times: usize) -> ArrayVec<u32, 4>
    requires { times ≤ 4 }
    ensures { result.items ≡ replicate times number }
{
    let mut numbers = ArrayVec::new();
    for _time in 0..times {
        numbers.push(number);
    }
    numbers
}

/// A copy of the numbers.
fn copy_of(numbers: &ArrayVec<u32, 4>) -> ArrayVec<u32, 4>
    ensures { result.items ≡ numbers.now.items }
{
    let mut copy = ArrayVec::new();
    for number in numbers.as_slice() {
        copy.push(*number);
    }
    copy
}
