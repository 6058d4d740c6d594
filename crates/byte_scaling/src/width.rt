//! How wide answers are.
ghost use Rattle.std.specs.Prelude.{◌≡◌, ◌≤◌};
ghost use Rattle.byte_scaling.specs.Widths.{parts, places};

/// How many bits an answer has.
#[derive(Clone, Copy, PartialEq, Eq)]
pub enum Width {
    /// 8 bits: the quotient of the sums, rounded down.
    Byte,
    /// 16 bits, from 0 to 65280: 256 times the quotient of the sums, rounded down. The high byte comes first.
    Word,
}

impl Width {
    /// How many bytes an answer takes.
    pub fn places(self) -> u16
        ensures value { result ≡ places self }
        ensures few { result ≤ 2 }
    {
        match self {
            Width::Byte => 1,
            Width::Word => 2,
        }
    }

    /// The number of steps into which an answer divides a byte.
    pub fn parts(self) -> u16
        ensures value { result ≡ parts self }
        ensures some { 1 ≤ result }
        ensures few { result ≤ 256 }
    {
        match self {
            Width::Byte => 1,
            Width::Word => 256,
        }
    }
}
