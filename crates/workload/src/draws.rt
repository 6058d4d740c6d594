//! Numbers that are drawn one after the other.
ghost use Rattle.std.specs.Prelude.{◌≡◌, ◌<◌, ◌≤◌, ℕ, ◌+◌};
ghost use Rattle.workload.specs.Draws.{draw, drawn_below, next_state, state_after};

/// The state of a linear congruential generator of 64 bits.
#[derive(Drop)]
pub(crate) struct Draws {
    state: u64,
}

impl Draws {
    /// The state before the first draw of a number.
    pub(crate) fn of(number: u32) -> Draws
        ensures { result.state ≡ number }
    {
        Draws {
            state: u64::from(number),
        }
    }

    /// The next draw: a number below the bound, from the state's upper 31 bits.
    pub(crate) fn below(&mut self, bound: u32) -> u32
        requires { 1 ≤ bound }
        ensures state { self.new.state ≡ next_state self.old.state }
        ensures value { result ≡ drawn_below bound self.new.state }
        ensures small { result < bound }
    {
        self.state = self
            .state
            .wrapping_mul(6_364_136_223_846_793_005)
            .wrapping_add(1_442_695_040_888_963_407);
        ((self.state >> 33) % u64::from(bound)) as u32
    }

    /// The shift of the rules, 0 to 4.
    pub(crate) fn shift(&mut self) -> u8
        ensures state { (number n : ℕ) → self.old.state ≡ state_after number n
            → self.new.state ≡ state_after number (n + 1) }
        ensures value { (number n : ℕ) → self.old.state ≡ state_after number n → result ≡ draw number n 5 }
        ensures small { result < 5 }
    {
        self.below(5) as u8
    }

    /// The two numbers of a sample, in 1/10000, each at most 256.
    pub(crate) fn sample(&mut self) -> (u32, u32)
        ensures state { (number n : ℕ) → self.old.state ≡ state_after number n
            → self.new.state ≡ state_after number (n + 2) }
        ensures value { (number n : ℕ) → self.old.state ≡ state_after number n
            → result ≡ (draw number n 2560001, draw number (n + 1) 2560001) }
        ensures small { (result.0 ≤ 2560000) × (result.1 ≤ 2560000) }
    {
        let x = self.below(2_560_001);
        let y = self.below(2_560_001);
        (x, y)
    }

    /// The moment of a request, the offset of the byte that it writes from the first free one, and the value.
    pub(crate) fn request(&mut self) -> (u32, u32, u32)
        ensures state { (number n : ℕ) → self.old.state ≡ state_after number n
            → self.new.state ≡ state_after number (n + 3) }
        ensures value { (number n : ℕ) → self.old.state ≡ state_after number n
            → result ≡ (draw number n 456, draw number (n + 1) 2016, draw number (n + 2) 256) }
        ensures small { (result.0 < 456) × (result.1 < 2016) × (result.2 < 256) }
    {
        let moment = self.below(456);
        let at = self.below(2016);
        let value = self.below(256);
        (moment, at, value)
    }
}
