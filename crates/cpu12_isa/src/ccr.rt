//! The condition codes.
ghost use Rattle.std.specs.Prelude.{ℕ, ◌≡◌, ◌+◌, ◌-◌, ◌*◌, ◌/◌, ◌%◌, ◌^◌, ◌<◌, ◌≤◌};
ghost use Rattle.cpu12_isa.specs.Flags.{has, put, opened, tested, tested_word, added, sum_with_carry};
ghost use Rattle.cpu12_isa.specs.Flags.{added_with_carry, subtracted, subtracted_word, pulled_flags};

use crate::instr::Ccr;

/// The bit of C.
pub const CARRY: u8 = 0;
/// The bit of V.
pub const OVERFLOW: u8 = 1;
/// The bit of Z.
pub const ZERO: u8 = 2;
/// The bit of N.
pub const NEGATIVE: u8 = 3;
/// The bit of I.
pub const INTERRUPTS_MASKED: u8 = 4;
/// The bit of H.
pub const HALF_CARRY: u8 = 5;
/// The bit of X, which masks XIRQ.
pub const X_MASKED: u8 = 6;

/// Masks of the flags that an instruction leaves undefined, named by the flags' letters.
pub const HNZVC: u8 = 0b10_1111;

pub const HNZC: u8 = 0b10_1101;

pub const HNZ: u8 = 0b10_1100;

pub const HNVC: u8 = 0b10_1011;

pub const NZV: u8 = 0b00_1110;

pub const NZ: u8 = 0b00_1100;

impl Ccr {
    /// Whether the flag of bit `k` is set.
    pub fn has(self, k: u8) -> bool
        requires { k < 8 }
        ensures { result ≡ has self k }
    {
        self.0 >> k & 1 == 1
    }

    /// With the flag of bit `k` set or cleared.
    pub fn put(self, k: u8, on: bool) -> Ccr
        requires { k < 8 }
        ensures { result ≡ put self k on }
    {
        if on {
            Ccr(self.0 | 1 << k)
        } else {
            Ccr(self.0 & !(1 << k))
        }
    }

    /// With the flags of a mask taken from the byte FLAGS: those that the manual leaves undefined.
    pub fn opened(self, mask: u8, flags: u8) -> Ccr
        ensures { result ≡ opened self mask flags }
    {
        Ccr((self.0 & (255 - mask)) | (flags & mask))
    }

    /// With N and Z as for a byte, and V 0.
    pub fn tested(self, v: u8) -> Ccr
        ensures { result ≡ tested self v }
    {
        self.put(NEGATIVE, v >= 128)
            .put(ZERO, v == 0)
            .put(OVERFLOW, false)
    }

    /// With N and Z as for a word, and V 0.
    pub fn tested_word(self, v: u16) -> Ccr
        ensures { result ≡ tested_word self v }
    {
        self.put(NEGATIVE, v >= 32768)
            .put(ZERO, v == 0)
            .put(OVERFLOW, false)
    }

    /// With H, N, Z, V and C of a sum of two bytes.
    pub fn added(self, u: u8, v: u8) -> Ccr
        ensures { result ≡ added self u v }
    {
        let s = u.wrapping_add(v);
        let overflow = (u >= 128 && v >= 128 && s < 128) || (u < 128 && v < 128 && s >= 128);
        self.put(HALF_CARRY, u % 16 + v % 16 >= 16)
            .put(NEGATIVE, s >= 128)
            .put(ZERO, s == 0)
            .put(OVERFLOW, overflow)
            .put(CARRY, u as u16 + v as u16 >= 256)
    }

    /// The sum of two bytes and C, before it is reduced to a byte.
    fn whole_sum(self, u: u8, v: u8) -> u16
        ensures { result ≡ sum_with_carry self u v }
    {
        if self.has(CARRY) {
            u as u16 + v as u16 + 1
        } else {
            u as u16 + v as u16
        }
    }

    /// The sum of two bytes and C.
    pub fn sum_with_carry(self, u: u8, v: u8) -> u8
        ensures { result ≡ sum_with_carry self u v % 2 ^ 8 }
    {
        (self.whole_sum(u, v) % 256) as u8
    }

    /// With H, N, Z, V and C of the sum of two bytes and C.
    pub fn added_with_carry(self, u: u8, v: u8) -> Ccr
        ensures { result ≡ added_with_carry self u v }
    {
        let s = self.sum_with_carry(u, v);
        let overflow = (u >= 128 && v >= 128 && s < 128) || (u < 128 && v < 128 && s >= 128);
        let half = self.whole_sum(u % 16, v % 16) >= 16;
        let carry = self.whole_sum(u, v) >= 256;
        self.put(HALF_CARRY, half)
            .put(NEGATIVE, s >= 128)
            .put(ZERO, s == 0)
            .put(OVERFLOW, overflow)
            .put(CARRY, carry)
    }

    /// With N, Z, V and C of a difference of two bytes.
    pub fn subtracted(self, u: u8, v: u8) -> Ccr
        ensures { result ≡ subtracted self u v }
    {
        let d = u.wrapping_sub(v);
        let overflow = (u >= 128 && v < 128 && d < 128) || (u < 128 && v >= 128 && d >= 128);
        self.put(NEGATIVE, d >= 128)
            .put(ZERO, d == 0)
            .put(OVERFLOW, overflow)
            .put(CARRY, u < v)
    }

    /// With N, Z, V and C of a difference of two words.
    pub fn subtracted_word(self, u: u16, v: u16) -> Ccr
        ensures { result ≡ subtracted_word self u v }
    {
        let d = u.wrapping_sub(v);
        let overflow = (u >= 32768 && v < 32768 && d < 32768)
            || (u < 32768 && v >= 32768 && d >= 32768);
        self.put(NEGATIVE, d >= 32768)
            .put(ZERO, d == 0)
            .put(OVERFLOW, overflow)
            .put(CARRY, u < v)
    }

    /// The flags of a byte pulled from the stack. The X bit is never set by a pull.
    pub fn pulled(self, byte: u8) -> Ccr
        ensures { result ≡ pulled_flags self byte }
    {
        Ccr(byte & (self.0 | !(1 << X_MASKED)))
    }
}
