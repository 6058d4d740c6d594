//! What groups of instructions do to the registers. `n` is the length of the instruction in bytes.
ghost use Rattle.std.specs.Prelude.{ℕ, ◌≡◌, ◌+◌, ◌*◌, ◌/◌, ◌%◌, ◌^◌, ◌<◌, ◌≤◌, ◌==◌, if◌then◌else◌};
ghost use Rattle.cpu12_isa.specs.Memory.{plus};
ghost use Rattle.cpu12_isa.specs.Registers.{passed, stored, loaded_a, loaded_b, loaded_x, loaded_y, loaded_sp};
ghost use Rattle.cpu12_isa.specs.Registers.{complemented_a, compared_x, compared_a, added_a, added_b, carried_a};
ghost use Rattle.cpu12_isa.specs.Registers.{subtracted_a, anded_a, ored_a, moved_x, moved_y, transferred_d, branched};
ghost use Rattle.cpu12_isa.specs.Registers.{offset, divided, divided_fraction, grade};

use crate::ccr::{CARRY, NZ, NZV, OVERFLOW, ZERO};
use crate::instr::Regs;
use crate::mem::{high_of, low_of};

impl Regs {
    /// Advances PC to the next instruction.
    #[inline(always)]
    pub fn pass(&mut self, n: u16)
        ensures { self.new ≡ passed self.old n }
    {
        self.pc = self.pc.wrapping_add(n);
    }

    /// The flags for a byte that is stored.
    #[inline(always)]
    pub fn store(&mut self, v: u8)
        ensures { self.new ≡ stored self.old v }
    {
        self.ccr = self.ccr.tested(v);
        self.pass(3);
    }

    #[inline(always)]
    pub fn load_a(&mut self, v: u8, n: u16)
        ensures { self.new ≡ loaded_a self.old v n }
    {
        self.a = v;
        self.ccr = self.ccr.tested(v);
        self.pass(n);
    }

    #[inline(always)]
    pub fn load_b(&mut self, v: u8, n: u16)
        ensures { self.new ≡ loaded_b self.old v n }
    {
        self.b = v;
        self.ccr = self.ccr.tested(v);
        self.pass(n);
    }

    #[inline(always)]
    pub fn load_x(&mut self, v: u16)
        ensures { self.new ≡ loaded_x self.old v }
    {
        self.x = v;
        self.ccr = self.ccr.tested_word(v);
        self.pass(3);
    }

    #[inline(always)]
    pub fn load_y(&mut self, v: u16)
        ensures { self.new ≡ loaded_y self.old v }
    {
        self.y = v;
        self.ccr = self.ccr.tested_word(v);
        self.pass(3);
    }

    #[inline(always)]
    pub fn load_sp(&mut self, v: u16)
        ensures { self.new ≡ loaded_sp self.old v }
    {
        self.sp = v;
        self.ccr = self.ccr.tested_word(v);
        self.pass(3);
    }

    #[inline(always)]
    pub fn complement_a(&mut self)
        ensures { self.new ≡ complemented_a self.old }
    {
        self.a = 255 - self.a;
        self.ccr = self.ccr.tested(self.a).put(CARRY, true);
        self.pass(1);
    }

    #[inline(always)]
    pub fn compare_x(&mut self, v: u16)
        ensures { self.new ≡ compared_x self.old v }
    {
        self.ccr = self.ccr.subtracted_word(self.x, v);
        self.pass(3);
    }

    #[inline(always)]
    pub fn compare_a(&mut self, v: u8, n: u16)
        ensures { self.new ≡ compared_a self.old v n }
    {
        self.ccr = self.ccr.subtracted(self.a, v);
        self.pass(n);
    }

    #[inline(always)]
    pub fn add_a(&mut self, v: u8, n: u16)
        ensures { self.new ≡ added_a self.old v n }
    {
        self.ccr = self.ccr.added(self.a, v);
        self.a = self.a.wrapping_add(v);
        self.pass(n);
    }

    #[inline(always)]
    pub fn add_b(&mut self, v: u8, n: u16)
        ensures { self.new ≡ added_b self.old v n }
    {
        self.ccr = self.ccr.added(self.b, v);
        self.b = self.b.wrapping_add(v);
        self.pass(n);
    }

    /// Adds a byte and C.
    #[inline(always)]
    pub fn add_carry_a(&mut self, v: u8)
        ensures { self.new ≡ carried_a self.old v }
    {
        let before = self.ccr;
        self.ccr = before.added_with_carry(self.a, v);
        self.a = before.sum_with_carry(self.a, v);
        self.pass(2);
    }

    #[inline(always)]
    pub fn subtract_a(&mut self, v: u8, n: u16)
        ensures { self.new ≡ subtracted_a self.old v n }
    {
        self.compare_a(v, n);
        self.a = self.a.wrapping_sub(v);
    }

    #[inline(always)]
    pub fn and_a(&mut self, v: u8, n: u16)
        ensures { self.new ≡ anded_a self.old v n }
    {
        self.load_a(self.a & v, n);
    }

    #[inline(always)]
    pub fn or_a(&mut self, v: u8, n: u16)
        ensures { self.new ≡ ored_a self.old v n }
    {
        self.load_a(self.a | v, n);
    }

    /// Adds `k` to X; 65535 subtracts 1.
    #[inline(always)]
    pub fn move_x(&mut self, k: u16)
        ensures { self.new ≡ moved_x self.old k }
    {
        self.x = self.x.wrapping_add(k);
        self.ccr = self.ccr.put(ZERO, self.x == 0);
        self.pass(1);
    }

    /// Adds `k` to Y; 65535 subtracts 1.
    #[inline(always)]
    pub fn move_y(&mut self, k: u16)
        ensures { self.new ≡ moved_y self.old k }
    {
        self.y = self.y.wrapping_add(k);
        self.ccr = self.ccr.put(ZERO, self.y == 0);
        self.pass(1);
    }

    #[inline(always)]
    pub fn transfer_d(&mut self, v: u16)
        ensures { self.new ≡ transferred_d self.old v }
    {
        self.a = high_of(v);
        self.b = low_of(v);
        self.pass(2);
    }

    /// Branches to an offset from the next instruction, or continues there.
    #[inline(always)]
    pub fn branch(&mut self, to: u8, go: bool)
        ensures { self.new ≡ branched self.old to go }
    {
        self.pass(2);
        if go {
            self.pass(offset(to));
        }
    }

    /// EDIV. If X is 0 or the quotient is above 65535, the registers are unchanged, and the flags report it.
    pub fn divide(&mut self, flags: u8)
        ensures { self.new ≡ divided flags self.old }
    {
        let n = (self.y as u32) * 65536 + ((self.a as u32) * 256 + self.b as u32);
        self.pc = self.pc.wrapping_add(1);
        if self.x == 0 {
            self.ccr = self.ccr.opened(NZV, flags).put(CARRY, true);
            return;
        }
        let quotient = n / self.x as u32;
        if quotient >= 65536 {
            self.ccr = self
                .ccr
                .opened(NZ, flags)
                .put(OVERFLOW, true)
                .put(CARRY, false);
            return;
        }
        let rest = n % self.x as u32;
        self.y = quotient as u16;
        self.a = (rest / 256) as u8;
        self.b = (rest % 256) as u8;
        self.ccr = self.ccr.tested_word(quotient as u16).put(CARRY, false);
    }

    /// FDIV. If D is not below X, X becomes `$FFFF` and D is unchanged.
    pub fn divide_fraction(&mut self)
        ensures { self.new ≡ divided_fraction self.old }
    {
        let d = (self.a as u32) * 256 + self.b as u32;
        let x = self.x as u32;
        self.pc = self.pc.wrapping_add(2);
        if d >= x {
            self.ccr = self
                .ccr
                .put(ZERO, false)
                .put(OVERFLOW, true)
                .put(CARRY, x == 0);
            self.x = 65535;
            return;
        }
        let quotient = d * 65536 / x;
        let rest = d * 65536 % x;
        self.x = quotient as u16;
        self.a = (rest / 256) as u8;
        self.b = (rest % 256) as u8;
        self.ccr = self
            .ccr
            .put(ZERO, quotient == 0)
            .put(OVERFLOW, false)
            .put(CARRY, false);
    }
}

/// What a branch's offset adds to PC.
fn offset(to: u8) -> u16
    ensures { result ≡ offset to }
{
    if to < 128 {
        to as u16
    } else {
        to as u16 + 65280
    }
}

/// One side of a grade: at distance `far` from a point where the degree is 0, with a slope; a slope of 0 is a
/// vertical edge.
fn side(far: u8, slope: u8) -> u16
    ensures { result ≡ (if slope == 0 then 255 else far * slope) }
{
    if slope == 0 {
        255
    } else {
        far as u16 * slope as u16
    }
}

/// The grade of `a` between two points with their slopes, as MEM computes it.
pub fn grade(first: u8, second: u8, rise: u8, fall: u8, a: u8) -> u8
    ensures { result ≡ grade first second rise fall a }
{
    if a < first || second < a {
        return 0;
    }
    let least = side(a - first, rise).min(255).min(side(second - a, fall));
    least as u8
}
