//! Bytes on the stack.
ghost use Rattle.std.specs.Prelude.{ℕ, ◌≡◌, slice_index};
ghost use Rattle.cpu12_isa.specs.{Act.write_all, Registers.frame_bytes, Registers.pulled};
ghost use Rattle.cpu12_isa.specs.Memory.{plus, word_of, placed, from, bytes_at};

use crate::instr::Regs;
use crate::mem::{Mem, high_of, low_of, word_of};

/// Writes bytes one after the other, starting at an address.
pub fn place<M: Mem>(m: &mut M, at: u16, bytes: &[u8])
    ensures mem { M.bytes m.new ≡ write_all (placed at bytes.now) (M.bytes m.old) }
    ensures tags { M.tags m.new ≡ M.tags m.old }
{
    let mut to = at;
    for v in bytes {
        m.write(to, *v);
        to = to.wrapping_add(1);
    }
}

/// Pulls a byte.
pub fn pull_byte<M: Mem>(r: &mut Regs, m: &M) -> u8
    ensures value { result ≡ slice_index (M.bytes m.now) r.old.sp }
    ensures regs { r.new ≡ record r.old { sp = plus r.old.sp 1 } }
{
    let v = m.read(r.sp);
    r.sp = r.sp.wrapping_add(1);
    v
}

/// Pulls a word, its high byte first.
pub fn pull_word<M: Mem>(r: &mut Regs, m: &M) -> u16
    ensures value { result ≡ word_of (slice_index (M.bytes m.now) r.old.sp)
        (slice_index (M.bytes m.now) (plus r.old.sp 1)) }
    ensures regs { r.new ≡ record r.old { sp = plus r.old.sp 2 } }
{
    let high = pull_byte(r, m);
    let low = pull_byte(r, m);
    word_of(high, low)
}

/// Pushes the nine bytes of an interrupt's frame: PC, Y, X, the word of B and A with B at the lower
/// address, and the condition codes.
pub fn push_frame<M: Mem>(r: &mut Regs, m: &mut M)
    ensures regs { r.new ≡ record r.old { sp = plus r.old.sp 65527 } }
    ensures mem { M.bytes m.new ≡ write_all (placed (plus r.old.sp 65527) (frame_bytes r.old)) (M.bytes m.old) }
    ensures tags { M.tags m.new ≡ M.tags m.old }
{
    r.sp = r.sp.wrapping_sub(9);
    let bytes = [
        r.ccr.0,
        r.b,
        r.a,
        high_of(r.x),
        low_of(r.x),
        high_of(r.y),
        low_of(r.y),
        high_of(r.pc),
        low_of(r.pc),
    ];
    place(m, r.sp, &bytes);
}

/// Pulls the nine bytes of an interrupt's frame. This never sets the X bit.
pub fn pull_frame<M: Mem>(r: &mut Regs, m: &M)
    ensures { r.new ≡ pulled r.old (bytes_at (M.bytes m.now) (from r.old.sp 9)) }
{
    let ccr = pull_byte(r, m);
    r.ccr = r.ccr.pulled(ccr);
    r.b = pull_byte(r, m);
    r.a = pull_byte(r, m);
    r.x = pull_word(r, m);
    r.y = pull_word(r, m);
    r.pc = pull_word(r, m);
}
