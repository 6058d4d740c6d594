//! Execution of one instruction.
ghost use Rattle.std.specs.Prelude.{ℕ, ◌≡◌, ◌+◌, ◌-◌, ◌*◌, ◌/◌, ◌%◌, ◌^◌, ◌<◌, ◌≤◌, IsTrue};
ghost use Rattle.cpu12_isa.specs.{Act.write_all, Meaning.effect, Meaning.is_plain};

use crate::ccr::{CARRY, HNZVC, OVERFLOW, ZERO};
use crate::instr::{Ccr, Instr, Regs};
use crate::mem::{Mem, high_of, low_of};
use crate::regs::grade;
use crate::stack::{pull_frame, pull_word};

impl Instr {
    /// Whether the instruction is executed at once: all but REV, REVW, WAV and wavr, which are executed in parts.
    pub fn is_plain(&self) -> bool
        ensures { result ≡ is_plain self.now }
    {
        !matches!(*self, Instr::Rev | Instr::Revw | Instr::Wav | Instr::Wavr)
    }
}

/// Executes the plain instruction or the MEM at PC. Flags that the manual leaves undefined take their bits from
/// `flags`.
#[inline(always)]
pub fn exec<M: Mem>(i: &Instr, r: &mut Regs, m: &mut M, flags: u8)
    requires { IsTrue (is_plain i.now) }
    ensures regs { r.new ≡ (effect flags i.now r.old (M.bytes m.old)).regs }
    ensures mem { M.bytes m.new ≡ write_all (effect flags i.now r.old (M.bytes m.old)).writes (M.bytes m.old) }
    ensures tags { M.tags m.new ≡ M.tags m.old }
{
    match *i {
        Instr::LdaaImmediate(v) => r.load_a(v, 2),
        Instr::LdaaExtended(at) => r.load_a(m.read(at), 3),
        Instr::LdabImmediate(v) => r.load_b(v, 2),
        Instr::LdabExtended(at) => r.load_b(m.read(at), 3),
        Instr::LdxImmediate(v) => r.load_x(v),
        Instr::LdyImmediate(v) => r.load_y(v),
        Instr::LdsImmediate(v) => r.load_sp(v),
        Instr::StaaExtended(at) => {
            m.write(at, r.a);
            r.store(r.a);
        }
        Instr::StabExtended(at) => {
            m.write(at, r.b);
            r.store(r.b);
        }
        Instr::ClrExtended(at) => {
            m.write(at, 0);
            r.store(0);
            r.ccr = r.ccr.put(CARRY, false);
        }
        Instr::Coma => r.complement_a(),
        Instr::CpxImmediate(v) => r.compare_x(v),
        Instr::Beq(to) => r.branch(to, r.ccr.has(ZERO)),
        Instr::Bne(to) => r.branch(to, !r.ccr.has(ZERO)),
        Instr::Bcc(to) => r.branch(to, !r.ccr.has(CARRY)),
        Instr::Bcs(to) => r.branch(to, r.ccr.has(CARRY)),
        Instr::Bra(to) => r.branch(to, true),
        Instr::JsrExtended(to) => {
            let back = r.pc.wrapping_add(3);
            r.sp = r.sp.wrapping_sub(2);
            m.write(r.sp, high_of(back));
            m.write(r.sp.wrapping_add(1), low_of(back));
            r.pc = to;
        }
        Instr::Rts => r.pc = pull_word(r, m),
        Instr::Andcc(v) => {
            r.ccr = Ccr(r.ccr.0 & v);
            r.pass(2);
        }
        Instr::Orcc(v) => {
            r.ccr = Ccr(r.ccr.0 | (v & 191));
            r.pass(2);
        }
        Instr::TransferXD => r.transfer_d(r.x),
        Instr::TransferYD => r.transfer_d(r.y),
        Instr::Ediv => r.divide(flags),
        Instr::Fdiv => r.divide_fraction(),
        Instr::Rti => pull_frame(r, m),
        Instr::Nop => r.pass(1),
        Instr::IncExtended(at) => {
            let v = m.read(at).wrapping_add(1);
            m.write(at, v);
            r.store(v);
            r.ccr = r.ccr.put(OVERFLOW, v == 128);
        }
        Instr::DecExtended(at) => {
            let v = m.read(at).wrapping_add(255);
            m.write(at, v);
            r.store(v);
            r.ccr = r.ccr.put(OVERFLOW, v == 127);
        }
        Instr::AddaImmediate(v) => r.add_a(v, 2),
        Instr::AddaExtended(at) => r.add_a(m.read(at), 3),
        Instr::AddbImmediate(v) => r.add_b(v, 2),
        Instr::AddbExtended(at) => r.add_b(m.read(at), 3),
        Instr::AddbPostIncrementX => {
            r.add_b(m.read(r.x), 2);
            r.x = r.x.wrapping_add(1);
        }
        Instr::AdcaImmediate(v) => r.add_carry_a(v),
        Instr::SubaImmediate(v) => r.subtract_a(v, 2),
        Instr::SubaExtended(at) => r.subtract_a(m.read(at), 3),
        Instr::CmpaImmediate(v) => r.compare_a(v, 2),
        Instr::CmpaExtended(at) => r.compare_a(m.read(at), 3),
        Instr::AndaImmediate(v) => r.and_a(v, 2),
        Instr::AndaExtended(at) => r.and_a(m.read(at), 3),
        Instr::OraaImmediate(v) => r.or_a(v, 2),
        Instr::OraaExtended(at) => r.or_a(m.read(at), 3),
        Instr::Inx => r.move_x(1),
        Instr::Dex => r.move_x(65535),
        Instr::Iny => r.move_y(1),
        Instr::Dey => r.move_y(65535),
        Instr::Psha => {
            r.sp = r.sp.wrapping_sub(1);
            m.write(r.sp, r.a);
            r.pass(1);
        }
        Instr::Pula => {
            r.a = m.read(r.sp);
            r.sp = r.sp.wrapping_add(1);
            r.pass(1);
        }
        Instr::MovbImmediate(v, at) => {
            m.write(at, v);
            r.pass(5);
        }
        Instr::MovbExtended(source, at) => {
            let v = m.read(source);
            m.write(at, v);
            r.pass(6);
        }
        Instr::Mem => grade_membership(r, m, flags),
        Instr::Rev | Instr::Revw | Instr::Wav | Instr::Wavr => unreachable!(),
    }
}

/// MEM: stores at Y the grade of A under the table of four bytes at X.
fn grade_membership<M: Mem>(r: &mut Regs, m: &mut M, flags: u8)
    ensures regs { r.new ≡ (effect flags Instr.Mem r.old (M.bytes m.old)).regs }
    ensures mem { M.bytes m.new ≡ write_all (effect flags Instr.Mem r.old (M.bytes m.old)).writes (M.bytes m.old) }
    ensures tags { M.tags m.new ≡ M.tags m.old }
{
    let first = m.read(r.x);
    let second = m.read(r.x.wrapping_add(1));
    let rise = m.read(r.x.wrapping_add(2));
    let fall = m.read(r.x.wrapping_add(3));
    m.write(r.y, grade(first, second, rise, fall, r.a));
    r.x = r.x.wrapping_add(4);
    r.y = r.y.wrapping_add(1);
    r.ccr = r.ccr.opened(HNZVC, flags);
    r.pass(1);
}
