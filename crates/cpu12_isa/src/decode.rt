//! Decoding instructions from memory.
ghost use Rattle.std.specs.Prelude.{ℕ, ◌≡◌, ◌+◌, ◌*◌, ◌/◌, ◌%◌, ◌^◌, ◌<◌, ◌⊎◌, IfOk, IfErr, MatchResult, length};
ghost use Rattle.std.specs.Prelude.{slice_index};
ghost use Rattle.cpu12_isa.specs.Memory.{plus, word_of, high_of, low_of};
ghost use Rattle.cpu12_isa.specs.Code.{IsDecoded, decode_at, encode_of, StandsAt, FitsOperands};

use crate::encode::encode;
use crate::instr::{Instr, Trap};
use crate::mem::{Mem, word_of};

/// The byte `k` places after `pc`.
#[inline(always)]
fn byte<M: Mem>(m: &M, pc: u16, k: u16) -> u8
    ensures { result ≡ slice_index (M.bytes m.now) (plus pc k) }
{
    m.read(pc.wrapping_add(k))
}

/// The word `k` places after `pc`.
#[inline(always)]
fn word<M: Mem>(m: &M, pc: u16, k: u16) -> u16
    requires { k < 6 }
    ensures value { result ≡ word_of (slice_index (M.bytes m.now) (plus pc k))
        (slice_index (M.bytes m.now) (plus pc (k + 1))) }
    ensures high { high_of result ≡ slice_index (M.bytes m.now) (plus pc k) }
    ensures low { low_of result ≡ slice_index (M.bytes m.now) (plus pc (k + 1)) }
    ensures fits { result < 2 ^ 16 }
{
    word_of(byte(m, pc, k), byte(m, pc, k + 1))
}

/// The instruction at `pc`. The result is a `Trap` exactly where the byte at `pc`, or the one after `$18`, `$B7`
/// or `$EB`, is not in the table.
///
/// It is inlined into a step, so that the first byte is dispatched on once for decoding and execution.
#[inline(always)]
pub fn instruction_at<M: Mem>(m: &M, pc: u16) -> Result<Instr, Trap>
    ensures { IsDecoded (M.bytes m.now) pc result }
{
    let first = m.read(pc);
    match first {
        0x18 => decode_second(m, pc, 0x18),
        0xB7 => decode_second(m, pc, 0xB7),
        0xEB => decode_second(m, pc, 0xEB),
        0x86 => Ok(Instr::LdaaImmediate(byte(m, pc, 1))),
        0xB6 => Ok(Instr::LdaaExtended(word(m, pc, 1))),
        0xC6 => Ok(Instr::LdabImmediate(byte(m, pc, 1))),
        0xF6 => Ok(Instr::LdabExtended(word(m, pc, 1))),
        0xCE => Ok(Instr::LdxImmediate(word(m, pc, 1))),
        0xCD => Ok(Instr::LdyImmediate(word(m, pc, 1))),
        0xCF => Ok(Instr::LdsImmediate(word(m, pc, 1))),
        0x7A => Ok(Instr::StaaExtended(word(m, pc, 1))),
        0x7B => Ok(Instr::StabExtended(word(m, pc, 1))),
        0x79 => Ok(Instr::ClrExtended(word(m, pc, 1))),
        0x41 => Ok(Instr::Coma),
        0x8E => Ok(Instr::CpxImmediate(word(m, pc, 1))),
        0x27 => Ok(Instr::Beq(byte(m, pc, 1))),
        0x26 => Ok(Instr::Bne(byte(m, pc, 1))),
        0x24 => Ok(Instr::Bcc(byte(m, pc, 1))),
        0x25 => Ok(Instr::Bcs(byte(m, pc, 1))),
        0x20 => Ok(Instr::Bra(byte(m, pc, 1))),
        0x16 => Ok(Instr::JsrExtended(word(m, pc, 1))),
        0x3D => Ok(Instr::Rts),
        0x10 => Ok(Instr::Andcc(byte(m, pc, 1))),
        0x14 => Ok(Instr::Orcc(byte(m, pc, 1))),
        0x11 => Ok(Instr::Ediv),
        0x0B => Ok(Instr::Rti),
        0xA7 => Ok(Instr::Nop),
        0x72 => Ok(Instr::IncExtended(word(m, pc, 1))),
        0x73 => Ok(Instr::DecExtended(word(m, pc, 1))),
        0x8B => Ok(Instr::AddaImmediate(byte(m, pc, 1))),
        0xBB => Ok(Instr::AddaExtended(word(m, pc, 1))),
        0xCB => Ok(Instr::AddbImmediate(byte(m, pc, 1))),
        0xFB => Ok(Instr::AddbExtended(word(m, pc, 1))),
        0x89 => Ok(Instr::AdcaImmediate(byte(m, pc, 1))),
        0x80 => Ok(Instr::SubaImmediate(byte(m, pc, 1))),
        0xB0 => Ok(Instr::SubaExtended(word(m, pc, 1))),
        0x81 => Ok(Instr::CmpaImmediate(byte(m, pc, 1))),
        0xB1 => Ok(Instr::CmpaExtended(word(m, pc, 1))),
        0x84 => Ok(Instr::AndaImmediate(byte(m, pc, 1))),
        0xB4 => Ok(Instr::AndaExtended(word(m, pc, 1))),
        0x8A => Ok(Instr::OraaImmediate(byte(m, pc, 1))),
        0xBA => Ok(Instr::OraaExtended(word(m, pc, 1))),
        0x08 => Ok(Instr::Inx),
        0x09 => Ok(Instr::Dex),
        0x02 => Ok(Instr::Iny),
        0x03 => Ok(Instr::Dey),
        0x36 => Ok(Instr::Psha),
        0x32 => Ok(Instr::Pula),
        0x01 => Ok(Instr::Mem),
        0x3C => Ok(Instr::Wavr),
        _ => Err(Trap { pc, byte: first }),
    }
}

/// The instruction at `pc`, whose first byte is one of these three.
#[inline(always)]
fn decode_second<M: Mem>(m: &M, pc: u16, first: u8) -> Result<Instr, Trap>
    requires first { slice_index (M.bytes m.now) pc ≡ first }
    requires page { (first ≡ 0x18) ⊎ ((first ≡ 0xB7) ⊎ (first ≡ 0xEB)) }
    ensures { IsDecoded (M.bytes m.now) pc result }
{
    let second = byte(m, pc, 1);
    match (first, second) {
        (0x18, 0x11) => Ok(Instr::Fdiv),
        (0x18, 0x0B) => Ok(Instr::MovbImmediate(byte(m, pc, 2), word(m, pc, 3))),
        (0x18, 0x0C) => Ok(Instr::MovbExtended(word(m, pc, 2), word(m, pc, 4))),
        (0x18, 0x3A) => Ok(Instr::Rev),
        (0x18, 0x3B) => Ok(Instr::Revw),
        (0x18, 0x3C) => Ok(Instr::Wav),
        (0xB7, 0x54) => Ok(Instr::TransferXD),
        (0xB7, 0x64) => Ok(Instr::TransferYD),
        (0xEB, 0x30) => Ok(Instr::AddbPostIncrementX),
        _ => Err(Trap { pc, byte: second }),
    }
}

/// The instruction at `pc` and its length in bytes, 1 to 6. The result is a `Trap` exactly where the byte at `pc`,
/// or the one after `$18`, `$B7` or `$EB`, is not in the table.
pub fn decode<M: Mem>(m: &M, pc: u16) -> Result<(Instr, u8), Trap>
    ensures found { MatchResult result (λ x. decode_at (M.bytes m.now) pc ≡ Ok x.0)
        (λ t. decode_at (M.bytes m.now) pc ≡ Err t.byte) }
    ensures size { IfOk result (λ x. x.1 ≡ length (encode_of x.0)) }
    ensures stands { IfOk result (λ x. StandsAt (M.bytes m.now) pc x.0) }
    ensures fits { IfOk result (λ x. FitsOperands x.0) }
    ensures place { IfErr result (λ t. t.pc ≡ pc) }
{
    match instruction_at(m, pc) {
        Ok(instruction) => {
            let size = encode(&instruction).len() as u8;
            Ok((instruction, size))
        }
        Err(trap) => Err(trap),
    }
}
