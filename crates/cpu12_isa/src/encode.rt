//! Instructions as bytes.
ghost use Rattle.std.specs.Prelude.{◌≡◌, ◌≤◌, ◌+◌, [], ◌∷◌, ◌++◌};
ghost use Rattle.arrayvec.specs.ArrayVec.{array_vec_len};
ghost use Rattle.cpu12_isa.specs.{Memory.high_of, Memory.low_of, Encodings.prebytes, Encodings.operand_bytes};
ghost use Rattle.cpu12_isa.specs.Code.{encode_of, encoding_bytes};

use crate::encodings::{Encoding, Operand, Page};
use crate::instr::Instr;
use crate::mem::{high_of, low_of};
use arrayvec::ArrayVec;

/// The byte before an opcode of this page.
fn push_prebyte(bytes: &mut ArrayVec<u8, 6>, page: Page)
    requires { bytes.old.items ≡ [] }
    ensures { bytes.new.items ≡ prebytes page }
{
    match page {
        Page::One => {}
        Page::Two => bytes.push(0x18),
        Page::Transfer => bytes.push(0xB7),
        Page::AddIndexed => bytes.push(0xEB),
    }
}

fn push_word(bytes: &mut ArrayVec<u8, 6>, word: u16)
    requires { array_vec_len bytes.old ≤ 4 }
    ensures { bytes.new.items ≡ bytes.old.items ++ (high_of word ∷ low_of word ∷ []) }
{
    bytes.push(high_of(word));
    bytes.push(low_of(word));
}

/// Appends the bytes of an operand to the others.
fn push_operand(bytes: &mut ArrayVec<u8, 6>, operand: Operand)
    requires { array_vec_len bytes.old ≤ 2 }
    ensures { bytes.new.items ≡ bytes.old.items ++ operand_bytes operand }
{
    match operand {
        Operand::Byte(v) | Operand::Offset(v) => bytes.push(v),
        Operand::Word(v) | Operand::Address(v) => push_word(bytes, v),
        Operand::ByteToAddress(v, at) => {
            bytes.push(v);
            push_word(bytes, at);
        }
        Operand::AddressToAddress(source, at) => {
            push_word(bytes, source);
            push_word(bytes, at);
        }
        Operand::Inherent | Operand::XToD | Operand::YToD | Operand::PostIncrementX => {}
    }
}

impl Encoding {
    /// The bytes of this encoding, 1 to 6 of them.
    pub fn bytes(&self) -> ArrayVec<u8, 6>
        ensures bytes { result.items ≡ encoding_bytes self.now }
        ensures some { 1 ≤ array_vec_len result }
        ensures most { array_vec_len result ≤ 6 }
    {
        let mut bytes = ArrayVec::new();
        push_prebyte(&mut bytes, self.page);
        bytes.push(self.opcode);
        push_operand(&mut bytes, self.operand);
        bytes
    }
}

/// The bytes of an instruction, 1 to 6 of them.
pub fn encode(i: &Instr) -> ArrayVec<u8, 6>
    ensures bytes { result.items ≡ encode_of i.now }
    ensures some { 1 ≤ array_vec_len result }
    ensures most { array_vec_len result ≤ 6 }
{
    i.encoding().bytes()
}
