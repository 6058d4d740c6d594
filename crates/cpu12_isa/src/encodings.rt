//! The table of encodings.
ghost use Rattle.std.specs.Prelude.{◌≡◌};
ghost use Rattle.cpu12_isa.specs.Encodings.{encoding_of};

use crate::instr::Instr;
use crate::mnemonic::Mnemonic;

/// The table that holds an opcode: page 1, page 2 after `$18`, or the postbytes of `TFR` after `$B7` and of `ADDB`
/// with an index after `$EB` (CPU12 Reference Manual, appendix A).
#[derive(Clone, Copy, PartialEq, Eq, Drop)]
pub enum Page {
    One,
    Two,
    Transfer,
    AddIndexed,
}

/// An operand, by its addressing mode (CPU12 Reference Manual, section 3).
#[derive(Clone, Copy, Drop)]
pub enum Operand {
    /// No operand is written.
    Inherent,
    /// `#ii`.
    Byte(u8),
    /// `#hhll`.
    Word(u16),
    /// `hhll`.
    Address(u16),
    /// A branch target, as its offset from the next instruction in two's complement.
    Offset(u8),
    /// `#ii,hhll`.
    ByteToAddress(u8, u16),
    /// `hhll,hhll`, the source first.
    AddressToAddress(u16, u16),
    /// `X,D`.
    XToD,
    /// `Y,D`.
    YToD,
    /// `1,X+`.
    PostIncrementX,
}

/// A row of the table: the mnemonic, the page of the opcode or postbyte, that byte, and the operand.
#[derive(Clone, Copy, Drop)]
pub struct Encoding {
    pub mnemonic: Mnemonic,
    pub page: Page,
    pub opcode: u8,
    pub operand: Operand,
}

fn row(mnemonic: Mnemonic, page: Page, opcode: u8, operand: Operand) -> Encoding
    ensures { result ≡ record { mnemonic = mnemonic; page = page; opcode = opcode; operand = operand } }
{
    Encoding {
        mnemonic,
        page,
        opcode,
        operand,
    }
}

impl Instr {
    /// The row of this instruction, with its operand.
    pub fn encoding(&self) -> Encoding
        ensures { result ≡ encoding_of self.now }
    {
        match *self {
            Instr::LdaaImmediate(v) => row(Mnemonic::Ldaa, Page::One, 0x86, Operand::Byte(v)),
            Instr::LdaaExtended(v) => row(Mnemonic::Ldaa, Page::One, 0xB6, Operand::Address(v)),
            Instr::LdabImmediate(v) => row(Mnemonic::Ldab, Page::One, 0xC6, Operand::Byte(v)),
            Instr::LdabExtended(v) => row(Mnemonic::Ldab, Page::One, 0xF6, Operand::Address(v)),
            Instr::LdxImmediate(v) => row(Mnemonic::Ldx, Page::One, 0xCE, Operand::Word(v)),
            Instr::LdyImmediate(v) => row(Mnemonic::Ldy, Page::One, 0xCD, Operand::Word(v)),
            Instr::LdsImmediate(v) => row(Mnemonic::Lds, Page::One, 0xCF, Operand::Word(v)),
            Instr::StaaExtended(v) => row(Mnemonic::Staa, Page::One, 0x7A, Operand::Address(v)),
            Instr::StabExtended(v) => row(Mnemonic::Stab, Page::One, 0x7B, Operand::Address(v)),
            Instr::ClrExtended(v) => row(Mnemonic::Clr, Page::One, 0x79, Operand::Address(v)),
            Instr::Coma => row(Mnemonic::Coma, Page::One, 0x41, Operand::Inherent),
            Instr::CpxImmediate(v) => row(Mnemonic::Cpx, Page::One, 0x8E, Operand::Word(v)),
            Instr::Beq(v) => row(Mnemonic::Beq, Page::One, 0x27, Operand::Offset(v)),
            Instr::Bne(v) => row(Mnemonic::Bne, Page::One, 0x26, Operand::Offset(v)),
            Instr::Bcc(v) => row(Mnemonic::Bcc, Page::One, 0x24, Operand::Offset(v)),
            Instr::Bcs(v) => row(Mnemonic::Bcs, Page::One, 0x25, Operand::Offset(v)),
            Instr::Bra(v) => row(Mnemonic::Bra, Page::One, 0x20, Operand::Offset(v)),
            Instr::JsrExtended(v) => row(Mnemonic::Jsr, Page::One, 0x16, Operand::Address(v)),
            Instr::Rts => row(Mnemonic::Rts, Page::One, 0x3D, Operand::Inherent),
            Instr::Andcc(v) => row(Mnemonic::Andcc, Page::One, 0x10, Operand::Byte(v)),
            Instr::Orcc(v) => row(Mnemonic::Orcc, Page::One, 0x14, Operand::Byte(v)),
            Instr::TransferXD => row(Mnemonic::Tfr, Page::Transfer, 0x54, Operand::XToD),
            Instr::TransferYD => row(Mnemonic::Tfr, Page::Transfer, 0x64, Operand::YToD),
            Instr::Ediv => row(Mnemonic::Ediv, Page::One, 0x11, Operand::Inherent),
            Instr::Fdiv => row(Mnemonic::Fdiv, Page::Two, 0x11, Operand::Inherent),
            Instr::Rti => row(Mnemonic::Rti, Page::One, 0x0B, Operand::Inherent),
            Instr::Nop => row(Mnemonic::Nop, Page::One, 0xA7, Operand::Inherent),
            Instr::IncExtended(v) => row(Mnemonic::Inc, Page::One, 0x72, Operand::Address(v)),
            Instr::DecExtended(v) => row(Mnemonic::Dec, Page::One, 0x73, Operand::Address(v)),
            Instr::AddaImmediate(v) => row(Mnemonic::Adda, Page::One, 0x8B, Operand::Byte(v)),
            Instr::AddaExtended(v) => row(Mnemonic::Adda, Page::One, 0xBB, Operand::Address(v)),
            Instr::AddbImmediate(v) => row(Mnemonic::Addb, Page::One, 0xCB, Operand::Byte(v)),
            Instr::AddbExtended(v) => row(Mnemonic::Addb, Page::One, 0xFB, Operand::Address(v)),
            Instr::AddbPostIncrementX => row(
                Mnemonic::Addb,
                Page::AddIndexed,
                0x30,
                Operand::PostIncrementX,
            ),
            Instr::AdcaImmediate(v) => row(Mnemonic::Adca, Page::One, 0x89, Operand::Byte(v)),
            Instr::SubaImmediate(v) => row(Mnemonic::Suba, Page::One, 0x80, Operand::Byte(v)),
            Instr::SubaExtended(v) => row(Mnemonic::Suba, Page::One, 0xB0, Operand::Address(v)),
            Instr::CmpaImmediate(v) => row(Mnemonic::Cmpa, Page::One, 0x81, Operand::Byte(v)),
            Instr::CmpaExtended(v) => row(Mnemonic::Cmpa, Page::One, 0xB1, Operand::Address(v)),
            Instr::AndaImmediate(v) => row(Mnemonic::Anda, Page::One, 0x84, Operand::Byte(v)),
            Instr::AndaExtended(v) => row(Mnemonic::Anda, Page::One, 0xB4, Operand::Address(v)),
            Instr::OraaImmediate(v) => row(Mnemonic::Oraa, Page::One, 0x8A, Operand::Byte(v)),
            Instr::OraaExtended(v) => row(Mnemonic::Oraa, Page::One, 0xBA, Operand::Address(v)),
            Instr::Inx => row(Mnemonic::Inx, Page::One, 0x08, Operand::Inherent),
            Instr::Dex => row(Mnemonic::Dex, Page::One, 0x09, Operand::Inherent),
            Instr::Iny => row(Mnemonic::Iny, Page::One, 0x02, Operand::Inherent),
            Instr::Dey => row(Mnemonic::Dey, Page::One, 0x03, Operand::Inherent),
            Instr::Psha => row(Mnemonic::Psha, Page::One, 0x36, Operand::Inherent),
            Instr::Pula => row(Mnemonic::Pula, Page::One, 0x32, Operand::Inherent),
            Instr::MovbImmediate(v, at) => row(
                Mnemonic::Movb,
                Page::Two,
                0x0B,
                Operand::ByteToAddress(v, at),
            ),
            Instr::MovbExtended(source, at) => row(
                Mnemonic::Movb,
                Page::Two,
                0x0C,
                Operand::AddressToAddress(source, at),
            ),
            Instr::Mem => row(Mnemonic::Mem, Page::One, 0x01, Operand::Inherent),
            Instr::Rev => row(Mnemonic::Rev, Page::Two, 0x3A, Operand::Inherent),
            Instr::Revw => row(Mnemonic::Revw, Page::Two, 0x3B, Operand::Inherent),
            Instr::Wav => row(Mnemonic::Wav, Page::Two, 0x3C, Operand::Inherent),
            Instr::Wavr => row(Mnemonic::Wavr, Page::One, 0x3C, Operand::Inherent),
        }
    }
}

/// An instruction of each encoding, with all operands 0.
pub const EVERY: [Instr; 56] = [
    Instr::LdaaImmediate(0),
    Instr::LdaaExtended(0),
    Instr::LdabImmediate(0),
    Instr::LdabExtended(0),
    Instr::LdxImmediate(0),
    Instr::LdyImmediate(0),
    Instr::LdsImmediate(0),
    Instr::StaaExtended(0),
    Instr::StabExtended(0),
    Instr::ClrExtended(0),
    Instr::Coma,
    Instr::CpxImmediate(0),
    Instr::Beq(0),
    Instr::Bne(0),
    Instr::Bcc(0),
    Instr::Bcs(0),
    Instr::Bra(0),
    Instr::JsrExtended(0),
    Instr::Rts,
    Instr::Andcc(0),
    Instr::Orcc(0),
    Instr::TransferXD,
    Instr::TransferYD,
    Instr::Ediv,
    Instr::Fdiv,
    Instr::Rti,
    Instr::Nop,
    Instr::IncExtended(0),
    Instr::DecExtended(0),
    Instr::AddaImmediate(0),
    Instr::AddaExtended(0),
    Instr::AddbImmediate(0),
    Instr::AddbExtended(0),
    Instr::AddbPostIncrementX,
    Instr::AdcaImmediate(0),
    Instr::SubaImmediate(0),
    Instr::SubaExtended(0),
    Instr::CmpaImmediate(0),
    Instr::CmpaExtended(0),
    Instr::AndaImmediate(0),
    Instr::AndaExtended(0),
    Instr::OraaImmediate(0),
    Instr::OraaExtended(0),
    Instr::Inx,
    Instr::Dex,
    Instr::Iny,
    Instr::Dey,
    Instr::Psha,
    Instr::Pula,
    Instr::MovbImmediate(0, 0),
    Instr::MovbExtended(0, 0),
    Instr::Mem,
    Instr::Rev,
    Instr::Revw,
    Instr::Wav,
    Instr::Wavr,
];
