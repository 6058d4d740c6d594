//! Registers and instructions.

/// The condition codes `S X H I N Z V C`, from bit 7 to bit 0 (CPU12 Reference Manual, section 2.2.5).
#[derive(Clone, Copy, PartialEq, Eq, Drop)]
pub struct Ccr(pub u8);

/// The registers of the CPU12 (CPU12 Reference Manual, section 2). D is A and B together, A its
/// high byte. SP is the address of the byte that was pushed last.
#[derive(Clone, Copy, PartialEq, Eq, Drop)]
pub struct Regs {
    pub a: u8,
    pub b: u8,
    pub x: u16,
    pub y: u16,
    pub sp: u16,
    pub pc: u16,
    pub ccr: Ccr,
}

/// A byte to be written.
#[derive(Clone, Copy, PartialEq, Eq, Drop)]
pub struct Write {
    pub at: u16,
    pub value: u8,
}

/// The bytes at `pc` begin no instruction. `byte` is the first of them that is in no table: the one at `pc`, or
/// the one after `$18`, `$B7` or `$EB`.
#[derive(Clone, Copy, Debug, PartialEq, Eq, Drop)]
pub struct Trap {
    pub pc: u16,
    pub byte: u8,
}

/// An instruction in one of its encodings, with its operands in order. A branch holds its offset from the next
/// instruction as a byte in two's complement.
#[derive(Clone, Copy, Drop)]
pub enum Instr {
    /// `LDAA #ii`: loads A.
    LdaaImmediate(u8),
    /// `LDAA hhll`: loads A from memory.
    LdaaExtended(u16),
    /// `LDAB #ii`: loads B.
    LdabImmediate(u8),
    /// `LDAB hhll`: loads B from memory.
    LdabExtended(u16),
    /// `LDX #hhll`: loads X.
    LdxImmediate(u16),
    /// `LDY #hhll`: loads Y.
    LdyImmediate(u16),
    /// `LDS #hhll`: loads SP.
    LdsImmediate(u16),
    /// `STAA hhll`: stores A.
    StaaExtended(u16),
    /// `STAB hhll`: stores B.
    StabExtended(u16),
    /// `CLR hhll`: stores 0.
    ClrExtended(u16),
    /// `COMA`: replaces A by 255 minus A.
    Coma,
    /// `CPX #hhll`: compares X.
    CpxImmediate(u16),
    /// `BEQ rr`: branches where Z is 1.
    Beq(u8),
    /// `BNE rr`: branches where Z is 0.
    Bne(u8),
    /// `BCC rr`: branches where C is 0.
    Bcc(u8),
    /// `BCS rr`: branches where C is 1.
    Bcs(u8),
    /// `BRA rr`: branches always.
    Bra(u8),
    /// `JSR hhll`: pushes the next instruction's address and jumps.
    JsrExtended(u16),
    /// `RTS`: pulls the program counter.
    Rts,
    /// `ANDCC #ii`: clears condition codes.
    Andcc(u8),
    /// `ORCC #ii`: sets condition codes, except the X mask.
    Orcc(u8),
    /// `TFR X,D`: copies X to D.
    TransferXD,
    /// `TFR Y,D`: copies Y to D.
    TransferYD,
    /// `EDIV`: divides Y:D by X.
    Ediv,
    /// `FDIV`: divides D by X as fractions.
    Fdiv,
    /// `RTI`: pulls the nine bytes of an interrupt's frame.
    Rti,
    /// `NOP`.
    Nop,
    /// `INC hhll`: adds 1 to a byte of memory.
    IncExtended(u16),
    /// `DEC hhll`: subtracts 1 from a byte of memory.
    DecExtended(u16),
    /// `ADDA #ii`: adds to A.
    AddaImmediate(u8),
    /// `ADDA hhll`: adds a byte of memory to A.
    AddaExtended(u16),
    /// `ADDB #ii`: adds to B.
    AddbImmediate(u8),
    /// `ADDB hhll`: adds a byte of memory to B.
    AddbExtended(u16),
    /// `ADDB 1,X+`: adds the byte at X to B, then 1 to X.
    AddbPostIncrementX,
    /// `ADCA #ii`: adds to A, with C.
    AdcaImmediate(u8),
    /// `SUBA #ii`: subtracts from A.
    SubaImmediate(u8),
    /// `SUBA hhll`: subtracts a byte of memory from A.
    SubaExtended(u16),
    /// `CMPA #ii`: compares A with a byte.
    CmpaImmediate(u8),
    /// `CMPA hhll`: compares A with a byte of memory.
    CmpaExtended(u16),
    /// `ANDA #ii`: the bitwise AND with A.
    AndaImmediate(u8),
    /// `ANDA hhll`: the bitwise AND of A and a byte of memory.
    AndaExtended(u16),
    /// `ORAA #ii`: the bitwise OR with A.
    OraaImmediate(u8),
    /// `ORAA hhll`: the bitwise OR of A and a byte of memory.
    OraaExtended(u16),
    /// `INX`: adds 1 to X.
    Inx,
    /// `DEX`: subtracts 1 from X.
    Dex,
    /// `INY`: adds 1 to Y.
    Iny,
    /// `DEY`: subtracts 1 from Y.
    Dey,
    /// `PSHA`: pushes A.
    Psha,
    /// `PULA`: pulls A.
    Pula,
    /// `MOVB #ii,hhll`: stores a byte.
    MovbImmediate(u8, u16),
    /// `MOVB hhll,hhll`: copies a byte; the source is the first operand.
    MovbExtended(u16, u16),
    /// `MEM`: a membership grade of A.
    Mem,
    /// `REV`: rule evaluation, unweighted.
    Rev,
    /// `REVW`: rule evaluation, weighted by C.
    Revw,
    /// `WAV`: weighted average.
    Wav,
    /// `wavr`: resumes a weighted average whose sums are on the stack.
    Wavr,
}
