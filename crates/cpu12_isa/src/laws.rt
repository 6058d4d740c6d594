//! Laws of instructions and memories.
ghost use Rattle.std.specs.Prelude.{◌≡◌};
ghost use Rattle.cpu12_isa.specs.Code.{DecodedHasOpcode, DecodesEncoded};
ghost use Rattle.cpu12_isa.specs.Fits.{StaysFit, BytesStay, DecodedFits, EncodedIsShort, EncodedAreBytes};
ghost use Rattle.cpu12_isa.specs.Agreement.{ReadsAlone, WritesAgree, WritesStay};
ghost use Rattle.cpu12_isa.specs.Plain.{PlainLeavesByTables, StraightGoesOn};
ghost use Rattle.cpu12_isa.specs.Interrupts.{FrameComesBack, HidesMoreAbove, ShowsFromSp, HidesPushed};
ghost use Rattle.cpu12_isa.specs.declared.encodings.TheConstants.{EVERY};
ghost use Rattle.cpu12_isa.specs.{Meaning.Effect, Watching.NothingIsWatched, Pages.GivenAreWritten, Encodings.every};

/// What an instruction does depends only on the bytes that it reads.
pub fn reads_alone()
    ensures { ReadsAlone Effect }
{}

/// Memories that agree still agree after the same writes.
pub fn writes_agree()
    ensures { WritesAgree }
{}

/// Writes change no byte but those they name.
pub fn writes_stay()
    ensures { WritesStay }
{}

/// Registers and writes stay within their sizes.
pub fn stays_fit()
    ensures { StaysFit }
{}

/// A memory of bytes remains one.
pub fn bytes_stay()
    ensures { BytesStay }
{}

/// What every plain instruction leaves: where PC goes on, how SP moves, which leave I and X, and what is written; and
/// of those that go straight on the same in short.
pub fn plain_instructions_leave()
    ensures tables { PlainLeavesByTables }
    ensures straight { StraightGoesOn }
{}

/// A memory that notes nothing watches no address.
pub fn nothing_is_watched()
    ensures { NothingIsWatched }
{}

/// After writes, a fresh `PageMem` counts the pages to which a byte other than 0 was ever written.
pub fn given_are_written()
    ensures { GivenAreWritten }
{}

/// Decoded instructions have operands that fit.
pub fn decoded_fits()
    ensures { DecodedFits }
{}

/// An instruction has at most six bytes, and they are bytes where its operands fit.
pub fn encoded_are_bytes()
    ensures short { EncodedIsShort }
    ensures bytes { EncodedAreBytes }
{}

/// A decoded instruction has its opcode in memory, after the byte of its page if it has one.
pub fn decoded_has_opcode()
    ensures { DecodedHasOpcode }
{}

/// Registers that an interrupt pushes are pulled unchanged.
pub fn frame_comes_back()
    ensures { FrameComesBack }
{}

/// Of the stack exactly the bytes below SP are hidden: bytes pushed from there are, and where SP is higher, no less.
pub fn stack_is_hidden()
    ensures more { HidesMoreAbove }
    ensures shown { ShowsFromSp }
    ensures pushed { HidesPushed }
{}

/// [`EVERY`](crate::encodings::EVERY) has an instruction of each encoding in the table.
pub fn every_encoding_stands()
    ensures { EVERY ≡ every }
{}

/// An encoded instruction is decoded to itself, at any address.
pub fn decodes_encoded()
    ensures { DecodesEncoded }
{}
