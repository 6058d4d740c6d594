//! The two passes over a source.
ghost use Rattle.std.specs.Prelude.{ℕ, ◌≡◌, ◌≢◌, ◌≤◌, ◌+◌, ◌^◌, length, List, ◌++◌, IfOk, IfErr, Ok, Err};
ghost use Rattle.cpu12_asm.specs.{Names.value_in, Statements.statement_of};
ghost use Rattle.cpu12_asm.specs.Bytes.{start_of, placed, Holds, IsAscending};
ghost use Rattle.cpu12_asm.specs.Giving.{Given, put, put_values, values_within, limits_of, given};
ghost use Rattle.cpu12_asm.specs.Sources.{names_of, bytes_of, Assembles, assembled};

use crate::expressions::{Names, expression};
use crate::faults::LineFault;
use crate::image::{ByteMap, Image, Refusal};
use crate::items::AsmFault;
use crate::lines::cut_line;
use crate::operands::{branches_far, bytes_with, values_within};
use crate::statements::{Action, read_line};
use crate::values::{define, within};
use std::alloc::Global;
use std::collections::BTreeMap;

/// The values of a source's names, line by line.
fn read_names<'a>(alloc: Global, text: &'a [u8]) -> Result<Names<'a>, AsmFault>
    requires { length text.now ≤ 2 ^ 20 }
    ensures names { IfOk result (λ names. names_of text.now ≡ Ok (value_in names)) }
    ensures fault { IfErr result (λ fault. fault ≢ AsmFault.Memory → names_of text.now ≡ Err fault) }
{
    let mut names = BTreeMap::new(alloc);
    let mut place: u64 = 0;
    let mut number: u32 = 0;
    let mut left = Some(text);
    while let Some(lines) = left {
        let (line, rest) = cut_line(lines);
        number += 1;
        place = match define(alloc, &mut names, place, line) {
            Ok(behind) => behind,
            Err(fault) => return Err(fault.at(number)),
        };
        left = rest;
    }
    Ok(names)
}

/// Puts the bytes of a line at an address, and returns the address after them.
fn put(bytes: &mut ByteMap, place: u32, far: bool, line: &[u8]) -> Result<u32, LineFault>
    requires { place ≤ 2 ^ 16 }
    ensures ok { IfOk result (λ behind. (behind ≤ 2 ^ 16) × (behind ≡ place + length line.now)) }
    ensures held { (given : List (ℕ × ℕ)) → Holds bytes.old given
        → IfOk result
        (λ behind. (put (record { place = place; bytes = given }) far line.now
        ≡ Ok (record { place = behind; bytes = given ++ placed place line.now }))
        × Holds bytes.new (given ++ placed place line.now)) }
    ensures err { (given : List (ℕ × ℕ)) → Holds bytes.old given
        → IfErr result (λ fault. fault ≢ LineFault.Memory → put (record { place = place; bytes = given }) far line.now
        ≡ Err fault) }
{
    if place as usize + line.len() > 0x1_0000 {
        return Err(LineFault::Range);
    }
    if far {
        return Err(LineFault::BranchFar);
    }
    match bytes.put_all(place, line) {
        Ok(behind) => Ok(behind),
        Err(Refusal::PastEnd) => Err(LineFault::Range),
        Err(Refusal::Taken) => Err(LineFault::Overlap),
        Err(Refusal::Memory) => Err(LineFault::Memory),
    }
}

/// Puts what a line gives, and returns the address after it.
fn give(
    alloc: Global,
    names: &Names<'_>,
    bytes: &mut ByteMap,
    place: u32,
    line: &[u8],
) -> Result<u32, LineFault>
    requires line { length line.now ≤ 2 ^ 32 }
    requires place { place ≤ 2 ^ 16 }
    ensures ok { IfOk result (λ behind. behind ≤ 2 ^ 16) }
    ensures held { (before : List (ℕ × ℕ)) → Holds bytes.old before
        → IfOk result
        (λ behind. (after : List (ℕ × ℕ))
        × (given (value_in names.now) (record { place = place; bytes = before }) (statement_of line.now)
        ≡ Ok (record { place = behind; bytes = after })) × Holds bytes.new after) }
    ensures err { (before : List (ℕ × ℕ)) → Holds bytes.old before
        → IfErr result (λ fault. fault ≢ LineFault.Memory → given (value_in names.now)
        (record { place = place; bytes = before }) (statement_of line.now) ≡ Err fault) }
{
    let Some(statement) = read_line(alloc, line) else {
        return Err(LineFault::BadLine);
    };
    match statement.action {
        Action::Origin => match within(0xFFFF, expression(names, statement.operand)) {
            Ok(to) => Ok(u32::from(to)),
            Err(fault) => Err(fault),
        },
        _ => give_bytes(
            alloc,
            names,
            bytes,
            place,
            &statement.action,
            statement.operand,
        ),
    }
}

/// Puts the bytes of a line with this action and operand.
fn give_bytes(
    alloc: Global,
    names: &Names<'_>,
    bytes: &mut ByteMap,
    place: u32,
    action: &Action,
    operand: &[u8],
) -> Result<u32, LineFault>
    requires operand { length operand.now ≤ 2 ^ 32 }
    requires place { place ≤ 2 ^ 16 }
    ensures ok { IfOk result (λ behind. behind ≤ 2 ^ 16) }
    ensures held { (before : List (ℕ × ℕ)) → Holds bytes.old before
        → IfOk result
        (λ behind. (after : List (ℕ × ℕ))
        × (put_values (record {
          place = place;
          bytes = before;
        }) action.now (values_within (value_in names.now) operand.now (limits_of action.now))
        ≡ Ok (record { place = behind; bytes = after })) × Holds bytes.new after) }
    ensures err { (before : List (ℕ × ℕ)) → Holds bytes.old before
        → IfErr result
        (λ fault. fault ≢ LineFault.Memory
        → put_values (record {
          place = place;
          bytes = before;
        }) action.now (values_within (value_in names.now) operand.now (limits_of action.now))
        ≡ Err fault) }
{
    let values = match values_within(alloc, names, action, operand) {
        Ok(values) => values,
        Err(fault) => return Err(fault),
    };
    let line = match bytes_with(alloc, place, action, values.as_slice()) {
        Ok(line) => line,
        Err(_) => return Err(LineFault::Memory),
    };
    let far = branches_far(place, action, values.as_slice());
    put(bytes, place, far, line.as_slice())
}

/// The bytes that a source gives, line by line.
fn read_bytes(alloc: Global, names: &Names<'_>, text: &[u8]) -> Result<ByteMap, AsmFault>
    requires { length text.now ≤ 2 ^ 20 }
    ensures held { IfOk result (λ bytes. (g : Given) × (bytes_of (value_in names.now) text.now ≡ Ok g)
        × Holds bytes g.bytes) }
    ensures fault { IfErr result (λ fault. fault ≢ AsmFault.Memory
        → bytes_of (value_in names.now) text.now ≡ Err fault) }
{
    let mut bytes = ByteMap::new(alloc);
    let mut place: u32 = 0;
    let mut number: u32 = 0;
    let mut left = Some(text);
    while let Some(lines) = left {
        let (line, rest) = cut_line(lines);
        number += 1;
        place = match give(alloc, names, &mut bytes, place, line) {
            Ok(behind) => behind,
            Err(fault) => return Err(fault.at(number)),
        };
        left = rest;
    }
    Ok(bytes)
}

/// The image of a source text of at most 1048576 bytes.
///
/// Lines end with LF or CR LF; `;` begins a comment. A line is `[name] [operation [operand]]`: a name
/// begins in column 1, an operation after a blank. Operations are the mnemonics of the table of encodings and
/// `ORG e`, `FCB e{,e}`, `FDB e{,e}` and `EQU e`; an expression joins numbers (`$` and hexadecimal digits,
/// or decimal digits) and names by `+` and `-`. The case of letters does not count.
///
/// A first pass goes through the lines, starting at address 0, and reports `BadLine`, then `Twice`, and for `ORG`
/// and `EQU` then `UnknownName` and `Range`. A second pass, with all names known, reports `UnknownName`, `Range`,
/// `BranchFar` and `Overlap`, in this order for each line.
pub fn assemble(alloc: Global, source: &[u8]) -> Result<Image, AsmFault>
    requires { length source.now ≤ 2 ^ 20 }
    ensures bytes { IfOk result (λ image. Assembles source.now image.bytes) }
    ensures ascending { IfOk result (λ image. IsAscending image.bytes) }
    ensures start { IfOk result (λ image. image.start ≡ start_of image.bytes) }
    ensures fault { IfErr result (λ fault. fault ≢ AsmFault.Memory → assembled source.now ≡ Err fault) }
{
    let Ok(text) = source.to_ascii_uppercase(alloc) else {
        return Err(AsmFault::Memory);
    };
    let names = match read_names(alloc, text.as_slice()) {
        Ok(names) => names,
        Err(fault) => return Err(fault),
    };
    let bytes = match read_bytes(alloc, &names, text.as_slice()) {
        Ok(bytes) => bytes,
        Err(fault) => return Err(fault),
    };
    let start = bytes.start();
    Ok(Image { bytes, start })
}
