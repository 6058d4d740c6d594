//! The parts of a row.
ghost use Rattle.std.specs.Prelude.{◌≡◌, ◌≢◌, ◌↔◌, ◌<◌, ◌≤◌, ◌*◌, ◌+◌, ◌%◌, ◌^◌, ℕ, List as Items, [], ◌∷◌, ◌++◌};
ghost use Rattle.std.specs.Prelude.{length, drop, min, IfOk, Some, None, MatchOption, IsTrue, slice_index_or};
ghost use Rattle.csv.specs.Records.{fields_of};
ghost use Rattle.fz_num.specs.Decimals.{are_digits, is_digit, number};
ghost use Rattle.std.specs.List.{list_all};
ghost use Rattle.hex.specs.Hex.{decode_sized};
ghost use Rattle.cpu12_isa.specs.declared.instr.Write.{Write as TheWrite};
ghost use Rattle.interrupt_plan.specs.Rows.{AreFree, HasNumbers, IsFirstTaken, SpellsRow, byte_of, count_of, word_of};
ghost use Rattle.interrupt_plan.specs.Rows.{write_of, writes_of};

use cpu12_isa::instr::Write;
use cpu12_isa::mem::is_free;
use csv::ByteRecord;
use fz_list::List;
use hex::FromHex;
use std::alloc::{AllocError, Global};

/// The most digits of a number.
const MOST_DIGITS: usize = 9;

/// One more than the greatest number with that many digits.
const TOO_GREAT: u32 = 1_000_000_000;

/// The most fields of a row: two numbers, and eight writes.
const MOST_FIELDS: usize = 18;

fn has_digits_only(field: &[u8]) -> bool
    ensures { result ≡ list_all is_digit field.now }
{
    field.iter().all(|c| *c >= b'0' && *c <= b'9')
}

/// The number that digits spell, or `TOO_GREAT` if that is less.
fn value_of(digits: &[u8]) -> u32
    ensures { result ≡ min (number digits.now) TOO_GREAT }
{
    let mut value: u32 = 0;
    for digit in digits {
        let next = 10 * u64::from(value) + u64::from(digit.saturating_sub(b'0'));
        value = next.min(u64::from(TOO_GREAT)) as u32;
    }
    value
}

/// The number of a field of one to nine decimal digits.
pub fn count_in(field: &[u8]) -> Option<u32>
    ensures { result ≡ count_of field.now }
{
    if field.len() <= MOST_DIGITS && !field.is_empty() && has_digits_only(field) {
        Some(value_of(field))
    } else {
        None
    }
}

/// The number of four hexadecimal digits of either case.
pub fn word_in(field: &[u8]) -> Option<u16>
    ensures { result ≡ word_of (decode_sized field.now 2) }
{
    match <[u8; 2] as FromHex>::from_hex(field) {
        Ok(bytes) => Some(u16::from(bytes[0]) * 256 + u16::from(bytes[1])),
        Err(_) => None,
    }
}

/// The number of two hexadecimal digits.
fn byte_in(field: &[u8]) -> Option<u8>
    ensures { result ≡ byte_of (decode_sized field.now 1) }
{
    match <[u8; 1] as FromHex>::from_hex(field) {
        Ok(bytes) => Some(bytes[0]),
        Err(_) => None,
    }
}

/// The write of an address and a value.
pub(crate) fn write_in(address: &[u8], value: &[u8]) -> Option<Write>
    ensures { result ≡ write_of address.now value.now }
{
    let at = word_in(address)?;
    let value = byte_in(value)?;
    Some(Write { at, value })
}

/// A row's field.
pub(crate) fn field_at(row: &ByteRecord, at: usize) -> &[u8]
    requires { at < length (fields_of row.now) }
    ensures { slice_index_or (fields_of row.now) at [] ≡ result.now }
{
    match row.get(at) {
        Some(field) => field,
        None => unreachable!(),
    }
}

/// The writes of a row after its numbers.
fn writes_in(alloc: Global, row: &ByteRecord) -> Result<Option<Vec<Write>>, AllocError>
    requires some { 2 ≤ length (fields_of row.now) }
    requires pairs { length (fields_of row.now) % 2 ≡ 0 }
    ensures { IfOk result (λ writes. MatchOption writes (writes_of (drop 2 (fields_of row.now)) ≡ None)
        (λ v. writes_of (drop 2 (fields_of row.now)) ≡ Some v.items)) }
{
    let mut writes = Vec::new(alloc);
    for i in 0..row.len() / 2 - 1 {
        match write_in(field_at(row, 2 * i + 2), field_at(row, 2 * i + 3)) {
            Some(write) => writes.push(write)?,
            None => return Ok(None),
        }
    }
    Ok(Some(writes))
}

/// The two numbers and the writes of a row.
#[derive(Drop)]
pub(crate) struct Parts {
    pub(crate) first: u32,
    pub(crate) second: u32,
    pub(crate) writes: List<Write>,
}

/// The parts of a row.
pub(crate) fn parts_in(alloc: Global, row: &ByteRecord) -> Result<Option<Parts>, AllocError>
    ensures { IfOk result
        (λ parts. MatchOption parts ((a b : ℕ) (ws : Items TheWrite) → SpellsRow (fields_of row.now) a b ws → ⊥)
        (λ p. SpellsRow (fields_of row.now) p.first p.second p.writes)) }
{
    if row.len() < 2 || row.len() > MOST_FIELDS || row.len() % 2 == 1 {
        return Ok(None);
    }
    let (first, second) = match numbers_in(row) {
        Some(numbers) => numbers,
        None => return Ok(None),
    };
    match writes_in(alloc, row) {
        Ok(Some(writes)) => Ok(Some(Parts {
            first,
            second,
            writes: List::new(writes),
        })),
        Ok(None) => Ok(None),
        Err(fault) => Err(fault),
    }
}

/// The first two fields of a row, as numbers.
fn numbers_in(row: &ByteRecord) -> Option<(u32, u32)>
    requires { 2 ≤ length (fields_of row.now) }
    ensures { MatchOption result ((a b : ℕ) → HasNumbers (fields_of row.now) a b → ⊥)
        (λ t. HasNumbers (fields_of row.now) t.0 t.1) }
{
    let first = count_in(field_at(row, 0))?;
    let second = count_in(field_at(row, 1))?;
    Some((first, second))
}

/// The address of the first write to a byte that is not free.
pub(crate) fn first_taken(writes: &[Write]) -> Option<u16>
    ensures { MatchOption result (AreFree writes.now) (IsFirstTaken writes.now) }
{
    for write in writes {
        if !is_free(write.at) {
            return Some(write.at);
        }
    }
    None
}
