//! Upsets: bytes of a firmware's tables that hold another value while a sample is answered.
ghost use Rattle.std.specs.Prelude.{◌≡◌, ◌≢◌, ◌<◌, ◌≤◌, ◌↔◌, List as Items, [], ◌∷◌, ◌++◌, length, map, IfOk, IfErr};
ghost use Rattle.std.specs.Prelude.{MatchOption};
ghost use Rattle.csv.specs.Records.{fields_of};
ghost use Rattle.interrupt_plan.specs.Upsets.{AreGoodUpsets, IsGoodUpset, is_table};
ghost use Rattle.interrupt_plan.specs.UpsetTexts.{FirstUpsetFault, HasUpsetFault, SpellUpsets, SpellsUpset};
ghost use Rattle.interrupt_plan.specs.UpsetTexts.{SpellsUpsets, UpsetRowFails};
ghost use Rattle.interrupt_plan.specs.declared.upsets.Upset.{Upset as TheUpset};

use crate::row::{count_in, field_at, write_in};
use cpu12_asm::Image;
use csv::ByteRecord;
use fz_list::List;
use std::alloc::Global;
use thiserror::Error;
use trace_io::first_rows;

/// A byte of a table that holds another value while a sample is answered.
#[derive(Clone, Copy, PartialEq, Eq)]
pub struct Upset {
    /// The sample, counted from 1.
    pub sample: u32,
    /// The byte's address: one from `$D000` to `$FEFF` at which the image has a byte.
    pub at: u16,
    /// The value that it holds.
    pub value: u8,
}

/// Upsets that ascend by sample, at most one for each, and at most 10000 of them.
pub type Upsets = List<Upset>;

/// Why a text is no list of upsets. Rows count from 1.
#[derive(Clone, Copy, PartialEq, Eq, Debug, Error)]
pub enum UpsetFault {
    /// There is a row 10001.
    #[error("too many rows")]
    TooMany,
    /// That row is not a sample from 1, an address and a value.
    #[error("row {0} is malformed")]
    BadRow(u32),
    /// In that row, that address is not a byte of the image's tables.
    #[error("row {0}: the byte at {1} is not of a table")]
    NotTable(u32, u16),
    /// That row's sample does not come after that of the row above it.
    #[error("row {0} does not ascend")]
    NotAscending(u32),
    /// Out of memory.
    #[error("no memory")]
    Memory,
}

/// The most rows.
const MOST_UPSETS: usize = 10000;

/// The fields of a row: a sample, an address and a value.
const FIELDS: usize = 3;

/// Where the tables of an image are.
const TABLES_FROM: u16 = 0xD000;

const TABLES_TO: u16 = 0xFEFF;

fn is_table(image: &Image, at: u16) -> bool
    ensures { result ≡ is_table image.now.bytes at }
{
    TABLES_FROM <= at && at <= TABLES_TO && image.bytes.get(at).is_some()
}

/// The upset that a row spells.
fn upset_in(row: &ByteRecord) -> Option<Upset>
    ensures { MatchOption result ((u : TheUpset) → SpellsUpset (fields_of row.now) u → ⊥)
        (SpellsUpset (fields_of row.now)) }
{
    if row.len() != FIELDS {
        return None;
    }
    let sample = count_in(field_at(row, 0))?;
    let write = write_in(field_at(row, 1), field_at(row, 2))?;
    if sample >= 1 {
        Some(Upset {
            sample,
            at: write.at,
            value: write.value,
        })
    } else {
        None
    }
}

/// The good upset of a row with this number, after those of the rows above it.
fn next_upset(
    image: &Image,
    before: &[Upset],
    row: &ByteRecord,
    number: u32,
) -> Result<Upset, UpsetFault>
    ensures upset { IfOk result (SpellsUpset (fields_of row.now)) }
    ensures good { IfOk result (IsGoodUpset image.now.bytes) }
    ensures ascends { IfOk result (λ u. (front : Items TheUpset) (last : TheUpset)
        → before.now ≡ front ++ last ∷ [] → last.sample < u.sample) }
    ensures fault { IfErr result (UpsetRowFails image.now.bytes before.now number (fields_of row.now)) }
{
    let upset = match upset_in(row) {
        Some(upset) => upset,
        None => return Err(UpsetFault::BadRow(number)),
    };
    if !is_table(image, upset.at) {
        return Err(UpsetFault::NotTable(number, upset.at));
    }
    match before.last() {
        Some(last) if upset.sample <= last.sample => Err(UpsetFault::NotAscending(number)),
        _ => Ok(upset),
    }
}

/// The upsets of rows, up to the first row that fails.
fn upsets_in(alloc: Global, image: &Image, rows: &[ByteRecord]) -> Result<Vec<Upset>, UpsetFault>
    ensures upsets { IfOk result (λ v. SpellUpsets (map fields_of rows.now) v.items) }
    ensures few { IfOk result (λ v. length rows.now < 10001) }
    ensures good { IfOk result (λ v. AreGoodUpsets image.now.bytes v.items) }
    ensures fault { IfErr result (λ f. f ≢ UpsetFault.Memory
        → FirstUpsetFault image.now.bytes (map fields_of rows.now) f) }
{
    let mut upsets = Vec::new(alloc);
    for (at, row) in rows.iter().enumerate() {
        if at == MOST_UPSETS {
            return Err(UpsetFault::TooMany);
        }
        let upset = match next_upset(image, &upsets, row, at as u32 + 1) {
            Ok(upset) => upset,
            Err(fault) => return Err(fault),
        };
        match upsets.push(upset) {
            Ok(()) => {}
            Err(_) => return Err(UpsetFault::Memory),
        }
    }
    Ok(upsets)
}

/// The upsets that a text spells, in the tables of an image: comma-separated values without a header row, one row
/// per upset, with its sample, its address and its value, the latter two hexadecimal. The defaults of `csv` apply:
/// empty lines are no rows, fields may be quoted, and a byte order mark at the start is skipped.
pub fn read_upsets(alloc: Global, text: &[u8], image: &Image) -> Result<Upsets, UpsetFault>
    requires { length text.now ≤ 1048576 }
    ensures upsets { IfOk result (SpellsUpsets image.now.bytes text.now) }
    ensures fault { IfErr result (λ f. f ≢ UpsetFault.Memory → HasUpsetFault image.now.bytes text.now f) }
{
    let rows = match first_rows(alloc, text) {
        Ok(rows) => rows,
        Err(_) => return Err(UpsetFault::Memory),
    };
    match upsets_in(alloc, image, &rows) {
        Ok(upsets) => Ok(List::new(upsets)),
        Err(fault) => Err(fault),
    }
}
