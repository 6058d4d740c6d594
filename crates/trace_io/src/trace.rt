//! Samples from rows.
ghost use Rattle.std.specs.Prelude.{◌≡◌, ◌≢◌, ◌<◌, ◌≤◌, ◌+◌, length, IfOk, IfErr, Some, map, MatchOption};
ghost use Rattle.std.specs.List.{All};
ghost use Rattle.csv.specs.Records.{fields_of};
ghost use Rattle.fuzzy_meaning.specs.Blocks.{IsValid, IsValidInput};
ghost use Rattle.byte_scaling.specs.Cells.{bytes_of};
ghost use Rattle.trace_io.specs.Traces.{decimals, AreWithin, IsFirstOutside, RowFails, SpellsSample, FirstFault};
ghost use Rattle.trace_io.specs.Traces.{SpellSamples, Spells, HasFault};

use crate::{Sample, TraceFault, first_rows};
use arrayvec::ArrayVec;
use byte_scaling::to_byte;
use csv::ByteRecord;
use fuzzy_meaning::{Block, Input};
use fz_list::List;
use fz_num::Dec;
use std::alloc::{AllocError, Global};

/// The most samples of a trace.
const MOST_SAMPLES: usize = 10000;

/// The decimals of a row's fields, or `None` if a field is no decimal.
fn decimals_of(alloc: Global, row: &ByteRecord) -> Result<Option<Vec<Dec>>, AllocError>
    ensures { IfOk result (λ values. MatchOption values (decimals (fields_of row.now) ≡ None)
        (λ v. decimals (fields_of row.now) ≡ Some v.items)) }
{
    let mut values = Vec::new(alloc);
    for i in 0..row.len() {
        match row.get(i) {
            Some(field) => match Dec::read(field) {
                Ok(value) => values.push(value)?,
                Err(_) => return Ok(None),
            },
            None => unreachable!(),
        }
    }
    Ok(Some(values))
}

/// The bytes of values in their inputs' ranges, or the number of the first input whose value is out of range.
fn bytes_in(inputs: &[Input], values: &[Dec]) -> Result<ArrayVec<u8, 8>, u8>
    requires valid { All IsValidInput inputs.now }
    requires few { length inputs.now ≤ 8 }
    requires count { length values.now ≡ length inputs.now }
    ensures within { IfOk result (λ bytes. AreWithin inputs.now values.now) }
    ensures bytes { IfOk result (λ bytes. bytes.items ≡ bytes_of inputs.now values.now) }
    ensures outside { IfErr result (IsFirstOutside inputs.now values.now) }
{
    let mut bytes = ArrayVec::new();
    for i in 0..inputs.len() {
        match to_byte(&inputs[i], values[i]) {
            Ok(byte) => bytes.push(byte),
            Err(_) => return Err(i as u8 + 1),
        }
    }
    Ok(bytes)
}

/// The sample of a row with this number.
fn sample_in(
    alloc: Global,
    inputs: &[Input],
    row: &ByteRecord,
    number: u32,
) -> Result<Sample, TraceFault>
    requires valid { All IsValidInput inputs.now }
    requires few { length inputs.now ≤ 8 }
    ensures sample { IfOk result (SpellsSample inputs.now (fields_of row.now)) }
    ensures fault { IfErr result (λ f. f ≢ TraceFault.Memory → RowFails inputs.now number (fields_of row.now) f) }
{
    if row.len() != inputs.len() {
        return Err(TraceFault::BadRow(number));
    }
    let values = match decimals_of(alloc, row) {
        Ok(Some(values)) => values,
        Ok(None) => return Err(TraceFault::BadRow(number)),
        Err(_) => return Err(TraceFault::Memory),
    };
    match bytes_in(inputs, &values) {
        Ok(bytes) => Ok(Sample {
            values: List::new(values),
            bytes,
        }),
        Err(input) => Err(TraceFault::OutOfRange(number, input)),
    }
}

/// The samples of rows, up to the first that fails.
fn samples_in(
    alloc: Global,
    inputs: &[Input],
    rows: &[ByteRecord],
) -> Result<Vec<Sample>, TraceFault>
    requires valid { All IsValidInput inputs.now }
    requires few { length inputs.now ≤ 8 }
    ensures samples { IfOk result (λ v. SpellSamples inputs.now (map fields_of rows.now) v.items) }
    ensures rows_few { IfOk result (λ v. length rows.now < 10001) }
    ensures few { IfOk result (λ v. length v.items ≤ 10000) }
    ensures bytes { IfOk result (λ v. All (λ s. length s.bytes.items ≡ length inputs.now) v.items) }
    ensures fault { IfErr result (λ f. f ≢ TraceFault.Memory → FirstFault inputs.now (map fields_of rows.now) f) }
{
    let mut samples = Vec::new(alloc);
    for (at, row) in rows.iter().enumerate() {
        if at == MOST_SAMPLES {
            return Err(TraceFault::TooMany);
        }
        let sample = sample_in(alloc, inputs, row, at as u32 + 1)?;
        match samples.push(sample) {
            Ok(()) => {}
            Err(_) => return Err(TraceFault::Memory),
        }
    }
    Ok(samples)
}

/// The samples that a text spells: comma-separated values without a header row, one row per sample and one decimal
/// per input. The defaults of `csv` apply: empty lines are no rows, fields may be quoted, and a byte order mark at
/// the start is skipped.
pub fn read_trace(alloc: Global, text: &[u8], block: &Block) -> Result<Vec<Sample>, TraceFault>
    requires small { length text.now ≤ 1048576 }
    requires valid { IsValid block.now }
    ensures samples { IfOk result (λ v. Spells block.now.inputs text.now v.items) }
    ensures few { IfOk result (λ v. length v.items ≤ 10000) }
    ensures bytes { IfOk result (λ v. All (λ s. length s.bytes.items ≡ length block.now.inputs) v.items) }
    ensures fault { IfErr result (λ f. f ≢ TraceFault.Memory → HasFault block.now.inputs text.now f) }
{
    let rows = match first_rows(alloc, text) {
        Ok(rows) => rows,
        Err(_) => return Err(TraceFault::Memory),
    };
    samples_in(alloc, block.inputs.as_slice(), &rows)
}
