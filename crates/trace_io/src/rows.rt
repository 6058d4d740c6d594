//! Rows of comma-separated text.
ghost use Rattle.std.specs.Prelude.{◌≡◌, IfOk, map};
ghost use Rattle.csv.specs.Records.{fields_of};
ghost use Rattle.trace_io.specs.FirstRows.{AreFirstRows, is_want_of_memory};

use csv::{ByteRecord, ErrorKind, ReaderBuilder};
use std::alloc::{AllocError, Global};

/// One more row than a caller accepts.
const MOST: usize = 10001;

/// Whether a fault implies nothing about the text: memory ran out, or the source failed, which bytes in memory do
/// not.
fn is_want_of_memory(kind: &ErrorKind) -> bool
    ensures { result ≡ is_want_of_memory kind.now }
{
    matches!(kind, ErrorKind::OutOfMemory | ErrorKind::Io(_))
}

/// The rows of a text without a header row, at most 10001 of them.
pub fn first_rows(alloc: Global, text: &[u8]) -> Result<Vec<ByteRecord>, AllocError>
    ensures { IfOk result (λ rows. AreFirstRows text.now (map fields_of rows.items)) }
{
    let reader = ReaderBuilder::new()
        .has_headers(false)
        .flexible(true)
        .from_reader(alloc, text);
    let mut rows = Vec::new(alloc);
    for row in reader.into_byte_records() {
        match row {
            Ok(row) => rows.push(row)?,
            Err(fault) => {
                prove!(is_want_of_memory(fault.kind()));
                return Err(AllocError);
            }
        }
        if rows.len() == MOST {
            return Ok(rows);
        }
    }
    Ok(rows)
}
