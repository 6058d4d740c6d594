//! Plans and posts from rows.
ghost use Rattle.std.specs.Prelude.{◌≡◌, ◌≢◌, ◌<◌, ◌≤◌, List as Items, [], ◌∷◌, ◌++◌, length, map, IfOk, IfErr};
ghost use Rattle.csv.specs.Records.{fields_of};
ghost use Rattle.interrupt_plan.specs.{Plans.HasFault, Plans.Spells, Posts.PostsHaveFault, Posts.SpellsPosts};
ghost use Rattle.interrupt_plan.specs.Rows.{AreFree, AreInOrder, FirstFault, HasFirstFault, RowFails, SpellAll};
ghost use Rattle.interrupt_plan.specs.Rows.{SpellsText};

use crate::entry::{Entry, PostReader, RequestReader, RowReader};
use crate::row::first_taken;
use crate::{Plan, PlanFault, Posts};
use csv::ByteRecord;
use fz_list::List;
use std::alloc::Global;
use trace_io::first_rows;

/// The most rows.
const MOST_ROWS: usize = 10000;

/// The entry of a row with this number, after those of the rows above it.
fn next_entry<E: Entry, R: RowReader<E>>(
    alloc: Global,
    before: &[E],
    row: &ByteRecord,
    number: u32,
    reader: &R,
) -> Result<E, PlanFault>
    ensures entry { IfOk result (R.spells reader.now (fields_of row.now)) }
    ensures free { IfOk result (λ e. AreFree (E.written e)) }
    ensures ascends { IfOk result (λ e. (front : Items E) (last : E)
        → before.now ≡ front ++ last ∷ [] → E.not_after last e) }
    ensures fault { IfErr result (λ f. f ≢ PlanFault.Memory
        → RowFails (R.spells reader.now) E.written E.not_after before.now number (fields_of row.now) f) }
{
    let entry = match reader.read(alloc, row) {
        Ok(Some(entry)) => entry,
        Ok(None) => return Err(PlanFault::BadRow(number)),
        Err(_) => return Err(PlanFault::Memory),
    };
    if let Some(at) = first_taken(entry.writes()) {
        return Err(PlanFault::NotFree(number, at));
    }
    match before.last() {
        Some(last) if !last.is_not_after(&entry) => Err(PlanFault::NotAscending(number)),
        _ => Ok(entry),
    }
}

/// The entries of rows, up to the first row that fails.
fn entries_in<E: Entry, R: RowReader<E>>(
    alloc: Global,
    rows: &[ByteRecord],
    reader: &R,
) -> Result<Vec<E>, PlanFault>
    ensures entries { IfOk result (λ v. SpellAll (R.spells reader.now) (map fields_of rows.now) v.items) }
    ensures few { IfOk result (λ v. length rows.now < 10001) }
    ensures order { IfOk result (λ v. AreInOrder E.written E.not_after v.items) }
    ensures fault { IfErr result (λ f. f ≢ PlanFault.Memory
        → FirstFault (R.spells reader.now) E.written E.not_after (map fields_of rows.now) f) }
{
    let mut entries = Vec::new(alloc);
    for (at, row) in rows.iter().enumerate() {
        if at == MOST_ROWS {
            return Err(PlanFault::TooMany);
        }
        let entry = match next_entry(alloc, &entries, row, at as u32 + 1, reader) {
            Ok(entry) => entry,
            Err(fault) => return Err(fault),
        };
        match entries.push(entry) {
            Ok(()) => {}
            Err(_) => return Err(PlanFault::Memory),
        }
    }
    Ok(entries)
}

/// The entries that a text spells: comma-separated values without a header row, one row per entry, with two
/// numbers and up to eight pairs of an address and a value, both hexadecimal. The defaults of `csv` apply: empty
/// lines are no rows, fields may be quoted, and a byte order mark at the start is skipped.
pub(crate) fn entries_of<E: Entry, R: RowReader<E>>(
    alloc: Global,
    text: &[u8],
    reader: &R,
) -> Result<List<E>, PlanFault>
    ensures entries { IfOk result (SpellsText (R.spells reader.now) (AreInOrder E.written E.not_after) text.now) }
    ensures fault { IfErr result (λ f. f ≢ PlanFault.Memory
        → HasFirstFault (R.spells reader.now) E.written E.not_after text.now f) }
{
    let rows = match first_rows(alloc, text) {
        Ok(rows) => rows,
        Err(_) => return Err(PlanFault::Memory),
    };
    match entries_in(alloc, &rows, reader) {
        Ok(entries) => Ok(List::new(entries)),
        Err(fault) => Err(fault),
    }
}

/// The plan that a text spells: a row per request, with its sample, its moment and its writes.
pub fn read_plan(alloc: Global, text: &[u8]) -> Result<Plan, PlanFault>
    requires { length text.now ≤ 1048576 }
    ensures plan { IfOk result (Spells text.now) }
    ensures fault { IfErr result (λ f. f ≢ PlanFault.Memory → HasFault text.now f) }
{
    entries_of(alloc, text, &RequestReader)
}

/// The posts that a text spells, with the given number of samples: a row per post, with its moment, its sample and
/// its writes.
pub fn read_posts(alloc: Global, text: &[u8], samples: u32) -> Result<Posts, PlanFault>
    requires { length text.now ≤ 1048576 }
    ensures posts { IfOk result (SpellsPosts samples text.now) }
    ensures fault { IfErr result (λ f. f ≢ PlanFault.Memory → PostsHaveFault samples text.now f) }
{
    entries_of(alloc, text, &PostReader { samples })
}
