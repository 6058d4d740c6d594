//! Levels: interrupts whose handler answers fast samples, and is itself interrupted.
ghost use Rattle.std.specs.Prelude.{◌≡◌, ◌≢◌, ◌↔◌, ◌≤◌, ℕ, List as Items, [], length, map, All, IfOk, IfErr};
ghost use Rattle.std.specs.Prelude.{MatchOption, Some, IsTrue};
ghost use Rattle.std.specs.List.Sorted.{IsNonDecreasing};
ghost use Rattle.csv.specs.Records.{fields_of};
ghost use Rattle.interrupt_plan.specs.Levels.{IsGoodLevel, LevelNotAfter, LevelsHaveFault, SpellsLevel, SpellsLevels};
ghost use Rattle.interrupt_plan.specs.Levels.{no_writes, numbers_of};
ghost use Rattle.interrupt_plan.specs.{Rows.count_of, declared.levels.Level.Level as TheLevel};

use crate::PlanFault;
use crate::entry::{Entry, RowReader, is_no_later};
use crate::reader::entries_of;
use crate::row::{count_in, field_at};
use arrayvec::ArrayVec;
use cpu12_isa::instr::Write;
use csv::ByteRecord;
use fz_list::List;
use std::alloc::{AllocError, Global};

/// An interrupt whose handler answers a fast sample, and the interrupts that come meanwhile.
#[derive(Drop)]
pub struct Level {
    /// The slow sample that is interrupted, counted from 1.
    pub sample: u32,
    /// The least number of its steps that are done before the interrupt.
    pub moment: u32,
    /// The fast sample that the handler answers, counted from 1, or 0 for none.
    pub fast: u32,
    /// The least number of the handler's steps that are done before each of its interrupts. The numbers do not
    /// decrease, and there are none if there is no fast sample.
    pub inner: ArrayVec<u32, 8>,
}

/// Levels that ascend by sample and then by moment, at most 10000 of them.
pub type Levels = List<Level>;

/// The most numbers of a row: three, and eight inner moments.
const MOST_NUMBERS: usize = 11;

/// The numbers of a row, one per field.
fn numbers_in(row: &ByteRecord) -> Option<ArrayVec<u32, 11>>
    ensures { MatchOption result
        ((ns : Items ℕ) → map count_of (fields_of row.now) ≡ map Some ns → length ns ≤ 11 → ⊥)
        (λ v. map count_of (fields_of row.now) ≡ map Some v.items) }
{
    let mut numbers = ArrayVec::new();
    for at in 0..row.len() {
        if at == MOST_NUMBERS {
            return None;
        }
        numbers.push(count_in(field_at(row, at))?);
    }
    Some(numbers)
}

/// Whether no moment is below the one before it.
fn rises(moments: &[u32]) -> bool
    ensures { IsTrue result ↔ IsNonDecreasing moments.now }
{
    moments.is_sorted()
}

/// Whether there is a fast sample, or no moment.
fn is_answered(fast: u32, moments: &[u32]) -> bool
    ensures { IsTrue result ↔ (fast ≡ 0 → moments.now ≡ []) }
{
    fast > 0 || moments.is_empty()
}

/// The good level of these numbers, with the given number of fast samples.
fn level_of(numbers: &[u32], fast: u32) -> Option<Level>
    requires { All (λ n. n ≤ 999999999) numbers.now }
    ensures { MatchOption result ((l : TheLevel) → numbers.now ≡ numbers_of l → IsGoodLevel fast l → ⊥)
        (λ l. (numbers.now ≡ numbers_of l) × IsGoodLevel fast l) }
{
    let [sample, moment, answered, inner @ ..] = numbers else {
        return None;
    };
    if *sample == 0 || *answered > fast || !rises(inner) || !is_answered(*answered, inner) {
        return None;
    }
    match ArrayVec::try_from(inner) {
        Ok(inner) => Some(Level {
            sample: *sample,
            moment: *moment,
            fast: *answered,
            inner,
        }),
        Err(_) => None,
    }
}

/// The level that a row spells, with the given number of fast samples.
fn level_in(row: &ByteRecord, fast: u32) -> Option<Level>
    ensures { MatchOption result ((l : TheLevel) → SpellsLevel fast (fields_of row.now) l → ⊥)
        (SpellsLevel fast (fields_of row.now)) }
{
    let numbers = numbers_in(row)?;
    level_of(numbers.as_slice(), fast)
}

impl Entry for Level {
    ghost written = { no_writes };

    ghost not_after = { LevelNotAfter };

    fn writes(&self) -> &[Write] {
        &[]
    }

    fn is_not_after(&self, other: &Level) -> bool {
        is_no_later((self.sample, self.moment), (other.sample, other.moment))
    }
}

/// Reads rows of levels, with the given number of fast samples.
#[derive(Drop)]
struct LevelReader {
    fast: u32,
}

impl RowReader<Level> for LevelReader {
    ghost spells = { λ reader. SpellsLevel reader.fast };

    fn read(&self, _alloc: Global, row: &ByteRecord) -> Result<Option<Level>, AllocError> {
        Ok(level_in(row, self.fast))
    }
}

/// The levels that a text spells, with the given number of fast samples: a row per level, with the slow sample and
/// a moment in it, the fast sample that is answered there or 0 for none, and up to eight inner moments.
pub fn read_levels(alloc: Global, text: &[u8], fast: u32) -> Result<Levels, PlanFault>
    requires { length text.now ≤ 1048576 }
    ensures levels { IfOk result (SpellsLevels fast text.now) }
    ensures fault { IfErr result (λ f. f ≢ PlanFault.Memory → LevelsHaveFault fast text.now f) }
{
    entries_of(alloc, text, &LevelReader { fast })
}
