//! What the lines of a source define.
ghost use Rattle.std.specs.Prelude.{ℕ, ◌≡◌, ◌≢◌, ◌≤◌, ◌<◌, ◌+◌, ◌*◌, ◌^◌, length, IfOk, IfErr, OnOk, Ok, Err, not};
ghost use Rattle.cpu12_asm.specs.{Expressions.sum_of, Names.value_in, Statements.statement_of, Told.statement_told};
ghost use Rattle.cpu12_asm.specs.Values.{fits, within, size_of, behind_of, with_value, is_given, defined};

use crate::expressions::{Names, Sum, expression};
use crate::faults::LineFault;
use crate::statements::{Action, Statement, part_count, read_line};
use std::alloc::Global;

/// Whether a sum's numbers are words and the sum is from 0 to a limit.
pub(crate) fn fits(limit: u16, sum: Sum) -> bool
    ensures { result ≡ fits limit sum }
{
    !sum.large && sum.taken <= sum.added && sum.added - sum.taken <= u128::from(limit)
}

/// The value of a sum, from 0 to a limit.
pub(crate) fn within(limit: u16, sum: Sum) -> Result<u16, LineFault>
    ensures { result ≡ within limit sum }
{
    if sum.unknown {
        Err(LineFault::UnknownName)
    } else if fits(limit, sum) {
        Ok((sum.added - sum.taken) as u16)
    } else {
        Err(LineFault::Range)
    }
}

/// How many bytes a line gives.
pub(crate) fn size(action: &Action, text: &[u8]) -> u64
    requires { length text.now ≤ 2 ^ 32 }
    ensures value { result ≡ size_of action.now text.now }
    ensures bound { result ≤ 2 ^ 34 }
{
    match action {
        Action::Nothing | Action::Origin | Action::Equate => 0,
        Action::Bytes => part_count(text) as u64,
        Action::Words => 2 * part_count(text) as u64,
        Action::Operate(encoding) => encoding.bytes().len() as u64,
    }
}

/// The value of a line's name, and the address after the line.
#[derive(Clone, Copy)]
pub(crate) struct Behind {
    pub value: u64,
    pub place: u64,
}

fn read_behind(
    names: &Names<'_>,
    place: u64,
    statement: &Statement<'_>,
) -> Result<Behind, LineFault>
    requires text { length statement.now.operand.now ≤ 2 ^ 32 }
    requires place { place ≤ 2 ^ 63 }
    ensures value { result
        ≡ behind_of (record {
          place = place;
          value = value_in names.now;
        }) statement.now.action statement.now.operand.now }
    ensures bound { IfOk result (λ n. n.place ≤ place + 2 ^ 34) }
{
    match statement.action {
        Action::Origin => match within(0xFFFF, expression(names, statement.operand)) {
            Ok(to) => Ok(Behind {
                value: place,
                place: u64::from(to),
            }),
            Err(fault) => Err(fault),
        },
        Action::Equate => match within(0xFFFF, expression(names, statement.operand)) {
            Ok(value) => Ok(Behind {
                value: u64::from(value),
                place,
            }),
            Err(fault) => Err(fault),
        },
        _ => Ok(Behind {
            value: place,
            place: place + size(&statement.action, statement.operand),
        }),
    }
}

/// Gives a name a value, if there is a name, and returns whether it had none before.
fn set_value<'a>(names: &mut Names<'a>, name: &'a [u8], value: u64) -> Result<bool, LineFault>
    ensures fresh { IfOk result (λ fresh. not fresh ≡ is_given (value_in names.old) name.now) }
    ensures ok { OnOk result (value_in names.new ≡ with_value (value_in names.old) name.now value) }
    ensures memory { IfErr result (λ fault. fault ≡ LineFault.Memory) }
{
    match name {
        [] => Ok(true),
        _ => match names.insert(name, value) {
            Ok(old) => Ok(old.is_none()),
            Err(_) => Err(LineFault::Memory),
        },
    }
}

fn is_given(names: &Names<'_>, name: &[u8]) -> bool
    ensures { result ≡ is_given (value_in names.now) name.now }
{
    match name {
        [] => false,
        _ => names.get(name).is_some(),
    }
}

/// Adds what a line defines, and returns the address after it.
pub(crate) fn define<'a>(
    alloc: Global,
    names: &mut Names<'a>,
    place: u64,
    line: &'a [u8],
) -> Result<u64, LineFault>
    requires line { length line.now ≤ 2 ^ 32 }
    requires place { place ≤ 2 ^ 63 }
    ensures ok { IfOk result (λ behind. defined (record { place = place; value = value_in names.old })
        (statement_of line.now) ≡ Ok (record { place = behind; value = value_in names.new })) }
    ensures err { IfErr result (λ fault. fault ≢ LineFault.Memory
        → defined (record { place = place; value = value_in names.old }) (statement_of line.now) ≡ Err fault) }
    ensures bound { IfOk result (λ behind. behind ≤ place + 2 ^ 34) }
{
    let Some(statement) = read_line(alloc, line) else {
        return Err(LineFault::BadLine);
    };
    match read_behind(names, place, &statement) {
        Ok(behind) => match set_value(names, statement.name, behind.value) {
            Ok(true) => Ok(behind.place),
            Ok(false) => Err(LineFault::Twice),
            Err(fault) => Err(fault),
        },
        Err(_) if is_given(names, statement.name) => Err(LineFault::Twice),
        Err(fault) => Err(fault),
    }
}
