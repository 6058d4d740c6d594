//! The values of operands, and the bytes of source lines.
ghost use Rattle.std.specs.Prelude.{ℕ, ◌≡◌, ◌≢◌, ◌≤◌, ◌+◌, ◌^◌, ◌-◌, ◌%◌, length, map, drop, slice_index};
ghost use Rattle.std.specs.Prelude.{if◌then◌else◌, Some, None, List, ◌∷◌, IfOk, IfErr, Ok, Err};
ghost use Rattle.std.specs.List.{flat_map};
ghost use Rattle.cpu12_isa.specs.Memory.{low_of};
ghost use Rattle.cpu12_asm.specs.{Lines.pieces, Names.value_in, Values.fits};
ghost use Rattle.cpu12_asm.specs.Giving.{operand_limits, limits_of, any_unknown, values_from, values_of};
ghost use Rattle.cpu12_asm.specs.Giving.{values_within, operand_with, is_far, word_bytes, bytes_with, branches_far};

use crate::expressions::{Names, Sum, expression};
use crate::faults::LineFault;
use crate::lines::cut;
use crate::statements::Action;
use crate::values::fits;
use cpu12_isa::encodings::{Encoding, Operand};
use cpu12_isa::mem::{high_of, low_of};
use std::alloc::{AllocError, Global};

/// The greatest values allowed for an operand's first expression and for the others, and whether a `#` precedes
/// them.
#[derive(Clone, Copy)]
pub(crate) struct Limits {
    pub first: u16,
    pub other: u16,
    pub immediate: bool,
}

fn up_to(first: u16, other: u16, immediate: bool) -> Option<Limits>
    ensures { result ≡ Some (record { first = first; other = other; immediate = immediate }) }
{
    Some(Limits {
        first,
        other,
        immediate,
    })
}

fn operand_limits(operand: &Operand) -> Option<Limits>
    ensures { result ≡ operand_limits operand.now }
{
    match operand {
        Operand::Byte(_) => up_to(0xFF, 0xFF, true),
        Operand::Word(_) => up_to(0xFFFF, 0xFFFF, true),
        Operand::Address(_) | Operand::Offset(_) => up_to(0xFFFF, 0xFFFF, false),
        Operand::ByteToAddress(_, _) => up_to(0xFF, 0xFFFF, true),
        Operand::AddressToAddress(_, _) => up_to(0xFFFF, 0xFFFF, false),
        Operand::Inherent | Operand::XToD | Operand::YToD | Operand::PostIncrementX => None,
    }
}

fn limits_of(action: &Action) -> Option<Limits>
    ensures { result ≡ limits_of action.now }
{
    match action {
        Action::Bytes => up_to(0xFF, 0xFF, false),
        Action::Words => up_to(0xFFFF, 0xFFFF, false),
        Action::Operate(encoding) => operand_limits(&encoding.operand),
        Action::Nothing | Action::Origin | Action::Equate => None,
    }
}

fn any_unknown(names: &Names<'_>, text: &[u8]) -> bool
    requires { length text.now ≤ 2 ^ 32 }
    ensures { result ≡ any_unknown (value_in names.now) (pieces 0x2C text.now) }
{
    let mut left = Some(text);
    while let Some(parts) = left {
        let (part, rest) = cut(parts, b',');
        if expression(names, part).unknown {
            return true;
        }
        left = rest;
    }
    false
}

/// The value of a sum, if it is from 0 to a limit.
fn value_up_to(limit: u16, sum: Sum) -> Option<u16>
    ensures { result ≡ (if fits limit sum then Some (sum.added - sum.taken) else None) }
{
    if fits(limit, sum) {
        Some((sum.added - sum.taken) as u16)
    } else {
        None
    }
}

#[tactic(auto, using(crate::proofs::Valuing::valuing))]
fn values_from(
    alloc: Global,
    names: &Names<'_>,
    limits: Limits,
    text: &[u8],
) -> Result<Vec<u16>, LineFault>
    requires { length text.now ≤ 2 ^ 32 }
    ensures ok { IfOk result (λ vs. values_from (value_in names.now) limits.first limits.other (pieces 0x2C text.now)
        ≡ Ok vs.items) }
    ensures err { IfErr result
        (λ f. f ≢ LineFault.Memory
        → values_from (value_in names.now) limits.first limits.other (pieces 0x2C text.now) ≡ Err f) }
{
    let mut values = Vec::new(alloc);
    let mut limit = limits.first;
    let mut left = Some(text);
    while let Some(parts) = left {
        let (part, rest) = cut(parts, b',');
        let Some(value) = value_up_to(limit, expression(names, part)) else {
            return Err(LineFault::Range);
        };
        match values.push(value) {
            Ok(()) => {}
            Err(_) => return Err(LineFault::Memory),
        }
        limit = limits.other;
        left = rest;
    }
    Ok(values)
}

fn values_of(
    alloc: Global,
    names: &Names<'_>,
    limits: Limits,
    text: &[u8],
) -> Result<Vec<u16>, LineFault>
    requires { length text.now ≤ 2 ^ 32 }
    ensures ok { IfOk result (λ vs. values_of (value_in names.now) limits.first limits.other text.now ≡ Ok vs.items) }
    ensures err { IfErr result
        (λ f. f ≢ LineFault.Memory → values_of (value_in names.now) limits.first limits.other text.now ≡ Err f) }
{
    if any_unknown(names, text) {
        Err(LineFault::UnknownName)
    } else {
        values_from(alloc, names, limits, text)
    }
}

/// A text without its first byte.
fn without_first(text: &[u8]) -> &[u8]
    ensures value { result.now ≡ drop 1 text.now }
    ensures bound { length result.now ≤ length text.now }
{
    match text {
        [] => text,
        [_, rest @ ..] => rest,
    }
}

/// The values of a line's operand.
pub(crate) fn values_within(
    alloc: Global,
    names: &Names<'_>,
    action: &Action,
    text: &[u8],
) -> Result<Vec<u16>, LineFault>
    requires { length text.now ≤ 2 ^ 32 }
    ensures ok { IfOk result (λ vs. values_within (value_in names.now) text.now (limits_of action.now) ≡ Ok vs.items) }
    ensures err { IfErr result
        (λ f. f ≢ LineFault.Memory → values_within (value_in names.now) text.now (limits_of action.now) ≡ Err f) }
{
    match limits_of(action) {
        None => Ok(Vec::new(alloc)),
        Some(limits) if limits.immediate => values_of(alloc, names, limits, without_first(text)),
        Some(limits) => values_of(alloc, names, limits, text),
    }
}

fn value_at(values: &[u16], k: usize) -> u16
    ensures { result ≡ slice_index values.now k }
{
    if k < values.len() { values[k] } else { 0 }
}

fn offset(place: u32, target: u16) -> u8
    requires { place ≤ 2 ^ 16 }
    ensures { result ≡ (target + 2 ^ 17 - (place + 2)) % 2 ^ 8 }
{
    ((u32::from(target) + 0x2_0000 - (place + 2)) % 0x100) as u8
}

/// The instruction of a shape with its values, at an address.
fn operand_with(place: u32, values: &[u16], operand: &Operand) -> Operand
    requires { place ≤ 2 ^ 16 }
    ensures { result ≡ operand_with place values.now operand.now }
{
    let first = value_at(values, 0);
    let second = value_at(values, 1);
    match *operand {
        Operand::Byte(_) => Operand::Byte(low_of(first)),
        Operand::Word(_) => Operand::Word(first),
        Operand::Address(_) => Operand::Address(first),
        Operand::Offset(_) => Operand::Offset(offset(place, first)),
        Operand::ByteToAddress(_, _) => Operand::ByteToAddress(low_of(first), second),
        Operand::AddressToAddress(_, _) => Operand::AddressToAddress(first, second),
        Operand::Inherent => Operand::Inherent,
        Operand::XToD => Operand::XToD,
        Operand::YToD => Operand::YToD,
        Operand::PostIncrementX => Operand::PostIncrementX,
    }
}

fn is_far(place: u32, values: &[u16], operand: &Operand) -> bool
    requires { place ≤ 2 ^ 16 }
    ensures { result ≡ is_far place values.now operand.now }
{
    let target = u32::from(value_at(values, 0));
    match operand {
        Operand::Offset(_) => !(place + 2 <= target + 128 && target <= place + 2 + 127),
        _ => false,
    }
}

/// Whether a line's branch is too far from its target.
pub(crate) fn branches_far(place: u32, action: &Action, values: &[u16]) -> bool
    requires { place ≤ 2 ^ 16 }
    ensures { result ≡ branches_far place action.now values.now }
{
    match action {
        Action::Operate(encoding) => is_far(place, values, &encoding.operand),
        _ => false,
    }
}

fn low_bytes(alloc: Global, values: &[u16]) -> Result<Vec<u8>, AllocError>
    ensures { IfOk result (λ bytes. bytes.items ≡ map low_of values.now) }
{
    values.iter().map(|v| low_of(*v)).collect(alloc)
}

fn both_bytes(alloc: Global, values: &[u16]) -> Result<Vec<u8>, AllocError>
    ensures { IfOk result (λ bytes. bytes.items ≡ flat_map word_bytes values.now) }
{
    let mut bytes = Vec::new(alloc);
    for v in values {
        bytes.push(high_of(*v))?;
        bytes.push(low_of(*v))?;
    }
    Ok(bytes)
}

/// The bytes of a line at an address.
pub(crate) fn bytes_with(
    alloc: Global,
    place: u32,
    action: &Action,
    values: &[u16],
) -> Result<Vec<u8>, AllocError>
    requires { place ≤ 2 ^ 16 }
    ensures { IfOk result (λ bytes. bytes.items ≡ bytes_with place action.now values.now) }
{
    match action {
        Action::Bytes => low_bytes(alloc, values),
        Action::Words => both_bytes(alloc, values),
        Action::Operate(encoding) => {
            let filled = Encoding {
                operand: operand_with(place, values, &encoding.operand),
                ..*encoding
            };
            filled.bytes().as_slice().to_vec(alloc)
        }
        Action::Nothing | Action::Origin | Action::Equate => Ok(Vec::new(alloc)),
    }
}
