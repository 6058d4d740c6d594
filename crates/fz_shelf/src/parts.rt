//! Texts with numbers in them, put without allocating memory.
ghost use Rattle.std.specs.Prelude.{◌≡◌, ◌/◌, ◌%◌, [], ◌∷◌};
ghost use Rattle.hex.specs.Hex.{encode_upper};
ghost use Rattle.fz_shelf.specs.Parts.{address_digits, behind_blank, byte_digits, part_text, parts_text};
ghost use Rattle.fz_shelf.specs.Puts.{Puts};
ghost use Rattle.std.specs.List.{flat_map};

use crate::whole::put_all;
use crate::{Failed, Sink};
use itoa::Buffer;

/// A part of a text.
#[derive(Clone, Copy)]
pub enum Part<'a> {
    /// The bytes as they are.
    Text(&'a [u8]),
    /// The number in decimal.
    Number(u64),
    /// The address as four hexadecimal digits in upper case.
    Address(u16),
    /// The byte as two hexadecimal digits in upper case.
    Byte(u8),
    /// The bytes in decimal, each after a blank.
    Numbers(&'a [u8]),
}

/// Puts the parts one after the other.
pub fn put_parts<S: Sink>(sink: &mut S, parts: &[Part]) -> Result<(), Failed>
    ensures { Puts S.told S.reliable sink.old sink.new (parts_text parts.now) result }
{
    for part in parts {
        put_part(sink, part)?;
    }
    Ok(())
}

fn put_part<S: Sink>(sink: &mut S, part: &Part) -> Result<(), Failed>
    ensures { Puts S.told S.reliable sink.old sink.new (part_text part.now) result }
{
    match part {
        Part::Text(text) => put_all(sink, text),
        Part::Number(n) => {
            let mut buffer = Buffer::new();
            put_all(sink, buffer.format(*n).as_bytes())
        }
        Part::Address(address) => put_all(sink, &digits_of_address(*address)),
        Part::Byte(byte) => put_all(sink, &digits_of_byte(*byte)),
        Part::Numbers(numbers) => put_numbers(sink, numbers),
    }
}

fn put_numbers<S: Sink>(sink: &mut S, numbers: &[u8]) -> Result<(), Failed>
    ensures { Puts S.told S.reliable sink.old sink.new (flat_map behind_blank numbers.now) result }
{
    for number in numbers {
        put_behind_blank(sink, *number)?;
    }
    Ok(())
}

fn put_behind_blank<S: Sink>(sink: &mut S, number: u8) -> Result<(), Failed>
    ensures { Puts S.told S.reliable sink.old sink.new (behind_blank number) result }
{
    put_all(sink, b" ")?;
    let mut buffer = Buffer::new();
    put_all(sink, buffer.format(number).as_bytes())
}

const DIGITS: &[u8; 16] = b"0123456789ABCDEF";

#[tactic(auto, unfolding(hex::specs::Hex::encode_with))]
fn digits_of_byte(byte: u8) -> [u8; 2]
    ensures { result ≡ byte_digits byte }
{
    [
        DIGITS[usize::from(byte / 16)],
        DIGITS[usize::from(byte % 16)],
    ]
}

#[tactic(auto, unfolding(hex::specs::Hex::encode_with))]
fn digits_of_address(address: u16) -> [u8; 4]
    ensures { result ≡ address_digits address }
{
    let high = digits_of_byte((address / 256) as u8);
    let low = digits_of_byte((address % 256) as u8);
    [high[0], high[1], low[0], low[1]]
}
