//! The forms that words may have.
ghost use Rattle.std.specs.Prelude.{◌≡◌, ◌≤◌, All, IfSome, option_map};
ghost use Rattle.std.specs.Char.{is_ascii_digit};
ghost use Rattle.std.specs.List.{list_all};
ghost use Rattle.fz_status.specs.Words.{flags_of};
ghost use Rattle.command_parts.specs.Words.{number_of, number_up_to};
ghost use Rattle.command_parts.specs.Words.{AreMillionths, numbers_in, targets_in, targets_with};

use arrayvec::ArrayVec;
use box_tree::CertKind;
use error_certifier::Targets;
use std::marker::Model;

/// Two hexadecimal digits, in either case.
pub fn flags(text: &str) -> Option<u8>
    ensures { result ≡ flags_of text.now }
{
    let mut out = [0u8; 1];
    match hex::decode_to_slice(text, &mut out) {
        Ok(()) => Some(out[0]),
        Err(_) => None,
    }
}

/// The greatest [`Number`].
const MOST: u32 = 1_000_000;

/// A number up to 1000000.
#[derive(Clone, Copy)]
pub struct Number {
    number: u32,
}

impl Model for Number {
    ghost use Rattle.std.specs.Prelude.{ℕ, ◌≤◌};

    ghost Value = { ℕ };

    ghost view = { λ n. n.number };

    ghost invariant = { λ n. n.number ≤ 1000000 };

    ghost inverse = { λ n. record { number = n } };
}

impl Number {
    pub fn get(self) -> u32
        ensures value { result ≡ self }
        ensures few { result ≤ 1000000 }
    {
        self.number
    }
}

fn are_digits(text: &str) -> bool
    ensures { result ≡ list_all is_ascii_digit text.now }
{
    text.as_bytes().iter().all(|b| b.is_ascii_digit())
}

/// The number of one or more decimal digits, up to 4294967295.
pub fn number32_in(text: &str) -> Option<u32>
    ensures { result ≡ number_up_to 4294967295 text.now }
{
    if !are_digits(text) {
        return None;
    }
    match text.parse::<u32>() {
        Ok(number) => Some(number),
        Err(_) => None,
    }
}

/// The number of one or more decimal digits, up to 1000000.
pub fn number_in(text: &str) -> Option<Number>
    ensures { result ≡ number_of text.now }
{
    match number32_in(text) {
        Some(number) if number <= MOST => Some(Number { number }),
        _ => None,
    }
}

/// The targets that the word TARGET gives, each at most 1000000.
#[derive(Drop)]
pub struct TargetWord {
    targets: Targets,
}

impl Model for TargetWord {
    ghost use Rattle.error_certifier.specs.declared.targets.Targets.{Targets};
    ghost use Rattle.command_parts.specs.Words.{AreMillionths};

    ghost Value = { Targets };

    ghost view = { λ word. word.targets };

    ghost invariant = { λ word. AreMillionths word.targets };
}

impl TargetWord {
    pub fn get(&self) -> &Targets
        ensures value { result.now ≡ self.now }
        ensures millionths { AreMillionths result.now }
    {
        &self.targets
    }
}

/// One to four numbers up to 1000000, separated by commas.
fn numbers_in(text: &str) -> Option<ArrayVec<u32, 4>>
    ensures value { option_map (λ numbers. numbers.items) result ≡ numbers_in 4 text.now }
    ensures millionths { IfSome result (λ numbers. All (λ n. n ≤ 1000000) numbers.items) }
{
    let mut numbers = ArrayVec::new();
    for part in text.split(',') {
        let number = number_in(part)?.get();
        if numbers.is_full() {
            return None;
        }
        numbers.push(number);
    }
    Some(numbers)
}

/// One number for all outputs, or one for each.
fn targets_with(numbers: ArrayVec<u32, 4>) -> Targets
    requires { All (λ n. n ≤ 1000000) numbers.items }
    ensures value { result ≡ targets_with numbers.items }
    ensures millionths { AreMillionths result }
{
    match numbers.as_slice() {
        [number] => Targets::All(*number),
        _ => Targets::Each(numbers),
    }
}

/// The targets of a certificate of this kind: a number up to 1000000, or, for a tight one, also two to
/// four separated by commas.
pub fn targets_in(kind: CertKind, text: &str) -> Option<TargetWord>
    ensures { result ≡ targets_in kind text.now }
{
    let targets = match kind {
        CertKind::Named => Targets::All(number_in(text)?.get()),
        CertKind::Tight => targets_with(numbers_in(text)?),
    };
    Some(TargetWord { targets })
}
