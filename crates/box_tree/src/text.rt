//! Lines of a word and numbers.
ghost use Rattle.std.specs.Prelude.{◌≡◌, ◌≢◌, ◌≤◌, ◌+◌, ℕ, List, ◌++◌, length, min, MatchOption, All, decimal};
ghost use Rattle.box_tree.specs.Numbers.{EndsNumber, digits_len_of, is_plain_numeral, number_behind};
ghost use Rattle.box_tree.specs.Texts.{line};

use arrayvec::ArrayVec;

/// The greatest number of a line.
pub(crate) const GREATEST: u32 = 1_000_000;

/// The most numbers of a line.
const MOST_NUMBERS: usize = 8;

/// How many digits are at the front of a text.
fn digits_len(text: &[u8]) -> usize
    ensures { result ≡ digits_len_of text.now }
{
    text.iter()
        .position(|c| !c.is_ascii_digit())
        .unwrap_or(text.len())
}

/// Whether there is a digit, and no superfluous leading zero.
fn is_plain(digits: &[u8]) -> bool
    ensures { result ≡ is_plain_numeral digits.now }
{
    match digits {
        [] => false,
        [_] => true,
        [first, ..] => *first != b'0',
    }
}

/// The number that digits spell, or one more than the greatest if that is less.
fn value_of(digits: &[u8]) -> u32
    ensures { result ≡ min (number_behind 0 digits.now) (GREATEST + 1) }
{
    let mut value: u32 = 0;
    for digit in digits {
        value = (10 * value + u32::from(digit.saturating_sub(b'0'))).min(GREATEST + 1);
    }
    value
}

/// The number at the front of a text, if it is not above the greatest, and what follows it.
fn number(text: &[u8]) -> Option<(u32, &[u8])>
    ensures { MatchOption result ((n : ℕ) (rest : List ℕ) → n ≤ GREATEST → EndsNumber rest
        → text.now ≢ decimal n ++ rest)
        (λ r. (r.0 ≤ GREATEST) × EndsNumber r.1.now × (text.now ≡ decimal r.0 ++ r.1.now)) }
{
    let (digits, rest) = text.split_at(digits_len(text));
    let value = value_of(digits);
    if is_plain(digits) && value <= GREATEST {
        Some((value, rest))
    } else {
        None
    }
}

/// What follows a word at the front of a text.
pub(crate) fn after<'a>(word: &[u8], text: &'a [u8]) -> Option<&'a [u8]>
    ensures { MatchOption result ((rest : List ℕ) → text.now ≢ word.now ++ rest)
        (λ rest. text.now ≡ word.now ++ rest.now) }
{
    text.strip_prefix(word)
}

/// The numbers of the line of this word at the front of a text, and what follows it.
pub(crate) fn numbers_of<'a>(word: &[u8], text: &'a [u8]) -> Option<(ArrayVec<u32, 8>, &'a [u8])>
    ensures { MatchOption result ((ns behind : List ℕ) → length ns ≤ 8 → All (λ n. n ≤ GREATEST) ns
        → text.now ≢ line word.now ns ++ behind)
        (λ r. (length r.0.items ≤ 8) × All
        (λ n. n ≤ GREATEST) r.0.items × (text.now ≡ line word.now r.0.items ++ r.1.now)) }
{
    let mut rest = after(word, text)?;
    let mut numbers = ArrayVec::new();
    loop {
        if let Some(behind) = after(b"\n", rest) {
            return Some((numbers, behind));
        }
        if numbers.len() == MOST_NUMBERS {
            return None;
        }
        let (next, behind) = number(after(b" ", rest)?)?;
        numbers.push(next);
        rest = behind;
    }
}
