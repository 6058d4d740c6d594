//! Rows of comma-separated text, field by field, and the texts of their numbers.
ghost use Rattle.std.specs.Prelude.{◌≡◌, ◌∷◌, ◌++◌, [], IfOk};
ghost use Rattle.workload.specs.Texts.{decimal_text, last_digit};

use itoa::Buffer;
use std::alloc::{AllocError, Global};

/// The text followed by a field, and the byte that ends the field.
pub(crate) fn with_field(mut text: Vec<u8>, field: &[u8], end: u8) -> Result<Vec<u8>, AllocError>
    ensures { IfOk result (λ t. t.items ≡ text.items ++ (field.now ++ (end ∷ []))) }
{
    text.extend_from_slice(field)?;
    text.push(end)?;
    Ok(text)
}

/// A number in 1/10000: its units, a point and four places.
pub(crate) fn decimal_of(alloc: Global, n: u32) -> Result<Vec<u8>, AllocError>
    ensures { IfOk result (λ text. text.items ≡ decimal_text n) }
{
    let mut buffer = Buffer::new();
    let mut text = Vec::from_slice(alloc, buffer.format(n / 10_000).as_bytes())?;
    let places = [
        b'.',
        last_digit(n / 1000),
        last_digit(n / 100),
        last_digit(n / 10),
        last_digit(n),
    ];
    text.extend_from_slice(&places)?;
    Ok(text)
}

fn last_digit(n: u32) -> u8
    ensures { result ≡ last_digit n }
{
    b'0' + (n % 10) as u8
}
