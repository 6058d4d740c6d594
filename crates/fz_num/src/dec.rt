//! Decimals.
ghost use Rattle.std.specs.Prelude.{◌≡◌, ◌==◌, ◌+◌, ◌≤◌, min, fold, ◌≤ℤ◌, ◌++◌, drop};
ghost use Rattle.std.specs.List.{list_all, position_or_len, after_first};
ghost use Rattle.fz_num.specs.Decimals.{is_digit, is_point, are_digits, is_negative, without_sign, next_number};
ghost use Rattle.fz_num.specs.Decimals.{number, four_places};

/// A decimal with at most four places, kept as a whole number of 1/10000.
#[derive(Clone, Copy, PartialEq, Eq, PartialOrd, Ord, Debug)]
pub struct Dec(pub i64);

/// Why bytes spell no decimal.
#[derive(Clone, Copy, PartialEq, Eq, Debug)]
pub enum DecFault {
    /// They are not `[+|-]digits[.digits]`.
    Shape,
    /// A digit past the fourth place is not 0.
    Places,
    /// The magnitude is above 100000.
    Large,
}

/// The greatest magnitude, in 1/10000.
const GREATEST: u64 = 1_000_000_000;

/// The value at which counting stops.
const TOO_LARGE: u64 = GREATEST + 1;

impl Dec {
    ghost use Rattle.fz_num.specs.Decimals.{distance, decimal};

    /// The decimal that the bytes spell. Of several faults the first in the enum's order is reported.
    pub fn read(bytes: &[u8]) -> Result<Dec, DecFault>
        ensures { result ≡ decimal bytes.now }
    {
        let numeral = after_sign(bytes);
        let point = point_of(numeral);
        let whole = &numeral[..point];
        let places = after_point(numeral, point);
        if !all_digits(whole) || (point < numeral.len() && !all_digits(places)) {
            return Err(DecFault::Shape);
        }
        if !fits_four_places(places) {
            return Err(DecFault::Places);
        }
        let size = size_of_digits(whole, places);
        if size > GREATEST {
            return Err(DecFault::Large);
        }
        let size = size as i64;
        Ok(Dec(if leads_with_minus(bytes) { -size } else { size }))
    }

    /// How far it is above `lo`, in 1/10000.
    pub fn above(self, lo: Dec) -> u64
        requires { lo.0 ≤ℤ self.0 }
        ensures { result ≡ distance lo self }
    {
        (self.0 as i128 - lo.0 as i128) as u64
    }
}

fn leads_with_minus(bytes: &[u8]) -> bool
    ensures { result ≡ is_negative bytes.now }
{
    matches!(bytes, [b'-', ..])
}

fn after_sign(bytes: &[u8]) -> &[u8]
    ensures { result.now ≡ without_sign bytes.now }
{
    match bytes {
        [b'+' | b'-', rest @ ..] => rest,
        _ => bytes,
    }
}

/// The index of the point, or the length if there is none.
fn point_of(numeral: &[u8]) -> usize
    ensures { result ≡ position_or_len is_point numeral.now }
{
    numeral
        .iter()
        .position(|c| *c == b'.')
        .unwrap_or(numeral.len())
}

fn after_point(numeral: &[u8], point: usize) -> &[u8]
    requires { point ≡ position_or_len is_point numeral.now }
    ensures { result.now ≡ after_first is_point numeral.now }
{
    if point < numeral.len() {
        &numeral[point + 1..]
    } else {
        &[]
    }
}

fn all_digits(bytes: &[u8]) -> bool
    ensures { result ≡ are_digits bytes.now }
{
    !bytes.is_empty() && no_other_than_digits(bytes)
}

fn no_other_than_digits(bytes: &[u8]) -> bool
    ensures { result ≡ list_all is_digit bytes.now }
{
    bytes.iter().all(|c| *c >= b'0' && *c <= b'9')
}

fn fits_four_places(places: &[u8]) -> bool
    ensures { result ≡ list_all (λ c. c == 48) (drop 4 places.now) }
{
    places.iter().skip(4).all(|c| *c == b'0')
}

/// The digits before the point and four places as one number, or `TOO_LARGE` if the number is greater.
fn size_of_digits(whole: &[u8], places: &[u8]) -> u64
    ensures { result ≡ min (number (whole.now ++ four_places places.now)) TOO_LARGE }
{
    let place = |k: usize| places.get(k).copied().unwrap_or(b'0');
    with_digits(
        with_digits(0, whole),
        &[place(0), place(1), place(2), place(3)],
    )
}

fn with_digits(from: u64, digits: &[u8]) -> u64
    requires { from ≤ TOO_LARGE }
    ensures { result ≡ min (fold next_number from digits.now) TOO_LARGE }
{
    let mut n = from;
    for c in digits {
        n = (10 * n + u64::from(c.saturating_sub(b'0'))).min(TOO_LARGE);
    }
    n
}
