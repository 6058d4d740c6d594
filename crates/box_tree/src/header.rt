//! The first two lines of a certificate's text.
ghost use Rattle.std.specs.Prelude.{◌≡◌, ◌≢◌, ◌≤◌, ◌<◌, ◌↔◌, ℕ, List, [], ◌∷◌, ◌++◌, length, MatchOption, IfSome};
ghost use Rattle.std.specs.Prelude.{IsTrue};
ghost use Rattle.box_tree.specs.Certificates.{AreClaims};
ghost use Rattle.box_tree.specs.Texts.{version_line, claim_line};

use crate::cert::CertFormat;
use crate::text::numbers_of;
use arrayvec::ArrayVec;

/// The most claims of a certificate.
const MOST_CLAIMS: usize = 4;

/// What follows the line of the version at the front of a text.
pub(crate) fn behind_version(format: CertFormat, text: &[u8]) -> Option<&[u8]>
    ensures shorter { IfSome result (λ rest. length rest.now < length text.now) }
    ensures line { MatchOption result ((rest : List ℕ) → text.now ≢ version_line format ++ rest)
        (λ rest. text.now ≡ version_line format ++ rest.now) }
{
    let (numbers, rest) = numbers_of(b"FZC", text)?;
    if is_just(numbers.as_slice(), format.version()) {
        Some(rest)
    } else {
        None
    }
}

fn is_just(numbers: &[u32], number: u32) -> bool
    ensures { IsTrue result ↔ (numbers.now ≡ number ∷ []) }
{
    match numbers {
        [only] => *only == number,
        _ => false,
    }
}

/// The claims of the line at the front of a text, and what follows it.
pub(crate) fn claims_at(text: &[u8]) -> Option<(ArrayVec<u32, 4>, &[u8])>
    ensures shorter { IfSome result (λ r. length r.1.now < length text.now) }
    ensures claims { MatchOption result ((claims behind : List ℕ) → AreClaims claims
        → text.now ≢ claim_line claims ++ behind)
        (λ r. AreClaims r.0.items × (text.now ≡ claim_line r.0.items ++ r.1.now)) }
{
    let (numbers, rest) = numbers_of(b"claim", text)?;
    if numbers.is_empty() || numbers.len() > MOST_CLAIMS {
        return None;
    }
    Some((copy_of(numbers.as_slice()), rest))
}

/// The claims, copied into a new vector.
pub(crate) fn copy_of(claims: &[u32]) -> ArrayVec<u32, 4>
    requires { length claims.now ≤ MOST_CLAIMS }
    ensures { result.items ≡ claims.now }
{
    let mut copy = ArrayVec::new();
    for claim in claims {
        copy.push(*claim);
    }
    copy
}
