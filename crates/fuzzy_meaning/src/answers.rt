//! Exact answers.
ghost use Rattle.std.specs.Prelude.{◌≡◌, ◌↔◌, ◌+◌, ◌-◌, ◌*◌, ◌<◌, ◌≤◌, None, Some, IfSome, MatchOption, [], ◌∷◌};
ghost use Rattle.std.specs.Prelude.{length, ◌<ℤ◌, ◌≤ℤ◌, ◌*ℤ◌, pos, neg_ℤ, unsigned_abs};
ghost use Rattle.fz_num.specs.Fractions.{Quotient, IsValueOf};
ghost use Rattle.fuzzy_meaning.specs.Blocks.{IsValid, AreInputs, output_at};
ghost use Rattle.fuzzy_meaning.specs.Holding.{share_of, shares_of, AreSmall, IsSmall, Reduces};
ghost use Rattle.fuzzy_meaning.specs.Meaning.{shares, heavy_shares, heavy_terms, answer_after, weighted_sum};
ghost use Rattle.fuzzy_meaning.specs.Meaning.{total_mass, resting as resting_answer};

use crate::block::{Block, Output};
use crate::masses::mass;
use fz_num::{Dec, Frac};

/// A term that has a mass: its singleton and its mass.
#[derive(Clone, Copy)]
struct Heavy {
    at: Dec,
    mass: Frac,
}

/// The terms that have a mass, at most two.
#[derive(Clone, Copy)]
enum Held {
    Nothing,
    One(Heavy),
    Two(Heavy, Heavy),
}

impl Held {
    /// With one more in front, or `None` if there are two.
    fn with(self, term: Heavy) -> Option<Held>
        requires held { AreSmall self }
        requires term { IsSmall term }
        ensures terms { MatchOption result (length (shares_of self) ≡ 2)
            (λ h. shares_of h ≡ share_of term ∷ shares_of self) }
        ensures small { IfSome result AreSmall }
    {
        match self {
            Held::Nothing => Some(Held::One(term)),
            Held::One(other) => Some(Held::Two(term, other)),
            Held::Two(..) => None,
        }
    }

    /// The singletons weighted by their masses, in units of 1, if there is a mass.
    fn centre(self) -> Option<Frac>
        requires { AreSmall self }
        ensures none { (result ≡ None) ↔ (shares_of self ≡ []) }
        ensures num { IfSome result (λ f. f.num ≡ weighted_sum (shares_of self)) }
        ensures den { IfSome result (λ f. f.den ≡ pos (total_mass (shares_of self) * 10000)) }
    {
        match self {
            Held::Nothing => None,
            Held::One(a) => {
                let n = a.mass.num as u128;
                Some(Frac {
                    num: times(a.at, n),
                    den: (n * 10_000) as i128,
                })
            }
            Held::Two(a, b) => {
                let n = a.mass_over(b);
                let m = b.mass_over(a);
                Some(Frac {
                    num: times(a.at, n) + times(b.at, m),
                    den: ((n + m) * 10_000) as i128,
                })
            }
        }
    }
}

impl Heavy {
    /// The numerator of its mass, over the denominator of both.
    fn mass_over(self, other: Heavy) -> u128
        requires this { IsSmall self }
        requires other { IsSmall other }
        ensures value { result ≡ unsigned_abs self.mass.num * unsigned_abs other.mass.den }
        ensures bound { result ≤ 1600000000000000000000000000 }
    {
        self.mass.num as u128 * other.mass.den as u128
    }
}

fn times(at: Dec, n: u128) -> i128
    requires low { neg_ℤ (pos 1000010000) ≤ℤ at.0 }
    requires high { at.0 ≤ℤ pos 1000010000 }
    requires n { n ≤ 1600000000000000000000000000 }
    ensures value { result ≡ at.0 *ℤ pos n }
    ensures above { neg_ℤ (pos 1600016000000000000000000000000000000) ≤ℤ result }
    ensures below { result ≤ℤ pos 1600016000000000000000000000000000000 }
{
    i128::from(at.0) * n as i128
}

/// The exact answer of an output to a sample `xs`, in units of 1, where `before` is its previous answer: the
/// singletons weighted by their masses; if no term has a mass, the DEFAULT, and with NC `before`, whatever it is.
/// The result is `None` exactly where more than two terms have a mass: their common denominator could exceed 128
/// bits.
pub fn exact(block: &Block, out: u8, xs: &[Dec], before: Frac) -> Option<Frac>
    requires block { IsValid block.now }
    requires out_from { 1 ≤ out }
    requires out_to { out ≤ length block.now.outputs }
    requires xs { AreInputs block.now xs.now }
    requires before { pos 0 <ℤ before.den }
    ensures none { (result ≡ None) ↔ (2 < heavy_terms block.now out xs.now) }
    ensures answer { IfSome result (λ f. (q : Quotient) → IsValueOf q before
        → IsValueOf (answer_after block.now out q xs.now) f) }
{
    let output = &block.outputs.as_slice()[out as usize - 1];
    let held = held_terms(block, out, output, xs)?;
    match held.centre() {
        Some(answer) => Some(answer),
        None => Some(resting(output, before)),
    }
}

/// The DEFAULT, or with NC the previous answer.
fn resting(output: &Output, before: Frac) -> Frac
    ensures { (q : Quotient) → IsValueOf q before → IsValueOf (resting_answer output.now q) result }
{
    match output.default {
        Some(number) => Frac {
            num: i128::from(number.0),
            den: 10_000,
        },
        None => before,
    }
}

/// The terms of an output that have a mass, or `None` if there are more than two.
fn held_terms(block: &Block, out: u8, output: &Output, xs: &[Dec]) -> Option<Held>
    requires block { IsValid block.now }
    requires out_from { 1 ≤ out }
    requires output { output_at block.now out ≡ Some output.now }
    requires xs { AreInputs block.now xs.now }
    ensures terms { MatchOption result (2 < length (heavy_shares (shares block.now xs.now out output.now)))
        (λ h. shares_of h ≡ heavy_shares (shares block.now xs.now out output.now)) }
    ensures sums { IfSome result (λ h. Reduces (shares block.now xs.now out output.now) (shares_of h)) }
    ensures small { IfSome result AreSmall }
{
    let singletons = output.singletons.as_slice();
    let mut held = Held::Nothing;
    for k in (0..singletons.len()).rev() {
        let term = Heavy {
            at: singletons[k],
            mass: mass(block, out, k as u8 + 1, xs),
        };
        if term.mass.num > 0 {
            held = held.with(term)?;
        }
    }
    Some(held)
}
