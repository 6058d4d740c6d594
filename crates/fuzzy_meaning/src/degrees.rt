//! Degrees of terms.
ghost use Rattle.std.specs.Prelude.{◌≡◌, IfSome, ◌≤ℤ◌};
ghost use Rattle.fz_num.specs.Fractions.{fraction_of, IsTruth};
ghost use Rattle.fuzzy_meaning.specs.Blocks.{IsTrapezoid, IsInScale};
ghost use Rattle.fuzzy_meaning.specs.Degrees.{degree as degree_of, rise as rise_of, fall as fall_of, IsByPlace};

use crate::block::Trapezoid;
use fz_num::{Dec, Frac};

pub(crate) const ONE: Frac = Frac { num: 1, den: 1 };

pub(crate) const NONE: Frac = Frac { num: 0, den: 1 };

/// The degree of a term at a number: 1 from `b` to `c`, 0 up to `a` and from `d` on, straight
/// between them, and 1 also where there is no `a` or no `d`. At a vertical edge the greater degree
/// counts.
pub fn degree(term: &Trapezoid, x: Dec) -> Frac
    requires term { IsTrapezoid term.now }
    requires x { IsInScale x.0 }
    ensures value { fraction_of result ≡ degree_of term.now x }
    ensures by_place { IsByPlace term.now x (fraction_of result) }
    ensures truth { IsTruth 4000000000 result }
{
    rise(term.a, term.b, x).min(fall(term.c, term.d, x))
}

fn rise(a: Option<Dec>, b: Dec, x: Dec) -> Frac
    requires a { IfSome a (λ p. IsInScale p.0 × (p.0 ≤ℤ b.0)) }
    requires b { IsInScale b.0 }
    requires x { IsInScale x.0 }
    ensures value { fraction_of result ≡ rise_of a b x }
    ensures truth { IsTruth 4000000000 result }
{
    let Some(a) = a else {
        return ONE;
    };
    if b.0 <= x.0 {
        ONE
    } else if x.0 <= a.0 {
        NONE
    } else {
        Frac::over(x.above(a), b.above(a))
    }
}

fn fall(c: Dec, d: Option<Dec>, x: Dec) -> Frac
    requires c { IsInScale c.0 }
    requires d { IfSome d (λ p. IsInScale p.0 × (c.0 ≤ℤ p.0)) }
    requires x { IsInScale x.0 }
    ensures value { fraction_of result ≡ fall_of c d x }
    ensures truth { IsTruth 4000000000 result }
{
    let Some(d) = d else {
        return ONE;
    };
    if x.0 <= c.0 {
        ONE
    } else if d.0 <= x.0 {
        NONE
    } else {
        Frac::over(d.above(x), d.above(c))
    }
}
