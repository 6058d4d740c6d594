//! The inputs of a block, each from its section in a tree without load faults.

ghost use Rattle.std.specs.Prelude.{◌≡◌, true, List as Items, [], ◌∷◌, ◌++◌, None, option_map, IfOk};
ghost use Rattle.std.specs.List.{AllZip};
ghost use Rattle.fcl_syntax.specs.declared.tree.Direction.TheVariants as side;
ghost use Rattle.fcl_syntax.specs.declared.tree.Part.TheVariants as part;
ghost use Rattle.fcl_syntax.specs.declared.tree.Point.{Point};
ghost use Rattle.fcl_check.specs.{Spans.ends_in, Corners.AreCornersOf, WellFormed.IsWellFormedFuzzify};
ghost use Rattle.fcl_check.specs.Loaded.{IsInputOf, IsTermOf, input_range};
ghost use Rattle.fcl_check.specs.Names.{as_fuzzify, terms_of};
ghost use Rattle.fcl_check.specs.Sections.{has_shape, points_of, shapeless_terms};

use super::variables::FromSection;
use crate::numbers::{Span, is_one, value};
use crate::parts::{fuzzy_range, hull};
use fcl_syntax::{Direction, Fuzzify, FuzzyLine, Part, Point, Term};
use fuzzy_meaning::{Input, Trapezoid};
use fz_list::List;
use fz_num::Dec;
use std::alloc::{AllocError, Global};

/// The corners of a term as far as its points were seen.
#[derive(Clone, Copy)]
struct Corners {
    a: Option<Dec>,
    top: Option<(Dec, Dec)>,
    d: Option<Dec>,
}

impl Corners {
    fn with(self, point: &Point) -> Corners
        ensures { (seen : Items Point) → AreCornersOf seen self → AreCornersOf (seen ++ point.now ∷ []) result }
    {
        let x = value(point.x);
        match (is_one(point.degree), self.top) {
            (false, None) => Corners { a: Some(x), ..self },
            (false, Some(_)) => Corners {
                d: self.d.or(Some(x)),
                ..self
            },
            (true, None) => Corners {
                top: Some((x, x)),
                ..self
            },
            (true, Some((b, _))) => Corners {
                top: Some((b, x)),
                ..self
            },
        }
    }
}

fn trapezoid(term: &Term) -> Trapezoid
    requires { has_shape (points_of term.now) ≡ true }
    ensures { IsTermOf term.now result }
{
    let none = Corners {
        a: None,
        top: None,
        d: None,
    };
    let mut corners = none.with(&term.first);
    for point in term.more.as_slice() {
        corners = corners.with(point);
    }
    let (b, c) = corners.top.unwrap();
    Trapezoid {
        a: corners.a,
        b,
        c,
        d: corners.d,
    }
}

fn terms(alloc: Global, section: &Fuzzify) -> Result<Vec<Trapezoid>, AllocError>
    requires { shapeless_terms (part.Fuzzify section.now) ≡ [] }
    ensures same { IfOk result (λ v. AllZip IsTermOf (terms_of section.now) v.items) }
{
    let mut terms = Vec::new(alloc);
    for line in section.lines.as_slice() {
        if let FuzzyLine::Term(term) = line {
            terms.push(trapezoid(term))?;
        }
    }
    Ok(terms)
}

/// The RANGE of a section, or from the least to the greatest of its points.
fn range(section: &Fuzzify) -> Option<Span>
    ensures { option_map ends_in result ≡ input_range section.now }
{
    match fuzzy_range(section) {
        Some(range) => Some(Span::of(range)),
        None => hull(section),
    }
}

impl FromSection for Input {
    type Section = Fuzzify;

    ghost SIDE = { side.Input };

    const SIDE: Direction = Direction::Input;

    ghost as_section = { as_fuzzify };

    ghost IsWellFormed = { IsWellFormedFuzzify };

    ghost IsOf = { IsInputOf };

    fn from_part(alloc: Global, part: &Part) -> Result<Input, AllocError> {
        let Part::Fuzzify(section) = part else {
            unreachable!();
        };
        let span = range(section).unwrap();
        let terms = terms(alloc, section)?;
        Ok(Input {
            lo: span.lo,
            hi: span.hi,
            terms: List::new(terms),
        })
    }
}
