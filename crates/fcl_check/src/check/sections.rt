//! What is wrong with the terms, ranges and singletons of sections.

ghost use Rattle.std.specs.Prelude.{◌≡◌, ◌||◌, ◌∷◌, List, filter_map, is_none, is_some, not, option_map};
ghost use Rattle.std.specs.Borrow.{Bor};
ghost use Rattle.fcl_syntax.specs.declared.tree.Direction.TheVariants as side;
ghost use Rattle.fcl_syntax.specs.declared.{tree.Point.Point, tree.Singleton.Singleton, tree.Term.Term};
ghost use Rattle.fcl_check.specs.{Faults.is_declared_as, Spans.ends_in, Steps.completes};
ghost use Rattle.fcl_check.specs.Names.{singleton_of, singletons_of, term_of, terms_of};
ghost use Rattle.fcl_check.specs.Places.{at_if, first};
ghost use Rattle.fcl_check.specs.Sections.{bad_range, default_of, empty_range, falling_in, falling_points};
ghost use Rattle.fcl_check.specs.Sections.{has_shape, incomplete, lies_in, method_line, numbers_outside, outside_in};
ghost use Rattle.fcl_check.specs.Sections.{points_of, points_outside, shapeless_terms, terms_over_limit};
ghost use Rattle.fcl_check.specs.Sections.{without_terms, x_of};

use super::walk::first_at;
use crate::names::Names;
use crate::numbers::{Span, is_one, value};
use crate::parts::{defuzzy_range, fallback, fuzzy_range, hull, number_line};
use fcl_syntax::{Defuzzify, DefuzzyLine, Direction, Fuzzify, FuzzyLine, Part, Point, Range, Term};

/// How many terms a variable may have.
const TERMS: usize = 15;

fn as_term(line: &FuzzyLine) -> Option<&Term>
    ensures { option_map (λ (t : Bor Term). t.now) result ≡ term_of line.now }
{
    match line {
        FuzzyLine::Term(term) => Some(term),
        FuzzyLine::Range(_) => None,
    }
}

/// The place of the name of a term.
fn term_at(line: &FuzzyLine) -> Option<u32>
    ensures { result ≡ option_map (λ (t : Term). t.name.at) (term_of line.now) }
{
    as_term(line).map(|term| term.name.at)
}

fn singleton_at(line: &DefuzzyLine) -> Option<u32>
    ensures { result ≡ option_map (λ (t : Singleton). t.name.at) (singleton_of line.now) }
{
    match line {
        DefuzzyLine::Singleton(singleton) => Some(singleton.name.at),
        _ => None,
    }
}

fn has_term(section: &Fuzzify) -> bool
    ensures { result ≡ is_some (first (terms_of section.now)) }
{
    let lines = section.lines.as_slice();
    lines.iter().any(|line| term_at(line).is_some())
}

fn has_singleton(section: &Defuzzify) -> bool
    ensures { result ≡ is_some (first (singletons_of section.now)) }
{
    let lines = section.lines.as_slice();
    lines.iter().any(|line| singleton_at(line).is_some())
}

/// The END word of a section without TERM.
pub fn without_terms(part: &Part) -> Option<u32>
    ensures { result ≡ first (without_terms part.now) }
{
    let (has_terms, end) = match part {
        Part::Fuzzify(section) => (has_term(section), section.end),
        Part::Defuzzify(section) => (has_singleton(section), section.end),
    };
    if has_terms { None } else { Some(end) }
}

/// The name of the first term over the limit.
pub fn term_over_limit(part: &Part) -> Option<u32>
    ensures { result ≡ first (terms_over_limit part.now) }
{
    match part {
        Part::Fuzzify(section) => {
            let lines = section.lines.as_slice();
            lines.iter().filter_map(term_at).nth(TERMS)
        }
        Part::Defuzzify(section) => {
            let lines = section.lines.as_slice();
            lines.iter().filter_map(singleton_at).nth(TERMS)
        }
    }
}

/// The parenthesis of the first point that lies below the one before it.
#[tactic(auto, using(crate::proofs::CourseSteps::falling_in_first))]
fn falling_in(term: &Term) -> Option<u32>
    ensures { result ≡ first (falling_in term.now) }
{
    let mut before = value(term.first.x);
    for point in term.more.as_slice() {
        let x = value(point.x);
        if x.0 < before.0 {
            return Some(point.open_at);
        }
        before = x;
    }
    None
}

/// The parenthesis of a point outside a span.
fn outside(point: &Point, span: Span) -> Option<u32>
    ensures { result ≡ first (at_if (not (lies_in (ends_in span) (x_of point.now))) point.now.open_at) }
{
    if span.holds(value(point.x)) {
        None
    } else {
        Some(point.open_at)
    }
}

/// The first point of a term outside a span.
fn outside_in(term: &Term, span: Span) -> Option<u32>
    ensures { result ≡ first (outside_in (ends_in span) term.now) }
{
    outside(&term.first, span).or_else(|| first_at(
        term.more.as_slice(),
        |point| outside(point, span),
    ))
}

/// Where the degrees of a term have come to.
#[derive(Clone, Copy)]
enum Course {
    Rising,
    Top,
    Falling,
    Broken,
}

fn step(course: Course, point: &Point) -> Course
    ensures { (points : List Point) → completes result points ≡ completes course (point.now ∷ points) }
{
    match (course, is_one(point.degree)) {
        (Course::Rising, false) => Course::Rising,
        (Course::Rising | Course::Top, true) => Course::Top,
        (Course::Top | Course::Falling, false) => Course::Falling,
        (Course::Falling, true) | (Course::Broken, _) => Course::Broken,
    }
}

/// Whether the degrees are zeros, then at least one 1, then zeros.
fn has_shape(term: &Term) -> bool
    ensures { result ≡ has_shape (points_of term.now) }
{
    let mut course = step(Course::Rising, &term.first);
    for point in term.more.as_slice() {
        course = step(course, point);
    }
    matches!(course, Course::Top | Course::Falling)
}

/// The first point of an input's section that is below the one before it.
pub fn falling_point(part: &Part) -> Option<u32>
    ensures { result ≡ first (falling_points part.now) }
{
    let Part::Fuzzify(section) = part else {
        return None;
    };
    first_at(section.lines.as_slice(), |line| falling_in(as_term(line)?))
}

/// A term whose degrees have not the shape of a trapezoid.
fn shapeless(term: &Term) -> Option<u32>
    ensures { result ≡ first (at_if (not (has_shape (points_of term.now))) term.now.at) }
{
    if has_shape(term) { None } else { Some(term.at) }
}

/// The first term of an input's section whose degrees do not have the shape of a trapezoid.
pub fn shapeless_term(part: &Part) -> Option<u32>
    ensures { result ≡ first (shapeless_terms part.now) }
{
    let Part::Fuzzify(section) = part else {
        return None;
    };
    first_at(section.lines.as_slice(), |line| shapeless(as_term(line)?))
}

/// The first point outside the given RANGE of an input's section.
pub fn point_outside(part: &Part) -> Option<u32>
    ensures { result ≡ first (points_outside part.now) }
{
    let Part::Fuzzify(section) = part else {
        return None;
    };
    let span = Span::of(fuzzy_range(section)?);
    first_at(
        section.lines.as_slice(),
        |line| outside_in(as_term(line)?, span),
    )
}

/// The RANGE of a section if it is empty, or the name of an input's section without RANGE if all its points are the
/// same.
pub fn bad_range(names: &Names<'_>, part: &Part) -> Option<u32>
    ensures { result ≡ first (bad_range (is_declared_as names.now.tree.now.text.items names.now.tree.now.block
        side.Input) part.now) }
{
    match part {
        Part::Fuzzify(section) => match fuzzy_range(section) {
            Some(range) => empty_range(range),
            None => {
                let variable = names.variable(names.tree.letters(section.name))?;
                let is_input = variable.direction == Direction::Input;
                if is_input && hull(section)?.is_empty() {
                    Some(section.name.at)
                } else {
                    None
                }
            }
        },
        Part::Defuzzify(section) => empty_range(defuzzy_range(section)?),
    }
}

fn empty_range(range: Range) -> Option<u32>
    ensures { result ≡ first (empty_range range) }
{
    if Span::of(range).is_empty() {
        Some(range.at)
    } else {
        None
    }
}

/// The first singleton or DEFAULT outside the given RANGE of an output's section.
pub fn number_outside(part: &Part) -> Option<u32>
    ensures { result ≡ first (numbers_outside part.now) }
{
    let Part::Defuzzify(section) = part else {
        return None;
    };
    let span = Span::of(defuzzy_range(section)?);
    first_at(section.lines.as_slice(), |line| {
        let (x, at) = number_line(line)?;
        if span.holds(x) { None } else { Some(at) }
    })
}

fn has_method(section: &Defuzzify) -> bool
    ensures { not result ≡ is_none (first (filter_map method_line section.now.lines)) }
{
    for line in section.lines.as_slice() {
        if let DefuzzyLine::Method(_) = line {
            return true;
        }
    }
    false
}

/// Whether a section has the lines that it needs in addition to its terms.
fn is_complete(section: &Defuzzify) -> bool
    ensures { not result ≡ (is_none (first (filter_map method_line section.now.lines)) || is_none
        (default_of section.now)) }
{
    has_method(section) && fallback(section).is_some()
}

/// The END word of an output's section that lacks METHOD or DEFAULT.
pub fn incomplete(part: &Part) -> Option<u32>
    ensures { result ≡ first (incomplete part.now) }
{
    match part {
        Part::Defuzzify(section) if !is_complete(section) => Some(section.end),
        _ => None,
    }
}
