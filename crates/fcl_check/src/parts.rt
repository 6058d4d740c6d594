//! The parts of sections that both the checks and the builder take.

ghost use Rattle.std.specs.Prelude.{◌≡◌, ℕ, Some, map, option_map};
ghost use Rattle.fz_num.specs.declared.dec.Dec.{Dec};
ghost use Rattle.fcl_check.specs.{Names.section_name, Spans.ends_in, Steps.extended};
ghost use Rattle.fcl_check.specs.Sections.{abscissas, default_of, defuzzy_range, fuzzy_range, hull_of, number_line};
ghost use Rattle.fcl_check.specs.Sections.{points_of, reach, x_of};

use crate::numbers::{Span, fallback_number, value};
use fcl_syntax::{
    Defuzzify, DefuzzyLine, Fallback, Fuzzify, FuzzyLine, Name, Part, Point, Range, Term,
};
use fz_num::Dec;

/// The name of a section's variable.
pub fn section_name(part: &Part) -> Name
    ensures { result ≡ section_name part.now }
{
    match part {
        Part::Fuzzify(section) => section.name,
        Part::Defuzzify(section) => section.name,
    }
}

/// The RANGE of a section of an input.
pub fn fuzzy_range(section: &Fuzzify) -> Option<Range>
    ensures { result ≡ fuzzy_range section.now }
{
    for line in section.lines.as_slice() {
        if let FuzzyLine::Range(range) = line {
            return Some(*range);
        }
    }
    None
}

/// The RANGE of a section of an output.
pub fn defuzzy_range(section: &Defuzzify) -> Option<Range>
    ensures { result ≡ defuzzy_range section.now }
{
    for line in section.lines.as_slice() {
        if let DefuzzyLine::Range(range) = line {
            return Some(*range);
        }
    }
    None
}

/// The DEFAULT line of a section.
pub fn fallback(section: &Defuzzify) -> Option<Fallback>
    ensures { result ≡ default_of section.now }
{
    for line in section.lines.as_slice() {
        if let DefuzzyLine::Default(fallback) = line {
            return Some(*fallback);
        }
    }
    None
}

/// The number of a line of an output's section, and the offset at which it is refused.
pub fn number_line(line: &DefuzzyLine) -> Option<(Dec, u32)>
    ensures { option_map (λ (n : Dec × ℕ). (n.0.0, n.1)) result ≡ number_line line.now }
{
    match line {
        DefuzzyLine::Singleton(singleton) => Some((value(singleton.value), singleton.at)),
        DefuzzyLine::Default(fallback) => Some((fallback_number(fallback.value)?, fallback.at)),
        _ => None,
    }
}

fn with_points(span: Span, points: &[Point]) -> Span
    ensures { ends_in result ≡ reach (ends_in span) (map x_of points.now) }
{
    let mut hull = span;
    for point in points {
        hull = hull.with(value(point.x));
    }
    hull
}

fn with_term(hull: Option<Span>, term: &Term) -> Span
    ensures { Some (ends_in result) ≡ extended (option_map ends_in hull) (map x_of (points_of term.now)) }
{
    let first = value(term.first.x);
    let span = match hull {
        Some(span) => span.with(first),
        None => Span::at(first),
    };
    with_points(span, term.more.as_slice())
}

/// From the least to the greatest of all points of a section, or `None` if it has no term.
pub fn hull(section: &Fuzzify) -> Option<Span>
    ensures { option_map ends_in result ≡ hull_of (abscissas section.now) }
{
    let mut hull: Option<Span> = None;
    for line in section.lines.as_slice() {
        if let FuzzyLine::Term(term) = line {
            hull = Some(with_term(hull, term));
        }
    }
    hull
}
