//! The outputs of a block, each from its section in a tree without load faults.

ghost use Rattle.std.specs.Prelude.{◌≡◌, [], Some, map, option_map, IfOk};
ghost use Rattle.fcl_syntax.specs.declared.tree.Direction.TheVariants as side;
ghost use Rattle.fcl_syntax.specs.declared.tree.Part.TheVariants as part;
ghost use Rattle.fcl_check.specs.{Spans.ends_in, WellFormed.IsWellFormedDefuzzify};
ghost use Rattle.fcl_check.specs.Loaded.{IsOutputOf, default_number, number_of, output_hull, output_range, widened};
ghost use Rattle.fcl_check.specs.Names.{as_defuzzify, singletons_of};
ghost use Rattle.fcl_check.specs.Sections.{default_of, incomplete, value};

use super::variables::FromSection;
use crate::numbers::{Span, fallback_number, value};
use crate::parts::{defuzzy_range, fallback, number_line};
use fcl_syntax::{Defuzzify, DefuzzyLine, Direction, Part};
use fuzzy_meaning::Output;
use fz_list::List;
use fz_num::Dec;
use std::alloc::{AllocError, Global};

/// From the least to the greatest number of a section; none where it has no number.
fn hull(section: &Defuzzify) -> Option<Span>
    ensures { option_map ends_in result ≡ output_hull section.now }
{
    let mut hull: Option<Span> = None;
    for line in section.lines.as_slice() {
        if let Some((x, _)) = number_line(line) {
            hull = Some(match hull {
                Some(span) => span.with(x),
                None => Span::at(x),
            });
        }
    }
    hull
}

/// From the least to the greatest number of a section, and to 1 more where they are one.
fn wide_hull(section: &Defuzzify) -> Option<Span>
    ensures { option_map ends_in result ≡ option_map widened (output_hull section.now) }
{
    Some(hull(section)?.widened())
}

/// The RANGE of a section as it stands, or what its numbers reach.
fn range(section: &Defuzzify) -> Option<Span>
    ensures { option_map ends_in result ≡ output_range section.now }
{
    match defuzzy_range(section) {
        Some(range) => Some(Span::of(range)),
        None => wide_hull(section),
    }
}

fn singletons(alloc: Global, section: &Defuzzify) -> Result<Vec<Dec>, AllocError>
    ensures same { IfOk result (λ v. map (λ d. d.0) v.items ≡ map (λ t. value t.value) (singletons_of section.now)) }
{
    let mut singletons = Vec::new(alloc);
    for line in section.lines.as_slice() {
        if let DefuzzyLine::Singleton(singleton) = line {
            singletons.push(value(singleton.value))?;
        }
    }
    Ok(singletons)
}

fn default(section: &Defuzzify) -> Option<Dec>
    requires { incomplete (part.Defuzzify section.now) ≡ [] }
    ensures same { Some (number_of result) ≡ option_map default_number (default_of section.now) }
{
    fallback_number(fallback(section).unwrap().value)
}

impl FromSection for Output {
    type Section = Defuzzify;

    ghost SIDE = { side.Output };

    const SIDE: Direction = Direction::Output;

    ghost as_section = { as_defuzzify };

    ghost IsWellFormed = { IsWellFormedDefuzzify };

    ghost IsOf = { IsOutputOf };

    fn from_part(alloc: Global, part: &Part) -> Result<Output, AllocError> {
        let Part::Defuzzify(section) = part else {
            unreachable!();
        };
        let span = range(section).unwrap();
        let singletons = singletons(alloc, section)?;
        Ok(Output {
            lo: span.lo,
            hi: span.hi,
            singletons: List::new(singletons),
            default: default(section),
        })
    }
}
