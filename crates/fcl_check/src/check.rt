//! The first load fault of a tree in which nothing is given twice.

mod kinds;
mod operands;
mod rules;
mod sections;
mod walk;

ghost use Rattle.std.specs.Prelude.{◌≡◌, []};
ghost use Rattle.fcl_check.specs.Faults.{first_fault, twice};

use crate::fault::LoadFault;
use crate::names::Names;
use kinds::{
    bad_ranges, missing_part, no_terms, points_not_ascending, singletons_outside, term_outside,
    term_shape, too_many, unknown, weights_outside, wrong_side,
};

/// Answers a place where there is one.
macro_rules! refuse {
    ($place:expr, $fault:path) => {
        if let Some(at) = $place {
            return Some($fault(at));
        }
    };
}

/// The kinds of faults are checked in the order of [`LoadFault`], each at its first offset.
#[tactic(auto, using(crate::proofs::Faultless::first_fault_by_kinds))]
pub fn first_fault(names: &Names<'_>) -> Option<LoadFault>
    requires { twice names.now.tree.now.text.items names.now.tree.now.block ≡ [] }
    ensures { result ≡ first_fault names.now.tree.now.text.items names.now.tree.now.block }
{
    let block = &names.tree.block;
    let (parts, rules) = (block.parts.as_slice(), block.rules.rules.as_slice());
    refuse!(unknown(names), LoadFault::Unknown);
    refuse!(no_terms(parts), LoadFault::NoTerms);
    refuse!(too_many(names), LoadFault::TooMany);
    refuse!(points_not_ascending(parts), LoadFault::PointsNotAscending);
    refuse!(term_shape(parts), LoadFault::TermShape);
    refuse!(term_outside(parts), LoadFault::TermOutside);
    refuse!(bad_ranges(names), LoadFault::BadRange);
    refuse!(singletons_outside(parts), LoadFault::SingletonOutside);
    refuse!(weights_outside(rules), LoadFault::WeightOutside);
    refuse!(wrong_side(names), LoadFault::WrongSide);
    refuse!(missing_part(names), LoadFault::MissingPart);
    None
}
