//! Load faults.

ghost use Rattle.std.specs.Prelude.{◌≡◌};
ghost use Rattle.fcl_check.specs.declared.fault.LoadFault.TheVariants.{Memory};

use std::alloc::{AllocError, AllocFailed};
use thiserror::Error;

/// Why a tree is no block, with the offset of the fault in the text. The kinds are checked in this order;
/// the first that occurs is returned, at its first offset.
#[derive(PartialEq, Debug, Drop, Error)]
pub enum LoadFault {
    /// A second variable, section of a variable or term of a section, at its name, or a second
    /// line of one kind, at its keyword.
    #[error("at {0}: given twice")]
    Twice(u32),
    /// A variable that is not declared, or a term that its variable does not have, at the name.
    #[error("at {0}: an unknown name")]
    Unknown(u32),
    /// A section without TERM, at its END word.
    #[error("at {0}: no TERM in the section")]
    NoTerms(u32),
    /// The first input, output or term over its limit, at its name, or rule, at RULE.
    #[error("at {0}: too many")]
    TooMany(u32),
    /// A point that is below the one before it, at its parenthesis.
    #[error("at {0}: the points do not ascend")]
    PointsNotAscending(u32),
    /// Degrees that are not zeros, then ones, then zeros, at TERM.
    #[error("at {0}: the degrees are no trapezoid")]
    TermShape(u32),
    /// A point outside the given RANGE, at its parenthesis.
    #[error("at {0}: a point outside RANGE")]
    TermOutside(u32),
    /// A RANGE whose low end is not below its high end, at RANGE, or an input whose points are all the
    /// same, at its section's name.
    #[error("at {0}: an empty range")]
    BadRange(u32),
    /// A singleton or DEFAULT outside the given RANGE, at TERM or DEFAULT.
    #[error("at {0}: outside RANGE")]
    SingletonOutside(u32),
    /// A weight below 0 or above 1, at WITH.
    #[error("at {0}: a weight outside 0 to 1")]
    WeightOutside(u32),
    /// An output where an input belongs, or the other way round, at the name.
    #[error("at {0}: an input and an output are mistaken")]
    WrongSide(u32),
    /// A variable without its section, at its declared name; DEFUZZIFY without METHOD or DEFAULT,
    /// at END_DEFUZZIFY; no input, no output or no rule, at END_FUNCTION_BLOCK.
    #[error("at {0}: a part is missing")]
    MissingPart(u32),
    /// Out of memory; the tree may have a fault or none.
    #[error("out of memory")]
    Memory,
}

impl From<AllocError> for LoadFault {
    ghost from_gives = { λ _ e. e ≡ Memory };

    fn from(_e: AllocError) -> LoadFault {
        LoadFault::Memory
    }
}

impl<T: Drop> From<AllocFailed<T>> for LoadFault {
    ghost from_gives = { λ _ e. e ≡ Memory };

    fn from(_e: AllocFailed<T>) -> LoadFault {
        LoadFault::Memory
    }
}
