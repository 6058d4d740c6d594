//! The inputs and the outputs of a block, each made from its section.

ghost use Rattle.std.specs.Prelude.{◌≡◌, Option, Some, All, IfOk};
ghost use Rattle.std.specs.List.{AllZip};
ghost use Rattle.fcl_syntax.specs.declared.{tree.Direction.Direction, tree.Part.Part};
ghost use Rattle.fcl_check.specs.{Loaded.IsVariableNamed, Sources.block_of, Sources.text_of, WellFormed.HasSection};
ghost use Rattle.fcl_check.specs.Names.{declared_as, declared_in};

use super::source::Source;
use fcl_syntax::{Direction, Part};
use std::alloc::{AllocError, Global};

/// What a block has of a declared variable: an input, or an output.
///
/// Its section is FUZZIFY or DEFUZZIFY, which is one of the parts of the tree.
pub trait FromSection: Sized + Drop {
    /// The section that defines it.
    type Section;

    /// The direction in which it is declared.
    ghost SIDE: { Direction };

    const SIDE: Direction;

    /// The section that a part is, if it is one of this kind.
    ghost as_section: { Part → Option Self.Section };

    /// Whether a section has no fault that would stop `from_part`.
    ghost IsWellFormed: { Self.Section → Type 0 };

    /// Whether a value is what a section defines.
    ghost IsOf: { Self.Section → Self → Type 0 };

    /// What a part defines that is a well-formed section of this kind. It can only fail for lack of memory.
    fn from_part(alloc: Global, part: &Part) -> Result<Self, AllocError>
        requires { (s : Self.Section) × (as_section part.now ≡ Some s) × IsWellFormed s }
        ensures { IfOk result (λ v. (s : Self.Section) × (as_section part.now ≡ Some s) × IsOf s v) };
}

/// The variables of one direction in the order of their declaration.
pub fn variables<V: FromSection>(source: &Source<'_, '_>) -> Result<Vec<V>, AllocError>
    requires { All (HasSection V.SIDE V.as_section V.IsWellFormed (text_of source.now) (block_of source.now))
        (declared_in (block_of source.now)) }
    ensures { IfOk result (λ v.
        AllZip (IsVariableNamed V.as_section V.IsOf (text_of source.now) (block_of source.now))
        (declared_as V.SIDE (block_of source.now)) v.items) }
{
    let names = source.names;
    let mut variables = Vec::new(source.alloc);
    for (direction, name) in &names.declared {
        if *direction == V::SIDE {
            let part = names.section(names.tree.letters(*name)).unwrap();
            variables.push(V::from_part(source.alloc, part)?)?;
        }
    }
    Ok(variables)
}
