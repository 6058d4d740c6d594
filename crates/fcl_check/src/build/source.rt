//! What a block is built from, and the numbers of the variables and terms that its rules name.

ghost use Rattle.std.specs.Prelude.{◌≡◌, None};
ghost use Rattle.fcl_check.specs.{Faults.first_fault, Loaded.numbers_of, WellFormed.IsKnown};

use crate::names::Names;
use fcl_syntax::{Direction, Name};
use std::alloc::Global;

/// The names of a tree without load faults, and the allocator.
#[derive(Clone, Copy)]
pub struct Source<'a, 'n> {
    pub alloc: Global,
    pub names: &'n Names<'a>,
    ghost well_formed: { first_fault names.now.tree.now.text.items names.now.tree.now.block ≡ None },
}

/// The numbers of a variable and of a term of it on one side.
pub fn numbers(source: &Source<'_, '_>, side: Direction, variable: Name, term: Name) -> (u8, u8)
    requires { IsKnown source.now.names.now.tree.now.text.items source.now.names.now.tree.now.block side variable
        term }
    ensures { result ≡ numbers_of source.now.names.now.tree.now.text.items source.now.names.now.tree.now.block side
        variable term }
{
    let names = source.names;
    let (variable, term) = (names.tree.letters(variable), names.tree.letters(term));
    let declared = names.variable(variable).unwrap();
    let term = names.term(side, variable, term).unwrap();
    (declared.number as u8, term as u8)
}
