//! Parts of the grammar that may be repeated.

ghost use Rattle.std.specs.Prelude.{◌≡◌, ℕ, List as Items, map};
ghost use Rattle.fcl_tokens.specs.declared.token.Token.{Token};
ghost use Rattle.fcl_syntax.specs.Readers.{Read, Gives, GivesOne, TakesSome, has_one, many_at, starts};

use crate::fault::ParseError;
use fcl_tokens::Token;
use fz_list::List;
use std::alloc::Global;

/// A part of the grammar that may occur any number of times in a row.
pub trait Repeated: Sized + Drop {
    /// The type of its trees.
    ghost Tree: { Type 0 };

    /// The classes of tokens with which one begins.
    ghost first: { Items ℕ };

    /// The reader of one.
    ghost read_at: { Items Token → Read Tree };

    /// The tree of one.
    ghost view: { Self → Tree };

    /// Reads the next one, if there is one.
    fn next(alloc: Global, tokens: &mut &[Token]) -> Result<Option<Self>, ParseError>
        ensures next { starts first tokens.old.now ≡ has_one result }
        ensures read { GivesOne view read_at result tokens.old.now tokens.new.now };
}

/// Reads as many as there are. Each has at least one token.
pub fn many<R: Repeated>(alloc: Global, tokens: &mut &[Token]) -> Result<List<R>, ParseError>
    requires { TakesSome R.read_at }
    ensures { Gives (λ x. (map R.view x, tokens.new.now)) result (many_at R.first R.read_at tokens.old.now) }
{
    let mut items = Vec::new(alloc);
    'each: while let Some(next) = R::next(alloc, tokens)? {
        items.push(next)?;
    }
    Ok(List::new(items))
}
