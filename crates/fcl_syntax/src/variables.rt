//! VAR_INPUT and VAR_OUTPUT.

ghost use Rattle.std.proofs.Common.{inr};
ghost use Rattle.fcl_syntax.specs.{declared.tree.Name.Name, Grammar.TDeclaration, Grammar.TSection, Readers.Gives};
ghost use Rattle.fcl_syntax.specs.TokenClasses.{comma_classes, name_classes, section_classes};
ghost use Rattle.fcl_syntax.specs.Reading.{comma_at, name_at, type_at, declaration_at, declaration_from};
ghost use Rattle.fcl_syntax.specs.Reading.{variables_from, section_at};
ghost use Rattle.fcl_syntax.specs.View.{view_declaration, view_variables, view_section};

use crate::fault::{Kind, ParseError};
use crate::repeated::{Repeated, many};
use crate::single::{expect, fault, keyword, name, optional};
use crate::tree::{Declaration, Direction, Name, Variables};
use fcl_tokens::{Keyword, Token, Word};
use std::alloc::Global;

impl Repeated for Name {
    ghost Tree = { Name };

    ghost first = { comma_classes };

    ghost read_at = { comma_at name_at };

    ghost view = { λ n. n };

    #[tactic(auto, unfolding(crate::specs::Reading::comma_at))]
    fn next(alloc: Global, tokens: &mut &[Token]) -> Result<Option<Name>, ParseError> {
        if !optional(tokens, Token::Comma) {
            return Ok(None);
        }
        Ok(Some(name(tokens)?))
    }
}

/// REAL, where another name is refused.
#[tactic(auto, unfolding(crate::specs::Reading::refusing, crate::specs::Reading::token_at))]
fn real(tokens: &mut &[Token]) -> Result<u32, ParseError>
    ensures { Gives (λ x. (inr x, tokens.new.now)) result (type_at tokens.old.now) }
{
    match *tokens {
        [Token::Name(at, Word::Real), rest @ ..] => {
            *tokens = rest;
            Ok(*at)
        }
        [Token::Name(..), ..] => Err(fault(Kind::Unsupported(5), tokens)),
        _ => Err(fault(Kind::Expected, tokens)),
    }
}

/// A declaration, behind its first name.
#[tactic(auto, unfolding(crate::specs::Reading::declaration_from), using(crate::proofs::Parsers::names_take))]
fn declaration(alloc: Global, first: Name, tokens: &mut &[Token]) -> Result<Declaration, ParseError>
    ensures { Gives (λ x. (view_declaration x, tokens.new.now)) result (declaration_from first tokens.old.now) }
{
    let more = many::<Name>(alloc, tokens)?;
    expect(tokens, Token::Colon)?;
    let real = real(tokens)?;
    expect(tokens, Token::Semicolon)?;
    Ok(Declaration { first, more, real })
}

impl Repeated for Declaration {
    ghost Tree = { TDeclaration };

    ghost first = { name_classes };

    ghost read_at = { declaration_at };

    ghost view = { view_declaration };

    #[tactic(auto, unfolding(crate::specs::Reading::headed_at, crate::specs::Reading::token_at))]
    fn next(alloc: Global, tokens: &mut &[Token]) -> Result<Option<Declaration>, ParseError> {
        let [Token::Name(at, word), rest @ ..] = *tokens else {
            return Ok(None);
        };
        *tokens = rest;
        let (at, word) = (*at, *word);
        Ok(Some(declaration(alloc, Name { at, word }, tokens)?))
    }
}

/// The declarations, behind their direction.
#[tactic(auto, unfolding(crate::specs::Reading::variables_from), using(crate::proofs::Parsers::declaration_take))]
fn variables(
    alloc: Global,
    at: u32,
    direction: Direction,
    tokens: &mut &[Token],
) -> Result<Variables, ParseError>
    ensures { Gives (λ x. (view_variables x, tokens.new.now)) result (variables_from at direction tokens.old.now) }
{
    let declarations = many::<Declaration>(alloc, tokens)?;
    let end = keyword(tokens, Keyword::EndVar)?;
    Ok(Variables {
        at,
        direction,
        declarations,
        end,
    })
}

/// One is next where variables are, or VAR in their place.
impl Repeated for Variables {
    ghost Tree = { TSection };

    ghost first = { section_classes };

    ghost read_at = { section_at };

    ghost view = { view_section };

    #[tactic(auto, unfolding(crate::specs::Reading::refusing, crate::specs::Reading::headed_at, crate::specs::Reading::token_at))]
    fn next(alloc: Global, tokens: &mut &[Token]) -> Result<Option<Variables>, ParseError> {
        let (at, direction, rest) = match *tokens {
            [Token::Word(_, Keyword::Var), ..] => return Err(fault(Kind::Unsupported(6), tokens)),
            [Token::Word(at, Keyword::VarInput), rest @ ..] => (*at, Direction::Input, rest),
            [Token::Word(at, Keyword::VarOutput), rest @ ..] => (*at, Direction::Output, rest),
            _ => return Ok(None),
        };
        *tokens = rest;
        Ok(Some(variables(alloc, at, direction, tokens)?))
    }
}
