//! From tokens to the tree of a function block, or their first fault.

ghost use Rattle.std.proofs.Common.{inr};
ghost use Rattle.fcl_syntax.specs.{Readers.Gives, Reading.end_at, Reading.block_at, Reading.all_of, View.view};

use crate::fault::{Kind, ParseError};
use crate::repeated::many;
use crate::rules::rulebase;
use crate::single::{fault, keyword, name};
use crate::tree::{FunctionBlock, Part, Variables};
use fcl_tokens::{Keyword, Token};
use std::alloc::Global;

/// END_FUNCTION_BLOCK, where OPTION and RULEBLOCK are refused.
#[tactic(auto, unfolding(crate::specs::Reading::refusing))]
fn end(tokens: &mut &[Token]) -> Result<u32, ParseError>
    ensures { Gives (λ x. (inr (inr x), tokens.new.now)) result (end_at tokens.old.now) }
{
    match *tokens {
        [Token::Word(_, Keyword::Options), ..] => Err(fault(Kind::Unsupported(7), tokens)),
        [Token::Word(_, Keyword::Ruleblock), ..] => Err(fault(Kind::Unsupported(8), tokens)),
        _ => keyword(tokens, Keyword::EndFunctionBlock),
    }
}

#[tactic(auto, unfolding(crate::specs::Reading::block_at), using(crate::proofs::Parsers::section_take, crate::proofs::TermParsers::part_take))]
fn block(alloc: Global, tokens: &mut &[Token]) -> Result<FunctionBlock, ParseError>
    ensures { Gives (λ x. (view x, tokens.new.now)) result (block_at tokens.old.now) }
{
    let at = keyword(tokens, Keyword::FunctionBlock)?;
    let name = name(tokens)?;
    let variables = many::<Variables>(alloc, tokens)?;
    let parts = many::<Part>(alloc, tokens)?;
    let rules = rulebase(alloc, tokens)?;
    let end = end(tokens)?;
    Ok(FunctionBlock {
        at,
        name,
        variables,
        parts,
        rules,
        end,
    })
}

/// The tree that the tokens spell, or their first fault.
#[tactic(auto, unfolding(crate::specs::Reading::all_of))]
pub fn function_block(alloc: Global, tokens: &[Token]) -> Result<FunctionBlock, ParseError>
    ensures { Gives view result (all_of tokens.now) }
{
    let mut tokens = tokens;
    let block = block(alloc, &mut tokens)?;
    if !tokens.is_empty() {
        return Err(fault(Kind::Expected, tokens));
    }
    Ok(block)
}
