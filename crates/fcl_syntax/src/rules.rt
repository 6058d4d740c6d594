//! RULEBLOCK.

ghost use Rattle.fcl_syntax.specs.{declared.tree.Conclusion.Conclusion, Readers.Gives};
ghost use Rattle.fcl_syntax.specs.TokenClasses.{comma_classes, rule_item_classes, rule_line_classes};
ghost use Rattle.fcl_syntax.specs.Grammar.{TRuleItem, TRuleLine};
ghost use Rattle.fcl_syntax.specs.Reading.{conclusion_at, comma_at, conclusions_at, with_from, weight_at, rule_from};
ghost use Rattle.fcl_syntax.specs.Reading.{rule_item_at, act_word_at, act_at, rule_line_at, rulebase_at};
ghost use Rattle.fcl_syntax.specs.View.{view_with, view_weight, view_rule, view_rule_item, view_act_word, view_act};
ghost use Rattle.fcl_syntax.specs.View.{view_rule_line, view_rulebase};

use crate::conditions::or;
use crate::fault::{Kind, ParseError};
use crate::repeated::{Repeated, many};
use crate::single::{expect, fault, is_name, keyword, label, name, optional};
use crate::terms::{accu, setting, signed_number};
use crate::tree::{ActWord, Activation, Conclusion, Rule, RuleLine, Rulebase, Weight};
use fcl_tokens::{Keyword, Token, Word};
use fz_list::List;
use std::alloc::Global;

/// The greatest number of "(" and NOT that may be open at once.
const ROOM: u8 = 64;

// ---- conclusions and weights

#[tactic(auto, unfolding(crate::specs::Reading::conclusion_at))]
fn conclusion(tokens: &mut &[Token]) -> Result<Conclusion, ParseError>
    ensures { Gives (λ x. (x, tokens.new.now)) result (conclusion_at tokens.old.now) }
{
    let variable = name(tokens)?;
    let is_at = keyword(tokens, Keyword::Is)?;
    let term = name(tokens)?;
    Ok(Conclusion {
        variable,
        is_at,
        term,
    })
}

impl Repeated for Conclusion {
    ghost Tree = { Conclusion };

    ghost first = { comma_classes };

    ghost read_at = { comma_at conclusion_at };

    ghost view = { λ c. c };

    #[tactic(auto, unfolding(crate::specs::Reading::comma_at))]
    fn next(alloc: Global, tokens: &mut &[Token]) -> Result<Option<Conclusion>, ParseError> {
        if !optional(tokens, Token::Comma) {
            return Ok(None);
        }
        Ok(Some(conclusion(tokens)?))
    }
}

#[tactic(auto, unfolding(crate::specs::Reading::listed_at), using(crate::proofs::RuleParsers::conclusions_take))]
fn conclusions(
    alloc: Global,
    tokens: &mut &[Token],
) -> Result<(Conclusion, List<Conclusion>), ParseError>
    ensures { Gives (λ x. ((x.0, x.1), tokens.new.now)) result (conclusions_at tokens.old.now) }
{
    let first = conclusion(tokens)?;
    let more = many::<Conclusion>(alloc, tokens)?;
    Ok((first, more))
}

/// signed_number ";" behind WITH, where a name is refused
#[tactic(auto, unfolding(crate::specs::Reading::with_from, crate::specs::Reading::refusing))]
fn with(at: u32, tokens: &mut &[Token]) -> Result<Weight, ParseError>
    ensures { Gives (λ x. (view_with x, tokens.new.now)) result (with_from at tokens.old.now) }
{
    if is_name(tokens) {
        return Err(fault(Kind::Unsupported(15), tokens));
    }
    let value = signed_number(tokens)?;
    expect(tokens, Token::Semicolon)?;
    Ok(Weight { at, value })
}

/// [WITH signed_number] ";"
#[tactic(auto, unfolding(crate::specs::Reading::either_at, crate::specs::Reading::headed_at, crate::specs::Reading::token_at))]
fn weight(tokens: &mut &[Token]) -> Result<Option<Weight>, ParseError>
    ensures { Gives (λ x. (view_weight x, tokens.new.now)) result (weight_at tokens.old.now) }
{
    match *tokens {
        [Token::Word(at, Keyword::With), rest @ ..] => {
            *tokens = rest;
            Ok(Some(with(*at, tokens)?))
        }
        _ => {
            expect(tokens, Token::Semicolon)?;
            Ok(None)
        }
    }
}

// ---- rules

/// A rule, behind RULE.
#[tactic(auto, unfolding(crate::specs::Reading::rule_from))]
fn rule(alloc: Global, at: u32, tokens: &mut &[Token]) -> Result<Rule, ParseError>
    ensures { Gives (λ x. (view_rule x, tokens.new.now)) result (rule_from at tokens.old.now) }
{
    let label = label(tokens)?;
    expect(tokens, Token::Colon)?;
    let if_at = keyword(tokens, Keyword::If)?;
    let condition = or(alloc, ROOM, tokens)?;
    let then_at = keyword(tokens, Keyword::Then)?;
    let (first, more) = conclusions(alloc, tokens)?;
    let weight = weight(tokens)?;
    Ok(Rule {
        at,
        label,
        if_at,
        condition,
        then_at,
        first,
        more,
        weight,
    })
}

/// One is next where a rule is, or OPTION in its place.
impl Repeated for Rule {
    ghost Tree = { TRuleItem };

    ghost first = { rule_item_classes };

    ghost read_at = { rule_item_at };

    ghost view = { view_rule_item };

    #[tactic(auto, unfolding(crate::specs::Reading::refusing, crate::specs::Reading::headed_at, crate::specs::Reading::token_at))]
    fn next(alloc: Global, tokens: &mut &[Token]) -> Result<Option<Rule>, ParseError> {
        match *tokens {
            [Token::Word(_, Keyword::Options), ..] => Err(fault(Kind::Unsupported(7), tokens)),
            [Token::Word(at, Keyword::Rule), rest @ ..] => {
                *tokens = rest;
                Ok(Some(rule(alloc, *at, tokens)?))
            }
            _ => Ok(None),
        }
    }
}

// ---- the lines before the rules

/// MIN | PROD
#[tactic(auto, unfolding(crate::specs::Reading::either_at, crate::specs::Reading::token_at))]
fn act_word(tokens: &mut &[Token]) -> Result<ActWord, ParseError>
    ensures { Gives (λ x. (view_act_word x, tokens.new.now)) result (act_word_at tokens.old.now) }
{
    let (word, rest) = match *tokens {
        [Token::Name(at, Word::Min), rest @ ..] => (ActWord::Min(*at), rest),
        [Token::Name(at, Word::Prod), rest @ ..] => (ActWord::Prod(*at), rest),
        _ => return Err(fault(Kind::Expected, tokens)),
    };
    *tokens = rest;
    Ok(word)
}

#[tactic(auto, unfolding(crate::specs::Reading::act_at))]
fn act(tokens: &mut &[Token]) -> Result<Activation, ParseError>
    ensures { Gives (λ x. (view_act x, tokens.new.now)) result (act_at tokens.old.now) }
{
    let at = keyword(tokens, Keyword::Act)?;
    expect(tokens, Token::Colon)?;
    let word = act_word(tokens)?;
    expect(tokens, Token::Semicolon)?;
    Ok(Activation { at, word })
}

impl Repeated for RuleLine {
    ghost Tree = { TRuleLine };

    ghost first = { rule_line_classes };

    ghost read_at = { rule_line_at };

    ghost view = { view_rule_line };

    #[tactic(auto, unfolding(crate::specs::Reading::either_at))]
    fn next(alloc: Global, tokens: &mut &[Token]) -> Result<Option<RuleLine>, ParseError> {
        let line = match *tokens {
            [Token::Word(_, Keyword::And), ..] => {
                let refused = (Word::Prod, Word::Bdif);
                RuleLine::And(setting(tokens, Keyword::And, Word::Min, refused, 2)?)
            }
            [Token::Word(_, Keyword::Or), ..] => {
                let refused = (Word::Asum, Word::Bsum);
                RuleLine::Or(setting(tokens, Keyword::Or, Word::Max, refused, 3)?)
            }
            [Token::Word(_, Keyword::Act), ..] => RuleLine::Act(act(tokens)?),
            [Token::Word(_, Keyword::Accu), ..] => RuleLine::Accu(accu(tokens)?),
            _ => return Ok(None),
        };
        Ok(Some(line))
    }
}

#[tactic(auto, unfolding(crate::specs::Reading::rulebase_at), using(crate::proofs::RuleParsers::rule_line_take, crate::proofs::RuleParsers::rule_item_take))]
pub fn rulebase(alloc: Global, tokens: &mut &[Token]) -> Result<Rulebase, ParseError>
    ensures { Gives (λ x. (view_rulebase x, tokens.new.now)) result (rulebase_at tokens.old.now) }
{
    let at = keyword(tokens, Keyword::Ruleblock)?;
    let name = name(tokens)?;
    let lines = many::<RuleLine>(alloc, tokens)?;
    let rules = many::<Rule>(alloc, tokens)?;
    let end = keyword(tokens, Keyword::EndRuleblock)?;
    Ok(Rulebase {
        at,
        name,
        lines,
        rules,
        end,
    })
}
