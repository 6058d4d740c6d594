//! The block of a tree: its rules, and the whole.

ghost use Rattle.std.specs.Prelude.{◌≡◌, IfOk, map, option_map};
ghost use Rattle.std.specs.List.{AllZip};
ghost use Rattle.fcl_syntax.specs.declared.{tree.Weight.Weight, tree.Direction.TheVariants.Output as OutputSide};
ghost use Rattle.fcl_check.specs.{Faults.conclusions_of, Sections.value, Sources.block_of, Sources.text_of};
ghost use Rattle.fcl_check.specs.Loaded.{number_of, conclusion_of, IsRuleOf, IsBlockOf};
ghost use Rattle.fcl_check.specs.WellFormed.{AreConcluded, IsKnown, IsWellFormedRule};

use super::conditions::or;
use super::source::{Source, numbers};
use super::variables::variables;
use crate::numbers::value;
use fcl_syntax::{Conclusion, Direction};
use fuzzy_meaning::{Block, Input, Output};
use fz_list::List;
use fz_num::Dec;
use std::alloc::AllocError;

fn weight(rule: &fcl_syntax::Rule) -> Option<Dec>
    ensures same { number_of result ≡ option_map (λ (w : Weight). value w.value) rule.now.weight }
{
    rule.weight.map(|weight| value(weight.value))
}

fn conclusion(source: &Source<'_, '_>, conclusion: &Conclusion) -> (u8, u8)
    requires { IsKnown (text_of source.now) (block_of source.now) OutputSide conclusion.now.variable
        conclusion.now.term }
    ensures same { result ≡ conclusion_of (text_of source.now) (block_of source.now) conclusion.now }
{
    numbers(
        source,
        Direction::Output,
        conclusion.variable,
        conclusion.term,
    )
}

fn conclusions(
    source: &Source<'_, '_>,
    rule: &fcl_syntax::Rule,
) -> Result<Vec<(u8, u8)>, AllocError>
    requires { AreConcluded (text_of source.now) (block_of source.now) (conclusions_of rule.now) }
    ensures same { IfOk result (λ v. v.items ≡ map
        (conclusion_of (text_of source.now) (block_of source.now)) (conclusions_of rule.now)) }
{
    let mut places = Vec::new(source.alloc);
    places.push(conclusion(source, &rule.first))?;
    for more in rule.more.as_slice() {
        places.push(conclusion(source, more))?;
    }
    Ok(places)
}

fn rule(source: &Source<'_, '_>, rule: &fcl_syntax::Rule) -> Result<fuzzy_meaning::Rule, AllocError>
    requires { IsWellFormedRule (text_of source.now) (block_of source.now) rule.now }
    ensures { IfOk result (IsRuleOf (text_of source.now) (block_of source.now) rule.now) }
{
    let condition = or(source, &rule.condition)?;
    let conclusions = conclusions(source, rule)?;
    Ok(fuzzy_meaning::Rule {
        cond: condition,
        weight: weight(rule),
        concl: List::new(conclusions),
    })
}

fn rules(source: &Source<'_, '_>) -> Result<Vec<fuzzy_meaning::Rule>, AllocError>
    ensures { IfOk result (λ v.
        AllZip (IsRuleOf (text_of source.now) (block_of source.now)) (block_of source.now).rules.rules v.items) }
{
    let mut rules = Vec::new(source.alloc);
    for next in source.names.tree.block.rules.rules.as_slice() {
        let next = rule(source, next)?;
        rules.push(next)?;
    }
    Ok(rules)
}

/// The block of a tree that has no load fault.
pub fn block(source: &Source<'_, '_>) -> Result<Block, AllocError>
    ensures { IfOk result (IsBlockOf (text_of source.now) (block_of source.now)) }
{
    let inputs = variables::<Input>(source)?;
    let outputs = variables::<Output>(source)?;
    let rules = rules(source)?;
    Ok(Block {
        inputs: List::new(inputs),
        outputs: List::new(outputs),
        rules: List::new(rules),
    })
}
