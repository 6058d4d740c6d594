//! Blocks that are valid.
ghost use Rattle.std.specs.Prelude.{◌≡◌, IfOk, [], ◌∷◌, None};
ghost use Rattle.fuzzy_meaning.specs.{Blocks.IsValid, Examples.heater as heater_block};

use crate::block::{Block, Input, Output, Rule, Trapezoid};
use crate::condition::Condition;
use fz_list::List;
use fz_num::Dec;
use std::alloc::{AllocError, Global};

/// A heater, for tests and examples: from 0 to 256 the answer rises from 0 to 100.
pub fn heater(alloc: Global) -> Result<Block, AllocError>
    ensures block { IfOk result (λ b. b ≡ heater_block) }
    ensures valid { IfOk result IsValid }
{
    let block = make_heater(alloc)?;
    Ok(block)
}

fn make_heater(alloc: Global) -> Result<Block, AllocError>
    ensures { IfOk result (λ b. b ≡ heater_block) }
{
    let cold = Trapezoid {
        a: None,
        b: Dec(0),
        c: Dec(0),
        d: Some(Dec(2_560_000)),
    };
    let hot = Trapezoid {
        a: Some(Dec(0)),
        b: Dec(2_560_000),
        c: Dec(2_560_000),
        d: None,
    };
    let input = Input {
        lo: Dec(0),
        hi: Dec(2_560_000),
        terms: List::new(vec![in alloc; cold, hot]?),
    };
    let output = Output {
        lo: Dec(0),
        hi: Dec(1_000_000),
        singletons: List::new(vec![in alloc; Dec(0), Dec(1_000_000)]?),
        default: Some(Dec(0)),
    };
    let mut inputs = Vec::new(alloc);
    inputs.push(input)?;
    let mut outputs = Vec::new(alloc);
    outputs.push(output)?;
    let mut rules = Vec::new(alloc);
    rules.push(rule(alloc, Condition::is(1, 1), 1)?)?;
    rules.push(rule(alloc, Condition::is(1, 2), 2)?)?;
    Ok(Block {
        inputs: List::new(inputs),
        outputs: List::new(outputs),
        rules: List::new(rules),
    })
}

fn rule(alloc: Global, condition: Condition, term: u8) -> Result<Rule, AllocError>
    ensures { IfOk result (λ r. r ≡ record { cond = condition; weight = None; concl = (1, term) ∷ [] }) }
{
    Ok(Rule {
        cond: condition,
        weight: None,
        concl: List::new(vec![in alloc; (1, term)]?),
    })
}
