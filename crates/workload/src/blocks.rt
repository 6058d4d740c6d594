//! The block that is drawn.
ghost use Rattle.std.specs.Prelude.{◌≡◌, ◌<◌, IfOk};
ghost use Rattle.workload.specs.Blocks.{drawn_block, drawn_input, drawn_output, drawn_rule, drawn_rules, term_number};
ghost use Rattle.workload.specs.Blocks.{whole};

use fuzzy_meaning::{Block, Condition, Input, Output, Rule, Trapezoid};
use fz_list::List;
use fz_num::Dec;
use std::alloc::{AllocError, Global};

/// The block with this shift.
pub(crate) fn block_of(alloc: Global, shift: u8) -> Result<Block, AllocError>
    requires { shift < 5 }
    ensures { IfOk result (λ block. block ≡ drawn_block shift) }
{
    let mut inputs = Vec::new(alloc);
    inputs.push(input(alloc)?)?;
    inputs.push(input(alloc)?)?;
    let mut outputs = Vec::new(alloc);
    outputs.push(output(alloc)?)?;
    Ok(Block {
        inputs: List::new(inputs),
        outputs: List::new(outputs),
        rules: List::new(rules(alloc, shift)?),
    })
}

fn input(alloc: Global) -> Result<Input, AllocError>
    ensures { IfOk result (λ input. input ≡ drawn_input) }
{
    let mut terms = Vec::new(alloc);
    for j in 0..9u8 {
        terms.push(term(j))?;
    }
    Ok(Input {
        lo: whole(0),
        hi: whole(256),
        terms: List::new(terms),
    })
}

/// The term with this number, from 0.
fn term(j: u8) -> Trapezoid
    requires { j < 9 }
    ensures { result ≡ term_number j }
{
    let top = 32 * u16::from(j);
    Trapezoid {
        a: if j == 0 { None } else { Some(whole(top - 32)) },
        b: whole(top),
        c: whole(top),
        d: if j == 8 { None } else { Some(whole(top + 32)) },
    }
}

fn output(alloc: Global) -> Result<Output, AllocError>
    ensures { IfOk result (λ output. output ≡ drawn_output) }
{
    let singletons = vec![in alloc; whole(0), whole(25), whole(50), whole(75), whole(100)]?;
    Ok(Output {
        lo: whole(0),
        hi: whole(100),
        singletons: List::new(singletons),
        default: Some(whole(0)),
    })
}

fn rules(alloc: Global, shift: u8) -> Result<Vec<Rule>, AllocError>
    requires { shift < 5 }
    ensures { IfOk result (λ rules. rules.items ≡ drawn_rules shift) }
{
    let mut rules = Vec::new(alloc);
    for n in 0..81u8 {
        rules.push(rule(alloc, shift, n)?)?;
    }
    Ok(rules)
}

/// Rule number n, from 0.
fn rule(alloc: Global, shift: u8, n: u8) -> Result<Rule, AllocError>
    requires shift { shift < 5 }
    requires number { n < 81 }
    ensures { IfOk result (λ rule. rule ≡ drawn_rule shift n) }
{
    let (i, j) = (n / 9, n % 9);
    let mut parts = Vec::new(alloc);
    parts.push(Condition::is(1, i + 1))?;
    parts.push(Condition::is(2, j + 1))?;
    let concl = vec![in alloc; (1, (i + 2 * j + shift) % 5 + 1)]?;
    Ok(Rule {
        cond: Condition::all(parts),
        weight: None,
        concl: List::new(concl),
    })
}

/// A whole number.
fn whole(n: u16) -> Dec
    ensures { result ≡ whole n }
{
    Dec(i64::from(n) * 10_000)
}
