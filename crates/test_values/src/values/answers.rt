//! Exact answers, and the values of bytes.
ghost use Rattle.std.specs.Prelude.{◌∷◌, [], IsTrue};
ghost use Rattle.fuzzy_meaning.specs.Blocks.{IsValid, AreInputs};

use super::blocks::block_in;
use byte_scaling::{to_byte, value};
use fuzzy_meaning::{Block, exact, heater, mass, strength};
use fz_num::{Dec, Frac};
use std::test::Fail;
use test_texts::{BLOCK, HALF_WEIGHT};

#[test]
fn a_heater_fires_both_rules(rt: HostRuntime) -> Result<(), Fail> {
    let block = heater(rt.alloc())?;
    let xs = [Dec(640_000)];
    let cold = strength(&block, 1, &xs);
    assert!(rt; cold.num * 4 == cold.den * 3);
    let hot = mass(&block, 1, 2, &xs);
    assert!(rt; hot.num * 4 == hot.den);
    Ok(())
}

/// The parts of a text, and for the input 64 the exact answer, the byte answer, and the value of that byte.
struct Answered {
    fcl: &'static [&'static str],
    exact: i128,
    byte: u8,
    value: (i128, i128),
}

static ANSWERS: [Answered; 2] = [
    Answered {
        fcl: &[BLOCK],
        exact: 25,
        byte: 64,
        value: (6400, 255),
    },
    Answered {
        fcl: &HALF_WEIGHT,
        exact: 40,
        byte: 102,
        value: (40, 1),
    },
];

/// Whether a number is in range of a block's only input.
fn is_input(block: &Block, x: Dec) -> bool
    requires { IsValid block.now }
    ensures { IsTrue result → AreInputs block.now (x ∷ []) }
{
    match block.inputs.as_slice() {
        [input] => to_byte(input, x).is_ok(),
        _ => false,
    }
}

/// Whether a fraction is equal to that of these small numbers.
fn is_over(fraction: Frac, wanted: (i128, i128)) -> bool {
    match (
        fraction.num.checked_mul(wanted.1),
        fraction.den.checked_mul(wanted.0),
    ) {
        (Some(left), Some(right)) => left == right,
        _ => false,
    }
}

#[test]
fn answers_are_the_mean_of_singletons(rt: HostRuntime) -> Result<(), Fail> {
    let alloc = rt.alloc();
    for row in ANSWERS.iter() {
        let block = block_in(alloc, row.fcl)?;
        let x = Dec(640_000);
        assert!(rt; is_input(&block, x));
        assert!(rt; block.outputs.len() == 1);
        let before = Frac { num: 0, den: 1 };
        let answer = exact(&block, 1, &[x], before).ok_or("two terms at most")?;
        assert!(rt; is_over(answer, (row.exact, 1)));
        let output = &block.outputs.as_slice()[0];
        assert!(rt; is_over(value(output, row.byte), row.value));
    }
    Ok(())
}
