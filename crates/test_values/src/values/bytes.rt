//! Bytes of a range from 0 to 256, whose cells are one unit wide, and of one from -50 to 205.
ghost use Rattle.std.specs.Prelude.{◌≡◌, IfOk, pos, negsuc};
ghost use Rattle.fuzzy_meaning.specs.Blocks.{IsValidInput, IsValidOutput};

use byte_scaling::{OutOfRange, cell, near, to_byte, value, value16, weight_byte};
use fuzzy_meaning::{Input, Output, Trapezoid};
use fz_list::List;
use fz_num::Dec;
use std::alloc::{AllocError, Global};
use std::test::Fail;

/// An input from 0 to 256 with one term.
fn input(alloc: Global) -> Result<Input, AllocError>
    ensures { IfOk result IsValidInput }
{
    let term = Trapezoid {
        a: None,
        b: Dec(0),
        c: Dec(0),
        d: Some(Dec(2_560_000)),
    };
    Ok(Input {
        lo: Dec(0),
        hi: Dec(2_560_000),
        terms: List::new(vec![in alloc; term]?),
    })
}

/// An output from -50 to 205 with one term, so that a byte is one unit.
fn output(alloc: Global) -> Result<Output, AllocError>
    ensures valid { IfOk result IsValidOutput }
    ensures low { IfOk result (λ o. o.lo.0 ≡ negsuc 499999) }
    ensures high { IfOk result (λ o. o.hi.0 ≡ pos 2050000) }
{
    Ok(Output {
        lo: Dec(-500_000),
        hi: Dec(2_050_000),
        singletons: List::new(vec![in alloc; Dec(0)]?),
        default: None,
    })
}

#[test]
fn cells_are_half_open_but_for_the_last(rt: HostRuntime) -> Result<(), Fail> {
    let input = input(rt.alloc())?;
    for (x, byte) in [
        (0, 0),
        (9_999, 0),
        (10_000, 1),
        (19_999, 1),
        (20_000, 2),
        (649_000, 64),
        (1_279_999, 127),
        (2_549_999, 254),
        (2_550_000, 255),
        (2_560_000, 255),
    ] {
        assert!(rt; to_byte(&input, Dec(x)) == Ok(byte), "{x}");
    }
    assert!(rt; to_byte(&input, Dec(-1)) == Err(OutOfRange));
    assert!(rt; to_byte(&input, Dec(2_560_001)) == Err(OutOfRange));
    for (byte, from, to) in [(0, 0, 1), (1, 1, 2), (255, 255, 256)] {
        let (low, high) = cell(&input, byte);
        assert!(rt; (low.num, low.den) == (from, 256));
        assert!(rt; (high.num, high.den) == (to, 256));
    }
    Ok(())
}

#[test]
fn the_nearest_byte_of_a_tie_is_the_higher(rt: HostRuntime) -> Result<(), Fail> {
    let output = output(rt.alloc())?;
    for (x, byte) in [
        (-500_000, 0),
        (-495_001, 0),
        (-495_000, 1),
        (-494_999, 1),
        (2_050_000, 255),
    ] {
        assert!(rt; near(&output, Dec(x)) == byte, "{x}");
    }
    let number = value(&output, 51);
    assert!(rt; number.num == number.den);
    let number = value16(&output, 51 * 256 + 128);
    assert!(rt; 2 * number.num == 3 * number.den);
    Ok(())
}

#[test]
fn weights_are_bytes(rt: HostRuntime) {
    assert!(rt; weight_byte(None) == 255);
    for (weight, byte) in [(10_000, 255), (9_999, 255), (5_000, 127), (1, 0), (0, 0)] {
        assert!(rt; weight_byte(Some(Dec(weight))) == byte, "{weight}");
    }
}
