//! Truths of conditions.
ghost use Rattle.std.specs.Prelude.{◌≡◌};
ghost use Rattle.fz_num.specs.Fractions.{fraction_of, IsTruth};
ghost use Rattle.fuzzy_meaning.specs.Blocks.{IsValid, IsValidCondition, HasTerm, AreInputs};
ghost use Rattle.fuzzy_meaning.specs.Meaning.{literal_degree, truth as truth_of};

use crate::block::Block;
use crate::condition::{Condition, Node};
use crate::degrees::{NONE, ONE, degree};
use fz_num::{Dec, Frac};

/// The truth of a condition for the input values `xs`: the degree, one minus, the least, the greatest.
pub fn truth(condition: &Condition, block: &Block, xs: &[Dec]) -> Frac
    requires condition { IsValidCondition block.now condition.now }
    requires block { IsValid block.now }
    requires xs { AreInputs block.now xs.now }
    ensures value { fraction_of result ≡ truth_of (literal_degree block.now xs.now) condition.now }
    ensures truth { IsTruth 4000000000 result }
{
    match &condition.node {
        Node::Is(input, term) => literal(block, *input, *term, xs),
        Node::Not(inner) => truth(inner, block, xs).one_minus(),
        Node::And(parts) => {
            let mut least = ONE;
            for k in (0..parts.len()).rev() {
                least = truth(&parts[k], block, xs).min(least);
            }
            least
        }
        Node::Or(parts) => {
            let mut greatest = NONE;
            for k in (0..parts.len()).rev() {
                greatest = truth(&parts[k], block, xs).max(greatest);
            }
            greatest
        }
    }
}

fn literal(block: &Block, input: u8, term: u8, xs: &[Dec]) -> Frac
    requires term { HasTerm block.now input term }
    requires block { IsValid block.now }
    requires xs { AreInputs block.now xs.now }
    ensures value { fraction_of result ≡ literal_degree block.now xs.now input term }
    ensures truth { IsTruth 4000000000 result }
{
    let place = input as usize - 1;
    let terms = block.inputs.as_slice()[place].terms.as_slice();
    degree(&terms[term as usize - 1], xs[place])
}
