//! Function blocks as plain data.
use crate::condition::Condition;
use fz_list::List;
use fz_num::Dec;

/// A function block. Inputs, outputs and rules count from 1, in the text's order.
#[derive(Drop)]
pub struct Block {
    pub inputs: List<Input>,
    pub outputs: List<Output>,
    pub rules: List<Rule>,
}

/// An input: its range and its terms, which count from 1.
#[derive(Drop)]
pub struct Input {
    pub lo: Dec,
    pub hi: Dec,
    pub terms: List<Trapezoid>,
}

/// A term of an input. `b` is the first point of degree 1 and `c` the last; `a` is the last zero point before `b`
/// and `d` the first after `c`, if there is one.
#[derive(Clone, Copy)]
pub struct Trapezoid {
    pub a: Option<Dec>,
    pub b: Dec,
    pub c: Dec,
    pub d: Option<Dec>,
}

/// An output: its range, the singletons of its terms, which count from 1, and its DEFAULT, if that is a number.
/// With `DEFAULT := NC` it keeps the last answer.
#[derive(Drop)]
pub struct Output {
    pub lo: Dec,
    pub hi: Dec,
    pub singletons: List<Dec>,
    pub default: Option<Dec>,
}

/// A rule: its condition, its weight if it has a WITH, and its conclusions, each an output and one of its terms.
#[derive(Drop)]
pub struct Rule {
    pub cond: Condition,
    pub weight: Option<Dec>,
    pub concl: List<(u8, u8)>,
}
