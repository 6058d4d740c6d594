//! The tree of a text: a node for each production of the grammar, its parts in their order.
//!
//! Keywords, names, numbers and opening parentheses have their offset in the text, a keyword mostly
//! as the `at` of the node that it begins. A contract sees a condition as a tree of the grammar, and
//! a list as its items, so that two trees of one text are equal.

ghost use Rattle.std.specs.Prelude.{◌≡◌, drop};
ghost use Rattle.std.specs.List.{take_while};
ghost use Rattle.fcl_tokens.specs.Tokens.{is_name_byte};
ghost use Rattle.fcl_syntax.specs.Text.{IsSpelled};

use fcl_tokens::{Amount, Word, name_len};
use fz_list::List;
use std::marker::Model;

/// The tree of a text, with a copy of the text in lower case.
///
/// It always belongs to a text of at most 1048576 bytes that spells it. So at most 64 parentheses
/// and NOT are open at once in a condition, and the number of all conditions and conclusions is less
/// than that of the text's bytes.
#[derive(Drop)]
pub struct Tree {
    pub text: Vec<u8>,
    pub block: FunctionBlock,
    pub ghost spelled: { ∥ IsSpelled text.items block ∥₁ },
}

impl Tree {
    /// A name in lower case, so that names that differ only in case are equal.
    pub fn letters(&self, name: Name) -> &[u8]
        ensures { result.now ≡ take_while is_name_byte (drop name.at self.now.text.items) }
    {
        let text = self.text.as_slice();
        let rest = text.split_at((name.at as usize).min(text.len())).1;
        rest.split_at(name_len(rest)).0
    }
}

/// A name. Its letters are in the text at its offset.
#[derive(Clone, Copy)]
pub struct Name {
    pub at: u32,
    pub word: Word,
}

/// A function block. `end` is the offset of END_FUNCTION_BLOCK.
#[derive(Drop)]
pub struct FunctionBlock {
    pub at: u32,
    pub name: Name,
    pub variables: List<Variables>,
    pub parts: List<Part>,
    pub rules: Rulebase,
    pub end: u32,
}

#[derive(Clone, Copy, PartialEq, Eq)]
pub enum Direction {
    Input,
    Output,
}

/// VAR_INPUT or VAR_OUTPUT up to END_VAR.
#[derive(Drop)]
pub struct Variables {
    pub at: u32,
    pub direction: Direction,
    pub declarations: List<Declaration>,
    pub end: u32,
}

/// Names of one type. `real` is the offset of REAL.
#[derive(Drop)]
pub struct Declaration {
    pub first: Name,
    pub more: List<Name>,
    pub real: u32,
}

#[derive(Drop)]
pub enum Part {
    Fuzzify(Fuzzify),
    Defuzzify(Defuzzify),
}

/// FUZZIFY up to END_FUZZIFY.
#[derive(Drop)]
pub struct Fuzzify {
    pub at: u32,
    pub name: Name,
    pub lines: List<FuzzyLine>,
    pub end: u32,
}

#[derive(Drop)]
pub enum FuzzyLine {
    Term(Term),
    Range(Range),
}

/// A term of an input.
#[derive(Drop)]
pub struct Term {
    pub at: u32,
    pub name: Name,
    pub first: Point,
    pub more: List<Point>,
}

/// A point of a term. `open_at` is the offset of its parenthesis.
#[derive(Clone, Copy)]
pub struct Point {
    pub open_at: u32,
    pub x: SignedNumber,
    pub degree: Degree,
}

/// A number. `whole` means that it is written without a point.
#[derive(Clone, Copy)]
pub struct Number {
    pub at: u32,
    pub amount: Amount,
    pub whole: bool,
}

/// A number with or without a sign.
#[derive(Clone, Copy)]
pub enum SignedNumber {
    Plus(Number),
    Minus(Number),
    Bare(Number),
}

/// A number that is 0 or 1.
#[derive(Clone, Copy)]
pub struct UnitNumber {
    pub at: u32,
    pub is_one: bool,
    pub whole: bool,
}

/// A number that is 0.
#[derive(Clone, Copy)]
pub struct ZeroNumber {
    pub at: u32,
    pub whole: bool,
}

/// A degree, with or without a sign.
#[derive(Clone, Copy)]
pub enum Degree {
    Plus(UnitNumber),
    Minus(ZeroNumber),
    Bare(UnitNumber),
}

/// RANGE. `assigned` means that `:=` follows it, `open_at` is the offset of its parenthesis.
#[derive(Clone, Copy)]
pub struct Range {
    pub at: u32,
    pub assigned: bool,
    pub open_at: u32,
    pub low: SignedNumber,
    pub high: SignedNumber,
}

/// DEFUZZIFY up to END_DEFUZZIFY.
#[derive(Drop)]
pub struct Defuzzify {
    pub at: u32,
    pub name: Name,
    pub lines: List<DefuzzyLine>,
    pub end: u32,
}

#[derive(Clone, Copy)]
pub enum DefuzzyLine {
    Singleton(Singleton),
    Accu(Setting),
    Method(Setting),
    Default(Fallback),
    Range(Range),
}

/// A term of an output.
#[derive(Clone, Copy)]
pub struct Singleton {
    pub at: u32,
    pub name: Name,
    pub value: SignedNumber,
}

/// A line `KEYWORD : word ;` with only one possible word. `word` is the offset of that word.
#[derive(Clone, Copy)]
pub struct Setting {
    pub at: u32,
    pub word: u32,
}

/// DEFAULT.
#[derive(Clone, Copy)]
pub struct Fallback {
    pub at: u32,
    pub value: FallbackValue,
}

/// What follows `DEFAULT :=`: a number, or NC with its offset.
#[derive(Clone, Copy)]
pub enum FallbackValue {
    Number(SignedNumber),
    Nc(u32),
}

/// RULEBLOCK up to END_RULEBLOCK.
#[derive(Drop)]
pub struct Rulebase {
    pub at: u32,
    pub name: Name,
    pub lines: List<RuleLine>,
    pub rules: List<Rule>,
    pub end: u32,
}

#[derive(Clone, Copy)]
pub enum RuleLine {
    And(Setting),
    Or(Setting),
    Act(Activation),
    Accu(Setting),
}

/// ACT, with the offset of its word.
#[derive(Clone, Copy)]
pub struct Activation {
    pub at: u32,
    pub word: ActWord,
}

#[derive(Clone, Copy)]
pub enum ActWord {
    Min(u32),
    Prod(u32),
}

/// A rule. `if_at` and `then_at` are the offsets of IF and THEN.
#[derive(Drop)]
pub struct Rule {
    pub at: u32,
    pub label: Label,
    pub if_at: u32,
    pub condition: Or,
    pub then_at: u32,
    pub first: Conclusion,
    pub more: List<Conclusion>,
    pub weight: Option<Weight>,
}

/// The number of a rule, which is only a label.
#[derive(Clone, Copy)]
pub struct Label {
    pub at: u32,
    pub amount: Amount,
}

/// Parts of a condition with OR between them, each after the first with the offset of its OR.
#[derive(Drop)]
#[cycle(condition)]
pub struct Or {
    pub first: And,
    pub more: Vec<(u32, And)>,
}

impl Model for Or {
    ghost use Rattle.fcl_syntax.specs.Grammar.{TOr, or_of};
    ghost use Rattle.fcl_syntax.specs.ConditionCodes.{or_code};

    ghost Value = { TOr };

    ghost coded = { or_code };

    ghost use Rattle.fcl_syntax.specs.Conditions.{ands_of, or_size};

    ghost view = { λ o. or_of o.first (ands_of o.more.items) };

    ghost size = { or_size };

    ghost use Rattle.std.proofs.Common.{arith};
    ghost use Rattle.fcl_syntax.specs.ConditionsFall.{weight-ands};

    ghost size_decreases = { λ o h. omega (arith, weight-ands o.more) };
}

/// Parts of a condition with AND between them, each after the first with the offset of its AND.
#[derive(Drop)]
#[cycle(condition)]
pub struct And {
    pub first: Not,
    pub more: Vec<(u32, Not)>,
}

impl Model for And {
    ghost use Rattle.fcl_syntax.specs.Grammar.{TAnd, and_of};
    ghost use Rattle.fcl_syntax.specs.ConditionCodes.{and_code};

    ghost Value = { TAnd };

    ghost coded = { and_code };

    ghost use Rattle.fcl_syntax.specs.Conditions.{nots_of, and_size};

    ghost view = { λ a. and_of a.first (nots_of a.more.items) };

    ghost size = { and_size };

    ghost use Rattle.std.proofs.Common.{arith};
    ghost use Rattle.fcl_syntax.specs.ConditionsFall.{weight-nots};

    ghost size_decreases = { λ a h. omega (arith, weight-nots a.more) };
}

/// A part of a condition.
#[derive(Drop)]
#[cycle(condition)]
pub struct Not {
    pub node: Node,
}

/// NOT with what it negates, a parenthesis with its content, or an operand.
#[derive(Drop)]
#[cycle(condition)]
pub enum Node {
    Not(u32, Box<Not>),
    Group(u32, Box<Or>),
    Is(Operand),
}

impl Model for Not {
    ghost use Rattle.fcl_syntax.specs.Grammar.{TNot};
    ghost use Rattle.fcl_syntax.specs.ConditionCodes.{not_code};

    ghost Value = { TNot };

    ghost coded = { not_code };

    ghost use Rattle.fcl_syntax.specs.Conditions.{not_of, not_size};

    ghost view = { λ n. not_of n.node };

    ghost size = { not_size };

    ghost use Rattle.fcl_syntax.specs.ConditionsFall.{parts_are_smaller};

    ghost size_decreases = { λ n h. parts_are_smaller n.node };
}

/// `name IS [NOT] name`, with the offsets of IS and NOT.
#[derive(Clone, Copy)]
pub struct Operand {
    pub variable: Name,
    pub is_at: u32,
    pub not_at: Option<u32>,
    pub term: Name,
}

/// `name IS name` after THEN.
#[derive(Clone, Copy)]
pub struct Conclusion {
    pub variable: Name,
    pub is_at: u32,
    pub term: Name,
}

/// WITH and its number.
#[derive(Clone, Copy)]
pub struct Weight {
    pub at: u32,
    pub value: SignedNumber,
}
