//! The syntax of the Fuzzy Control Language: from tokens to trees, and so from texts to trees.
//!
//! [`parse`] reads the text of one function block, by the grammar of IEC 61131-7 in the profile of
//! `docs/LANGUAGE.md`, over the tokens into which `fcl_tokens` cuts it. It returns the [`Tree`] that
//! the text spells, or the text's first [`SyntaxFault`] with its offset.
#![tactic(auto)]

mod block;
mod conditions;
mod fault;
pub mod laws;
mod repeated;
mod rules;
mod single;
mod terms;
mod text;
mod tree;
mod variables;

pub use text::{SyntaxFault, parse};
pub use tree::{
    ActWord, Activation, And, Conclusion, Declaration, Defuzzify, DefuzzyLine, Degree, Direction,
    Fallback, FallbackValue, FunctionBlock, Fuzzify, FuzzyLine, Label, Name, Node, Not, Number,
    Operand, Or, Part, Point, Range, Rule, RuleLine, Rulebase, Setting, SignedNumber, Singleton,
    Term, Tree, UnitNumber, Variables, Weight, ZeroNumber,
};
