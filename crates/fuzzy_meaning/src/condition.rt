//! Conditions of rules.
//!
//! A contract sees a condition as a tree, wherever its parts are in memory: two conditions with the same tree are
//! equal.
ghost use Rattle.std.specs.Prelude.{◌≡◌, IfOk};
ghost use Rattle.fuzzy_meaning.specs.Conditions.{is as is_of, negation, all as all_of, any as any_of, conditions};

use std::alloc::{AllocError, Global};
use std::marker::Model;

/// A condition of a rule.
#[derive(Drop)]
#[cycle(condition)]
pub struct Condition {
    pub node: Node,
}

/// A condition's operator with its parts. `Is` names an input and one of its terms.
#[derive(Drop)]
#[cycle(condition)]
pub enum Node {
    Is(u8, u8),
    Not(Box<Condition>),
    And(Vec<Condition>),
    Or(Vec<Condition>),
}

impl Model for Condition {
    ghost use Rattle.fuzzy_meaning.specs.Conditions.{Condition as Tree};
    ghost use Rattle.fuzzy_meaning.specs.Codes.{condition_code};

    ghost Value = { Tree };

    ghost coded = { condition_code };

    ghost use Rattle.fuzzy_meaning.specs.Trees.{tree};

    ghost view = { λ c. tree c.node };

    ghost use Rattle.fuzzy_meaning.specs.Conditions.{nodes};

    ghost size = { nodes };

    ghost use Rattle.fuzzy_meaning.specs.TreeFalls.{parts_are_smaller};

    ghost size_decreases = { λ c h. parts_are_smaller c.node };
}

impl Condition {
    /// The condition that an input is one of its terms, both counted from 1.
    pub fn is(input: u8, term: u8) -> Condition
        ensures { result ≡ is_of input term }
    {
        Condition {
            node: Node::Is(input, term),
        }
    }

    /// The NOT of a condition.
    pub fn not(alloc: Global, condition: Condition) -> Result<Condition, AllocError>
        ensures { IfOk result (λ c. c ≡ negation condition) }
    {
        let condition = Box::new(alloc, condition)?;
        Ok(Condition {
            node: Node::Not(condition),
        })
    }

    /// The AND of conditions. In a valid block there is at least one.
    pub fn all(parts: Vec<Condition>) -> Condition
        ensures { result ≡ all_of (conditions parts.items) }
    {
        Condition {
            node: Node::And(parts),
        }
    }

    /// The OR of conditions. In a valid block there is at least one.
    pub fn any(parts: Vec<Condition>) -> Condition
        ensures { result ≡ any_of (conditions parts.items) }
    {
        Condition {
            node: Node::Or(parts),
        }
    }
}
