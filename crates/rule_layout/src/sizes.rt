//! How much conditions spread into, computed without spreading them.
ghost use Rattle.std.specs.Prelude.{ℕ, ◌+◌, ◌*◌, ◌<◌, ◌≤◌, ◌^◌, map, MatchOption};
ghost use Rattle.fuzzy_meaning.specs.Conditions.{conditions, nodes, total_nodes};
ghost use Rattle.rule_layout.specs.{Spreading.spread_of, Spreading.spread_parts, Sizes.IsSizeOf};
ghost use Rattle.rule_layout.specs.Grid.{FitsGrid, AllFitGrid};

use fuzzy_meaning::{Condition, Node};

/// The most conjunctions that rules may have in all.
pub const MOST_CONJUNCTIONS: u32 = 512;

/// A number of conjunctions, at most 512, and of entries in them.
#[derive(Clone, Copy)]
pub struct Size {
    pub conjunctions: u32,
    pub entries: u32,
}

impl Size {
    ghost use Rattle.rule_layout.specs.Sizes.{IsSum, IsProduct, IsJoined, IsSmall};

    pub const NONE: Size = Size {
        conjunctions: 0,
        entries: 0,
    };

    /// One conjunction without entries.
    pub const EMPTY: Size = Size {
        conjunctions: 1,
        entries: 0,
    };

    /// One conjunction of one entry.
    pub const LITERAL: Size = Size {
        conjunctions: 1,
        entries: 1,
    };

    /// The conjunctions of both, if they are few enough.
    pub fn plus(self, other: Size) -> Option<Size>
        requires self_small { IsSmall self }
        requires other_small { IsSmall other }
        ensures { IsSum self other result }
    {
        let conjunctions = self.conjunctions + other.conjunctions;
        if conjunctions > MOST_CONJUNCTIONS {
            return None;
        }
        Some(Size {
            conjunctions,
            entries: self.entries + other.entries,
        })
    }

    /// Each conjunction followed by each of the other's, if they are few enough.
    fn times(self, other: Size) -> Option<Size>
        requires self_small { IsSmall self }
        requires other_small { IsSmall other }
        ensures { IsProduct self other result }
    {
        let conjunctions = self.conjunctions * other.conjunctions;
        if conjunctions > MOST_CONJUNCTIONS {
            return None;
        }
        Some(Size {
            conjunctions,
            entries: self.entries * other.conjunctions + self.conjunctions * other.entries,
        })
    }

    /// The conjunctions of an OR, `any`, or else of an AND, of both, if they are few enough.
    fn joined(self, other: Size, any: bool) -> Option<Size>
        requires self_small { IsSmall self }
        requires other_small { IsSmall other }
        ensures { IsJoined any self other result }
    {
        if any {
            self.plus(other)
        } else {
            self.times(other)
        }
    }
}

/// What a condition spreads into, or `None` if that is more than 512 conjunctions. `odd` is set under an odd
/// number of NOTs, where an AND is an OR and an OR an AND.
#[cycle(size)]
pub fn size_of(condition: &Condition, odd: bool) -> Option<Size>
    requires fits { FitsGrid condition.now }
    requires few { nodes condition.now ≤ 1048576 }
    ensures { IsSizeOf (spread_of odd condition.now) result }
{
    match &condition.node {
        Node::Is(_, _) => Some(Size::LITERAL),
        Node::Not(part) => size_of(part, !odd),
        Node::And(parts) => size_of_parts(parts, odd, odd),
        Node::Or(parts) => size_of_parts(parts, odd, !odd),
    }
}

/// The same for the parts of an OR, `any`, or else of an AND.
#[cycle(size)]
fn size_of_parts(parts: &[Condition], odd: bool, any: bool) -> Option<Size>
    requires fits { AllFitGrid (conditions parts.now) }
    requires few { total_nodes (conditions parts.now) ≤ 1048576 }
    ensures { IsSizeOf (spread_parts odd any (conditions parts.now)) result }
{
    let mut total = if any { Size::NONE } else { Size::EMPTY };
    for part in parts {
        let size = size_of(part, odd)?;
        total = total.joined(size, any)?;
    }
    Some(total)
}
