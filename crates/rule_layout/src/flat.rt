//! Rules as they are laid out.
use fz_list::List;

/// A byte that the rules read or write. Variables and terms count from 1.
#[derive(Clone, Copy, PartialEq, Eq)]
pub enum Slot {
    /// The degree of an input's term.
    Term(u8, u8),
    /// 255 minus the degree of an input's term.
    Complement(u8, u8),
    /// The mass of an output's term.
    Out(u8, u8),
}

/// A rule without OR and NOT, by the numbers of its slots, which count from 0. The truth of its condition is the
/// least of its literals.
#[derive(Drop)]
pub struct Conjunction {
    pub literals: List<u16>,
    pub conclusions: List<u16>,
}

/// The instruction that evaluates the rules (CPU12 Reference Manual).
#[derive(Clone, Copy, PartialEq, Eq)]
pub enum RuleInstruction {
    /// Rules without weights over slots that a byte can number.
    Rev,
    /// Rules with weights over slots by their addresses.
    Revw,
}

/// A block's rules laid out.
#[derive(Drop)]
pub struct Flat {
    /// The input terms, the complements that some rule uses and the output terms.
    pub slots: List<Slot>,
    /// The conjunctions of each rule, in the rules' order.
    pub conjunctions: List<Conjunction>,
    /// A byte for each conjunction, 255 for a weight of 1.
    pub weights: List<u8>,
    pub instruction: RuleInstruction,
}

/// Why rules cannot be laid out.
#[derive(Clone, Copy, PartialEq, Eq, Debug)]
pub enum LayoutFault {
    /// More than 512 conjunctions: the first rule, from 1, that exceeds this number.
    TooManyRules(u16),
    /// The list has this number of bytes, which is above 9984.
    ListTooLong(u32),
    /// Out of memory.
    Memory,
}
