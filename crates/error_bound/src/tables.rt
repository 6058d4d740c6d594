//! What boxes need to know about a block, and the reaches of all terms over a box.
ghost use Rattle.std.specs.Prelude.{◌≡◌, ◌≤◌, ◌-◌, IfOk, IfSome, IsSomeAnd, IsTrue, None, Some, map};
ghost use Rattle.std.specs.Prelude.{slice_get};
ghost use Rattle.fuzzy_meaning.specs.Blocks.{IsValid, IsValidInput, IsValidTerm};
ghost use Rattle.error_bound.specs.{declared.tables.InputCells.InputCells as TheCells, Boxes.IsBoxOf};
ghost use Rattle.error_bound.specs.Reaches.{AreTermCells, AreInputCells, AreAllCells, AreRuleConditions};
ghost use Rattle.error_bound.specs.Reaches.{AreRuleLiterals, literal_of};
ghost use Rattle.fuzzy_meaning.specs.Conditions.{all, conditions};
ghost use Rattle.error_bound.specs.Reaches.{IsBlockTable, IsKept, all_bytes, IsReachOfTerm, AreInputReaches};
ghost use Rattle.error_bound.specs.Reaches.{IsTable, block_of};

use crate::boxes::{ByteBox, Interval};
use crate::cells::TermCells;
use crate::degrees::degrees_of;
use crate::ends::{End, Ends};
use crate::flattening::flattened;
use crate::laws::flattening_keeps_reaches;
use crate::masses::MassEnds;
use crate::reaches::{Literal, Reach, literal_in};
use crate::still::{NO_MARKS, StillRules};
use arrayvec::ArrayVec;
use byte_scaling::Width;
use cell_error::Deviation;
use fuzzy_meaning::{Block, Condition, Input, Node, Rule, Trapezoid};
use std::alloc::{AllocError, Global};

/// The cells of an input's terms.
#[derive(Drop)]
pub(crate) struct InputCells {
    pub(crate) terms: [TermCells; 15],
}

impl InputCells {
    /// The cells of an input's terms at the bytes of an interval.
    pub(crate) fn new(input: &Input, bytes: Interval) -> InputCells
        requires { IsValidInput input.now }
        ensures { AreInputCells input.now bytes result }
    {
        let mut terms = [TermCells::NONE; 15];
        for t in 0..input.terms.len() {
            terms[t] = TermCells::new(input, t as u8 + 1, bytes);
        }
        InputCells { terms }
    }
}

/// What boxes need to know about a block, made once for all of them.
#[derive(Drop)]
pub struct BlockTable<'a> {
    /// The block that the table was made from.
    pub block: &'a Block,
    /// The width of the answers.
    pub width: Width,
    pub(crate) kept: Option<Kept>,
}

/// What is computed in advance where there are many boxes.
#[derive(Drop)]
pub(crate) struct Kept {
    /// The cells of the inputs' terms.
    pub(crate) inputs: Vec<InputCells>,
    /// The rules' conditions, flat.
    pub(crate) conditions: Vec<Condition>,
    /// The literals of each rule without a weight whose flat condition is an AND of literals.
    pub(crate) literals: Vec<Option<Vec<Literal>>>,
}

impl<'a> BlockTable<'a> {
    /// The table for many boxes. It takes some 35 KB for each input, a copy of each condition and three bytes for each of
    /// its literals, and one or two divisions for each byte of each term.
    pub fn new(alloc: Global, block: &'a Block, width: Width) -> Result<BlockTable<'a>, AllocError>
        requires { IsValid block.now }
        ensures table { IfOk result IsBlockTable }
        ensures kept { IfOk result (λ table. IsSomeAnd table.kept (IsKept block.now)) }
        ensures block { IfOk result (λ table. table.block.now ≡ block.now) }
        ensures width { IfOk result (λ table. table.width ≡ width) }
    {
        let inputs = all_cells(alloc, block)?;
        let conditions = flat_conditions(alloc, block)?;
        let literals = rule_literals(alloc, block, conditions.as_slice())?;
        let kept = Some(Kept {
            inputs,
            conditions,
            literals,
        });
        Ok(BlockTable { block, width, kept })
    }

    /// The table for one box. It allocates no memory.
    pub fn for_one_box(block: &'a Block, width: Width) -> BlockTable<'a>
        requires { IsValid block.now }
        ensures table { IsBlockTable result }
        ensures block { result.block.now ≡ block.now }
        ensures width { result.width ≡ width }
    {
        BlockTable {
            block,
            width,
            kept: None,
        }
    }
}

/// The cells of all terms of a block.
fn all_cells(alloc: Global, block: &Block) -> Result<Vec<InputCells>, AllocError>
    requires { IsValid block.now }
    ensures { IfOk result (λ v. AreAllCells block.now v.items) }
{
    let all = Interval { from: 0, to: 255 };
    let mut inputs = Vec::new(alloc);
    for input in block.inputs.as_slice() {
        inputs.push(InputCells::new(input, all))?;
    }
    Ok(inputs)
}

/// The flat conditions of a block's rules.
fn flat_conditions(alloc: Global, block: &Block) -> Result<Vec<Condition>, AllocError>
    ensures { IfOk result (λ v. AreRuleConditions block.now v.items) }
{
    flattening_keeps_reaches();
    let mut conditions = Vec::new(alloc);
    for rule in block.rules.as_slice() {
        let condition = flattened(alloc, &rule.cond)?;
        conditions.push(condition)?;
    }
    Ok(conditions)
}

/// The literals of a block's rules, given their flat conditions.
fn rule_literals(
    alloc: Global,
    block: &Block,
    conditions: &[Condition],
) -> Result<Vec<Option<Vec<Literal>>>, AllocError>
    requires { AreRuleConditions block.now conditions.now }
    ensures { IfOk result (λ v. AreRuleLiterals block.now v.items) }
{
    let rules = block.rules.as_slice();
    let mut lists = Vec::new(alloc);
    for k in 0..rules.len() {
        let literals = literals_of(alloc, &rules[k], &conditions[k])?;
        lists.push(literals)?;
    }
    Ok(lists)
}

/// The literals of a rule that has this flat condition, if it has no weight and the condition is an AND of literals.
fn literals_of(
    alloc: Global,
    rule: &Rule,
    condition: &Condition,
) -> Result<Option<Vec<Literal>>, AllocError>
    ensures { IfOk result (λ o. IfSome o (λ v. (rule.now.weight ≡ None)
        × (condition.now ≡ all (conditions (map literal_of v.items))))) }
{
    if rule.weight.is_some() {
        return Ok(None);
    }
    match &condition.node {
        Node::And(parts) => literals_among(alloc, parts.as_slice()),
        _ => Ok(None),
    }
}

/// Conditions as literals, if they all are.
fn literals_among(alloc: Global, parts: &[Condition]) -> Result<Option<Vec<Literal>>, AllocError>
    ensures { IfOk result (λ o. IfSome o (λ v. parts.now ≡ map literal_of v.items)) }
{
    let mut literals = Vec::new(alloc);
    for part in parts {
        match literal_in(part) {
            Some(literal) => literals.push(literal)?,
            None => return Ok(None),
        }
    }
    Ok(Some(literals))
}

/// The reaches of an input's terms.
#[derive(Clone, Copy)]
pub(crate) struct Row {
    pub(crate) reaches: [Reach; 15],
}

/// What leaves need to know about a box, made once for all of them: the reach of each term over it.
#[derive(Drop)]
pub struct BoxTable<'a> {
    /// What the block's boxes have in common.
    pub table: &'a BlockTable<'a>,
    /// The box that the table was made from.
    pub bytes: ByteBox,
    /// A row for each input.
    pub(crate) rows: [Row; 8],
    /// Rules that are true nowhere on a box around this one.
    pub(crate) still: StillRules,
}

const NO_TERMS: Row = Row {
    reaches: [Reach::NOTHING; 15],
};

impl<'a> BoxTable<'a> {
    /// The table of a box. It takes a few steps for each byte of each term, or, with a block's table for one box,
    /// some ten thousand steps for each input with all bytes.
    #[inline(never)]
    pub fn over(table: &'a BlockTable<'a>, bytes: ByteBox) -> BoxTable<'a>
        requires table { IsBlockTable table.now }
        requires bytes { IsBoxOf table.now.block.now bytes.0.items }
        ensures over { result.table.now ≡ table.now }
        ensures same { result.bytes ≡ bytes }
        ensures table { IsTable result }
    {
        let mut rows = [NO_TERMS; 8];
        let inputs = table.block.inputs.as_slice();
        for i in 0..inputs.len() {
            rows[i] = row_in(&table.kept, i, &inputs[i], bytes.0[i]);
        }
        let still = StillRules {
            around: ByteBox(ArrayVec::new()),
            marks: NO_MARKS,
        };
        BoxTable {
            table,
            bytes,
            rows,
            still,
        }
    }

    /// Makes it the table of another box. Only the rows of intervals that differ are computed again.
    pub fn move_to(&mut self, bytes: &ByteBox)
        requires table { IsTable self.old }
        requires bytes { IsBoxOf (block_of self.old) bytes.now.0.items }
        ensures over { self.new.table ≡ self.old.table }
        ensures bytes { self.new.bytes.0.items ≡ bytes.now.0.items }
        ensures table { IsTable self.new }
    {
        let inputs = self.table.block.inputs.as_slice();
        for i in 0..inputs.len() {
            let to = bytes.0[i];
            if !is_same(self.bytes.0[i], to) {
                self.rows[i] = row_in(&self.table.kept, i, &inputs[i], to);
                self.bytes.set_interval(i, to);
            }
        }
    }
}

fn is_same(left: Interval, right: Interval) -> bool
    ensures { IsTrue result → left ≡ right }
{
    left.from == right.from && left.to == right.to
}

/// The row of the input at an index, from the cells that are kept if there are any.
fn row_in(kept: &Option<Kept>, place: usize, input: &Input, bytes: Interval) -> Row
    requires input { IsValidInput input.now }
    requires order { bytes.from ≤ bytes.to }
    requires kept { IfSome kept.now (λ kept. (c : TheCells) × (slice_get kept.inputs.items place ≡ Some c)
        × AreInputCells input.now all_bytes c) }
    ensures { AreInputReaches input.now bytes result.reaches }
{
    match kept {
        Some(kept) => row_of(input, &kept.inputs[place], bytes),
        None => row_anew(input, bytes),
    }
}

/// The reaches of an input's terms, from cells that are made for this interval alone. They take a stack frame
/// of 35 KB, which is cleared at each call.
#[inline(never)]
fn row_anew(input: &Input, bytes: Interval) -> Row
    requires input { IsValidInput input.now }
    requires order { bytes.from ≤ bytes.to }
    ensures { AreInputReaches input.now bytes result.reaches }
{
    row_of(input, &InputCells::new(input, bytes), bytes)
}

/// The reaches of an input's terms over an interval.
fn row_of(input: &Input, cells: &InputCells, bytes: Interval) -> Row
    requires input { IsValidInput input.now }
    requires order { bytes.from ≤ bytes.to }
    requires cells { AreInputCells input.now bytes cells.now }
    ensures { AreInputReaches input.now bytes result.reaches }
{
    let mut reaches = [Reach::NOTHING; 15];
    let terms = input.terms.as_slice();
    for t in 0..terms.len() {
        reaches[t] = reach_of_term(input, &terms[t], &cells.terms[t], bytes);
    }
    Row { reaches }
}

/// The reach of a term with these cells.
fn reach_of_term(input: &Input, term: &Trapezoid, cells: &TermCells, bytes: Interval) -> Reach
    requires input { IsValidInput input.now }
    requires term { IsValidTerm input.now.lo input.now.hi term.now }
    requires order { bytes.from ≤ bytes.to }
    requires cells { AreTermCells input.now term.now bytes cells.now }
    ensures { IsReachOfTerm input.now term.now bytes result }
{
    let grades = cells.over(bytes);
    let degrees = degrees_of(input, term, bytes);
    let mass = MassEnds::of(Ends {
        low: End {
            truth: degrees.low,
            byte: grades.least,
        },
        high: End {
            truth: degrees.high,
            byte: grades.greatest,
        },
    });
    Reach {
        degrees,
        least: grades.least,
        greatest: grades.greatest,
        deviation: Deviation {
            rise: u64::from(grades.rise),
            fall: u64::from(grades.fall),
        },
        mass,
        opposite: mass.opposite(),
    }
}
