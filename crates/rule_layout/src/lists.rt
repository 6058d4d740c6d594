//! Rule lists.
ghost use Rattle.std.specs.Prelude.{◌≡◌, ◌+◌, ◌<◌, ◌≤◌, ◌++◌, map, IfOk, OnOk, All};
ghost use Rattle.rule_layout.specs.Lists.{marked, at_address, list_bytes, list_words};
ghost use Rattle.rule_layout.specs.{Layouts.IsLaidOut, Layouts.IsBelow, declared.flat.RuleInstruction.TheVariants.Rev};

use crate::flat::{Conjunction, Flat};
use std::alloc::{AllocError, Global};

/// Where the slots of the firmware are.
const SLOTS: u16 = 0x1100;

impl Flat {
    /// REV's list (CPU12 Reference Manual): for each conjunction its literals, `$FE`, its
    /// conclusions, and `$FE`, or `$FF` after the last.
    pub fn bytes(&self, alloc: Global) -> Result<Vec<u8>, AllocError>
        requires laid_out { IsLaidOut self.now }
        requires instruction { self.now.instruction ≡ Rev }
        ensures { IfOk result (λ v. v.items ≡ list_bytes self.now.conjunctions) }
    {
        let list = marked(alloc, self.conjunctions.as_slice(), 0, 0xFE, 0xFF)?;
        let mut bytes = Vec::with_capacity(alloc, list.len())?;
        for element in &list {
            bytes.push(*element as u8)?;
        }
        Ok(bytes)
    }

    /// REVW's list with the slots from `$1100` on: for each conjunction the addresses of its
    /// literals, `$FFFE`, those of its conclusions, and `$FFFE`, or `$FFFF` after the last.
    pub fn words(&self, alloc: Global) -> Result<Vec<u16>, AllocError>
        requires { IsLaidOut self.now }
        ensures { IfOk result (λ v. v.items ≡ list_words 0x1100 self.now.conjunctions) }
    {
        self.words_from(alloc, SLOTS)
    }

    /// The same with the slots from another address on.
    pub fn words_from(&self, alloc: Global, base: u16) -> Result<Vec<u16>, AllocError>
        requires laid_out { IsLaidOut self.now }
        requires room { base < 0xFE00 }
        ensures { IfOk result (λ v. v.items ≡ list_words base self.now.conjunctions) }
    {
        marked(alloc, self.conjunctions.as_slice(), base, 0xFFFE, 0xFFFF)
    }
}

/// The list with its marks, each slot's number counted from a base.
fn marked(
    alloc: Global,
    conjunctions: &[Conjunction],
    base: u16,
    separator: u16,
    end_mark: u16,
) -> Result<Vec<u16>, AllocError>
    requires numbers { All (IsBelow 300) conjunctions.now }
    requires room { base < 0xFE00 }
    ensures { IfOk result
        (λ v. v.items ≡ marked separator end_mark (map (at_address base) conjunctions.now)) }
{
    let mut list = Vec::new(alloc);
    for (k, conjunction) in conjunctions.iter().enumerate() {
        push_from(&mut list, conjunction.literals.as_slice(), base)?;
        list.push(separator)?;
        push_from(&mut list, conjunction.conclusions.as_slice(), base)?;
        let is_last = k + 1 == conjunctions.len();
        list.push(if is_last { end_mark } else { separator })?;
    }
    Ok(list)
}

/// Appends slots to a list, counted from a base.
fn push_from(list: &mut Vec<u16>, numbers: &[u16], base: u16) -> Result<(), AllocError>
    requires numbers { All (λ n. n < 300) numbers.now }
    requires room { base < 0xFE00 }
    ensures { OnOk result (list.new.items ≡ list.old.items ++ map (λ n. base + n) numbers.now) }
{
    for number in numbers {
        list.push(base + *number)?;
    }
    Ok(())
}
