//! Scripts from texts.
ghost use Rattle.std.specs.Prelude.{◌≡◌, ◌≢◌, ◌≤◌, ◌<◌, ◌∷◌, ◌==◌, ℕ, [], Ok, IfOk, IfErr, IfSome, MatchOption, length};
ghost use Rattle.std.specs.List.{after_first, before_first, position_or_len};
ghost use Rattle.std.specs.Str.{bytes_eq};
ghost use Rattle.debug_script.specs.Scripts.{IsFirstFault, bytes_order, memory_order, order_of, pieces, script_of};
ghost use Rattle.debug_script.specs.Scripts.{step_order, with_operands};

use crate::order::{Order, Script, ScriptFault};
use fz_list::List;
use interrupt_plan::{count_in, word_in};
use std::alloc::Global;

/// The most positions of a `step`.
const MOST_STEPS: u32 = 1_000_000;

/// The most bytes of a `mem`.
const MOST_BYTES: u32 = 16;

/// How many bytes precede the first of this value, or all if there is none.
fn len_before(text: &[u8], byte: u8) -> usize
    ensures value { result ≡ position_or_len (λ b. b == byte) text.now }
    ensures bound { result ≤ length text.now }
{
    text.iter().take_while(|b| **b != byte).count()
}

/// The word before the first blank, and what follows that blank.
fn cut_word(line: &[u8]) -> (&[u8], &[u8])
    ensures word { result.0.now ≡ before_first (λ b. b == 0x20) line.now }
    ensures behind { result.1.now ≡ after_first (λ b. b == 0x20) line.now }
{
    let n = len_before(line, b' ');
    if n < line.len() {
        (&line[..n], &line[n + 1..])
    } else {
        (line, &[])
    }
}

fn is(word: &[u8], text: &str) -> bool
    ensures { result ≡ bytes_eq word.now text.now }
{
    word == text.as_bytes()
}

/// A `step` of a number.
fn step_order(count: u32) -> Option<Order>
    ensures { result ≡ step_order count }
{
    if 1 <= count && count <= MOST_STEPS {
        Some(Order::Step(count))
    } else {
        None
    }
}

/// A `mem` of an address and a number.
fn bytes_order(at: u16, count: u32) -> Option<Order>
    ensures { result ≡ bytes_order at count }
{
    if 1 <= count && count <= MOST_BYTES {
        Some(Order::Memory(at, count))
    } else {
        None
    }
}

/// The order `mem` from its operands.
fn memory_order(operands: &[u8]) -> Option<Order>
    ensures { result ≡ memory_order operands.now }
{
    let (address, count) = cut_word(operands);
    let at = word_in(address)?;
    bytes_order(at, count_in(count)?)
}

/// The order of a word followed by operands.
fn with_operands(word: &[u8], operands: &[u8]) -> Option<Order>
    ensures { result ≡ with_operands word.now operands.now }
{
    if is(word, "break") {
        word_in(operands).map(Order::Break)
    } else if is(word, "unbreak") {
        word_in(operands).map(Order::Unbreak)
    } else if is(word, "watch") {
        word_in(operands).map(Order::Watch)
    } else if is(word, "unwatch") {
        word_in(operands).map(Order::Unwatch)
    } else if is(word, "step") {
        step_order(count_in(operands)?)
    } else if is(word, "mem") {
        memory_order(operands)
    } else {
        None
    }
}

/// The order that a line spells, without its LF.
fn order_in(line: &[u8]) -> Option<Order>
    ensures { result ≡ order_of line.now }
{
    if is(line, "go") {
        Some(Order::Go)
    } else if is(line, "regs") {
        Some(Order::Registers)
    } else {
        let (word, operands) = cut_word(line);
        with_operands(word, operands)
    }
}

/// The first line of a text without its LF, and what follows; none if no line ends.
fn cut_line(text: &[u8]) -> Option<(&[u8], &[u8])>
    ensures line { MatchOption result (pieces text.now ≡ text.now ∷ [])
        (λ r. pieces text.now ≡ r.0.now ∷ pieces r.1.now) }
    ensures shorter { IfSome result (λ r. length r.1.now < length text.now) }
{
    let n = len_before(text, b'\n');
    if n < text.len() {
        Some((&text[..n], &text[n + 1..]))
    } else {
        None
    }
}

/// The script that a text spells, one order per line, or the number of its first line that is malformed. A line
/// ends with LF alone; its words are in lower case with one blank between them; addresses have four hexadecimal
/// digits of either case, numbers one to nine decimal digits.
pub fn read_script(alloc: Global, text: &[u8]) -> Result<Script, ScriptFault>
    requires { length text.now ≤ 1048576 }
    ensures script { IfOk result (λ script. script_of text.now ≡ Ok script) }
    ensures fault { IfErr result (λ fault. fault ≢ ScriptFault.Memory → IsFirstFault text.now fault) }
{
    let mut orders = Vec::new(alloc);
    let mut rest = text;
    let mut number = 0u32;
    while !rest.is_empty() {
        number += 1;
        let Some((line, behind)) = cut_line(rest) else {
            return Err(ScriptFault::Line(number));
        };
        let Some(order) = order_in(line) else {
            return Err(ScriptFault::Line(number));
        };
        match orders.push(order) {
            Ok(()) => {}
            Err(_) => return Err(ScriptFault::Memory),
        }
        rest = behind;
    }
    Ok(List::new(orders))
}
