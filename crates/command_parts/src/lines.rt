//! Lines put to out.
ghost use Rattle.std.specs.Prelude.{◌≡◌, ◌++◌, IfOk, OnOk, string_bytes, true};
ghost use Rattle.fz_shelf.specs.{Lines.has_no_end, Parts.address_digits, Parts.byte_digits};
ghost use Rattle.command_parts.specs.Lines.{error_line, error_lines, line, registers_told};

use cpu12_isa::instr::Regs;
use fz_shelf::Line;
use std::alloc::{AllocError, Global};
use std::fmt::Write;

/// The line of a label and a number.
pub fn labelled(alloc: Global, label: &str, n: u128) -> Result<Line, AllocError>
    requires { has_no_end label.now ≡ true }
    ensures { IfOk result (λ l. l ≡ line label.now n) }
{
    let mut text = String::from_str(alloc, label)?;
    write!(&mut text, "{n}")?;
    Line::of(text)
}

/// The error of each output, after a label.
pub fn push_errors(
    alloc: Global,
    lines: &mut Vec<Line>,
    label: &str,
    errors: &[u32],
) -> Result<(), AllocError>
    requires { has_no_end label.now ≡ true }
    ensures { OnOk result (lines.new.items ≡ lines.old.items ++ error_lines label.now errors.now) }
{
    for (at, error) in errors.iter().enumerate() {
        lines.push(line_of_error(alloc, label, at + 1, *error)?)?;
    }
    Ok(())
}

/// The line of the error of an output, counted from 1.
fn line_of_error(alloc: Global, label: &str, output: usize, error: u32) -> Result<Line, AllocError>
    requires { has_no_end label.now ≡ true }
    ensures { IfOk result (λ l. l ≡ error_line label.now output error) }
{
    let mut text = String::from_str(alloc, label)?;
    write!(&mut text, "{output} {error}")?;
    Line::of(text)
}

/// A label, and an address as four hexadecimal digits.
pub fn push_address(
    alloc: Global,
    text: &mut String,
    label: &str,
    address: u16,
) -> Result<(), AllocError>
    ensures { OnOk result (string_bytes text.new ≡ string_bytes text.old ++ (label.now ++ address_digits address)) }
{
    let digits = hex::encode_upper(alloc, &[(address / 256) as u8, (address % 256) as u8])?;
    text.push_str(label)?;
    text.push_str(digits.as_str())
}

/// A label, and a byte as two hexadecimal digits.
pub fn push_byte(alloc: Global, text: &mut String, label: &str, byte: u8) -> Result<(), AllocError>
    ensures { OnOk result (string_bytes text.new ≡ string_bytes text.old ++ (label.now ++ byte_digits byte)) }
{
    let digits = hex::encode_upper(alloc, &[byte])?;
    text.push_str(label)?;
    text.push_str(digits.as_str())
}

/// The registers.
pub fn told_registers(alloc: Global, regs: &Regs) -> Result<String, AllocError>
    ensures { IfOk result (λ s. string_bytes s ≡ registers_told regs.now) }
{
    let mut text = String::new(alloc);
    push_address(alloc, &mut text, "pc ", regs.pc)?;
    push_byte(alloc, &mut text, " a ", regs.a)?;
    push_byte(alloc, &mut text, " b ", regs.b)?;
    push_address(alloc, &mut text, " x ", regs.x)?;
    push_address(alloc, &mut text, " y ", regs.y)?;
    push_address(alloc, &mut text, " sp ", regs.sp)?;
    push_byte(alloc, &mut text, " ccr ", regs.ccr.0)?;
    Ok(text)
}
