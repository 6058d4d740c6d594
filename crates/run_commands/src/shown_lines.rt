//! The lines that a script shows.
ghost use Rattle.std.specs.Prelude.{◌≡◌, ◌++◌, map, string_bytes, IfOk, OnOk};
ghost use Rattle.std.specs.List.{flat_map};
ghost use Rattle.alone_runs.specs.Rows.{row_seen};
ghost use Rattle.debug_script.specs.declared.shown.Shown.TheVariants as seen;
ghost use Rattle.run_commands.specs.Debug.{behind_blank, debug_lines, shown_line};

use alone_runs::Row;
use command_parts::lines::{push_address, push_byte, told_registers};
use debug_script::Shown;
use fz_shelf::Line;
use run_reports::row_lines::push_rows;
use std::alloc::{AllocError, Global};
use std::fmt::Write;

/// The lines of what a script shows, and of each sample with its frames.
pub(crate) fn lines(alloc: Global, shown: &[Shown], rows: &[Row]) -> Result<Vec<Line>, AllocError>
    ensures { IfOk result (λ lines. lines.items ≡ debug_lines shown.now (map row_seen rows.now)) }
{
    let mut lines = Vec::new(alloc);
    push_shown(alloc, &mut lines, shown)?;
    push_rows(alloc, &mut lines, rows)?;
    Ok(lines)
}

/// What a script shows, one line for each item.
fn push_shown(alloc: Global, lines: &mut Vec<Line>, shown: &[Shown]) -> Result<(), AllocError>
    ensures { OnOk result (lines.new.items ≡ lines.old.items ++ map shown_line shown.now) }
{
    for item in shown {
        lines.push(line_of(alloc, item)?)?;
    }
    Ok(())
}

fn line_of(alloc: Global, item: &Shown) -> Result<Line, AllocError>
    ensures { IfOk result (λ l. l ≡ shown_line item.now) }
{
    match item {
        Shown::Stop(sample, moment, pc) => line_of_stop(alloc, *sample, *moment, *pc),
        Shown::Registers(regs) => Line::of(told_registers(alloc, regs)?),
        Shown::Bytes(at, bytes) => line_of_bytes(alloc, *at, bytes.as_slice()),
    }
}

/// The line of a run's position.
fn line_of_stop(alloc: Global, sample: u32, moment: u32, pc: u16) -> Result<Line, AllocError>
    ensures { IfOk result (λ l. l ≡ shown_line (seen.Stop sample moment pc)) }
{
    let mut text = String::from_str(alloc, "stop ")?;
    write!(&mut text, "{sample} {moment}")?;
    push_address(alloc, &mut text, " ", pc)?;
    Line::of(text)
}

/// The line of bytes from an address on.
fn line_of_bytes(alloc: Global, at: u16, bytes: &[u8]) -> Result<Line, AllocError>
    ensures { IfOk result (λ l. l ≡ shown_line (seen.Bytes at bytes.now)) }
{
    let mut text = String::new(alloc);
    push_address(alloc, &mut text, "mem ", at)?;
    push_bytes(alloc, &mut text, bytes)?;
    Line::of(text)
}

/// Bytes as two hexadecimal digits each, with a blank before each.
fn push_bytes(alloc: Global, text: &mut String, bytes: &[u8]) -> Result<(), AllocError>
    ensures { OnOk result (string_bytes text.new ≡ string_bytes text.old ++ flat_map behind_blank bytes.now) }
{
    for byte in bytes {
        push_byte(alloc, text, " ", *byte)?;
    }
    Ok(())
}
