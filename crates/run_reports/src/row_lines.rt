//! The lines of samples, answers and frames, which all runs share.
ghost use Rattle.std.specs.Prelude.{◌≡◌, ◌++◌, ◌∷◌, [], decimal, map, string_bytes, true, IfOk, OnOk};
ghost use Rattle.fz_shelf.specs.{Lines.has_no_end, Parts.ended};
ghost use Rattle.cpu12_emul.specs.Take.{frame_seen};
ghost use Rattle.run_forms.specs.Rows.{boundary_seen};
ghost use Rattle.alone_runs.specs.Rows.{row_seen};
ghost use Rattle.command_parts.specs.Lines.{counted, line};
ghost use Rattle.run_reports.specs.RowLines.{answered, answers_told, begun_lines, frame_line, frame_told};
ghost use Rattle.run_reports.specs.RowLines.{labelled_row_lines, numbers, row_lines, row_lines_with};
ghost use Rattle.run_reports.specs.RowLines.{sample_told};

use alone_runs::Row;
use command_parts::lines::{labelled, push_address, push_errors};
use cpu12_emul::ends::Frame;
use fz_shelf::Line;
use std::alloc::{AllocError, Global};
use std::fmt::Write;

/// The lines that each run begins with: the errors and the bound on instructions.
pub fn begun(alloc: Global, errors: &[u32], bound: u32) -> Result<Vec<Line>, AllocError>
    ensures { IfOk result (λ lines. lines.items ≡ begun_lines errors.now bound) }
{
    let mut lines = Vec::new(alloc);
    push_errors(alloc, &mut lines, "error ", errors)?;
    push_labelled(alloc, &mut lines, "instructions ", u128::from(bound))?;
    Ok(lines)
}

/// The line of a label and a number.
pub fn push_labelled(
    alloc: Global,
    lines: &mut Vec<Line>,
    label: &str,
    n: u128,
) -> Result<(), AllocError>
    requires { has_no_end label.now ≡ true }
    ensures { OnOk result (lines.new.items ≡ lines.old.items ++ line label.now n ∷ []) }
{
    lines.push(labelled(alloc, label, n)?)?;
    Ok(())
}

/// The lines of each sample with its frames.
pub fn push_rows(alloc: Global, lines: &mut Vec<Line>, rows: &[Row]) -> Result<(), AllocError>
    ensures { OnOk result (lines.new.items ≡ lines.old.items
        ++ counted (λ k r. row_lines k (row_seen r)) 1 rows.now) }
{
    for (at, row) in rows.iter().enumerate() {
        push_row(alloc, lines, at + 1, row, "")?;
    }
    Ok(())
}

/// The lines of the k-th sample and its frames. The sample's ends with a label and a number.
pub fn push_labelled_row(
    alloc: Global,
    lines: &mut Vec<Line>,
    k: usize,
    row: &Row,
    label: &str,
    number: u32,
) -> Result<(), AllocError>
    requires { has_no_end label.now ≡ true }
    ensures { OnOk result (lines.new.items
        ≡ lines.old.items ++ labelled_row_lines label.now k (row_seen row.now) number) }
{
    let mut rest = String::new(alloc);
    push_count(&mut rest, label, number as usize)?;
    push_row(alloc, lines, k, row, rest.as_str())
}

/// The lines of the k-th sample and its frames. The sample's ends with `rest`.
fn push_row(
    alloc: Global,
    lines: &mut Vec<Line>,
    k: usize,
    row: &Row,
    rest: &str,
) -> Result<(), AllocError>
    requires { has_no_end rest.now ≡ true }
    ensures { OnOk result (lines.new.items
        ≡ lines.old.items ++ row_lines_with k (row_seen row.now) rest.now) }
{
    let mut text = told_sample(alloc, k, row)?;
    text.push_str(rest)?;
    lines.push(Line::of(text)?)?;
    push_frames(alloc, lines, k, row.frames.as_slice())?;
    Ok(())
}

/// The lines of the k-th sample's frames.
fn push_frames(
    alloc: Global,
    lines: &mut Vec<Line>,
    k: usize,
    frames: &[(u32, Frame)],
) -> Result<(), AllocError>
    ensures { OnOk result (lines.new.items ≡ lines.old.items
        ++ map (λ f. frame_line k (boundary_seen f)) frames.now) }
{
    for frame in frames {
        lines.push(line_of_frame(alloc, k, frame)?)?;
    }
    Ok(())
}

/// The line of a frame of the k-th sample.
pub fn line_of_frame(alloc: Global, k: usize, frame: &(u32, Frame)) -> Result<Line, AllocError>
    ensures { IfOk result (λ l. l ≡ frame_line k (boundary_seen frame.now)) }
{
    let mut text = String::from_str(alloc, "frame ")?;
    write!(&mut text, "{k} ")?;
    push_frame(alloc, &mut text, frame.0, &frame.1)?;
    Line::of(text)
}

/// The lines of frames that belong to no sample, each after a label.
pub fn push_labelled_frames(
    alloc: Global,
    lines: &mut Vec<Line>,
    label: &str,
    frames: &[(u32, Frame)],
) -> Result<(), AllocError>
    requires { has_no_end label.now ≡ true }
    ensures { OnOk result (lines.new.items ≡ lines.old.items
        ++ map (λ f. ended (label.now ++ frame_told (boundary_seen f))) frames.now) }
{
    for frame in frames {
        lines.push(labelled_frame(alloc, label, frame.0, &frame.1)?)?;
    }
    Ok(())
}

/// The line of a frame, after a label.
pub fn labelled_frame(
    alloc: Global,
    label: &str,
    boundary: u32,
    frame: &Frame,
) -> Result<Line, AllocError>
    requires { has_no_end label.now ≡ true }
    ensures { IfOk result (λ l. l ≡ ended (label.now ++ frame_told (boundary, frame_seen frame.now))) }
{
    let mut text = String::from_str(alloc, label)?;
    push_frame(alloc, &mut text, boundary, frame)?;
    Line::of(text)
}

/// A frame, after its boundary.
fn push_frame(
    alloc: Global,
    text: &mut String,
    boundary: u32,
    frame: &Frame,
) -> Result<(), AllocError>
    ensures { OnOk result (string_bytes text.new
        ≡ string_bytes text.old ++ frame_told (boundary, frame_seen frame.now)) }
{
    let bytes = frame.bytes.len();
    write!(text, "{boundary}")?;
    push_address(alloc, text, " ", frame.pc)?;
    push_address(alloc, text, " ", frame.sp)?;
    write!(text, " {bytes}")
}

/// Input bytes, the answers to them, and the number of instructions that the answers took.
pub fn push_answered(
    text: &mut String,
    bytes: &[u8],
    answers: &[u16],
    instrs: u32,
) -> Result<(), AllocError>
    ensures { OnOk result (string_bytes text.new
        ≡ string_bytes text.old ++ answered bytes.now answers.now instrs) }
{
    text.push_str(" bytes")?;
    push_bytes(text, bytes)?;
    push_answers(text, answers, instrs)?;
    Ok(())
}

/// Answers, and the number of instructions that they took.
pub fn push_answers(text: &mut String, answers: &[u16], instrs: u32) -> Result<(), AllocError>
    ensures { OnOk result (string_bytes text.new ≡ string_bytes text.old ++ answers_told answers.now instrs) }
{
    text.push_str(" answers")?;
    push_numbers(text, answers)?;
    push_count(text, " instructions ", instrs as usize)?;
    Ok(())
}

/// Bytes in decimal, with a blank before each.
fn push_bytes(text: &mut String, values: &[u8]) -> Result<(), AllocError>
    ensures { OnOk result (string_bytes text.new ≡ string_bytes text.old ++ numbers values.now) }
{
    for byte in values {
        write!(text, " {byte}")?;
    }
    Ok(())
}

/// Numbers, with a blank before each.
fn push_numbers(text: &mut String, values: &[u16]) -> Result<(), AllocError>
    ensures { OnOk result (string_bytes text.new ≡ string_bytes text.old ++ numbers values.now) }
{
    for number in values {
        write!(text, " {number}")?;
    }
    Ok(())
}

/// The line of the k-th sample, up to the number of its frames.
pub fn told_sample(alloc: Global, k: usize, row: &Row) -> Result<String, AllocError>
    ensures told { IfOk result (λ s. string_bytes s ≡ sample_told k (row_seen row.now)) }
    ensures bare { IfOk result (λ s. has_no_end (string_bytes s) ≡ true) }
{
    let mut text = String::from_str(alloc, "sample ")?;
    write!(&mut text, "{k}")?;
    push_answered(
        &mut text,
        row.bytes.as_slice(),
        row.answers.as_slice(),
        row.instrs,
    )?;
    push_count(&mut text, " steps ", row.steps as usize)?;
    push_count(&mut text, " resumed ", row.resumed as usize)?;
    push_count(&mut text, " frames ", row.frames.len())?;
    Ok(text)
}

/// A number after a label.
pub fn push_count(text: &mut String, label: &str, count: usize) -> Result<(), AllocError>
    ensures { OnOk result (string_bytes text.new ≡ string_bytes text.old ++ (label.now ++ decimal count)) }
{
    text.push_str(label)?;
    write!(text, "{count}")
}
