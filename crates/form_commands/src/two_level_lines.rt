//! The lines of a run at two levels.
ghost use Rattle.std.specs.Prelude.{◌≡◌, ◌++◌, map, IfOk, OnOk, Some, None};
ghost use Rattle.std.specs.List.{slice_index_or};
ghost use Rattle.run_forms.specs.Rows.{boundary_seen};
ghost use Rattle.two_level_code.specs.Images.{fast_most};
ghost use Rattle.two_level_runs.specs.{InnerNotes.inner_seen, Harness.fast_seen, Harness.row_seen};
ghost use Rattle.command_parts.specs.Lines.{counted};
ghost use Rattle.form_commands.specs.Lrun.{fast_line, fast_lines, inner_line, two_level_begun_lines};
ghost use Rattle.form_commands.specs.Lrun.{two_level_report, two_level_row_lines, lrun_lines, outer_lines};

use command_parts::lines::push_errors;
use fz_shelf::Line;
use run_reports::row_lines::{
    labelled_frame, line_of_frame, push_answers, push_count, push_labelled, told_sample,
};
use std::alloc::{AllocError, Global};
use std::fmt::Write;
use two_level_code::Two;
use two_level_runs::{FastRow, InnerFrame, TwoRow};

/// The lines of the errors and bounds of both blocks, and of each slow sample with its frames and fast runs.
pub(crate) fn lines(
    alloc: Global,
    errors: &[u32],
    fast_errors: &[u32],
    two: &Two,
    rows: &[TwoRow],
) -> Result<Vec<Line>, AllocError>
    ensures { IfOk result (λ lines. lines.items ≡ lrun_lines (two_level_report errors.now fast_errors.now
        two.now.firmware.instr_bound (fast_most two.now.fast.instr_bound) (map row_seen rows.now))) }
{
    let mut lines = begun(alloc, errors, fast_errors, two)?;
    push_rows(alloc, &mut lines, rows)?;
    Ok(lines)
}

/// The lines at the beginning: the errors and the bounds on instructions.
fn begun(
    alloc: Global,
    errors: &[u32],
    fast_errors: &[u32],
    two: &Two,
) -> Result<Vec<Line>, AllocError>
    ensures { IfOk result (λ lines. lines.items ≡ two_level_begun_lines errors.now fast_errors.now
        two.now.firmware.instr_bound (fast_most two.now.fast.instr_bound)) }
{
    let mut lines = Vec::new(alloc);
    push_errors(alloc, &mut lines, "error ", errors)?;
    push_errors(alloc, &mut lines, "fast error ", fast_errors)?;
    let bound = u128::from(two.firmware.instr_bound);
    let fast_bound = u128::from(two.fast_bound());
    push_labelled(alloc, &mut lines, "instructions ", bound)?;
    push_labelled(alloc, &mut lines, "fast instructions ", fast_bound)?;
    Ok(lines)
}

/// The lines of each slow sample with its frames and the fast runs in them.
fn push_rows(alloc: Global, lines: &mut Vec<Line>, rows: &[TwoRow]) -> Result<(), AllocError>
    ensures { OnOk result (lines.new.items ≡ lines.old.items
        ++ counted (λ k r. two_level_row_lines k (row_seen r)) 1 rows.now) }
{
    for (at, row) in rows.iter().enumerate() {
        push_row(alloc, lines, at + 1, row)?;
    }
    Ok(())
}

/// The lines of the k-th slow sample.
fn push_row(alloc: Global, lines: &mut Vec<Line>, k: usize, row: &TwoRow) -> Result<(), AllocError>
    ensures { OnOk result (lines.new.items
        ≡ lines.old.items ++ two_level_row_lines k (row_seen row.now)) }
{
    lines.push(Line::of(told_sample(alloc, k, &row.row)?)?)?;
    push_outer(alloc, lines, k, row)?;
    Ok(())
}

/// The lines of the k-th slow sample's frames, each followed by the fast run in its interrupt.
fn push_outer(
    alloc: Global,
    lines: &mut Vec<Line>,
    k: usize,
    row: &TwoRow,
) -> Result<(), AllocError>
    ensures { OnOk result (lines.new.items ≡ lines.old.items
        ++ counted (λ n f. outer_lines k (row_seen row.now).fast n (boundary_seen f)) 1 row.now.row.frames) }
{
    let frames = row.row.frames.as_slice();
    for (at, frame) in frames.iter().enumerate() {
        lines.push(line_of_frame(alloc, k, frame)?)?;
        push_fast(alloc, lines, row, at)?;
    }
    Ok(())
}

/// The lines of the fast run in the interrupt at this index, if there is one.
fn push_fast(
    alloc: Global,
    lines: &mut Vec<Line>,
    row: &TwoRow,
    at: usize,
) -> Result<(), AllocError>
    ensures { OnOk result (lines.new.items
        ≡ lines.old.items ++ fast_lines (slice_index_or (row_seen row.now).fast at None)) }
{
    match row.fast.get(at) {
        Some(Some(fast)) => push_run(alloc, lines, fast),
        _ => Ok(()),
    }
}

/// The lines of a fast run with its frames.
fn push_run(alloc: Global, lines: &mut Vec<Line>, fast: &FastRow) -> Result<(), AllocError>
    ensures { OnOk result (lines.new.items
        ≡ lines.old.items ++ fast_lines (Some (fast_seen fast.now))) }
{
    lines.push(line_of_fast(alloc, fast)?)?;
    push_inner(alloc, lines, fast.frames.as_slice())?;
    Ok(())
}

/// The lines of a fast run's frames.
fn push_inner(alloc: Global, lines: &mut Vec<Line>, frames: &[InnerFrame]) -> Result<(), AllocError>
    ensures { OnOk result (lines.new.items
        ≡ lines.old.items ++ map (λ f. inner_line (inner_seen f)) frames.now) }
{
    for frame in frames {
        lines.push(labelled_frame(alloc, "inner ", frame.boundary, &frame.frame)?)?;
    }
    Ok(())
}

/// The line of a fast run.
fn line_of_fast(alloc: Global, fast: &FastRow) -> Result<Line, AllocError>
    ensures { IfOk result (λ l. l ≡ fast_line (fast_seen fast.now)) }
{
    let number = fast.number;
    let mut text = String::from_str(alloc, "fast ")?;
    write!(&mut text, "{number}")?;
    push_answers(&mut text, fast.answers.as_slice(), fast.instrs)?;
    push_count(&mut text, " steps ", fast.steps as usize)?;
    push_count(&mut text, " resumed ", fast.resumed as usize)?;
    Line::of(text)
}
