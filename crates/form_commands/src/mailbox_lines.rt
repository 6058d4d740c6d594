//! The lines of a run under posts.
ghost use Rattle.std.specs.Prelude.{◌≡◌, ◌∷◌, ◌++◌, [], map, IfOk, OnOk};
ghost use Rattle.run_forms.specs.Rows.{frames_seen};
ghost use Rattle.mailbox_runs.specs.Runs.{answer_seen};
ghost use Rattle.command_parts.specs.Lines.{counted};
ghost use Rattle.form_commands.specs.Mrun.{answer_line, mrun_lines, mailbox_report};

use fz_shelf::Line;
use mailbox_runs::{Answer, PostRun};
use run_reports::row_lines::{begun, push_answered, push_labelled, push_labelled_frames};
use std::alloc::{AllocError, Global};
use std::fmt::Write;

/// The lines of the errors, the bound on instructions, each answer, each frame, and the number of resumed boundaries.
pub(crate) fn lines(
    alloc: Global,
    errors: &[u32],
    bound: u32,
    run: &PostRun,
) -> Result<Vec<Line>, AllocError>
    ensures { IfOk result (λ lines. lines.items ≡ mrun_lines (mailbox_report errors.now bound
        (map answer_seen run.now.answers.items) (frames_seen run.now.frames.items) run.now.resumed)) }
{
    let mut lines = begun(alloc, errors, bound)?;
    push_answers(alloc, &mut lines, &run.answers)?;
    push_labelled_frames(alloc, &mut lines, "frame ", &run.frames)?;
    push_labelled(alloc, &mut lines, "resumed ", u128::from(run.resumed))?;
    Ok(lines)
}

/// The line of each answer.
fn push_answers(alloc: Global, lines: &mut Vec<Line>, answers: &[Answer]) -> Result<(), AllocError>
    ensures { OnOk result (lines.new.items ≡ lines.old.items
        ++ counted (λ k a. answer_line k (answer_seen a) ∷ []) 1 answers.now) }
{
    for (at, answer) in answers.iter().enumerate() {
        lines.push(line_of_answer(alloc, at + 1, answer)?)?;
    }
    Ok(())
}

/// The line of the k-th answer.
fn line_of_answer(alloc: Global, k: usize, answer: &Answer) -> Result<Line, AllocError>
    ensures { IfOk result (λ l. l ≡ answer_line k (answer_seen answer.now)) }
{
    let sample = answer.sample;
    let at = answer.at;
    let mut text = String::from_str(alloc, "answer ")?;
    write!(&mut text, "{k} sample {sample} at {at}")?;
    push_answered(
        &mut text,
        answer.bytes.as_slice(),
        answer.answers.as_slice(),
        answer.instrs,
    )?;
    Line::of(text)
}
