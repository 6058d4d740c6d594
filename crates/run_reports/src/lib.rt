//! What the commands that run firmware share: the files CERT, TRACE and PLAN ([`inputs`]), what a report of a run
//! states (`IsReportOf`), what the output of each such command states (`CertifiedRun`, `HandledRun`, `TwoLevelRun`,
//! `MailboxRun` and `WatchedRun`), the lines of samples, answers and frames ([`row_lines`]), and laws of these, such
//! as how far the answers are from the exact ones ([`laws`]).
//!
//! [`inputs::inputs_of`] returns what CERT, TRACE and PLAN give ([`inputs::Inputs`]), or the first fault in the order
//! of the files. For each file there is a law that it gives a unique result or is refused
//! ([`laws::traces_are_exact`]). A firmware's answers to a trace's samples are a report, in which all answers are
//! within the accepted errors ([`laws::answers_are_reported`]). Its lines are those of the rows, one after the other
//! ([`row_lines::push_rows`]), unless memory runs out.
#![tactic(auto)]

pub mod files;
pub mod inputs;
pub mod laws;
pub mod row_lines;
