//! Which certificates are accepted, and what an accepted one states: its tree of boxes covers all
//! bytes, its leaves hold, and its claims are no less than the errors of the outputs.
//!
//! [`check`] returns the errors that a certificate is accepted with, or its first [`CheckFault`];
//! [`check16`] does the same for answers of 16 bits, and [`check_for`] for a certificate of either
//! kind and answers of either width. The laws are that an accepted certificate bounds the answers to
//! every list of samples in range, that its errors are unique, that one with a fault is not accepted,
//! and that a plain one stays accepted when its leaves become tight. Each of these is stated once for
//! all kinds of leaf.
#![tactic(auto)]

mod boxes;
mod by_width;
mod checker;
pub mod laws;
mod leaves;
mod text;
mod walk;

pub use boxes::{halves, whole_box};
pub use by_width::{check, check_text, check_text16, check16};
pub use checker::{CheckFault, check_for};
pub use leaves::raise;
pub use text::{TextFault, check_text_for};
