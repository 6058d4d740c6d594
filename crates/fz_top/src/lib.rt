//! The program as one function, [`fuzz12`]: from the words to a command, from the contents of its files to
//! its lines, and one line on err if something is wrong.
//!
//! It is generic in the shelf and in both sinks. Each command is one file of build_commands, run_commands
//! or form_commands, with the form of its words, the files that it reads and what it makes from them;
//! [`Command`] has a case for each, and [`fuzz12`] itself does not depend on which commands there are.
//!
//! The contract, in short: each [`Status`] has its cause, nothing is written or put before all input is
//! accepted, and with `Ok` out has gained exactly the command's lines.
#![tactic(auto)]

mod command;
mod delivery;
pub mod laws;
mod program;
mod reading;

pub use build_commands::certify::Certify;
pub use build_commands::check::Check;
pub use build_commands::compile::Compile;
pub use build_commands::exec::Exec;
pub use command::Command;
pub use error_certifier::NotReached;
pub use form_commands::form_run::FormRun;
pub use fz_status::{CertRefusal, FclFault, ImageFault, Status};
pub use program::fuzz12;
pub use run_commands::debug::DebugRun;
pub use run_commands::generate::Generate;
pub use run_commands::run::Run;
