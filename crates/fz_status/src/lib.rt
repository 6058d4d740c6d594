//! How a call of the program ends: its [`Status`], the number of each, and the line that
//! [`report`] puts on err for it.
//!
//! A status carries the fault of the crate that refused the input, except lack of memory, which
//! is always the status `Memory` (definition `CarriesNoMemory`). `Refuses` defines when contents
//! are refused with a status, whichever command reads them.
#![tactic(auto)]

mod errors;
mod fault_lines;
mod status;
mod words;

pub use errors::report;
pub use status::{CertRefusal, FastFault, FclFault, ImageFault, Status};
pub use words::word;
