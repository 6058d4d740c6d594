//! The program `fuzz12`: real files, standard output and standard error for
//! [`fuzz12`](fz_top::fuzz12), and its status as the exit code.
#![tactic(auto)]

use fz_shelf::{FileShelf, StdSink};
use fz_top::{Status, fuzz12};
use std::alloc::AllocError;
use std::io::ErrorKind;
use std::process::ExitCode;

/// The program's words. If one can't be read because it is not UTF-8, there are none, which is no command.
fn words_of(rt: &HostRuntime) -> Result<Vec<String>, AllocError> {
    let alloc = rt.alloc();
    match std::env::args(rt) {
        Ok(words) => words.collect(alloc),
        Err(error) if error.kind() == ErrorKind::OutOfMemory => Err(AllocError),
        Err(_) => Ok(Vec::new(alloc)),
    }
}

fn main(rt: HostRuntime) -> ExitCode {
    let alloc = rt.alloc();
    let Ok(words) = words_of(&rt) else {
        // (a fault of standard error changes no status)
        let _ = eprintln!(rt; "memory");
        return ExitCode::from(Status::Memory.code());
    };
    let mut shelf = FileShelf::new(alloc, rt);
    let mut out = StdSink::new(rt.stdout());
    let mut err = StdSink::new(rt.stderr());
    let status = fuzz12(alloc, words.as_slice(), &mut shelf, &mut out, &mut err);
    ExitCode::from(status.code())
}
