//! Files in memory that several tests make, and calls that write some of them.
use fz_shelf::{MemFile, MemShelf};
use std::alloc::{AllocError, Global};
use test_program_calls::{Difference, code_of, push_file};

/// Files that cannot be written, by their names and the parts of their texts.
pub(crate) fn files_of(
    alloc: Global,
    texts: &[(&str, &[&str])],
) -> Result<Vec<MemFile>, AllocError> {
    let mut files = Vec::new(alloc);
    for (name, parts) in texts {
        push_file(alloc, &mut files, name, parts)?;
    }
    Ok(files)
}

/// Makes a call whose status is to be 0.
pub(crate) fn succeeds(
    alloc: Global,
    line: &[&str],
    shelf: &mut MemShelf,
) -> Result<(), Difference> {
    match code_of(alloc, line, shelf)? {
        0 => Ok(()),
        code => Err(Difference::Status(code)),
    }
}
