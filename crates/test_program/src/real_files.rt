//! Real files, in the folder in which the tests run and those of the system, as the program reads and writes them.
use fz_shelf::{FileShelf, MOST_BYTES, ReadError, Shelf, WriteError};
use std::alloc::Global;
use std::fs;
use std::process::Abort;
use std::rt::Files;
use std::test::Fail;

const NAME: &str = "test_program_real_files";

/// Fails if a read of the name ends otherwise or gives other bytes.
fn reads<R: Files + Drop>(
    rt: &impl Abort,
    alloc: Global,
    shelf: &mut FileShelf<R>,
    name: &str,
    wanted: Result<&[u8], ReadError>,
) {
    let mut bytes = Vec::new(alloc);
    let answer = shelf.read(name, &mut bytes);
    match wanted {
        Ok(wanted) => {
            assert_eq!(rt; answer, Ok(()), "{name}");
            assert!(rt; bytes.as_slice() == wanted, "other bytes of {name}");
        }
        Err(error) => assert_eq!(rt; answer, Err(error), "{name}"),
    }
}

#[test]
fn reads_and_writes_real_files(rt: HostRuntime) -> Result<(), Fail> {
    let alloc = rt.alloc();
    let longest = vec![in alloc; b'0'; MOST_BYTES]?;
    let too_long = vec![in alloc; b'0'; MOST_BYTES + 1]?;
    let mut shelf = FileShelf::new(alloc, rt.clone()?);
    for bytes in [b"".as_slice(), b"64\n".as_slice(), longest.as_slice()] {
        assert_eq!(rt; shelf.write(NAME, bytes), Ok(()));
        reads(&rt, alloc, &mut shelf, NAME, Ok(bytes));
    }
    assert_eq!(rt; shelf.write(NAME, &too_long), Ok(()));
    reads(&rt, alloc, &mut shelf, NAME, Err(ReadError::TooLong));
    fs::remove_file(&rt, NAME)?;
    reads(&rt, alloc, &mut shelf, NAME, Err(ReadError::Failed));
    Ok(())
}

#[test]
fn tells_each_fault_of_real_files(rt: HostRuntime) -> Result<(), Fail> {
    let alloc = rt.alloc();
    let mut shelf = FileShelf::new(alloc, rt.clone()?);
    // a folder is opened, but not read
    reads(&rt, alloc, &mut shelf, "/", Err(ReadError::Failed));
    reads(&rt, alloc, &mut shelf, "/dev/null", Ok(b""));
    // a file with no end
    reads(&rt, alloc, &mut shelf, "/dev/zero", Err(ReadError::TooLong));
    assert_eq!(rt; shelf.write("/", b"64"), Err(WriteError::Failed));
    Ok(())
}
