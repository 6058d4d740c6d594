//! A real file, the system's full device and standard error, with the lines that the program puts into them.
use fz_shelf::{Failed, Sink, StdSink};
use std::fs::{self, File};
use std::test::Fail;

const NAME: &str = "test_program_real_sinks";

#[test]
fn puts_reach_real_writers(rt: HostRuntime) -> Result<(), Fail> {
    let mut sink = StdSink::new(File::create(&rt, NAME)?);
    for (piece, taken) in [
        (b"64".as_slice(), 2),
        (b"".as_slice(), 0),
        (b"\n".as_slice(), 1),
    ] {
        assert_eq!(rt; sink.put(piece), Ok(taken));
    }
    let text = fs::read_to_string(&rt, NAME)?;
    fs::remove_file(&rt, NAME)?;
    assert_eq!(rt; text.as_str(), "64\n");
    let mut err = StdSink::new(rt.stderr());
    assert_eq!(rt; err.put(b"\n"), Ok(1));
    Ok(())
}

#[test]
fn tells_each_put_that_fails(rt: HostRuntime) -> Result<(), Fail> {
    let mut sink = StdSink::new(File::options().write(true).open(&rt, "/dev/full")?);
    for _ in 0..2 {
        assert_eq!(rt; sink.put(b"64\n"), Err(Failed));
    }
    Ok(())
}
