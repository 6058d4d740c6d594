//! Records and images.
use cpu12_asm::{ByteMap, Image};
use srecord::{SrecFault, read, write};
use std::alloc::Global;
use std::test::Fail;

/// The first and the last record of a run of 33 bytes, and the count.
#[test]
fn a_run_is_cut_at_32(rt: HostRuntime) -> Result<(), Fail> {
    let mut bytes = ByteMap::new(rt.alloc());
    for at in 0xC000..0xC021u16 {
        bytes.insert(at, 0)?;
    }
    let image = Image { bytes, start: 0 };
    let text = write(rt.alloc(), &image)?;
    let end: &[u8] = b"00001C\nS104C020001B\nS5030002FA\nS9030000FC\n";
    assert!(rt; text.ends_with(end));
    Ok(())
}

/// The number of bytes and the start of the image that a text gives, or its first fault.
fn read_from(alloc: Global, text: &[u8]) -> Option<Result<(usize, u16), SrecFault>> {
    if text.len() > 1_048_576 {
        return None;
    }
    Some(read(alloc, text).map(|image| (image.bytes.len(), image.start)))
}

static GOOD: [(&[u8], (usize, u16)); 5] = [
    (b"S903C0003C\n", (0, 0xC000)),
    (b"s108c00086054120fe4d\r\ns903c0003c\r\n", (5, 0xC000)),
    (b"S104FFFF00FD\nS5030001FB\nS9030000FC", (1, 0)),
    (b"S1031234B6\nS5030001FB\nS5030001FB\nS9030000FC\n", (0, 0)),
    (b"S5030000FC\nS0030000FC\nS0030000FC\nS9030000FC\n", (0, 0)),
];

#[test]
fn images(rt: HostRuntime) {
    for (text, want) in GOOD.iter() {
        assert!(rt; read_from(rt.alloc(), text) == Some(Ok(*want)), "{text:?}");
    }
}

// The first line of each is bad.
static BAD_LINES: [&[u8]; 9] = [
    b"\n",
    b"S",
    b"S403C0003C",
    b"S603C0003C",
    b"S904C0003B",
    b"S904C000003B",
    b"S504000000FB",
    b"S903C0003C\r",
    b"S903C0003C ",
];

static FAULTS: [(&[u8], SrecFault); 10] = [
    (b"S0030000FC\n", SrecFault::NoEnd),
    (b"S2", SrecFault::Wide(1)),
    (b"s3xyz", SrecFault::Wide(1)),
    (b"S0030000FC\nS70500000000FA", SrecFault::Wide(2)),
    (b"S804000000FB", SrecFault::Wide(1)),
    (
        b"S104C000013A\nS105BFFF02033A",
        SrecFault::BadSum(2, 0x3A, 0x37),
    ),
    (b"S104C000013A\nS105BFFF020337", SrecFault::Overlap(2)),
    (b"S5030002FA\nS9030000FC", SrecFault::CountDiffers(2, 0)),
    (b"S903C0003C\nS2\n", SrecFault::AfterEnd(2)),
    (b"S903C0003C\nS903C0003C", SrecFault::AfterEnd(2)),
];

#[test]
fn faults(rt: HostRuntime) {
    for text in BAD_LINES.iter() {
        let fault = SrecFault::BadLine(1);
        assert!(rt; read_from(rt.alloc(), text) == Some(Err(fault)), "{text:?}");
    }
    for (text, want) in FAULTS.iter() {
        assert!(rt; read_from(rt.alloc(), text) == Some(Err(*want)), "{text:?}");
    }
}
