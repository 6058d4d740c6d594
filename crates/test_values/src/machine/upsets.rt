//! Upsets and their first faults.
use cpu12_asm::{ByteMap, Image};
use interrupt_plan::{Upset, UpsetFault, read_upsets};
use std::alloc::{AllocError, Global};
use std::test::Fail;

/// An image with some bytes of code, tables and vectors.
fn image(alloc: Global) -> Result<Image, AllocError> {
    let mut bytes = ByteMap::new(alloc);
    for at in [0xC000, 0xCFFF, 0xD000, 0xD201, 0xFEFF, 0xFF00, 0xFFFE] {
        bytes.insert(at, 0xFF)?;
    }
    Ok(Image {
        bytes,
        start: 0xC000,
    })
}

#[test]
fn upsets_are_read(rt: HostRuntime) -> Result<(), Fail> {
    let image = image(rt.alloc())?;
    let upsets = read_upsets(
        rt.alloc(),
        b"1,D201,FE\n0007,d000,00\r\n\"10000\",fEfF,a5",
        &image,
    )?;
    let want = [
        Upset {
            sample: 1,
            at: 0xD201,
            value: 0xFE,
        },
        Upset {
            sample: 7,
            at: 0xD000,
            value: 0x00,
        },
        Upset {
            sample: 10000,
            at: 0xFEFF,
            value: 0xA5,
        },
    ];
    assert!(rt; upsets.as_slice() == want.as_slice());
    assert!(rt; read_upsets(rt.alloc(), b"", &image)?.is_empty());
    Ok(())
}

// The first row of each is bad.
static BAD: [&[u8]; 6] = [
    b"0,D000,00",
    b"1,D000",
    b"1,D000,00,00",
    b"1,D00,00",
    b"1,D000,0",
    b"1000000000,D000,00",
];

static ROWS: [(&[u8], UpsetFault); 8] = [
    (b"1,D202,00", UpsetFault::NotTable(1, 0xD202)),
    (b"1,C000,00", UpsetFault::NotTable(1, 0xC000)),
    (b"1,CFFF,00", UpsetFault::NotTable(1, 0xCFFF)),
    (b"1,FF00,00", UpsetFault::NotTable(1, 0xFF00)),
    (b"1,FFFE,00", UpsetFault::NotTable(1, 0xFFFE)),
    (b"2,D000,00\n2,D201,00", UpsetFault::NotAscending(2)),
    (b"2,D000,00\n1,D201,00", UpsetFault::NotAscending(2)),
    (b"2,D000,00\n1,D202,00", UpsetFault::NotTable(2, 0xD202)),
];

#[test]
fn upset_faults(rt: HostRuntime) -> Result<(), Fail> {
    let image = image(rt.alloc())?;
    for text in BAD.iter() {
        let fault = read_upsets(rt.alloc(), text, &image).err();
        assert!(rt; fault == Some(UpsetFault::BadRow(1)), "{text:?}");
    }
    for (text, want) in ROWS.iter() {
        let fault = read_upsets(rt.alloc(), text, &image).err();
        assert!(rt; fault == Some(*want), "{text:?}");
    }
    Ok(())
}
