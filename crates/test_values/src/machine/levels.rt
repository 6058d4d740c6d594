//! Levels and their first faults.
use interrupt_plan::{PlanFault, read_levels};
use std::test::Fail;

#[test]
fn levels_are_read(rt: HostRuntime) -> Result<(), Fail> {
    let levels = read_levels(rt.alloc(), b"1,26,1,24\n1,26,0\r\n002,5,2,0,0,000000007", 2)?;
    assert!(rt; levels.len() == 3);
    match levels.as_slice() {
        [first, second, third] => {
            assert!(rt; first.sample == 1 && first.moment == 26 && first.fast == 1);
            let once: [u32; 1] = [24];
            assert!(rt; first.inner.as_slice() == once.as_slice());
            assert!(rt; second.fast == 0 && second.inner.is_empty());
            assert!(rt; third.sample == 2 && third.moment == 5 && third.fast == 2);
            let thrice: [u32; 3] = [0, 0, 7];
            assert!(rt; third.inner.as_slice() == thrice.as_slice());
        }
        _ => assert!(rt; false),
    }
    Ok(())
}

// Over one fast sample.
static TAKEN: [&[u8]; 3] = [b"1,26,1,24", b"1,26,1,0", b"1,26,1,1,2,3,4,5,6,7,8"];

// The first row of each is bad.
static BAD: [&[u8]; 9] = [
    b"1,26,2",
    b"1,26,0,5",
    b"1,26,1,5,4",
    b"1,26,1,1,2,3,4,5,6,7,8,9",
    b"1,26",
    b"0,26,1",
    b"1,1000000000,1",
    b"1,26,1,-1",
    b"1,26,1,",
];

static ROWS: [(&[u8], PlanFault); 3] = [
    (b"2,5,0\n1,9,1", PlanFault::NotAscending(2)),
    (b"2,5,0\n2,5,1\n2,4,1", PlanFault::NotAscending(3)),
    (b"2,5,0\n1,9,2", PlanFault::BadRow(2)),
];

#[test]
fn faults_of_levels(rt: HostRuntime) {
    for text in TAKEN.iter() {
        assert!(rt; read_levels(rt.alloc(), text, 1).is_ok(), "{text:?}");
    }
    for text in BAD.iter() {
        let fault = read_levels(rt.alloc(), text, 1).err();
        assert!(rt; fault == Some(PlanFault::BadRow(1)), "{text:?}");
    }
    for (text, want) in ROWS.iter() {
        assert!(rt;
            read_levels(rt.alloc(), text, 1).err() == Some(*want),
            "{text:?}"
        );
    }
}
