//! Plans and their first faults.
use cpu12_isa::instr::Write;
use interrupt_plan::{PlanFault, read_plan};
use std::alloc::{AllocError, Global};
use std::test::Fail;

/// The first fault of a text.
fn fault_of(alloc: Global, text: &[u8]) -> Option<PlanFault> {
    if text.len() > 1_048_576 {
        return None;
    }
    read_plan(alloc, text).err()
}

#[test]
fn a_plan_is_read(rt: HostRuntime) -> Result<(), Fail> {
    let plan = read_plan(rt.alloc(), b"1,17,1800,FF,1fdf,01\n1,17\r\n002,0,1800,a0")?;
    assert!(rt; plan.len() == 3);
    match plan.as_slice() {
        [first, second, third] => {
            assert!(rt; first.sample == 1 && first.moment == 17);
            let writes = [
                Write {
                    at: 0x1800,
                    value: 0xFF,
                },
                Write {
                    at: 0x1FDF,
                    value: 0x01,
                },
            ];
            assert!(rt; first.writes.as_slice() == writes.as_slice());
            assert!(rt; second.moment == 17 && second.writes.is_empty());
            assert!(rt; third.sample == 2 && third.moment == 0 && third.writes.len() == 1);
        }
        _ => assert!(rt; false),
    }
    Ok(())
}

const NINE_PAIRS: &[u8] =
    b"1,0,1800,00,1800,00,1800,00,1800,00,1800,00,1800,00,1800,00,1800,00,1800,00";

static ROWS: [(&[u8], PlanFault); 9] = [
    (
        b"1,0,1800,00,1FE0,00,0000,00",
        PlanFault::NotFree(1, 0x1FE0),
    ),
    (b"2,5\n1,9", PlanFault::NotAscending(2)),
    (b"2,5\n1,9,17FF,00", PlanFault::NotFree(2, 0x17FF)),
    (NINE_PAIRS, PlanFault::BadRow(1)),
    (b"0,1", PlanFault::BadRow(1)),
    (b"1,0,1800", PlanFault::BadRow(1)),
    (b"1,0,180,00", PlanFault::BadRow(1)),
    (b"1,1000000000", PlanFault::BadRow(1)),
    (b"1,-1", PlanFault::BadRow(1)),
];

#[test]
fn faults(rt: HostRuntime) {
    for (text, want) in ROWS.iter() {
        assert!(rt; fault_of(rt.alloc(), text) == Some(*want), "{text:?}");
    }
}

/// A text with this many rows, and a last one.
fn rows(alloc: Global, count: usize, last: &[u8]) -> Result<Vec<u8>, AllocError> {
    let mut text = Vec::new(alloc);
    for _ in 0..count {
        text.extend_from_slice(b"1,1\n")?;
    }
    text.extend_from_slice(last)?;
    Ok(text)
}

#[test]
fn rows_are_counted(rt: HostRuntime) -> Result<(), Fail> {
    let most = rows(rt.alloc(), 9_999, b"999999999,0")?;
    assert!(rt; fault_of(rt.alloc(), &most).is_none());
    let more = rows(rt.alloc(), 10_000, b"malformed")?;
    assert!(rt; fault_of(rt.alloc(), &more) == Some(PlanFault::TooMany));
    Ok(())
}
