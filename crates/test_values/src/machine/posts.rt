//! Posts and their first faults.
use interrupt_plan::{PlanFault, read_posts};
use std::test::Fail;

#[test]
fn posts_are_read(rt: HostRuntime) -> Result<(), Fail> {
    let posts = read_posts(rt.alloc(), b"0,2,1800,FF\n0,0\r\n1000000,001", 2)?;
    assert!(rt; posts.len() == 3);
    match posts.as_slice() {
        [first, second, third] => {
            assert!(rt; first.moment == 0 && first.sample == 2 && first.writes.len() == 1);
            assert!(rt; second.moment == 0 && second.sample == 0 && second.writes.is_empty());
            assert!(rt; third.moment == 1_000_000 && third.sample == 1);
        }
        _ => assert!(rt; false),
    }
    Ok(())
}

// Over two samples.
static ROWS: [(&[u8], PlanFault); 7] = [
    (b"0,3", PlanFault::BadRow(1)),
    (b"1000001,1", PlanFault::BadRow(1)),
    (b"5,1\n4,2", PlanFault::NotAscending(2)),
    (b"5,1,17FF,00", PlanFault::NotFree(1, 0x17FF)),
    (b"5,1,1020,00", PlanFault::NotFree(1, 0x1020)),
    (b"5,1,1800", PlanFault::BadRow(1)),
    (b"5", PlanFault::BadRow(1)),
];

#[test]
fn faults_of_posts(rt: HostRuntime) {
    for (text, want) in ROWS.iter() {
        assert!(rt;
            read_posts(rt.alloc(), text, 2).err() == Some(*want),
            "{text:?}"
        );
    }
}
