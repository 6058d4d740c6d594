//! Fractions.
use fz_num::{Dec, Frac, Nano};
use std::cmp::Ordering;

#[test]
fn operations_are_exact(rt: HostRuntime) {
    let third = Frac::over(1, 3);
    let quarter = Frac::over(1, 4);
    assert!(rt; third.cmp(quarter) == Ordering::Greater);
    assert!(rt; third.cmp(Frac::over(2, 6)) == Ordering::Equal);
    assert!(rt; third.min(quarter).den == 4);
    assert!(rt; third.max(quarter).den == 3);
    assert!(rt; third.one_minus().num == 2);
    assert!(rt; third.times(Dec(5000)).num == 5000);
    assert!(rt; third.times(Dec(5000)).den == 30_000);
    assert!(rt; third.floor_nano() == Nano(333_333_333));
    assert!(rt; third.rise(85) == Nano(0));
    assert!(rt; third.fall(85) == Nano(0));
    assert!(rt; third.rise(84) == Nano(3_921_569));
    assert!(rt; third.fall(84) == Nano(0));
    assert!(rt; third.rise(86) == Nano(0));
    assert!(rt; third.fall(86) == Nano(3_921_569));
}
