//! Texts of decimals.
use fz_num::{Dec, DecFault};
use std::process::Abort;

fn expect(rt: &impl Abort, text: &str, want: Result<Dec, DecFault>) {
    assert!(rt; Dec::read(text.as_bytes()) == want, "{text}");
}

static READ: [(&str, i64); 10] = [
    ("0", 0),
    ("-0", 0),
    ("64", 640_000),
    ("+64.9", 649_000),
    ("-12.5", -125_000),
    ("007.0625", 70_625),
    ("127.9999", 1_279_999),
    ("1.500000", 15_000),
    ("100000", 1_000_000_000),
    ("-100000.00000", -1_000_000_000),
];

static REFUSED: [(&str, DecFault); 23] = [
    ("", DecFault::Shape),
    ("+", DecFault::Shape),
    ("-", DecFault::Shape),
    (".", DecFault::Shape),
    ("1.", DecFault::Shape),
    (".5", DecFault::Shape),
    ("1..2", DecFault::Shape),
    ("1.2.3", DecFault::Shape),
    ("1e5", DecFault::Shape),
    ("1_0", DecFault::Shape),
    (" 1", DecFault::Shape),
    ("1 ", DecFault::Shape),
    ("--1", DecFault::Shape),
    ("1.-2", DecFault::Shape),
    ("1.5x", DecFault::Shape),
    ("100001.", DecFault::Shape),
    // A fifth place is told before a large number.
    ("0.00001", DecFault::Places),
    ("-1.23456", DecFault::Places),
    ("100001.00001", DecFault::Places),
    ("100000.0001", DecFault::Large),
    ("100001", DecFault::Large),
    ("-100001", DecFault::Large),
    (
        "99999999999999999999999999999999999999999999.5",
        DecFault::Large,
    ),
];

#[test]
fn decimals_are_read_in_ten_thousandths_or_refused(rt: HostRuntime) {
    for (text, want) in READ.iter() {
        expect(&rt, text, Ok(Dec(*want)));
    }
    for (text, fault) in REFUSED.iter() {
        expect(&rt, text, Err(*fault));
    }
}
