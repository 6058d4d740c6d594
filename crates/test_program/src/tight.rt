//! Tight certificates: those that are found, targets that are not reached, and certificates that are refused.
use super::certify::{Search, find};
use super::certs::{Certificate, judge};
use std::test::Fail;
use test_program_calls::{BEFORE, Left, USAGE, rows};
use test_texts::{BACK, BLOCK, FRONT, HALF_WEIGHT, HALVES, LATCH, LATE, MIDDLE, TWO_OUTPUTS};

/// The heater, halved once to tight leaves.
const HEATER: Search = Search {
    command: "tcertify",
    fcl: &[BLOCK],
    target: "20000",
    left: Left::Lines("error 1 11735\nleaves 2\n"),
    out: Some("FZC 3\nclaim 11735\nsplit 1 128\nleaf\nleaf\n"),
};

static HEATERS: [Search; 7] = rows! { Search:
    HEATER {};
    HEATER { target: "11734" } leaves "error 1 9130\nleaves 3\n"
        makes "FZC 3\nclaim 9130\nsplit 1 128\nsplit 1 64\nleaf\nleaf\nleaf\n";
    HEATER { target: "3907" } leaves "error 1 3907\nleaves 4\n"
        makes "FZC 3\nclaim 3907\nsplit 1 128\nsplit 1 64\ncells\ncells\nsplit 1 192\ncells\ncells\n";
    HEATER { target: "3906" } refused 8 "not reached: cell 0 output 1 bound 3907\n" makes BEFORE;
    HEATER { command: "tcertify16" } leaves "error 1 7828\nleaves 2\n"
        makes "FZC 4\nclaim 7828\nsplit 1 128\nleaf\nleaf\n";
    HEATER { command: "tcertify16", target: "3907" } leaves "error 1 3907\nleaves 4\n"
        makes "FZC 4\nclaim 3907\nsplit 1 128\nsplit 1 64\ncells\ncells\nsplit 1 192\nleaf\ncells\n";
    HEATER { command: "tcertify16", target: "3906" } refused 8 "not reached: cell 0 output 1 bound 3907\n"
        makes BEFORE;
};

/// The heater with half the weight on its first rule.
const HALF: Search = Search {
    fcl: &HALF_WEIGHT,
    target: "60000",
    left: Left::Lines("error 1 19547\nleaves 2\n"),
    out: Some("FZC 3\nclaim 19547\nsplit 1 128\nleaf\nleaf\n"),
    ..HEATER
};

/// The heater without its second rule, so that nothing is sure where it is hot.
const ONE_RULE: Search = Search {
    fcl: &[FRONT, "50", MIDDLE, BACK],
    target: "1000000",
    left: Left::Lines("error 1 501961\nleaves 3\n"),
    out: Some("FZC 3\nclaim 501961\nsplit 1 128\nleaf\nsplit 1 192\nleaf\ncells\n"),
    ..HEATER
};

static OTHERS: [Search; 14] = rows! { Search:
    HEATER { fcl: &[LATE], target: "7813" } leaves "error 1 7813\nleaves 7\n"
        makes "FZC 3\nclaim 7813\nsplit 1 128\nsplit 2 128\nsplit 1 64\ncells\ncells\nsplit 1 64\nsplit 2 192\n\
            cells\ncells\nsplit 2 192\ncells\nleaf\nleaf\n";
    HEATER { fcl: &[LATE], target: "7752", out: None } leaves "error 1 7752\nleaves 10\n";
    HEATER { fcl: &[LATE], target: "7751" } refused 8 "not reached: cell 1 192 output 1 bound 7752\n" makes BEFORE;
    HALF {};
    HALF { target: "20000" };
    HALF { target: "11583", out: None } leaves "error 1 11583\nleaves 4\n";
    HALF { target: "11582" } refused 8 "not reached: cell 1 output 1 bound 11583\n" makes BEFORE;
    HALF { command: "tcertify16", out: None } leaves "error 1 18213\nleaves 2\n";
    HALF { command: "tcertify16", target: "11582", out: None } leaves "error 1 10438\nleaves 4\n";
    ONE_RULE {};
    ONE_RULE { target: "501960" } refused 8 "not reached: cell 255 output 1 bound 501961\n" makes BEFORE;
    ONE_RULE { fcl: &[FRONT, "NC", MIDDLE, BACK] } refused 8 "not reached: cell 255 output 1 bound 1000001\n"
        makes BEFORE;
    HEATER { fcl: &[LATCH], target: "3922" } leaves "error 1 3922\nleaves 4\n"
        makes "FZC 3\nclaim 3922\nsplit 1 128\nsplit 1 64\nleaf\nleaf\nsplit 1 192\nleaf\nleaf\n";
    HEATER { fcl: &[LATCH], target: "0" } leaves "error 1 0\nleaves 4\n"
        makes "FZC 3\nclaim 0\nsplit 1 128\nsplit 1 64\ncells\nleaf\nsplit 1 192\nleaf\ncells\n";
};

/// A fan depends on warmth and dark, and a lamp on dark alone, so that the lamp can have a third of the fan's error.
const ROOM: Search = Search {
    fcl: &[test_texts::ROOM],
    target: "19898,6250",
    left: Left::Lines("error 1 19898\nerror 2 6250\nleaves 357\n"),
    out: None,
    ..HEATER
};

/// One target for all outputs, and one for each.
static TARGETS: [Search; 14] = rows! { Search:
    ROOM { target: "19898" } leaves "error 1 19898\nerror 2 10172\nleaves 278\n";
    ROOM {};
    ROOM { target: "0019898,06250" };
    ROOM { target: "19897,6250" } refused 8 "not reached: cell 129 247 output 1 bound 19898\n" makes BEFORE;
    ROOM { target: "19898,6249" } refused 8 "not reached: cell 0 1 output 2 bound 6250\n" makes BEFORE;
    // Another count than of outputs is told after the block's own faults.
    HEATER { target: "20000,20000" } refused 8 "not reached: outputs 2 1\n" makes BEFORE;
    HEATER { command: "tcertify16", fcl: &[TWO_OUTPUTS], target: "1,2,3" } refused 8 "not reached: outputs 3 2\n"
        makes BEFORE;
    HEATER { fcl: &[], target: "20000,20000" } refused 4 "fcl: at 0: expected\n" makes BEFORE;
    HEATER { target: "3907,", left: USAGE } makes BEFORE;
    HEATER { target: ",3907", left: USAGE } makes BEFORE;
    HEATER { target: "1,,2", left: USAGE } makes BEFORE;
    HEATER { target: "1, 2", left: USAGE } makes BEFORE;
    HEATER { target: "1,2,3,4,5", left: USAGE } makes BEFORE;
    HEATER { target: "1,1000001", left: USAGE } makes BEFORE;
};

#[test]
fn tight_searches(rt: HostRuntime) -> Result<(), Fail> {
    for row in HEATERS.iter() {
        find(rt.alloc(), row)?;
    }
    for row in OTHERS.iter() {
        find(rt.alloc(), row)?;
    }
    for row in TARGETS.iter() {
        find(rt.alloc(), row)?;
    }
    Ok(())
}

/// The heater's tight certificate.
const TIGHT: Certificate = Certificate {
    command: "tcheck",
    fcl: &[BLOCK],
    cert: &["FZC 3\nclaim 19547\nsplit 1 128\nleaf\nleaf\n"],
    left: Left::Lines("error 1 11735\ninstructions 28\n"),
};

/// Four leaves of cells, each with 64 bytes of the first input.
const QUARTERS: &str = "split 1 128\nsplit 1 64\ncells\ncells\nsplit 1 192\ncells\ncells\n";

static CERTIFICATES: [Certificate; 11] = rows! { Certificate:
    TIGHT {};
    TIGHT { command: "tcheck16", cert: &["FZC 4\nclaim 11735\nsplit 1 128\nleaf\nleaf\n"] }
        leaves "error 1 7828\ninstructions 31\n";
    TIGHT { cert: &["FZC 3\nclaim 11734\nsplit 1 128\nleaf\nleaf\n"] }
        refused 6 "cert: output 1 claims 11734, computed 11735\n";
    TIGHT { cert: &["FZC 3\nclaim 11735\nleaf\n"] } refused 6 "cert: line 3: unsure output 1\n";
    TIGHT { cert: &["FZC 3\nclaim 11735\ncells\n"] } refused 6 "cert: line 3: too many cells\n";
    TIGHT { cert: &["FZC 3\nclaim 19547\nsplit 1 0\nleaf\nleaf\n"] } refused 6 "cert: line 3: bad cut\n";
    // Where each byte of an input gives the same it is not counted.
    TIGHT { fcl: &[LATE], cert: &["FZC 3\nclaim 1000000\nsplit 2 192\n", QUARTERS, QUARTERS] }
        leaves "error 1 7752\ninstructions 30\n";
    TIGHT { fcl: &[LATE], cert: &["FZC 3\nclaim 1000000\n", QUARTERS] } refused 6 "cert: line 5: too many cells\n";
    // A certificate of another kind or width is none.
    TIGHT { cert: &["FZC 1\nclaim 19609\n", HALVES] } refused 6 "cert: line 1: bad line\n";
    TIGHT { command: "tcheck16" } refused 6 "cert: line 1: bad line\n";
    TIGHT { command: "check" } refused 6 "cert: line 1: bad line\n";
};

#[test]
fn tight_certificates(rt: HostRuntime) -> Result<(), Fail> {
    judge(rt.alloc(), &CERTIFICATES)?;
    Ok(())
}
