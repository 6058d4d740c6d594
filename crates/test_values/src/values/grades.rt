//! Tables and grades of a falling and a rising term over 256 cells.
use fuzzy_meaning::heater;
use point_slope::{grade, row, slope, table};
use std::test::Fail;

#[test]
fn a_grade_lies_under_both_sides(rt: HostRuntime) {
    for (v, want) in [(63, 0), (64, 0), (100, 144), (192, 255), (193, 0)] {
        assert!(rt; grade([64, 192, 4, 0], v) == want, "{v}");
    }
    assert!(rt; grade([0, 255, 0, 1], 64) == 191);
    assert!(rt; grade([0, 255, 1, 0], 64) == 64);
}

#[test]
fn slopes_are_rounded_to_the_nearest(rt: HostRuntime) {
    for (w, want) in [
        (0, 0),
        (1, 255),
        (2, 128),
        (64, 4),
        (170, 2),
        (171, 1),
        (255, 1),
    ] {
        assert!(rt; slope(w) == want, "{w}");
    }
}

#[test]
fn a_missing_point_leaves_its_side_open(rt: HostRuntime) -> Result<(), Fail> {
    let block = heater(rt.alloc())?;
    let rows = table(rt.alloc(), &block)?;
    assert!(rt; rows.as_slice() == [[0, 255, 0, 1], [0, 255, 1, 0]].as_slice());
    let inputs = block.inputs.as_slice();
    assert!(rt; inputs.len() == 1);
    assert!(rt; inputs[0].terms.len() == 2);
    assert!(rt; row(&inputs[0], 2) == [0, 255, 1, 0]);
    Ok(())
}
