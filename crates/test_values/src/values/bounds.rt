//! How far grades are from degrees.
use error_bound::term_error;
use fuzzy_meaning::heater;
use fz_num::Nano;
use std::test::Fail;

#[test]
fn a_degree_moves_by_a_256th_within_a_cell(rt: HostRuntime) -> Result<(), Fail> {
    let block = heater(rt.alloc())?;
    let inputs = block.inputs.as_slice();
    assert!(rt; inputs.len() == 1);
    assert!(rt; inputs[0].terms.len() == 2);
    assert!(rt; term_error(&inputs[0], 1, 0, 127) == Nano(3_906_250));
    Ok(())
}
