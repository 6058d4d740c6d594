//! Certificates that halving gives, and targets for which it gives none.
use super::blocks::block_of;
use box_tree::{write, write16};
use error_certifier::{NotReached, certify, certify16};
use fuzzy_meaning::heater;
use std::test::Fail;
use test_texts::TWO_OUTPUTS;

#[test]
fn a_heater_is_halved_once(rt: HostRuntime) -> Result<(), Fail> {
    let alloc = rt.alloc();
    let block = heater(alloc)?;
    let bytes = certify(alloc, &block, 20_000)?;
    let text = b"FZC 1\nclaim 19609\nsplit 1 128\nleaf 1 127\nleaf 2 127\n";
    assert!(rt; write(alloc, &bytes)?.as_slice() == text.as_slice());
    let words = certify16(alloc, &block, 16_000)?;
    let text = b"FZC 2\nclaim 15702\nsplit 1 128\nleaf 1 127\nleaf 2 127\n";
    assert!(rt; write16(alloc, &words)?.as_slice() == text.as_slice());
    Ok(())
}

#[test]
fn a_target_wants_too_many_leaves(rt: HostRuntime) -> Result<(), Fail> {
    let block = block_of(rt.alloc(), TWO_OUTPUTS.as_bytes())?;
    let stop = certify(rt.alloc(), &block, 13_757).err();
    assert!(rt; stop == Some(NotReached::LeafLimit));
    Ok(())
}

#[test]
fn a_cell_is_above_a_target(rt: HostRuntime) -> Result<(), Fail> {
    let block = heater(rt.alloc())?;
    match certify(rt.alloc(), &block, 5_000) {
        Err(NotReached::Cell(bytes, output, bound)) => {
            assert!(rt; bytes.as_slice() == [0].as_slice());
            assert!(rt; output == 1 && bound == 11_765);
            Ok(())
        }
        _ => Err(Fail::new("no cell")),
    }
}
