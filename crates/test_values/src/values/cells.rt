//! Tight Bounds of boxes over one input, and Bounds of their cells.
ghost use Rattle.std.specs.Prelude.{◌≡◌, length};
ghost use Rattle.error_bound.specs.Reaches.{IsBlockTable};

use super::blocks::{block_in, block_of};
use super::leaves::box_of;
use byte_scaling::Width;
use byte_scaling::Width::{Byte, Word};
use cell_bounds::{CellAbove, cells_bounds, sure_cells_bounds};
use error_bound::{BlockTable, BoxTable};
use std::process::Abort;
use std::test::Fail;
use test_texts::{BACK, BLOCK, FRONT, HALF_WEIGHT, LATCH, MIDDLE};

/// The first and the last byte, the width of the answers and a limit, with the greatest Bound of the
/// cells, or the byte of the first cell above the limit and that cell's count.
type Walked = (u8, u8, Width, u32, Result<u32, (u8, u32)>);

/// A text in parts, and walks over its block's cells.
struct Row {
    fcl: &'static [&'static str],
    walks: &'static [Walked],
}

static ROWS: [Row; 5] = [
    Row {
        fcl: &[BLOCK],
        walks: &[
            (0, 255, Byte, 3907, Ok(3907)),
            (0, 255, Byte, 3906, Err((0, 3907))),
            (0, 255, Word, 3906, Err((0, 3907))),
        ],
    },
    Row {
        fcl: &HALF_WEIGHT,
        walks: &[
            (0, 255, Byte, 11_583, Ok(11_583)),
            (0, 255, Byte, 11_582, Err((1, 11_583))),
        ],
    },
    Row {
        fcl: &[FRONT, "50", MIDDLE, BACK],
        walks: &[
            (192, 255, Byte, 1_000_000, Ok(501_961)),
            (0, 255, Byte, 501_960, Err((255, 501_961))),
        ],
    },
    Row {
        fcl: &[FRONT, "NC", MIDDLE, BACK],
        walks: &[(0, 255, Byte, 1_000_000, Err((255, 1_000_001)))],
    },
    Row {
        fcl: &[LATCH],
        walks: &[(0, 63, Byte, 0, Ok(0)), (192, 255, Byte, 0, Ok(0))],
    },
];

/// Fails if a walk over the cells has another result.
fn is_walked(rt: &impl Abort, table: &BlockTable, walk: &Walked) -> Result<(), Fail>
    requires table { IsBlockTable table.now }
    requires input { length table.now.block.now.inputs ≡ 1 }
    requires output { length table.now.block.now.outputs ≡ 1 }
{
    let (from, to, _, limit, wanted) = *walk;
    assert!(rt; from <= to && limit <= 1_000_000);
    let bytes = box_of(table.block, from, to);
    match (cells_bounds(table, &bytes, &[limit]), wanted) {
        (Ok(bounds), Ok(greatest)) => assert!(rt; bounds[0] == greatest),
        (Err(CellAbove { bytes, out, bound }), Err((byte, count))) => {
            assert!(rt; bytes.as_slice() == [byte].as_slice());
            assert!(rt; out == 1 && bound == count);
        }
        _ => return Err(Fail::new("another answer")),
    }
    Ok(())
}

#[test]
fn cells_have_bounds(rt: HostRuntime) -> Result<(), Fail> {
    for row in ROWS.iter() {
        let block = block_in(rt.alloc(), row.fcl)?;
        assert!(rt; block.inputs.len() == 1);
        assert!(rt; block.outputs.len() == 1);
        for walk in row.walks {
            let table = BlockTable::new(rt.alloc(), &block, walk.2)?;
            is_walked(&rt, &table, walk)?;
        }
    }
    Ok(())
}

#[test]
fn a_cell_without_a_bound_is_unsure(rt: HostRuntime) -> Result<(), Fail> {
    let block = block_in(rt.alloc(), &[FRONT, "NC", MIDDLE, BACK])?;
    assert!(rt; block.inputs.len() == 1);
    let table = BlockTable::new(rt.alloc(), &block, Byte)?;
    let unsure = sure_cells_bounds(&table, &box_of(&block, 192, 255));
    assert!(rt; unsure.err() == Some(1));
    Ok(())
}

#[test]
fn boxes_have_tight_bounds(rt: HostRuntime) -> Result<(), Fail> {
    let block = block_of(rt.alloc(), BLOCK.as_bytes())?;
    assert!(rt; block.inputs.len() == 1);
    assert!(rt; block.outputs.len() == 1);
    for (width, wanted) in [(Byte, 11_735), (Word, 7_828)] {
        let table = BlockTable::for_one_box(&block, width);
        let low = BoxTable::over(&table, box_of(&block, 0, 127)).tight_bound(1);
        let high = BoxTable::over(&table, box_of(&block, 128, 255)).tight_bound(1);
        assert!(rt; low.max(high) == Some(wanted));
        assert!(rt;
            BoxTable::over(&table, box_of(&block, 0, 255))
                .tight_bound(1)
                .is_none()
        );
    }
    Ok(())
}
