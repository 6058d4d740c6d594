//! Which numbers lie in the cell of a byte, and which byte is nearest to a number.
ghost use Rattle.byte_scaling.specs.Cells.{NearestIsByte, CellsAreApart, NumbersLieInTheirCells, BytesAscend};

/// The byte nearest to a number of the range is a byte.
pub fn nearest_is_byte()
    ensures { NearestIsByte }
{}

/// No place of a range lies in two cells.
pub fn cells_are_apart()
    ensures { CellsAreApart }
{}

/// A number of an input's range lies in the cell of its byte.
pub fn numbers_lie_in_their_cells()
    ensures { NumbersLieInTheirCells }
{}

/// A greater number of an input's range has no lower byte.
pub fn bytes_ascend()
    ensures { BytesAscend }
{}
