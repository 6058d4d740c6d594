//! Laws of the definitions.
ghost use Rattle.fuzzy_meaning.specs.{Blocks.PartsAreValid, Examples.ExamplesAreValid};
ghost use Rattle.fuzzy_meaning.specs.{Places.NumbersHaveTheirDegrees};

/// Each part of a valid AND or OR is a valid condition.
pub fn parts_are_valid()
    ensures { PartsAreValid }
{}

/// Valid blocks exist, up to every limit: a heater with two rules, a latch with vertical edges, a NOT and `DEFAULT
/// := NC`, and a block that reaches the limits on counts, depth, size and magnitudes.
pub fn examples_are_valid()
    ensures { ExamplesAreValid }
{}

/// The degree at a place of an input's range, which may lie between numbers, equals at each number the number's
/// degree.
pub fn numbers_have_their_degrees()
    ensures { NumbersHaveTheirDegrees }
{}
