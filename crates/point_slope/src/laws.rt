//! Where the answers of a block lie.
ghost use Rattle.point_slope.specs.Bytes.{AnswersAreInRange};

use byte_scaling::laws::nearest_is_byte;

/// What a valid block answers over bytes after an answer in range is in range: 0 to 255 as a byte,
/// 0 to 65280 in 16 bits.
pub fn answers_are_in_range()
    ensures { AnswersAreInRange }
{
    nearest_is_byte();
}
