//! Grades.
ghost use Rattle.std.specs.Prelude.{◌≡◌};
ghost use Rattle.point_slope.specs.Tables.{grade_of, side};

/// The grade of a byte under a term's table: 0 outside its points, else the lower of its sides, at most 255.
pub fn grade(row: [u8; 4], v: u8) -> u8
    ensures { result ≡ grade_of row v }
{
    let [first, last, rise, fall] = row;
    if v < first || v > last {
        return 0;
    }
    side_at(v - first, rise)
        .min(side_at(last - v, fall))
        .min(255) as u8
}

/// The height of a side at this many bytes from its point; a side without a slope does not limit.
fn side_at(n: u8, slope: u8) -> u16
    ensures { result ≡ side n slope }
{
    if slope == 0 {
        255
    } else {
        u16::from(n) * u16::from(slope)
    }
}
