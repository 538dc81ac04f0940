//! Positions in a text, but for byte offsets, which are plain numbers.
ghost use Rattle.std.specs.Prelude.{◌≡◌};
ghost use Rattle.text_dims.specs.Points.{point_sum, PointFits, point_utf16_sum, PointUtf16Fits};

use std::ops::Add;

/// A place in a text, as the row, counted from 0, and the bytes of that row before the place.
///
/// Points are ordered by row, then by column. Adding a point moves on by it: `a + b` is the end of a text that ends at `a`,
/// followed by one that ends at `b`.
#[derive(Clone, Copy, Debug, Default, PartialEq, Eq, PartialOrd, Ord, Hash)]
pub struct Point {
    pub row: u64,
    pub column: u64,
}

/// A place in a text, as the row, counted from 0, and the UTF-16 units of that row before the place.
///
/// Ordered and added as a [`Point`] is.
#[derive(Clone, Copy, Debug, Default, PartialEq, Eq, PartialOrd, Ord, Hash)]
pub struct PointUtf16 {
    pub row: u64,
    pub column: u64,
}

/// A place in a text, as the UTF-16 units before it.
#[derive(Clone, Copy, Debug, Default, PartialEq, Eq, PartialOrd, Ord, Hash)]
pub struct OffsetUtf16(pub u64);

impl Add for Point {
    type Output = Point;

    ghost can_add = { λ a b. PointFits (point_sum a b) };

    ghost add_gives = { λ a b sum. sum ≡ point_sum a b };

    fn add(self, other: Point) -> Point {
        if other.row == 0 {
            Point {
                row: self.row,
                column: self.column + other.column,
            }
        } else {
            Point {
                row: self.row + other.row,
                column: other.column,
            }
        }
    }
}

impl Add for PointUtf16 {
    type Output = PointUtf16;

    ghost can_add = { λ a b. PointUtf16Fits (point_utf16_sum a b) };

    ghost add_gives = { λ a b sum. sum ≡ point_utf16_sum a b };

    fn add(self, other: PointUtf16) -> PointUtf16 {
        if other.row == 0 {
            PointUtf16 {
                row: self.row,
                column: self.column + other.column,
            }
        } else {
            PointUtf16 {
                row: self.row + other.row,
                column: other.column,
            }
        }
    }
}
