//! A place in a text, in each kind of position at once.
ghost use Rattle.std.specs.Prelude.{◌≡◌};
ghost use Rattle.text_dims.specs.Bytes.{run_summary};
ghost use Rattle.text_dims.specs.Places.{PlaceFits, offset_utf16_of, place_after, place_sum, point_of, point_utf16_of, summary_end};

use crate::bytes::units_at;
use crate::lanes::Run;
use crate::points::{OffsetUtf16, Point, PointUtf16};
use crate::summary::TextSummary;

/// A place in a text, in each kind of position: what is counted of the text before it.
#[derive(Clone, Copy, Debug, Default, PartialEq, Eq, Hash)]
pub struct Place {
    /// The bytes before the place.
    pub offset: u64,

    /// The UTF-16 units before the place.
    pub utf16: u64,

    /// The LFs before the place.
    pub row: u64,

    /// The bytes between the last LF before the place and the place.
    pub column: u64,

    /// The UTF-16 units between the last LF before the place and the place.
    pub column_utf16: u64,
}

impl Place {
    /// The place as a point.
    pub fn point(self) -> Point
        ensures { result ≡ point_of self }
    {
        Point {
            row: self.row,
            column: self.column,
        }
    }

    /// The place as an offset in UTF-16 units.
    pub fn offset_utf16(self) -> OffsetUtf16
        ensures { result ≡ offset_utf16_of self }
    {
        OffsetUtf16(self.utf16)
    }

    /// The place as a point whose column is in UTF-16 units.
    pub fn point_utf16(self) -> PointUtf16
        ensures { result ≡ point_utf16_of self }
    {
        PointUtf16 {
            row: self.row,
            column: self.column_utf16,
        }
    }

    /// The place past a text of this summary that begins here.
    pub fn past(self, text: &TextSummary) -> Place
        requires { PlaceFits (place_sum self (summary_end text.now)) }
        ensures { result ≡ place_sum self (summary_end text.now) }
    {
        if text.lines.row == 0 {
            Place {
                offset: self.offset + text.len,
                utf16: self.utf16 + text.len_utf16,
                row: self.row,
                column: self.column + text.lines.column,
                column_utf16: self.column_utf16 + text.last_row_len_utf16,
            }
        } else {
            Place {
                offset: self.offset + text.len,
                utf16: self.utf16 + text.len_utf16,
                row: self.row + text.lines.row,
                column: text.lines.column,
                column_utf16: text.last_row_len_utf16,
            }
        }
    }

    /// The place past some bytes among which is no LF, which stand here.
    #[inline]
    pub fn past_run(self, run: Run) -> Place
        requires { PlaceFits (place_sum self
            (summary_end (run_summary run.len run.chars run.units))) }
        ensures { result ≡ place_sum self (summary_end (run_summary run.len run.chars run.units)) }
    {
        Place {
            offset: self.offset + run.len as u64,
            utf16: self.utf16 + run.units,
            row: self.row,
            column: self.column + run.len as u64,
            column_utf16: self.column_utf16 + run.units,
        }
    }

    /// The place past one byte, which stands here.
    #[inline]
    pub fn after(self, byte: u8) -> Place
        requires { PlaceFits (place_after self byte) }
        ensures { result ≡ place_after self byte }
    {
        if byte == b'\n' {
            Place {
                offset: self.offset + 1,
                utf16: self.utf16 + 1,
                row: self.row + 1,
                column: 0,
                column_utf16: 0,
            }
        } else {
            let units = units_at(byte);
            Place {
                offset: self.offset + 1,
                utf16: self.utf16 + units,
                row: self.row,
                column: self.column + 1,
                column_utf16: self.column_utf16 + units,
            }
        }
    }
}
