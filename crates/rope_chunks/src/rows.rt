//! A rope's rows: their lengths, and where points are clipped to in them.
ghost use Rattle.std.specs.Prelude.{◌≡◌};
ghost use Rattle.text_dims.specs.Places.{point_of, row_len_of, point_clip_back, point_clip_on};
ghost use Rattle.rope_chunks.specs.Clips.{point_clip};

use crate::rope::Rope;
use crate::targets::{ByPoint, ByRow};
use text_dims::{Place, Point};
use tree_cursor::Bias;

impl Rope {
    /// How many bytes a row has without its LF, or None if there is no such row. Does not allocate.
    pub fn row_len(&self, row: u64) -> Option<u64>
        ensures { result ≡ row_len_of self.now row }
    {
        let end = self.stop(&ByRow(row)).before;
        if end.row == row {
            Some(end.column)
        } else {
            None
        }
    }

    /// The point itself where it is a position; in a row past the last, the text's end; past a row's end, the row's end;
    /// inside a character its start (Left) or its end (Right). Does not allocate.
    pub fn clip_point(&self, point: Point, bias: Bias) -> Point
        ensures { result ≡ point_of (point_clip self.now point bias) }
    {
        match bias {
            Bias::Left => self.point_back(point).point(),
            Bias::Right => self.point_on(point).point(),
        }
    }

    // The last place of its row at or before a point, or the text's end where there is no such row.
    fn point_back(&self, point: Point) -> Place
        ensures { result ≡ point_clip_back self.now point }
    {
        self.known();
        self.back(&ByPoint(point))
    }

    // The first place of its row at or past a point, or the row's last place, or the text's end where there is no such row.
    fn point_on(&self, point: Point) -> Place
        ensures { result ≡ point_clip_on self.now point }
    {
        self.known();
        let stop = self.stop(&ByPoint(point));
        match stop.here {
            None => stop.before,
            Some(place) => {
                if place.row != point.row {
                    return stop.before;
                }
                place
            }
        }
    }
}
