//! A rope's positions: each kind as each other.
//!
//! Each is one descent, and one look inside a chunk. None allocates.
ghost use Rattle.std.specs.Prelude.{◌≡◌};
ghost use Rattle.std.specs.Option.{option_map};
ghost use Rattle.text_dims.specs.Places.{place_at_offset, place_at_utf16, place_at_point, place_at_point_utf16, point_of, offset_utf16_of, point_utf16_of};
ghost use Rattle.rope_chunks.specs.Offsets.{offset_of};

use crate::rope::Rope;
use crate::targets::{ByOffset, ByPoint, ByPointUtf16, ByUtf16};
use text_dims::{OffsetUtf16, Place, Point, PointUtf16};

impl Rope {
    /// The point of a byte offset, or None if that is past the text's end or inside a character. It is one
    /// descent and one look inside a chunk, and does not allocate.
    pub fn offset_to_point(&self, offset: u64) -> Option<Point>
        ensures { result ≡ option_map point_of (place_at_offset self.now offset) }
    {
        let place = self.at_offset(offset)?;
        Some(place.point())
    }

    /// The byte offset of a point, or None if there is no such row, or the column is past the row's end or inside a
    /// character. It is one descent and one look inside a chunk, and does not allocate.
    pub fn point_to_offset(&self, point: Point) -> Option<u64>
        ensures { result ≡ option_map offset_of (place_at_point self.now point) }
    {
        let place = self.at_point(point)?;
        Some(place.offset)
    }

    /// The offset in UTF-16 units of a byte offset, or None if that is past the text's end or inside a character. It is one
    /// descent and one look inside a chunk, and does not allocate.
    pub fn offset_to_utf16(&self, offset: u64) -> Option<OffsetUtf16>
        ensures { result ≡ option_map offset_utf16_of (place_at_offset self.now offset) }
    {
        let place = self.at_offset(offset)?;
        Some(place.offset_utf16())
    }

    /// The byte offset of an offset in UTF-16 units, or None if that is past the text's end or inside a character. It is one
    /// descent and one look inside a chunk, and does not allocate.
    pub fn utf16_to_offset(&self, offset: OffsetUtf16) -> Option<u64>
        ensures { result ≡ option_map offset_of (place_at_utf16 self.now offset) }
    {
        let place = self.at_utf16(offset)?;
        Some(place.offset)
    }

    /// A point with its column in UTF-16 units, or None if there is no such row, or the column is past the row's end or
    /// inside a character. It is one descent and one look inside a chunk, and does not allocate.
    pub fn point_to_utf16(&self, point: Point) -> Option<PointUtf16>
        ensures { result ≡ option_map point_utf16_of (place_at_point self.now point) }
    {
        let place = self.at_point(point)?;
        Some(place.point_utf16())
    }

    /// A point in UTF-16 units with its column in bytes, or None if there is no such row, or the column is past the
    /// row's end or inside a character. It is one descent and one look inside a chunk, and does not allocate.
    pub fn utf16_to_point(&self, point: PointUtf16) -> Option<Point>
        ensures { result ≡ option_map point_of (place_at_point_utf16 self.now point) }
    {
        let place = self.at_point_utf16(point)?;
        Some(place.point())
    }

    // The place of a byte offset.
    fn at_offset(&self, offset: u64) -> Option<Place>
        ensures { result ≡ place_at_offset self.now offset }
    {
        self.place(&ByOffset(offset))
    }

    // The place of an offset in UTF-16 units.
    fn at_utf16(&self, offset: OffsetUtf16) -> Option<Place>
        ensures { result ≡ place_at_utf16 self.now offset }
    {
        self.place(&ByUtf16(offset))
    }

    // The place of a point.
    fn at_point(&self, point: Point) -> Option<Place>
        ensures { result ≡ place_at_point self.now point }
    {
        self.place(&ByPoint(point))
    }

    // The place of a point whose column is in UTF-16 units.
    fn at_point_utf16(&self, point: PointUtf16) -> Option<Place>
        ensures { result ≡ place_at_point_utf16 self.now point }
    {
        self.place(&ByPointUtf16(point))
    }
}
