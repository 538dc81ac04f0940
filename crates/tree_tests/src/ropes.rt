//! What ropes answer of positions, by worked rows; ropes that are joined and shared.
use crate::parts::rope_of;
use rope_chunks::{OutOfMemory, Rope};
use std::alloc::Global;
use text_dims::{OffsetUtf16, Place, Point, PointUtf16};
use tree_cursor::Bias;

// A row and a column. Offsets and units are columns of the row 0.
pub(crate) type Spot = (u64, u64);

// A kind of position.
#[derive(Clone, Copy, Debug, PartialEq)]
pub(crate) enum Kind {
    Offset,
    Units,
    Point,
    PointUnits,
}

impl Kind {
    // A place in this kind.
    pub(crate) fn spot_of(self, place: &Place) -> Spot {
        match self {
            Kind::Offset => (0, place.offset),
            Kind::Units => (0, place.utf16),
            Kind::Point => (place.row, place.column),
            Kind::PointUnits => (place.row, place.column_utf16),
        }
    }
}

fn offset_spot(offset: Option<u64>) -> Option<Spot> {
    match offset {
        None => None,
        Some(offset) => Some((0, offset)),
    }
}

fn units_spot(units: Option<OffsetUtf16>) -> Option<Spot> {
    match units {
        None => None,
        Some(units) => Some((0, units.0)),
    }
}

fn point_spot(point: Option<Point>) -> Option<Spot> {
    match point {
        None => None,
        Some(point) => Some((point.row, point.column)),
    }
}

fn point_units_spot(point: Option<PointUtf16>) -> Option<Spot> {
    match point {
        None => None,
        Some(point) => Some((point.row, point.column)),
    }
}

// What is asked of a rope at a spot.
#[derive(Clone, Copy, Debug)]
pub(crate) enum Ask {
    // The same position in another kind.
    Convert(Kind, Kind),
    ClipOffset(Bias),
    ClipPoint(Bias),
    // How long the row is.
    RowLen,
    Len,
    // The row and the column of the end.
    End,
    // The longest row, and its characters.
    LongestRow,
}

fn convert(rope: &Rope, from: Kind, to: Kind, (row, column): Spot) -> Option<Spot> {
    let point = Point { row, column };
    match (from, to) {
        (Kind::Offset, Kind::Point) => point_spot(rope.offset_to_point(column)),
        (Kind::Offset, _) => units_spot(rope.offset_to_utf16(column)),
        (Kind::Units, _) => offset_spot(rope.utf16_to_offset(OffsetUtf16(column))),
        (Kind::Point, Kind::Offset) => offset_spot(rope.point_to_offset(point)),
        (Kind::Point, _) => point_units_spot(rope.point_to_utf16(point)),
        (Kind::PointUnits, _) => point_spot(rope.utf16_to_point(PointUtf16 { row, column })),
    }
}

pub(crate) fn answer(rope: &Rope, ask: Ask, at: Spot) -> Option<Spot> {
    match ask {
        Ask::Convert(from, to) => convert(rope, from, to, at),
        Ask::ClipOffset(bias) => Some((0, rope.clip_offset(at.1, bias))),
        Ask::ClipPoint(bias) => {
            let (row, column) = at;
            point_spot(Some(rope.clip_point(Point { row, column }, bias)))
        }
        Ask::RowLen => offset_spot(rope.row_len(at.0)),
        Ask::Len => Some((0, rope.len())),
        Ask::End => point_spot(Some(rope.summary().lines)),
        Ask::LongestRow => Some((rope.summary().longest_row, rope.summary().longest_row_chars)),
    }
}

// What the rope of a text answers.
fn answer_in(alloc: Global, text: &str, ask: Ask, at: Spot) -> Result<Option<Spot>, OutOfMemory> {
    let rope = rope_of(alloc, text)?;
    Ok(answer(&rope, ask, at))
}

const OFFSET_TO_POINT: Ask = Ask::Convert(Kind::Offset, Kind::Point);

const OFFSET_TO_UTF16: Ask = Ask::Convert(Kind::Offset, Kind::Units);

const UTF16_TO_OFFSET: Ask = Ask::Convert(Kind::Units, Kind::Offset);

const POINT_TO_OFFSET: Ask = Ask::Convert(Kind::Point, Kind::Offset);

const POINT_TO_UTF16: Ask = Ask::Convert(Kind::Point, Kind::PointUnits);

const UTF16_TO_POINT: Ask = Ask::Convert(Kind::PointUnits, Kind::Point);

const LEFT: Ask = Ask::ClipPoint(Bias::Left);

const RIGHT: Ask = Ask::ClipPoint(Bias::Right);

const OFFSET_LEFT: Ask = Ask::ClipOffset(Bias::Left);

const OFFSET_RIGHT: Ask = Ask::ClipOffset(Bias::Right);

const ROWS: &[(&str, Ask, Spot, Option<Spot>)] = &[
    ("é😀\n", Ask::Len, (0, 0), Some((0, 7))),
    ("é😀\n", OFFSET_TO_POINT, (0, 6), Some((0, 6))),
    ("é😀\n", OFFSET_TO_POINT, (0, 3), None),
    ("é😀\n", OFFSET_TO_UTF16, (0, 6), Some((0, 3))),
    ("é😀\n", POINT_TO_UTF16, (0, 6), Some((0, 3))),
    ("é😀\n", UTF16_TO_POINT, (0, 1), Some((0, 2))),
    ("é😀\n", POINT_TO_OFFSET, (0, 7), None),
    ("é😀\n", POINT_TO_OFFSET, (1, 0), Some((0, 7))),
    ("é😀\n", POINT_TO_OFFSET, (2, 0), None),
    ("é😀\n", UTF16_TO_OFFSET, (0, 2), None),
    ("é😀\n", UTF16_TO_OFFSET, (0, 4), Some((0, 7))),
    ("é😀\n", UTF16_TO_OFFSET, (0, 5), None),
    ("é😀\n", OFFSET_LEFT, (0, 3), Some((0, 2))),
    ("é😀\n", OFFSET_RIGHT, (0, 3), Some((0, 6))),
    ("é😀\n", OFFSET_LEFT, (0, 6), Some((0, 6))),
    ("é😀\n", OFFSET_LEFT, (0, 9), Some((0, 7))),
    ("é😀\n", OFFSET_RIGHT, (0, 9), Some((0, 7))),
    ("é😀\n", LEFT, (0, 3), Some((0, 2))),
    ("é😀\n", RIGHT, (0, 3), Some((0, 6))),
    ("a\nbc", LEFT, (u64::MAX, 0), Some((1, 2))),
    ("a\nbc", RIGHT, (u64::MAX, 0), Some((1, 2))),
    ("a\nbc", LEFT, (u64::MAX, 9), Some((1, 2))),
    ("a\nbc", RIGHT, (u64::MAX, 9), Some((1, 2))),
    ("a\nbc", LEFT, (u64::MAX, u64::MAX), Some((1, 2))),
    ("a\nbc", RIGHT, (u64::MAX, u64::MAX), Some((1, 2))),
    ("a\nbc", LEFT, (0, u64::MAX), Some((0, 1))),
    ("a\nbc", RIGHT, (0, u64::MAX), Some((0, 1))),
    ("a\nbc", LEFT, (0, 9), Some((0, 1))),
    ("a\nbc", RIGHT, (0, 9), Some((0, 1))),
    ("a\nbc", LEFT, (5, 0), Some((1, 2))),
    ("a\nbc", RIGHT, (5, 0), Some((1, 2))),
    ("a\nbc", OFFSET_LEFT, (0, u64::MAX), Some((0, 4))),
    ("a\nbc", OFFSET_RIGHT, (0, u64::MAX), Some((0, 4))),
    ("a\nbc", Ask::RowLen, (0, 0), Some((0, 1))),
    ("a\nbc", Ask::RowLen, (1, 0), Some((0, 2))),
    ("a\nbc", Ask::RowLen, (2, 0), None),
    ("a\nbc", Ask::End, (0, 0), Some((1, 2))),
    ("a\nbc", Ask::LongestRow, (0, 0), Some((1, 2))),
    ("", OFFSET_TO_POINT, (0, 0), Some((0, 0))),
    ("", OFFSET_TO_POINT, (0, 1), None),
];

#[test]
fn ropes_answer_of_positions(rt: HostRuntime) -> Result<(), OutOfMemory> {
    for &(text, ask, at, expected) in ROWS {
        let found = answer_in(rt.alloc(), text, ask, at)?;
        assert!(rt; found == expected, "{ask:?} at {at:?} of {text:?}");
    }
    Ok(())
}

// The rope of two texts.
fn join(alloc: Global, front: &str, back: &str) -> Result<Rope, OutOfMemory> {
    let mut rope = rope_of(alloc, front)?;
    append_to(alloc, &mut rope, rope_of(alloc, back)?)?;
    Ok(rope)
}

pub(crate) fn append_to(alloc: Global, rope: &mut Rope, back: Rope) -> Result<(), OutOfMemory> {
    if rope.len() < 1000 && back.len() < 1000 {
        return rope.append(alloc, back);
    }
    Ok(())
}

fn joined_text(alloc: Global, front: &str, back: &str) -> Result<String, OutOfMemory> {
    join(alloc, front, back)?.to_string(alloc)
}

fn shared_len(alloc: Global, front: &str, back: &str) -> Result<(u64, u64), OutOfMemory> {
    let rope = join(alloc, front, back)?;
    let len = rope.len();
    Ok((len, rope.share()?.len()))
}

fn point_in_empty(alloc: Global, offset: u64) -> Result<Option<Point>, OutOfMemory> {
    Ok(Rope::new(alloc)?.offset_to_point(offset))
}

#[test]
fn ropes_grow(rt: HostRuntime) -> Result<(), OutOfMemory> {
    assert!(rt;
        joined_text(rt.alloc(), "a\nbc", "d")?.as_str() == "a\nbcd",
        "joined"
    );
    assert!(rt; shared_len(rt.alloc(), "a\nbc", "d")? == (5, 5), "shared");
    let start = Point { row: 0, column: 0 };
    assert!(rt;
        point_in_empty(rt.alloc(), 0)? == Some(start),
        "at the start of no text"
    );
    assert!(rt;
        point_in_empty(rt.alloc(), 1)?.is_none(),
        "past the end of no text"
    );
    Ok(())
}
