//! Places of a text, in all kinds of position.
ghost use Rattle.std.specs.Prelude.{◌≡◌, ◌≢◌, Some, option_map};
ghost use Rattle.op_model.specs.Shown.{text};
ghost use Rattle.text_dims.specs.Places.{place_at_offset};
ghost use Rattle.buffer_handles.specs.Positions.{flat_place, kind_at, position_answer, position_by, position_named};

use c_values::{Answer, Code};
use rope_chunks::Rope;
use text_buffer::Snapshot;
use text_dims::{OffsetUtf16, Point, PointUtf16};

/// A place in a text, in all kinds of position.
#[repr(C)]
#[derive(Clone, Copy)]
pub struct Position {
    /// The bytes before the place.
    pub offset: u64,
    /// The UTF-16 units before the place.
    pub utf16: u64,
    /// The row, from 0: the LFs before the place.
    pub row: u64,
    /// The bytes of the row before the place.
    pub column: u64,
    /// The UTF-16 units of the row before the place.
    pub column_utf16: u64,
}

/// A kind of position, by which a place is named.
#[derive(Clone, Copy)]
pub enum Kind {
    /// The bytes before the place.
    Offset = 0,
    /// The UTF-16 units before the place.
    Utf16 = 1,
    /// A row, with a column in bytes.
    Point = 2,
    /// A row, with a column in UTF-16 units.
    PointUtf16 = 3,
}

// The kind of a number.
fn kind_at(number: u32) -> Option<Kind>
    ensures { result ≡ kind_at number }
{
    match number {
        0 => Some(Kind::Offset),
        1 => Some(Kind::Utf16),
        2 => Some(Kind::Point),
        3 => Some(Kind::PointUtf16),
        _ => None,
    }
}

// The place at a byte offset.
fn position_of(rope: &Rope, offset: u64) -> Option<Position>
    ensures { result ≡ option_map flat_place (place_at_offset rope.now offset) }
{
    let point = rope.offset_to_point(offset)?;
    let utf16 = rope.offset_to_utf16(offset)?;
    let wide = rope.point_to_utf16(point)?;
    Some(Position {
        offset,
        utf16: utf16.0,
        row: point.row,
        column: point.column,
        column_utf16: wide.column,
    })
}

fn position_of_utf16(rope: &Rope, units: u64) -> Option<Position>
    ensures { result ≡ position_named rope.now Kind.Utf16 units 0 }
{
    let offset = rope.utf16_to_offset(OffsetUtf16(units))?;
    position_of(rope, offset)
}

fn position_of_point(rope: &Rope, row: u64, column: u64) -> Option<Position>
    ensures { result ≡ position_named rope.now Kind.Point row column }
{
    let offset = rope.point_to_offset(Point { row, column })?;
    position_of(rope, offset)
}

fn position_of_point_utf16(rope: &Rope, row: u64, column: u64) -> Option<Position>
    ensures { result ≡ position_named rope.now Kind.PointUtf16 row column }
{
    let point = rope.utf16_to_point(PointUtf16 { row, column })?;
    position_of_point(rope, point.row, point.column)
}

// The place that a number names, with a column where the kind has rows.
fn position_named(rope: &Rope, kind: Kind, number: u64, column: u64) -> Option<Position>
    ensures { result ≡ position_named rope.now kind number column }
{
    match kind {
        Kind::Offset => position_of(rope, number),
        Kind::Utf16 => position_of_utf16(rope, number),
        Kind::Point => position_of_point(rope, number, column),
        Kind::PointUtf16 => position_of_point_utf16(rope, number, column),
    }
}

/// Writes a place of the text in all kinds of position. The kind 0 names it by its offset in bytes, 1 by its offset in
/// UTF-16 units, 2 by its row and a column in bytes, 3 by its row and a column in UTF-16 units; the kinds 0 and 1 have
/// no column. A few descents; does not allocate.
///
/// # Errors
///
/// `OutOfRange` where there is no such kind, `NoPlace` where the text has no such place.
pub fn write_position(
    snapshot: &Snapshot,
    kind: u32,
    number: u64,
    column: u64,
    into: &mut Position,
) -> Answer
    ensures answer { result ≡ position_answer snapshot.now kind number column }
    ensures written { result.code ≡ 0
        → position_by (text snapshot.now) (kind_at kind) number column ≡ Some into.new }
    ensures kept { result.code ≢ 0 → into.new ≡ into.old }
{
    let Some(kind) = kind_at(kind) else {
        return Answer::bare(Code::OutOfRange);
    };
    match position_named(snapshot.text(), kind, number, column) {
        Some(position) => {
            *into = position;
            Answer::bare(Code::Done)
        }
        None => Answer::bare(Code::NoPlace),
    }
}
