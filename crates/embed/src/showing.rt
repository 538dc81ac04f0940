//! What an editor shows of a text.

use anyhow::Result;
use rope_chunks::Rope;
use snapshot_search::find_all;
use std::alloc::Global;
use std::io::Print;
use text_buffer::{Anchor, Buffer, Snapshot};
use text_dims::{OffsetUtf16, Point, PointUtf16};

/// Shows an author's text, where an anchor is in it, and where a word stands.
pub fn show(rt: &impl Print, alloc: Global, author: &Buffer, anchor: &Anchor) -> Result<()> {
    print!(rt; "{}", author.text()?)?;
    // a snapshot copies nothing, and another thread may read it while the author goes on
    let snapshot = author.snapshot()?;
    search(rt, alloc, &snapshot, anchor)
}

fn search(rt: &impl Print, alloc: Global, snapshot: &Snapshot, anchor: &Anchor) -> Result<()> {
    let place = snapshot.resolve(anchor)?;
    let found = find_all(alloc, snapshot.text(), "at")?;
    println!(rt; "anchor at {place}, found at {found:?}")?;
    Ok(())
}

// Where a row begins; the text's end if there is no such row.
fn row_start(text: &Rope, row: u64) -> u64 {
    text.point_to_offset(Point { row, column: 0 })
        .unwrap_or(text.len())
}

/// Shows the rows from `first` up to `last`, as an editor draws the part of a text that is on the screen. The texts are lent by the
/// rope: nothing is copied, and the cost is that of these rows, however long the text is.
pub fn show_rows(rt: &impl Print, text: &Rope, first: u64, last: u64) -> Result<()> {
    let (start, end) = (row_start(text, first), row_start(text, last));
    if start <= end && text.is_char_boundary(start) && text.is_char_boundary(end) {
        for part in text.chunks_in(start, end) {
            print!(rt; "{part}")?;
        }
    }
    Ok(())
}

/// Shows a position of the language server protocol, a row and UTF-16 units of it, as the byte offset that buffers use, and back.
pub fn show_place(rt: &impl Print, text: &Rope, place: PointUtf16) -> Result<()> {
    match text.utf16_to_point(place) {
        Some(point) => show_offset(rt, text, place, point),
        None => Ok(println!(rt; "no place")?),
    }
}

fn show_offset(rt: &impl Print, text: &Rope, place: PointUtf16, point: Point) -> Result<()> {
    let offset = text.point_to_offset(point).unwrap_or(text.len());
    let OffsetUtf16(units) = text.offset_to_utf16(offset).unwrap_or_default();
    println!(rt;
        "{}:{} is byte {offset}, after {units} UTF-16 units",
        place.row, place.column
    )?;
    Ok(())
}
