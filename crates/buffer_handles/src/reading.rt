//! What snapshots are asked.
ghost use Rattle.std.specs.Prelude.{◌≡◌, ◌≤◌, IfNone, length, map, slice_range, true};
ghost use Rattle.std.specs.Str.{IsCharBoundary};
ghost use Rattle.op_model.specs.Edits.{is_boundary};
ghost use Rattle.op_model.specs.Shown.{text};
ghost use Rattle.op_model.specs.Since.{since, text_at};
ghost use Rattle.snapshot_search.specs.Starts.{starts};
ghost use Rattle.c_values.specs.Answers.{IsAnswer, IsRead};
ghost use Rattle.buffer_handles.specs.Reading.{edits_answer, find_answer, range_refusal, text_answer, text_at_answer};
ghost use Rattle.c_values.specs.Room.{over, room_answer};
ghost use Rattle.c_values.specs.Seen.{IsVersionAnswer, entry};
ghost use Rattle.c_values.specs.TextChanges.{text_change};

use c_values::{
    Answer, Code, Seen, TextChange, since_refusal, text_changes_of, utf8_of, version_of,
    write_front,
};
use lamport_clock::Version;
use op_model::TextEdit;
use rope_chunks::Rope;
use snapshot_search::find_all;
use std::alloc::Global;
use text_buffer::Snapshot;

// Whether a text may be cut at an offset.
fn is_boundary(rope: &Rope, offset: u64) -> bool
    ensures test { result ≡ is_boundary rope.now offset }
    ensures boundary { result ≡ true → IsCharBoundary rope.now offset }
{
    rope.is_char_boundary(offset)
}

// Why there is no part of a text between two offsets.
fn range_refusal(rope: &Rope, start: u64, end: u64) -> Option<Answer>
    ensures refusal { result ≡ range_refusal rope.now start end }
    ensures start { IfNone result (IsCharBoundary rope.now start) }
    ensures end { IfNone result (IsCharBoundary rope.now end) }
    ensures order { IfNone result (start ≤ end) }
{
    if end < start {
        return Some(Answer::bare(Code::OutOfRange));
    }
    if rope.len() < end {
        return Some(Answer::new(Code::PastEnd, 0, rope.len(), 0));
    }
    if !(is_boundary(rope, start) && is_boundary(rope, end)) {
        return Some(Answer::bare(Code::InsideChar));
    }
    None
}

/// Writes the part of the text from `start` up to `end`, in bytes, as much of it as fits. The answer has its length.
/// Linear in the part; allocates.
///
/// # Errors
///
/// `OutOfRange` where the start is past the end, `PastEnd` where the end passes the text, `InsideChar` where one of
/// them is inside a character; the first of these. `OutOfMemory` if an allocation fails.
pub fn read_text(
    alloc: Global,
    snapshot: &Snapshot,
    start: u64,
    end: u64,
    into: &mut [u8],
) -> Answer
    ensures answer { IsAnswer (text_answer (text snapshot.now) start end (length into.old)) result }
    ensures written { IsRead result
        → into.new ≡ over (slice_range (text snapshot.now) start end) into.old }
{
    let rope = snapshot.text();
    if let Some(refusal) = range_refusal(rope, start, end) {
        return refusal;
    }
    match rope.text_of(alloc, start, end) {
        Ok(part) => write_front(part.as_bytes(), into),
        Err(_) => Answer::bare(Code::OutOfMemory),
    }
}

/// Writes the text that a version saw, as much of it as fits, as [`Snapshot::text_at`] makes it. The answer has its
/// length.
///
/// # Errors
///
/// `OutOfRange` where the entries are no version, `Unseen`, `OpenVersion`; the first of these. `OutOfMemory` if an
/// allocation fails.
pub fn read_text_at(alloc: Global, snapshot: &Snapshot, version: &[Seen], into: &mut [u8]) -> Answer
    ensures answer { IsVersionAnswer (map entry version.now)
        (text_at_answer snapshot.now (map entry version.now) (length into.old)) result }
    ensures written { IsRead result
        → into.new ≡ over (text_at snapshot.now (map entry version.now)) into.old }
{
    let version = match version_of(alloc, version) {
        Ok(version) => version,
        Err(answer) => return answer,
    };
    write_text_at(snapshot, &version, into)
}

fn write_text_at(snapshot: &Snapshot, version: &Version, into: &mut [u8]) -> Answer
    ensures answer { IsVersionAnswer version.now
        (text_at_answer snapshot.now version.now (length into.old)) result }
    ensures written { IsRead result → into.new ≡ over (text_at snapshot.now version.now) into.old }
{
    version.known();
    match snapshot.text_at(version) {
        Ok(text) => write_front(text.as_bytes(), into),
        Err(fault) => since_refusal(fault),
    }
}

/// Writes the edits that take the text that a version saw to the text of the snapshot, as many as fit, as
/// [`Snapshot::since`] makes them. The answer has their number.
///
/// # Errors
///
/// `OutOfRange` where the entries are no version, `Unseen`, `OpenVersion`; the first of these. `OutOfMemory` if an
/// allocation fails.
pub fn read_edits(
    alloc: Global,
    snapshot: &Snapshot,
    version: &[Seen],
    into: &mut [TextChange],
) -> Answer
    ensures answer { IsVersionAnswer (map entry version.now)
        (edits_answer snapshot.now (map entry version.now) (length into.old)) result }
    ensures written { IsRead result
        → into.new ≡ over (map text_change (since snapshot.now (map entry version.now))) into.old }
{
    let version = match version_of(alloc, version) {
        Ok(version) => version,
        Err(answer) => return answer,
    };
    write_edits(alloc, snapshot, &version, into)
}

fn write_edits(
    alloc: Global,
    snapshot: &Snapshot,
    version: &Version,
    into: &mut [TextChange],
) -> Answer
    ensures answer { IsVersionAnswer version.now
        (edits_answer snapshot.now version.now (length into.old)) result }
    ensures written { IsRead result
        → into.new ≡ over (map text_change (since snapshot.now version.now)) into.old }
{
    version.known();
    match snapshot.since(version) {
        Ok(edits) => write_changes(alloc, edits.as_slice(), into),
        Err(fault) => since_refusal(fault),
    }
}

fn write_changes(alloc: Global, edits: &[TextEdit], into: &mut [TextChange]) -> Answer
    ensures answer { IsAnswer (room_answer (length edits.now) (length into.old)) result }
    ensures written { IsRead result → into.new ≡ over (map text_change edits.now) into.old }
{
    match text_changes_of(alloc, edits) {
        Ok(changes) => write_front(&changes, into),
        Err(_) => Answer::bare(Code::OutOfMemory),
    }
}

/// Writes where a text stands in the text of a snapshot, as many of the offsets as fit, in bytes. The answer has their
/// number. Linear in the text.
///
/// # Errors
///
/// `OutOfRange` where the needle has no bytes, `NotUtf8` where it is not UTF-8. `OutOfMemory` if an allocation fails.
pub fn find_in(alloc: Global, snapshot: &Snapshot, needle: &[u8], into: &mut [u64]) -> Answer
    ensures answer { IsAnswer (find_answer (text snapshot.now) needle.now (length into.old)) result }
    ensures written { IsRead result
        → into.new ≡ over (starts (text snapshot.now) needle.now) into.old }
{
    if needle.is_empty() {
        return Answer::bare(Code::OutOfRange);
    }
    let Some(needle) = utf8_of(needle) else {
        return Answer::bare(Code::NotUtf8);
    };
    match find_all(alloc, snapshot.text(), needle) {
        Ok(found) => write_front(&found, into),
        Err(_) => Answer::bare(Code::OutOfMemory),
    }
}
