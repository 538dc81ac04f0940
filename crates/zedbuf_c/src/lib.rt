//! The C interface: one function for each call of a caller in C. `include/zedbuf.h` is written from this file.
#![tactic(auto)]

ghost use Rattle.std.specs.Prelude.{◌≡◌, ◌≢◌, None, Some, length, map, option_map};
ghost use Rattle.op_model.specs.Shown.{text};
ghost use Rattle.buffer_handles.specs.Anchoring.{IsMadeInside, anchor_answer, compare_answer, resolve_answer};
ghost use Rattle.c_values.specs.Anchors.{unflat};
ghost use Rattle.c_values.specs.Answers.{IsAnswer, IsRead, answer, on_open};
ghost use Rattle.buffer_handles.specs.Positions.{position_answer, position_inside};
ghost use Rattle.buffer_handles.specs.Reading.{edits_answer, edits_inside, find_answer, starts_inside, text_answer, text_at_answer, text_at_inside, text_part};
ghost use Rattle.buffer_handles.specs.Records.{record_answer, record_inside};
ghost use Rattle.buffer_handles.specs.Replicas.{IsReopenCall, IsReopenedInside, edit_answer, edited, history_inside, open_call, opened_inside, snapshot_answer, undo_answer, undone};
ghost use Rattle.c_values.specs.Room.{over};
ghost use Rattle.c_values.specs.Seen.{IsVersionAnswerInside, entry};
ghost use Rattle.buffer_handles.specs.Saving.{IsRecordsInside, records_inside, version_answer, version_inside};
ghost use Rattle.buffer_handles.specs.Taking.{SettlesInside, TakesInside};
ghost use Rattle.buffer_handles.specs.Waiting.{forget_answer, forgotten, refused_answer, refused_inside, waiting_answer, waiting_inside};

use buffer_handles::{
    Answer, BufferHandle, Change, Code, FlatAnchor, Position, Refusal, Seen, SnapshotHandle, Stamp,
    TextChange, anchor_at, close, compare, edit, edits_since, find, forget, length, open,
    position_at, record, records, refused, release, reopen, resolve, settle, share, snapshot, take,
    text, text_at, undo, version, waiting,
};
use op_model::Limits;
use std::alloc::Global;

/// Opens the buffer of a replica, 1 to 1023, over a base text, in a handle that is closed. The limits are at most 2^40
/// bytes of new texts, the base's among them, and 2^40 - 1 entries: one for each operation and each piece or count. All
/// replicas of a document are opened over the same base, and with the same endings: with 0 texts enter as they are, with
/// 1 each CR LF and each other CR, of the base and of the new texts of edits, enters as one LF. Linear in the base.
#[unsafe(no_mangle)]
pub extern "C" fn zedbuf_open(
    alloc: Global,
    buffer: &mut BufferHandle,
    replica: u16,
    base: &[u8],
    limit_bytes: u64,
    limit_entries: u64,
    endings: u32,
) -> Answer
    ensures answer { IsAnswer (open_call buffer.old.inside replica base.now
        (record { bytes = limit_bytes; entries = limit_entries }) endings) result }
    ensures done { result.code ≡ 0 → buffer.new.inside ≡ opened_inside replica base.now
        (record { bytes = limit_bytes; entries = limit_entries }) endings }
    ensures kept { result.code ≢ 0 → buffer.new.inside ≡ buffer.old.inside }
{
    let limits = Limits {
        bytes: limit_bytes,
        entries: limit_entries,
    };
    open(alloc, buffer, replica, base, limits, endings)
}

/// Opens a saved history in a handle that is closed: the records of all its operations, as `zedbuf_records_since` writes
/// them for the empty version. The replica, the limits and the endings are as for `zedbuf_open`. A replica that goes on
/// under its own number opens the newest history that it saved, with all that it ever sent. Where the last record is cut
/// off, ZEDBUF_NO_RECORD has the offset at which it begins, and the records before it may be opened. Each operation
/// costs what it costs to take it.
#[unsafe(no_mangle)]
pub extern "C" fn zedbuf_reopen(
    alloc: Global,
    buffer: &mut BufferHandle,
    replica: u16,
    records: &[u8],
    limit_bytes: u64,
    limit_entries: u64,
    endings: u32,
) -> Answer
    ensures answer { IsReopenCall buffer.old.inside replica records.now
        (record { bytes = limit_bytes; entries = limit_entries }) endings result }
    ensures done { result.code ≡ 0 → IsReopenedInside replica records.now
        (record { bytes = limit_bytes; entries = limit_entries }) endings buffer.new.inside }
    ensures kept { result.code ≢ 0 → buffer.new.inside ≡ buffer.old.inside }
    ensures closed { result.code ≡ 0 → buffer.old.inside ≡ None }
{
    let limits = Limits {
        bytes: limit_bytes,
        entries: limit_entries,
    };
    reopen(alloc, buffer, replica, records, limits, endings)
}

/// Closes a buffer, and frees all that it holds; snapshots of it stay. A handle that is closed stays so.
#[unsafe(no_mangle)]
pub extern "C" fn zedbuf_close(alloc: Global, buffer: &mut BufferHandle)
    ensures { buffer.new.inside ≡ None }
{
    close(alloc, buffer);
}

/// Replaces ranges of the text, in bytes and in order: each starts at or past the end of the one before it. The new
/// texts stand in a row. The answer has the stamp of the edit, its value and its replica; `zedbuf_record` gives its
/// record. Each range costs a few descents, what lies in it and its new text.
#[unsafe(no_mangle)]
pub extern "C" fn zedbuf_edit(
    alloc: Global,
    buffer: &mut BufferHandle,
    changes: &[Change],
    texts: &[u8],
) -> Answer
    ensures answer { IsAnswer (on_open buffer.old.inside
        (λ r. edit_answer r changes.now texts.now)) result }
    ensures done { result.code ≡ 0 → buffer.new.inside
        ≡ option_map (λ r. edited r changes.now texts.now) buffer.old.inside }
    ensures kept { result.code ≢ 0 → buffer.new.inside ≡ buffer.old.inside }
{
    edit(alloc, buffer, changes, texts)
}

/// Undoes edits of any author, or redoes those that are undone. The answer has the stamp of the undo, its value and its
/// replica; `zedbuf_record` gives its record. The cost grows with what the edits brought and deleted.
#[unsafe(no_mangle)]
pub extern "C" fn zedbuf_undo(alloc: Global, buffer: &mut BufferHandle, edits: &[Stamp]) -> Answer
    ensures answer { IsAnswer (on_open buffer.old.inside (λ r. undo_answer r edits.now)) result }
    ensures done { result.code ≡ 0
        → buffer.new.inside ≡ option_map (λ r. undone r edits.now) buffer.old.inside }
    ensures kept { result.code ≢ 0 → buffer.new.inside ≡ buffer.old.inside }
{
    undo(alloc, buffer, edits)
}

/// Writes the record of the edit or undo that was made last in this handle, for the other replicas; nothing where there
/// is none. The answer has its length in bytes. Linear in the record.
#[unsafe(no_mangle)]
pub extern "C" fn zedbuf_record(alloc: Global, buffer: &mut BufferHandle, into: &mut [u8]) -> Answer
    ensures answer { IsAnswer (on_open buffer.old.inside
        (λ r. record_answer r.made (length into.old))) result }
    ensures written { IsRead result
        → into.new ≡ over (record_inside buffer.old.inside) into.old }
    ensures kept { buffer.new.inside ≡ buffer.old.inside }
{
    record(alloc, buffer, into)
}

/// Takes the operations of records, one or many, in any order and as often as they come. Where none is refused, the
/// answer has the number of operations that are applied, and of those that wait for others. Where one is refused, the
/// answer is the first fault, and all the others are taken. Where an allocation fails, some are taken, and all of them
/// may be taken again. Bytes that are no records change nothing.
#[unsafe(no_mangle)]
pub extern "C" fn zedbuf_take(alloc: Global, buffer: &mut BufferHandle, records: &[u8]) -> Answer
    ensures { TakesInside records.now buffer.old.inside buffer.new.inside result }
{
    take(alloc, buffer, records)
}

/// Goes through what waits, and applies what may be applied. `zedbuf_take` does so itself: this is for the case that an
/// allocation failed there. The answer has the number of operations that are applied, and of those that wait.
#[unsafe(no_mangle)]
pub extern "C" fn zedbuf_settle(alloc: Global, buffer: &mut BufferHandle) -> Answer
    ensures { SettlesInside buffer.old.inside buffer.new.inside result }
{
    settle(alloc, buffer)
}

/// Forgets an operation that waits: a caller that bounds how many it keeps goes through `zedbuf_waiting` and forgets
/// those that are too many. It may be taken again. The answer has the number of operations that were forgotten, 0 or 1.
/// Logarithmic in what waits.
#[unsafe(no_mangle)]
pub extern "C" fn zedbuf_forget(alloc: Global, buffer: &mut BufferHandle, stamp: &Stamp) -> Answer
    ensures answer { result ≡ on_open buffer.old.inside (λ r. forget_answer r stamp.now) }
    ensures new { buffer.new.inside ≡ option_map (λ r. forgotten r stamp.now) buffer.old.inside }
{
    forget(alloc, buffer, stamp)
}

/// Writes the stamps of the operations that wait for others, the least first. The answer has their number. Linear in
/// them.
#[unsafe(no_mangle)]
pub extern "C" fn zedbuf_waiting(
    alloc: Global,
    buffer: &mut BufferHandle,
    into: &mut [Stamp],
) -> Answer
    ensures answer { IsAnswer (on_open buffer.old.inside
        (λ r. waiting_answer r.buffer (length into.old))) result }
    ensures written { IsRead result → into.new ≡ over (waiting_inside buffer.old.inside) into.old }
    ensures kept { buffer.new.inside ≡ buffer.old.inside }
{
    waiting(alloc, buffer, into)
}

/// Writes which operations waited and were refused at their turn, and why, in the order of their turns. The answer has
/// their number. Linear in them.
#[unsafe(no_mangle)]
pub extern "C" fn zedbuf_refused(
    alloc: Global,
    buffer: &mut BufferHandle,
    into: &mut [Refusal],
) -> Answer
    ensures answer { IsAnswer (on_open buffer.old.inside
        (λ r. refused_answer r.buffer (length into.old))) result }
    ensures written { IsRead result → into.new ≡ over (refused_inside buffer.old.inside) into.old }
    ensures kept { buffer.new.inside ≡ buffer.old.inside }
{
    refused(alloc, buffer, into)
}

/// Writes the buffer's version: of each replica the greatest stamp value that is applied. The answer has the number of
/// its entries. Linear in them.
#[unsafe(no_mangle)]
pub extern "C" fn zedbuf_version(
    alloc: Global,
    buffer: &mut BufferHandle,
    into: &mut [Seen],
) -> Answer
    ensures answer { IsAnswer (on_open buffer.old.inside
        (λ r. version_answer r.buffer.history (length into.old))) result }
    ensures written { IsRead result → into.new ≡ over (version_inside buffer.old.inside) into.old }
    ensures kept { buffer.new.inside ≡ buffer.old.inside }
{
    version(alloc, buffer, into)
}

/// Writes the records of the operations that a version does not see, in the order in which they were applied: what a
/// replica with that version lacks, and all of them, to be saved, for the empty version. The answer has their length in
/// bytes. Linear in what is applied.
#[unsafe(no_mangle)]
pub extern "C" fn zedbuf_records_since(
    alloc: Global,
    buffer: &mut BufferHandle,
    version: &[Seen],
    into: &mut [u8],
) -> Answer
    ensures answer { IsRecordsInside buffer.old.inside (map entry version.now)
        (length into.old) result }
    ensures written { IsRead result → into.new
        ≡ over (records_inside buffer.old.inside (map entry version.now)) into.old }
    ensures kept { buffer.new.inside ≡ buffer.old.inside }
{
    records(alloc, buffer, version, into)
}

/// Makes a snapshot of what the buffer is now, in a handle that is closed. Nothing is copied: constant time.
#[unsafe(no_mangle)]
pub extern "C" fn zedbuf_snapshot_of(
    alloc: Global,
    buffer: &mut BufferHandle,
    into: &mut SnapshotHandle,
) -> Answer
    ensures answer { IsAnswer (on_open buffer.old.inside
        (λ _. snapshot_answer into.old.inside)) result }
    ensures done { result.code ≡ 0 → into.new.inside ≡ history_inside buffer.old.inside }
    ensures refused { result.code ≢ 0 → into.new.inside ≡ into.old.inside }
    ensures kept { buffer.new.inside ≡ buffer.old.inside }
{
    snapshot(alloc, buffer, into)
}

/// Makes another snapshot of the same, in a handle that is closed. Nothing is copied: constant time.
#[unsafe(no_mangle)]
pub extern "C" fn zedbuf_share(
    alloc: Global,
    snapshot: &mut SnapshotHandle,
    into: &mut SnapshotHandle,
) -> Answer
    ensures answer { IsAnswer (on_open snapshot.old.inside
        (λ _. snapshot_answer into.old.inside)) result }
    ensures done { result.code ≡ 0 → into.new.inside ≡ snapshot.old.inside }
    ensures refused { result.code ≢ 0 → into.new.inside ≡ into.old.inside }
    ensures kept { snapshot.new.inside ≡ snapshot.old.inside }
{
    share(alloc, snapshot, into)
}

/// Closes a snapshot, and frees what nothing else shares with it. A handle that is closed stays so.
#[unsafe(no_mangle)]
pub extern "C" fn zedbuf_release(alloc: Global, snapshot: &mut SnapshotHandle)
    ensures { snapshot.new.inside ≡ None }
{
    release(alloc, snapshot);
}

/// The answer has the length of the text, in bytes. Constant time.
#[unsafe(no_mangle)]
pub extern "C" fn zedbuf_length(alloc: Global, snapshot: &mut SnapshotHandle) -> Answer
    ensures answer { result ≡ on_open snapshot.old.inside
        (λ h. answer Code.Done (length (text h)) 0 0) }
    ensures kept { snapshot.new.inside ≡ snapshot.old.inside }
{
    length(alloc, snapshot)
}

/// Writes the text from a byte offset up to another. The answer has its length. Linear in it, and a few descents.
#[unsafe(no_mangle)]
pub extern "C" fn zedbuf_text(
    alloc: Global,
    snapshot: &mut SnapshotHandle,
    start: u64,
    end: u64,
    into: &mut [u8],
) -> Answer
    ensures answer { IsAnswer (on_open snapshot.old.inside
        (λ h. text_answer (text h) start end (length into.old))) result }
    ensures written { IsRead result
        → into.new ≡ over (text_part snapshot.old.inside start end) into.old }
    ensures kept { snapshot.new.inside ≡ snapshot.old.inside }
{
    text(alloc, snapshot, start, end, into)
}

/// Writes a place of the text in all kinds of position. The kind ZEDBUF_KIND_OFFSET names it by its offset in bytes,
/// ZEDBUF_KIND_UTF16 by its offset in UTF-16 units; the column is then not looked at. ZEDBUF_KIND_POINT names it by its
/// row and a column in bytes, ZEDBUF_KIND_POINT_UTF16 by its row and a column in UTF-16 units. A few descents.
#[unsafe(no_mangle)]
pub extern "C" fn zedbuf_position_at(
    alloc: Global,
    snapshot: &mut SnapshotHandle,
    kind: u32,
    number: u64,
    column: u64,
    into: &mut Position,
) -> Answer
    ensures answer { result ≡ on_open snapshot.old.inside
        (λ h. position_answer h kind number column) }
    ensures written { result.code ≡ 0
        → position_inside snapshot.old.inside kind number column ≡ Some into.new }
    ensures refused { result.code ≢ 0 → into.new ≡ into.old }
    ensures kept { snapshot.new.inside ≡ snapshot.old.inside }
{
    position_at(alloc, snapshot, kind, number, column, into)
}

/// Writes the text that a version saw. The answer has its length. The cost grows with what changed since, and with the
/// text.
#[unsafe(no_mangle)]
pub extern "C" fn zedbuf_text_at(
    alloc: Global,
    snapshot: &mut SnapshotHandle,
    version: &[Seen],
    into: &mut [u8],
) -> Answer
    ensures answer { IsVersionAnswerInside snapshot.old.inside (map entry version.now)
        (λ h. text_at_answer h (map entry version.now) (length into.old)) result }
    ensures written { IsRead result → into.new
        ≡ over (text_at_inside snapshot.old.inside (map entry version.now)) into.old }
    ensures kept { snapshot.new.inside ≡ snapshot.old.inside }
{
    text_at(alloc, snapshot, version, into)
}

/// Writes what changed since a version: the ranges of the text that it saw, and the ranges of this text that stand in
/// their place, in bytes; they ascend and do not touch. The answer has their number. The cost grows with what changed
/// since.
#[unsafe(no_mangle)]
pub extern "C" fn zedbuf_edits_since(
    alloc: Global,
    snapshot: &mut SnapshotHandle,
    version: &[Seen],
    into: &mut [TextChange],
) -> Answer
    ensures answer { IsVersionAnswerInside snapshot.old.inside (map entry version.now)
        (λ h. edits_answer h (map entry version.now) (length into.old)) result }
    ensures written { IsRead result → into.new
        ≡ over (edits_inside snapshot.old.inside (map entry version.now)) into.old }
    ensures kept { snapshot.new.inside ≡ snapshot.old.inside }
{
    edits_since(alloc, snapshot, version, into)
}

/// Writes where a text stands, in bytes, each place once. The answer has the number of places. Linear in the text.
#[unsafe(no_mangle)]
pub extern "C" fn zedbuf_find(
    alloc: Global,
    snapshot: &mut SnapshotHandle,
    needle: &[u8],
    into: &mut [u64],
) -> Answer
    ensures answer { IsAnswer (on_open snapshot.old.inside
        (λ h. find_answer (text h) needle.now (length into.old))) result }
    ensures written { IsRead result
        → into.new ≡ over (starts_inside snapshot.old.inside needle.now) into.old }
    ensures kept { snapshot.new.inside ≡ snapshot.old.inside }
{
    find(alloc, snapshot, needle, into)
}

/// Makes an anchor at a byte offset: with the bias 0 it keeps to the byte before it, with 1 to the byte after it. A few
/// descents.
#[unsafe(no_mangle)]
pub extern "C" fn zedbuf_anchor_at(
    alloc: Global,
    snapshot: &mut SnapshotHandle,
    offset: u64,
    bias: u32,
    into: &mut FlatAnchor,
) -> Answer
    ensures answer { result ≡ on_open snapshot.old.inside (λ h. anchor_answer h offset bias) }
    ensures made { result.code ≡ 0 → IsMadeInside snapshot.old.inside offset bias into.new }
    ensures refused { result.code ≢ 0 → into.new ≡ into.old }
    ensures kept { snapshot.new.inside ≡ snapshot.old.inside }
{
    anchor_at(alloc, snapshot, offset, bias, into)
}

/// The answer has the byte offset at which an anchor is in this snapshot. A few descents.
#[unsafe(no_mangle)]
pub extern "C" fn zedbuf_resolve(
    alloc: Global,
    snapshot: &mut SnapshotHandle,
    anchor: &FlatAnchor,
) -> Answer
    ensures answer { result ≡ on_open snapshot.old.inside
        (λ h. resolve_answer h (unflat anchor.now)) }
    ensures kept { snapshot.new.inside ≡ snapshot.old.inside }
{
    resolve(alloc, snapshot, anchor)
}

/// The answer has the order of two anchors: 0 where the first is less, 1 where they are at one place, 2 where it is
/// greater. A few descents.
#[unsafe(no_mangle)]
pub extern "C" fn zedbuf_compare(
    alloc: Global,
    snapshot: &mut SnapshotHandle,
    first: &FlatAnchor,
    second: &FlatAnchor,
) -> Answer
    ensures answer { result ≡ on_open snapshot.old.inside
        (λ h. compare_answer h (unflat first.now) (unflat second.now)) }
    ensures kept { snapshot.new.inside ≡ snapshot.old.inside }
{
    compare(alloc, snapshot, first, second)
}
