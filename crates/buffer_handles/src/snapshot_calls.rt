//! The calls on handles of snapshots.
ghost use Rattle.std.specs.Prelude.{◌≡◌, ◌≢◌, IfOk, None, Some, length, map};
ghost use Rattle.op_model.specs.Shown.{text};
ghost use Rattle.c_values.specs.Anchors.{unflat};
ghost use Rattle.buffer_handles.specs.Anchoring.{IsMadeInside, anchor_answer, compare_answer, resolve_answer};
ghost use Rattle.c_values.specs.Answers.{IsAnswer, IsRead, answer, on_open};
ghost use Rattle.buffer_handles.specs.Positions.{position_answer, position_inside};
ghost use Rattle.buffer_handles.specs.Reading.{edits_answer, edits_inside, find_answer, starts_inside, text_answer, text_at_answer, text_at_inside, text_part};
ghost use Rattle.buffer_handles.specs.Replicas.{snapshot_answer};
ghost use Rattle.c_values.specs.Room.{over};
ghost use Rattle.c_values.specs.Seen.{IsVersionAnswerInside, entry};

use crate::anchoring::{compare_anchors, make_anchor, resolve_anchor};
use crate::positions::{Position, write_position};
use crate::reading::{find_in, read_edits, read_text, read_text_at};
use crate::snapshot_handle::SnapshotHandle;
use c_values::{Answer, Code, FlatAnchor, Seen, TextChange};
use std::alloc::Global;
use text_buffer::{OutOfMemory, Snapshot};

/// Closes a snapshot. A handle that is closed stays so.
pub fn release(alloc: Global, snapshot: &mut SnapshotHandle)
    ensures { snapshot.new.inside ≡ None }
{
    drop(snapshot.take(alloc));
}

/// Writes a part of the text, as [`read_text`] does; `Closed` where the handle is closed.
pub fn text(
    alloc: Global,
    snapshot: &mut SnapshotHandle,
    start: u64,
    end: u64,
    into: &mut [u8],
) -> Answer
    ensures answer { IsAnswer (on_open snapshot.old.inside
        (λ h. text_answer (text h) start end (length into.old))) result }
    ensures written { IsRead result
        → into.new ≡ over (text_part snapshot.old.inside start end) into.old }
    ensures kept { snapshot.new.inside ≡ snapshot.old.inside }
{
    let Some(inside) = snapshot.take(alloc) else {
        return Answer::bare(Code::Closed);
    };
    let answer = read_text(alloc, &inside, start, end, into);
    *snapshot = SnapshotHandle::of(inside);
    answer
}

/// The length of the text, in bytes, which the answer has; `Closed` where the handle is closed.
pub fn length(alloc: Global, snapshot: &mut SnapshotHandle) -> Answer
    ensures answer { result ≡ on_open snapshot.old.inside
        (λ h. answer Code.Done (length (text h)) 0 0) }
    ensures kept { snapshot.new.inside ≡ snapshot.old.inside }
{
    let Some(inside) = snapshot.take(alloc) else {
        return Answer::bare(Code::Closed);
    };
    let answer = Answer::new(Code::Done, inside.text().len(), 0, 0);
    *snapshot = SnapshotHandle::of(inside);
    answer
}

/// Makes an anchor at a byte offset of the text, as [`make_anchor`] does; `Closed` where the handle is closed.
pub fn anchor_at(
    alloc: Global,
    snapshot: &mut SnapshotHandle,
    offset: u64,
    bias: u32,
    into: &mut FlatAnchor,
) -> Answer
    ensures answer { result ≡ on_open snapshot.old.inside (λ h. anchor_answer h offset bias) }
    ensures made { result.code ≡ 0 → IsMadeInside snapshot.old.inside offset bias into.new }
    ensures refused { result.code ≢ 0 → into.new ≡ into.old }
    ensures kept { snapshot.new.inside ≡ snapshot.old.inside }
{
    let Some(inside) = snapshot.take(alloc) else {
        return Answer::bare(Code::Closed);
    };
    let answer = make_anchor(&inside, offset, bias, into);
    *snapshot = SnapshotHandle::of(inside);
    answer
}

/// The place of an anchor, as [`resolve_anchor`] answers it; `Closed` where the handle is closed.
pub fn resolve(alloc: Global, snapshot: &mut SnapshotHandle, anchor: &FlatAnchor) -> Answer
    ensures answer { result ≡ on_open snapshot.old.inside
        (λ h. resolve_answer h (unflat anchor.now)) }
    ensures kept { snapshot.new.inside ≡ snapshot.old.inside }
{
    let Some(inside) = snapshot.take(alloc) else {
        return Answer::bare(Code::Closed);
    };
    let answer = resolve_anchor(&inside, anchor);
    *snapshot = SnapshotHandle::of(inside);
    answer
}

/// The order of two anchors, as [`compare_anchors`] answers it; `Closed` where the handle is closed.
pub fn compare(
    alloc: Global,
    snapshot: &mut SnapshotHandle,
    first: &FlatAnchor,
    second: &FlatAnchor,
) -> Answer
    ensures answer { result ≡ on_open snapshot.old.inside
        (λ h. compare_answer h (unflat first.now) (unflat second.now)) }
    ensures kept { snapshot.new.inside ≡ snapshot.old.inside }
{
    let Some(inside) = snapshot.take(alloc) else {
        return Answer::bare(Code::Closed);
    };
    let answer = compare_anchors(&inside, first, second);
    *snapshot = SnapshotHandle::of(inside);
    answer
}

/// Writes a place of the text in all kinds of position, as [`write_position`] does; `Closed` where the handle is closed.
pub fn position_at(
    alloc: Global,
    snapshot: &mut SnapshotHandle,
    kind: u32,
    number: u64,
    column: u64,
    into: &mut Position,
) -> Answer
    ensures answer { result ≡ on_open snapshot.old.inside
        (λ h. position_answer h kind number column) }
    ensures written { result.code ≡ 0
        → position_inside snapshot.old.inside kind number column ≡ Some into.new }
    ensures refused { result.code ≢ 0 → into.new ≡ into.old }
    ensures kept { snapshot.new.inside ≡ snapshot.old.inside }
{
    let Some(inside) = snapshot.take(alloc) else {
        return Answer::bare(Code::Closed);
    };
    let answer = write_position(&inside, kind, number, column, into);
    *snapshot = SnapshotHandle::of(inside);
    answer
}

/// Writes the text that a version saw, as [`read_text_at`] does; `Closed` where the handle is closed.
pub fn text_at(
    alloc: Global,
    snapshot: &mut SnapshotHandle,
    version: &[Seen],
    into: &mut [u8],
) -> Answer
    ensures answer { IsVersionAnswerInside snapshot.old.inside (map entry version.now)
        (λ h. text_at_answer h (map entry version.now) (length into.old)) result }
    ensures written { IsRead result → into.new
        ≡ over (text_at_inside snapshot.old.inside (map entry version.now)) into.old }
    ensures kept { snapshot.new.inside ≡ snapshot.old.inside }
{
    let Some(inside) = snapshot.take(alloc) else {
        return Answer::bare(Code::Closed);
    };
    let answer = read_text_at(alloc, &inside, version, into);
    *snapshot = SnapshotHandle::of(inside);
    answer
}

/// Writes the edits since a version, as [`read_edits`] does; `Closed` where the handle is closed.
pub fn edits_since(
    alloc: Global,
    snapshot: &mut SnapshotHandle,
    version: &[Seen],
    into: &mut [TextChange],
) -> Answer
    ensures answer { IsVersionAnswerInside snapshot.old.inside (map entry version.now)
        (λ h. edits_answer h (map entry version.now) (length into.old)) result }
    ensures written { IsRead result → into.new
        ≡ over (edits_inside snapshot.old.inside (map entry version.now)) into.old }
    ensures kept { snapshot.new.inside ≡ snapshot.old.inside }
{
    let Some(inside) = snapshot.take(alloc) else {
        return Answer::bare(Code::Closed);
    };
    let answer = read_edits(alloc, &inside, version, into);
    *snapshot = SnapshotHandle::of(inside);
    answer
}

// A snapshot that shares everything with another, on the heap.
fn share_of(alloc: Global, snapshot: &Snapshot) -> Result<SnapshotHandle, OutOfMemory>
    ensures { IfOk result (λ s. s.inside ≡ Some snapshot.now) }
{
    let shared = Box::new(alloc, snapshot.share()?)?;
    Ok(SnapshotHandle::of(shared))
}

fn put_share(alloc: Global, snapshot: &Snapshot, into: &mut SnapshotHandle) -> Answer
    ensures answer { IsAnswer (snapshot_answer into.old.inside) result }
    ensures done { result.code ≡ 0 → into.new.inside ≡ Some snapshot.now }
    ensures refused { result.code ≢ 0 → into.new.inside ≡ into.old.inside }
{
    if into.is_open() {
        return Answer::bare(Code::Open);
    }
    match share_of(alloc, snapshot) {
        Ok(shared) => {
            *into = shared;
            Answer::bare(Code::Done)
        }
        Err(_) => Answer::bare(Code::OutOfMemory),
    }
}

/// An equal snapshot, as [`Snapshot::share`] makes it, in a handle that is closed; `Closed` where the snapshot's is
/// closed, `Open` where the other is open, `OutOfMemory` if an allocation fails. Nothing is copied: constant time.
pub fn share(alloc: Global, snapshot: &mut SnapshotHandle, into: &mut SnapshotHandle) -> Answer
    ensures answer { IsAnswer (on_open snapshot.old.inside
        (λ _. snapshot_answer into.old.inside)) result }
    ensures done { result.code ≡ 0 → into.new.inside ≡ snapshot.old.inside }
    ensures refused { result.code ≢ 0 → into.new.inside ≡ into.old.inside }
    ensures kept { snapshot.new.inside ≡ snapshot.old.inside }
{
    let Some(inside) = snapshot.take(alloc) else {
        return Answer::bare(Code::Closed);
    };
    let answer = put_share(alloc, &inside, into);
    *snapshot = SnapshotHandle::of(inside);
    answer
}

/// Where a text stands, as [`find_in`] writes it; `Closed` where the handle is closed.
pub fn find(alloc: Global, snapshot: &mut SnapshotHandle, needle: &[u8], into: &mut [u64]) -> Answer
    ensures answer { IsAnswer (on_open snapshot.old.inside
        (λ h. find_answer (text h) needle.now (length into.old))) result }
    ensures written { IsRead result
        → into.new ≡ over (starts_inside snapshot.old.inside needle.now) into.old }
    ensures kept { snapshot.new.inside ≡ snapshot.old.inside }
{
    let Some(inside) = snapshot.take(alloc) else {
        return Answer::bare(Code::Closed);
    };
    let answer = find_in(alloc, &inside, needle, into);
    *snapshot = SnapshotHandle::of(inside);
    answer
}
