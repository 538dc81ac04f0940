//! The calls on handles.
ghost use Rattle.std.specs.Prelude.{◌≡◌, ◌≢◌, IfOk, None, Some, length, map, option_map};
ghost use Rattle.c_values.specs.Answers.{IsAnswer, IsRead, bare, on_open};
ghost use Rattle.buffer_handles.specs.Records.{record_answer, record_inside};
ghost use Rattle.buffer_handles.specs.Replicas.{IsReopenAnswer, IsReopenCall, IsReopenedBy, IsReopenedInside, edit_answer, edited, history_inside, open_answer, open_call, opened, opened_inside, snapshot_answer, undo_answer, undone};
ghost use Rattle.c_values.specs.Room.{over};
ghost use Rattle.c_values.specs.Seen.{entry};
ghost use Rattle.buffer_handles.specs.Saving.{IsRecordsInside, records_inside, version_answer, version_inside};
ghost use Rattle.buffer_handles.specs.Taking.{SettlesInside, TakesInside};
ghost use Rattle.buffer_handles.specs.Waiting.{forget_answer, forgotten, refused_answer, refused_inside, waiting_answer, waiting_inside};

use crate::buffer_handle::BufferHandle;
use crate::replica::Replica;
use crate::saving::{records_since, write_version};
use crate::snapshot_handle::SnapshotHandle;
use crate::taking::{settle_waiting, take_records};
use crate::waits::{write_refused, write_waiting};
use c_values::{Answer, Change, Code, Refusal, Seen, Stamp, endings_at};
use op_model::{Endings, Limits};
use std::alloc::Global;
use text_buffer::{Buffer, OutOfMemory};

fn put_replica(alloc: Global, buffer: &mut BufferHandle, replica: Replica) -> Answer
    ensures answer { IsAnswer (bare Code.Done) result }
    ensures done { result.code ≡ 0 → buffer.new.inside ≡ Some replica }
    ensures kept { result.code ≢ 0 → buffer.new.inside ≡ buffer.old.inside }
{
    match Box::new(alloc, replica) {
        Ok(replica) => {
            *buffer = BufferHandle::of(replica);
            Answer::bare(Code::Done)
        }
        Err(_) => Answer::bare(Code::OutOfMemory),
    }
}

fn open_closed(
    alloc: Global,
    buffer: &mut BufferHandle,
    replica: u16,
    base: &[u8],
    limits: Limits,
    endings: Endings,
) -> Answer
    ensures answer { IsAnswer (open_answer replica base.now limits endings) result }
    ensures done { result.code ≡ 0
        → buffer.new.inside ≡ Some (opened replica base.now limits endings) }
    ensures kept { result.code ≢ 0 → buffer.new.inside ≡ buffer.old.inside }
{
    match Replica::open(alloc, replica, base, limits, endings) {
        Ok(replica) => put_replica(alloc, buffer, replica),
        Err(answer) => answer,
    }
}

/// Opens a buffer, as [`Replica::open`] does, in a handle that is closed; `Open` where it is open. For the endings 0
/// texts enter as they are, for 1 with LFs alone; `OutOfRange` for others.
pub fn open(
    alloc: Global,
    buffer: &mut BufferHandle,
    replica: u16,
    base: &[u8],
    limits: Limits,
    endings: u32,
) -> Answer
    ensures answer { IsAnswer (open_call buffer.old.inside replica base.now limits endings) result }
    ensures done { result.code ≡ 0
        → buffer.new.inside ≡ opened_inside replica base.now limits endings }
    ensures kept { result.code ≢ 0 → buffer.new.inside ≡ buffer.old.inside }
{
    if buffer.is_open() {
        return Answer::bare(Code::Open);
    }
    let Some(endings) = endings_at(endings) else {
        return Answer::bare(Code::OutOfRange);
    };
    open_closed(alloc, buffer, replica, base, limits, endings)
}

#[tactic(auto, using(crate::proofs::Opens::reopen_done))]
fn reopen_closed(
    alloc: Global,
    buffer: &mut BufferHandle,
    replica: u16,
    records: &[u8],
    limits: Limits,
    endings: Endings,
) -> Answer
    ensures answer { IsReopenAnswer replica records.now limits endings result }
    ensures done { result.code ≡ 0
        → IsReopenedBy replica records.now limits endings buffer.new.inside }
    ensures kept { result.code ≢ 0 → buffer.new.inside ≡ buffer.old.inside }
{
    match Replica::reopen(alloc, replica, records, limits, endings) {
        Ok(replica) => put_replica(alloc, buffer, replica),
        Err(answer) => answer,
    }
}

/// Opens a saved history, as [`Replica::reopen`] does, in a handle that is closed; `Open` where it is open. The endings
/// are as for [`open`].
pub fn reopen(
    alloc: Global,
    buffer: &mut BufferHandle,
    replica: u16,
    records: &[u8],
    limits: Limits,
    endings: u32,
) -> Answer
    ensures answer { IsReopenCall buffer.old.inside replica records.now limits endings result }
    ensures done { result.code ≡ 0
        → IsReopenedInside replica records.now limits endings buffer.new.inside }
    ensures kept { result.code ≢ 0 → buffer.new.inside ≡ buffer.old.inside }
    ensures closed { result.code ≡ 0 → buffer.old.inside ≡ None }
{
    if buffer.is_open() {
        return Answer::bare(Code::Open);
    }
    let Some(endings) = endings_at(endings) else {
        return Answer::bare(Code::OutOfRange);
    };
    reopen_closed(alloc, buffer, replica, records, limits, endings)
}

/// Closes a buffer. A handle that is closed stays so.
pub fn close(alloc: Global, buffer: &mut BufferHandle)
    ensures { buffer.new.inside ≡ None }
{
    drop(buffer.take(alloc));
}

/// Replaces ranges of the text, as [`Replica::edit`] does; `Closed` where the handle is closed.
pub fn edit(alloc: Global, buffer: &mut BufferHandle, changes: &[Change], texts: &[u8]) -> Answer
    ensures answer { IsAnswer (on_open buffer.old.inside
        (λ r. edit_answer r changes.now texts.now)) result }
    ensures done { result.code ≡ 0 → buffer.new.inside
        ≡ option_map (λ r. edited r changes.now texts.now) buffer.old.inside }
    ensures kept { result.code ≢ 0 → buffer.new.inside ≡ buffer.old.inside }
{
    let Some(mut replica) = buffer.take(alloc) else {
        return Answer::bare(Code::Closed);
    };
    let answer = replica.edit(alloc, changes, texts);
    *buffer = BufferHandle::of(replica);
    answer
}

/// Undoes edits, or redoes those that are undone, as [`Replica::undo`] does; `Closed` where the handle is closed.
pub fn undo(alloc: Global, buffer: &mut BufferHandle, edits: &[Stamp]) -> Answer
    ensures answer { IsAnswer (on_open buffer.old.inside (λ r. undo_answer r edits.now)) result }
    ensures done { result.code ≡ 0
        → buffer.new.inside ≡ option_map (λ r. undone r edits.now) buffer.old.inside }
    ensures kept { result.code ≢ 0 → buffer.new.inside ≡ buffer.old.inside }
{
    let Some(mut replica) = buffer.take(alloc) else {
        return Answer::bare(Code::Closed);
    };
    let answer = replica.undo(alloc, edits);
    *buffer = BufferHandle::of(replica);
    answer
}

/// Writes the record of the last operation that was made here, as [`Replica::record`] does; `Closed` where the handle
/// is closed.
pub fn record(alloc: Global, buffer: &mut BufferHandle, into: &mut [u8]) -> Answer
    ensures answer { IsAnswer (on_open buffer.old.inside
        (λ r. record_answer r.made (length into.old))) result }
    ensures written { IsRead result
        → into.new ≡ over (record_inside buffer.old.inside) into.old }
    ensures kept { buffer.new.inside ≡ buffer.old.inside }
{
    let Some(replica) = buffer.take(alloc) else {
        return Answer::bare(Code::Closed);
    };
    let answer = replica.record(alloc, into);
    *buffer = BufferHandle::of(replica);
    answer
}

// A snapshot of a buffer, on the heap.
fn snapshot_of(alloc: Global, buffer: &Buffer) -> Result<SnapshotHandle, OutOfMemory>
    ensures { IfOk result (λ s. s.inside ≡ Some buffer.now.history) }
{
    let snapshot = Box::new(alloc, buffer.snapshot()?)?;
    Ok(SnapshotHandle::of(snapshot))
}

/// What the buffer is now, in a handle that is closed; `Closed` where the buffer's is closed, `Open` where the snapshot's
/// is open, `OutOfMemory` if an allocation fails. Nothing is copied: constant time.
pub fn snapshot(alloc: Global, buffer: &mut BufferHandle, into: &mut SnapshotHandle) -> Answer
    ensures answer { IsAnswer (on_open buffer.old.inside
        (λ _. snapshot_answer into.old.inside)) result }
    ensures done { result.code ≡ 0 → into.new.inside ≡ history_inside buffer.old.inside }
    ensures refused { result.code ≢ 0 → into.new.inside ≡ into.old.inside }
    ensures kept { buffer.new.inside ≡ buffer.old.inside }
{
    let Some(replica) = buffer.take(alloc) else {
        return Answer::bare(Code::Closed);
    };
    let answer = put_snapshot(alloc, &replica.buffer, into);
    *buffer = BufferHandle::of(replica);
    answer
}

fn put_snapshot(alloc: Global, buffer: &Buffer, into: &mut SnapshotHandle) -> Answer
    ensures answer { IsAnswer (snapshot_answer into.old.inside) result }
    ensures done { result.code ≡ 0 → into.new.inside ≡ Some buffer.now.history }
    ensures refused { result.code ≢ 0 → into.new.inside ≡ into.old.inside }
{
    if into.is_open() {
        return Answer::bare(Code::Open);
    }
    match snapshot_of(alloc, buffer) {
        Ok(snapshot) => {
            *into = snapshot;
            Answer::bare(Code::Done)
        }
        Err(_) => Answer::bare(Code::OutOfMemory),
    }
}

/// Takes the operations of records, one or many, as [`take_records`] does; `Closed` where the handle is closed.
pub fn take(alloc: Global, buffer: &mut BufferHandle, records: &[u8]) -> Answer
    ensures { TakesInside records.now buffer.old.inside buffer.new.inside result }
{
    let Some(mut replica) = buffer.take(alloc) else {
        return Answer::bare(Code::Closed);
    };
    let answer = take_records(alloc, &mut replica.buffer, records);
    *buffer = BufferHandle::of(replica);
    answer
}

/// Settles what waits, as [`Buffer::settle`] does; `Closed` where the handle is closed.
pub fn settle(alloc: Global, buffer: &mut BufferHandle) -> Answer
    ensures { SettlesInside buffer.old.inside buffer.new.inside result }
{
    let Some(mut replica) = buffer.take(alloc) else {
        return Answer::bare(Code::Closed);
    };
    let answer = settle_waiting(&mut replica.buffer);
    *buffer = BufferHandle::of(replica);
    answer
}

/// Forgets the operation of a stamp, if it waits, as [`Replica::forget`] does; `Closed` where the handle is closed.
pub fn forget(alloc: Global, buffer: &mut BufferHandle, stamp: &Stamp) -> Answer
    ensures answer { result ≡ on_open buffer.old.inside (λ r. forget_answer r stamp.now) }
    ensures new { buffer.new.inside ≡ option_map (λ r. forgotten r stamp.now) buffer.old.inside }
{
    let Some(mut replica) = buffer.take(alloc) else {
        return Answer::bare(Code::Closed);
    };
    let answer = replica.forget(stamp);
    *buffer = BufferHandle::of(replica);
    answer
}

/// Writes the stamps of what waits, as [`write_waiting`] does; `Closed` where the handle is closed.
pub fn waiting(alloc: Global, buffer: &mut BufferHandle, into: &mut [Stamp]) -> Answer
    ensures answer { IsAnswer (on_open buffer.old.inside
        (λ r. waiting_answer r.buffer (length into.old))) result }
    ensures written { IsRead result → into.new ≡ over (waiting_inside buffer.old.inside) into.old }
    ensures kept { buffer.new.inside ≡ buffer.old.inside }
{
    let Some(replica) = buffer.take(alloc) else {
        return Answer::bare(Code::Closed);
    };
    let answer = write_waiting(alloc, &replica.buffer, into);
    *buffer = BufferHandle::of(replica);
    answer
}

/// Writes what was refused of what waited, as [`write_refused`] does; `Closed` where the handle is closed.
pub fn refused(alloc: Global, buffer: &mut BufferHandle, into: &mut [Refusal]) -> Answer
    ensures answer { IsAnswer (on_open buffer.old.inside
        (λ r. refused_answer r.buffer (length into.old))) result }
    ensures written { IsRead result → into.new ≡ over (refused_inside buffer.old.inside) into.old }
    ensures kept { buffer.new.inside ≡ buffer.old.inside }
{
    let Some(replica) = buffer.take(alloc) else {
        return Answer::bare(Code::Closed);
    };
    let answer = write_refused(alloc, &replica.buffer, into);
    *buffer = BufferHandle::of(replica);
    answer
}

/// Writes the records of what a version does not see, as [`records_since`] does; `Closed` where the handle is closed.
pub fn records(
    alloc: Global,
    buffer: &mut BufferHandle,
    version: &[Seen],
    into: &mut [u8],
) -> Answer
    ensures answer { IsRecordsInside buffer.old.inside (map entry version.now)
        (length into.old) result }
    ensures written { IsRead result → into.new
        ≡ over (records_inside buffer.old.inside (map entry version.now)) into.old }
    ensures kept { buffer.new.inside ≡ buffer.old.inside }
{
    let Some(replica) = buffer.take(alloc) else {
        return Answer::bare(Code::Closed);
    };
    let answer = records_since(alloc, &replica.buffer, version, into);
    *buffer = BufferHandle::of(replica);
    answer
}

/// Writes the buffer's version, as [`write_version`] does; `Closed` where the handle is closed.
pub fn version(alloc: Global, buffer: &mut BufferHandle, into: &mut [Seen]) -> Answer
    ensures answer { IsAnswer (on_open buffer.old.inside
        (λ r. version_answer r.buffer.history (length into.old))) result }
    ensures written { IsRead result → into.new ≡ over (version_inside buffer.old.inside) into.old }
    ensures kept { buffer.new.inside ≡ buffer.old.inside }
{
    let Some(replica) = buffer.take(alloc) else {
        return Answer::bare(Code::Closed);
    };
    let answer = write_version(alloc, &replica.buffer, into);
    *buffer = BufferHandle::of(replica);
    answer
}
