//! Histories as records: saved, sent to a replica that lacks a part of them, and opened again.
ghost use Rattle.std.specs.Prelude.{◌≡◌, ◌++◌, None, IfErr, IfOk, OnOk, length, map};
ghost use Rattle.std.specs.List.{flat_map};
ghost use Rattle.op_model.specs.Histories.{version};
ghost use Rattle.c_values.specs.Answers.{IsAnswer, IsRead};
ghost use Rattle.c_values.specs.Room.{over};
ghost use Rattle.c_values.specs.Seen.{entry, seen};
ghost use Rattle.buffer_handles.specs.Saving.{IsLong, IsUnseenAnswer, first_long, unseen_long, unseen_record, version_answer};

use applied_ops::Applied;
use c_values::{Answer, Code, Seen, seen_of, version_of, write_front};
use lamport_clock::Version;
use op_model::Operation;
use op_wire::{EncodeFault, encode};
use std::alloc::Global;
use sum_tree::SumTree;
use text_buffer::Buffer;

// Appends the record of an operation that the version does not see.
fn push_unseen(
    alloc: Global,
    bytes: &mut Vec<u8>,
    op: &Operation,
    version: &Version,
) -> Result<(), EncodeFault>
    ensures new { OnOk result
        (bytes.new.items ≡ bytes.old.items ++ unseen_record version.now op.now) }
    ensures short { OnOk result (unseen_long version.now op.now ≡ None) }
    ensures long { IfErr result (IsLong (unseen_long version.now op.now)) }
{
    if version.sees(op.stamp()) {
        return Ok(());
    }
    let record = encode(alloc, op)?;
    bytes.extend_from_slice(&record)?;
    Ok(())
}

// The records of the operations that the version does not see, in the order of the operations.
fn unseen_records(
    alloc: Global,
    applied: &SumTree<Applied>,
    version: &Version,
) -> Result<Vec<u8>, EncodeFault>
    ensures written { IfOk result (λ bytes. bytes.items
        ≡ flat_map (unseen_record version.now) applied.now.items) }
    ensures short { OnOk result (first_long version.now applied.now.items ≡ None) }
    ensures long { IfErr result (IsLong (first_long version.now applied.now.items)) }
{
    let mut bytes = Vec::new(alloc);
    for i in 0..applied.len() {
        match applied.get(i) {
            Some(applied) => push_unseen(alloc, &mut bytes, applied.op(), version)?,
            None => unreachable!(),
        }
    }
    Ok(bytes)
}

fn write_unseen(alloc: Global, buffer: &Buffer, version: &Version, into: &mut [u8]) -> Answer
    ensures answer { IsUnseenAnswer buffer.now.history version.now (length into.old) result }
    ensures written { IsRead result
        → into.new ≡ over (flat_map (unseen_record version.now) buffer.now.history) into.old }
{
    version.known();
    match unseen_records(alloc, buffer.applied(), version) {
        Ok(bytes) => write_front(&bytes, into),
        Err(EncodeFault::Long(number)) => Answer::new(Code::TooLong, number, 0, 0),
        Err(EncodeFault::OutOfMemory) => Answer::bare(Code::OutOfMemory),
    }
}

/// Writes the records of the operations that a version does not see, in the order in which they were applied, as much
/// as fits. The answer has their length in bytes. Linear in them; allocates.
///
/// # Errors
///
/// `OutOfRange` where the entries are no version; `TooLong` where an operation has no record. `OutOfMemory` if an
/// allocation fails.
pub fn records_since(alloc: Global, buffer: &Buffer, version: &[Seen], into: &mut [u8]) -> Answer
    ensures answer { IsUnseenAnswer buffer.now.history (map entry version.now)
        (length into.old) result }
    ensures written { IsRead result → into.new
        ≡ over (flat_map (unseen_record (map entry version.now)) buffer.now.history) into.old }
{
    match version_of(alloc, version) {
        Ok(version) => write_unseen(alloc, buffer, &version, into),
        Err(answer) => answer,
    }
}

/// Writes the entries of the buffer's version, as many as fit. The answer has their number. Linear in them; allocates
/// once.
///
/// # Errors
///
/// `OutOfMemory` if an allocation fails.
pub fn write_version(alloc: Global, buffer: &Buffer, into: &mut [Seen]) -> Answer
    ensures answer { IsAnswer (version_answer buffer.now.history (length into.old)) result }
    ensures written { IsRead result
        → into.new ≡ over (map seen (version buffer.now.history)) into.old }
{
    match seen_of(alloc, buffer.version()) {
        Ok(entries) => write_front(&entries, into),
        Err(_) => Answer::bare(Code::OutOfMemory),
    }
}
