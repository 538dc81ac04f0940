//! Records read from the front of bytes, in one pass.
ghost use Rattle.std.specs.Prelude.{◌≡◌, ◌+◌, ◌≤◌, length, IfOk};
ghost use Rattle.lamport_clock.specs.Versions.{IsVersion};
ghost use Rattle.op_wire.specs.Spelling.{limit};
ghost use Rattle.op_wire.specs.Reading.{Gives, entry_at, entries_at, version_at, range_at, piece_at, pieces_at, count_at, counts_at, all_pieces_at, all_counts_at, head_at, edit_at, undo_at, record_at};

use crate::fault::{ReadError, Stop, Word};
use crate::fields::{amount_of, replica_of, stamp_of, text_of, u32_at, u64_at, value_of};
use lamport_clock::{Lamport, Version};
use op_model::{Counts, EditOp, Operation, OutOfMemory, Piece, Pieces, UndoCount, UndoOp};
use smallvec::SmallVec;
use std::alloc::Global;

#[tactic(auto, unfolding(crate::specs::Reading::entry_at))]
pub(crate) fn entry_of(least: u32, bytes: &[u8]) -> Result<((u16, u32), &[u8]), ReadError>
    ensures { Gives (λ x. (x.0, x.1.now)) result (entry_at least bytes.now) }
{
    let (replica, rest) = replica_of(least, bytes)?;
    let (value, rest) = value_of(rest)?;
    Ok(((replica, value), rest))
}

fn entries_of(
    alloc: Global,
    count: u32,
    bytes: &[u8],
) -> Result<(SmallVec<(u16, u32), 4>, &[u8]), ReadError>
    ensures { Gives (λ x. (x.0.items, x.1.now)) result (entries_at count 0 bytes.now) }
{
    let mut entries = SmallVec::new(alloc);
    let mut least = 0;
    let mut rest = bytes;
    for _ in 0..count {
        let (entry, after) = entry_of(least, rest)?;
        entries.push(entry)?;
        least = u32::from(entry.0) + 1;
        rest = after;
    }
    Ok((entries, rest))
}

// The entries, which are those of a version.
fn ascending_of(
    alloc: Global,
    count: u32,
    bytes: &[u8],
) -> Result<(SmallVec<(u16, u32), 4>, &[u8]), ReadError>
    ensures read { Gives (λ x. (x.0.items, x.1.now)) result (entries_at count 0 bytes.now) }
    ensures version { IfOk result (λ x. IsVersion x.0.items) }
{
    entries_of(alloc, count, bytes)
}

fn version_with(alloc: Global, entries: &[(u16, u32)]) -> Result<Version, OutOfMemory>
    requires { IsVersion entries.now }
    ensures { IfOk result (λ v. v ≡ entries.now) }
{
    match Version::from_ascending(alloc, entries)? {
        Some(version) => Ok(version),
        None => unreachable!(),
    }
}

#[tactic(auto, unfolding(crate::specs::Reading::version_at))]
fn version_of(alloc: Global, bytes: &[u8]) -> Result<(Version, &[u8]), ReadError>
    ensures { Gives (λ x. (x.0, x.1.now)) result (version_at bytes.now) }
{
    let (count, rest) = amount_of(bytes)?;
    let (entries, rest) = ascending_of(alloc, count, rest)?;
    let version = version_with(alloc, entries.as_slice())?;
    Ok((version, rest))
}

#[tactic(auto, unfolding(crate::specs::Reading::range_at))]
pub(crate) fn range_of(bytes: &[u8]) -> Result<((u64, u64), &[u8]), ReadError>
    ensures { Gives (λ x. (x.0, x.1.now)) result (range_at bytes.now) }
{
    let (start, rest) = u64_at(bytes)?;
    let (end, rest) = u64_at(rest)?;
    Ok(((start, end), rest))
}

#[tactic(auto, unfolding(crate::specs::Reading::piece_at))]
fn any_piece_of(alloc: Global, so_far: u32, bytes: &[u8]) -> Result<(Piece, &[u8]), ReadError>
    ensures { Gives (λ x. (x.0, x.1.now)) result (piece_at so_far bytes.now) }
{
    let ((start, end), rest) = range_of(bytes)?;
    let (text, rest) = text_of(alloc, so_far, rest)?;
    Ok((Piece { start, end, text }, rest))
}

// A piece, with whose text the texts so far stay within the limit.
fn piece_of(alloc: Global, so_far: u32, bytes: &[u8]) -> Result<(Piece, &[u8]), ReadError>
    ensures read { Gives (λ x. (x.0, x.1.now)) result (piece_at so_far bytes.now) }
    ensures short { IfOk result (λ x. so_far + length x.0.text ≤ limit) }
{
    any_piece_of(alloc, so_far, bytes)
}

fn pieces_of(alloc: Global, amount: u32, bytes: &[u8]) -> Result<(Vec<Piece>, &[u8]), ReadError>
    ensures { Gives (λ x. (x.0.items, x.1.now)) result (pieces_at amount 0 bytes.now) }
{
    let mut pieces = Vec::new(alloc);
    let mut so_far = 0u32;
    let mut rest = bytes;
    for _ in 0..amount {
        let (piece, after) = piece_of(alloc, so_far, rest)?;
        so_far += piece.text.as_str().len() as u32;
        pieces.push(piece)?;
        rest = after;
    }
    Ok((pieces, rest))
}

#[tactic(auto, unfolding(crate::specs::Reading::pieces_at))]
fn one_piece_of(alloc: Global, bytes: &[u8]) -> Result<(Pieces, &[u8]), ReadError>
    ensures { Gives (λ x. (x.0, x.1.now)) result (pieces_at 1 0 bytes.now) }
{
    let (piece, rest) = any_piece_of(alloc, 0, bytes)?;
    Ok((Pieces::of(alloc, piece)?, rest))
}

// The pieces of a number of them: one needs no vector.
fn listed_pieces_of(alloc: Global, amount: u32, bytes: &[u8]) -> Result<(Pieces, &[u8]), ReadError>
    ensures { Gives (λ x. (x.0, x.1.now)) result (pieces_at amount 0 bytes.now) }
{
    if amount == 1 {
        return one_piece_of(alloc, bytes);
    }
    let (pieces, rest) = pieces_of(alloc, amount, bytes)?;
    Ok((Pieces::new(pieces), rest))
}

#[tactic(auto, unfolding(crate::specs::Reading::all_pieces_at))]
fn all_pieces_of(alloc: Global, bytes: &[u8]) -> Result<(Pieces, &[u8]), ReadError>
    ensures { Gives (λ x. (x.0, x.1.now)) result (all_pieces_at bytes.now) }
{
    let (amount, rest) = amount_of(bytes)?;
    listed_pieces_of(alloc, amount, rest)
}

#[tactic(auto, unfolding(crate::specs::Reading::count_at))]
pub(crate) fn count_of(bytes: &[u8]) -> Result<(UndoCount, &[u8]), ReadError>
    ensures { Gives (λ x. (x.0, x.1.now)) result (count_at bytes.now) }
{
    let (edit, rest) = stamp_of(bytes)?;
    let (count, rest) = u32_at(rest)?;
    Ok((UndoCount { edit, count }, rest))
}

fn counts_of(alloc: Global, amount: u32, bytes: &[u8]) -> Result<(Vec<UndoCount>, &[u8]), ReadError>
    ensures { Gives (λ x. (x.0.items, x.1.now)) result (counts_at amount bytes.now) }
{
    let mut counts = Vec::new(alloc);
    let mut rest = bytes;
    for _ in 0..amount {
        let (count, after) = count_of(rest)?;
        counts.push(count)?;
        rest = after;
    }
    Ok((counts, rest))
}

#[tactic(auto, unfolding(crate::specs::Reading::counts_at))]
fn one_count_of(alloc: Global, bytes: &[u8]) -> Result<(Counts, &[u8]), ReadError>
    ensures { Gives (λ x. (x.0, x.1.now)) result (counts_at 1 bytes.now) }
{
    let (count, rest) = count_of(bytes)?;
    Ok((Counts::copy_of(alloc, &[count])?, rest))
}

// The counts of a number of them: one needs no vector.
fn listed_counts_of(alloc: Global, amount: u32, bytes: &[u8]) -> Result<(Counts, &[u8]), ReadError>
    ensures { Gives (λ x. (x.0, x.1.now)) result (counts_at amount bytes.now) }
{
    if amount == 1 {
        return one_count_of(alloc, bytes);
    }
    let (counts, rest) = counts_of(alloc, amount, bytes)?;
    Ok((Counts::new(counts), rest))
}

#[tactic(auto, unfolding(crate::specs::Reading::all_counts_at))]
fn all_counts_of(alloc: Global, bytes: &[u8]) -> Result<(Counts, &[u8]), ReadError>
    ensures { Gives (λ x. (x.0, x.1.now)) result (all_counts_at bytes.now) }
{
    let (amount, rest) = amount_of(bytes)?;
    listed_counts_of(alloc, amount, rest)
}

#[tactic(auto, unfolding(crate::specs::Reading::head_at))]
fn head_of(alloc: Global, bytes: &[u8]) -> Result<((Lamport, Version), &[u8]), ReadError>
    ensures { Gives (λ x. (x.0, x.1.now)) result (head_at bytes.now) }
{
    let (stamp, rest) = stamp_of(bytes)?;
    let (version, rest) = version_of(alloc, rest)?;
    Ok(((stamp, version), rest))
}

#[tactic(auto, unfolding(crate::specs::Reading::edit_at))]
fn edit_of(alloc: Global, bytes: &[u8]) -> Result<(Operation, &[u8]), ReadError>
    ensures { Gives (λ x. (x.0, x.1.now)) result (edit_at bytes.now) }
{
    let ((stamp, version), rest) = head_of(alloc, bytes)?;
    let (pieces, rest) = all_pieces_of(alloc, rest)?;
    let edit = EditOp {
        stamp,
        version,
        pieces,
    };
    Ok((Operation::Edit(edit), rest))
}

#[tactic(auto, unfolding(crate::specs::Reading::undo_at))]
fn undo_of(alloc: Global, bytes: &[u8]) -> Result<(Operation, &[u8]), ReadError>
    ensures { Gives (λ x. (x.0, x.1.now)) result (undo_at bytes.now) }
{
    let ((stamp, version), rest) = head_of(alloc, bytes)?;
    let (counts, rest) = all_counts_of(alloc, rest)?;
    let undo = UndoOp {
        stamp,
        version,
        counts,
    };
    Ok((Operation::Undo(undo), rest))
}

/// The operation whose record the bytes begin with, and the bytes after it. Linear in the record.
#[tactic(auto, unfolding(crate::specs::Reading::record_at))]
pub(crate) fn record_of(alloc: Global, bytes: &[u8]) -> Result<(Operation, &[u8]), ReadError>
    ensures { Gives (λ x. (x.0, x.1.now)) result (record_at bytes.now) }
{
    match bytes {
        [] => Err(ReadError::Stopped(Stop::Short)),
        [1, rest @ ..] => edit_of(alloc, rest),
        [2, rest @ ..] => undo_of(alloc, rest),
        [_, ..] => Err(ReadError::Stopped(Stop::Bad(Word::Kind, bytes.len()))),
    }
}
