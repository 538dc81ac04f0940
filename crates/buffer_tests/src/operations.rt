//! Stamps, versions and operations made of tables.
use lamport_clock::{Lamport, Version};
use op_model::{Counts, EditOp, Operation, Piece, Pieces, Text, UndoCount, UndoOp};
use std::alloc::Global;
use sum_tree::OutOfMemory;

/// A stamp's value and replica.
pub(crate) type Stamp = (u32, u16);

/// A range and the text in its place.
pub(crate) type Change = (u64, u64, &'static str);

/// An edit's pieces, an edit of that many insertions at the front of that many letters each, or an undo's counts.
#[derive(Clone, Copy)]
pub(crate) enum Parts {
    Pieces(&'static [Change]),
    Letters(usize, usize),
    Counts(&'static [(Stamp, u32)]),
}

pub(crate) fn stamp((value, replica): Stamp) -> Lamport {
    Lamport { value, replica }
}

/// The version that has seen these stamps.
pub(crate) fn version(alloc: Global, stamps: &[Stamp]) -> Result<Version, OutOfMemory> {
    let mut version = Version::new(alloc);
    for &at in stamps {
        version.observe(stamp(at))?;
    }
    Ok(version)
}

/// These stamps.
pub(crate) fn stamps(alloc: Global, rows: &[Stamp]) -> Result<Vec<Lamport>, OutOfMemory> {
    let mut stamps = Vec::with_capacity(alloc, rows.len())?;
    for &row in rows {
        stamps.push(stamp(row))?;
    }
    Ok(stamps)
}

/// A range, and a text in its place.
pub(crate) fn piece(alloc: Global, start: u64, end: u64, text: &str) -> Result<Piece, OutOfMemory> {
    let text = Text::new(String::from_str(alloc, text)?);
    Ok(Piece { start, end, text })
}

pub(crate) fn pieces(alloc: Global, changes: &[Change]) -> Result<Vec<Piece>, OutOfMemory> {
    let mut pieces = Vec::new(alloc);
    for &(start, end, text) in changes {
        pieces.push(piece(alloc, start, end, text)?)?;
    }
    Ok(pieces)
}

// An insertion of that many letters at the front.
fn letters(alloc: Global, count: usize) -> Result<Piece, OutOfMemory> {
    let mut text = String::new(alloc);
    for _ in 0..count {
        text.push('x')?;
    }
    let text = Text::new(text);
    Ok(Piece {
        start: 0,
        end: 0,
        text,
    })
}

fn insertions(alloc: Global, count: usize, length: usize) -> Result<Vec<Piece>, OutOfMemory> {
    let mut pieces = Vec::new(alloc);
    for _ in 0..count {
        pieces.push(letters(alloc, length)?)?;
    }
    Ok(pieces)
}

fn counts(alloc: Global, rows: &[(Stamp, u32)]) -> Result<Vec<UndoCount>, OutOfMemory> {
    let mut counts = Vec::new(alloc);
    for &(edit, count) in rows {
        let edit = stamp(edit);
        counts.push(UndoCount { edit, count })?;
    }
    Ok(counts)
}

/// The edit of this stamp that has seen a version, if its pieces could be made.
pub(crate) fn edit_of(
    stamp: Lamport,
    version: Version,
    pieces: Result<Vec<Piece>, OutOfMemory>,
) -> Result<Operation, OutOfMemory> {
    let pieces = Pieces::new(pieces?);
    Ok(Operation::Edit(EditOp {
        stamp,
        version,
        pieces,
    }))
}

/// The undo of this stamp that has seen a version, if its counts could be made.
pub(crate) fn undo_of(
    stamp: Lamport,
    version: Version,
    counts: Result<Vec<UndoCount>, OutOfMemory>,
) -> Result<Operation, OutOfMemory> {
    let counts = Counts::new(counts?);
    Ok(Operation::Undo(UndoOp {
        stamp,
        version,
        counts,
    }))
}

/// The operation of this stamp that has seen these and has these parts.
pub(crate) fn operation(
    alloc: Global,
    at: Stamp,
    seen: &[Stamp],
    parts: Parts,
) -> Result<Operation, OutOfMemory> {
    let seen = version(alloc, seen)?;
    let at = stamp(at);
    match parts {
        Parts::Pieces(changes) => edit_of(at, seen, pieces(alloc, changes)),
        Parts::Letters(count, length) => edit_of(at, seen, insertions(alloc, count, length)),
        Parts::Counts(rows) => undo_of(at, seen, counts(alloc, rows)),
    }
}
