//! Records and operations of tables, and streams that are fed in pieces.
ghost use Rattle.std.specs.Prelude.{◌+◌, ◌*◌, ◌<◌, ◌≤◌, ◌^◌, length};
ghost use Rattle.op_wire.specs.Stream.{bytes_fed};

use lamport_clock::{Lamport, Version};
use op_model::{Counts, EditOp, Operation, Piece, Pieces, Text, UndoCount, UndoOp};
use op_wire::{EncodeFault, OutOfMemory, WireFault, WireReader, encode};
use std::alloc::Global;

// The edit 2.1 that puts X at 1, by an author who has seen the base text.
pub(crate) const INSERTION: [u8; 42] = [
    1, 0, 0, 0, 2, 0, 1, 0, 0, 0, 1, 0, 0, 0, 0, 0, 1, 0, 0, 0, 1, 0, 0, 0, 0, 0, 0, 0, 1, 0, 0, 0,
    0, 0, 0, 0, 1, 0, 0, 0, 1, 88,
];

const STAMP: Lamport = Lamport {
    value: 2,
    replica: 1,
};

// How the pieces are cut.
const SIZES: [usize; 3] = [1, 5, 42];

pub(crate) fn insertion(alloc: Global) -> Result<Operation, OutOfMemory> {
    let text = Text::new(String::from_str(alloc, "X")?);
    Ok(Operation::Edit(EditOp {
        stamp: STAMP,
        version: Version::from_entries(alloc, &[(0, 1)])?,
        pieces: Pieces::of(alloc, Piece::new(1, 1, text))?,
    }))
}

/// An edit of that many pieces, each a deletion.
pub(crate) fn deletions(alloc: Global, amount: usize) -> Result<Operation, OutOfMemory> {
    let mut pieces = Vec::new(alloc);
    for _ in 0..amount {
        pieces.push(Piece::new(1, 2, Text::new(String::new(alloc))))?;
    }
    Ok(Operation::Edit(EditOp {
        stamp: STAMP,
        version: Version::new(alloc),
        pieces: Pieces::new(pieces),
    }))
}

/// An edit of two pieces, the first with a text of that many bytes, the second with one of a byte.
pub(crate) fn letters(alloc: Global, amount: usize) -> Result<Operation, OutOfMemory> {
    let mut text = String::new(alloc);
    for _ in 0..amount {
        text.push('a')?;
    }
    let mut pieces = Vec::new(alloc);
    pieces.push(Piece::new(1, 1, Text::new(text)))?;
    pieces.push(Piece::new(2, 2, Text::new(String::from_str(alloc, "b")?)))?;
    Ok(Operation::Edit(EditOp {
        stamp: STAMP,
        version: Version::new(alloc),
        pieces: Pieces::new(pieces),
    }))
}

/// An undo of that many counts.
pub(crate) fn counts(alloc: Global, amount: usize) -> Result<Operation, OutOfMemory> {
    let mut counts = Vec::new(alloc);
    for _ in 0..amount {
        counts.push(UndoCount {
            edit: STAMP,
            count: 1,
        })?;
    }
    Ok(Operation::Undo(UndoOp {
        stamp: STAMP,
        version: Version::new(alloc),
        counts: Counts::new(counts),
    }))
}

// Feeds a piece, and feeds it again where an allocation fails, if nothing has changed then.
fn feed(reader: &mut WireReader, piece: &[u8], into: &mut Vec<Operation>) -> Result<(), WireFault>
    requires { bytes_fed reader.old + 2 * length piece.now < 2 ^ 64 }
    ensures { bytes_fed reader.new ≤ bytes_fed reader.old + 2 * length piece.now }
{
    let held = reader.held().len();
    let before = into.len();
    let end = reader.feed(piece, into);
    let same = reader.held().len() == held && into.len() == before;
    if same && end == Err(WireFault::OutOfMemory) {
        return reader.feed(piece, into);
    }
    end
}

// The operations of a stream that is fed in pieces of that size, and what its end comes to.
fn fed(alloc: Global, stream: &[u8], size: usize) -> (Vec<Operation>, Result<(), WireFault>)
    requires { 0 < size }
{
    let mut reader = WireReader::new(alloc);
    let mut ops = Vec::new(alloc);
    let mut rest = stream;
    while !rest.is_empty() {
        let (piece, after) = rest.split_at(size.min(rest.len()));
        if let Err(fault) = feed(&mut reader, piece, &mut ops) {
            return (ops, Err(fault));
        }
        rest = after;
    }
    let end = reader.finish();
    (ops, end)
}

fn ends(alloc: Global, stream: &[u8], size: usize, ops: usize, end: Result<(), WireFault>) -> bool
    requires { 0 < size }
{
    let (read, at_end) = fed(alloc, stream, size);
    read.len() == ops && at_end == end
}

/// Whether a stream has that number of operations and that end, however it is cut.
pub(crate) fn comes_to(
    alloc: Global,
    stream: &[u8],
    ops: usize,
    end: Result<(), WireFault>,
) -> bool {
    SIZES
        .iter()
        .all(|&size| size > 0 && ends(alloc, stream, size, ops, end))
}

// The record of an operation, made again where an allocation fails.
fn record_of(alloc: Global, op: &Operation) -> Result<Vec<u8>, EncodeFault> {
    match encode(alloc, op) {
        Err(EncodeFault::OutOfMemory) => encode(alloc, op),
        record => record,
    }
}

// What follows the record of an operation.
fn after_record<'a>(alloc: Global, op: &Operation, bytes: &'a [u8]) -> Option<&'a [u8]> {
    match record_of(alloc, op) {
        Ok(record) => bytes.strip_prefix(record.as_slice()),
        Err(_) => None,
    }
}

/// Whether a stream that is fed in pieces of that size is the records of the operations that are read of it.
pub(crate) fn comes_back(alloc: Global, stream: &[u8], size: usize) -> bool
    requires { 0 < size }
{
    let (ops, end) = fed(alloc, stream, size);
    let mut rest = stream;
    for op in &ops {
        match after_record(alloc, op, rest) {
            Some(after) => rest = after,
            None => return false,
        }
    }
    end == Ok(()) && rest.is_empty()
}
