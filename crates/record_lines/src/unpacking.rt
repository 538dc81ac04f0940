//! Records as the lines of their operations.
ghost use Rattle.std.specs.Prelude.{◌≡◌, ◌⊎◌, ◌+◌, ◌<◌, ◌^◌, ◌++◌, ℕ, List, length, Err, Ok, IfErr, IfOk};
ghost use Rattle.op_wire.specs.Reading.{IsBytes};
ghost use Rattle.op_wire.specs.Stream.{bytes_fed};
ghost use Rattle.op_wire.specs.declared.fault.WireFault.{WireFault};
ghost use Rattle.record_lines.specs.Unpacking.{AreWritten, lines_of_stream};

use crate::lines::with_lines;
use op_wire::{WireFault, WireReader};
use std::alloc::Global;

/// The most bytes that are fed at once.
const PIECE: usize = 65_536;

// Feeds a piece, and gives the lines with those of the operations whose records are whole now.
fn feed_piece(
    alloc: Global,
    reader: &mut WireReader,
    lines: Vec<u8>,
    piece: &[u8],
) -> Result<Vec<u8>, WireFault>
    requires { bytes_fed reader.old + length piece.now < 2 ^ 64 }
    ensures ok { IfOk result (λ v. (came : List ℕ) → AreWritten came reader.old lines.items
        → AreWritten (came ++ piece.now) reader.new v.items) }
    ensures fault { IfErr result (λ e. (came after : List ℕ)
        → IsBytes (came ++ (piece.now ++ after)) → AreWritten came reader.old lines.items
        → (lines_of_stream (came ++ (piece.now ++ after)) ≡ Err e) ⊎ (e ≡ WireFault.OutOfMemory)) }
{
    let mut operations = Vec::new(alloc);
    reader.feed(piece, &mut operations)?;
    Ok(with_lines(lines, operations.as_slice())?)
}

/// The lines of the operations of a stream of records, in their order, each ended by a line feed: `op` lines of edits
/// and `uop` lines of undos, as a session has them. Linear in the stream. The lines are held whole, and of the
/// operations only those whose records end in the same 65,536 bytes.
///
/// # Errors
///
/// The first fault of the stream, with the offset of its field: `Kind`, `Order`, `Zero`, `Long` or `Utf8`; or `Cut`
/// with that of the record, if the stream ends inside one. `OutOfMemory` if an allocation fails.
pub fn unpack(alloc: Global, bytes: &[u8]) -> Result<Vec<u8>, WireFault>
    ensures ok { IfOk result (λ v. lines_of_stream bytes.now ≡ Ok v.items) }
    ensures fault { IfErr result
        (λ e. (lines_of_stream bytes.now ≡ Err e) ⊎ (e ≡ WireFault.OutOfMemory)) }
{
    let mut reader = WireReader::new(alloc);
    let mut lines = Vec::new(alloc);
    let mut rest = bytes;
    while !rest.is_empty() {
        let (piece, after) = rest.split_at(rest.len().min(PIECE));
        lines = feed_piece(alloc, &mut reader, lines, piece)?;
        rest = after;
    }
    reader.finish()?;
    Ok(lines)
}
