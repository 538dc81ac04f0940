//! Streams of records that are fed in pieces of any sizes.
use op_model::Operation;
use op_wire::{WireFault, WireReader, encode};
use std::alloc::Global;
use std::io;

/// Reads streams that lines of the standard input name: the sizes of pieces, with commas between them, a space, and the
/// bytes in hexadecimal. Each stream is fed in these pieces and a last one, and a line is written for it: how many
/// operations were read, whether the stream begins with their records, how many bytes are held, and the end.
pub fn answers(rt: &HostRuntime) -> io::Result<()> {
    let text = io::read_to_string(rt.alloc(), rt.reader())?;
    for line in text.lines() {
        let (sizes, digits) = line.split_once(' ').unwrap_or(("", ""));
        if let Ok(stream) = hex::decode(rt.alloc(), digits) {
            feed_one(rt, sizes, &stream)?;
        }
    }
    Ok(())
}

fn feed_one(rt: &HostRuntime, sizes: &str, stream: &[u8]) -> io::Result<()> {
    let alloc = rt.alloc();
    let mut ops = Vec::new(alloc);
    let (held, end) = feed_all(alloc, sizes, stream, &mut ops);
    println!(rt;
        "{} {} {held} {end:?}",
        ops.len(),
        is_begun_by(alloc, stream, &ops)
    )
}

// How many bytes are held at the end of a stream, and what its end comes to. A fault is answered again by later feeds.
fn feed_all(
    alloc: Global,
    sizes: &str,
    stream: &[u8],
    into: &mut Vec<Operation>,
) -> (usize, Result<(), WireFault>) {
    let mut reader = WireReader::new(alloc);
    let mut rest = stream;
    for size in sizes.split(',') {
        let size = size.parse().unwrap_or(0).min(rest.len());
        let (piece, after) = rest.split_at(size);
        let _answer = reader.feed(piece, into);
        rest = after;
    }
    let _answer = reader.feed(rest, into);
    (reader.held().len(), reader.finish())
}

// Whether a stream begins with the records of the operations.
fn is_begun_by(alloc: Global, stream: &[u8], ops: &[Operation]) -> bool {
    let mut rest = stream;
    for op in ops {
        match after_record(alloc, op, rest) {
            Some(after) => rest = after,
            None => return false,
        }
    }
    true
}

// What follows the record of an operation.
fn after_record<'a>(alloc: Global, op: &Operation, bytes: &'a [u8]) -> Option<&'a [u8]> {
    match encode(alloc, op) {
        Ok(record) => bytes.strip_prefix(record.as_slice()),
        Err(_) => None,
    }
}
