//! Records of as many entries, pieces and counts as one can have, a byte a feed, and 64 MiB in one feed.
use crate::cases::comes_back;
use op_wire::OutOfMemory;
use std::alloc::Global;

// The front of a record of 65,536 pieces, and one of them, a deletion.
const PIECES: &[u8] = &[1, 0, 0, 0, 2, 0, 1, 0, 0, 0, 0, 0, 1, 0, 0];

const PIECE: &[u8] = &[0, 0, 0, 0, 0, 0, 0, 1, 0, 0, 0, 0, 0, 0, 0, 2, 0, 0, 0, 0];

// The front of a record of 65,536 counts, and one of them.
const COUNTS: &[u8] = &[2, 0, 0, 0, 2, 0, 1, 0, 0, 0, 0, 0, 1, 0, 0];

const COUNT: &[u8] = &[0, 0, 0, 2, 0, 1, 0, 0, 0, 1];

// The front of a record of a text of 65,536 bytes, of which 1,024 have 64 MiB and some more.
const TEXT: &[u8] = &[
    1, 0, 0, 0, 2, 0, 1, 0, 0, 0, 0, 0, 0, 0, 1, 0, 0, 0, 0, 0, 0, 0, 1, 0, 0, 0, 0, 0, 0, 0, 1, 0,
    1, 0, 0,
];

fn repeated(
    alloc: Global,
    front: &[u8],
    element: &[u8],
    times: usize,
) -> Result<Vec<u8>, OutOfMemory> {
    let mut bytes = Vec::new(alloc);
    bytes.extend_from_slice(front)?;
    for _ in 0..times {
        bytes.extend_from_slice(element)?;
    }
    Ok(bytes)
}

// The record of an edit by an author who has seen each replica, of no pieces.
fn entries(alloc: Global) -> Result<Vec<u8>, OutOfMemory> {
    let mut bytes = Vec::from_array(alloc, [1, 0, 0, 0, 2, 0, 1, 0, 1, 0, 0])?;
    for replica in 0..65_536u32 {
        let [_, _, high, low] = replica.to_be_bytes();
        bytes.extend_from_slice(&[high, low, 0, 0, 0, 1])?;
    }
    bytes.extend_from_slice(&[0, 0, 0, 0])?;
    Ok(bytes)
}

fn comes_by_bytes(alloc: Global, record: Result<Vec<u8>, OutOfMemory>) -> bool {
    match record {
        Ok(bytes) => comes_back(alloc, &bytes, 1),
        Err(_) => false,
    }
}

fn comes_at_once(alloc: Global, stream: Result<Vec<u8>, OutOfMemory>) -> bool {
    match stream {
        Ok(bytes) => !bytes.is_empty() && comes_back(alloc, &bytes, bytes.len()),
        Err(_) => false,
    }
}

#[test]
fn long_records_come_a_byte_a_feed(rt: HostRuntime) {
    let alloc = rt.alloc();
    assert!(rt; comes_by_bytes(alloc, entries(alloc)));
    assert!(rt; comes_by_bytes(alloc, repeated(alloc, PIECES, PIECE, 65_536)));
    assert!(rt; comes_by_bytes(alloc, repeated(alloc, COUNTS, COUNT, 65_536)));
}

fn texts(alloc: Global) -> Result<Vec<u8>, OutOfMemory> {
    let record = repeated(alloc, TEXT, b"a", 65_536)?;
    repeated(alloc, &[], &record, 1_024)
}

#[test]
fn a_feed_may_be_long(rt: HostRuntime) {
    let alloc = rt.alloc();
    assert!(rt; comes_at_once(alloc, texts(alloc)));
}
