//! Streams that end with a faulty field: of the first record, and of a later one; whole, and one byte short.
ghost use Rattle.std.specs.Prelude.{◌≤◌, length};

use crate::cases::{INSERTION, comes_to};
use WireFault::{Cut, Kind, Long, Order, Utf8, Zero};
use op_wire::{OutOfMemory, WireFault, WireReader};
use std::alloc::Global;

// Bytes that end with a faulty field, and the fault: of the first record, and after another one.
type Row = (&'static [u8], WireFault, WireFault);

const ROWS: &[Row] = &[
    // A replica that equals the one before it.
    (
        &[1, 0, 0, 0, 2, 0, 1, 0, 0, 0, 2, 0, 1, 0, 0, 0, 1, 0, 1],
        Order { at: 17 },
        Order { at: 59 },
    ),
    // An entry of the value 0.
    (
        &[1, 0, 0, 0, 2, 0, 1, 0, 0, 0, 1, 0, 0, 0, 0, 0, 0],
        Zero { at: 13 },
        Zero { at: 55 },
    ),
    // 65,537 entries, pieces and counts.
    (
        &[1, 0, 0, 0, 2, 0, 1, 0, 1, 0, 1],
        Long { at: 7 },
        Long { at: 49 },
    ),
    (
        &[1, 0, 0, 0, 2, 0, 1, 0, 0, 0, 0, 0, 1, 0, 1],
        Long { at: 11 },
        Long { at: 53 },
    ),
    (
        &[2, 0, 0, 0, 2, 0, 1, 0, 0, 0, 0, 0, 1, 0, 1],
        Long { at: 11 },
        Long { at: 53 },
    ),
    // A text of 65,537 bytes, and one of 65,536 after one of a byte.
    (
        &[
            1, 0, 0, 0, 2, 0, 1, 0, 0, 0, 0, 0, 0, 0, 1, 0, 0, 0, 0, 0, 0, 0, 1, 0, 0, 0, 0, 0, 0,
            0, 1, 0, 1, 0, 1,
        ],
        Long { at: 31 },
        Long { at: 73 },
    ),
    (
        &[
            1, 0, 0, 0, 2, 0, 1, 0, 0, 0, 0, 0, 0, 0, 2, 0, 0, 0, 0, 0, 0, 0, 1, 0, 0, 0, 0, 0, 0,
            0, 1, 0, 0, 0, 1, 88, 0, 0, 0, 0, 0, 0, 0, 2, 0, 0, 0, 0, 0, 0, 0, 2, 0, 1, 0, 0,
        ],
        Long { at: 52 },
        Long { at: 94 },
    ),
    // A text of the byte 255.
    (
        &[
            1, 0, 0, 0, 2, 0, 1, 0, 0, 0, 0, 0, 0, 0, 1, 0, 0, 0, 0, 0, 0, 0, 1, 0, 0, 0, 0, 0, 0,
            0, 1, 0, 0, 0, 1, 255,
        ],
        Utf8 { at: 35 },
        Utf8 { at: 77 },
    ),
];

// Whether a stream of some operations ends in that fault, and is cut off in the record from that byte on while its last
// byte has not come.
fn ends(alloc: Global, stream: &[u8], ops: usize, at: u64, fault: WireFault) -> bool {
    match stream.split_last() {
        Some((_, short)) => {
            comes_to(alloc, stream, ops, Err(fault)) && comes_to(alloc, short, ops, Err(Cut { at }))
        }
        None => false,
    }
}

fn is_found(alloc: Global, &(bytes, first, later): &Row) -> Result<bool, OutOfMemory> {
    let mut stream = Vec::from_array(alloc, INSERTION)?;
    stream.extend_from_slice(bytes)?;
    Ok(ends(alloc, bytes, 0, 0, first) && ends(alloc, &stream, 1, 42, later))
}

#[test]
fn faults_are_found(rt: HostRuntime) {
    for row in ROWS {
        assert!(rt; is_found(rt.alloc(), row) == Ok(true));
    }
}

// Whether the fault of a piece after a record is answered from then on.
fn is_kept(alloc: Global, piece: &[u8], fault: WireFault) -> bool
    requires { length piece.now ≤ 42 }
{
    let mut reader = WireReader::new(alloc);
    let mut ops = Vec::new(alloc);
    reader.feed(&INSERTION, &mut ops) == Ok(())
        && reader.feed(piece, &mut ops) == Err(fault)
        && reader.feed(&INSERTION, &mut ops) == Err(fault)
        && reader.feed(&[], &mut ops) == Err(fault)
        && reader.finish() == Err(fault)
        && ops.len() == 1
        && reader.held().is_empty()
}

#[test]
fn a_fault_is_answered_again(rt: HostRuntime) {
    assert!(rt; is_kept(rt.alloc(), &[0, 1], Kind { at: 42 }));
}
