//! Worked rows: an insertion and its record, and streams that are fed in pieces of several sizes.
use crate::cases::{INSERTION, comes_back, comes_to, insertion};
use op_wire::{WireFault, WireReader, encode};
use std::alloc::Global;

// Whether the insertion has that record.
fn is_record(alloc: Global, bytes: &[u8]) -> bool {
    let Ok(op) = insertion(alloc) else {
        return false;
    };
    match encode(alloc, &op) {
        Ok(record) => record.as_slice() == bytes,
        Err(_) => false,
    }
}

#[test]
fn an_insertion_is_its_bytes(rt: HostRuntime) {
    let alloc = rt.alloc();
    assert!(rt; is_record(alloc, &INSERTION) && comes_back(alloc, &INSERTION, 42));
}

#[test]
fn streams_come_to_what_they_are(rt: HostRuntime) {
    let alloc = rt.alloc();
    assert!(rt; comes_to(alloc, &INSERTION, 1, Ok(())));
    assert!(rt; comes_to(alloc, &INSERTION[..41], 0, Err(WireFault::Cut { at: 0 })));
    assert!(rt; comes_to(alloc, &[3], 0, Err(WireFault::Kind { at: 0 })));
    assert!(rt; comes_to(alloc, &[], 0, Ok(())));
}

// Whether empty pieces change nothing: before the record, inside it and after it.
fn passes_empty_pieces(alloc: Global) -> bool {
    let mut reader = WireReader::new(alloc);
    let mut ops = Vec::new(alloc);
    reader.feed(&[], &mut ops) == Ok(())
        && reader.feed(&INSERTION[..20], &mut ops) == Ok(())
        && reader.feed(&[], &mut ops) == Ok(())
        && reader.held().len() == 20
        && reader.feed(&INSERTION[20..], &mut ops) == Ok(())
        && reader.feed(&[], &mut ops) == Ok(())
        && reader.finish() == Ok(())
        && ops.len() == 1
}

#[test]
fn pieces_may_be_empty(rt: HostRuntime) {
    assert!(rt; passes_empty_pieces(rt.alloc()));
}
