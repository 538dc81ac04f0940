//! Records as lines of a session, and operations as records. A call in which an allocation fails is made again.
use crate::cases::{INSERTION, insertion, letters};
use op_model::Operation;
use op_wire::{OutOfMemory, WireFault};
use record_lines::{PackFault, fault_line, long_line, pack, push_record, unpack};
use std::alloc::Global;

// The line of the insertion.
const LINE: &str = "[\"op\",[2,1],[[0,1]],[[1,1,\"X\"]]]\n";

fn unpacked(alloc: Global, bytes: &[u8]) -> Result<Vec<u8>, WireFault> {
    match unpack(alloc, bytes) {
        Err(WireFault::OutOfMemory) => unpack(alloc, bytes),
        lines => lines,
    }
}

// Whether the bytes are records with these lines.
fn unpacks_to(alloc: Global, bytes: &[u8], lines: &str) -> bool {
    match unpacked(alloc, bytes) {
        Ok(written) => written.as_slice() == lines.as_bytes(),
        Err(_) => false,
    }
}

// Whether the bytes have that fault, and this is the line for it.
fn fails_with(alloc: Global, bytes: &[u8], fault: WireFault, line: &str) -> bool {
    let found = match unpacked(alloc, bytes) {
        Ok(_) => return false,
        Err(found) => found,
    };
    let written = match fault_line(alloc, found) {
        Err(OutOfMemory) => fault_line(alloc, found),
        written => written,
    };
    match written {
        Ok(text) => found == fault && text.as_str() == line,
        Err(OutOfMemory) => false,
    }
}

#[test]
fn streams_unpack_to_lines(rt: HostRuntime) {
    let alloc = rt.alloc();
    assert!(rt; unpacks_to(alloc, &INSERTION, LINE));
    assert!(rt; unpacks_to(alloc, &[], ""));
    let cut = WireFault::Cut { at: 0 };
    assert!(rt; fails_with(alloc, &INSERTION[..41], cut, "record at 0: cut\n"));
    let kind = WireFault::Kind { at: 0 };
    assert!(rt; fails_with(alloc, &[3], kind, "record at 0: kind\n"));
}

fn records_of(alloc: Global, operations: &[(u64, &Operation)]) -> Result<Vec<u8>, PackFault> {
    match pack(alloc, operations) {
        Err(PackFault::OutOfMemory) => pack(alloc, operations),
        records => records,
    }
}

// Whether the insertion, twice, is packed as its record, twice.
fn packs(alloc: Global) -> Result<bool, OutOfMemory> {
    let op = insertion(alloc)?;
    match records_of(alloc, &[(2, &op), (4, &op)]) {
        Ok(records) => Ok(
            records.len() == 84 && records.starts_with(&INSERTION) && records.ends_with(&INSERTION),
        ),
        Err(_) => Ok(false),
    }
}

// Whether the first operation that is too long for a record is named by its line.
fn names_the_first(alloc: Global) -> Result<bool, OutOfMemory> {
    let op = insertion(alloc)?;
    let long = letters(alloc, 65_536)?;
    let end = records_of(alloc, &[(2, &op), (3, &long), (5, &long)]);
    Ok(end == Err(PackFault::Long { line: 3 }))
}

// Whether a record is appended, and nothing of an operation that is too long for one.
fn appends(alloc: Global) -> Result<bool, OutOfMemory> {
    let op = insertion(alloc)?;
    let long = letters(alloc, 65_536)?;
    let mut records = Vec::new(alloc);
    let end = match push_record(alloc, &mut records, 2, &op) {
        Err(PackFault::OutOfMemory) => push_record(alloc, &mut records, 2, &op),
        end => end,
    };
    let refused = match push_record(alloc, &mut records, 3, &long) {
        Err(PackFault::OutOfMemory) => push_record(alloc, &mut records, 3, &long),
        refused => refused,
    };
    Ok(
        end == Ok(())
            && refused == Err(PackFault::Long { line: 3 })
            && records.as_slice() == INSERTION.as_slice(),
    )
}

fn tells_the_line(alloc: Global) -> Result<bool, OutOfMemory> {
    let line = match long_line(alloc, 3) {
        Err(OutOfMemory) => long_line(alloc, 3)?,
        Ok(line) => line,
    };
    Ok(line.as_str() == "session line 3: long\n")
}

#[test]
fn operations_pack_to_records(rt: HostRuntime) {
    let alloc = rt.alloc();
    assert!(rt; packs(alloc) == Ok(true) || packs(alloc) == Ok(true));
    assert!(rt; names_the_first(alloc) == Ok(true) || names_the_first(alloc) == Ok(true));
    assert!(rt; appends(alloc) == Ok(true) || appends(alloc) == Ok(true));
    assert!(rt; tells_the_line(alloc) == Ok(true) || tells_the_line(alloc) == Ok(true));
}
