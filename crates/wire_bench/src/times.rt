//! Works on the operations of a stream of records.
ghost use Rattle.std.specs.Prelude.{◌<◌};

use op_model::{Operation, OutOfMemory};
use op_wire::{WireReader, encode};
use std::alloc::Global;
use std::io::{self, Read};
use std::time::Instant;

/// Reads the standard input, a stream of records, in feeds of `size` bytes, writes the records of its operations, and
/// copies the operations. Writes a line for each work: its name, its answer and, if it is timed, its microseconds.
pub fn works(rt: &HostRuntime, size: u32, timed: bool) -> io::Result<()> {
    let mut stream = Vec::new(rt.alloc());
    rt.reader().read_to_end(&mut stream)?;
    time(rt, &stream, size.max(1) as usize, timed)
}

fn time(rt: &HostRuntime, stream: &[u8], size: usize, timed: bool) -> io::Result<()>
    requires { 0 < size }
{
    let alloc = rt.alloc();
    let start = now(rt, timed)?;
    let ops = read_all(alloc, stream, size);
    write(rt, "Read", ops.len() as u64, start)?;
    let start = now(rt, timed)?;
    write(rt, "Write", write_all(alloc, &ops), start)?;
    let start = now(rt, timed)?;
    write(rt, "CopyOps", copy_all(alloc, &ops)?, start)
}

fn now(rt: &HostRuntime, timed: bool) -> io::Result<Option<Instant>> {
    if timed {
        return Ok(Some(Instant::now(rt)?));
    }
    Ok(None)
}

fn write(rt: &HostRuntime, name: &str, answer: u64, start: Option<Instant>) -> io::Result<()> {
    match start {
        Some(start) => {
            let micros = start.elapsed(rt)?.as_micros();
            println!(rt; "{name} {answer} {micros}")
        }
        None => println!(rt; "{name} {answer}"),
    }
}

// The operations of a stream that is fed in pieces of that size, up to the first fault.
fn read_all(alloc: Global, stream: &[u8], size: usize) -> Vec<Operation>
    requires { 0 < size }
{
    let mut reader = WireReader::new(alloc);
    let mut ops = Vec::new(alloc);
    let mut rest = stream;
    while !rest.is_empty() {
        let (piece, after) = rest.split_at(size.min(rest.len()));
        if reader.feed(piece, &mut ops).is_err() {
            break;
        }
        rest = after;
    }
    ops
}

// Makes the record of each operation: how many bytes they have together.
fn write_all(alloc: Global, ops: &[Operation]) -> u64 {
    let mut len: u64 = 0;
    for op in ops {
        len = len.saturating_add(record_len(alloc, op));
    }
    len
}

fn record_len(alloc: Global, op: &Operation) -> u64 {
    match encode(alloc, op) {
        Ok(record) => record.len() as u64,
        Err(_) => 0,
    }
}

// Copies all operations: how many there are.
fn copy_all(alloc: Global, ops: &[Operation]) -> Result<u64, OutOfMemory> {
    let mut copies = Vec::with_capacity(alloc, ops.len())?;
    for op in ops {
        copies.push(op.copy(alloc)?)?;
    }
    Ok(copies.len() as u64)
}
