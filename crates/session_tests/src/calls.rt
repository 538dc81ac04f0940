//! Calls of `run`.
use crate::choices::Choices;
use op_model::OutOfMemory;
use session_io::{MemSink, MemSource, Sink, Source};
use session_replay::{Gate, Status, run};
use std::alloc::Global;
use std::sync::Wait;
use std::thread::Threads;

/// A gate that holds nobody.
pub struct Passing;

impl Gate for Passing {
    fn hold<R: Threads + Wait + Sync>(&self, _rt: &R, _worker: u32, _job: u64) {}

    fn done<R: Threads + Wait + Sync>(&self, _rt: &R, _worker: u32, _job: u64) {}
}

/// Calls `run`. Its threads are held at the gate.
pub fn call<R: Threads + Wait + Sync, I: Source, O: Sink, G: Gate>(
    rt: &R,
    alloc: Global,
    words: &[String],
    source: &mut I,
    sink: &mut O,
    gate: &G,
) -> Status {
    run(rt, alloc, words, source, sink, gate)
}

/// The words of a command line. A word between apostrophes may be empty or have blanks.
pub fn words_of(alloc: Global, line: &str) -> Result<Vec<String>, OutOfMemory> {
    let mut words = Vec::new(alloc);
    let mut is_quoted = false;
    for part in line.split('\'') {
        if is_quoted {
            words.push(String::from_str(alloc, part)?)?;
        } else {
            push_words(alloc, &mut words, part)?;
        }
        is_quoted = !is_quoted;
    }
    Ok(words)
}

fn push_words(alloc: Global, words: &mut Vec<String>, part: &str) -> Result<(), OutOfMemory> {
    for word in part.split_whitespace() {
        words.push(String::from_str(alloc, word)?)?;
    }
    Ok(())
}

/// How `run` is called, and the status that it is to end with.
#[derive(Clone, Copy)]
pub struct Ends {
    /// The status, as a number.
    pub status: u64,
    /// How many bytes a read gives at most.
    pub read: usize,
    /// How many bytes a write takes at most.
    pub write: usize,
    /// The number of the read that fails, from 1; 0 for none.
    pub failing_read: u64,
    /// The number of the write that fails, from 1; 0 for none.
    pub failing_write: u64,
    /// The room for what is written, in bytes.
    pub room: usize,
}

/// Calls that do not fail, and ample room.
pub const AMPLE: Ends = Ends {
    status: 0,
    read: 65_536,
    write: 65_536,
    failing_read: 0,
    failing_write: 0,
    room: 1_200_000,
};

/// The numbers of the reads and writes that fail in a run with this status.
fn faults_of(status: u64) -> (u64, u64) {
    (
        (status == Status::ReadFault as u64) as u64,
        (status == Status::WriteFault as u64) as u64,
    )
}

/// A command line, what the program reads, and how it ends.
#[derive(Clone, Copy)]
pub struct Run<'a> {
    pub words: &'a str,
    pub input: &'a [u8],
    pub ends: Ends,
}

/// What is wanted of the output.
#[derive(Clone, Copy)]
pub enum Wanted<'a> {
    /// These bytes.
    Bytes(&'a [u8]),
    /// These bytes, and any others after them.
    Front(&'a [u8]),
    /// A choice of each of the rows.
    Choices(Choices<'a>),
}

fn is_wanted(alloc: Global, wanted: Wanted<'_>, output: &[u8]) -> bool {
    match wanted {
        Wanted::Bytes(bytes) => output == bytes,
        Wanted::Front(front) => output.starts_with(front),
        Wanted::Choices(choices) => match str::from_utf8(output) {
            Ok(report) => choices.may_be(alloc, report) == Ok(true),
            Err(_) => false,
        },
    }
}

fn source_of(alloc: Global, run: Run<'_>) -> Result<MemSource, OutOfMemory> {
    let failing = vec![in alloc; run.ends.failing_read]?;
    let bytes = run.input.to_vec(alloc)?;
    Ok(MemSource::new(bytes, run.ends.read.max(1), failing))
}

fn sink_of(alloc: Global, ends: Ends) -> Result<MemSink, OutOfMemory> {
    let failing = vec![in alloc; ends.failing_write]?;
    MemSink::new(alloc, ends.room, ends.write.max(1), failing)
}

/// The sink of the run, if it ends with its status and no call fails but those that are to fail.
pub fn sink_after<R: Threads + Wait + Sync, G: Gate>(
    rt: &R,
    alloc: Global,
    gate: &G,
    run: Run<'_>,
) -> Result<Option<MemSink>, OutOfMemory> {
    let words = words_of(alloc, run.words)?;
    let mut source = source_of(alloc, run)?;
    let mut sink = sink_of(alloc, run.ends)?;
    let status = call(rt, alloc, words.as_slice(), &mut source, &mut sink, gate) as u64;
    let faults = (source.counts().faults, sink.faults());
    Ok(if status == run.ends.status && faults == faults_of(status) {
        Some(sink)
    } else {
        None
    })
}

/// Whether the run ends with its status, no call fails but those that are to fail, and what is wanted is written.
pub fn comes_to<R: Threads + Wait + Sync, G: Gate>(
    rt: &R,
    alloc: Global,
    gate: &G,
    run: Run<'_>,
    wanted: Wanted<'_>,
) -> Result<bool, OutOfMemory> {
    Ok(match sink_after(rt, alloc, gate, run)? {
        Some(sink) => is_wanted(alloc, wanted, sink.bytes()),
        None => false,
    })
}
