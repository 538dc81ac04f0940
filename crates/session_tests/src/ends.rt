//! Sources and sinks themselves.
use crate::calls::{Passing, call, words_of};
use crate::tally::{Host, Tally};
use op_model::OutOfMemory;
use session_io::{Failed, MemSource, Source, SureSink, SureSource};
use session_replay::{Status, run_on_bytes};
use std::alloc::Global;
use std::sync::Wait;
use std::thread::Threads;

const SESSION: &str = "[\"zedbuf\",1,\"ab\",[1]]\n[\"edit\",1,[[1,1,\"X\"]]]\n[\"text\",1]\n";

// Words, bytes in memory, and how the program ends on them.
const ON_BYTES: [(&str, &str, Status); 4] = [
    ("check", SESSION, Status::Done),
    ("replay --workers 2", SESSION, Status::Done),
    ("replay", "[\"zedbuf\"]\n", Status::Session),
    ("jump", SESSION, Status::Usage),
];

/// Tests a source and a sink that never fail, a source that fails, and runs on bytes.
pub fn test<R: Host>(rt: &R, tally: &mut Tally) {
    let is_right = is_read_to_its_end(rt, rt.alloc()) == Ok(true);
    tally.note(rt, "ends", "a source and a sink that never fail", is_right);
    let is_right = reads_as_said(rt.alloc()) == Ok(true);
    tally.note(rt, "ends", "a source whose third read fails", is_right);
    for (words, bytes, status) in ON_BYTES {
        let is_right = status_on(rt, rt.alloc(), words, bytes) == Ok(status);
        tally.note(rt, "bytes", words, is_right);
    }
}

// How the program ends on bytes in memory.
fn status_on<R: Threads + Wait + Sync>(
    rt: &R,
    alloc: Global,
    words: &str,
    bytes: &str,
) -> Result<Status, OutOfMemory> {
    let words = words_of(alloc, words)?;
    let bytes = bytes.as_bytes().to_vec(alloc)?;
    Ok(run_on_bytes(rt, alloc, words.as_slice(), bytes, &Passing))
}

// Whether a session is replayed where neither reads nor writes fail, and its source is at its end then.
fn is_read_to_its_end<R: Threads + Wait + Sync>(
    rt: &R,
    alloc: Global,
) -> Result<bool, OutOfMemory> {
    let words = words_of(alloc, "replay")?;
    let mut source = SureSource::new(SESSION.as_bytes().to_vec(alloc)?);
    let status = call(
        rt,
        alloc,
        words.as_slice(),
        &mut source,
        &mut SureSink,
        &Passing,
    );
    Ok(status == Status::Done && source.read(&mut [0u8; 4]) == Ok(0))
}

// Whether a source of five bytes, whose third read fails, answers to reads of up to four as it is to, and counts them.
fn reads_as_said(alloc: Global) -> Result<bool, OutOfMemory> {
    let mut source = MemSource::new(b"abcde".to_vec(alloc)?, 8, [3].to_vec(alloc)?);
    let mut first = [0u8; 4];
    let mut rest = [0u8; 4];
    let answers = [
        source.read(&mut first),
        source.read(&mut rest),
        source.read(&mut rest),
        source.read(&mut rest),
    ];
    let counts = source.counts();
    Ok(
        answers == [Ok(4), Ok(1), Err(Failed), Ok(0)]
            && first == *b"abcd"
            && (counts.given, counts.ends, counts.faults) == (5, 1, 1),
    )
}
