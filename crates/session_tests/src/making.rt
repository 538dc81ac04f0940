//! Sessions that are made twice.
use crate::calls::{Ends, Passing, Run, Wanted, comes_to, sink_after};
use crate::tally::{Host, Tally};
use op_model::OutOfMemory;
use std::alloc::Global;
use std::sync::Wait;
use std::thread::Threads;

const MADE: &[&str] = &[
    "make --seed 5 --replicas 3 --edits 400",
    "make --seed=5 --replicas=3 --edits=4000",
];

const ENDS: Ends = Ends {
    status: 0,
    read: 8,
    write: 8,
    failing_read: 0,
    failing_write: 0,
    room: 1000,
};

/// Makes each session twice.
pub fn test<R: Host>(rt: &R, tally: &mut Tally) {
    for words in MADE {
        let is_right = is_made_again(rt, rt.alloc(), words) == Ok(true);
        tally.note(rt, "made twice", words, is_right);
    }
}

// Whether the session has one summary both times, which ends with equal texts.
fn is_made_again<R: Threads + Wait + Sync>(
    rt: &R,
    alloc: Global,
    words: &str,
) -> Result<bool, OutOfMemory> {
    let run = Run {
        words,
        input: b"",
        ends: ENDS,
    };
    let Some(sink) = sink_after(rt, alloc, &Passing, run)? else {
        return Ok(false);
    };
    let first = sink.bytes();
    Ok(
        first.ends_with(b"\ntexts equal\n".as_slice())
            && comes_to(rt, alloc, &Passing, run, Wanted::Bytes(first))?,
    )
}
