//! Replays a session from standard input, and writes its report to standard output.
#![tactic(auto)]

mod ends;

use ends::{Input, Output, Passing};
use session_io::ReadCounts;
use session_replay::{Status, run};
use std::process::ExitCode;
use std::{env, io};

fn main(rt: HostRuntime) -> ExitCode {
    let words = match words_of(&rt) {
        Ok(words) => words,
        Err(error) if error.kind() == io::ErrorKind::OutOfMemory => {
            return ExitCode::from(Status::Memory as u8);
        }
        // Words that are no text are no command words.
        Err(_) => Vec::new(rt.alloc()),
    };
    let mut input = Input {
        inner: rt.reader(),
        counts: ReadCounts::new(),
    };
    let mut output = Output {
        inner: io::writer(&rt),
        faults: 0,
    };
    let status = run(
        &rt,
        rt.alloc(),
        words.as_slice(),
        &mut input,
        &mut output,
        &Passing,
    );
    ExitCode::from(status as u8)
}

// The words after the program's name.
fn words_of(rt: &HostRuntime) -> io::Result<Vec<String>> {
    let mut words = Vec::new(rt.alloc());
    for word in env::args(rt)?.skip(1) {
        words.push(word)?;
    }
    Ok(words)
}
