//! Records of operations, timed and compared with another reader. `wire_bench times BYTES` reads, writes and copies the
//! operations of a stream, and with `timed` as the last word it writes the microseconds of each. `wire_bench feeds` reads
//! streams that lines name. Both read the standard input.
#![tactic(auto)]

mod feeds;
mod times;

use std::{env, io};

fn number(word: Option<&String>) -> u32 {
    word.map_or(1, |word| word.parse().unwrap_or(1))
}

fn main(rt: HostRuntime) -> io::Result<()> {
    let words: Vec<String> = env::args(&rt)?.skip(1).collect(rt.alloc())?;
    let timed = words.last().is_some_and(|word| word.as_str() == "timed");
    match words.first().map_or("", |word| word.as_str()) {
        "times" => times::works(&rt, number(words.get(1)), timed),
        "feeds" => feeds::answers(&rt),
        _ => Ok(()),
    }
}
