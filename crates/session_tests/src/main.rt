//! Runs the cases of data/ and those that no file can hold, and writes which of them failed.
#![tactic(auto)]

mod beside;
mod calls;
mod case;
mod choices;
mod decoding;
mod ends;
mod failing;
mod files;
mod gates;
mod limits;
mod making;
mod pairs;
mod reading;
mod tally;
mod writing;

use std::process::ExitCode;
use tally::Tally;

fn main(rt: HostRuntime) -> ExitCode {
    let mut tally = Tally::new();
    files::test(&rt, &mut tally);
    decoding::test(&rt, &mut tally);
    reading::test(&rt, &mut tally);
    writing::test(&rt, &mut tally);
    ends::test(&rt, &mut tally);
    gates::test(&rt, &mut tally);
    pairs::test(&rt, &mut tally);
    beside::test(&rt, &mut tally);
    limits::test(&rt, &mut tally);
    failing::test(&rt, &mut tally);
    making::test(&rt, &mut tally);
    tally.sum_up(&rt)
}
