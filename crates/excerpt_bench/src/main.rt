//! Works on excerpts of several buffers, timed: `excerpt_bench BYTES COUNT`, with `timed` as the last word for the
//! microseconds of each. The answers are written in any case, so that scripts can compare them.
#![tactic(auto)]

mod desks;
mod works;

use bench_reports::{Report, number, words};
use std::io;

fn main(rt: HostRuntime) -> io::Result<()> {
    let words = words(&rt)?;
    let mut report = Report::new(&rt, &words)?;
    works::works(&mut report, number(&words, 0), number(&words, 1))?;
    report.written
}
