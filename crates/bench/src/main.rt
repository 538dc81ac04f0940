//! Works on buffers, timed: `bench WORK NUMBER..`, with `timed` as the last word for the microseconds of each. Its
//! answer is written in any case, so that scripts can compare it. A command line may name several of these works:
//!
//! - `snapshot BYTES`, `publish BYTES TIMES`, `forget COUNT`, `endings BYTES EDITS` and `folds BYTES COUNT`;
//! - `edits`, `undo`, `anchors` and `selections`, each with FRAGMENTS;
//! - `opened`, `taken` and `dropped`, each with COUNT [KIND], and `refused COUNT`.
#![tactic(auto)]

mod buffers;
mod carets;
mod endings;
mod foldings;
mod openings;
mod publish;

use bench_reports::{Report, number, words};
use openings::Way;
use std::io;
use std::sync::Wait;
use std::thread::Threads;

// Does the work that the first word names, if it names one.
fn work<R: Threads + Wait + Sync>(
    rt: &R,
    report: &mut Report<'_>,
    words: &[String],
) -> io::Result<()> {
    let (size, times) = (number(words, 1), number(words, 2));
    match words.first().map_or("", |word| word.as_str()) {
        "endings" => Ok(endings::works(report, size, times)?),
        "folds" => Ok(foldings::works(report, size, times)?),
        "opened" => Ok(openings::works(report, Way::Open, size, times)?),
        "taken" => Ok(openings::works(report, Way::Take, size, times)?),
        "dropped" => Ok(openings::works(report, Way::Drop, size, times)?),
        "refused" => Ok(openings::refusals(report, size)?),
        "publish" => Ok(publish::works(rt, report, size, times)?),
        work => Ok(buffers::works(report, work, size)?),
    }
}

fn main(rt: HostRuntime) -> io::Result<()> {
    let words = words(&rt)?;
    let mut report = Report::new(&rt, &words)?;
    for at in 0..words.len() {
        work(&rt, &mut report, &words[at..])?;
    }
    report.written
}
