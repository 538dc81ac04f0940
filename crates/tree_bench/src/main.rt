//! Works on what stands below the buffer, timed: `tree_bench WORK NUMBER..`, with `timed` as the last word for the
//! microseconds of each. Its answer is written in any case, so that scripts can compare it. A command line may name
//! several of these works:
//!
//! - `tree ITEMS`, `rope BYTES TIMES`, `search BYTES` and `folds COUNT`;
//! - `locators`, at places that the standard input names.
#![tactic(auto)]

mod folds;
mod naming;
mod rope;
mod tree;

use bench_reports::{Report, number, words};
use std::io;
use std::thread::Threads;

// Nothing is added to a tree or a rope that has as many items or bytes as this.
const MOST: u64 = 1 << 39;

// Does the work that the first word names, if it names one.
fn work<R: Threads + Sync>(rt: &R, report: &mut Report<'_>, words: &[String]) -> io::Result<()> {
    let size = number(words, 1);
    match words.first().map_or("", |word| word.as_str()) {
        "locators" => naming::works(report),
        "tree" => Ok(tree::works(report, size)?),
        "rope" => Ok(rope::works(report, size, number(words, 2))?),
        "search" => Ok(rope::searches(rt, report, size)?),
        "folds" => Ok(folds::works(report, size)?),
        _ => Ok(()),
    }
}

fn main(rt: HostRuntime) -> io::Result<()> {
    let words = words(&rt)?;
    let mut report = Report::new(&rt, &words)?;
    for at in 0..words.len() {
        work(&rt, &mut report, &words[at..])?;
    }
    report.written
}
