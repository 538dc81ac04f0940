//! How many cases there were, and which of them failed.
use std::io::Print;
use std::process::ExitCode;
use std::sync::Wait;
use std::thread::Threads;

/// What cases are handed to start threads, to allocate and to write.
pub trait Host: Threads + Wait + Sync + AllocGlobal + Print {}

impl<R: Threads + Wait + Sync + AllocGlobal + Print> Host for R {}

/// Counts cases, and writes the name of each one that fails.
#[derive(Drop)]
pub struct Tally {
    cases: u64,
    failed: u64,
}

impl Tally {
    /// No cases.
    pub fn new() -> Tally {
        Tally {
            cases: 0,
            failed: 0,
        }
    }

    /// Counts a case, and writes its name and its part if it is not right.
    pub fn note(&mut self, rt: &impl Print, name: &str, part: &str, is_right: bool) {
        self.cases = self.cases.saturating_add(1);
        if !is_right {
            self.failed = self.failed.saturating_add(1);
            let _ = println!(rt; "failed: {name}: {part}");
        }
    }

    /// Writes how many cases there were and how many failed, and answers the program's status: 1 if any failed.
    pub fn sum_up(&self, rt: &impl Print) -> ExitCode {
        let is_written = println!(rt; "{} cases, {} failed", self.cases, self.failed).is_ok();
        if is_written && self.failed == 0 {
            ExitCode::SUCCESS
        } else {
            ExitCode::FAILURE
        }
    }
}
