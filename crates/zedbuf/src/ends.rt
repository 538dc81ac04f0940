//! The real input and output, and the gate that passes at once.
ghost use Rattle.std.specs.Prelude.{None};

use session_io::{Failed, ReadCounts, Sink, Source};
use session_replay::Gate;
use std::io::{Read, Write};
use std::sync::Wait;
use std::thread::Threads;

/// A reader, and what it has counted.
#[derive(Drop)]
pub struct Input<R: Read> {
    pub inner: R,
    pub counts: ReadCounts,
}

impl<R: Read> Source for Input<R> {
    ghost left = { λ s. R.remaining s.inner };

    ghost given = { λ s. s.counts.given };

    ghost ends = { λ s. s.counts.ends };

    ghost faults = { λ s. s.counts.faults };

    fn read(&mut self, into: &mut [u8]) -> Result<usize, Failed> {
        match self.inner.read(into) {
            Ok(count) => {
                self.counts.count_read(into.len(), count);
                Ok(count)
            }
            Err(_) => {
                self.counts.count_failure();
                Err(Failed)
            }
        }
    }
}

/// A writer, and how often it failed.
#[derive(Drop)]
pub struct Output<W: Write> {
    pub inner: W,
    pub faults: u64,
}

impl<W: Write> Sink for Output<W> {
    ghost written = { λ _. None };

    ghost faults = { λ s. s.faults };

    // That a nonempty piece was not taken is a failure too.
    fn write(&mut self, piece: &[u8]) -> Result<usize, Failed> {
        match self.inner.write(piece) {
            Ok(count) if count > 0 || piece.is_empty() => Ok(count),
            _ => {
                self.faults = self.faults.saturating_add(1);
                Err(Failed)
            }
        }
    }
}

/// A gate that holds nobody.
pub struct Passing;

impl Gate for Passing {
    fn hold<R: Threads + Wait + Sync>(&self, _rt: &R, _worker: u32, _job: u64) {}

    fn done<R: Threads + Wait + Sync>(&self, _rt: &R, _worker: u32, _job: u64) {}
}
