//! Where threads are held.
use std::sync::Wait;
use std::thread::Threads;

/// Where threads are held, by tests that say which of them goes first.
pub trait Gate: Sync {
    /// Called by a worker before it answers a job, and by the editor before it works a line.
    fn hold<R: Threads + Wait + Sync>(&self, rt: &R, worker: u32, job: u64);

    /// Called by a worker once it has answered a job.
    fn done<R: Threads + Wait + Sync>(&self, rt: &R, worker: u32, job: u64);
}
