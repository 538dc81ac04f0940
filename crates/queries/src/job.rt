//! What an editor gives a worker.
use snapshot_pub::Told;

/// A query of a replica, with what was told of the pair that its worker has there.
#[derive(Drop)]
pub struct Job<Q> {
    /// The number of the query, from 1.
    pub number: u64,
    /// The index of the replica, from 0.
    pub index: u32,
    pub query: Q,
    pub told: Told,
}

/// What a worker's queue holds: jobs, and behind the last of them the end mark.
#[derive(Drop)]
pub enum Entry<Q> {
    Job(Job<Q>),
    End,
}
