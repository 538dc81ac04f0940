//! Queries, and their answers.
ghost use Rattle.std.specs.Prelude.{◌≡◌, IfOk};

use crate::OutOfMemory;
use std::alloc::Global;
use std::thread::Threads;
use text_buffer::Snapshot;

/// A query that snapshots answer.
pub trait Query<A> {
    ghost use Rattle.std.specs.Prelude.{List};
    ghost use Rattle.std.specs.Thread.{IsSync};
    ghost use Rattle.op_model.specs.declared.operation.Operation.{Operation};

    /// The plain answer on what a replica has applied, the base first.
    ghost plain: { Self → List Operation → A };

    /// The answer on a snapshot. Threads of its own may share the handle.
    fn answer<R: Threads + Sync>(
        &self,
        rt: &R,
        alloc: Global,
        snapshot: &Snapshot,
    ) -> Result<A, OutOfMemory>
        requires sync { IsSync R.row }
        ensures { IfOk result (λ a. a ≡ plain self.now snapshot.now) };
}

/// The answer to a query, and the snapshot that it is on.
#[derive(Drop)]
pub struct Answer<Q, A> {
    /// The number of the query, from 1.
    pub number: u64,
    /// The index of the replica, from 0.
    pub index: u32,
    pub query: Q,
    pub snapshot: Snapshot,
    pub answer: A,
}
