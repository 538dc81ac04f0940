//! The two ends of a worker's queue, and what a worker gives back.
use crate::OutOfMemory;
use crate::query::Answer;
use crate::queue::{Queue, QueuePass};
use snapshot_pub::SnapReader;
use std::alloc::Global;
use std::marker::Model;
use std::sync::Arc;

/// What a worker begins with: the end of its queue at which it takes, and a reader of each replica, in their order. Contracts see
/// which queue it is, and the readers.
#[derive(Drop)]
pub struct Desk<Q> {
    pub(crate) queue: Arc<Queue<Q>, Global>,
    pub(crate) pass: QueuePass<Q>,
    pub(crate) readers: Vec<SnapReader>,
    pub(crate) number: u32,
}

impl<Q> Model for Desk<Q> {
    ghost use Rattle.queries.specs.States.{DeskState};

    ghost Value = { DeskState };

    ghost use Rattle.queries.specs.Fields.{desk_state, IsTaking};

    ghost view = { desk_state };

    ghost invariant = { IsTaking };
}

/// The end of a worker's queue at which its jobs are put. Contracts see which queue it is and its room, what was put, and the
/// readers of the worker.
#[derive(Drop)]
pub struct Inbox<Q> {
    pub(crate) queue: Arc<Queue<Q>, Global>,
    pub(crate) pass: QueuePass<Q>,
}

impl<Q> Model for Inbox<Q> {
    ghost use Rattle.queries.specs.States.{InboxState};

    ghost Value = { InboxState Q };

    ghost use Rattle.queries.specs.Fields.{inbox_state, IsSending};

    ghost view = { inbox_state };

    ghost invariant = { IsSending };
}

/// What a worker gives back: its answers, in the order of its jobs; none of them if an allocation failed. Contracts see
/// which queue it worked on, what it took, its readers and the answers.
#[derive(Drop)]
pub struct Done<Q, A> {
    pub(crate) pass: QueuePass<Q>,
    pub(crate) readers: Vec<SnapReader>,
    pub(crate) answers: Result<Vec<Answer<Q, A>>, OutOfMemory>,
}

impl<Q, A> Model for Done<Q, A> {
    ghost use Rattle.queries.specs.States.{DoneState};

    ghost Value = { DoneState Q A };

    ghost use Rattle.queries.specs.Fields.{done_state, HasTaken};

    ghost view = { done_state };

    ghost invariant = { HasTaken };
}
