//! One entry sent, and one taken; a pass split in two, and two joined.
ghost use Rattle.std.specs.Prelude.{◌≡◌, ◌<◌, true, false, List, [], ◌∷◌, ◌++◌, length, MatchOption};
ghost use Rattle.crossbeam_queue.specs.Passes.{view, IsPassOf, ruled_capacity};
ghost use Rattle.queries.specs.Queue.{log, IsFor};
ghost use Rattle.queries.specs.declared.job.Entry.{Entry};

use crate::job::Entry;
use crate::queue::{Ends, Pop, Push, Queue, QueuePass, Readers, Rest, Roles};
use snapshot_pub::SnapReader;
use std::sync::Wait;

/// Sends an entry. The queue has room for all of them, so none comes back.
pub(crate) fn send<R: Wait, Q: Drop>(
    rt: &R,
    queue: &Queue<Q>,
    pass: &mut QueuePass<Q>,
    entry: Entry<Q>,
)
    requires queue { IsPassOf queue.now pass.old }
    requires editor { (view pass.old).sends ≡ true }
    requires own { IsFor (view pass.old).readers entry }
    requires room { length (view pass.old).sent < ruled_capacity queue.now }
    ensures queue { IsPassOf queue.now pass.new }
    ensures sent { view pass.new ≡ log true (view pass.old).takes
        ((view pass.old).sent ++ entry ∷ []) (view pass.old).taken (view pass.old).readers }
{
    match queue.push_as::<Push, R>(rt, pass, entry) {
        Ok(()) => {}
        Err(_) => unreachable!(),
    }
}

/// The entry at the front. `None` where the queue was empty.
pub(crate) fn take<R: Wait, Q>(
    rt: &R,
    queue: &Queue<Q>,
    pass: &mut QueuePass<Q>,
) -> Option<Entry<Q>>
    requires queue { IsPassOf queue.now pass.old }
    requires worker { (view pass.old).takes ≡ true }
    ensures queue { IsPassOf queue.now pass.new }
    ensures taken { MatchOption result (view pass.new ≡ view pass.old)
        (λ x. (view pass.new
        ≡ log (view pass.old).sends true (view pass.old).sent ((view pass.old).taken ++ x ∷ [])
        (view pass.old).readers) × IsFor (view pass.old).readers x) }
{
    queue.pop_as::<Pop, R>(rt, pass)
}

/// The worker's pass, split from the editor's before anything was sent.
pub(crate) fn split<B: Readers, Q>(
    queue: &Queue<Q>,
    pass: &mut QueuePass<Q>,
    _readers: &Vec<SnapReader>,
) -> QueuePass<Q>
    requires readers { B.readers ≡ _readers.now.items }
    requires queue { IsPassOf queue.now pass.old }
    requires fresh { view pass.old ≡ log true true [] [] [] }
    ensures queue { IsPassOf queue.now pass.new × IsPassOf queue.now result }
    ensures editor { view pass.new ≡ log true false [] [] _readers.now.items }
    ensures worker { view result ≡ log false true [] [] _readers.now.items }
{
    queue.another::<Roles<B>>(pass)
}

/// The worker's pass ends in the editor's: what was sent is what was taken, and what is left.
pub(crate) fn join<Q>(queue: &Queue<Q>, pass: QueuePass<Q>, worker: QueuePass<Q>)
    requires queue { IsPassOf queue.now pass × IsPassOf queue.now worker }
    requires editor { (view pass).sends ≡ true }
    requires taken { (view worker).takes ≡ true }
    ensures { (items : List (Entry Q)) × ((view pass).sent ≡ (view worker).taken ++ items) }
{
    let mut pass = pass;
    queue.absorb::<Ends>(&mut pass, worker);
    queue.learn_as::<Rest>(&mut pass);
}
