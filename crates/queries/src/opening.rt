//! How the pairs of all replicas and the queues of all workers are made.
ghost use Rattle.std.specs.Prelude.{◌≡◌, ◌≤◌, ◌<◌, ◌+◌, ◌/◌, ◌^◌, [], ◌∷◌, ◌++◌, List, length, map, All, IfOk, OnOk};
ghost use Rattle.std.specs.List.{range_with_len};
ghost use Rattle.logbook.specs.Pages.{Named};
ghost use Rattle.queries.specs.Queue.{pairs_of};
ghost use Rattle.queries.specs.Dealt.{AllAt, AreEnds, HasAsked, pairs_in};
ghost use Rattle.queries.specs.Published.{AreLevel, AreTied, column, columns, published_lists, rows_of};

use crate::OutOfMemory;
use crate::desk::Desk;
use crate::dispatcher::Dispatcher;
use crate::open::open_queue;
use crate::publishers::Publishers;
use snapshot_pub::SnapReader;
use std::alloc::Global;
use std::sync::Wait;
use text_buffer::Snapshot;

/// Opens the pairs of all replicas, of which `firsts` is what they are at first, and a queue for each worker. Gives the dispatcher, for
/// at most `limit` queries, and the desks of the workers in their order.
///
/// # Errors
///
/// `OutOfMemory` alone. Some pairs are then open.
///
/// # Examples
///
/// `replay_beside` of `crates/session_replay/src/beside.rt`.
pub fn open_desks<R: Wait, Q: Drop>(
    rt: &R,
    alloc: Global,
    publishers: &mut Publishers,
    firsts: Vec<Snapshot>,
    limit: u64,
) -> Result<(Dispatcher<Q>, Vec<Desk<Q>>), OutOfMemory>
    requires some { 1 ≤ publishers.old.workers }
    requires none { (publishers.old.list ≡ []) × (publishers.old.sizes ≡ []) }
    requires limit { limit < 2 ^ 63 }
    ensures level { OnOk result (AreLevel publishers.new) }
    ensures published { OnOk result (published_lists publishers.new ≡ firsts.items) }
    ensures tied { IfOk result (λ r. AreTied r.0.inboxes publishers.new) }
    ensures ends { IfOk result (λ r. AreEnds r.0.inboxes r.1.items) }
    ensures count { IfOk result (λ r. length r.0.inboxes ≡ publishers.old.workers) }
    ensures asked { IfOk result (λ r. HasAsked r.0 [] × (r.0.limit ≡ limit)) }
{
    let workers = publishers.workers;
    let readers_by_worker = open_readers(rt, alloc, publishers, firsts)?;
    open_queues(alloc, workers, readers_by_worker, limit)
}

// The readers of each worker, replica by replica.
fn open_readers<R: Wait>(
    rt: &R,
    alloc: Global,
    publishers: &mut Publishers,
    firsts: Vec<Snapshot>,
) -> Result<Vec<Vec<SnapReader>>, OutOfMemory>
    requires some { 1 ≤ publishers.old.workers }
    requires none { (publishers.old.list ≡ []) × (publishers.old.sizes ≡ []) }
    ensures level { OnOk result (AreLevel publishers.new) }
    ensures workers { publishers.new.workers ≡ publishers.old.workers }
    ensures published { OnOk result (published_lists publishers.new ≡ firsts.items) }
    ensures count { IfOk result (λ v. length v.items ≡ publishers.old.workers) }
    ensures pairs { IfOk result (λ v. map (λ c. pairs_of c.items) v.items
        ≡ columns publishers.old.workers (rows_of publishers.new)) }
{
    let mut readers_by_worker = empty_readers(alloc, publishers.workers)?;
    let mut firsts = firsts.into_iter();
    while let Some(first) = firsts.next() {
        let readers = publishers.open(rt, alloc, first)?;
        deal(&mut readers_by_worker, readers)?;
    }
    Ok(readers_by_worker)
}

// No reader yet for each worker.
fn empty_readers(alloc: Global, workers: u32) -> Result<Vec<Vec<SnapReader>>, OutOfMemory>
    ensures count { IfOk result (λ v. length v.items ≡ workers) }
    ensures none { IfOk result (λ v. All (λ c. pairs_of c.items ≡ []) v.items) }
{
    let mut readers_by_worker = Vec::new(alloc);
    for _ in 0..workers {
        readers_by_worker.push(Vec::new(alloc))?;
    }
    Ok(readers_by_worker)
}

// Gives one reader to each worker.
fn deal(
    readers_by_worker: &mut Vec<Vec<SnapReader>>,
    readers: Vec<SnapReader>,
) -> Result<(), OutOfMemory>
    requires { length readers.items ≡ length readers_by_worker.old.items }
    ensures count { length readers_by_worker.new.items ≡ length readers_by_worker.old.items }
    ensures pairs { OnOk result ((rows : List (List Named))
        → AllAt (λ w c. pairs_of c.items ≡ column w rows) readers_by_worker.old.items
        → AllAt (λ w c. pairs_of c.items ≡ column w (rows ++ pairs_of readers.items ∷ []))
        readers_by_worker.new.items) }
{
    let mut readers = readers.into_iter();
    for worker in 0..readers_by_worker.len() {
        match readers.next() {
            Some(reader) => readers_by_worker[worker].push(reader)?,
            None => unreachable!(),
        }
    }
    Ok(())
}

// A queue for each worker.
fn open_queues<Q: Drop>(
    alloc: Global,
    workers: u32,
    readers_by_worker: Vec<Vec<SnapReader>>,
    limit: u64,
) -> Result<(Dispatcher<Q>, Vec<Desk<Q>>), OutOfMemory>
    requires some { 1 ≤ workers }
    requires limit { limit < 2 ^ 63 }
    requires count { length readers_by_worker.items ≡ workers }
    ensures pairs { IfOk result (λ r. pairs_in r.0.inboxes
        ≡ map (λ c. pairs_of c.items) readers_by_worker.items) }
    ensures ends { IfOk result (λ r. AreEnds r.0.inboxes r.1.items) }
    ensures count { IfOk result (λ r. length r.0.inboxes ≡ workers) }
    ensures asked { IfOk result (λ r. HasAsked r.0 [] × (r.0.limit ≡ limit)) }
{
    let room = (limit / workers as u64) as usize + 2;
    let mut inboxes = Vec::new(alloc);
    let mut desks = Vec::new(alloc);
    let mut readers_by_worker = readers_by_worker.into_iter();
    for worker in 0..workers {
        let Some(readers) = readers_by_worker.next() else {
            unreachable!()
        };
        let (inbox, desk) = open_queue(alloc, room, readers, worker)?;
        inboxes.push(inbox)?;
        desks.push(desk)?;
    }
    Ok((
        Dispatcher {
            inboxes,
            workers,
            count: 0,
            limit,
        },
        desks,
    ))
}
