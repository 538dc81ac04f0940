//! The publishers of all replicas.
ghost use Rattle.std.specs.Prelude.{◌≡◌, ◌<◌, ◌≤◌, [], ◌∷◌, ◌++◌, length, map, replicate, slice_index_or, slice_set, IfOk, OnOk, vec_capacity};
ghost use Rattle.text_buffer.specs.Document.{IsFront};
ghost use Rattle.snapshot_pub.specs.States.{PublisherState};
ghost use Rattle.queries.specs.Queue.{pairs_of};
ghost use Rattle.queries.specs.Dealt.{told_lists, told_pairs};
ghost use Rattle.queries.specs.Published.{AreLevel, column, published_lists, rows_of};

use crate::OutOfMemory;
use crate::publishing::publish_new;
use snapshot_pub::{Publisher, SnapReader, Told, open_pairs};
use std::alloc::Global;
use std::marker::Model;
use std::sync::Wait;
use text_buffer::Snapshot;

/// The publishers of all replicas, in their order, each with a pair for every worker. Contracts see how many workers there are, the
/// publishers, and how many operations were last published of each. It is not `Drop`: end it by `close`.
///
/// # Examples
///
/// `new` and `close`: `report_beside`, `tell_all`: `tell_workers`, `sizes`: `leave`, of `crates/session_replay/src/beside.rt`.
/// [`open_desks`](crate::open_desks) opens the pairs by `open`, and [`Dispatcher::ask`](crate::Dispatcher::ask) publishes by `publish`.
pub struct Publishers {
    pub(crate) workers: u32,
    pub(crate) list: Vec<Publisher>,
    pub(crate) sizes: Vec<u64>,
}

impl Model for Publishers {
    ghost use Rattle.queries.specs.States.{PublishersState};

    ghost Value = { PublishersState };

    ghost view = { λ p. record {
      workers = p.workers;
      list = p.list.items;
      sizes = p.sizes.items;
    } };
}

impl Publishers {
    /// Of no replica yet.
    pub fn new(alloc: Global, workers: u32) -> Publishers
        ensures { result ≡ record { workers = workers; list = []; sizes = [] } }
    {
        Publishers {
            workers,
            list: Vec::new(alloc),
            sizes: Vec::new(alloc),
        }
    }

    /// Opens the pairs of one replica more, and publishes what it is at first. Gives their readers, in the order of the workers.
    ///
    /// # Errors
    ///
    /// `OutOfMemory` alone.
    pub fn open<R: Wait>(
        &mut self,
        rt: &R,
        alloc: Global,
        first: Snapshot,
    ) -> Result<Vec<SnapReader>, OutOfMemory>
        requires some { 1 ≤ self.old.workers }
        requires level { AreLevel self.old }
        ensures level { OnOk result (AreLevel self.new) }
        ensures workers { self.new.workers ≡ self.old.workers }
        ensures published { OnOk result (published_lists self.new
            ≡ published_lists self.old ++ first ∷ []) }
        ensures count { IfOk result (λ v. length v.items ≡ self.old.workers) }
        ensures pairs { IfOk result (λ v. rows_of self.new
            ≡ rows_of self.old ++ pairs_of v.items ∷ []) }
    {
        make_room(&mut self.list, &mut self.sizes, first.applied().len())?;
        let (publisher, readers) = open_pairs(rt, alloc, first, self.workers)?;
        self.list.push_reserved(publisher);
        Ok(readers)
    }

    /// Publishes the snapshot of the replica at that place to each of its pairs, where it has more than was last published.
    ///
    /// # Errors
    ///
    /// `OutOfMemory` alone. It is then published to some of the pairs.
    pub fn publish<R: Wait>(
        &mut self,
        rt: &R,
        index: usize,
        snapshot: &Snapshot,
    ) -> Result<(), OutOfMemory>
        requires index { index < length self.old.list }
        requires level { AreLevel self.old }
        requires grows { IsFront
            (slice_index_or (published_lists self.old) index []) snapshot.now }
        ensures level { OnOk result (AreLevel self.new) }
        ensures workers { self.new.workers ≡ self.old.workers }
        ensures pairs { rows_of self.new ≡ rows_of self.old }
        ensures published { OnOk result (published_lists self.new
            ≡ slice_set (published_lists self.old) index snapshot.now) }
    {
        let published = publish_new(
            rt,
            &mut self.list[index],
            self.workers,
            self.sizes[index],
            snapshot,
        )?;
        self.sizes[index] = published;
        Ok(())
    }

    /// What was last published to the pairs of a worker, replica by replica.
    ///
    /// # Errors
    ///
    /// `OutOfMemory` alone.
    pub fn tell_all(&self, alloc: Global, worker: u32) -> Result<Vec<Told>, OutOfMemory>
        requires worker { worker < self.now.workers }
        requires level { AreLevel self.now }
        ensures pairs { IfOk result (λ v. told_pairs v.items ≡ column worker (rows_of self.now)) }
        ensures lists { IfOk result (λ v. told_lists v.items ≡ published_lists self.now) }
    {
        let mut all = Vec::new(alloc);
        for publisher in &self.list {
            all.push(publisher.tell(worker)?)?;
        }
        Ok(all)
    }

    /// How many operations were last published of each replica.
    ///
    /// # Errors
    ///
    /// `OutOfMemory` alone.
    pub fn sizes(&self, alloc: Global) -> Result<Vec<u64>, OutOfMemory>
        ensures { IfOk result (λ v. v.items ≡ self.now.sizes) }
    {
        self.sizes.as_slice().to_vec(alloc)
    }

    /// Ends the writers of all pairs.
    pub fn close<R: Wait>(self, rt: &R) {
        let Publishers {
            workers: _,
            list,
            sizes: _,
        } = self;
        close_all(rt, list);
    }
}

// Room for one publisher more, and its size, which is put last.
fn make_room(list: &mut Vec<Publisher>, sizes: &mut Vec<u64>, size: u64) -> Result<(), OutOfMemory>
    ensures list { list.new.items ≡ list.old.items }
    ensures room { OnOk result (length list.new.items < vec_capacity list.new) }
    ensures sizes { OnOk result (sizes.new.items ≡ sizes.old.items ++ size ∷ []) }
{
    list.reserve(1)?;
    sizes.push(size)?;
    Ok(())
}

fn close_all<R: Wait>(rt: &R, mut list: Vec<Publisher>) {
    while let Some(publisher) = list.pop() {
        publisher.close(rt);
    }
    list.destroy_empty();
}
