//! Queries that go to workers in turn.
ghost use Rattle.std.specs.Prelude.{◌≡◌, ◌+◌, ◌<◌, [], ◌∷◌, ◌++◌, List, length, slice_index_or, slice_set, OnErr, OnOk};
ghost use Rattle.text_buffer.specs.Document.{IsFront};
ghost use Rattle.queries.specs.Asks.{Ask};
ghost use Rattle.queries.specs.Dealt.{AllAt, HasAsked, IsClosed, pairs_in, queues_of};
ghost use Rattle.queries.specs.Published.{AreLevel, AreTied, published_lists, rows_of};

use crate::OutOfMemory;
use crate::desk::Inbox;
use crate::publishers::Publishers;
use std::marker::Model;
use std::sync::Wait;
use text_buffer::Snapshot;

/// The inboxes of all workers, into which queries are put in turn: query q, from 1, goes to worker (q - 1) modulo their number. Contracts see
/// the inboxes, how many queries were put, and how many there may be.
///
/// # Examples
///
/// `ask`: `put`, `count` and `end`: `leave`, of `crates/session_replay/src/beside.rt`.
#[derive(Drop)]
pub struct Dispatcher<Q> {
    pub(crate) inboxes: Vec<Inbox<Q>>,
    pub(crate) workers: u32,
    pub(crate) count: u64,
    pub(crate) limit: u64,
}

impl<Q> Model for Dispatcher<Q> {
    ghost use Rattle.queries.specs.States.{DispatcherState};

    ghost Value = { DispatcherState Q };

    ghost view = { λ d. record { inboxes = d.inboxes.items; count = d.count; limit = d.limit } };

    ghost use Rattle.std.specs.Prelude.{◌≡◌, length};

    ghost invariant = { λ d. length d.inboxes.items ≡ d.workers };
}

impl<Q: Drop> Dispatcher<Q> {
    /// How many queries were put.
    pub fn count(&self) -> u64
        ensures { result ≡ self.now.count }
    {
        self.count
    }

    /// Asks a query of the replica at that place, whose snapshot this is, as the next one: publishes the snapshot where it has more
    /// than was last published, and puts the query with what was published into the inbox whose turn it is. May wait: for the reader of
    /// each pair of the replica to leave what was shown before, and for its slot in the queue. It waits for no answer.
    ///
    /// # Errors
    ///
    /// `OutOfMemory` alone. The query is then not put.
    pub fn ask<R: Wait>(
        &mut self,
        rt: &R,
        publishers: &mut Publishers,
        index: u32,
        snapshot: &Snapshot,
        query: Q,
    ) -> Result<(), OutOfMemory>
        requires index { index < length publishers.old.list }
        requires level { AreLevel publishers.old }
        requires tied { AreTied self.old.inboxes publishers.old }
        requires grows { IsFront (slice_index_or (published_lists publishers.old) index [])
            snapshot.now }
        requires asked { (asks : List (Ask Q)) × HasAsked self.old asks }
        requires more { self.old.count < self.old.limit }
        ensures level { OnOk result (AreLevel publishers.new) }
        ensures workers { publishers.new.workers ≡ publishers.old.workers }
        ensures rows { rows_of publishers.new ≡ rows_of publishers.old }
        ensures published { OnOk result (published_lists publishers.new
            ≡ slice_set (published_lists publishers.old) index snapshot.now) }
        ensures queues { queues_of self.new.inboxes ≡ queues_of self.old.inboxes }
        ensures pairs { pairs_in self.new.inboxes ≡ pairs_in self.old.inboxes }
        ensures limit { self.new.limit ≡ self.old.limit }
        ensures asked { OnOk result ((asks : List (Ask Q)) → HasAsked self.old asks
            → HasAsked self.new (asks ++ record {
              number = self.old.count + 1;
              index = index;
              query = query;
              history = snapshot.now;
            } ∷ [])) }
        ensures err { OnErr result (self.new ≡ self.old) }
    {
        publishers.publish(rt, index as usize, snapshot)?;
        self.put(rt, publishers, index, query)
    }

    // Puts the query into the inbox whose turn it is.
    fn put<R: Wait>(
        &mut self,
        rt: &R,
        publishers: &Publishers,
        index: u32,
        query: Q,
    ) -> Result<(), OutOfMemory>
        requires index { index < length publishers.now.list }
        requires level { AreLevel publishers.now }
        requires tied { AreTied self.old.inboxes publishers.now }
        requires asked { (asks : List (Ask Q)) × HasAsked self.old asks }
        requires more { self.old.count < self.old.limit }
        ensures queues { queues_of self.new.inboxes ≡ queues_of self.old.inboxes }
        ensures pairs { pairs_in self.new.inboxes ≡ pairs_in self.old.inboxes }
        ensures limit { self.new.limit ≡ self.old.limit }
        ensures asked { OnOk result ((asks : List (Ask Q)) → HasAsked self.old asks
            → HasAsked self.new (asks ++ record {
              number = self.old.count + 1;
              index = index;
              query = query;
              history = slice_index_or (published_lists publishers.now) index [];
            } ∷ [])) }
        ensures err { OnErr result (self.new ≡ self.old) }
    {
        let worker = (self.count % self.workers as u64) as u32;
        let number = self.count + 1;
        let publisher = &publishers.list[index as usize];
        self.inboxes[worker as usize].ask(rt, worker, publisher, number, index, query)?;
        self.count = number;
        Ok(())
    }

    /// Puts the end marks into all inboxes, and gives the inboxes. May wait for their slots in the queues, and for no answer.
    pub fn end<R: Wait>(self, rt: &R) -> Vec<Inbox<Q>>
        requires { (asks : List (Ask Q)) × HasAsked self asks }
        ensures queues { queues_of result.items ≡ queues_of self.inboxes }
        ensures pairs { pairs_in result.items ≡ pairs_in self.inboxes }
        ensures ended { (asks : List (Ask Q)) → HasAsked self asks
            → AllAt (IsClosed (length self.inboxes) asks) result.items }
    {
        let Dispatcher {
            mut inboxes,
            workers: _,
            count: _,
            limit: _,
        } = self;
        for inbox in inboxes.iter_mut() {
            inbox.end(rt);
        }
        inboxes
    }
}
