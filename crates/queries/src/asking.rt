//! What an editor puts into the queue of a worker.
ghost use Rattle.std.specs.Prelude.{◌≡◌, ◌<◌, [], length, slice_index_or, MatchResult};
ghost use Rattle.queries.specs.Queue.{IsFor};
ghost use Rattle.queries.specs.Asks.{HasPut, put_into};
ghost use Rattle.queries.specs.Asked.{IsOfPair};
ghost use Rattle.queries.specs.declared.job.Entry.{Entry};

use crate::OutOfMemory;
use crate::desk::Inbox;
use crate::job::{Entry, Job};
use crate::steps::send;
use snapshot_pub::Publisher;
use std::sync::Wait;

impl<Q: Drop> Inbox<Q> {
    // Puts an entry behind the others.
    fn put<R: Wait>(&mut self, rt: &R, entry: Entry<Q>)
        requires own { IsFor self.old.readers entry }
        requires room { length self.old.sent < self.old.room }
        ensures { self.new ≡ put_into self.old entry }
    {
        send(rt, &self.queue, &mut self.pass, entry);
    }

    /// Puts query `number` of the replica at place `index`, with what was last published to the pair that the inbox's worker,
    /// `worker`, has there. May wait for its slot in the queue, and for no answer.
    ///
    /// # Errors
    ///
    /// `OutOfMemory` alone. Nothing is then put.
    pub(crate) fn ask<R: Wait>(
        &mut self,
        rt: &R,
        worker: u32,
        publisher: &Publisher,
        number: u64,
        index: u32,
        query: Q,
    ) -> Result<(), OutOfMemory>
        requires worker { worker < length publisher.now.published }
        requires pair { IsOfPair self.old index worker publisher.now }
        requires room { length self.old.sent < self.old.room }
        ensures { MatchResult result (λ _. HasPut self.old self.new
            (record {
              number = number;
              index = index;
              query = query;
              history = slice_index_or publisher.now.published worker [];
            }))
            (λ _. self.new ≡ self.old) }
    {
        let told = publisher.tell(worker)?;
        let job = Job {
            number,
            index,
            query,
            told,
        };
        self.put(rt, Entry::Job(job));
        Ok(())
    }

    /// Puts the end mark. May wait for its slot in the queue, and for no answer.
    pub(crate) fn end<R: Wait>(&mut self, rt: &R)
        requires { length self.old.sent < self.old.room }
        ensures { self.new ≡ put_into self.old Entry.End }
    {
        self.put(rt, Entry::End);
    }
}
