//! The lines after a header, kept in little room, and handed out one by one.
ghost use Rattle.std.specs.Prelude.{◌≡◌, ◌<◌, ◌^◌, [], ◌∷◌, length, IfOk, MatchOption};
ghost use Rattle.session_more.specs.Lines.{operation_count, query_count};

use crate::kept::KeptMore;
use crate::session::MoreLine;
use session_lines::OutOfMemory;
use std::alloc::Global;
use std::collections::VecDeque;
use std::marker::Model;

/// The lines after the header, seen as their list, each in the room that `session_lines` keeps it in.
#[derive(Drop)]
pub struct MoreLines {
    inner: Vec<KeptMore>,
}

impl Model for MoreLines {
    ghost use Rattle.std.specs.Prelude.{List};
    ghost use Rattle.session_more.specs.declared.session.MoreLine.{MoreLine};

    ghost Value = { List MoreLine };

    ghost view = { λ l. l.inner.items };
}

impl MoreLines {
    /// The list of the lines of a vector. Does not allocate.
    pub(crate) fn new(inner: Vec<KeptMore>) -> MoreLines
        ensures { result ≡ inner.items }
    {
        MoreLines { inner }
    }

    /// How many lines there are. O(1).
    pub fn len(&self) -> u64
        ensures len { result ≡ length self.now }
        ensures few { result < 2 ^ 63 }
    {
        self.inner.len() as u64
    }

    /// How many numbers of operation lines they take in a session of this many replicas, up to 2^64 - 1. Linear in
    /// the lines; does not allocate.
    pub fn operation_count(&self, replicas: u64) -> u64
        ensures { result ≡ operation_count replicas self.now }
    {
        let lines = self.inner.as_slice();
        let mut count = 0_u64;
        for line in lines {
            count = count.saturating_add(line.number_count(replicas));
        }
        count
    }

    /// How many of them are queries. Linear in the lines; does not allocate.
    pub fn query_count(&self) -> u64
        ensures { result ≡ query_count self.now }
    {
        let lines = self.inner.as_slice();
        let mut count = 0;
        for line in lines {
            count += line.is_query() as u64;
        }
        count
    }

    /// The lines, to be taken out one by one. O(1); does not allocate.
    pub fn into_queue(self) -> MoreQueue
        ensures { result ≡ self }
    {
        let MoreLines { inner } = self;
        MoreQueue {
            inner: VecDeque::from_vec(inner),
        }
    }
}

/// Lines that are taken out one by one, seen as the list of those that are left. Their room is freed as they leave it.
#[derive(Drop)]
pub struct MoreQueue {
    inner: VecDeque<KeptMore>,
}

impl Model for MoreQueue {
    ghost use Rattle.std.specs.Prelude.{List};
    ghost use Rattle.session_more.specs.declared.session.MoreLine.{MoreLine};

    ghost Value = { List MoreLine };

    ghost view = { λ l. l.inner.items };
}

impl MoreQueue {
    /// How many lines are left. O(1).
    pub fn len(&self) -> u64
        ensures len { result ≡ length self.now }
        ensures few { result < 2 ^ 63 }
    {
        self.inner.len() as u64
    }

    /// The first line, if there is one, and the lines after it. O(1) amortized. Allocates for the texts and lists of
    /// the line. The room of the lines is halved once half of it is empty, if that smaller block can be allocated.
    ///
    /// # Errors
    ///
    /// `OutOfMemory` if an allocation fails; the lines are then dropped.
    pub fn split_first(self, alloc: Global) -> Result<Option<(MoreLine, MoreQueue)>, OutOfMemory>
        ensures { IfOk result (λ first. MatchOption first (self ≡ []) (λ p. self ≡ p.0 ∷ p.1)) }
    {
        let MoreQueue { mut inner } = self;
        let Some(line) = inner.pop_front() else {
            return Ok(None);
        };
        free_half(&mut inner);
        Ok(Some((line.into_line(alloc)?, MoreQueue { inner })))
    }
}

// Halves the room, if half of it is empty.
fn free_half(lines: &mut VecDeque<KeptMore>)
    ensures { lines.new.items ≡ lines.old.items }
{
    if lines.len() <= lines.capacity() / 2 {
        lines.shrink_to_fit();
    }
}
