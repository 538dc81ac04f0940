//! The lines after a header, kept in little room, and handed out one by one.
ghost use Rattle.std.specs.Prelude.{◌≡◌, ◌<◌, ◌^◌, [], ◌∷◌, length, IfOk, MatchOption};
ghost use Rattle.session_lines.specs.Session.{operation_count, query_count};

use crate::OutOfMemory;
use crate::kept::KeptLine;
use crate::session::SessionLine;
use std::alloc::Global;
use std::collections::VecDeque;
use std::marker::Model;

/// The lines after the header, seen as their list. A line takes 48 bytes, and a block of its own only if it has an operation, a text of
/// more than 16 bytes, or not just one piece or number.
#[derive(Drop)]
pub struct SessionLines {
    inner: Vec<KeptLine>,
}

impl Model for SessionLines {
    ghost use Rattle.std.specs.Prelude.{List};
    ghost use Rattle.session_lines.specs.declared.session.SessionLine.{SessionLine};

    ghost Value = { List SessionLine };

    ghost view = { λ l. l.inner.items };
}

impl SessionLines {
    /// The list of the lines of a vector. Does not allocate.
    pub(crate) fn new(inner: Vec<KeptLine>) -> SessionLines
        ensures { result ≡ inner.items }
    {
        SessionLines { inner }
    }

    /// How many lines there are. O(1).
    pub fn len(&self) -> u64
        ensures len { result ≡ length self.now }
        ensures few { result < 2 ^ 63 }
    {
        self.inner.len() as u64
    }

    /// How many of them are operation lines. Linear in the lines; does not allocate.
    pub fn operation_count(&self) -> u64
        ensures { result ≡ operation_count self.now }
    {
        let lines = self.inner.as_slice();
        let mut count = 0;
        for line in lines {
            count += line.is_operation() as u64;
        }
        count
    }

    /// How many of them are queries. Linear in the lines; does not allocate.
    pub fn query_count(&self) -> u64
        ensures { result ≡ query_count self.now }
    {
        let lines = self.inner.as_slice();
        let mut count = 0;
        for line in lines {
            count += line.is_query() as u64;
        }
        count
    }

    /// The lines, to be taken out one by one. O(1); does not allocate.
    pub fn into_queue(self) -> LineQueue
        ensures { result ≡ self }
    {
        let SessionLines { inner } = self;
        LineQueue {
            inner: VecDeque::from_vec(inner),
        }
    }
}

/// Lines that are taken out one by one, seen as the list of those that are left. Their room is freed as they leave it.
#[derive(Drop)]
pub struct LineQueue {
    inner: VecDeque<KeptLine>,
}

impl Model for LineQueue {
    ghost use Rattle.std.specs.Prelude.{List};
    ghost use Rattle.session_lines.specs.declared.session.SessionLine.{SessionLine};

    ghost Value = { List SessionLine };

    ghost view = { λ l. l.inner.items };
}

impl LineQueue {
    /// How many lines are left. O(1).
    pub fn len(&self) -> u64
        ensures len { result ≡ length self.now }
        ensures few { result < 2 ^ 63 }
    {
        self.inner.len() as u64
    }

    /// The first line, if there is one, and the lines after it. O(1) amortized. Allocates for the texts and lists of the line. The
    /// room of the lines is halved once half of it is empty, if that smaller block can be allocated.
    ///
    /// # Errors
    ///
    /// `OutOfMemory` if an allocation fails; the lines are then dropped.
    pub fn split_first(self, alloc: Global) -> Result<Option<(SessionLine, LineQueue)>, OutOfMemory>
        ensures { IfOk result (λ first. MatchOption first (self ≡ []) (λ p. self ≡ p.0 ∷ p.1)) }
    {
        let LineQueue { mut inner } = self;
        let Some(line) = inner.pop_front() else {
            return Ok(None);
        };
        free_half(&mut inner);
        Ok(Some((line.into_line(alloc)?, LineQueue { inner })))
    }
}

// Halves the room, if half of it is empty.
fn free_half(lines: &mut VecDeque<KeptLine>)
    ensures { lines.new.items ≡ lines.old.items }
{
    if lines.len() <= lines.capacity() / 2 {
        lines.shrink_to_fit();
    }
}
