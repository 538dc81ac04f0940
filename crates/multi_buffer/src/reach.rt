//! How far members reach: their buffers, and their places in the texts of these.
ghost use Rattle.std.specs.Prelude.{◌≡◌, Some};
ghost use Rattle.multi_buffer.specs.Members.{no_reach, join, add_reach, stay, AlwaysFits, AnyReach, StaysHere};
ghost use Rattle.multi_buffer.specs.MemberLaws.{reach_laws, stay_laws, buffer_parts, greater_parts, meeting_parts};

use crate::OutOfMemory;
use crate::parts::Part;
use std::alloc::Global;
use sum_tree::Summary;
use tree_cursor::{Dimension, Keep, Moves, Plain};

/// The least and the greatest buffer of some members, the least start and the greatest end of them.
#[derive(Clone, Copy, Debug, PartialEq, Eq)]
pub(crate) struct Bounds {
    pub(crate) first: u32,
    pub(crate) last: u32,
    pub(crate) start: u64,
    pub(crate) end: u64,
}

/// The bounds of a run of members; none where the run is empty.
#[derive(Clone, Copy, Debug, PartialEq, Eq)]
pub(crate) struct Reach {
    pub(crate) bounds: Option<Bounds>,
}

// The bounds of two runs.
fn join(a: Option<Bounds>, b: Option<Bounds>) -> Option<Bounds>
    ensures { result ≡ join a b }
{
    match (a, b) {
        (None, b) => b,
        (a, None) => a,
        (Some(a), Some(b)) => Some(Bounds {
            first: a.first.min(b.first),
            last: a.last.max(b.last),
            start: a.start.min(b.start),
            end: a.end.max(b.end),
        }),
    }
}

impl Summary for Reach {
    ghost empty = { no_reach };

    ghost op = { add_reach };

    ghost admits = { AnyReach };

    ghost fits = { AnyReach };

    ghost single = { AnyReach };

    ghost laws = { reach_laws };

    fn zero(_alloc: Global) -> Reach {
        Reach { bounds: None }
    }

    fn add(&mut self, _alloc: Global, other: &Reach) -> Result<(), OutOfMemory> {
        self.bounds = join(self.bounds, other.bounds);
        Ok(())
    }
}

/// No place: for cursors that are asked for indexes alone.
#[derive(Clone, Copy)]
pub(crate) struct NoPlace;

impl Plain for NoPlace {
    type Value = u64;

    ghost plain = { λ p. 0 };

    ghost later = { StaysHere };
}

impl Moves<Reach> for NoPlace {
    ghost moved = { stay };

    ghost fits = { AlwaysFits };

    ghost laws = { stay_laws };
}

impl<'a> Dimension<'a, Reach> for NoPlace {
    fn try_add(self, _reach: &'a Reach) -> Option<NoPlace> {
        Some(self)
    }
}

/// Keeps the members of a buffer.
#[derive(Drop)]
pub(crate) struct OfBuffer {
    pub(crate) buffer: u32,
}

impl Keep<Reach> for OfBuffer {
    ghost use Rattle.multi_buffer.specs.Members.{holds_buffer};

    ghost keeps = { λ k r. holds_buffer k.buffer r.bounds };

    ghost parts = { λ k a b f g h. buffer_parts k.buffer a b h };

    fn keep(&self, reach: &Reach) -> bool {
        match reach.bounds {
            None => false,
            Some(bounds) => bounds.first <= self.buffer && self.buffer <= bounds.last,
        }
    }
}

/// Keeps the members of buffers that are greater than one.
#[derive(Drop)]
pub(crate) struct OfGreater {
    pub(crate) buffer: u32,
}

impl Keep<Reach> for OfGreater {
    ghost use Rattle.multi_buffer.specs.Members.{holds_greater};

    ghost keeps = { λ k r. holds_greater k.buffer r.bounds };

    ghost parts = { λ k a b f g h. greater_parts k.buffer a b h };

    fn keep(&self, reach: &Reach) -> bool {
        match reach.bounds {
            None => false,
            Some(bounds) => self.buffer < bounds.last,
        }
    }
}

/// Keeps the members of a part's buffer that have a place in common with the part.
#[derive(Drop)]
pub(crate) struct Meeting {
    pub(crate) part: Part,
}

impl Keep<Reach> for Meeting {
    ghost use Rattle.multi_buffer.specs.Members.{holds_meeting};

    ghost keeps = { λ k r. holds_meeting k.part r.bounds };

    ghost parts = { λ k a b f g h. meeting_parts k.part a b h };

    fn keep(&self, reach: &Reach) -> bool {
        match reach.bounds {
            None => false,
            Some(bounds) => {
                bounds.first <= self.part.buffer
                    && self.part.buffer <= bounds.last
                    && bounds.start <= self.part.end
                    && self.part.start <= bounds.end
            }
        }
    }
}
