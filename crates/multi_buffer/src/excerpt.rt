//! An excerpt: a part of a buffer's text.
ghost use Rattle.multi_buffer.specs.Lengths.{lengths_of_excerpt};

use crate::{Lengths, OutOfMemory};
use op_model::Anchor;
use std::alloc::Global;
use sum_tree::Item;

/// A part of a buffer's text, in bytes. Text that is inserted at one of its ends is in it.
#[derive(Clone, Copy, Debug, PartialEq, Eq)]
pub struct Excerpt {
    /// The number by which the caller knows the buffer.
    pub buffer: u32,
    /// Where it starts: a Left anchor, made when the buffer was synced last.
    pub left: Anchor,
    /// Where it ends: a Right anchor, made then too.
    pub right: Anchor,
    /// The place of the start in the buffer's text as it was synced last.
    pub start: u64,
    /// The place of the end, at least that of the start.
    pub end: u64,
}

impl Item for Excerpt {
    type Summary = Lengths;

    ghost sum_of = { lengths_of_excerpt };

    ghost admitted = { λ excerpt. tt };

    ghost is_single = { λ excerpt. tt };

    fn summary(&self, _alloc: Global) -> Result<Lengths, OutOfMemory> {
        Ok(Lengths {
            excerpts: 1,
            bytes: self.end.saturating_sub(self.start),
        })
    }

    fn copy(&self, _alloc: Global) -> Result<Excerpt, OutOfMemory> {
        Ok(*self)
    }
}
