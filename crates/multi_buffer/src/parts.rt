//! Where the changes of the text of all excerpts go in the texts of their buffers.
ghost use Rattle.std.specs.Prelude.{◌≡◌, ◌+◌, ◌≤◌};
ghost use Rattle.op_model.specs.Edits.{is_boundary};
ghost use Rattle.multi_buffer.specs.Splits.{part_in, sharing};
ghost use Rattle.multi_buffer.specs.Groups.{part_here};
ghost use Rattle.multi_buffer.specs.Here.{IsHere};
ghost use Rattle.multi_buffer.specs.Lengths.{offset_after};
ghost use Rattle.multi_buffer.specs.State.{multi_text, size};

use crate::{Excerpt, Lengths, MultiBuffer};
use op_model::Pieces;

/// A range of a buffer's text, by the excerpt whose closed range holds it.
#[derive(Clone, Copy, Debug, PartialEq, Eq)]
pub(crate) struct Part {
    pub(crate) excerpt: u32,
    pub(crate) buffer: u32,
    pub(crate) start: u64,
    pub(crate) end: u64,
}

/// Pieces of a buffer's text, for `edit`.
#[derive(Drop)]
pub struct BufferPieces {
    /// The number of the buffer.
    pub buffer: u32,
    /// The pieces in the order of their starts, in bytes.
    pub pieces: Pieces,
}

// The range `start..end` of the text of all excerpts in the text of the excerpt that has its start, after what lies
// before, if it has its end too.
fn part_here(excerpt: &Excerpt, lengths: Lengths, start: u64, end: u64) -> Option<Part>
    requires here { IsHere excerpt.now lengths }
    requires low { offset_after lengths ≤ start }
    requires high { start ≤ offset_after lengths + size excerpt.now }
    ensures { result ≡ part_here excerpt.now lengths start end }
{
    let before = lengths.bytes + lengths.excerpts;
    let len = end.saturating_sub(before);
    if excerpt.end - excerpt.start < len {
        return None;
    }
    Some(Part {
        excerpt: lengths.excerpts as u32,
        buffer: excerpt.buffer,
        start: excerpt.start + (start - before),
        end: excerpt.start + len,
    })
}

impl MultiBuffer {
    // The range `start..end` of the text of all excerpts in its buffer's text, if one excerpt holds both ends. One
    // descent.
    pub(crate) fn part_in(&self, start: u64, end: u64) -> Option<Part>
        ensures { result ≡ part_in 0 self.now.excerpts start end }
    {
        self.excerpts.known();
        match self.excerpts.at_offset(start) {
            (Some(excerpt), before) => part_here(excerpt, before, start, end),
            (None, _) => None,
        }
    }

    // Whether a character of the text of all excerpts begins at an offset, or the text ends there. Two descents.
    pub(crate) fn is_position(&self, offset: u64) -> bool
        ensures { result ≡ is_boundary (multi_text self.now) offset }
    {
        if self.excerpts.len() == 0 {
            return offset == 0;
        }
        self.to_source(offset).is_some()
    }

    // The least other excerpt of the part's buffer that has a place in common with the part. A descent for each that
    // has.
    pub(crate) fn sharing(&self, part: Part) -> Option<u32>
        ensures { result ≡ sharing 0 part self.now.excerpts }
    {
        self.excerpts.sharing(part)
    }
}
