//! Places in the text of all excerpts, and in the texts of their buffers.
ghost use Rattle.std.specs.Prelude.{◌≡◌, ◌+◌, ◌≤◌};
ghost use Rattle.multi_buffer.specs.Places.{is_place, to_multi, to_source};
ghost use Rattle.op_model.specs.Edits.{is_boundary};
ghost use Rattle.op_model.specs.Shown.{text};
ghost use Rattle.multi_buffer.specs.Here.{offset_of, place_of, IsHere};
ghost use Rattle.multi_buffer.specs.Lengths.{offset_after};
ghost use Rattle.multi_buffer.specs.State.{history_of, size, AscendFrom, IsSynced};

use crate::making::is_boundary;
use crate::source::source_of;
use crate::{Excerpt, Lengths, MultiBuffer, Source};

/// A place in a buffer's text, by an excerpt that has it.
#[derive(Clone, Copy, Debug, PartialEq, Eq)]
pub struct Place {
    /// The index of the excerpt.
    pub excerpt: u32,
    /// The number of its buffer.
    pub buffer: u32,
    /// The offset in the buffer's text, in bytes.
    pub offset: u64,
}

// Whether an offset is a position of the text of an excerpt's buffer. One descent.
fn is_position(sources: &[Source], excerpt: &Excerpt, offset: u64) -> bool
    requires ascending { AscendFrom 0 sources.now }
    requires synced { IsSynced sources.now excerpt.now }
    ensures { result ≡ is_boundary (text (history_of excerpt.now.buffer sources.now)) offset }
{
    match source_of(sources, excerpt.buffer) {
        Some(source) => is_boundary(source.snapshot.text(), offset),
        None => unreachable!(),
    }
}

// Whether an offset is a position of the text of an excerpt's buffer, in the closed range of the excerpt. One descent.
fn is_place(sources: &[Source], excerpt: &Excerpt, offset: u64) -> bool
    requires ascending { AscendFrom 0 sources.now }
    requires synced { IsSynced sources.now excerpt.now }
    ensures { result ≡ is_place sources.now excerpt.now offset }
{
    excerpt.start <= offset && offset <= excerpt.end && is_position(sources, excerpt, offset)
}

// The place of an offset of the text of all excerpts in the excerpt that has it, after what lies before.
fn place_of(sources: &[Source], excerpt: &Excerpt, before: Lengths, offset: u64) -> Option<Place>
    requires ascending { AscendFrom 0 sources.now }
    requires synced { IsSynced sources.now excerpt.now }
    requires here { IsHere excerpt.now before }
    requires low { offset_after before ≤ offset }
    requires high { offset ≤ offset_after before + size excerpt.now }
    ensures { result ≡ place_of sources.now excerpt.now before offset }
{
    let place = excerpt.start + (offset - (before.bytes + before.excerpts));
    if !is_place(sources, excerpt, place) {
        return None;
    }
    Some(Place {
        excerpt: before.excerpts as u32,
        buffer: excerpt.buffer,
        offset: place,
    })
}

// The offset in the text of all excerpts of a place in an excerpt, after what lies before.
fn offset_of(sources: &[Source], excerpt: &Excerpt, before: Lengths, place: u64) -> Option<u64>
    requires ascending { AscendFrom 0 sources.now }
    requires synced { IsSynced sources.now excerpt.now }
    requires here { IsHere excerpt.now before }
    ensures { result ≡ offset_of sources.now excerpt.now before place }
{
    if !is_place(sources, excerpt, place) {
        return None;
    }
    Some(before.bytes + before.excerpts + (place - excerpt.start))
}

impl MultiBuffer {
    /// Where byte `o` of the text of all excerpts is in a buffer's text. The end of an excerpt is in it; the LF after
    /// it follows. `None` exactly where `o` is past the text or inside a character, or there is no excerpt.
    ///
    /// Two descents; does not allocate.
    pub fn to_source(&self, o: u64) -> Option<Place>
        ensures { result ≡ to_source self.now o }
    {
        self.excerpts.known();
        match self.excerpts.at_offset(o) {
            (Some(excerpt), before) => place_of(&self.sources, excerpt, before, o),
            (None, _) => None,
        }
    }

    /// Where byte `offset` of a buffer's text is in the text of all excerpts, by an excerpt that has it. `None` exactly
    /// where there is no such excerpt, or the offset is before its start, past its end or inside a character.
    ///
    /// Two descents; does not allocate.
    pub fn to_multi(&self, excerpt: u32, offset: u64) -> Option<u64>
        ensures { result ≡ to_multi self.now excerpt offset }
    {
        self.excerpts.known();
        match self.excerpts.at_index(u64::from(excerpt)) {
            (Some(found), before) => offset_of(&self.sources, found, before, offset),
            (None, _) => None,
        }
    }
}
