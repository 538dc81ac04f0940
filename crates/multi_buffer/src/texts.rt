//! The text of all excerpts.
ghost use Rattle.std.specs.Prelude.{◌≡◌, ◌++◌, ◌≤◌, slice_range, IfOk, OnOk, string_bytes};
ghost use Rattle.std.specs.Str.{IsCharBoundary};
ghost use Rattle.multi_buffer.specs.Breaks.{break_before};
ghost use Rattle.multi_buffer.specs.State.{excerpt_text, multi_text, AscendFrom, IsSynced};

use crate::source::source_of;
use crate::{Excerpt, MultiBuffer, OutOfMemory, Source};
use rope_chunks::Rope;

// Adds a part of a text, chunk by chunk.
fn push_part(shown: &mut String, text: &Rope, from: u64, to: u64) -> Result<(), OutOfMemory>
    requires start { IsCharBoundary text.now from }
    requires end { IsCharBoundary text.now to }
    requires order { from ≤ to }
    ensures { OnOk result (string_bytes shown.new
        ≡ string_bytes shown.old ++ slice_range text.now from to) }
{
    for chunk in text.chunks_in(from, to) {
        shown.push_str(chunk)?;
    }
    Ok(())
}

// Adds the text of an excerpt.
fn push_excerpt(
    shown: &mut String,
    sources: &[Source],
    excerpt: &Excerpt,
) -> Result<(), OutOfMemory>
    requires ascending { AscendFrom 0 sources.now }
    requires synced { IsSynced sources.now excerpt.now }
    ensures { OnOk result (string_bytes shown.new
        ≡ string_bytes shown.old ++ excerpt_text sources.now excerpt.now) }
{
    match source_of(sources, excerpt.buffer) {
        Some(source) => push_part(shown, source.snapshot.text(), excerpt.start, excerpt.end),
        None => unreachable!(),
    }
}

// Adds the LF that stands before an excerpt, unless it is the first.
fn push_break(shown: &mut String, index: u64) -> Result<(), OutOfMemory>
    ensures { OnOk result (string_bytes shown.new
        ≡ string_bytes shown.old ++ break_before index) }
{
    if index > 0 {
        shown.push_str("\n")?;
    }
    Ok(())
}

impl MultiBuffer {
    /// The text of all excerpts, in their order, with one LF between two. It is copied chunk by chunk.
    ///
    /// # Errors
    ///
    /// `OutOfMemory` if an allocation fails.
    pub fn text(&self) -> Result<String, OutOfMemory>
        ensures { IfOk result (λ t. string_bytes t ≡ multi_text self.now) }
    {
        let mut shown = String::with_capacity(self.alloc, self.len() as usize)?;
        for index in 0..self.excerpts.len() {
            let Some(excerpt) = self.excerpts.get(index) else {
                unreachable!()
            };
            push_break(&mut shown, index)?;
            push_excerpt(&mut shown, &self.sources, excerpt)?;
        }
        Ok(shown)
    }
}
