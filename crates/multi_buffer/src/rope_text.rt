//! The text of all excerpts as a rope.
ghost use Rattle.std.specs.Prelude.{◌≡◌, ◌+◌, ◌++◌, ◌≤◌, ◌^◌, length, IfOk, OnOk};
ghost use Rattle.multi_buffer.specs.Breaks.{break_before};
ghost use Rattle.multi_buffer.specs.State.{excerpt_text, multi_text, rope_text, size, AscendFrom, IsSynced};

use crate::source::source_of;
use crate::{Excerpt, MultiBuffer, OutOfMemory, Source};
use rope_chunks::Rope;
use std::alloc::Global;

// The most bytes that a rope has.
const LONGEST_ROPE: u64 = 1 << 40;

// Adds the text of an excerpt, which shares its chunks.
fn append_excerpt(
    alloc: Global,
    shown: &mut Rope,
    sources: &[Source],
    excerpt: &Excerpt,
) -> Result<(), OutOfMemory>
    requires ascending { AscendFrom 0 sources.now }
    requires synced { IsSynced sources.now excerpt.now }
    requires few { length shown.old + size excerpt.now ≤ 2 ^ 40 }
    ensures { OnOk result (shown.new ≡ shown.old ++ excerpt_text sources.now excerpt.now) }
{
    match source_of(sources, excerpt.buffer) {
        Some(source) => {
            let text = source.snapshot.text();
            shown.append(alloc, text.slice(alloc, excerpt.start, excerpt.end)?)
        }
        None => unreachable!(),
    }
}

// Adds the LF that stands before an excerpt, unless it is the first.
fn append_break(alloc: Global, shown: &mut Rope, index: u64) -> Result<(), OutOfMemory>
    requires { length shown.old + length (break_before index) ≤ 2 ^ 40 }
    ensures { OnOk result (shown.new ≡ shown.old ++ break_before index) }
{
    if index > 0 {
        shown.push_str(alloc, "\n")?;
    }
    Ok(())
}

impl MultiBuffer {
    /// The text of all excerpts as a rope, which shares the chunks of the buffers' texts: each excerpt copies at most
    /// the chunks at its ends. `None` exactly where the text, whose length is [`MultiBuffer::len`], has more than 2^40
    /// bytes, the most that a rope has.
    ///
    /// O(n log m) for n excerpts of texts of m bytes.
    ///
    /// # Errors
    ///
    /// `OutOfMemory` if an allocation fails.
    pub fn rope(&self) -> Result<Option<Rope>, OutOfMemory>
        ensures { IfOk result (λ rope. rope ≡ rope_text self.now) }
    {
        if LONGEST_ROPE < self.len() {
            return Ok(None);
        }
        Ok(Some(self.whole_rope()?))
    }

    // The same where a rope can hold the text.
    fn whole_rope(&self) -> Result<Rope, OutOfMemory>
        requires { length (multi_text self.now) ≤ 2 ^ 40 }
        ensures { IfOk result (λ rope. rope ≡ multi_text self.now) }
    {
        let mut shown = Rope::new(self.alloc)?;
        for index in 0..self.excerpts.len() {
            let Some(excerpt) = self.excerpts.get(index) else {
                unreachable!()
            };
            append_break(self.alloc, &mut shown, index)?;
            append_excerpt(self.alloc, &mut shown, &self.sources, excerpt)?;
        }
        Ok(shown)
    }
}
