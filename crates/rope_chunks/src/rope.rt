//! The rope.
ghost use Rattle.std.specs.Prelude.{◌≡◌, ◌≤◌, ◌^◌, length, [], IfOk};
ghost use Rattle.text_dims.specs.Summaries.{summary_of};
ghost use Rattle.text_dims.specs.Places.{end_place, places};
ghost use Rattle.rope_chunks.specs.Stops.{stop, pick_place, stop_place};
ghost use Rattle.std.specs.Str.{IsUtf8};

use crate::OutOfMemory;
use crate::at::At;
use crate::chunk::Chunk;
use crate::look::{Stop, stop_in};
use std::alloc::Global;
use std::marker::Model;
use sum_tree::SumTree;
use text_dims::{Place, TextSummary};
use tree_cursor::{Bias, Plain, Target, look_up};

/// A text as a tree of chunks of at most 128 bytes.
///
/// Contracts see a rope as its text, the list of its bytes in UTF-8. Its length is at most 2^40. Offsets, rows and columns count
/// from 0. Running out of memory is the one error; a rope that is changed is then as before.
///
/// # Examples
///
/// ```text
/// let mut rope = Rope::from_str(alloc, "one\ntwo")?;
/// let old = rope.share()?;
/// rope.replace(alloc, 0, 3, "three")?;
/// let word = rope.text_of(alloc, 6, 9)?;
/// let place = rope.offset_to_point(7);
/// let len = old.row_len(0);
/// ```
///
/// Now `rope` is `three`, an LF and `two`, and `old` as it was; `word` is `two`, `place` is row 1 with column 1, and `len` is 3. Each
/// call is used in the files of `crates/tree_tests/src`:
///
/// - `new`, `from_str`, `push_str` and `append`: `parts.rt`, in `rope_of`, `push_to` and `join_to`; `share`: `ropes.rt`, in `shared_len`
/// - `to_string` and `len`: `parts.rt`, in `has`; `chunks`: there, in `count`; `chunks_in`: `lent.rt`, in `lends`
/// - `summary`: `ropes.rt`, in `answer`
/// - `is_char_boundary`, `slice`, `text_of` and `replace`: `parts.rt`, in `bounds_alike`, `part_of`, `copy_of` and `replace`
/// - conversions: `ropes.rt`, in `convert`; `clip_offset`, `clip_point` and `row_len`: there, in `answer`
#[derive(Drop)]
pub struct Rope {
    pub(crate) chunks: SumTree<Chunk>,
}

impl Model for Rope {
    ghost use Rattle.std.specs.Prelude.{List, ℕ};

    ghost Value = { List ℕ };

    ghost use Rattle.std.specs.List.{concat};
    ghost use Rattle.rope_chunks.specs.Chunks.{AreChunks};

    ghost view = { λ rope. concat rope.chunks.items };

    ghost invariant = { λ rope. AreChunks rope.chunks.items };
}

impl Rope {
    /// The empty rope: one node. `OutOfMemory` is the one error.
    pub fn new(alloc: Global) -> Result<Rope, OutOfMemory>
        ensures { IfOk result (λ rope. rope ≡ []) }
    {
        let chunks = SumTree::new(alloc)?;
        Ok(Rope { chunks })
    }

    /// A rope of the same text, which shares all its chunks. Nothing is copied; `OutOfMemory`, the one error, is that the count
    /// of owners is refused.
    pub fn share(&self) -> Result<Rope, OutOfMemory>
        ensures { IfOk result (λ rope. rope ≡ self.now) }
    {
        let chunks = self.chunks.share()?;
        Ok(Rope { chunks })
    }

    /// What is counted of the text. Does not allocate.
    pub fn summary(&self) -> &TextSummary
        ensures { result.now ≡ summary_of self.now }
    {
        self.chunks.summary()
    }

    /// How many bytes the text has. Does not allocate.
    pub fn len(&self) -> u64
        ensures { result ≡ length self.now }
    {
        self.summary().len
    }

    /// Where a look-up in the text stops.
    pub(crate) fn stop<G: Target<At>>(&self, target: &G) -> Stop
        ensures { result ≡ stop (λ k. G.passes target.now k Bias.Left) (end_place [])
            (places self.now) }
    {
        let (chunk, start) = look_up(&self.chunks, At::start(), target, Bias::Left);
        match chunk {
            Some(chunk) => stop_in(chunk.as_str(), start.0, target),
            None => stop_in("", start.0, target),
        }
    }

    /// The place of the text that a target names, if there is one.
    pub(crate) fn place<G: Target<At>>(&self, target: &G) -> Option<Place>
        ensures { result ≡ pick_place (λ k. G.passes target.now k Bias.Right)
            (stop (λ k. G.passes target.now k Bias.Left) (end_place []) (places self.now)).here }
    {
        let stop = self.stop(target);
        match stop.here {
            Some(place) if !target.passed(At(place), Bias::Right) => Some(place),
            _ => None,
        }
    }

    /// The place of the text that a target names, or the last one before it where there is none.
    pub(crate) fn back<G: Target<At>>(&self, target: &G) -> Place
        ensures { result ≡ stop_place (λ k. G.passes target.now k Bias.Right)
            (stop (λ k. G.passes target.now k Bias.Left) (end_place []) (places self.now)) }
    {
        let stop = self.stop(target);
        match stop.here {
            Some(place) if !target.passed(At(place), Bias::Right) => place,
            _ => stop.before,
        }
    }

    /// What holds of every rope, for callers that see its text alone. It does nothing when it runs.
    pub fn known(&self)
        ensures text { IsUtf8 self.now }
        ensures few { length self.now ≤ 2 ^ 40 }
    {
        let _chunks = &self.chunks;
    }
}
