//! A chunk: a piece of a text, which lies in the value itself.
ghost use Rattle.std.specs.Prelude.{◌≡◌, ◌+◌, ◌≤◌, ◌++◌, length, refl};
ghost use Rattle.text_dims.specs.Summaries.{summary_of};

use crate::OutOfMemory;
use arrayvec::ArrayString;
use std::alloc::Global;
use std::marker::Model;
use sum_tree::Item;
use text_dims::TextSummary;

/// How many bytes a chunk has room for.
pub const CHUNK_BYTES: usize = 128;

/// How many bytes a chunk has at least that has no room for the character after it.
pub const LEAST_BYTES: usize = 125;

/// A piece of a text, of at most 128 bytes, cut on character boundaries. Contracts see it as its bytes.
#[derive(Drop)]
pub struct Chunk {
    text: ArrayString<CHUNK_BYTES>,
}

impl Model for Chunk {
    ghost use Rattle.std.specs.Prelude.{List, ℕ};

    ghost Value = { List ℕ };

    ghost view = { λ chunk. chunk.text.bytes };
}

impl Chunk {
    /// The chunk of this text.
    pub fn new(text: &str) -> Chunk
        requires { length text.now ≤ 128 }
        ensures { result ≡ text.now }
    {
        let mut chunk = ArrayString::new();
        chunk.push_str(text);
        Chunk { text: chunk }
    }

    /// The chunk of two texts, one after the other.
    pub fn join(first: &str, second: &str) -> Chunk
        requires { length first.now + length second.now ≤ 128 }
        ensures { result ≡ first.now ++ second.now }
    {
        let mut chunk = ArrayString::new();
        chunk.push_str(first);
        chunk.push_str(second);
        Chunk { text: chunk }
    }

    /// The chunk's text.
    #[inline]
    pub fn as_str(&self) -> &str
        ensures value { result.now ≡ self.now }
        ensures few { length result.now ≤ 128 }
    {
        self.text.as_str()
    }
}

impl Item for Chunk {
    type Summary = TextSummary;

    ghost sum_of = { summary_of };

    ghost admitted = { λ chunk. (chunk, refl) };

    ghost is_single = { λ chunk. (chunk, refl) };

    fn summary(&self, _alloc: Global) -> Result<TextSummary, OutOfMemory> {
        Ok(TextSummary::of(self.text.as_str()))
    }

    fn copy(&self, _alloc: Global) -> Result<Chunk, OutOfMemory> {
        Ok(Chunk { text: self.text })
    }
}
