//! A rope's chunks, lent one by one.
ghost use Rattle.std.specs.Prelude.{◌≡◌, ◌+◌, ◌<◌, ◌≤◌, ◌++◌, length, drop, slice_range};
ghost use Rattle.std.specs.Iterator.{YieldsFirstRef, item_count};
ghost use Rattle.std.specs.List.{All, concat};
ghost use Rattle.std.specs.Str.{IsCharBoundary};
ghost use Rattle.rope_chunks.specs.Chunks.{IsChunk};

use crate::chunk::Chunk;
use crate::rope::Rope;
use crate::spot::spot_and_rest;
use std::marker::Model;
use std::mem;
use sum_tree::{Entry, Parts, SumTree, child_at};

/// The texts of a rope's chunks, from the first to the last: one after the other they are the rope's text.
///
/// They are lent leaf by leaf, with one plain descent for each leaf; nothing is copied, and nothing allocated. Contracts see
/// the texts that are left.
#[derive(Drop)]
pub struct Chunks<'a> {
    pub(crate) chunks: &'a SumTree<Chunk>,
    // What is left of a leaf, and the index of the chunk that follows it.
    pub(crate) entries: &'a [Entry<Chunk>],
    pub(crate) next: u64,
}

impl<'a> Model for Chunks<'a> {
    ghost use Rattle.std.specs.Prelude.{List, ℕ, ◌++◌, drop};

    ghost Value = { List (List ℕ) };

    ghost view = { λ left. left.entries.now ++ drop left.next left.chunks.now.items };
}

impl<'a> Iterator for Chunks<'a> {
    type Item = &'a str;

    ghost next_gives = { YieldsFirstRef (λ left. left) };

    ghost remaining = { item_count (λ left. left) };

    fn next(&mut self) -> Option<&'a str> {
        match self.entries.split_first() {
            Some((entry, rest)) => {
                self.entries = rest;
                Some(entry.item().as_str())
            }
            None => {
                self.chunks.known();
                if self.next >= self.chunks.len() {
                    return None;
                }
                let entries = leaf_from(self.chunks, self.next);
                self.next += entries.len() as u64;
                self.entries = &entries[1..];
                Some(entries[0].item().as_str())
            }
        }
    }
}

// The texts of the chunks from a position on, of which the first is cut there. Contracts see the texts that are left.
#[derive(Drop)]
struct ChunksFrom<'a> {
    // What is left of the chunk in which the position lies, and the chunks after it.
    first: &'a str,
    rest: Chunks<'a>,
}

impl<'a> Model for ChunksFrom<'a> {
    ghost use Rattle.std.specs.Prelude.{List, ℕ};
    ghost use Rattle.rope_chunks.specs.Spots.{with_first};

    ghost Value = { List (List ℕ) };

    ghost view = { λ left. with_first left.first.now left.rest };
}

impl<'a> Iterator for ChunksFrom<'a> {
    type Item = &'a str;

    ghost next_gives = { YieldsFirstRef (λ left. left) };

    ghost remaining = { item_count (λ left. left) };

    fn next(&mut self) -> Option<&'a str> {
        if self.first.is_empty() {
            return self.rest.next();
        }
        Some(mem::replace(&mut self.first, ""))
    }
}

/// The texts of the chunks between two positions, of which the first and the last are cut there: one after the other they are
/// that part of the rope's text.
///
/// They are lent leaf by leaf, with one plain descent for each leaf; nothing is copied, and nothing allocated. Contracts see
/// the texts that are left.
#[derive(Drop)]
pub struct ChunksIn<'a> {
    chunks: ChunksFrom<'a>,
    // The number of bytes that are left.
    left: u64,
}

impl<'a> Model for ChunksIn<'a> {
    ghost use Rattle.std.specs.Prelude.{List, ℕ, ◌<◌};
    ghost use Rattle.std.specs.List.{concat};
    ghost use Rattle.std.specs.Str.{IsCharBoundary};
    ghost use Rattle.rope_chunks.specs.Spots.{texts_up_to};

    ghost Value = { List (List ℕ) };

    ghost view = { λ it. texts_up_to it.left it.chunks };

    ghost invariant = { λ it. 0 < it.left → IsCharBoundary (concat it.chunks) it.left };
}

impl<'a> Iterator for ChunksIn<'a> {
    type Item = &'a str;

    ghost next_gives = { YieldsFirstRef (λ left. left) };

    ghost remaining = { item_count (λ left. left) };

    fn next(&mut self) -> Option<&'a str> {
        if self.left == 0 {
            return None;
        }
        let text = self.chunks.next()?;
        let len = text.len() as u64;
        if len <= self.left {
            self.left -= len;
            return Some(text);
        }
        let (front, _) = text.split_at(self.left as usize);
        self.left = 0;
        Some(front)
    }
}

// What is left of a leaf from chunk `index` on.
fn leaf_from(tree: &SumTree<Chunk>, index: u64) -> &[Entry<Chunk>]
    requires { index < length tree.now.items }
    ensures some { 0 < length result.now }
    ensures rest { drop index tree.now.items
        ≡ result.now ++ drop (index + length result.now) tree.now.items }
{
    let mut node = tree;
    let mut rest = index;
    loop {
        match node.parts() {
            Parts::Leaf(entries) => return &entries[rest as usize..],
            Parts::Inner(children) => {
                let (k, i) = child_at(children, rest);
                node = &children[k];
                rest = i;
            }
        }
    }
}

impl Rope {
    /// The texts of the rope's chunks, in order.
    pub fn chunks(&self) -> Chunks<'_>
        ensures { concat result ≡ self.now }
    {
        Chunks {
            chunks: &self.chunks,
            entries: &[],
            next: 0,
        }
    }

    /// The texts of the chunks from offset `start` up to `end`, in bytes, the first and the last cut there. None is empty, and
    /// one after the other they are the text of that `slice`. Both are positions, and `start` is at most `end`.
    ///
    /// The call is one plain descent, O(log n), and the iterator needs one more for each further leaf. Neither allocates.
    ///
    /// # Examples
    ///
    /// ```text
    /// for text in rope.chunks_in(start, end) {
    ///     line.push_str(text)?;
    /// }
    /// ```
    pub fn chunks_in(&self, start: u64, end: u64) -> ChunksIn<'_>
        requires start { IsCharBoundary self.now start }
        requires end { IsCharBoundary self.now end }
        requires order { start ≤ end }
        ensures text { concat result ≡ slice_range self.now start end }
        ensures each { All IsChunk result }
    {
        ChunksIn {
            chunks: self.chunks_from(start),
            left: end - start,
        }
    }

    // The texts of the chunks from a position on, the first cut there. It is one plain descent.
    fn chunks_from(&self, start: u64) -> ChunksFrom<'_>
        requires { IsCharBoundary self.now start }
        ensures text { concat result ≡ drop start self.now }
        ensures each { All IsChunk result }
    {
        if self.chunks.is_empty() {
            return ChunksFrom {
                first: "",
                rest: Chunks {
                    chunks: &self.chunks,
                    entries: &[],
                    next: 0,
                },
            };
        }
        let (spot, rest) = spot_and_rest(&self.chunks, start);
        let (_, first) = spot.chunk.as_str().split_at(spot.place as usize);
        ChunksFrom { first, rest }
    }
}
