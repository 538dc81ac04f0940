//! Parts of a rope.
ghost use Rattle.std.specs.Prelude.{◌≡◌, ◌↔◌, ◌≤◌, length, take, drop, slice_range, IsTrue, IfOk, IfSome};
ghost use Rattle.std.specs.List.{concat};
ghost use Rattle.std.specs.Str.{IsCharBoundary};
ghost use Rattle.std.specs.String.{string_bytes};
ghost use Rattle.rope_chunks.specs.Chunks.{AreChunks};

use crate::OutOfMemory;
use crate::change::{change_to, make};
use crate::chunk::Chunk;
use crate::rope::Rope;
use crate::spot::spot_of;
use std::alloc::Global;
use sum_tree::SumTree;

// The chunks up to an offset.
fn up_to(alloc: Global, tree: &SumTree<Chunk>, end: u64) -> Result<SumTree<Chunk>, OutOfMemory>
    requires chunks { AreChunks tree.now.items }
    requires end { IsCharBoundary (concat tree.now.items) end }
    ensures text { IfOk result (λ t. concat t.items ≡ take end (concat tree.now.items)) }
    ensures chunks { IfOk result (λ t. AreChunks t.items) }
{
    if tree.is_empty() {
        return Ok(tree.share()?);
    }
    let spot = spot_of(tree, end);
    let (piece, _) = spot.chunk.as_str().split_at(spot.place as usize);
    let mut front = tree.take_front(alloc, spot.index + 1)?;
    let change = change_to(alloc, &front, spot.index, spot.index + 1, piece)?;
    make(&mut front, alloc, change)?;
    Ok(front)
}

// The chunks from an offset on.
fn from_on(alloc: Global, tree: &SumTree<Chunk>, start: u64) -> Result<SumTree<Chunk>, OutOfMemory>
    requires chunks { AreChunks tree.now.items }
    requires start { IsCharBoundary (concat tree.now.items) start }
    ensures text { IfOk result (λ t. concat t.items ≡ drop start (concat tree.now.items)) }
    ensures chunks { IfOk result (λ t. AreChunks t.items) }
{
    if tree.is_empty() {
        return Ok(tree.share()?);
    }
    let spot = spot_of(tree, start);
    let (_, piece) = spot.chunk.as_str().split_at(spot.place as usize);
    let mut back = tree.drop_front(alloc, spot.index)?;
    let change = change_to(alloc, &back, 0, 1, piece)?;
    make(&mut back, alloc, change)?;
    Ok(back)
}

// The text from one offset up to another, where it lies in one chunk.
fn text_in_chunk(tree: &SumTree<Chunk>, start: u64, end: u64) -> Option<&str>
    requires chunks { AreChunks tree.now.items }
    requires start { IsCharBoundary (concat tree.now.items) start }
    requires end { IsCharBoundary (concat tree.now.items) end }
    requires order { start ≤ end }
    ensures { IfSome result (λ text. text.now ≡ slice_range (concat tree.now.items) start end) }
{
    if tree.is_empty() {
        return None;
    }
    let last = spot_of(tree, end);
    let bytes = end - start;
    if last.place < bytes {
        return None;
    }
    let first = last.place - bytes;
    Some(&last.chunk.as_str()[first as usize..last.place as usize])
}

impl Rope {
    /// Whether the text may be cut at a byte offset: that is at most its length, and not inside a character. It is one
    /// plain descent, and does not allocate.
    pub fn is_char_boundary(&self, offset: u64) -> bool
        ensures { IsTrue result ↔ IsCharBoundary self.now offset }
    {
        if offset > self.len() {
            return false;
        }
        if self.chunks.is_empty() {
            return true;
        }
        let spot = spot_of(&self.chunks, offset);
        spot.chunk.as_str().is_char_boundary(spot.place as usize)
    }

    /// The part of the text from offset `start` up to `end`. Both are positions, and `start` is at most `end`.
    ///
    /// Chunks that lie within the part are shared in whole subtrees. With h the height of the tree, about 2 h nodes are
    /// made for each end, and the chunks that the ends cut are copied in part; the length does not matter.
    /// The rope stays as it is, and `OutOfMemory` is the one error.
    pub fn slice(&self, alloc: Global, start: u64, end: u64) -> Result<Rope, OutOfMemory>
        requires start { IsCharBoundary self.now start }
        requires end { IsCharBoundary self.now end }
        requires order { start ≤ end }
        ensures { IfOk result (λ rope. rope ≡ slice_range self.now start end) }
    {
        let front = up_to(alloc, &self.chunks, end)?;
        let chunks = from_on(alloc, &front, start)?;
        Ok(Rope { chunks })
    }

    /// The part of the text from offset `start` up to `end`, copied. Both are positions, and `start` is at most `end`.
    ///
    /// Where the part lies in one chunk, this is one plain descent, and only the copy allocates. Else the part is first
    /// made as a rope, at the cost of `slice`. It fails only if an allocation fails, and the rope stays as it is.
    pub fn text_of(&self, alloc: Global, start: u64, end: u64) -> Result<String, OutOfMemory>
        requires start { IsCharBoundary self.now start }
        requires end { IsCharBoundary self.now end }
        requires order { start ≤ end }
        ensures { IfOk result (λ text. string_bytes text ≡ slice_range self.now start end) }
    {
        match text_in_chunk(&self.chunks, start, end) {
            Some(text) => Ok(String::from_str(alloc, text)?),
            None => self.slice(alloc, start, end)?.to_string(alloc),
        }
    }
}
