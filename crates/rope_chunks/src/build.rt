//! How ropes grow.
ghost use Rattle.std.specs.Prelude.{◌≡◌, ◌+◌, ◌-◌, ◌<◌, ◌≤◌, ◌^◌, ◌++◌, length, take, slice_get, Some, All, IfOk, OnOk, OnErr};
ghost use Rattle.std.specs.List.{concat};
ghost use Rattle.std.specs.Str.{IsUtf8};
ghost use Rattle.std.specs.String.{string_bytes};
ghost use Rattle.sum_tree.specs.Spliced.{splice_list};
ghost use Rattle.rope_chunks.specs.Chunks.{IsChunk, AreChunks};

use crate::OutOfMemory;
use crate::chunk::{CHUNK_BYTES, Chunk, LEAST_BYTES};
use crate::pieces::{BLOCK, cut_block, cut_up, fill};
use crate::rope::Rope;
use std::alloc::Global;
use sum_tree::SumTree;

impl Rope {
    /// The rope of a text, in full chunks. The text has at most 2^40 bytes. The time grows with its length alone;
    /// `OutOfMemory` is the one error.
    pub fn from_str(alloc: Global, text: &str) -> Result<Rope, OutOfMemory>
        requires { length text.now ≤ 2 ^ 40 }
        ensures { IfOk result (λ rope. rope ≡ text.now) }
    {
        let mut chunks = SumTree::new(alloc)?;
        let mut rest = text;
        while !rest.is_empty() {
            rest = push_block(&mut chunks, alloc, rest)?;
        }
        Ok(Rope { chunks })
    }

    /// Puts a text at the end. The rope's bytes and the text's are at most 2^40 together. The last chunk is filled before a new one
    /// is begun. It is one walk down the end of the tree for a short text, and the time grows with the length of a long one. It
    /// fails only if an allocation fails; the rope is then as before.
    pub fn push_str(&mut self, alloc: Global, text: &str) -> Result<(), OutOfMemory>
        requires { length self.old + length text.now ≤ 2 ^ 40 }
        ensures ok { OnOk result (self.new ≡ self.old ++ text.now) }
        ensures err { OnErr result (self.new ≡ self.old) }
    {
        let (kept, chunks) = growth(alloc, &self.chunks, text)?;
        let len = self.chunks.len();
        put(&mut self.chunks, alloc, kept, len, chunks)?;
        Ok(())
    }
}

impl Rope {
    /// Puts another rope's text at the end, and shares its chunks. Both have at most 2^40 bytes together. The last chunk and the
    /// other's first are made one where they fit. Nodes are made where the two trees meet, a few for each level, however long
    /// the texts are. It fails only if an allocation fails; the rope is then as before, and `other` is dropped.
    pub fn append(&mut self, alloc: Global, other: Rope) -> Result<(), OutOfMemory>
        requires { length self.old + length other ≤ 2 ^ 40 }
        ensures ok { OnOk result (self.new ≡ self.old ++ other) }
        ensures err { OnErr result (self.new ≡ self.old) }
    {
        let chunks = chain(alloc, &self.chunks, &other.chunks)?;
        self.chunks = chunks;
        Ok(())
    }

    /// The text, copied. `OutOfMemory` is the one error.
    pub fn to_string(&self, alloc: Global) -> Result<String, OutOfMemory>
        ensures { IfOk result (λ text. string_bytes text ≡ self.now) }
    {
        let mut text = String::with_capacity(alloc, self.len() as usize)?;
        for chunk in self.chunks() {
            text.push_str(chunk)?;
        }
        Ok(text)
    }
}

// Puts the first block of a text after some chunks, and returns the rest of the text.
fn push_block<'a>(
    chunks: &mut SumTree<Chunk>,
    alloc: Global,
    text: &'a str,
) -> Result<&'a str, OutOfMemory>
    requires each { All IsChunk chunks.old.items }
    requires some { 0 < length text.now }
    requires few { length (concat chunks.old.items) + length text.now ≤ 2 ^ 40 }
    ensures text { IfOk result (λ rest. concat chunks.new.items ++ rest.now
        ≡ concat chunks.old.items ++ text.now) }
    ensures each { IfOk result (λ _. All IsChunk chunks.new.items) }
    ensures rest { IfOk result (λ rest. IsUtf8 rest.now) }
    ensures shorter { IfOk result (λ rest. length rest.now < length text.now) }
{
    let mut pieces = Vec::with_capacity(alloc, BLOCK.min(text.len() / LEAST_BYTES + 1))?;
    let rest = cut_block(&mut pieces, text)?;
    let block = tree_of(alloc, pieces)?;
    join(chunks, alloc, block)?;
    Ok(rest)
}

// The chunks of two texts, one after the other. The chunks at the seam are made one where they fit.
fn chain(
    alloc: Global,
    front: &SumTree<Chunk>,
    back: &SumTree<Chunk>,
) -> Result<SumTree<Chunk>, OutOfMemory>
    requires front { AreChunks front.now.items }
    requires back { AreChunks back.now.items }
    requires few { length (concat front.now.items) + length (concat back.now.items) ≤ 2 ^ 40 }
    ensures text { IfOk result (λ tree. concat tree.items
        ≡ concat front.now.items ++ concat back.now.items) }
    ensures each { IfOk result (λ tree. All IsChunk tree.items) }
{
    if let (Some(last), Some(first)) = (front.last(), back.first()) {
        if last.as_str().len() + first.as_str().len() <= CHUNK_BYTES {
            return fuse(alloc, front, back, last, first);
        }
    }
    let mut whole = front.share()?;
    join(&mut whole, alloc, back.share()?)?;
    Ok(whole)
}

// The same, where the chunks at the seam fit one.
fn fuse(
    alloc: Global,
    front: &SumTree<Chunk>,
    back: &SumTree<Chunk>,
    last: &Chunk,
    first: &Chunk,
) -> Result<SumTree<Chunk>, OutOfMemory>
    requires front { AreChunks front.now.items }
    requires back { AreChunks back.now.items }
    requires last { slice_get front.now.items (length front.now.items - 1) ≡ Some last.now }
    requires first { slice_get back.now.items 0 ≡ Some first.now }
    requires small { length last.now + length first.now ≤ 128 }
    requires few { length (concat front.now.items) + length (concat back.now.items) ≤ 2 ^ 40 }
    ensures text { IfOk result (λ tree. concat tree.items
        ≡ concat front.now.items ++ concat back.now.items) }
    ensures each { IfOk result (λ tree. All IsChunk tree.items) }
{
    let mut whole = with_seam(alloc, front, last, first)?;
    join(&mut whole, alloc, back.drop_front(alloc, 1)?)?;
    Ok(whole)
}

// The chunks of a text with one more after them, which is made one with the last.
fn with_seam(
    alloc: Global,
    front: &SumTree<Chunk>,
    last: &Chunk,
    next: &Chunk,
) -> Result<SumTree<Chunk>, OutOfMemory>
    requires front { AreChunks front.now.items }
    requires last { slice_get front.now.items (length front.now.items - 1) ≡ Some last.now }
    requires next { IsChunk next.now }
    requires small { length last.now + length next.now ≤ 128 }
    requires few { length (concat front.now.items) + length next.now ≤ 2 ^ 40 }
    ensures text { IfOk result (λ tree. concat tree.items ≡ concat front.now.items ++ next.now) }
    ensures each { IfOk result (λ tree. All IsChunk tree.items) }
{
    let mut seam = Vec::new(alloc);
    seam.push(Chunk::join(last.as_str(), next.as_str()))?;
    let len = front.len();
    let mut whole = front.share()?;
    put(&mut whole, alloc, len - 1, len, seam)?;
    Ok(whole)
}

// Puts a tree after another.
fn join(front: &mut SumTree<Chunk>, alloc: Global, back: SumTree<Chunk>) -> Result<(), OutOfMemory>
    requires { AreChunks (front.old.items ++ back.items) }
    ensures ok { OnOk result (front.new.items ≡ front.old.items ++ back.items) }
    ensures err { OnErr result (front.new ≡ front.old) }
{
    front.append(alloc, back)
}

// The tree of some chunks.
fn tree_of(alloc: Global, chunks: Vec<Chunk>) -> Result<SumTree<Chunk>, OutOfMemory>
    requires { AreChunks chunks.items }
    ensures { IfOk result (λ tree. tree.items ≡ chunks.items) }
{
    SumTree::from_list(alloc, chunks)
}

// Puts chunks in the place of those of a range.
pub(crate) fn put(
    tree: &mut SumTree<Chunk>,
    alloc: Global,
    from: u64,
    to: u64,
    chunks: Vec<Chunk>,
) -> Result<(), OutOfMemory>
    requires order { from ≤ to }
    requires within { to ≤ length tree.old.items }
    requires chunks { AreChunks (splice_list from to chunks.items tree.old.items) }
    ensures ok { OnOk result (tree.new.items ≡ splice_list from to chunks.items tree.old.items) }
    ensures err { OnErr result (tree.new ≡ tree.old) }
{
    tree.splice(alloc, from, to, chunks)
}

// How many chunks stay where a text is put at the end, and those that follow them then.
fn growth(
    alloc: Global,
    tree: &SumTree<Chunk>,
    text: &str,
) -> Result<(u64, Vec<Chunk>), OutOfMemory>
    requires { All IsChunk tree.now.items }
    ensures within { IfOk result (λ r. r.0 ≤ length tree.now.items) }
    ensures text { IfOk result (λ r. concat (take r.0 tree.now.items) ++ concat r.1.items
        ≡ concat tree.now.items ++ text.now) }
    ensures each { IfOk result (λ r. All IsChunk r.1.items) }
{
    match tree.last() {
        None => {
            let mut chunks = Vec::new(alloc);
            cut_up(&mut chunks, text)?;
            Ok((0, chunks))
        }
        Some(last) => {
            let chunks = fill(alloc, last.as_str(), text)?;
            Ok((tree.len() - 1, chunks))
        }
    }
}
