//! Other chunks in the place of a range of a rope's chunks.
ghost use Rattle.std.specs.Prelude.{◌≡◌, ◌+◌, ◌^◌, ◌<◌, ◌≤◌, ◌++◌, length, take, drop, All, IsTrue, IfOk, IfSome, OnOk, OnErr};
ghost use Rattle.std.specs.List.{concat};
ghost use Rattle.rope_chunks.specs.Chunks.{IsChunk, AreChunks};
ghost use Rattle.rope_chunks.specs.Spots.{IsChange, text_with};

use crate::OutOfMemory;
use crate::build::put;
use crate::chunk::{CHUNK_BYTES, Chunk};
use crate::pieces::cut_up;
use std::alloc::Global;
use sum_tree::SumTree;

// A chunk of fewer bytes is small.
const SMALL: usize = CHUNK_BYTES / 2;

/// A range of chunks, and the chunks that come in its place.
#[derive(Drop)]
pub(crate) struct Change {
    pub(crate) from: u64,
    pub(crate) to: u64,
    pub(crate) chunks: Vec<Chunk>,
}

// The chunk before the first i, where it and that many bytes fit one, and how many chunks then stand before it.
fn chunk_before(tree: &SumTree<Chunk>, i: u64, len: usize) -> (u64, &str)
    requires within { i ≤ length tree.now.items }
    requires few { len ≤ 128 }
    ensures index { result.0 ≤ i }
    ensures text { concat (take result.0 tree.now.items) ++ result.1.now
        ≡ concat (take i tree.now.items) }
    ensures few { length result.1.now + len ≤ 128 }
{
    if i > 0 {
        if let Some(chunk) = tree.get(i - 1) {
            let text = chunk.as_str();
            if text.len() + len <= CHUNK_BYTES {
                return (i - 1, text);
            }
        }
    }
    (i, "")
}

// The chunk after the first i, where it and that many bytes fit one, and how many chunks are passed then.
fn chunk_behind(tree: &SumTree<Chunk>, i: u64, len: usize) -> (u64, &str)
    requires within { i ≤ length tree.now.items }
    requires few { len ≤ 128 }
    ensures index { i ≤ result.0 }
    ensures within { result.0 ≤ length tree.now.items }
    ensures text { result.1.now ++ concat (drop result.0 tree.now.items)
        ≡ concat (drop i tree.now.items) }
    ensures few { length result.1.now + len ≤ 128 }
{
    tree.known();
    if let Some(chunk) = tree.get(i) {
        let text = chunk.as_str();
        if text.len() + len <= CHUNK_BYTES {
            return (i + 1, text);
        }
    }
    (i, "")
}

/// The chunk of three texts, or none where they are empty.
pub(crate) fn one_chunk(
    alloc: Global,
    front: &str,
    middle: &str,
    back: &str,
) -> Result<Vec<Chunk>, OutOfMemory>
    requires few { length front.now + length middle.now + length back.now ≤ 128 }
    ensures text { IfOk result (λ chunks. concat chunks.items
        ≡ (front.now ++ middle.now) ++ back.now) }
    ensures each { IfOk result (λ chunks. All IsChunk chunks.items) }
{
    let front = Chunk::join(front, middle);
    let chunk = Chunk::join(front.as_str(), back);
    let mut chunks = Vec::with_capacity(alloc, 1)?;
    if chunk.as_str().is_empty() {
        return Ok(chunks);
    }
    chunks.push(chunk)?;
    Ok(chunks)
}

/// Whether three texts make one chunk that is not small.
pub(crate) fn fill_one(front: &str, middle: &str, back: &str) -> bool
    requires front { length front.now ≤ 128 }
    requires back { length back.now ≤ 128 }
    ensures { IsTrue result → length front.now + length middle.now + length back.now ≤ 128 }
{
    if middle.len() > CHUNK_BYTES {
        return false;
    }
    let len = front.len() + middle.len() + back.len();
    len >= SMALL && len <= CHUNK_BYTES
}

// The halves of a text that needs two chunks, where each fits one.
fn halves(text: &str) -> Option<(&str, &str)>
    ensures { IfSome result (λ p. (p.0.now ++ p.1.now ≡ text.now) × IsChunk p.0.now
        × IsChunk p.1.now) }
{
    if text.len() <= CHUNK_BYTES {
        return None;
    }
    let (front, back) = text.split_at(text.floor_char_boundary(text.len() / 2 + 1));
    if front.len() > CHUNK_BYTES || back.len() > CHUNK_BYTES {
        return None;
    }
    Some((front, back))
}

// The chunks of a text: where it fits two, these are about as long.
fn cut_evenly(alloc: Global, text: &str) -> Result<Vec<Chunk>, OutOfMemory>
    ensures text { IfOk result (λ chunks. concat chunks.items ≡ text.now) }
    ensures each { IfOk result (λ chunks. All IsChunk chunks.items) }
{
    let mut chunks = Vec::new(alloc);
    if let Some((front, back)) = halves(text) {
        chunks.push(Chunk::new(front))?;
        chunks.push(Chunk::new(back))?;
        return Ok(chunks);
    }
    cut_up(&mut chunks, text)?;
    Ok(chunks)
}

/// What puts a text in the place of the chunks from `from` up to `to`. A small text is made one with the chunk before
/// it and the chunk after it, where they fit one.
pub(crate) fn change_to(
    alloc: Global,
    tree: &SumTree<Chunk>,
    from: u64,
    to: u64,
    text: &str,
) -> Result<Change, OutOfMemory>
    requires order { from ≤ to }
    requires within { to ≤ length tree.now.items }
    ensures { IfOk result (λ r. IsChange tree.now.items
        (text_with from to text.now tree.now.items) r.from r.to r.chunks.items) }
{
    if text.len() >= SMALL {
        let chunks = cut_evenly(alloc, text)?;
        return Ok(Change { from, to, chunks });
    }
    let (from, front) = chunk_before(tree, from, text.len());
    let (to, back) = chunk_behind(tree, to, front.len() + text.len());
    let chunks = one_chunk(alloc, front, text, back)?;
    Ok(Change { from, to, chunks })
}

/// Makes a change. If an allocation fails, the chunks are as before.
pub(crate) fn make(
    tree: &mut SumTree<Chunk>,
    alloc: Global,
    change: Change,
) -> Result<(), OutOfMemory>
    requires each { All IsChunk tree.old.items }
    requires order { change.from ≤ change.to }
    requires within { change.to ≤ length tree.old.items }
    requires new { All IsChunk change.chunks.items }
    requires few { length (text_with change.from change.to
        (concat change.chunks.items) tree.old.items) ≤ 2 ^ 40 }
    ensures text { OnOk result (concat tree.new.items
        ≡ text_with change.from change.to (concat change.chunks.items) tree.old.items) }
    ensures each { OnOk result (AreChunks tree.new.items) }
    ensures err { OnErr result (tree.new ≡ tree.old) }
{
    put(tree, alloc, change.from, change.to, change.chunks)?;
    Ok(())
}
