//! Other text in the place of a range of a rope's text.
ghost use Rattle.std.specs.Prelude.{◌≡◌, ◌+◌, ◌-◌, ◌^◌, ◌≤◌, ◌++◌, length, take, drop, IfOk, OnOk, OnErr};
ghost use Rattle.std.specs.List.{concat};
ghost use Rattle.std.specs.Str.{IsCharBoundary};
ghost use Rattle.std.specs.String.{string_bytes};
ghost use Rattle.sum_tree.specs.Spliced.{splice_list};
ghost use Rattle.rope_chunks.specs.Chunks.{AreChunks};
ghost use Rattle.rope_chunks.specs.Spots.{IsChange, IsSpot};

use crate::OutOfMemory;
use crate::change::{Change, change_to, fill_one, make, one_chunk};
use crate::chunk::Chunk;
use crate::rope::Rope;
use crate::spot::{Spot, spot_of};
use std::alloc::Global;
use sum_tree::SumTree;

// Where an offset lies that is some bytes after another: in the same chunk, or not before it.
fn spot_behind<'a>(tree: &'a SumTree<Chunk>, first: &Spot<'a>, start: u64, bytes: u64) -> Spot<'a>
    requires chunks { AreChunks tree.now.items }
    requires first { IsSpot tree.now.items start first.now.index first.now.chunk.now
        first.now.place }
    requires within { start + bytes ≤ length (concat tree.now.items) }
    ensures spot { IsSpot tree.now.items
        (start + bytes) result.index result.chunk.now result.place }
    ensures order { first.now.index ≤ result.index }
{
    if bytes <= first.chunk.as_str().len() as u64 - first.place {
        Spot {
            index: first.index,
            chunk: first.chunk,
            place: first.place + bytes,
        }
    } else {
        spot_of(tree, start + bytes)
    }
}

// Three texts, one after the other.
fn join_texts(alloc: Global, front: &str, middle: &str, back: &str) -> Result<String, OutOfMemory>
    ensures { IfOk result (λ text. string_bytes text ≡ (front.now ++ middle.now) ++ back.now) }
{
    let bytes = front
        .len()
        .saturating_add(middle.len())
        .saturating_add(back.len());
    let mut text = String::with_capacity(alloc, bytes)?;
    text.push_str(front)?;
    text.push_str(middle)?;
    text.push_str(back)?;
    Ok(text)
}

// What puts a text in the place of a range of the chunks' text.
fn change_of(
    alloc: Global,
    tree: &SumTree<Chunk>,
    start: u64,
    end: u64,
    text: &str,
) -> Result<Change, OutOfMemory>
    requires chunks { AreChunks tree.now.items }
    requires start { IsCharBoundary (concat tree.now.items) start }
    requires end { IsCharBoundary (concat tree.now.items) end }
    requires order { start ≤ end }
    ensures { IfOk result (λ r. IsChange tree.now.items
        (splice_list start end text.now (concat tree.now.items)) r.from r.to r.chunks.items) }
{
    if tree.is_empty() {
        return Ok(change_to(alloc, tree, 0, 0, text)?);
    }
    let first = spot_of(tree, start);
    let last = spot_behind(tree, &first, start, end - start);
    let (front, _) = first.chunk.as_str().split_at(first.place as usize);
    let (_, back) = last.chunk.as_str().split_at(last.place as usize);
    if fill_one(front, text, back) {
        let chunks = one_chunk(alloc, front, text, back)?;
        return Ok(Change {
            from: first.index,
            to: last.index + 1,
            chunks,
        });
    }
    let whole = join_texts(alloc, front, text, back)?;
    Ok(change_to(alloc, tree, first.index, last.index + 1, whole.as_str())?)
}

impl Rope {
    /// Puts a text in the place of that from offset `start` up to `end`. Both are positions, `start` is at most `end`,
    /// and the new length is at most 2^40. If an allocation fails, the rope is as before.
    ///
    /// The chunks that the range touches are made again, and where they become small they are made one with a neighbour,
    /// if both fit one chunk. A short change is one descent for each end and one splice of the place: where that lies in
    /// one leaf of a tree that no other rope shares, no node is made. Else nodes are made along the paths to both ends.
    pub fn replace(
        &mut self,
        alloc: Global,
        start: u64,
        end: u64,
        text: &str,
    ) -> Result<(), OutOfMemory>
        requires start { IsCharBoundary self.old start }
        requires end { IsCharBoundary self.old end }
        requires order { start ≤ end }
        requires few { length self.old + length text.now ≤ 2 ^ 40 + (end - start) }
        ensures ok { OnOk result (self.new ≡ splice_list start end text.now self.old) }
        ensures err { OnErr result (self.new ≡ self.old) }
    {
        let change = change_of(alloc, &self.chunks, start, end, text)?;
        make(&mut self.chunks, alloc, change)?;
        Ok(())
    }
}
