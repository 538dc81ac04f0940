//! Where a byte offset lies among a rope's chunks.
ghost use Rattle.std.specs.Prelude.{◌≡◌, ℕ, ◌+◌, ◌^◌, ◌<◌, ◌≤◌, List, length, take, drop, slice_index_or};
ghost use Rattle.std.specs.List.{concat};
ghost use Rattle.sum_tree.specs.Seen.{Seen};
ghost use Rattle.sum_tree.specs.Shape.{join_items};
ghost use Rattle.rope_chunks.specs.Spots.{IsSpot};

use crate::chunk::Chunk;
use crate::lent::Chunks;
use sum_tree::{Entry, Parts, SumTree};

/// The chunk in which an offset lies, that chunk's index, and the byte of it at which the offset is.
#[derive(Clone, Copy)]
pub(crate) struct Spot<'a> {
    pub(crate) index: u64,
    pub(crate) chunk: &'a Chunk,
    pub(crate) place: u64,
}

// The child in which an offset lies, how many chunks lie before it, and the offset there.
fn child_at(children: &[SumTree<Chunk>], offset: u64) -> (usize, u64, u64)
    requires least { 1 ≤ length children.now }
    requires short { length (join_items children.now) ≤ 2 ^ 40 }
    requires within { offset ≤ length (concat (join_items children.now)) }
    ensures child { result.0 < length children.now }
    ensures count { result.1 ≡ length (join_items (take result.0 children.now)) }
    ensures before { length (concat (join_items (take result.0 children.now))) + result.2 ≡ offset }
    ensures within { (d : Seen (List ℕ)) → result.2
        ≤ length (concat (slice_index_or children.now result.0 d).items) }
{
    let last = children.len() - 1;
    let mut count = 0;
    let mut rest = offset;
    for k in 0..last {
        let bytes = children[k].summary().len;
        if rest <= bytes {
            return (k, count, rest);
        }
        rest -= bytes;
        count += children[k].len();
    }
    (last, count, rest)
}

// The chunk of a leaf in which an offset lies, and the byte of it at which the offset is.
fn entry_at(entries: &[Entry<Chunk>], offset: u64) -> (usize, u64)
    requires least { 1 ≤ length entries.now }
    requires within { offset ≤ length (concat entries.now) }
    ensures entry { result.0 < length entries.now }
    ensures before { length (concat (take result.0 entries.now)) + result.1 ≡ offset }
    ensures within { (d : List ℕ) → result.1 ≤ length (slice_index_or entries.now result.0 d) }
{
    let last = entries.len() - 1;
    let mut rest = offset;
    for k in 0..last {
        let bytes = entries[k].sum().len;
        if rest <= bytes {
            return (k, rest);
        }
        rest -= bytes;
    }
    (last, rest)
}

/// Where an offset lies: in the first chunk that ends at it or past it. It is one plain descent.
pub(crate) fn spot_of(tree: &SumTree<Chunk>, offset: u64) -> Spot<'_>
    requires some { 1 ≤ length tree.now.items }
    requires within { offset ≤ length (concat tree.now.items) }
    ensures { IsSpot tree.now.items offset result.index result.chunk.now result.place }
{
    let (spot, _) = spot_and_rest(tree, offset);
    spot
}

/// Where an offset lies, and the chunks after that one. It is one plain descent.
pub(crate) fn spot_and_rest(tree: &SumTree<Chunk>, offset: u64) -> (Spot<'_>, Chunks<'_>)
    requires some { 1 ≤ length tree.now.items }
    requires within { offset ≤ length (concat tree.now.items) }
    ensures spot { IsSpot tree.now.items offset result.0.index result.0.chunk.now result.0.place }
    ensures rest { result.1 ≡ drop (result.0.index + 1) tree.now.items }
{
    tree.known();
    let mut node = tree;
    let mut before = 0;
    let mut rest = offset;
    loop {
        match node.parts() {
            Parts::Leaf(entries) => {
                let (k, place) = entry_at(entries, rest);
                let spot = Spot {
                    index: before + k as u64,
                    chunk: entries[k].item(),
                    place,
                };
                let chunks = Chunks {
                    chunks: tree,
                    entries: &entries[k + 1..],
                    next: before + entries.len() as u64,
                };
                return (spot, chunks);
            }
            Parts::Inner(children) => {
                let (k, count, place) = child_at(children, rest);
                before += count;
                rest = place;
                node = &children[k];
            }
        }
    }
}
