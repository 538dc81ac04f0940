//! A text cut into chunks.
ghost use Rattle.std.specs.Prelude.{◌≡◌, ◌+◌, ◌<◌, ◌≤◌, ◌++◌, ◌∷◌, [], length, All, OnOk, IfOk};
ghost use Rattle.std.specs.List.{concat};
ghost use Rattle.std.specs.Str.{IsUtf8};
ghost use Rattle.rope_chunks.specs.Chunks.{IsChunk};

use crate::OutOfMemory;
use crate::chunk::{CHUNK_BYTES, Chunk};
use std::alloc::Global;

/// How many chunks are made a tree at a time: those of a full tree of three levels, whose lists stay in the cache.
pub(crate) const BLOCK: usize = 12 * 12 * 12;

/// Cuts a text into chunks, each as full as the characters allow, and puts them after others.
pub(crate) fn cut_up(chunks: &mut Vec<Chunk>, text: &str) -> Result<(), OutOfMemory>
    requires { All IsChunk chunks.old.items }
    ensures text { OnOk result (concat chunks.new.items ≡ concat chunks.old.items ++ text.now) }
    ensures each { OnOk result (All IsChunk chunks.new.items) }
{
    let mut rest = text;
    while !rest.is_empty() {
        rest = push_piece(chunks, rest)?;
    }
    Ok(())
}

/// Cuts chunks, each as full as the characters allow, from the start of a text, at least one and no more than a block,
/// and puts them into an empty list. Returns the rest of the text.
pub(crate) fn cut_block<'a>(chunks: &mut Vec<Chunk>, text: &'a str) -> Result<&'a str, OutOfMemory>
    requires new { chunks.old.items ≡ [] }
    requires some { 0 < length text.now }
    ensures text { IfOk result (λ rest. concat chunks.new.items ++ rest.now ≡ text.now) }
    ensures each { IfOk result (λ _. All IsChunk chunks.new.items) }
    ensures rest { IfOk result (λ rest. IsUtf8 rest.now) }
    ensures shorter { IfOk result (λ rest. length rest.now < length text.now) }
{
    let mut rest = push_piece(chunks, text)?;
    while !rest.is_empty() && chunks.len() < BLOCK {
        rest = push_piece(chunks, rest)?;
    }
    Ok(rest)
}

// Puts as much of a text as a chunk has room for after other chunks, and returns the rest.
fn push_piece<'a>(chunks: &mut Vec<Chunk>, text: &'a str) -> Result<&'a str, OutOfMemory>
    requires each { All IsChunk chunks.old.items }
    requires some { 0 < length text.now }
    ensures text { IfOk result (λ rest. concat chunks.new.items ++ rest.now
        ≡ concat chunks.old.items ++ text.now) }
    ensures each { IfOk result (λ _. All IsChunk chunks.new.items) }
    ensures rest { IfOk result (λ rest. IsUtf8 rest.now) }
    ensures shorter { IfOk result (λ rest. length rest.now < length text.now) }
{
    let (piece, rest) = first_piece(text);
    chunks.push(Chunk::new(piece))?;
    Ok(rest)
}

// As much of a text as a chunk has room for, and the rest.
fn first_piece(text: &str) -> (&str, &str)
    requires { 0 < length text.now }
    ensures joined { text.now ≡ result.0.now ++ result.1.now }
    ensures piece { IsChunk result.0.now }
    ensures rest { IsUtf8 result.1.now }
    ensures shorter { length result.1.now < length text.now }
{
    text.split_at(text.floor_char_boundary(CHUNK_BYTES))
}

/// The chunks of two texts, one after the other, the first of which fits a chunk: it is filled from the second.
pub(crate) fn fill(alloc: Global, front: &str, text: &str) -> Result<Vec<Chunk>, OutOfMemory>
    requires some { 0 < length front.now }
    requires few { length front.now ≤ 128 }
    ensures text { IfOk result (λ chunks. concat chunks.items ≡ front.now ++ text.now) }
    ensures each { IfOk result (λ chunks. All IsChunk chunks.items) }
{
    let (piece, rest) = text.split_at(text.floor_char_boundary(CHUNK_BYTES - front.len()));
    let mut chunks = Vec::new(alloc);
    chunks.push(Chunk::join(front, piece))?;
    cut_up(&mut chunks, rest)?;
    Ok(chunks)
}
