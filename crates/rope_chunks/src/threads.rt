//! That chunks and ropes may go to another thread and be shared with one.
use crate::chunk::Chunk;
use crate::lent::{Chunks, ChunksIn};
use crate::rope::Rope;

fn sends<X: Send>(_x: &X) {}

fn shares<X: Sync>(_x: &X) {}

/// Checked, and never run: chunks, ropes and what lends their chunks are `Send` and `Sync`.
pub fn crosses_threads(rope: &Rope, chunk: &Chunk, chunks: &Chunks<'_>, part: &ChunksIn<'_>) {
    sends(rope);
    shares(rope);
    sends(chunk);
    shares(chunk);
    sends(chunks);
    shares(chunks);
    sends(part);
    shares(part);
}
