//! A rope: a text as a tree of chunks, with positions in bytes, UTF-16 units and rows.
#![tactic(auto)]

mod at;
mod build;
mod change;
mod chunk;
mod clips;
mod cut;
mod lent;
mod look;
mod masks;
mod pieces;
mod positions;
mod replace;
mod rope;
mod rows;
mod spot;
mod targets;
mod threads;

pub use chunk::Chunk;
pub use lent::{Chunks, ChunksIn};
pub use masks::Masks;
pub use rope::Rope;
pub use sum_tree::OutOfMemory;
pub use threads::crosses_threads;
