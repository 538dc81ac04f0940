//! Literal search in a rope: all places where a needle stands, by one thread or by several.
#![tactic(auto)]

mod between;
mod fault;
mod find;
mod needle;
mod parts;
mod progress;

pub use fault::FindFault;
pub use find::{find_all, find_all_par};
pub use rope_chunks::OutOfMemory;
