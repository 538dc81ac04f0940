//! A copy-on-write B-tree, generic over its items and their summaries.
#![tactic(auto)]

mod around;
mod continuation;
mod count;
mod cut;
mod entry;
mod exchange;
mod grow;
mod here;
mod keyed;
mod list;
mod parts;
mod read;
mod splice;
mod steps;
mod threads;
mod traits;
mod tree;

pub use continuation::{Continuation, Nothing};
pub use count::Count;
pub use entry::Entry;
pub use exchange::Exchange;
pub use list::list_of_one;
pub use parts::Parts;
pub use read::child_at;
pub use std::alloc::AllocError as OutOfMemory;
pub use steps::Steps;
pub use threads::crosses_threads;
pub use traits::{Item, KeyedItem, Summary};
pub use tree::SumTree;
