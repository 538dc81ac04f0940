//! Fragments: runs of cells of one edit that have the same status, as the items of a tree, with the places among them
//! and an index that finds the fragment of a cell.
//!
//! A fragment is stored inline, without allocations of its own, if its id has at most three runs of equal digits, it
//! has at most two deletions, and its undos and its summary concern at most four replicas.
#![tactic(auto)]

mod deleted_run;
mod dimensions;
mod fragment;
mod index;
mod index_entry;
mod laws;
mod recent;
mod spans;
mod stamps;

pub use deleted_run::DeletedRun;
pub use dimensions::{ById, Full, FullAt, Visible};
pub use fragment::{Fragment, FragmentSummary};
pub use index::InsertionIndex;
pub use index_entry::{IndexEntry, IndexKey};
pub use laws::{base_stands, entry_takes_its_place, index_finds_fragments, places_count_cells};
pub use spans::{INLINE_SPANS, Sight, Span, Spans};
pub use stamps::{INLINE_STAMPS, Stamps};
pub use sum_tree::OutOfMemory;
use sum_tree::SumTree;

fn sends<T: Send>(_value: &T) {}

fn shares<T: Sync>(_value: &T) {}

/// Fragments and an index of them may be sent to other threads and shared with them. Does nothing when it runs.
pub fn crosses_threads(fragments: &SumTree<Fragment>, index: &InsertionIndex) {
    sends(fragments);
    shares(fragments);
    sends(index);
    shares(index);
}
