//! A snapshot's text with folds: ranges of it are hidden, and each is shown as one ⋯.
#![tactic(auto)]

mod faults;
mod fold;
mod folding;
mod folds;
mod laws;
mod map;
mod places;
mod ranges;
mod shown;
mod syncing;
mod windows;

pub use faults::{FoldFault, SyncFault};
pub use fold::Fold;
pub use laws::{fold_maps_show_alike, places_come_back};
pub use map::FoldMap;
pub use sum_tree::OutOfMemory;
pub use text_buffer::Snapshot;
pub use tree_cursor::Bias;

fn sends<T: Send>(_value: &T) {}

fn shares<T: Sync>(_value: &T) {}

/// Fold maps may be sent to threads and be shared by them.
pub fn crosses_threads(map: &FoldMap) {
    sends(map);
    shares(map);
}
