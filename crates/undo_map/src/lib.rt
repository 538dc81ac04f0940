//! Undo counts: which undo gives which count to which edit, the greatest count of an edit, now and at a version, and the
//! counts that a local undo gives.
#![tactic(auto)]

mod entry;
mod laws;
mod map;
mod next;
mod undos;

pub use entry::{UndoEntry, UndoKey};
pub use lamport_clock::OutOfMemory;
pub use laws::{counts_are_of_history, entries_are_counts, entries_are_held};
pub use map::UndoMap;
pub use next::next_counts;

fn sends<T: Send>(_value: &T) {}

fn shares<T: Sync>(_value: &T) {}

/// Undo counts may be sent to threads and be shared by them.
pub fn crosses_threads(map: &UndoMap) {
    sends(map);
    shares(map);
}
