//! Live snapshots: one publisher shows snapshots of a buffer to readers in other threads. Each reader has a pair of its
//! own.
#![tactic(auto)]

mod entry;
mod growth;
mod kept;
mod open;
mod publisher;
mod reader;
mod rule;
mod steps;

pub use open::open_pairs;
pub use publisher::{Publisher, Told};
pub use reader::SnapReader;
pub use text_buffer::OutOfMemory;

fn sends<T: Send>(_value: &T) {}

/// Publishers, readers and tokens may be sent to threads.
pub fn crosses_threads(publisher: &Publisher, reader: &SnapReader, told: &Told) {
    sends(publisher);
    sends(reader);
    sends(told);
}
