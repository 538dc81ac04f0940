//! Excerpts of several buffers, shown as one text.
//!
//! A [`MultiBuffer`] has excerpts: parts of the texts of buffers, in the order in which they were put, with one LF
//! between two. An excerpt follows its buffer: `sync` takes a later snapshot, and the excerpt is then what lies between
//! its two anchors there.
//!
//! ```text
//! let mut found = MultiBuffer::new(alloc)?;
//! found.push(0, notes.snapshot()?, 10, 24)?; // excerpt 0, of buffer 0
//! found.push(1, letters.snapshot()?, 0, 7)?; // excerpt 1, of buffer 1
//!
//! let text = found.text()?; // 14 bytes, an LF, 7 bytes
//! let place = found.to_source(16); // excerpt 1, buffer 1, offset 1
//! ```
#![tactic(auto)]

mod excerpt;
mod excerpts;
mod faults;
mod grouping;
mod laws;
mod lengths;
mod making;
mod members;
mod multi;
mod parts;
mod places;
mod pushing;
mod reach;
mod rope_text;
mod source;
mod splitting;
mod syncing;
mod texts;

pub use excerpt::Excerpt;
pub use faults::{PushFault, SplitFault};
pub use laws::{edits_replace, ends_stay, places_come_back};
pub use lengths::Lengths;
pub use multi::MultiBuffer;
pub use op_model::OutOfMemory;
pub use parts::BufferPieces;
pub use places::Place;
pub use rope_chunks::Rope;
pub use source::Source;
pub use text_buffer::Snapshot;

fn sends<T: Send>(_value: &T) {}

fn shares<T: Sync>(_value: &T) {}

/// Multibuffers, the pieces of a split and places may be sent to threads and be shared by them.
pub fn crosses_threads(multi: &MultiBuffer, pieces: &BufferPieces, place: &Place) {
    sends(multi);
    shares(multi);
    sends(pieces);
    shares(pieces);
    sends(place);
    shares(place);
}
