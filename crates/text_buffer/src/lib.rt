//! The buffer of one replica: a text, and the operations that made it.
//!
//! Each author has a [`Buffer`] over the same base. What one edits or undoes is an operation, which the others take, in any order and
//! as often as it comes. A [`Snapshot`] is what a buffer was at one time: it is asked for places and for the past.
//!
//! ```text
//! let mut ann = Buffer::new(alloc, 1, "The cat sat.\n", Limits::MOST)?;
//! let mut ben = Buffer::new(alloc, 2, "The cat sat.\n", Limits::MOST)?;
//!
//! let dog = Text::new(String::from_str(alloc, "dog")?);
//! let by_ann = ann.edit_uncounted(&[Piece::new(4, 7, dog)])?;
//! let _answer = ben.take(by_ann)?;
//! agree(&ann, &ben); // it does nothing: by its contract both show the same text
//!
//! let snapshot = ben.snapshot()?;
//! let anchor = snapshot.anchor(8, Bias::Right)?; // keeps to the `s` of `sat`
//! let place = snapshot.resolve(&anchor)?; // 8, the byte offset
//! ```
//!
//! `crates/embed` is a whole program of this kind.
#![tactic(auto)]

mod base;
mod buffer;
mod content;
mod document;
mod draft;
mod entering;
mod faults;
mod forgetting;
mod laws;
mod opening;
mod outcomes;
mod past;
mod pieces;
mod places;
mod settling;
mod snapshot;
mod taking;
mod undoing;

pub use anchors::UnknownAnchor;
pub use base::Base;
pub use buffer::{Buffer, agree};
pub use edits_since::Edits;
pub use faults::NewFault;
pub use laws::{
    anchors_stay, applied_operations_open, edits_make_the_text, good_operations_are_applied,
    opened_buffers_act_alike, opened_buffers_apply_all, refused_operations_change_nothing,
    snapshots_answer_alike, stopped_calls_apply_partly, stopped_calls_go_on,
    waiting_operations_miss_causes,
};
pub use op_model::{
    Anchor, Bias, EditFault, Endings, Limits, OpFault, OpenFault, OutOfMemory, PlaceFault,
    SinceFault, TextEdit, UndoFault, Unit,
};
pub use outcomes::{Refused, Took};
pub use snapshot::{Snapshot, snapshots_agree, snapshots_append};
pub use sum_tree::Steps;

fn sends<T: Send>(_value: &T) {}

fn shares<T: Sync>(_value: &T) {}

/// Buffers, snapshots and bases may be sent to threads and be shared by them.
pub fn crosses_threads(buffer: &Buffer, snapshot: &Snapshot, base: &Base) {
    sends(buffer);
    shares(buffer);
    sends(snapshot);
    shares(snapshot);
    sends(base);
    shares(base);
}
