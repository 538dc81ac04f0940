//! What each replica has selected: ranges of a text, kept by anchors, that replicas send one another.
//!
//! Each replica has [`SelectionSets`]: of each author the latest selections that it made or took. They are operations
//! of their own, beside those of the buffer, and arrive in any order and as often as they come. Where they are in a
//! text is asked with a snapshot.
//!
//! ```text
//! let mut ann = SelectionSets::new(alloc, 1)?;
//! let mut ben = SelectionSets::new(alloc, 2)?;
//!
//! let by_ann = ann.set(&snapshot, &[(4, 4), (9, 12)])?; // a caret, and a range
//! let answer = ben.take(by_ann)?; // SelTook::Set
//! let places = ben.places(&later, 1)?; // where both are in a later text
//! ```
#![tactic(auto)]

mod faults;
mod laws;
mod places;
mod selection;
mod sets;
mod setting;
mod taking;

pub use faults::{PlacesFault, SelFault, SelTook, SetFault};
pub use laws::{
    equal_selections_are_same, newest_are_kept, one_author_changes, same_operations_same_kept,
    same_sets_same_places,
};
pub use op_model::OutOfMemory;
pub use places::Places;
pub use selection::{Ranges, Selection, SelectionOp};
pub use sets::SelectionSets;
pub use setting::MOST_RANGES;

fn sends<T: Send>(_value: &T) {}

fn shares<T: Sync>(_value: &T) {}

/// Sets, their operations and places may be sent to threads and be shared by them.
pub fn crosses_threads(sets: &SelectionSets, op: &SelectionOp, places: &Places) {
    sends(sets);
    shares(sets);
    sends(op);
    shares(op);
    sends(places);
    shares(places);
}
