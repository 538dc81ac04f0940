//! Edits since a version: what took the text that the version saw to the text now, and what takes it back, found among fragments.
#![tactic(auto)]

mod differ;
mod edits;
mod laws;
mod open_run;
mod telling;
mod way_back;

pub use edits::Edits;
pub use laws::edits_take_then_to_now;
pub use op_model::TextEdit;
pub use sum_tree::OutOfMemory;
pub use telling::since;
pub use way_back::moves_back;

fn sends<T: Send>(_value: &T) {}

fn shares<T: Sync>(_value: &T) {}

/// Edits may be sent to threads and be shared by them.
pub fn crosses_threads(edits: &Edits) {
    sends(edits);
    shares(edits);
}
