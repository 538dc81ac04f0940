//! Operations in the order of their application, found by their stamps.
#![tactic(auto)]

mod list;
mod operation;
mod stamp_entry;

pub use list::AppliedList;
pub use op_model::OutOfMemory;
pub use operation::Applied;

fn sends<T: Send>(_value: &T) {}

fn shares<T: Sync>(_value: &T) {}

/// Applied operations may be sent to threads and be shared by them.
pub fn crosses_threads(applied: &AppliedList) {
    sends(applied);
    shares(applied);
}
