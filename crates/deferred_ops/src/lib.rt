//! Operations that wait for what they miss, in the order of their stamps.
#![tactic(auto)]

mod causes;
mod deferred;

pub use deferred::Deferred;
pub use op_model::OutOfMemory;

fn sends<T: Send>(_value: &T) {}

fn shares<T: Sync>(_value: &T) {}

/// What waits may be sent to threads and be shared by them.
pub fn crosses_threads(deferred: &Deferred) {
    sends(deferred);
    shares(deferred);
}
