//! Lamport stamps, Lamport clocks, and versions.
//!
//! A stamp names an operation: the value of its author's clock, and the author's replica id. Stamps are totally
//! ordered. (L. Lamport, "Time, Clocks, and the Ordering of Events in a Distributed System", CACM 21(7), 1978.)
#![tactic(auto)]

mod clock;
mod laws;
mod stamp;
mod version;

pub use clock::{Clock, ClockEnd};
pub use laws::{join_is_least, nothing_is_missing};
pub use stamp::{Lamport, is_later, is_same};
pub use std::alloc::AllocError as OutOfMemory;
pub use version::Version;

fn sends<T: Send>(_value: &T) {}

fn shares<T: Sync>(_value: &T) {}

/// Clocks and versions can be sent to threads and shared by them.
pub fn crosses_threads(clock: &Clock, version: &Version) {
    sends(clock);
    shares(clock);
    sends(version);
    shares(version);
}
