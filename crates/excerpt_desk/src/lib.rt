//! Buffers and the excerpts of them as an editor has them, for tests and for programs of times.
#![tactic(auto)]

mod desk;

pub use desk::{Change, Desk, edit, pieces};
