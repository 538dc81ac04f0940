//! Sessions as texts: a session that is read is written as one of version 2.
#![tactic(auto)]

mod header;
mod lines;
mod migrating;

pub use migrating::migrate;
pub use op_model::OutOfMemory;
