//! What the lines `select`, `share` and `selected` of a session do.
//!
//! [`SessionSelections`] has what each replica of a session has selected and taken, and the operations that `select` lines
//! made, under the names that they give them. Each call works a line and returns the line of the report. The text in which ranges
//! are selected and found is that of a snapshot, which the caller has of the replica's buffer.
#![tactic(auto)]

mod answers;
mod names;
mod replica;
mod session;

pub use op_model::OutOfMemory;
pub use session::SessionSelections;
