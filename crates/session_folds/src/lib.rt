//! What the lines `fold`, `unfold`, `folded` and `display` of a session do.
//!
//! [`SessionFolds`] has a map of folds for each replica of a session, which is made at the first of these lines. Each
//! call works a line over a snapshot, which the caller has of the replica's buffer, and returns the line of the
//! report.
#![tactic(auto)]

mod answers;
mod replica;
mod session;

pub use op_model::OutOfMemory;
pub use session::SessionFolds;
