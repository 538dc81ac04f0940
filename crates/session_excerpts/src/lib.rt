//! What the lines `excerpt`, `multi` and `medit` of a session do to the excerpts that it keeps under names.
//!
//! [`SessionExcerpts`] has a multibuffer for each name, which is made at the first `excerpt` line of the name. Each
//! call works a line over snapshots, which the caller has of the buffers of all replicas. A `medit` line is split
//! here: the caller edits the replicas, each by its pieces.
#![tactic(auto)]

mod answers;
mod multi;
mod session;

pub use answers::{SplitAnswer, SplitParts};
pub use op_model::OutOfMemory;
pub use session::SessionExcerpts;
