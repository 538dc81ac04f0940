//! What a version sees of a text that is kept as fragments and two ropes, hidden bytes too.
#![tactic(auto)]

mod boundary;
mod count;
mod laws;

pub use boundary::is_seen_boundary;
pub use count::seen_len;
pub use laws::cells_begin_as_in_their_edits;
