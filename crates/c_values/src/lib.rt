//! Values as a caller in C hands them in and gets them: answers, and flat forms of pieces, stamps, versions and anchors.
#![tactic(auto)]

mod anchor;
mod answer;
mod endings;
mod pieces;
mod records;
mod refusals;
mod room;
mod seen;
mod stamps;
mod text_changes;
mod texts;

pub use anchor::{FlatAnchor, anchor_of, bias_at, flat_anchor};
pub use answer::{
    Answer, Code, edit_refusal, op_refusal, open_refusal, place_refusal, since_refusal,
    undo_refusal,
};
pub use endings::endings_at;
pub use pieces::{Change, pieces_of};
pub use records::{operations_of, write_record};
pub use refusals::Refusal;
pub use room::write_front;
pub use seen::{Seen, seen_of, version_of};
pub use stamps::{Stamp, stamps_of};
pub use text_changes::{TextChange, text_changes_of};
pub use texts::utf8_of;
