//! What an operation does to fragments, and to the shown and the hidden text.
#![tactic(auto)]

mod among;
mod by_index;
mod edit_moves;
mod gather;
mod laws;
mod mark;
mod moves;
mod offsets;
mod parts;
mod passed;
mod place;
mod placed;
mod plan;
mod tree_change;
mod undo;
mod undo_moves;
mod walk;

pub use among::{Change, moves_among};
pub use laws::{
    base_is_whole, carried_texts_are_those, joined_moves_do_the_same, kept_bytes_commute,
    moves_compose,
};
pub use mark::was_shown;
pub use moves::{Move, Moves};
pub use offsets::full_pieces;
pub use passed::{Passed, SeenPassed};
pub use place::{place_local, place_local_into, place_remote, place_remote_into};
pub use placed::Placed;
pub use plan::{Placement, plan_local, plan_remote};
pub use sum_tree::OutOfMemory;
pub use tree_change::TreeChange;
pub use undo::{mark_undo, mark_undo_by_index, mark_undo_counted};
