//! Changes of texts that are kept as ropes: ranges replaced, and the moves of an operation.
#![tactic(auto)]

mod moving;
mod ranges;
mod side;

pub use moving::{TextRopes, apply_moves, apply_moves_into};
pub use op_model::OutOfMemory;
pub use ranges::{piece_fault, replace_ranges};
