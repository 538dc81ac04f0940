//! The outcome of an operation.
use crate::Moves;
use fragments::{Fragment, InsertionIndex};
use sum_tree::SumTree;

/// Fragments and an index that stand for a history with one more operation, and what the operation does to the shown
/// and the hidden text.
#[derive(Drop)]
pub struct Placed {
    pub fragments: SumTree<Fragment>,
    pub index: InsertionIndex,
    pub moves: Moves,
}
