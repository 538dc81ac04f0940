//! What the root of a tree holds, for walks from outside this crate.
ghost use Rattle.sum_tree.specs.Parts.{IsParts};

use crate::entry::Entry;
use crate::traits::Item;
use crate::tree::{Content, SumTree};

/// The entries of a leaf, or the children of an inner node.
#[derive(Clone, Copy)]
pub enum Parts<'a, T: Item> {
    Leaf(&'a [Entry<T>]),
    Inner(&'a [SumTree<T>]),
}

impl<T: Item> SumTree<T> {
    /// What the root holds.
    pub fn parts(&self) -> Parts<'_, T>
        ensures { IsParts self.now result }
    {
        match &self.node.content {
            Content::Leaf(entries) => Parts::Leaf(entries),
            Content::Inner(children) => Parts::Inner(children),
        }
    }
}
