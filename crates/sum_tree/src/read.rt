//! Items by their index.
ghost use Rattle.std.specs.Prelude.{◌≡◌, ℕ, ◌+◌, ◌-◌, ◌^◌, ◌<◌, ◌≤◌, [], ◌∷◌, ◌++◌, length, take, slice_get, slice_index_or, MatchOption};
ghost use Rattle.std.specs.Option.{option_copied};
ghost use Rattle.sum_tree.specs.Seen.{Seen};
ghost use Rattle.sum_tree.specs.Shape.{join_items};

use crate::traits::Item;
use crate::tree::{Content, SumTree};

/// The index of the child that holds item `i` of these children's items, and the item's index within that child.
/// Indices count from 0, and `i` must be less than the number of the children's items.
///
/// Does not allocate. Reads the length of each child up to that one: of at most 12 in a node that `SumTree::parts`
/// lends.
pub fn child_at<T: Item>(children: &[SumTree<T>], i: u64) -> (usize, u64)
    requires { i < length (join_items children.now) }
    ensures child { result.0 < length children.now }
    ensures within { (d : Seen T) → result.1
        < length (slice_index_or children.now result.0 d).items }
    ensures before { length (join_items (take result.0 children.now)) + result.1 ≡ i }
{
    let mut rest = i;
    for (k, child) in children.iter().enumerate() {
        let len = child.len();
        if rest < len {
            return (k, rest);
        }
        rest -= len;
    }
    unreachable!()
}

impl<T: Item> SumTree<T> {
    pub(crate) fn at(&self, i: u64) -> &T
        requires { i < length self.now.items }
        ensures { (d : T) → result.now ≡ slice_index_or self.now.items i d }
    {
        match &self.node.content {
            Content::Leaf(entries) => entries[i as usize].item(),
            Content::Inner(children) => {
                let (k, rest) = child_at(children, i);
                children[k].at(rest)
            }
        }
    }

    // The last item.
    pub(crate) fn end(&self) -> &T
        requires filled { 1 ≤ length self.now.items }
        ensures { (d : T) → result.now
            ≡ slice_index_or self.now.items (length self.now.items - 1) d }
    {
        match &self.node.content {
            Content::Leaf(entries) => entries[entries.len() - 1].item(),
            Content::Inner(children) => children[children.len() - 1].end(),
        }
    }

    /// Item `i`, counted from 0, if there is one. O(log n): visits one node on each level. Does not allocate.
    pub fn get(&self, i: u64) -> Option<&T>
        ensures { option_copied result ≡ slice_get self.now.items i }
    {
        if i < self.len() {
            Some(self.at(i))
        } else {
            None
        }
    }

    /// The first item, if there is one. O(log n), does not allocate.
    pub fn first(&self) -> Option<&T>
        ensures { option_copied result ≡ slice_get self.now.items 0 }
    {
        self.get(0)
    }

    /// The last item, if there is one. O(log n), does not allocate.
    pub fn last(&self) -> Option<&T>
        ensures { option_copied result ≡ slice_get self.now.items (length self.now.items - 1) }
    {
        let len = self.len();
        if len == 0 { None } else { Some(self.end()) }
    }
}
