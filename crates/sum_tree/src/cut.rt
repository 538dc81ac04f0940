//! The first items of a tree, and the rest.
ghost use Rattle.std.specs.Prelude.{◌≡◌, ℕ, ◌+◌, ◌*◌, ◌^◌, ◌<◌, ◌≤◌, [], ◌∷◌, ◌++◌, length, take, drop, IfOk, All};
ghost use Rattle.sum_tree.specs.Laws.{fold};
ghost use Rattle.sum_tree.specs.Shape.{IsChild, join_items};

use crate::OutOfMemory;
use crate::entry::Entry;
use crate::grow::{both, copy_onto, share_onto};
use crate::read::child_at;
use crate::steps::Steps;
use crate::traits::Item;
use crate::tree::{Content, SumTree, empty, inner, leaf};
use std::alloc::Global;
use std::marker::Brand;
use std::sync::ledger::{Blank, Ledger};

// A tree of some of a node's children, which are shared.
fn run<T: Item, L: Ledger>(
    alloc: Global,
    height: u32,
    nodes: &[SumTree<T>],
    steps: &mut Steps<L>,
) -> Result<SumTree<T>, OutOfMemory>
    requires some { 1 ≤ length nodes.now }
    requires children { All (IsChild height) nodes.now }
    requires most { length nodes.now ≤ 12 }
    requires short { length (join_items nodes.now) ≤ 2 ^ 40 }
    requires fits { T.Summary.fits
        (fold T.Summary.empty T.Summary.op T.sum_of (join_items nodes.now)) }
    ensures items { IfOk result (λ t. t.items ≡ join_items nodes.now) }
    ensures least { IfOk result (λ t. height ≤ t.height + 1) }
    ensures most { IfOk result (λ t. t.height ≤ height) }
    ensures cost { steps.new ≤ steps.old + 1 }
{
    if nodes.len() == 1 {
        return nodes[0].share();
    }
    let mut children = Vec::with_capacity(alloc, nodes.len())?;
    share_onto(nodes, &mut children)?;
    inner(alloc, height, children, steps)
}

// A leaf of copies of these entries; the items themselves are shared.
fn copied_leaf<T: Item, L: Ledger>(
    alloc: Global,
    entries: &[Entry<T>],
    steps: &mut Steps<L>,
) -> Result<SumTree<T>, OutOfMemory>
    requires narrow { length entries.now ≤ 12 }
    requires fits { T.Summary.fits (fold T.Summary.empty T.Summary.op T.sum_of entries.now) }
    ensures items { IfOk result (λ t. t.items ≡ entries.now) }
    ensures height { IfOk result (λ t. t.height ≡ 0) }
    ensures cost { steps.new ≤ steps.old + 1 }
{
    let mut copies = Vec::with_capacity(alloc, entries.len())?;
    copy_onto(entries, &mut copies)?;
    leaf(alloc, copies, steps)
}

impl<T: Item> SumTree<T> {
    /// A tree of the first `n` items, or of all items if there are no more than `n`.
    ///
    /// It shares every subtree that lies within them, so it makes nodes only along one path: at most 8h + 3, where h is
    /// the height of this tree.
    ///
    /// # Errors
    ///
    /// Fails only if an allocation fails.
    pub fn take_front(&self, alloc: Global, n: u64) -> Result<SumTree<T>, OutOfMemory>
        ensures { IfOk result (λ t. t.items ≡ take n self.now.items) }
    {
        self.take_front_with::<Brand>(alloc, n, Blank::new(1))
    }

    // The same, with a counter made from the blank.
    fn take_front_with<L: Ledger>(
        &self,
        alloc: Global,
        n: u64,
        blank: Blank,
    ) -> Result<SumTree<T>, OutOfMemory>
        requires name { blank.name ≡ L.name }
        requires parts { blank.parts ≡ L.parts }
        requires some { 0 < blank.parts }
        ensures { IfOk result (λ t. t.items ≡ take n self.now.items) }
    {
        let mut steps = Steps::<L>::new(blank);
        self.take_front_counted(alloc, n, &mut steps)
    }

    /// Returns what `take_front` returns, and counts a step for each node made: at most 8h + 3 even if the call fails,
    /// where h is the height of this tree, and at most 2t + 6h + 1 if the result has height t.
    pub fn take_front_counted<L: Ledger>(
        &self,
        alloc: Global,
        n: u64,
        steps: &mut Steps<L>,
    ) -> Result<SumTree<T>, OutOfMemory>
        ensures items { IfOk result (λ t. t.items ≡ take n self.now.items) }
        ensures height { IfOk result (λ t. t.height ≤ self.now.height + 1) }
        ensures low { IfOk result (λ t. steps.new
            ≤ steps.old + (2 * t.height + 6 * self.now.height + 1)) }
        ensures cost { steps.new ≤ steps.old + (8 * self.now.height + 3) }
    {
        if n >= self.len() {
            return self.share();
        }
        if n == 0 {
            return empty(alloc, steps);
        }
        match &self.node.content {
            Content::Leaf(entries) => copied_leaf(alloc, &entries[..n as usize], steps),
            Content::Inner(children) => {
                let (k, rest) = child_at(children, n);
                let last = children[k].take_front_counted(alloc, rest, steps)?;
                if k == 0 {
                    return Ok(last);
                }
                let front = run(alloc, self.node.height, &children[..k], steps)?;
                both(alloc, &front, &last, steps)
            }
        }
    }

    /// A tree of the items after the first `n`; it is empty if there are no more than `n`.
    ///
    /// It shares every subtree that lies within them, so it makes nodes only along one path: at most 8h + 3, where h is
    /// the height of this tree.
    ///
    /// # Errors
    ///
    /// Fails only if an allocation fails.
    pub fn drop_front(&self, alloc: Global, n: u64) -> Result<SumTree<T>, OutOfMemory>
        ensures { IfOk result (λ t. t.items ≡ drop n self.now.items) }
    {
        self.drop_front_with::<Brand>(alloc, n, Blank::new(1))
    }

    // The same, with a counter made from the blank.
    fn drop_front_with<L: Ledger>(
        &self,
        alloc: Global,
        n: u64,
        blank: Blank,
    ) -> Result<SumTree<T>, OutOfMemory>
        requires name { blank.name ≡ L.name }
        requires parts { blank.parts ≡ L.parts }
        requires some { 0 < blank.parts }
        ensures { IfOk result (λ t. t.items ≡ drop n self.now.items) }
    {
        let mut steps = Steps::<L>::new(blank);
        self.drop_front_counted(alloc, n, &mut steps)
    }

    /// Returns what `drop_front` returns, and counts a step for each node made: at most 8h + 3 even if the call fails,
    /// where h is the height of this tree, and at most 2t + 6h + 1 if the result has height t.
    pub fn drop_front_counted<L: Ledger>(
        &self,
        alloc: Global,
        n: u64,
        steps: &mut Steps<L>,
    ) -> Result<SumTree<T>, OutOfMemory>
        ensures items { IfOk result (λ t. t.items ≡ drop n self.now.items) }
        ensures height { IfOk result (λ t. t.height ≤ self.now.height + 1) }
        ensures low { IfOk result (λ t. steps.new
            ≤ steps.old + (2 * t.height + 6 * self.now.height + 1)) }
        ensures cost { steps.new ≤ steps.old + (8 * self.now.height + 3) }
    {
        if n >= self.len() {
            return empty(alloc, steps);
        }
        if n == 0 {
            return self.share();
        }
        match &self.node.content {
            Content::Leaf(entries) => copied_leaf(alloc, &entries[n as usize..], steps),
            Content::Inner(children) => {
                let (k, passed) = child_at(children, n);
                let rest = children[k].drop_front_counted(alloc, passed, steps)?;
                let next = k + 1;
                if next == children.len() {
                    return Ok(rest);
                }
                let back = run(alloc, self.node.height, &children[next..], steps)?;
                both(alloc, &rest, &back, steps)
            }
        }
    }
}
