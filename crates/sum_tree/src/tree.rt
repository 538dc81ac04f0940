//! A copy-on-write tree, which contracts see as the list of its items.
ghost use Rattle.std.specs.Prelude.{◌≡◌, ℕ, ◌+◌, ◌*◌, ◌^◌, ◌<◌, ◌≤◌, OnOk, All, [], ◌∷◌, ◌++◌, length, IfOk, IsTrue, ◌↔◌};
ghost use Rattle.sum_tree.specs.Laws.{fold};
ghost use Rattle.sum_tree.specs.Shape.{IsNode, IsChild, join_items, node_view};
ghost use Rattle.sum_tree.specs.Grown.{IsSplit};

use crate::OutOfMemory;
use crate::around::{entries_sum, trees_sum};
use crate::entry::Entry;
use crate::list::{from_entries_with, list_of_one};
use crate::steps::Steps;
use crate::traits::{Item, Summary};
use std::alloc::Global;
use std::marker::{Brand, Model};
use std::sync::Arc;
use std::sync::ledger::{Blank, Ledger};

/// The least number of entries of a node that is not a root.
pub(crate) const LEAST: usize = 6;

/// The greatest number of entries of a node.
pub(crate) const MOST: usize = 12;

/// A copy-on-write B-tree of items. Each node holds the sum of what lies below it.
///
/// Contracts see a tree as a record of its `items` in order, its `height` and its `width`, the number of its root's
/// entries. Leaves have height 0 and lie at one depth. Every node but the root has 6 to 12 entries, an inner root at
/// least 2, a leaf root 0 to 12; a tree has at most 2^40 items, so its height is at most 15. Nodes are kept in `Arc`s
/// and shared among trees. A change copies the nodes on its path, except those that no other tree shares: these it
/// changes in place.
///
/// A call that adds items requires that the result has at most 2^40 of them and that their sum fits (`fits`).
///
/// # Errors
///
/// Calls fail only if an allocation fails or an `Arc` cannot count another owner. A tree that was to be changed is then
/// as before.
///
/// # Examples
///
/// ```text
/// let mut tree = SumTree::new(alloc)?;
/// tree.push(alloc, Number { key: 3 })?;
/// tree.push(alloc, Number { key: 8 })?;
/// tree.insert(alloc, Number { key: 5 })?;
/// let old = tree.share()?;
/// let gone = tree.remove(alloc, &3)?;
/// let rest = old.drop_front(alloc, 1)?;
/// ```
///
/// Now `tree` and `rest` hold 5 and 8, `old` still holds 3, 5 and 8, and `gone` is the number 3. The files of
/// `crates/tree_tests/src` use every call:
///
/// - `new`, `push`, `from_list`, `append`, `splice`, `insert` and `remove`: `changes.rt`, in `push_to`, `listed_tree`, `append_to`,
///   `splice_in`, `insert_to` and `remove_from`
/// - `len`, `is_empty`, `get`, `first`, `last`, `height` and `parts`: `mirror.rt`, in `has_numbers`, `has_ends` and `is_even`
/// - `take_front` and `drop_front`: `accounts.rt`, in `rejoins`; `share`: there, in `change_shared`
/// - `summary`: `trees.rt`, in `is_wide`; `find`: there, in `finds`
/// - `from_item`, `known`, `Steps` and the calls in `_counted`: `counted.rt`, in `append_to`, `cuts` and `ends`
#[cycle(tree)]
#[derive(Drop)]
pub struct SumTree<T: Item> {
    pub(crate) node: Arc<Node<T>>,
}

#[cycle(tree)]
#[derive(Drop)]
pub(crate) struct Node<T: Item> {
    pub(crate) height: u32,
    pub(crate) len: u64,
    pub(crate) sum: T::Summary,
    pub(crate) content: Content<T>,
}

#[cycle(tree)]
#[derive(Drop)]
pub(crate) enum Content<T: Item> {
    Leaf(Vec<Entry<T>>),
    Inner(Vec<SumTree<T>>),
}

impl<T: Item> Model for SumTree<T> {
    ghost use Rattle.sum_tree.specs.Seen.{Seen};

    ghost Value = { Seen T };

    ghost use Rattle.std.specs.Arc.{arc_value};
    ghost use Rattle.sum_tree.specs.Shape.{node_view, IsNode};

    ghost view = { λ a. node_view (arc_value a.node) };

    ghost invariant = { λ a. IsNode T.Summary.empty T.Summary.op T.Summary.fits T.sum_of
        (arc_value a.node) };

    ghost size = { λ v. v.height };

    ghost use Rattle.sum_tree.specs.Falls.{content_lower};
    ghost use Rattle.std.proofs.Common.{arith};

    ghost size_decreases = { λ a h. Prim.omega (
      arith,
      content_lower T.Item T.Summary.Summary
          (arc_value a.node).height (arc_value a.node).content h.0,
    ) };
}

impl<T: Item> SumTree<T> {
    /// A tree without items. Makes one node; fails only if an allocation fails.
    pub fn new(alloc: Global) -> Result<SumTree<T>, OutOfMemory>
        ensures items { IfOk result (λ t. t.items ≡ []) }
        ensures height { IfOk result (λ t. t.height ≡ 0) }
    {
        from_entries_with::<T, Brand>(alloc, Vec::new(alloc), Blank::new(1))
    }

    /// The number of levels below the root: 0 if the root is a leaf. O(1), does not allocate.
    pub fn height(&self) -> u32
        ensures { result ≡ self.now.height }
    {
        self.node.height
    }

    /// The number of items. O(1), does not allocate.
    pub fn len(&self) -> u64
        ensures { result ≡ length self.now.items }
    {
        self.node.len
    }

    /// Whether there are no items. O(1), does not allocate.
    pub fn is_empty(&self) -> bool
        ensures { IsTrue result ↔ (self.now.items ≡ []) }
    {
        self.node.len == 0
    }

    /// The summary of the whole tree: the sum of the items' summaries in order. O(1), does not allocate.
    pub fn summary(&self) -> &T::Summary
        ensures { result.now ≡ fold T.Summary.empty T.Summary.op T.sum_of self.now.items }
    {
        &self.node.sum
    }

    /// Facts that hold of every tree, for callers that see only its value. Does nothing when it runs.
    pub fn known(&self)
        ensures short { length self.now.items ≤ 2 ^ 40 }
        ensures low { self.now.height ≤ 15 }
        ensures fits { T.Summary.fits (fold T.Summary.empty T.Summary.op T.sum_of self.now.items) }
        ensures empty { self.now.items ≡ [] → self.now.height ≡ 0 }
        ensures tall { 0 < self.now.height → 2 * 6 ^ self.now.height ≤ length self.now.items }
    {
        let _node = &self.node;
    }

    /// Another tree with the same nodes, in constant time; nothing is copied. Fails only if `Arc` cannot count another
    /// owner.
    pub fn share(&self) -> Result<SumTree<T>, OutOfMemory>
        ensures { IfOk result (λ t. t ≡ self.now) }
    {
        let node = Arc::try_clone(&self.node)?;
        Ok(SumTree { node })
    }

    /// A tree of one item, whose summary must fit. Makes one node. Fails only if an allocation fails; the item is then
    /// dropped.
    pub fn from_item(alloc: Global, item: T) -> Result<SumTree<T>, OutOfMemory>
        requires { T.Summary.fits (fold T.Summary.empty T.Summary.op T.sum_of (item ∷ [])) }
        ensures items { IfOk result (λ t. t.items ≡ item ∷ []) }
        ensures height { IfOk result (λ t. t.height ≡ 0) }
    {
        let entries = list_of_one(alloc, Entry::new(alloc, item)?)?;
        from_entries_with::<T, Brand>(alloc, entries, Blank::new(1))
    }
}

// The tree whose root is this node. Nodes are made only here, each with a step.
pub(crate) fn tree_of<T: Item, L: Ledger>(
    alloc: Global,
    node: Node<T>,
    steps: &mut Steps<L>,
) -> Result<SumTree<T>, OutOfMemory>
    requires { IsNode T.Summary.empty T.Summary.op T.Summary.fits T.sum_of node }
    ensures tree { IfOk result (λ t. t ≡ node_view node) }
    ensures step { OnOk result (steps.new ≡ steps.old + 1) }
    ensures cost { steps.new ≤ steps.old + 1 }
{
    let node = Arc::new(alloc, node)?;
    steps.tick();
    Ok(SumTree { node })
}

// A leaf without entries.
pub(crate) fn empty<T: Item, L: Ledger>(
    alloc: Global,
    steps: &mut Steps<L>,
) -> Result<SumTree<T>, OutOfMemory>
    ensures items { IfOk result (λ t. t.items ≡ []) }
    ensures height { IfOk result (λ t. t.height ≡ 0) }
    ensures cost { steps.new ≤ steps.old + 1 }
{
    let node = Node {
        height: 0,
        len: 0,
        sum: T::Summary::zero(alloc),
        content: Content::Leaf(Vec::new(alloc)),
    };
    tree_of(alloc, node, steps)
}

// A leaf of one entry.
pub(crate) fn single<T: Item, L: Ledger>(
    alloc: Global,
    entry: Entry<T>,
    steps: &mut Steps<L>,
) -> Result<SumTree<T>, OutOfMemory>
    requires { T.Summary.fits (fold T.Summary.empty T.Summary.op T.sum_of (entry ∷ [])) }
    ensures items { IfOk result (λ t. t.items ≡ entry ∷ []) }
    ensures height { IfOk result (λ t. t.height ≡ 0) }
    ensures cost { steps.new ≤ steps.old + 1 }
{
    leaf(alloc, list_of_one(alloc, entry)?, steps)
}

// A leaf of these entries.
pub(crate) fn leaf<T: Item, L: Ledger>(
    alloc: Global,
    entries: Vec<Entry<T>>,
    steps: &mut Steps<L>,
) -> Result<SumTree<T>, OutOfMemory>
    requires narrow { length entries.items ≤ 12 }
    requires fits { T.Summary.fits (fold T.Summary.empty T.Summary.op T.sum_of entries.items) }
    ensures items { IfOk result (λ t. t.items ≡ entries.items) }
    ensures height { IfOk result (λ t. t.height ≡ 0) }
    ensures width { IfOk result (λ t. t.width ≡ length entries.items) }
    ensures cost { steps.new ≤ steps.old + 1 }
{
    let sum = entries_sum(alloc, &entries)?;
    let len = entries.len() as u64;
    let content = Content::Leaf(entries);
    let node = Node {
        height: 0,
        len,
        sum,
        content,
    };
    tree_of(alloc, node, steps)
}

// A node of these children.
pub(crate) fn inner<T: Item, L: Ledger>(
    alloc: Global,
    height: u32,
    children: Vec<SumTree<T>>,
    steps: &mut Steps<L>,
) -> Result<SumTree<T>, OutOfMemory>
    requires children { All (IsChild height) children.items }
    requires least { 2 ≤ length children.items }
    requires most { length children.items ≤ 12 }
    requires short { length (join_items children.items) ≤ 2 ^ 40 }
    requires fits { T.Summary.fits (fold T.Summary.empty T.Summary.op T.sum_of
        (join_items children.items)) }
    ensures items { IfOk result (λ t. t.items ≡ join_items children.items) }
    ensures height { IfOk result (λ t. t.height ≡ height) }
    ensures width { IfOk result (λ t. t.width ≡ length children.items) }
    ensures many { IfOk result (λ t. 6 ≤ t.width → 6 ^ (t.height + 1) ≤ length t.items) }
    ensures cost { steps.new ≤ steps.old + 1 }
{
    let sum = trees_sum(alloc, &children)?;
    let mut len = 0;
    for child in &children {
        len += child.len();
    }
    let content = Content::Inner(children);
    let node = Node {
        height,
        len,
        sum,
        content,
    };
    tree_of(alloc, node, steps)
}
