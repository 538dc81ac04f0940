//! Changes in place whose sums are not added up again.
ghost use Rattle.std.specs.Prelude.{◌≡◌, ◌+◌, ◌-◌, ◌*◌, ◌^◌, ◌<◌, ◌≤◌, [], length, take, drop, IfOk, IfSome, OnOk, OnErr};
ghost use Rattle.sum_tree.specs.Laws.{fold};
ghost use Rattle.sum_tree.specs.Shape.{IsContent, IsNode, join_items, content_items, content_width, node_view};
ghost use Rattle.sum_tree.specs.Exchange.{AreSums, IsCopy, IsExchange, IsRenewed, OnBack};
ghost use Rattle.sum_tree.specs.Placed.{AreChildren, IsPlacing, IsPlacingOr, content_seen, inner_seen, leaf_seen};
ghost use Rattle.sum_tree.specs.Spliced.{splice_list};

use crate::OutOfMemory;
use crate::around::entries_sum;
use crate::entry::Entry;
use crate::grow::{copy_onto, root, share_onto, two_leaves};
use crate::here::{Placing, pair_in_place, put_run};
use crate::list::entries_of;
use crate::splice::{child_with, three_parts};
use crate::steps::Steps;
use crate::traits::{Item, Summary};
use crate::tree::{Content, LEAST, MOST, Node, SumTree, tree_of};
use std::alloc::Global;
use std::sync::Arc;
use std::sync::ledger::Ledger;

/// A summary that can exchange a part of what it sums for another.
///
/// Where it can, a tree need not add up the parts of a run again after a change of one of them.
pub trait Exchange: Summary {
    /// A copy of this sum.
    ///
    /// # Errors
    ///
    /// Fails only if an allocation fails.
    fn copy(&self, alloc: Global) -> Result<Self, OutOfMemory>
        ensures { IfOk result (λ s. s ≡ self.now) };

    /// The sum of a whole after a part of it is replaced, where this is the sum before, `out` that of the part and `put`
    /// that of what is put in its place. `None` if these sums do not determine it.
    ///
    /// # Errors
    ///
    /// Fails only if an allocation fails.
    fn exchange(&self, alloc: Global, out: &Self, put: &Self) -> Result<Option<Self>, OutOfMemory>
        ensures { IfOk result (λ o. IfSome o (IsExchange Self.op Self.admits self.now
            out.now put.now)) };
}

// The sum of the items that a change takes out, and that of the items that it puts in their place.
#[derive(Drop)]
pub(crate) struct Sums<S: Drop> {
    pub(crate) out: S,
    pub(crate) put: S,
}

// The same entries or children in a list with room for 12, which are shared.
fn copied<T: Item>(alloc: Global, content: &Content<T>) -> Result<Content<T>, OutOfMemory>
    ensures { IfOk result (IsCopy content.now) }
{
    match content {
        Content::Leaf(entries) => {
            let mut copies = Vec::with_capacity(alloc, MOST)?;
            copy_onto(entries, &mut copies)?;
            Ok(Content::Leaf(copies))
        }
        Content::Inner(children) => {
            let mut copies = Vec::with_capacity(alloc, MOST)?;
            share_onto(children, &mut copies)?;
            Ok(Content::Inner(copies))
        }
    }
}

// A tree whose root is a copy of this node.
fn copy_of<T: Item, L: Ledger>(
    alloc: Global,
    node: &Node<T>,
    steps: &mut Steps<L>,
) -> Result<SumTree<T>, OutOfMemory>
where
    T::Summary: Exchange,
    requires { IsNode T.Summary.empty T.Summary.op T.Summary.fits T.sum_of node.now }
    ensures tree { IfOk result (λ t. t ≡ node_view node.now) }
    ensures cost { steps.new ≤ steps.old + 1 }
{
    let content = copied(alloc, &node.content)?;
    let sum = node.sum.copy(alloc)?;
    let node = Node {
        height: node.height,
        len: node.len,
        sum,
        content,
    };
    tree_of(alloc, node, steps)
}

// Replaces the root with a copy, if another tree shares it.
fn own<T: Item, L: Ledger>(
    alloc: Global,
    tree: &mut SumTree<T>,
    steps: &mut Steps<L>,
) -> Result<(), OutOfMemory>
where
    T::Summary: Exchange,
    ensures same { tree.new ≡ tree.old }
    ensures cost { steps.new ≤ steps.old + 1 }
{
    if Arc::strong_count(&tree.node) > 1 {
        *tree = copy_of(alloc, &tree.node, steps)?;
    }
    Ok(())
}

// Two leaves with the entries of a leaf after a range of them is replaced.
fn halve<T: Item, L: Ledger>(
    alloc: Global,
    old: &[Entry<T>],
    from: usize,
    to: usize,
    entries: Vec<Entry<T>>,
    steps: &mut Steps<L>,
) -> Result<Placing<Vec<T::Summary>, Vec<Entry<T>>, SumTree<T>>, OutOfMemory>
    requires order { from ≤ to }
    requires within { to ≤ length old.now }
    requires most { length old.now ≤ 12 }
    requires few { length entries.items ≤ 12 }
    requires many { 12 < length (splice_list from to entries.items old.now) }
    requires fits { T.Summary.fits (fold T.Summary.empty T.Summary.op T.sum_of
        (splice_list from to entries.items old.now)) }
    ensures placing { IfOk result (IsPlacing [] 0 (splice_list from to entries.items old.now)
        entries.items (leaf_seen old.now) (leaf_seen old.now)) }
    ensures forth { IfOk result (λ p. OnBack p ⊥) }
    ensures cost { steps.new ≤ steps.old + 2 }
{
    let all = three_parts(alloc, &old[..from], entries, &old[to..])?;
    let (front, back) = two_leaves(alloc, all, steps)?;
    Ok(Placing::Split(front, back, Vec::new(alloc)))
}

// Replaces a range of a leaf's entries. Hands the new entries back if there are more than 12 of them, or if the leaf
// would have fewer than `least`.
fn exchange_in_leaf<T: Item, L: Ledger>(
    alloc: Global,
    least: usize,
    old: &mut Vec<Entry<T>>,
    from: u64,
    count: u64,
    entries: Vec<Entry<T>>,
    steps: &mut Steps<L>,
) -> Result<Placing<Vec<T::Summary>, Vec<Entry<T>>, SumTree<T>>, OutOfMemory>
    requires within { from + count ≤ length old.old.items }
    requires most { length old.old.items ≤ 12 }
    requires fits { T.Summary.fits (fold T.Summary.empty T.Summary.op T.sum_of
        (splice_list from (from + count) entries.items old.old.items)) }
    ensures most { length old.new.items ≤ 12 }
    ensures placing { IsPlacingOr [] least
        (splice_list from (from + count) entries.items old.old.items) entries.items
        (leaf_seen old.old.items) (leaf_seen old.new.items) result }
    ensures back { IfOk result (λ p. OnBack p (steps.new ≡ steps.old)) }
    ensures cost { steps.new ≤ steps.old + 2 }
{
    let first = from as usize;
    let after = (from + count) as usize;
    let kept = first + (old.len() - after);
    if entries.len() > MOST || kept + entries.len() < least {
        return Ok(Placing::Back(entries));
    }
    if kept + entries.len() > MOST {
        return halve(alloc, old, first, after, entries, steps);
    }
    put_run(old, first, after, entries)?;
    Ok(Placing::Done(Vec::new(alloc)))
}

// If the change is made, `count` is the node's new length and `new` its new sum.
fn renew<S: Drop, E: Drop, N: Drop>(
    count: u64,
    new: S,
    len: &mut u64,
    sum: &mut S,
    placing: &Placing<Vec<S>, E, N>,
)
    ensures { IsRenewed count len.old len.new sum.old sum.new new placing.now }
{
    match placing {
        Placing::Done(_) => {
            *len = count;
            *sum = new;
        }
        Placing::Split(_, _, _) | Placing::Back(_) => {}
    }
}

impl<T: Item> SumTree<T> {
    // The sum of a range of items, if `added` items can replace them in one leaf, which then has at least `least`.
    fn part_sum(
        &self,
        alloc: Global,
        least: usize,
        from: u64,
        count: u64,
        added: usize,
    ) -> Result<Option<T::Summary>, OutOfMemory>
        requires within { from + count ≤ length self.now.items }
        requires few { added ≤ 12 }
        ensures { IfOk result (λ o. IfSome o (λ s. s ≡ fold T.Summary.empty T.Summary.op T.sum_of
            (take count (drop from self.now.items)))) }
    {
        match &self.node.content {
            Content::Leaf(entries) => {
                let first = from as usize;
                let after = (from + count) as usize;
                if first + (entries.len() - after) + added < least {
                    return Ok(None);
                }
                Ok(Some(entries_sum(alloc, &entries[first..after])?))
            }
            Content::Inner(children) => match child_with(children, from, count) {
                None => Ok(None),
                Some((k, first)) => children[k].part_sum(alloc, LEAST, first, count, added),
            },
        }
    }

    // The same, without a descent if the range is empty.
    fn out_sum(
        &self,
        alloc: Global,
        from: u64,
        count: u64,
        added: usize,
    ) -> Result<Option<T::Summary>, OutOfMemory>
        requires within { from + count ≤ length self.now.items }
        requires few { added ≤ 12 }
        ensures { IfOk result (λ o. IfSome o (λ s. s ≡ fold T.Summary.empty T.Summary.op T.sum_of
            (take count (drop from self.now.items)))) }
    {
        if count == 0 {
            return Ok(Some(T::Summary::zero(alloc)));
        }
        self.part_sum(alloc, 0, from, count, added)
    }

    // The sums of a change, if it may be made in one leaf.
    fn sums_of(
        &self,
        alloc: Global,
        from: u64,
        count: u64,
        entries: &[Entry<T>],
    ) -> Result<Option<Sums<T::Summary>>, OutOfMemory>
        requires within { from + count ≤ length self.now.items }
        requires fits { T.Summary.fits (fold T.Summary.empty T.Summary.op T.sum_of entries.now) }
        ensures { IfOk result (λ o. IfSome o (AreSums T.Summary.empty T.Summary.op T.sum_of from
            count entries.now self.now.items)) }
    {
        if entries.len() > MOST {
            return Ok(None);
        }
        match self.out_sum(alloc, from, count, entries.len())? {
            None => Ok(None),
            Some(out) => {
                let put = entries_sum(alloc, entries)?;
                Ok(Some(Sums { out, put }))
            }
        }
    }
}

impl<T: Item> SumTree<T>
where
    T::Summary: Exchange,
{
    // Replaces a range of the items below a node's children, if the range lies in one leaf.
    #[cycle(exchanging)]
    fn exchange_in_children<L: Ledger>(
        alloc: Global,
        height: u32,
        children: &mut Vec<SumTree<T>>,
        from: u64,
        count: u64,
        entries: Vec<Entry<T>>,
        sums: &Sums<T::Summary>,
        steps: &mut Steps<L>,
    ) -> Result<Placing<Vec<T::Summary>, Vec<Entry<T>>, SumTree<T>>, OutOfMemory>
        requires children { AreChildren height children.old.items }
        requires within { from + count ≤ length (join_items children.old.items) }
        requires short { length (splice_list from (from + count) entries.items
            (join_items children.old.items)) ≤ 2 ^ 40 }
        requires fits { T.Summary.fits (fold T.Summary.empty T.Summary.op T.sum_of
            (splice_list from (from + count) entries.items (join_items children.old.items))) }
        requires sums { AreSums T.Summary.empty T.Summary.op T.sum_of from count entries.items
            (join_items children.old.items) sums.now }
        ensures children { AreChildren height children.new.items }
        ensures placing { IsPlacingOr [] (length children.old.items)
            (splice_list from (from + count) entries.items (join_items children.old.items))
            entries.items (inner_seen height children.old.items)
            (inner_seen height children.new.items) result }
        ensures back { IfOk result (λ p. OnBack p (steps.new ≤ steps.old + 2 * height)) }
        ensures cost { steps.new ≤ steps.old + (3 * height + 2) }
    {
        let (k, first) = match child_with(children, from, count) {
            None => return Ok(Placing::Back(entries)),
            Some(place) => place,
        };
        match children[k].exchange_here(alloc, LEAST, first, count, entries, sums, steps)? {
            Placing::Done(none) => return Ok(Placing::Done(none)),
            Placing::Split(front, back, none) => {
                return pair_in_place(alloc, height, children, k, front, back, none, steps);
            }
            Placing::Back(entries) => return Ok(Placing::Back(entries)),
        }
    }

    // The same for what a node of this height holds.
    #[cycle(exchanging)]
    fn exchange_in<L: Ledger>(
        alloc: Global,
        height: u32,
        content: &mut Content<T>,
        least: usize,
        from: u64,
        count: u64,
        entries: Vec<Entry<T>>,
        sums: &Sums<T::Summary>,
        steps: &mut Steps<L>,
    ) -> Result<Placing<Vec<T::Summary>, Vec<Entry<T>>, SumTree<T>>, OutOfMemory>
        requires content { IsContent height content.old }
        requires wide { least ≤ content_width content.old }
        requires within { from + count ≤ length (content_items content.old) }
        requires short { length (splice_list from (from + count) entries.items
            (content_items content.old)) ≤ 2 ^ 40 }
        requires fits { T.Summary.fits (fold T.Summary.empty T.Summary.op T.sum_of
            (splice_list from (from + count) entries.items (content_items content.old))) }
        requires sums { AreSums T.Summary.empty T.Summary.op T.sum_of from count entries.items
            (content_items content.old) sums.now }
        ensures content { IsContent height content.new }
        ensures placing { IsPlacingOr [] least
            (splice_list from (from + count) entries.items (content_items content.old))
            entries.items (content_seen height content.old) (content_seen height content.new)
            result }
        ensures back { IfOk result (λ p. OnBack p (steps.new ≤ steps.old + 2 * height)) }
        ensures cost { steps.new ≤ steps.old + (3 * height + 2) }
    {
        match content {
            Content::Leaf(old) => {
                return exchange_in_leaf(alloc, least, old, from, count, entries, steps);
            }
            Content::Inner(children) => {
                return Self::exchange_in_children(
                    alloc, height, children, from, count, entries, sums, steps,
                );
            }
        }
    }

    // Replaces a range of one leaf with these entries, where `sum` is the root's new sum. Hands them back if another tree
    // shares the root, if the range does not lie in one leaf, if there are more than 12 of them, or if the leaf would
    // have fewer than `least` entries.
    #[cycle(exchanging)]
    fn exchange_owned<L: Ledger>(
        &mut self,
        alloc: Global,
        least: usize,
        from: u64,
        count: u64,
        entries: Vec<Entry<T>>,
        sum: T::Summary,
        sums: &Sums<T::Summary>,
        steps: &mut Steps<L>,
    ) -> Result<Placing<Vec<T::Summary>, Vec<Entry<T>>, SumTree<T>>, OutOfMemory>
        requires wide { least ≤ self.old.width }
        requires within { from + count ≤ length self.old.items }
        requires short { length (splice_list from (from + count) entries.items self.old.items)
            ≤ 2 ^ 40 }
        requires fits { T.Summary.fits (fold T.Summary.empty T.Summary.op T.sum_of
            (splice_list from (from + count) entries.items self.old.items)) }
        requires sums { AreSums T.Summary.empty T.Summary.op T.sum_of from count entries.items
            self.old.items sums.now }
        requires sum { sum ≡ fold T.Summary.empty T.Summary.op T.sum_of
            (splice_list from (from + count) entries.items self.old.items) }
        ensures placing { IsPlacingOr [] least
            (splice_list from (from + count) entries.items self.old.items) entries.items self.old
            self.new result }
        ensures back { IfOk result (λ p. OnBack p (steps.new ≤ steps.old + 2 * self.old.height)) }
        ensures cost { steps.new ≤ steps.old + (3 * self.old.height + 2) }
    {
        let node = match Arc::get_mut(&mut self.node) {
            None => return Ok(Placing::Back(entries)),
            Some(node) => node,
        };
        let len = node.len - count + entries.len() as u64;
        let placing = Self::exchange_in(
            alloc,
            node.height,
            &mut node.content,
            least,
            from,
            count,
            entries,
            sums,
            steps,
        )?;
        renew(len, sum, &mut node.len, &mut node.sum, &placing);
        Ok(placing)
    }

    // The same. A root that another tree shares is copied first. If the sums do not determine the root's new sum, the
    // sums of this node and of those below are added up again.
    #[cycle(exchanging)]
    fn exchange_here<L: Ledger>(
        &mut self,
        alloc: Global,
        least: usize,
        from: u64,
        count: u64,
        entries: Vec<Entry<T>>,
        sums: &Sums<T::Summary>,
        steps: &mut Steps<L>,
    ) -> Result<Placing<Vec<T::Summary>, Vec<Entry<T>>, SumTree<T>>, OutOfMemory>
        requires wide { least ≤ self.old.width }
        requires within { from + count ≤ length self.old.items }
        requires short { length (splice_list from (from + count) entries.items self.old.items)
            ≤ 2 ^ 40 }
        requires fits { T.Summary.fits (fold T.Summary.empty T.Summary.op T.sum_of
            (splice_list from (from + count) entries.items self.old.items)) }
        requires sums { AreSums T.Summary.empty T.Summary.op T.sum_of from count entries.items
            self.old.items sums.now }
        ensures placing { IsPlacingOr [] least
            (splice_list from (from + count) entries.items self.old.items) entries.items self.old
            self.new result }
        ensures back { IfOk result (λ p. OnBack p
            (steps.new ≤ steps.old + 2 * (self.old.height + 1))) }
        ensures cost { steps.new ≤ steps.old + 3 * (self.old.height + 1) }
    {
        match self.summary().exchange(alloc, &sums.out, &sums.put)? {
            None => self.place_here(alloc, least, from, count, entries, Vec::new(alloc), steps),
            Some(sum) => {
                own(alloc, self, steps)?;
                self.exchange_owned(alloc, least, from, count, entries, sum, sums, steps)
            }
        }
    }

    // Replaces a range with these entries, whose sums are given.
    fn exchange_with<L: Ledger>(
        &mut self,
        alloc: Global,
        from: u64,
        to: u64,
        entries: Vec<Entry<T>>,
        sums: Sums<T::Summary>,
        steps: &mut Steps<L>,
    ) -> Result<(), OutOfMemory>
        requires order { from ≤ to }
        requires within { to ≤ length self.old.items }
        requires short { length (splice_list from to entries.items self.old.items) ≤ 2 ^ 40 }
        requires fits { T.Summary.fits (fold T.Summary.empty T.Summary.op T.sum_of
            (splice_list from to entries.items self.old.items)) }
        requires sums { AreSums T.Summary.empty T.Summary.op T.sum_of from (to - from)
            entries.items self.old.items sums }
        ensures ok { OnOk result (self.new.items
            ≡ splice_list from to entries.items self.old.items) }
        ensures err { OnErr result (self.new ≡ self.old) }
        ensures cost { steps.new ≤ steps.old +
            (26 * (self.old.height + 1) + 2 * length entries.items) }
        ensures narrow { to ≤ from + 1 → length entries.items ≤ 12
            → steps.new ≤ steps.old + 6 * (self.old.height + 1) }
    {
        match self.exchange_here(alloc, 0, from, to - from, entries, &sums, steps)? {
            Placing::Done(_) => return Ok(()),
            Placing::Split(front, back, _) => {
                *self = root(alloc, front, Some(back), steps)?;
                return Ok(());
            }
            Placing::Back(entries) => {
                *self = self.with_splice(alloc, from, to, entries, steps)?;
                return Ok(());
            }
        }
    }

    /// Does what `splice_counted` does, under the same conditions and with the same steps, for items whose sums can be
    /// exchanged. If the range lies in one leaf, the sums of the nodes on the path are exchanged where they can be, from
    /// the root down, and a node that another tree shares is copied first.
    ///
    /// # Errors
    ///
    /// Fails only if an allocation fails. The tree is then as before, and the new items are dropped.
    pub fn exchange_counted<L: Ledger>(
        &mut self,
        alloc: Global,
        from: u64,
        to: u64,
        items: Vec<T>,
        steps: &mut Steps<L>,
    ) -> Result<(), OutOfMemory>
        requires order { from ≤ to }
        requires within { to ≤ length self.old.items }
        requires short { length (splice_list from to items.items self.old.items) ≤ 2 ^ 40 }
        requires fits { T.Summary.fits (fold T.Summary.empty T.Summary.op T.sum_of
            (splice_list from to items.items self.old.items)) }
        ensures ok { OnOk result (self.new.items ≡ splice_list from to items.items self.old.items) }
        ensures err { OnErr result (self.new ≡ self.old) }
        ensures cost { steps.new ≤ steps.old +
            (26 * (self.old.height + 1) + 2 * length items.items) }
        ensures narrow { to ≤ from + 1 → length items.items ≤ 12
            → steps.new ≤ steps.old + 6 * (self.old.height + 1) }
    {
        let entries = entries_of(alloc, items)?;
        match self.sums_of(alloc, from, to - from, &entries)? {
            None => self.put_counted(alloc, from, to, entries, steps),
            Some(sums) => self.exchange_with(alloc, from, to, entries, sums, steps),
        }
    }
}
