//! Replaces a range of items with others.
ghost use Rattle.std.specs.Prelude.{◌≡◌, ℕ, ◌+◌, ◌-◌, ◌*◌, ◌^◌, ◌<◌, ◌≤◌, ◌++◌, length, None, IfOk, OnOk, OnErr, IfSome, All};
ghost use Rattle.sum_tree.specs.Laws.{fold};
ghost use Rattle.sum_tree.specs.Shape.{IsChild, join_items};
ghost use Rattle.sum_tree.specs.Grown.{with_pair, with_run, pair_list};
ghost use Rattle.sum_tree.specs.Spliced.{splice_list, IsPiece, IsReturn, IsSpliced, IsSplicing, IsWithin};

use crate::OutOfMemory;
use crate::entry::Entry;
use crate::grow::{both, copy_onto, gather, inners, leaves, root};
use crate::here::Placing;
use crate::list::{entries_of, from_entries};
use crate::steps::Steps;
use crate::traits::Item;
use crate::tree::{Content, LEAST, MOST, SumTree};
use std::alloc::Global;
use std::marker::Brand;
use std::sync::ledger::{Blank, Ledger};

// The outcome of a change within one leaf. `Done`: the one or two nodes that replace the node. `Back`: the new entries,
// handed back because the range does not lie in one leaf, or because two leaves have no room for the result.
#[derive(Drop)]
pub(crate) enum Splicing<N: Drop, E: Drop> {
    Done(N, Option<N>),
    Back(E),
}

// The index of the first child that holds a whole range, and the index within the child at which the range starts.
pub(crate) fn child_with<T: Item>(
    children: &[SumTree<T>],
    from: u64,
    count: u64,
) -> Option<(usize, u64)>
    ensures some { IfSome result (λ p. IsWithin children.now from count p.0 p.1) }
    ensures none { result ≡ None → 0 < length children.now
        → from + count ≤ length (join_items children.now) → 1 < count }
{
    let mut rest = from;
    for (k, child) in children.iter().enumerate() {
        let len = child.len();
        if rest <= len && count <= len - rest {
            return Some((k, rest));
        }
        if rest < len {
            return None;
        }
        rest -= len;
    }
    None
}

// Three runs of entries, one after the other.
pub(crate) fn three_parts<T: Item>(
    alloc: Global,
    front: &[Entry<T>],
    mut middle: Vec<Entry<T>>,
    back: &[Entry<T>],
) -> Result<Vec<Entry<T>>, OutOfMemory>
    requires front { length front.now ≤ 12 }
    requires middle { length middle.items ≤ 24 }
    requires back { length back.now ≤ 12 }
    ensures { IfOk result (λ es. es.items ≡ (front.now ++ middle.items) ++ back.now) }
{
    let mut entries = Vec::with_capacity(alloc, front.len() + middle.len() + back.len())?;
    copy_onto(front, &mut entries)?;
    entries.append(&mut middle)?;
    copy_onto(back, &mut entries)?;
    Ok(entries)
}

// The one or two nodes that replace a node when its children in `from..to` are replaced.
fn with_children<T: Item, L: Ledger>(
    alloc: Global,
    height: u32,
    nodes: &[SumTree<T>],
    from: usize,
    to: usize,
    front: SumTree<T>,
    back: Option<SumTree<T>>,
    steps: &mut Steps<L>,
) -> Result<(SumTree<T>, Option<SumTree<T>>), OutOfMemory>
    requires children { All (IsChild height) nodes.now }
    requires least { 2 ≤ length nodes.now }
    requires most { length nodes.now ≤ 12 }
    requires order { from < to }
    requires few { to ≤ from + 2 }
    requires within { to ≤ length nodes.now }
    requires pair { All (IsChild height) (pair_list front back) }
    requires short { length (join_items (with_run nodes.now from to front back)) ≤ 2 ^ 40 }
    requires fits { T.Summary.fits (fold T.Summary.empty T.Summary.op T.sum_of
        (join_items (with_run nodes.now from to front back))) }
    ensures spliced { IfOk result (λ p. IsSpliced height (length nodes.now)
        (join_items (with_run nodes.now from to front back)) p.0 p.1) }
    ensures cost { steps.new ≤ steps.old + 2 }
{
    if to - from == nodes.len() && back.is_none() {
        return Ok((front, None));
    }
    let children = gather(alloc, nodes, from, to, front, back)?;
    inners(alloc, height, children, steps)
}

// The one or two nodes that replace a node when its child k becomes `child`, which has fewer than 6 entries and is
// joined with the child before it.
fn mend_left<T: Item, L: Ledger>(
    alloc: Global,
    height: u32,
    nodes: &[SumTree<T>],
    k: usize,
    child: SumTree<T>,
    steps: &mut Steps<L>,
) -> Result<(SumTree<T>, Option<SumTree<T>>), OutOfMemory>
    requires children { All (IsChild height) nodes.now }
    requires least { 2 ≤ length nodes.now }
    requires most { length nodes.now ≤ 12 }
    requires past { 0 < k }
    requires within { k < length nodes.now }
    requires piece { IsPiece height child None }
    requires short { length (join_items (with_pair nodes.now k child None)) ≤ 2 ^ 40 }
    requires fits { T.Summary.fits (fold T.Summary.empty T.Summary.op T.sum_of
        (join_items (with_pair nodes.now k child None))) }
    ensures spliced { IfOk result (λ p. IsSpliced height (length nodes.now)
        (join_items (with_pair nodes.now k child None)) p.0 p.1) }
    ensures cost { steps.new ≤ steps.old + 4 }
{
    let (front, back) = nodes[k - 1].beside(alloc, &child, steps)?;
    with_children(alloc, height, nodes, k - 1, k + 1, front, back, steps)
}

// The same for the first child, which is joined with the second.
fn mend_right<T: Item, L: Ledger>(
    alloc: Global,
    height: u32,
    nodes: &[SumTree<T>],
    child: SumTree<T>,
    steps: &mut Steps<L>,
) -> Result<(SumTree<T>, Option<SumTree<T>>), OutOfMemory>
    requires children { All (IsChild height) nodes.now }
    requires least { 2 ≤ length nodes.now }
    requires most { length nodes.now ≤ 12 }
    requires piece { IsPiece height child None }
    requires short { length (join_items (with_pair nodes.now 0 child None)) ≤ 2 ^ 40 }
    requires fits { T.Summary.fits (fold T.Summary.empty T.Summary.op T.sum_of
        (join_items (with_pair nodes.now 0 child None))) }
    ensures spliced { IfOk result (λ p. IsSpliced height (length nodes.now)
        (join_items (with_pair nodes.now 0 child None)) p.0 p.1) }
    ensures cost { steps.new ≤ steps.old + 4 }
{
    let (front, back) = child.beside(alloc, &nodes[1], steps)?;
    with_children(alloc, height, nodes, 0, 2, front, back, steps)
}

// The one or two nodes that replace a node when its child k becomes `front` and `back`. A child with fewer than 6
// entries is joined with one beside it.
fn mend<T: Item, L: Ledger>(
    alloc: Global,
    height: u32,
    nodes: &[SumTree<T>],
    k: usize,
    front: SumTree<T>,
    back: Option<SumTree<T>>,
    steps: &mut Steps<L>,
) -> Result<(SumTree<T>, Option<SumTree<T>>), OutOfMemory>
    requires children { All (IsChild height) nodes.now }
    requires least { 2 ≤ length nodes.now }
    requires most { length nodes.now ≤ 12 }
    requires within { k < length nodes.now }
    requires pair { IsPiece height front back }
    requires short { length (join_items (with_pair nodes.now k front back)) ≤ 2 ^ 40 }
    requires fits { T.Summary.fits (fold T.Summary.empty T.Summary.op T.sum_of
        (join_items (with_pair nodes.now k front back))) }
    ensures spliced { IfOk result (λ p. IsSpliced height (length nodes.now)
        (join_items (with_pair nodes.now k front back)) p.0 p.1) }
    ensures cost { steps.new ≤ steps.old + 4 }
{
    if back.is_some() || front.width() >= LEAST {
        return with_children(alloc, height, nodes, k, k + 1, front, back, steps);
    }
    if k > 0 {
        return mend_left(alloc, height, nodes, k, front, steps);
    }
    mend_right(alloc, height, nodes, front, steps)
}

impl<T: Item> SumTree<T> {
    // The number of the root's entries.
    pub(crate) fn width(&self) -> usize
        ensures { result ≡ self.now.width }
    {
        match &self.node.content {
            Content::Leaf(entries) => entries.len(),
            Content::Inner(children) => children.len(),
        }
    }

    // The change within one leaf, if it is one: makes new nodes on the path to it, and leaves this tree as it is.
    fn spliced_leaf<L: Ledger>(
        &self,
        alloc: Global,
        from: u64,
        count: u64,
        entries: Vec<Entry<T>>,
        steps: &mut Steps<L>,
    ) -> Result<Splicing<SumTree<T>, Vec<Entry<T>>>, OutOfMemory>
        requires within { from + count ≤ length self.now.items }
        requires short { length (splice_list from (from + count) entries.items self.now.items)
            ≤ 2 ^ 40 }
        requires fits { T.Summary.fits (fold T.Summary.empty T.Summary.op T.sum_of
            (splice_list from (from + count) entries.items self.now.items)) }
        ensures splicing { IfOk result (λ r. IsSplicing self.now.height self.now.width
            (splice_list from (from + count) entries.items self.now.items) entries.items r) }
        ensures returned { IfOk result (λ r. IsReturn count entries.items r) }
        ensures cost { steps.new ≤ steps.old + (4 * self.now.height + 2) }
    {
        match &self.node.content {
            Content::Leaf(old) => {
                if entries.len() > MOST {
                    return Ok(Splicing::Back(entries));
                }
                let first = from as usize;
                let after = (from + count) as usize;
                let all = three_parts(alloc, &old[..first], entries, &old[after..])?;
                let (front, back) = leaves(alloc, all, steps)?;
                Ok(Splicing::Done(front, back))
            }
            Content::Inner(children) => {
                let (k, first) = match child_with(children, from, count) {
                    None => return Ok(Splicing::Back(entries)),
                    Some(place) => place,
                };
                match children[k].spliced_leaf(alloc, first, count, entries, steps)? {
                    Splicing::Back(entries) => Ok(Splicing::Back(entries)),
                    Splicing::Done(front, back) => {
                        let (front, back) = mend(
                            alloc,
                            self.node.height,
                            children,
                            k,
                            front,
                            back,
                            steps,
                        )?;
                        Ok(Splicing::Done(front, back))
                    }
                }
            }
        }
    }

    // A tree with a range replaced by these entries.
    pub(crate) fn with_splice<L: Ledger>(
        &self,
        alloc: Global,
        from: u64,
        to: u64,
        entries: Vec<Entry<T>>,
        steps: &mut Steps<L>,
    ) -> Result<SumTree<T>, OutOfMemory>
        requires order { from ≤ to }
        requires within { to ≤ length self.now.items }
        requires short { length (splice_list from to entries.items self.now.items) ≤ 2 ^ 40 }
        requires fits { T.Summary.fits (fold T.Summary.empty T.Summary.op T.sum_of
            (splice_list from to entries.items self.now.items)) }
        ensures items { IfOk result (λ t. t.items
            ≡ splice_list from to entries.items self.now.items) }
        ensures cost { steps.new ≤ steps.old +
            (24 * self.now.height + 2 * length entries.items + 21) }
        ensures narrow { to ≤ from + 1 → length entries.items ≤ 12
            → steps.new ≤ steps.old + (4 * self.now.height + 3) }
    {
        match self.spliced_leaf(alloc, from, to - from, entries, steps)? {
            Splicing::Done(front, back) => root(alloc, front, back, steps),
            Splicing::Back(entries) => {
                let front = self.take_front_counted(alloc, from, steps)?;
                let middle = from_entries(alloc, entries, steps)?;
                let whole = both(alloc, &front, &middle, steps)?;
                let rest = self.drop_front_counted(alloc, to, steps)?;
                both(alloc, &whole, &rest, steps)
            }
        }
    }

    // Replaces a range with these entries.
    pub(crate) fn put_counted<L: Ledger>(
        &mut self,
        alloc: Global,
        from: u64,
        to: u64,
        entries: Vec<Entry<T>>,
        steps: &mut Steps<L>,
    ) -> Result<(), OutOfMemory>
        requires order { from ≤ to }
        requires within { to ≤ length self.old.items }
        requires short { length (splice_list from to entries.items self.old.items) ≤ 2 ^ 40 }
        requires fits { T.Summary.fits (fold T.Summary.empty T.Summary.op T.sum_of
            (splice_list from to entries.items self.old.items)) }
        ensures ok { OnOk result (self.new.items
            ≡ splice_list from to entries.items self.old.items) }
        ensures err { OnErr result (self.new ≡ self.old) }
        ensures cost { steps.new ≤ steps.old +
            (26 * (self.old.height + 1) + 2 * length entries.items) }
        ensures narrow { to ≤ from + 1 → length entries.items ≤ 12
            → steps.new ≤ steps.old + 6 * (self.old.height + 1) }
    {
        let around = Vec::with_capacity(alloc, self.height() as usize)?;
        match self.place_here(alloc, 0, from, to - from, entries, around, steps)? {
            Placing::Done(_) => return Ok(()),
            Placing::Split(front, back, _) => {
                *self = root(alloc, front, Some(back), steps)?;
                return Ok(());
            }
            Placing::Back(entries) => {
                *self = self.with_splice(alloc, from, to, entries, steps)?;
                return Ok(());
            }
        }
    }

    // The same, with a counter made from the blank.
    fn put_with<L: Ledger>(
        &mut self,
        alloc: Global,
        from: u64,
        to: u64,
        entries: Vec<Entry<T>>,
        blank: Blank,
    ) -> Result<(), OutOfMemory>
        requires name { blank.name ≡ L.name }
        requires parts { blank.parts ≡ L.parts }
        requires some { 0 < blank.parts }
        requires order { from ≤ to }
        requires within { to ≤ length self.old.items }
        requires short { length (splice_list from to entries.items self.old.items) ≤ 2 ^ 40 }
        requires fits { T.Summary.fits (fold T.Summary.empty T.Summary.op T.sum_of
            (splice_list from to entries.items self.old.items)) }
        ensures ok { OnOk result (self.new.items
            ≡ splice_list from to entries.items self.old.items) }
        ensures err { OnErr result (self.new ≡ self.old) }
    {
        let mut steps = Steps::<L>::new(blank);
        self.put_counted(alloc, from, to, entries, &mut steps)
    }

    // The same, with a counter of its own.
    pub(crate) fn put(
        &mut self,
        alloc: Global,
        from: u64,
        to: u64,
        entries: Vec<Entry<T>>,
    ) -> Result<(), OutOfMemory>
        requires order { from ≤ to }
        requires within { to ≤ length self.old.items }
        requires short { length (splice_list from to entries.items self.old.items) ≤ 2 ^ 40 }
        requires fits { T.Summary.fits (fold T.Summary.empty T.Summary.op T.sum_of
            (splice_list from to entries.items self.old.items)) }
        ensures ok { OnOk result (self.new.items
            ≡ splice_list from to entries.items self.old.items) }
        ensures err { OnErr result (self.new ≡ self.old) }
    {
        self.put_with::<Brand>(alloc, from, to, entries, Blank::new(1))
    }

    /// Replaces the items in `from..to` with `items`. Indices count from 0; `from ≤ to`, and `to` is at most the number
    /// of items. The result must have at most 2^40 items, and its sum must fit.
    ///
    /// If the range lies in one leaf and there are at most 12 new items, this is one descent. It changes the nodes on
    /// the path in place if no other tree shares them and the leaf keeps at least 6 entries (a leaf root any number);
    /// if the leaf would then have more than 12 entries, two new leaves replace it, and two new nodes replace each node
    /// above it that has no room for one more child, up to the first that has. Otherwise it makes at most two nodes for
    /// each level, and one more for each child that would have fewer than 6 entries. In all other cases the items
    /// before the range, the new ones and those after the range are joined, as `append` does.
    ///
    /// # Errors
    ///
    /// Fails only if an allocation fails. The tree is then as before, and the new items are dropped.
    pub fn splice(
        &mut self,
        alloc: Global,
        from: u64,
        to: u64,
        items: Vec<T>,
    ) -> Result<(), OutOfMemory>
        requires order { from ≤ to }
        requires within { to ≤ length self.old.items }
        requires short { length (splice_list from to items.items self.old.items) ≤ 2 ^ 40 }
        requires fits { T.Summary.fits (fold T.Summary.empty T.Summary.op T.sum_of
            (splice_list from to items.items self.old.items)) }
        ensures ok { OnOk result (self.new.items ≡ splice_list from to items.items self.old.items) }
        ensures err { OnErr result (self.new ≡ self.old) }
    {
        let entries = entries_of(alloc, items)?;
        self.put(alloc, from, to, entries)
    }

    /// Does what `splice` does, under the same conditions, and counts a step for each node made: at most 26(h + 1) + 2m
    /// even if the call fails, where h is the height before the call and m the number of new items, and at most
    /// 6(h + 1) if at most one item is replaced by at most 12.
    pub fn splice_counted<L: Ledger>(
        &mut self,
        alloc: Global,
        from: u64,
        to: u64,
        items: Vec<T>,
        steps: &mut Steps<L>,
    ) -> Result<(), OutOfMemory>
        requires order { from ≤ to }
        requires within { to ≤ length self.old.items }
        requires short { length (splice_list from to items.items self.old.items) ≤ 2 ^ 40 }
        requires fits { T.Summary.fits (fold T.Summary.empty T.Summary.op T.sum_of
            (splice_list from to items.items self.old.items)) }
        ensures ok { OnOk result (self.new.items ≡ splice_list from to items.items self.old.items) }
        ensures err { OnErr result (self.new ≡ self.old) }
        ensures cost { steps.new ≤ steps.old +
            (26 * (self.old.height + 1) + 2 * length items.items) }
        ensures narrow { to ≤ from + 1 → length items.items ≤ 12
            → steps.new ≤ steps.old + 6 * (self.old.height + 1) }
    {
        let entries = entries_of(alloc, items)?;
        self.put_counted(alloc, from, to, entries, steps)
    }
}
