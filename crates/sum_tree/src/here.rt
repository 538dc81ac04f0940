//! Changes in place, while no other tree shares the nodes on the path.
ghost use Rattle.std.specs.Prelude.{◌≡◌, ℕ, List, ◌+◌, ◌*◌, ◌^◌, ◌<◌, ◌≤◌, [], ◌∷◌, ◌++◌, length, All, Some, IfOk, IfSome, OnOk, OnErr, vec_capacity, vec_len};
ghost use Rattle.sum_tree.specs.Laws.{fold};
ghost use Rattle.sum_tree.specs.Shape.{IsChild, IsContent, join_items, content_items, content_width};
ghost use Rattle.sum_tree.specs.Grown.{with_pair};
ghost use Rattle.sum_tree.specs.Here.{IsContinuation, IsPushed, IsPushedBeside};
ghost use Rattle.sum_tree.specs.Around.{Fitting, outer_sums, path_sums};
ghost use Rattle.sum_tree.specs.Placed.{AreChildren, IsNoted, IsPlacing, IsPlacingOr, content_seen, inner_seen, leaf_seen};
ghost use Rattle.sum_tree.specs.Spliced.{splice_list};

use crate::OutOfMemory;
use crate::around::{Around, around_child, entries_sum, settle, three_sum};
use crate::continuation::{Continuation, Nothing};
use crate::entry::Entry;
use crate::grow::{gather, two_inners, two_leaves};
use crate::splice::{child_with, three_parts};
use crate::steps::Steps;
use crate::traits::{Item, Summary};
use crate::tree::{Content, LEAST, MOST, SumTree, single};
use std::alloc::Global;
use std::marker::Brand;
use std::sync::Arc;
use std::sync::ledger::{Blank, Ledger};

// The outcome of a change in place. `Done`: the change is made; these are the new sums of the nodes above. `Split`:
// nothing was changed; these two nodes are to replace the node, and these are the sums of the nodes above. `Back`:
// nothing was changed, and the new entries are handed back.
#[derive(Drop)]
pub(crate) enum Placing<S: Drop, E: Drop, N: Drop> {
    Done(S),
    Split(N, N, S),
    Back(E),
}

// Replaces a range of the list with `run`, within the list's own block once it has room, by rotating the list twice.
fn turn_run<X: Drop>(
    list: &mut Vec<X>,
    from: usize,
    to: usize,
    mut run: Vec<X>,
) -> Result<(), OutOfMemory>
    requires order { from ≤ to }
    requires within { to ≤ length list.old.items }
    ensures ok { OnOk result (list.new.items ≡ splice_list from to run.items list.old.items) }
    ensures err { OnErr result (list.new.items ≡ list.old.items) }
{
    let count = to - from;
    let behind = list.len() - to;
    list.reserve(run.len().saturating_sub(count))?;
    list.rotate_left(to);
    list.truncate(behind + from);
    match list.append(&mut run) {
        Ok(()) => {}
        Err(_) => unreachable!(),
    }
    list.rotate_left(behind);
    Ok(())
}

// The same. If at most one element is replaced, by one or two, only the elements after it move.
pub(crate) fn put_run<X: Drop>(
    list: &mut Vec<X>,
    from: usize,
    to: usize,
    mut run: Vec<X>,
) -> Result<(), OutOfMemory>
    requires order { from ≤ to }
    requires within { to ≤ length list.old.items }
    ensures ok { OnOk result (list.new.items ≡ splice_list from to run.items list.old.items) }
    ensures err { OnErr result (list.new.items ≡ list.old.items) }
{
    match (to - from, run.len()) {
        (1, 0) => {
            let _old = list.remove(from);
            return Ok(());
        }
        (0, 1) => {
            list.insert(from, run.remove(0))?;
            return Ok(());
        }
        (1, 1 | 2) => {
            let front = run.remove(0);
            return put_pair(list, from, front, run.pop());
        }
        _ => return turn_run(list, from, to, run),
    }
}

// Two leaves with the entries of a leaf after a range of them is replaced.
fn split_leaf<T: Item, L: Ledger>(
    alloc: Global,
    old: &[Entry<T>],
    from: usize,
    to: usize,
    entries: Vec<Entry<T>>,
    around: Vec<Around<T::Summary>>,
    steps: &mut Steps<L>,
) -> Result<Placing<Vec<T::Summary>, Vec<Entry<T>>, SumTree<T>>, OutOfMemory>
    requires order { from ≤ to }
    requires within { to ≤ length old.now }
    requires most { length old.now ≤ 12 }
    requires few { length entries.items ≤ 12 }
    requires many { 12 < length (splice_list from to entries.items old.now) }
    requires fits { T.Summary.fits (fold T.Summary.empty T.Summary.op T.sum_of
        (splice_list from to entries.items old.now)) }
    requires fitting { Fitting T.Summary.fits T.Summary.op around.items
        (fold T.Summary.empty T.Summary.op T.sum_of (splice_list from to entries.items old.now)) }
    ensures placing { IfOk result (λ p. IsPlacing
        (path_sums T.Summary.op around.items
        (fold T.Summary.empty T.Summary.op T.sum_of (splice_list from to entries.items old.now))) 0
        (splice_list from to entries.items old.now) entries.items (leaf_seen old.now)
        (leaf_seen old.now) p) }
    ensures cost { steps.new ≤ steps.old + 2 }
{
    let all = three_parts(alloc, &old[..from], entries, &old[to..])?;
    let sum = entries_sum(alloc, &all)?;
    let sums = settle(alloc, around, sum)?;
    let (front, back) = two_leaves(alloc, all, steps)?;
    Ok(Placing::Split(front, back, sums))
}

// Replaces a range of a leaf's entries. Hands the new entries back if there are more than 12 of them, or if the leaf
// would have fewer than `least`.
fn place_in_leaf<T: Item, L: Ledger>(
    alloc: Global,
    least: usize,
    old: &mut Vec<Entry<T>>,
    from: u64,
    count: u64,
    entries: Vec<Entry<T>>,
    around: Vec<Around<T::Summary>>,
    steps: &mut Steps<L>,
) -> Result<Placing<Vec<T::Summary>, Vec<Entry<T>>, SumTree<T>>, OutOfMemory>
    requires within { from + count ≤ length old.old.items }
    requires most { length old.old.items ≤ 12 }
    requires fits { T.Summary.fits (fold T.Summary.empty T.Summary.op T.sum_of
        (splice_list from (from + count) entries.items old.old.items)) }
    requires fitting { Fitting T.Summary.fits T.Summary.op around.items
        (fold T.Summary.empty T.Summary.op T.sum_of
        (splice_list from (from + count) entries.items old.old.items)) }
    ensures most { length old.new.items ≤ 12 }
    ensures placing { IsPlacingOr (path_sums T.Summary.op around.items
        (fold T.Summary.empty T.Summary.op T.sum_of
        (splice_list from (from + count) entries.items old.old.items))) least
        (splice_list from (from + count) entries.items old.old.items) entries.items
        (leaf_seen old.old.items) (leaf_seen old.new.items) result }
    ensures cost { steps.new ≤ steps.old + 2 }
{
    let first = from as usize;
    let after = (from + count) as usize;
    let kept = first + (old.len() - after);
    if entries.len() > MOST || kept + entries.len() < least {
        return Ok(Placing::Back(entries));
    }
    if kept + entries.len() > MOST {
        return split_leaf(alloc, old, first, after, entries, around, steps);
    }
    let sum = three_sum(alloc, &old[..first], &entries, &old[after..])?;
    let sums = settle(alloc, around, sum)?;
    put_run(old, first, after, entries)?;
    Ok(Placing::Done(sums))
}

// Replaces element k with one element, or with two.
fn put_pair<X: Drop>(
    list: &mut Vec<X>,
    k: usize,
    front: X,
    back: Option<X>,
) -> Result<(), OutOfMemory>
    requires { k < length list.old.items }
    ensures ok { OnOk result (list.new.items ≡ with_pair list.old.items k front back) }
    ensures err { OnErr result (list.new.items ≡ list.old.items) }
{
    match back {
        None => {
            list[k] = front;
            Ok(())
        }
        Some(back) => {
            list.insert(k + 1, back)?;
            list[k] = front;
            Ok(())
        }
    }
}

// Replaces child k with a pair. If there is no room for one more child, leaves the children as they are and makes the
// two nodes that are to replace their node. `sums` are the sums of the nodes on the path.
pub(crate) fn pair_in_place<T: Item, L: Ledger>(
    alloc: Global,
    height: u32,
    children: &mut Vec<SumTree<T>>,
    k: usize,
    front: SumTree<T>,
    back: SumTree<T>,
    sums: Vec<T::Summary>,
    steps: &mut Steps<L>,
) -> Result<Placing<Vec<T::Summary>, Vec<Entry<T>>, SumTree<T>>, OutOfMemory>
    requires children { AreChildren height children.old.items }
    requires within { k < length children.old.items }
    requires front { IsChild height front }
    requires back { IsChild height back }
    requires short { length (join_items
        (with_pair children.old.items k front (Some back))) ≤ 2 ^ 40 }
    requires fits { T.Summary.fits (fold T.Summary.empty T.Summary.op T.sum_of
        (join_items (with_pair children.old.items k front (Some back)))) }
    ensures children { AreChildren height children.new.items }
    ensures placing { (ys : List T) → IsPlacingOr sums.items (length children.old.items)
        (join_items (with_pair children.old.items k front (Some back))) ys
        (inner_seen height children.old.items) (inner_seen height children.new.items) result }
    ensures cost { steps.new ≤ steps.old + 2 }
{
    if children.len() < MOST {
        put_pair(children, k, front, Some(back))?;
        return Ok(Placing::Done(sums));
    }
    let all = gather(alloc, children, k, k + 1, front, Some(back))?;
    let (front, back) = two_inners(alloc, height, all, steps)?;
    Ok(Placing::Split(front, back, sums))
}

// Removes the last sum. If the change is made, that is the node's new sum, and `count` is its new length.
fn note<S: Drop, E: Drop, N: Drop>(
    count: u64,
    len: &mut u64,
    sum: &mut S,
    placing: Placing<Vec<S>, E, N>,
) -> Placing<Vec<S>, E, N>
    ensures { IsNoted count len.old len.new sum.old sum.new placing result }
{
    match placing {
        Placing::Done(mut sums) => match sums.pop() {
            None => return Placing::Done(sums),
            Some(last) => {
                *len = count;
                *sum = last;
                return Placing::Done(sums);
            }
        },
        Placing::Split(front, back, mut sums) => {
            let _last = sums.pop();
            return Placing::Split(front, back, sums);
        }
        Placing::Back(entries) => return Placing::Back(entries),
    }
}

// Replaces the last element with one element, or with two.
fn put_last<X: Drop>(list: &mut Vec<X>, last: usize, front: X, back: Option<X>)
    requires last { last + 1 ≡ vec_len list.old }
    requires room { vec_len list.old < vec_capacity list.old }
    ensures { list.new.items ≡ with_pair list.old.items last front back }
{
    match back {
        None => list[last] = front,
        Some(back) => {
            list[last] = front;
            list.push_reserved(back);
        }
    }
}

// Appends the entry to the items of these children, in a copy of the last child and of its last path, after the
// continuation. Hands the entry back if there is no room for one more child.
fn push_beside<T: Item, L: Ledger, K: Continuation>(
    alloc: Global,
    height: u32,
    children: &mut Vec<SumTree<T>>,
    entry: Entry<T>,
    steps: &mut Steps<L>,
    rest: &mut K,
) -> Result<Option<Entry<T>>, OutOfMemory>
    requires children { All (IsChild height) children.old.items }
    requires least { 2 ≤ length children.old.items }
    requires short { length (join_items children.old.items ++ entry ∷ []) ≤ 2 ^ 40 }
    requires fits { T.Summary.fits (fold T.Summary.empty T.Summary.op T.sum_of
        (join_items children.old.items ++ entry ∷ [])) }
    requires may { K.may rest.old }
    ensures pushed { IsPushedBeside height children.old.items children.new.items entry result }
    ensures rest { IsContinuation K.done K.kept rest.old rest.new result }
    ensures back { IfOk result (λ o. IfSome o (λ _. steps.new ≡ steps.old)) }
    ensures cost { steps.new ≤ steps.old + (2 * height + 1) }
{
    if children.len() >= MOST {
        return Ok(Some(entry));
    }
    let last = children.len() - 1;
    let other = single(alloc, entry, steps)?;
    let (front, back) = children[last].with_behind(alloc, &other, steps)?;
    children.reserve(1)?;
    rest.run(alloc)?;
    put_last(children, last, front, back);
    Ok(None)
}

// Appends the entry to a leaf's entries after the continuation, or hands it back if the leaf is full.
fn push_in_leaf<T: Item, K: Continuation>(
    alloc: Global,
    entries: &mut Vec<Entry<T>>,
    entry: Entry<T>,
    rest: &mut K,
) -> Result<Option<Entry<T>>, OutOfMemory>
    requires most { length entries.old.items ≤ 12 }
    requires may { K.may rest.old }
    ensures most { length entries.new.items ≤ 12 }
    ensures pushed { IsPushed (leaf_seen entries.old.items)
        (leaf_seen entries.new.items) entry result }
    ensures rest { IsContinuation K.done K.kept rest.old rest.new result }
{
    if entries.len() >= MOST {
        return Ok(Some(entry));
    }
    entries.reserve(1)?;
    rest.run(alloc)?;
    entries.push_reserved(entry);
    Ok(None)
}

// This sum with one more entry added.
fn sum_with<T: Item>(
    alloc: Global,
    sum: &T::Summary,
    entry: &Entry<T>,
) -> Result<T::Summary, OutOfMemory>
    requires begun { T.Summary.fits (T.Summary.op T.Summary.empty sum.now) }
    requires fits { T.Summary.fits (T.Summary.op (T.Summary.op T.Summary.empty sum.now)
        (T.sum_of entry.now)) }
    ensures { IfOk result (λ s. s ≡ T.Summary.op (T.Summary.op T.Summary.empty sum.now)
        (T.sum_of entry.now)) }
{
    let mut new = T::Summary::zero(alloc);
    new.add(alloc, sum)?;
    new.add(alloc, entry.sum())?;
    Ok(new)
}

impl<T: Item> SumTree<T> {
    // Appends the entry to the items of these children after the continuation, in place if the last child can take it in
    // place, or hands it back.
    #[cycle(pushing)]
    fn push_in_children<L: Ledger, K: Continuation>(
        alloc: Global,
        height: u32,
        children: &mut Vec<SumTree<T>>,
        entry: Entry<T>,
        steps: &mut Steps<L>,
        rest: &mut K,
    ) -> Result<Option<Entry<T>>, OutOfMemory>
        requires children { AreChildren height children.old.items }
        requires short { length (join_items children.old.items) < 2 ^ 40 }
        requires fits { T.Summary.fits (fold T.Summary.empty T.Summary.op T.sum_of
            (join_items children.old.items ++ entry ∷ [])) }
        requires may { K.may rest.old }
        ensures children { AreChildren height children.new.items }
        ensures pushed { IsPushed (inner_seen height children.old.items)
            (inner_seen height children.new.items) entry result }
        ensures rest { IsContinuation K.done K.kept rest.old rest.new result }
        ensures back { IfOk result (λ o. IfSome o (λ _. steps.new ≡ steps.old)) }
        ensures cost { steps.new ≤ steps.old + (2 * height + 1) }
    {
        let last = children.len() - 1;
        match children[last].push_here(alloc, entry, steps, rest)? {
            Some(entry) => return push_beside(alloc, height, children, entry, steps, rest),
            None => return Ok(None),
        }
    }

    // Appends the entry in place to what a node of this height holds, after the continuation, or hands it back.
    #[cycle(pushing)]
    fn push_in<L: Ledger, K: Continuation>(
        alloc: Global,
        height: u32,
        content: &mut Content<T>,
        entry: Entry<T>,
        steps: &mut Steps<L>,
        rest: &mut K,
    ) -> Result<Option<Entry<T>>, OutOfMemory>
        requires content { IsContent height content.old }
        requires short { length (content_items content.old) < 2 ^ 40 }
        requires fits { T.Summary.fits (fold T.Summary.empty T.Summary.op T.sum_of
            (content_items content.old ++ entry ∷ [])) }
        requires may { K.may rest.old }
        ensures content { IsContent height content.new }
        ensures pushed { IsPushed (content_seen height content.old)
            (content_seen height content.new) entry result }
        ensures rest { IsContinuation K.done K.kept rest.old rest.new result }
        ensures back { IfOk result (λ o. IfSome o (λ _. steps.new ≡ steps.old)) }
        ensures cost { steps.new ≤ steps.old + (2 * height + 1) }
    {
        match content {
            Content::Leaf(entries) => return push_in_leaf(alloc, entries, entry, rest),
            Content::Inner(children) => {
                return Self::push_in_children(alloc, height, children, entry, steps, rest);
            }
        }
    }

    // Appends the entry in place, after the continuation, or hands it back if a node on the path is shared or the leaf is
    // full.
    #[cycle(pushing)]
    pub(crate) fn push_here<L: Ledger, K: Continuation>(
        &mut self,
        alloc: Global,
        entry: Entry<T>,
        steps: &mut Steps<L>,
        rest: &mut K,
    ) -> Result<Option<Entry<T>>, OutOfMemory>
        requires short { length self.old.items < 2 ^ 40 }
        requires fits { T.Summary.fits (fold T.Summary.empty T.Summary.op T.sum_of
            (self.old.items ++ entry ∷ [])) }
        requires may { K.may rest.old }
        ensures pushed { IsPushed self.old self.new entry result }
        ensures rest { IsContinuation K.done K.kept rest.old rest.new result }
        ensures back { IfOk result (λ o. IfSome o (λ _. steps.new ≡ steps.old)) }
        ensures cost { steps.new ≤ steps.old + (2 * self.old.height + 1) }
    {
        let node = match Arc::get_mut(&mut self.node) {
            None => return Ok(Some(entry)),
            Some(node) => node,
        };
        let sum = sum_with(alloc, &node.sum, &entry)?;
        match Self::push_in(alloc, node.height, &mut node.content, entry, steps, rest)? {
            Some(entry) => return Ok(Some(entry)),
            None => {
                node.len += 1;
                node.sum = sum;
                return Ok(None);
            }
        }
    }
}

// Does what `push_here` does, with a counter made from the blank.
fn push_here_with<T: Item, L: Ledger>(
    alloc: Global,
    tree: &mut SumTree<T>,
    entry: Entry<T>,
    blank: Blank,
) -> Result<Option<Entry<T>>, OutOfMemory>
    requires name { blank.name ≡ L.name }
    requires parts { blank.parts ≡ L.parts }
    requires some { 0 < blank.parts }
    requires short { length tree.old.items < 2 ^ 40 }
    requires fits { T.Summary.fits (fold T.Summary.empty T.Summary.op T.sum_of
        (tree.old.items ++ entry ∷ [])) }
    ensures { IsPushed tree.old tree.new entry result }
{
    let mut steps = Steps::<L>::new(blank);
    tree.push_here(alloc, entry, &mut steps, &mut Nothing)
}

// The same, with a counter of its own.
pub(crate) fn push_alone<T: Item>(
    alloc: Global,
    tree: &mut SumTree<T>,
    entry: Entry<T>,
) -> Result<Option<Entry<T>>, OutOfMemory>
    requires short { length tree.old.items < 2 ^ 40 }
    requires fits { T.Summary.fits (fold T.Summary.empty T.Summary.op T.sum_of
        (tree.old.items ++ entry ∷ [])) }
    ensures { IsPushed tree.old tree.new entry result }
{
    push_here_with::<T, Brand>(alloc, tree, entry, Blank::new(1))
}

impl<T: Item> SumTree<T> {
    // Replaces a range of the items below a node's children, if the range lies in one leaf.
    #[cycle(placing)]
    fn place_in_children<L: Ledger>(
        alloc: Global,
        height: u32,
        children: &mut Vec<SumTree<T>>,
        from: u64,
        count: u64,
        entries: Vec<Entry<T>>,
        mut around: Vec<Around<T::Summary>>,
        steps: &mut Steps<L>,
    ) -> Result<Placing<Vec<T::Summary>, Vec<Entry<T>>, SumTree<T>>, OutOfMemory>
        requires children { AreChildren height children.old.items }
        requires old_fits { T.Summary.fits (fold T.Summary.empty T.Summary.op T.sum_of
            (join_items children.old.items)) }
        requires within { from + count ≤ length (join_items children.old.items) }
        requires short { length (splice_list from (from + count) entries.items
            (join_items children.old.items)) ≤ 2 ^ 40 }
        requires fits { T.Summary.fits (fold T.Summary.empty T.Summary.op T.sum_of
            (splice_list from (from + count) entries.items (join_items children.old.items))) }
        requires fitting { Fitting T.Summary.fits T.Summary.op around.items
            (fold T.Summary.empty T.Summary.op T.sum_of
            (splice_list from (from + count) entries.items (join_items children.old.items))) }
        ensures children { AreChildren height children.new.items }
        ensures placing { IsPlacingOr (path_sums T.Summary.op around.items
            (fold T.Summary.empty T.Summary.op T.sum_of
            (splice_list from (from + count) entries.items (join_items children.old.items))))
            (length children.old.items)
            (splice_list from (from + count) entries.items
            (join_items children.old.items)) entries.items
            (inner_seen height children.old.items) (inner_seen height children.new.items) result }
        ensures cost { steps.new ≤ steps.old + 2 * (height + 1) }
    {
        let (k, first) = match child_with(children, from, count) {
            None => return Ok(Placing::Back(entries)),
            Some(place) => place,
        };
        around.push(around_child(alloc, children, k)?)?;
        match children[k].place_here(alloc, LEAST, first, count, entries, around, steps)? {
            Placing::Done(sums) => return Ok(Placing::Done(sums)),
            Placing::Split(front, back, sums) => {
                return pair_in_place(alloc, height, children, k, front, back, sums, steps);
            }
            Placing::Back(entries) => return Ok(Placing::Back(entries)),
        }
    }

    // The same for what a node of this height holds.
    #[cycle(placing)]
    fn place_in<L: Ledger>(
        alloc: Global,
        height: u32,
        content: &mut Content<T>,
        least: usize,
        from: u64,
        count: u64,
        entries: Vec<Entry<T>>,
        around: Vec<Around<T::Summary>>,
        steps: &mut Steps<L>,
    ) -> Result<Placing<Vec<T::Summary>, Vec<Entry<T>>, SumTree<T>>, OutOfMemory>
        requires content { IsContent height content.old }
        requires wide { least ≤ content_width content.old }
        requires old_fits { T.Summary.fits (fold T.Summary.empty T.Summary.op T.sum_of
            (content_items content.old)) }
        requires within { from + count ≤ length (content_items content.old) }
        requires short { length (splice_list from (from + count) entries.items
            (content_items content.old)) ≤ 2 ^ 40 }
        requires fits { T.Summary.fits (fold T.Summary.empty T.Summary.op T.sum_of
            (splice_list from (from + count) entries.items (content_items content.old))) }
        requires fitting { Fitting T.Summary.fits T.Summary.op around.items
            (fold T.Summary.empty T.Summary.op T.sum_of
            (splice_list from (from + count) entries.items (content_items content.old))) }
        ensures content { IsContent height content.new }
        ensures placing { IsPlacingOr (path_sums T.Summary.op around.items
            (fold T.Summary.empty T.Summary.op T.sum_of
            (splice_list from (from + count) entries.items (content_items content.old)))) least
            (splice_list from (from + count) entries.items
            (content_items content.old)) entries.items
            (content_seen height content.old) (content_seen height content.new) result }
        ensures cost { steps.new ≤ steps.old + 2 * (height + 1) }
    {
        match content {
            Content::Leaf(old) => {
                return place_in_leaf(alloc, least, old, from, count, entries, around, steps);
            }
            Content::Inner(children) => {
                return Self::place_in_children(
                    alloc, height, children, from, count, entries, around, steps,
                );
            }
        }
    }

    // Replaces a range of one leaf with these entries. Hands them back if a node on the path is shared, if the range
    // does not lie in one leaf, if there are more than 12 of them, or if the leaf would have fewer than `least`
    // entries.
    #[cycle(placing)]
    pub(crate) fn place_here<L: Ledger>(
        &mut self,
        alloc: Global,
        least: usize,
        from: u64,
        count: u64,
        entries: Vec<Entry<T>>,
        around: Vec<Around<T::Summary>>,
        steps: &mut Steps<L>,
    ) -> Result<Placing<Vec<T::Summary>, Vec<Entry<T>>, SumTree<T>>, OutOfMemory>
        requires wide { least ≤ self.old.width }
        requires within { from + count ≤ length self.old.items }
        requires short { length (splice_list from (from + count) entries.items self.old.items)
            ≤ 2 ^ 40 }
        requires fits { T.Summary.fits (fold T.Summary.empty T.Summary.op T.sum_of
            (splice_list from (from + count) entries.items self.old.items)) }
        requires fitting { Fitting T.Summary.fits T.Summary.op around.items
            (fold T.Summary.empty T.Summary.op T.sum_of
            (splice_list from (from + count) entries.items self.old.items)) }
        ensures placing { IsPlacingOr (outer_sums T.Summary.op around.items
            (fold T.Summary.empty T.Summary.op T.sum_of
            (splice_list from (from + count) entries.items self.old.items))) least
            (splice_list from (from + count) entries.items self.old.items) entries.items self.old
            self.new result }
        ensures cost { steps.new ≤ steps.old + 2 * (self.old.height + 1) }
    {
        let node = match Arc::get_mut(&mut self.node) {
            None => return Ok(Placing::Back(entries)),
            Some(node) => node,
        };
        let len = node.len - count + entries.len() as u64;
        let placing = Self::place_in(
            alloc,
            node.height,
            &mut node.content,
            least,
            from,
            count,
            entries,
            around,
            steps,
        )?;
        Ok(note(len, &mut node.len, &mut node.sum, placing))
    }
}
