//! The sums of the nodes on a path, computed before anything on the path changes.
ghost use Rattle.std.specs.Prelude.{◌≡◌, ◌<◌, ◌++◌, length, take, drop, ◌+◌, IfOk};
ghost use Rattle.sum_tree.specs.Laws.{fold};
ghost use Rattle.sum_tree.specs.Shape.{join_items};
ghost use Rattle.sum_tree.specs.Around.{path_sums, Fitting};

use crate::OutOfMemory;
use crate::entry::Entry;
use crate::traits::{Item, Summary};
use crate::tree::SumTree;
use std::alloc::Global;

// The sums of what lies before and after the child on the path.
#[derive(Drop)]
pub(crate) struct Around<S: Drop> {
    pub(crate) before: S,
    pub(crate) behind: S,
}

// The sum of these entries.
pub(crate) fn entries_sum<T: Item>(
    alloc: Global,
    entries: &[Entry<T>],
) -> Result<T::Summary, OutOfMemory>
    requires fits { T.Summary.fits (fold T.Summary.empty T.Summary.op T.sum_of entries.now) }
    ensures { IfOk result (λ s. s ≡ fold T.Summary.empty T.Summary.op T.sum_of entries.now) }
{
    let mut sum = T::Summary::zero(alloc);
    let Some((first, rest)) = entries.split_first() else {
        return Ok(sum);
    };
    let mut last = first;
    for entry in rest {
        sum.add_before(alloc, last.sum(), entry.sum())?;
        last = entry;
    }
    sum.add(alloc, last.sum())?;
    Ok(sum)
}

// The sum of these trees.
pub(crate) fn trees_sum<T: Item>(
    alloc: Global,
    trees: &[SumTree<T>],
) -> Result<T::Summary, OutOfMemory>
    requires fits { T.Summary.fits
        (fold T.Summary.empty T.Summary.op T.sum_of (join_items trees.now)) }
    ensures { IfOk result (λ s. s
        ≡ fold T.Summary.empty T.Summary.op T.sum_of (join_items trees.now)) }
{
    let mut sum = T::Summary::zero(alloc);
    let Some((first, rest)) = trees.split_first() else {
        return Ok(sum);
    };
    let mut last = first;
    for tree in rest {
        sum.add_before(alloc, last.summary(), tree.summary())?;
        last = tree;
    }
    sum.add(alloc, last.summary())?;
    Ok(sum)
}

// The sums of what lies before and after child k.
pub(crate) fn around_child<T: Item>(
    alloc: Global,
    nodes: &[SumTree<T>],
    k: usize,
) -> Result<Around<T::Summary>, OutOfMemory>
    requires within { k < length nodes.now }
    requires fits { T.Summary.fits
        (fold T.Summary.empty T.Summary.op T.sum_of (join_items nodes.now)) }
    ensures before { IfOk result (λ a. a.before
        ≡ fold T.Summary.empty T.Summary.op T.sum_of (join_items (take k nodes.now))) }
    ensures behind { IfOk result (λ a. a.behind
        ≡ fold T.Summary.empty T.Summary.op T.sum_of (join_items (drop (k + 1) nodes.now))) }
{
    let before = trees_sum(alloc, &nodes[..k])?;
    let behind = trees_sum(alloc, &nodes[k + 1..])?;
    Ok(Around { before, behind })
}

// The sum of three runs of entries, one after the other.
pub(crate) fn three_sum<T: Item>(
    alloc: Global,
    front: &[Entry<T>],
    middle: &[Entry<T>],
    back: &[Entry<T>],
) -> Result<T::Summary, OutOfMemory>
    requires { T.Summary.fits (fold T.Summary.empty T.Summary.op T.sum_of
        ((front.now ++ middle.now) ++ back.now)) }
    ensures { IfOk result (λ s. s ≡ fold T.Summary.empty T.Summary.op T.sum_of
        ((front.now ++ middle.now) ++ back.now)) }
{
    let mut sum = entries_sum(alloc, front)?;
    let new = entries_sum(alloc, middle)?;
    sum.add(alloc, &new)?;
    let rest = entries_sum(alloc, back)?;
    sum.add(alloc, &rest)?;
    Ok(sum)
}

// Given the sum of a node and what lies around it on each level above: the sums of the nodes above it, from the root
// down, followed by its own.
pub(crate) fn settle<S: Summary>(
    alloc: Global,
    mut around: Vec<Around<S>>,
    sum: S,
) -> Result<Vec<S>, OutOfMemory>
    requires { Fitting S.fits S.op around.items sum }
    ensures { IfOk result (λ ss. ss.items ≡ path_sums S.op around.items sum) }
{
    match around.pop() {
        None => {
            let mut sums = Vec::with_capacity(alloc, around.capacity() + 1)?;
            sums.push(sum)?;
            return Ok(sums);
        }
        Some(level) => {
            let Around { mut before, behind } = level;
            before.add_before(alloc, &sum, &behind)?;
            before.add(alloc, &behind)?;
            let mut sums = settle(alloc, around, before)?;
            sums.push(sum)?;
            return Ok(sums);
        }
    }
}
