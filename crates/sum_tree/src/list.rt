//! A tree built from a list, level by level.
ghost use Rattle.std.specs.Prelude.{◌≡◌, ℕ, ◌+◌, ◌*◌, ◌^◌, ◌<◌, ◌≤◌, [], ◌∷◌, ◌++◌, length, IfOk, All};
ghost use Rattle.sum_tree.specs.Laws.{fold};
ghost use Rattle.sum_tree.specs.Shape.{IsChild, join_items};
ghost use Rattle.sum_tree.specs.Groups.{elements, IsGroup};

use crate::OutOfMemory;
use crate::entry::Entry;
use crate::steps::Steps;
use crate::traits::Item;
use crate::tree::{LEAST, MOST, SumTree, inner, leaf};
use std::alloc::Global;
use std::marker::Brand;
use std::sync::ledger::{Blank, Ledger};

// The length of the last run when `n` elements are cut into runs of 6 to 12, all but at most two of them full.
fn last_run(n: usize) -> usize
    requires least { 6 ≤ n }
    ensures least { 6 ≤ result }
    ensures most { result ≤ 12 }
    ensures within { result ≤ n }
    ensures rest { result < n → 6 + result ≤ n }
{
    let over = n % MOST;
    if n <= MOST {
        n
    } else if over == 0 {
        MOST
    } else if over < LEAST {
        LEAST
    } else {
        over
    }
}

// The elements in runs of 12, of which at most two are shorter, with at least 6 each.
fn groups<X: Drop>(alloc: Global, mut items: Vec<X>) -> Result<Vec<Vec<X>>, OutOfMemory>
    requires least { 6 ≤ length items.items }
    ensures chained { IfOk result (λ gs. elements gs.items ≡ items.items) }
    ensures sizes { IfOk result (λ gs. All IsGroup gs.items) }
    ensures few { IfOk result (λ gs. 6 * length gs.items ≤ length items.items) }
    ensures enough { IfOk result (λ gs. length items.items ≤ 12 * length gs.items) }
{
    let mut groups = Vec::with_capacity(alloc, items.len() / MOST + 1)?;
    while !items.is_empty() {
        let first = items.len() - last_run(items.len());
        groups.push(items.split_off(first)?)?;
    }
    groups.reverse();
    Ok(groups)
}

/// A `Vec` of one element. If the allocation fails, the element is dropped.
pub fn list_of_one<X: Drop>(alloc: Global, element: X) -> Result<Vec<X>, OutOfMemory>
    ensures { IfOk result (λ xs. xs.items ≡ element ∷ []) }
{
    let mut list = Vec::with_capacity(alloc, 1)?;
    list.push(element)?;
    Ok(list)
}

// An entry for each item.
pub(crate) fn entries_of<T: Item>(
    alloc: Global,
    items: Vec<T>,
) -> Result<Vec<Entry<T>>, OutOfMemory>
    requires fits { T.Summary.fits (fold T.Summary.empty T.Summary.op T.sum_of items.items) }
    ensures { IfOk result (λ es. es.items ≡ items.items) }
{
    let mut entries = Vec::with_capacity(alloc, items.len())?;
    for item in items {
        entries.push(Entry::new(alloc, item)?)?;
    }
    Ok(entries)
}

// One leaf for each run of entries.
fn leaf_level<T: Item, L: Ledger>(
    alloc: Global,
    groups: Vec<Vec<Entry<T>>>,
    steps: &mut Steps<L>,
) -> Result<Vec<SumTree<T>>, OutOfMemory>
    requires sizes { All IsGroup groups.items }
    requires fits { T.Summary.fits (fold T.Summary.empty T.Summary.op T.sum_of
        (elements groups.items)) }
    ensures items { IfOk result (λ ts. join_items ts.items ≡ elements groups.items) }
    ensures children { IfOk result (λ ts. All (IsChild 1) ts.items) }
    ensures fewer { IfOk result (λ ts. length ts.items ≡ length groups.items) }
    ensures cost { steps.new ≤ steps.old + length groups.items }
{
    let mut nodes = Vec::with_capacity(alloc, groups.len())?;
    for group in groups {
        nodes.push(leaf(alloc, group, steps)?)?;
    }
    Ok(nodes)
}

// One node for each run of nodes.
fn inner_level<T: Item, L: Ledger>(
    alloc: Global,
    height: u32,
    groups: Vec<Vec<SumTree<T>>>,
    steps: &mut Steps<L>,
) -> Result<Vec<SumTree<T>>, OutOfMemory>
    requires sizes { All IsGroup groups.items }
    requires children { All (IsChild height) (elements groups.items) }
    requires short { length (join_items (elements groups.items)) ≤ 2 ^ 40 }
    requires fits { T.Summary.fits (fold T.Summary.empty T.Summary.op T.sum_of
        (join_items (elements groups.items))) }
    ensures items { IfOk result (λ ts. join_items ts.items ≡ join_items (elements groups.items)) }
    ensures children { IfOk result (λ ts. All (IsChild (height + 1)) ts.items) }
    ensures fewer { IfOk result (λ ts. length ts.items ≡ length groups.items) }
    ensures cost { steps.new ≤ steps.old + length groups.items }
{
    let mut nodes = Vec::with_capacity(alloc, groups.len())?;
    for group in groups {
        nodes.push(inner(alloc, height, group, steps)?)?;
    }
    Ok(nodes)
}

// A tree of these entries.
pub(crate) fn from_entries<T: Item, L: Ledger>(
    alloc: Global,
    entries: Vec<Entry<T>>,
    steps: &mut Steps<L>,
) -> Result<SumTree<T>, OutOfMemory>
    requires short { length entries.items ≤ 2 ^ 40 }
    requires fits { T.Summary.fits (fold T.Summary.empty T.Summary.op T.sum_of entries.items) }
    ensures items { IfOk result (λ t. t.items ≡ entries.items) }
    ensures height { IfOk result (λ t. 6 * t.height ≤ length entries.items) }
    ensures cost { steps.new ≤ steps.old + (length entries.items + 1) }
{
    if entries.len() <= MOST {
        return leaf(alloc, entries, steps);
    }
    let mut nodes = leaf_level(alloc, groups(alloc, entries)?, steps)?;
    let mut height = 1;
    while nodes.len() > MOST {
        nodes = inner_level(alloc, height, groups(alloc, nodes)?, steps)?;
        height += 1;
    }
    inner(alloc, height, nodes, steps)
}

// The same, with a counter made from the blank.
pub(crate) fn from_entries_with<T: Item, L: Ledger>(
    alloc: Global,
    entries: Vec<Entry<T>>,
    blank: Blank,
) -> Result<SumTree<T>, OutOfMemory>
    requires name { blank.name ≡ L.name }
    requires parts { blank.parts ≡ L.parts }
    requires some { 0 < blank.parts }
    requires short { length entries.items ≤ 2 ^ 40 }
    requires fits { T.Summary.fits (fold T.Summary.empty T.Summary.op T.sum_of entries.items) }
    ensures items { IfOk result (λ t. t.items ≡ entries.items) }
    ensures height { IfOk result (λ t. 6 * t.height ≤ length entries.items) }
{
    let mut steps = Steps::<L>::new(blank);
    from_entries(alloc, entries, &mut steps)
}

impl<T: Item> SumTree<T> {
    /// A tree of these items, in O(n) time. There must be at most 2^40 of them, and their sum must fit.
    ///
    /// Nodes are made level by level; on each level all but at most two are full.
    ///
    /// # Errors
    ///
    /// Fails only if an allocation fails. The items are then dropped.
    pub fn from_list(alloc: Global, items: Vec<T>) -> Result<SumTree<T>, OutOfMemory>
        requires short { length items.items ≤ 2 ^ 40 }
        requires fits { T.Summary.fits (fold T.Summary.empty T.Summary.op T.sum_of items.items) }
        ensures { IfOk result (λ t. t.items ≡ items.items) }
    {
        let entries = entries_of(alloc, items)?;
        from_entries_with::<T, Brand>(alloc, entries, Blank::new(1))
    }
}
