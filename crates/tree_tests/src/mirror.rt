//! Trees beside plain lists of their numbers.
use crate::numbered::Numbered;
use std::alloc::Global;
use sum_tree::{OutOfMemory, Parts, SumTree};

// The number of an item.
pub(crate) fn number_of<T: Numbered>(item: Option<&T>) -> Option<u64> {
    match item {
        None => None,
        Some(item) => Some(item.number()),
    }
}

// How many entries the root has, and its children, if it is no leaf.
fn root_of<T: Numbered>(tree: &SumTree<T>) -> (usize, &[SumTree<T>]) {
    match tree.parts() {
        Parts::Leaf(entries) => (entries.len(), &[]),
        Parts::Inner(children) => (children.len(), children),
    }
}

// Whether all leaves lie at this depth below a root of these parts, and each node below it has 6 to 12 entries.
fn is_even<T: Numbered>(root: Parts<T>, height: u32) -> bool {
    let children = match root {
        Parts::Leaf(_) => return height == 0,
        Parts::Inner(children) => children,
    };
    if height == 0 {
        return false;
    }
    let mut even = true;
    for child in children {
        let (entries, _) = root_of(child);
        let below = is_even(child.parts(), height - 1);
        even = even & below & (child.height() == height - 1) & (entries >= 6) & (entries <= 12);
    }
    even
}

// Whether these are the numbers of a tree.
pub(crate) fn has_numbers<T: Numbered>(tree: &SumTree<T>, numbers: &[u64]) -> bool {
    let n = numbers.len() as u64;
    let mut same = (tree.len() == n) & (tree.is_empty() == (n == 0)) & tree.get(n).is_none();
    for (i, number) in numbers.iter().enumerate() {
        same = same & (number_of(tree.get(i as u64)) == Some(*number));
    }
    same
}

// Whether they are the first and the last ones of a tree.
fn has_ends<T: Numbered>(tree: &SumTree<T>, numbers: &[u64]) -> bool {
    let first = number_of(tree.first()) == numbers.first().copied();
    let last = number_of(tree.last()) == numbers.last().copied();
    first & last
}

// Whether the root has no more entries than it may, nor fewer.
fn has_root<T: Numbered>(tree: &SumTree<T>) -> bool {
    let (entries, _) = root_of(tree);
    (entries <= 12) & ((tree.height() == 0) | (entries >= 2))
}

// Whether a tree has these numbers, and nodes of the sizes that it should have.
pub(crate) fn mirrors<T: Numbered>(tree: &SumTree<T>, numbers: &[u64]) -> bool {
    let nodes = is_even(tree.parts(), tree.height()) & has_root(tree);
    nodes & has_numbers(tree, numbers) & has_ends(tree, numbers)
}

// The numbers from the first one on.
pub(crate) fn numbers_from(alloc: Global, first: u64, n: u64) -> Result<Vec<u64>, OutOfMemory> {
    let mut numbers = Vec::new(alloc);
    for i in 0..n {
        numbers.push(first.wrapping_add(i))?;
    }
    Ok(numbers)
}

// The numbers with others in the place of a range.
pub(crate) fn replace(
    alloc: Global,
    numbers: &[u64],
    range: (usize, usize),
    others: &[u64],
) -> Result<Vec<u64>, OutOfMemory> {
    let (from, to) = range;
    let mut all = Vec::new(alloc);
    if from <= to && to <= numbers.len() {
        all.extend_from_slice(&numbers[..from])?;
        all.extend_from_slice(others)?;
        all.extend_from_slice(&numbers[to..])?;
    }
    Ok(all)
}
