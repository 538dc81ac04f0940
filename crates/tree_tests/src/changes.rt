//! The calls that make and change trees, each where there is room, by items that are made of numbers.
ghost use Rattle.std.specs.Prelude.{◌≡◌};
ghost use Rattle.sum_tree.specs.Keyed.{Ascending};

use crate::mirror::number_of;
use crate::numbered::Numbered;
use std::alloc::Global;
use sum_tree::{OutOfMemory, SumTree};

// The most items that a tree here gets.
const MOST: u64 = 1 << 39;

// Pushes the item of a number.
fn push_to<T: Numbered>(
    alloc: Global,
    tree: &mut SumTree<T>,
    number: u64,
) -> Result<(), OutOfMemory> {
    if tree.len() >= MOST {
        return Ok(());
    }
    let item = T::of_number(alloc, number)?;
    tree.push(alloc, item)
}

// Pushes the items of these numbers one by one.
pub(crate) fn push_all<T: Numbered>(
    alloc: Global,
    tree: &mut SumTree<T>,
    numbers: &[u64],
) -> Result<(), OutOfMemory> {
    for number in numbers {
        push_to(alloc, tree, *number)?;
    }
    Ok(())
}

// The tree of these numbers, pushed one by one.
pub(crate) fn pushed_tree<T: Numbered>(
    alloc: Global,
    numbers: &[u64],
) -> Result<SumTree<T>, OutOfMemory> {
    let mut tree = SumTree::new(alloc)?;
    push_all(alloc, &mut tree, numbers)?;
    Ok(tree)
}

// The items of these numbers.
fn list_items<T: Numbered>(alloc: Global, numbers: &[u64]) -> Result<Vec<T>, OutOfMemory> {
    let mut items = Vec::new(alloc);
    for number in numbers {
        items.push(T::of_number(alloc, *number)?)?;
    }
    Ok(items)
}

// The tree of these numbers, made of a list.
pub(crate) fn listed_tree<T: Numbered>(
    alloc: Global,
    numbers: &[u64],
) -> Result<SumTree<T>, OutOfMemory> {
    let items = list_items(alloc, numbers)?;
    if items.len() as u64 >= MOST {
        return SumTree::new(alloc);
    }
    SumTree::from_list(alloc, items)
}

// The tree of one number.
pub(crate) fn tree_of_one<T: Numbered>(
    alloc: Global,
    number: u64,
) -> Result<SumTree<T>, OutOfMemory> {
    let item = T::of_number(alloc, number)?;
    SumTree::from_item(alloc, item)
}

// Puts the items of another tree behind those of this one.
pub(crate) fn append_to<T: Numbered>(
    alloc: Global,
    front: &mut SumTree<T>,
    back: SumTree<T>,
) -> Result<(), OutOfMemory> {
    if front.len() >= MOST || back.len() >= MOST {
        return Ok(());
    }
    front.append(alloc, back)
}

// Puts the items of these numbers in the place of a range.
pub(crate) fn splice_in<T: Numbered>(
    alloc: Global,
    tree: &mut SumTree<T>,
    range: (usize, usize),
    numbers: &[u64],
) -> Result<(), OutOfMemory> {
    let items = list_items(alloc, numbers)?;
    splice_list(alloc, tree, range.0 as u64, range.1 as u64, items)
}

#[tactic(auto, using(sum_tree::proofs::Lists::spliced_short))]
fn splice_list<T: Numbered>(
    alloc: Global,
    tree: &mut SumTree<T>,
    from: u64,
    to: u64,
    items: Vec<T>,
) -> Result<(), OutOfMemory> {
    if from > to || to > tree.len() || tree.len() >= MOST || items.len() as u64 >= MOST {
        return Ok(());
    }
    tree.splice(alloc, from, to, items)
}

// The number of an item that a tree gave.
fn told<T: Numbered>(item: Option<T>) -> Option<u64> {
    number_of(item.as_ref())
}

// Inserts the item of a number, and answers the number of one that it replaced.
fn insert_to<T: Numbered>(
    alloc: Global,
    tree: &mut SumTree<T>,
    number: u64,
) -> Result<Option<u64>, OutOfMemory>
    requires ascending { Ascending T.Key.cmp T.key_of tree.old.items }
    ensures ascending { Ascending T.Key.cmp T.key_of tree.new.items }
{
    if tree.len() >= MOST {
        return Ok(None);
    }
    let item = T::of_number(alloc, number)?;
    let old = tree.insert(alloc, item)?;
    Ok(told(old))
}

// Takes the item of a number out, and answers its number.
fn remove_from<T: Numbered>(
    alloc: Global,
    tree: &mut SumTree<T>,
    number: u64,
) -> Result<Option<u64>, OutOfMemory>
    requires ascending { Ascending T.Key.cmp T.key_of tree.old.items }
    ensures ascending { Ascending T.Key.cmp T.key_of tree.new.items }
{
    let old = tree.remove(alloc, &T::key_at(number))?;
    Ok(told(old))
}

// Inserts the item of a number or takes it out, and answers the number of the one that stood there.
pub(crate) fn set_key<T: Numbered>(
    alloc: Global,
    tree: &mut SumTree<T>,
    inserts: bool,
    number: u64,
) -> Result<Option<u64>, OutOfMemory>
    requires ascending { Ascending T.Key.cmp T.key_of tree.old.items }
    ensures ascending { Ascending T.Key.cmp T.key_of tree.new.items }
{
    if inserts {
        return insert_to(alloc, tree, number);
    }
    remove_from(alloc, tree, number)
}
