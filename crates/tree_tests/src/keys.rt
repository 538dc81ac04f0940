//! What cursors and look-ups answer in trees of numbers, by the dimensions that are ready: the count, and the greatest key.
use crate::changes::pushed_tree;
use crate::mirror::{has_numbers, number_of};
use crate::ranked::{Number, Ranked};
use std::alloc::Global;
use sum_tree::{Count, SumTree};
use tree_cursor::{Bias, Cursor, Greatest, OutOfMemory, look_up};

// Two numbers that are answered: an item's, and a place.
type Found = (Option<u64>, Option<u64>);

// Whether a slice up to the index 2 has these numbers, and the rest those.
fn cuts(
    alloc: Global,
    tree: &SumTree<Number>,
    bias: Bias,
    front: &[u64],
    rest: &[u64],
) -> Result<bool, OutOfMemory> {
    tree.known();
    let mut cursor = Cursor::new(tree, Count { items: 0 })?;
    let slice = cursor.slice(alloc, &Count { items: 2 }, bias)?;
    let suffix = cursor.suffix(alloc)?;
    Ok(has_numbers(&slice, front) & has_numbers(&suffix, rest))
}

// The number after the first, and the one before that.
fn on_and_back(tree: &SumTree<Number>) -> Result<Found, OutOfMemory> {
    tree.known();
    let mut cursor = Cursor::new(tree, Count { items: 0 })?;
    cursor.next()?;
    let next = number_of(cursor.item());
    cursor.prev()?;
    Ok((next, number_of(cursor.item())))
}

// The number that a seek to an index finds, and the index at which it starts.
fn at_index(tree: &SumTree<Number>, items: u64, bias: Bias) -> Found {
    tree.known();
    let (item, start) = look_up(tree, Count { items: 0 }, &Count { items }, bias);
    (number_of(item), Some(start.items))
}

// The number that a seek to a key finds, and the greatest key before it.
fn at_key(tree: &SumTree<Ranked>, key: u64, bias: Bias) -> Found {
    let target = Greatest { key: Some(key) };
    let (item, start) = look_up(tree, Greatest { key: None }, &target, bias);
    (number_of(item), start.key)
}

// The same by a cursor, with the greatest key up to the end of the item.
fn end_at_key(tree: &SumTree<Ranked>, key: u64, bias: Bias) -> Result<Found, OutOfMemory> {
    let mut cursor = Cursor::new(tree, Greatest { key: None })?;
    cursor.seek(&Greatest { key: Some(key) }, bias)?;
    Ok((number_of(cursor.item()), cursor.end().key))
}

const KEYS: &[u64] = &[3, 5, 8];

// What is asked of the tree of these keys.
enum Ask {
    Index(u64, Bias),
    OnAndBack,
    Key(u64, Bias),
    EndAtKey(u64, Bias),
}

fn by_count(tree: &SumTree<Number>, ask: &Ask) -> Result<Found, OutOfMemory> {
    match *ask {
        Ask::Index(items, bias) => Ok(at_index(tree, items, bias)),
        _ => on_and_back(tree),
    }
}

fn by_key(tree: &SumTree<Ranked>, key: u64, bias: Bias, end: bool) -> Result<Found, OutOfMemory> {
    if end {
        return end_at_key(tree, key, bias);
    }
    Ok(at_key(tree, key, bias))
}

fn answer(alloc: Global, ask: &Ask) -> Result<Found, OutOfMemory> {
    match *ask {
        Ask::Key(key, bias) => by_key(&pushed_tree(alloc, KEYS)?, key, bias, false),
        Ask::EndAtKey(key, bias) => by_key(&pushed_tree(alloc, KEYS)?, key, bias, true),
        _ => by_count(&pushed_tree(alloc, KEYS)?, ask),
    }
}

const ASKS: &[(&str, Ask, Found)] = &[
    (
        "the count, to an end",
        Ask::Index(2, Bias::Left),
        (Some(5), Some(1)),
    ),
    (
        "the count, past an end",
        Ask::Index(2, Bias::Right),
        (Some(8), Some(2)),
    ),
    ("on and back", Ask::OnAndBack, (Some(5), Some(3))),
    ("a key", Ask::Key(5, Bias::Left), (Some(5), Some(3))),
    ("past a key", Ask::Key(5, Bias::Right), (Some(8), Some(5))),
    (
        "a cursor to a key that is none",
        Ask::EndAtKey(4, Bias::Left),
        (Some(5), Some(5)),
    ),
    (
        "a cursor past the last key",
        Ask::EndAtKey(8, Bias::Right),
        (None, Some(8)),
    ),
];

#[test]
fn keys_are_found(rt: HostRuntime) -> Result<(), OutOfMemory> {
    for (name, ask, expected) in ASKS {
        assert!(rt; answer(rt.alloc(), ask)? == *expected, "{name}");
    }
    Ok(())
}

const CUTS: &[(Bias, &[u64], &[u64])] = &[
    (Bias::Left, &[3], &[5, 8]),
    (Bias::Right, &[3, 5], &[8]),
];

fn cuts_keys(alloc: Global, bias: Bias, front: &[u64], rest: &[u64]) -> Result<bool, OutOfMemory> {
    let tree = pushed_tree(alloc, KEYS)?;
    cuts(alloc, &tree, bias, front, rest)
}

#[test]
fn cursors_cut_trees(rt: HostRuntime) -> Result<(), OutOfMemory> {
    for &(bias, front, rest) in CUTS {
        assert!(rt; cuts_keys(rt.alloc(), bias, front, rest)?, "at {front:?}");
    }
    Ok(())
}
