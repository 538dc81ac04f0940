//! The counted calls answer what those do that count nothing.
ghost use Rattle.std.specs.Prelude.{◌≡◌, ◌<◌};

use crate::mirror::has_numbers;
use crate::ranked::Number;
use std::alloc::Global;
use std::marker::Brand;
use std::sync::ledger::{Blank, Ledger};
use sum_tree::{Count, Steps, SumTree};
use tree_cursor::{Bias, Cursor, OutOfMemory};

// Pushes a number where there is room.
fn push_to<L: Ledger>(
    alloc: Global,
    tree: &mut SumTree<Number>,
    key: u64,
    steps: &mut Steps<L>,
) -> Result<(), OutOfMemory> {
    if tree.len() >= 1_000_000 {
        return Ok(());
    }
    tree.push_counted(alloc, Number { key }, steps)
}

// Puts the tree of a number behind the others where there is room.
fn append_to<L: Ledger>(
    alloc: Global,
    tree: &mut SumTree<Number>,
    key: u64,
    steps: &mut Steps<L>,
) -> Result<(), OutOfMemory> {
    if tree.len() >= 1_000_000 {
        return Ok(());
    }
    let last = SumTree::from_item(alloc, Number { key })?;
    tree.append_counted(alloc, last, steps)
}

// Takes the first number out of a small tree.
fn drop_first<L: Ledger>(
    alloc: Global,
    tree: &mut SumTree<Number>,
    steps: &mut Steps<L>,
) -> Result<(), OutOfMemory> {
    if tree.len() == 0 || tree.len() >= 1_000_000 {
        return Ok(());
    }
    tree.splice_counted(alloc, 0, 1, Vec::new(alloc), steps)
}

// Whether a slice up to the index 2 has these numbers, and the rest those.
fn cuts<L: Ledger>(
    alloc: Global,
    tree: &SumTree<Number>,
    bias: Bias,
    (front, rest): Halves,
    steps: &mut Steps<L>,
) -> Result<bool, OutOfMemory> {
    tree.known();
    let mut cursor = Cursor::new(tree, Count { items: 0 })?;
    let slice = cursor.slice_counted(alloc, &Count { items: 2 }, bias, steps)?;
    let suffix = cursor.suffix_counted(alloc, steps)?;
    Ok(has_numbers(&slice, front) & has_numbers(&suffix, rest))
}

// Whether the tree is cut into these numbers and those.
fn ends<L: Ledger>(
    alloc: Global,
    tree: &SumTree<Number>,
    count: u64,
    (first, others): Halves,
    steps: &mut Steps<L>,
) -> Result<bool, OutOfMemory> {
    let in_front = has_numbers(&tree.take_front_counted(alloc, count, steps)?, first);
    let rest = tree.drop_front_counted(alloc, count, steps)?;
    Ok(has_numbers(&rest, others) & in_front)
}

// Adds the keys 3 and 5, and the tree of 8.
fn add_three<L: Ledger>(
    alloc: Global,
    tree: &mut SumTree<Number>,
    steps: &mut Steps<L>,
) -> Result<(), OutOfMemory> {
    push_to(alloc, tree, 3, steps)?;
    push_to(alloc, tree, 5, steps)?;
    append_to(alloc, tree, 8, steps)
}

// Pushes numbers one by one.
fn push_many<L: Ledger>(
    alloc: Global,
    tree: &mut SumTree<Number>,
    count: u64,
    steps: &mut Steps<L>,
) -> Result<(), OutOfMemory> {
    for key in 0..count {
        push_to(alloc, tree, key, steps)?;
    }
    Ok(())
}

// What is asked of the keys 3, 5 and 8, or of the height of a tree of this many numbers.
enum Ask {
    Keys,
    Cut(Bias),
    Front(u64),
    Rest,
    High(u64, u32),
}

// The numbers on the two sides of a cut.
type Halves = (&'static [u64], &'static [u64]);

fn is_right<L: Ledger>(
    alloc: Global,
    tree: &mut SumTree<Number>,
    ask: &Ask,
    halves: Halves,
    steps: &mut Steps<L>,
) -> Result<bool, OutOfMemory> {
    match *ask {
        Ask::Keys => Ok(has_numbers(tree, halves.0)),
        Ask::Cut(bias) => cuts(alloc, tree, bias, halves, steps),
        Ask::Front(count) => ends(alloc, tree, count, halves, steps),
        Ask::Rest => {
            drop_first(alloc, tree, steps)?;
            Ok(has_numbers(tree, halves.1))
        }
        Ask::High(count, height) => {
            *tree = SumTree::new(alloc)?;
            push_many(alloc, tree, count, steps)?;
            Ok(tree.height() == height)
        }
    }
}

// The same of a tree that is made with a counter of its own.
fn answers_with<L: Ledger>(
    alloc: Global,
    ask: &Ask,
    halves: Halves,
    blank: Blank,
) -> Result<bool, OutOfMemory>
    requires name { blank.name ≡ L.name }
    requires parts { blank.parts ≡ L.parts }
    requires some { 0 < blank.parts }
{
    let mut steps = Steps::<L>::new(blank);
    let mut tree = SumTree::new(alloc)?;
    add_three(alloc, &mut tree, &mut steps)?;
    is_right(alloc, &mut tree, ask, halves, &mut steps)
}

fn answers(alloc: Global, ask: &Ask, halves: Halves) -> Result<bool, OutOfMemory> {
    answers_with::<Brand>(alloc, ask, halves, Blank::new(1))
}

const ROWS: &[(&str, Ask, Halves)] = &[
    ("pushed and appended", Ask::Keys, (&[3, 5, 8], &[])),
    ("cut before an item", Ask::Cut(Bias::Left), (&[3], &[5, 8])),
    ("cut past an item", Ask::Cut(Bias::Right), (&[3, 5], &[8])),
    ("without the first", Ask::Rest, (&[3], &[5, 8])),
    ("twelve numbers", Ask::High(12, 0), (&[], &[])),
    ("thirteen numbers", Ask::High(13, 1), (&[], &[])),
    ("none in front", Ask::Front(0), (&[], &[3, 5, 8])),
    ("one in front", Ask::Front(1), (&[3], &[5, 8])),
    ("two in front", Ask::Front(2), (&[3, 5], &[8])),
    ("all in front", Ask::Front(3), (&[3, 5, 8], &[])),
    ("more than all in front", Ask::Front(4), (&[3, 5, 8], &[])),
];

#[test]
fn counted_calls_answer_the_same(rt: HostRuntime) -> Result<(), OutOfMemory> {
    for (name, ask, halves) in ROWS {
        assert!(rt; answers(rt.alloc(), ask, *halves)?, "{name}");
    }
    Ok(())
}
