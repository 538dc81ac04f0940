//! What cursors and look-ups answer in trees of items with a width and a name.
ghost use Rattle.std.specs.Prelude.{◌≡◌, ◌<◌};

use crate::wide::{ByName, Chosen, HasWidth, Name, Parity, Wide, Width, id_of, name_id};
use std::alloc::Global;
use std::marker::Brand;
use std::sync::ledger::{Blank, Ledger};
use sum_tree::{Steps, SumTree};
use tree_cursor::{Bias, Cursor, FilterCursor, OutOfMemory, locate, look_up};

// The tree with an item more, where it is small.
fn push_to(alloc: Global, tree: &mut SumTree<Wide>, width: u64) -> Result<(), OutOfMemory> {
    let id = tree.len();
    let sum = tree.summary();
    if id >= 1_000_000 || sum.items >= 1_000_000 || sum.odd >= 1_000_000 {
        return Ok(());
    }
    if sum.width >= 1_000_000 || width >= 1_000_000 {
        return Ok(());
    }
    tree.push(alloc, Wide { width, id })
}

// Pushes items of these widths, again and again.
fn push_rows(
    alloc: Global,
    tree: &mut SumTree<Wide>,
    widths: &[u64],
    times: u64,
) -> Result<(), OutOfMemory> {
    for _time in 0..times {
        for width in widths {
            push_to(alloc, tree, *width)?;
        }
    }
    Ok(())
}

// Items of these widths, again and again, with the names 0, 1, 2 and on.
pub(crate) fn tree_of(
    alloc: Global,
    widths: &[u64],
    times: u64,
) -> Result<SumTree<Wide>, OutOfMemory> {
    let mut tree = SumTree::new(alloc)?;
    push_rows(alloc, &mut tree, widths, times)?;
    Ok(tree)
}

// Up to three numbers that are answered: an item's name, where it starts, and the like.
type Found = [Option<u64>; 3];

// The name of the item that a seek from the start finds, and where it starts.
fn spot(tree: &SumTree<Wide>, at: u64, bias: Bias) -> Found {
    tree.known();
    let (item, start) = look_up(tree, Width { at: 0 }, &Width { at }, bias);
    [id_of(item), Some(start.at), None]
}

// The same with a counter that is made of the blank.
fn spot_with<L: Ledger>(tree: &SumTree<Wide>, at: u64, bias: Bias, blank: Blank) -> Found
    requires name { blank.name ≡ L.name }
    requires parts { blank.parts ≡ L.parts }
    requires some { 0 < blank.parts }
{
    tree.known();
    let mut steps = Steps::<L>::new(blank);
    let (item, start) = locate(tree, Width { at: 0 }, &Width { at }, bias, &mut steps);
    [id_of(item), Some(start.at), None]
}

fn counted_spot(tree: &SumTree<Wide>, at: u64, bias: Bias) -> Found {
    spot_with::<Brand>(tree, at, bias, Blank::new(1))
}

// The name of the first item whose name is at least this, as the greatest so far says.
fn spot_name(tree: &SumTree<Wide>, id: u64) -> Found {
    let (item, _before) = look_up(tree, ByName { name: None }, &Name { id }, Bias::Left);
    [id_of(item), None, None]
}

// The name of the item with which the set of the odd ones reaches this size, and its size before.
fn spot_odd(tree: &SumTree<Wide>, at: u64) -> Found {
    tree.known();
    let set = &Parity { odd: true };
    let (item, before) = look_up(tree, Chosen { set, items: 0 }, &at, Bias::Left);
    [id_of(item), Some(before.items), None]
}

// The same by a cursor, and of the item before.
fn before_odd(tree: &SumTree<Wide>, at: u64) -> Result<Found, OutOfMemory> {
    tree.known();
    let set = &Parity { odd: true };
    let mut cursor = Cursor::new(tree, Chosen { set, items: 0 })?;
    cursor.seek(&at, Bias::Left)?;
    cursor.prev()?;
    Ok([id_of(cursor.item()), Some(cursor.start().items), None])
}

// The first name that a cursor by names finds strictly past this, by the end of its item.
fn name_past(tree: &SumTree<Wide>, id: u64) -> Result<Found, OutOfMemory> {
    let mut cursor = Cursor::new(tree, ByName { name: None })?;
    cursor.seek(&Name { id }, Bias::Right)?;
    Ok([name_id(cursor.end().name), None, None])
}

// The second item with a width, and how many odd ones lie before it.
fn second_odd(tree: &SumTree<Wide>) -> Result<Found, OutOfMemory> {
    tree.known();
    let set = &Parity { odd: true };
    let mut kept = FilterCursor::new(tree, Chosen { set, items: 0 }, HasWidth)?;
    kept.next()?;
    let item = kept.next()?;
    Ok([id_of(item), Some(kept.start().items), None])
}

// The second item with a width, and the greatest name before it.
fn second_name(tree: &SumTree<Wide>) -> Result<Found, OutOfMemory> {
    let mut kept = FilterCursor::new(tree, ByName { name: None }, HasWidth)?;
    kept.next()?;
    let item = kept.next()?;
    Ok([id_of(item), name_id(kept.start().name), None])
}

// The names of the second item with a width and of the one after it, and where the second starts.
fn second_place(tree: &SumTree<Wide>) -> Result<Found, OutOfMemory> {
    tree.known();
    let mut kept = FilterCursor::new(tree, Width { at: 0 }, HasWidth)?;
    kept.next()?;
    let second = kept.next()?;
    let start = kept.start().at;
    let third = kept.next()?;
    Ok([id_of(second), Some(start), id_of(third)])
}

// How many items a slice to a place has and how many the rest.
fn parts(alloc: Global, tree: &SumTree<Wide>, at: u64, bias: Bias) -> Result<Found, OutOfMemory> {
    tree.known();
    let mut cursor = Cursor::new(tree, Width { at: 0 })?;
    let front = cursor.slice(alloc, &Width { at }, bias)?;
    let rest = cursor.suffix(alloc)?;
    Ok([Some(front.len()), Some(rest.len()), None])
}

// The sum of the places at which the items start, by a cursor that goes on to the end, and then back.
fn starts(tree: &SumTree<Wide>) -> Result<Found, OutOfMemory> {
    tree.known();
    let mut cursor = Cursor::new(tree, Width { at: 0 })?;
    let mut on: u64 = 0;
    for _i in 0..tree.len() {
        on = on.wrapping_add(cursor.start().at);
        cursor.next()?;
    }
    let mut back: u64 = 0;
    for _i in 0..tree.len() {
        cursor.prev()?;
        back = back.wrapping_add(cursor.start().at);
    }
    Ok([Some(on), Some(back), None])
}

// What is asked of a tree.
enum Ask {
    Spot(u64, Bias),
    CountedSpot(u64, Bias),
    SpotName(u64),
    SpotOdd(u64),
    BeforeOdd(u64),
    NamePast(u64),
    SecondOdd,
    SecondName,
    SecondPlace,
    Parts(u64, Bias),
    Starts,
    Height,
}

fn answer(alloc: Global, tree: &SumTree<Wide>, ask: &Ask) -> Result<Found, OutOfMemory> {
    match *ask {
        Ask::Spot(at, bias) => Ok(spot(tree, at, bias)),
        Ask::CountedSpot(at, bias) => Ok(counted_spot(tree, at, bias)),
        Ask::SpotName(id) => Ok(spot_name(tree, id)),
        Ask::SpotOdd(at) => Ok(spot_odd(tree, at)),
        Ask::BeforeOdd(at) => before_odd(tree, at),
        Ask::NamePast(id) => name_past(tree, id),
        Ask::SecondOdd => second_odd(tree),
        Ask::SecondName => second_name(tree),
        Ask::SecondPlace => second_place(tree),
        Ask::Parts(at, bias) => parts(alloc, tree, at, bias),
        Ask::Starts => starts(tree),
        Ask::Height => Ok([Some(tree.height() as u64), None, None]),
    }
}

// What is answered in the tree of these widths.
fn answer_in(alloc: Global, (widths, times): Items, ask: &Ask) -> Result<Found, OutOfMemory> {
    let tree = tree_of(alloc, widths, times)?;
    answer(alloc, &tree, ask)
}

// Widths, and how often they come.
type Items = (&'static [u64], u64);

const THREE: Items = (&[1], 3);

const THIRTEEN: Items = (&[1], 13);

const NONE_FIRST: Items = (&[0, 0, 1], 1);

const NONE_BETWEEN: Items = (&[1, 0, 0, 2], 1);

const THOUSANDS: Items = (&[1, 0, 2], 1000);

const ROWS: &[(&str, Items, Ask, Found)] = &[
    (
        "a seek to an end",
        THIRTEEN,
        Ask::Spot(3, Bias::Left),
        [Some(2), Some(2), None],
    ),
    (
        "a seek past an end",
        THIRTEEN,
        Ask::Spot(3, Bias::Right),
        [Some(3), Some(3), None],
    ),
    (
        "a seek to the last end",
        THIRTEEN,
        Ask::Spot(13, Bias::Left),
        [Some(12), Some(12), None],
    ),
    (
        "a seek past all",
        THIRTEEN,
        Ask::Spot(13, Bias::Right),
        [None, Some(13), None],
    ),
    (
        "a seek to no width",
        NONE_FIRST,
        Ask::Spot(0, Bias::Left),
        [Some(0), Some(0), None],
    ),
    (
        "a seek past no width",
        NONE_FIRST,
        Ask::Spot(0, Bias::Right),
        [Some(2), Some(0), None],
    ),
    (
        "counted, to an end",
        THIRTEEN,
        Ask::CountedSpot(3, Bias::Left),
        [Some(2), Some(2), None],
    ),
    (
        "counted, past an end",
        THIRTEEN,
        Ask::CountedSpot(3, Bias::Right),
        [Some(3), Some(3), None],
    ),
    (
        "counted, to the last end",
        THIRTEEN,
        Ask::CountedSpot(13, Bias::Left),
        [Some(12), Some(12), None],
    ),
    (
        "counted, past all",
        THIRTEEN,
        Ask::CountedSpot(13, Bias::Right),
        [None, Some(13), None],
    ),
    (
        "counted, to no width",
        NONE_FIRST,
        Ask::CountedSpot(0, Bias::Left),
        [Some(0), Some(0), None],
    ),
    (
        "counted, past no width",
        NONE_FIRST,
        Ask::CountedSpot(0, Bias::Right),
        [Some(2), Some(0), None],
    ),
    (
        "a filter by widths",
        NONE_BETWEEN,
        Ask::SecondPlace,
        [Some(3), Some(1), None],
    ),
    (
        "a cut before an item",
        THREE,
        Ask::Parts(2, Bias::Left),
        [Some(1), Some(2), None],
    ),
    (
        "a cut past an item",
        THREE,
        Ask::Parts(2, Bias::Right),
        [Some(2), Some(1), None],
    ),
    (
        "the height of thirteen",
        THIRTEEN,
        Ask::Height,
        [Some(1), None, None],
    ),
    (
        "a name",
        THOUSANDS,
        Ask::SpotName(2500),
        [Some(2500), None, None],
    ),
    (
        "the name past a name",
        THOUSANDS,
        Ask::NamePast(7),
        [Some(8), None, None],
    ),
    (
        "a filter by names",
        THOUSANDS,
        Ask::SecondName,
        [Some(2), Some(1), None],
    ),
    (
        "the thousandth odd one",
        THOUSANDS,
        Ask::SpotOdd(1000),
        [Some(1999), Some(999), None],
    ),
    (
        "the one before",
        THOUSANDS,
        Ask::BeforeOdd(1000),
        [Some(1998), Some(999), None],
    ),
    (
        "a filter by odd ones",
        THOUSANDS,
        Ask::SecondOdd,
        [Some(2), Some(1), None],
    ),
    (
        "on and back",
        THOUSANDS,
        Ask::Starts,
        [Some(4_497_500), Some(4_497_500), None],
    ),
];

#[test]
fn cursors_find_places(rt: HostRuntime) -> Result<(), OutOfMemory> {
    for (name, items, ask, expected) in ROWS {
        assert!(rt; answer_in(rt.alloc(), *items, ask)? == *expected, "{name}");
    }
    Ok(())
}
