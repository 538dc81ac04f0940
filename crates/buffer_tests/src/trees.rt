//! Fragments in a tree: their sums, the places among them, and the index that finds them.
use crate::operations::{Stamp, stamp, version};
use crate::runs::{Run, fragment, tree_of};
use fragments::{
    ById, Fragment, FragmentSummary, Full, FullAt, InsertionIndex, OutOfMemory, Span, Visible,
};
use lamport_clock::{Lamport, Version};
use locators::Locator;
use std::alloc::Global;
use std::process::Abort;
use sum_tree::{Item, SumTree};
use tree_cursor::{Bias, Cursor, look_up};

const ROWS: &[Run] = &[
    ((2, 1), 0, "abc", true, &[], &[]),
    ((3, 2), 0, "de", false, &[(5, 1)], &[]),
    ((2, 1), 3, "fghi", true, &[], &[(7, 3)]),
    ((6, 1), 0, "j", true, &[], &[]),
];

// Id number `n`, counted from 0: each lies between the one before it and the greatest.
fn id(rt: &impl Abort, alloc: Global, n: u64) -> Locator {
    let greatest = Locator::greatest(alloc).expect(rt, "memory");
    let mut id = Locator::between(
        alloc,
        &Locator::least(alloc).expect(rt, "memory"),
        &greatest,
    )
    .expect(rt, "memory");
    for _i in 0..n {
        id = Locator::between(alloc, &id, &greatest).expect(rt, "memory");
    }
    id
}

// Whether this is the id of that number, or there is neither.
fn is_id(rt: &impl Abort, alloc: Global, found: Option<&Locator>, n: Option<u64>) -> bool {
    match (found, n) {
        (Some(found), Some(n)) => id(rt, alloc, n).cmp(found).is_eq(),
        (found, n) => found.is_none() && n.is_none(),
    }
}

const SPANS: &[Span] = &[
    Span {
        replica: 1,
        least: 2,
        greatest: 6,
    },
    Span {
        replica: 2,
        least: 3,
        greatest: 3,
    },
];

const SEEN: &[(u16, u32)] = &[(1, 6), (2, 3), (3, 7)];

// Whether a sum is that of the rows.
fn is_of_rows(rt: &impl Abort, alloc: Global, sum: &FragmentSummary) -> bool {
    let right = (sum.visible, sum.hidden) == (8, 2)
        && sum.span.as_slice() == SPANS
        && sum.greatest.as_slice() == SEEN;
    is_id(rt, alloc, sum.last_id.as_ref(), Some(3)) && right
}

fn are_summed(rt: &impl Abort, alloc: Global) -> bool {
    let tree = tree_of(rt, alloc, ROWS, 1);
    is_of_rows(rt, alloc, tree.summary())
}

// What a seek counts: all bytes, those shown, or those that a version sees which has seen 2.1.
#[derive(Clone, Copy)]
enum By {
    Full,
    Visible,
    Seen,
}

// A fragment's stamp, by its value, with the number of its first cell.
type Name = Option<(u32, u64)>;

// What a seek is to find: what it counts, how much it asks for, on which side, and the fragment and the count before it.
type Sought = (By, u64, Bias, Name, u64);

const SOUGHT: &[Sought] = &[
    (By::Full, 3, Bias::Left, Some((2, 0)), 0),
    (By::Full, 3, Bias::Right, Some((3, 0)), 3),
    (By::Full, 10, Bias::Right, None, 10),
    (By::Visible, 3, Bias::Right, Some((2, 3)), 3),
    (By::Visible, 7, Bias::Left, Some((2, 3)), 3),
    (By::Seen, 3, Bias::Left, Some((2, 0)), 0),
    (By::Seen, 3, Bias::Right, Some((2, 3)), 3),
    (By::Seen, 7, Bias::Right, None, 7),
];

// The same where the rows stand a hundred times: the sums of inner nodes are looked into.
const SOUGHT_IN_MANY: &[Sought] = &[
    (By::Seen, 700, Bias::Left, Some((2, 3)), 696),
    (By::Seen, 700, Bias::Right, None, 700),
];

fn name(fragment: Option<&Fragment>) -> Name {
    fragment.map(|f| (f.stamp.value, f.offset))
}

fn spot_full(tree: &SumTree<Fragment>, bytes: u64, bias: Bias) -> (Name, u64) {
    tree.known();
    let (item, place) = look_up(tree, Full { bytes: 0 }, &Full { bytes }, bias);
    (name(item), place.bytes)
}

fn spot_visible(tree: &SumTree<Fragment>, bytes: u64, bias: Bias) -> (Name, u64) {
    tree.known();
    let (item, place) = look_up(tree, Visible { bytes: 0 }, &Visible { bytes }, bias);
    (name(item), place.bytes)
}

fn spot_seen(tree: &SumTree<Fragment>, version: &Version, bytes: u64, bias: Bias) -> (Name, u64) {
    tree.known();
    let (item, place) = look_up(tree, FullAt { version, bytes: 0 }, &Full { bytes }, bias);
    (name(item), place.bytes)
}

fn wrong_row(tree: &SumTree<Fragment>, version: &Version, rows: &[Sought]) -> Option<usize> {
    for (i, &(by, bytes, bias, want, before)) in rows.iter().enumerate() {
        let found = match by {
            By::Full => spot_full(tree, bytes, bias),
            By::Visible => spot_visible(tree, bytes, bias),
            By::Seen => spot_seen(tree, version, bytes, bias),
        };
        if found != (want, before) {
            return Some(i);
        }
    }
    None
}

// The first row that is not found in the tree of the rows that many times over.
fn wrong_row_of(rt: &impl Abort, alloc: Global, times: u64, rows: &[Sought]) -> Option<usize> {
    let tree = tree_of(rt, alloc, ROWS, times);
    wrong_row(&tree, &version(alloc, &[(2, 1)]).expect(rt, "memory"), rows)
}

// A number of an id, a side, and the fragment that a seek by the id finds.
const IDS: &[(u64, Bias, Name)] = &[
    (2, Bias::Left, Some((2, 3))),
    (2, Bias::Right, Some((6, 0))),
    (4, Bias::Left, None),
];

fn spot_id(tree: &SumTree<Fragment>, id: &Locator, bias: Bias) -> Name {
    let (item, _place) = look_up(tree, ById { id: None }, id, bias);
    name(item)
}

fn ids_find(rt: &impl Abort, alloc: Global, tree: &SumTree<Fragment>) -> bool {
    let mut right = true;
    for &(n, bias, want) in IDS {
        right = spot_id(tree, &id(rt, alloc, n), bias) == want && right;
    }
    right
}

fn ids_are_places(rt: &impl Abort, alloc: Global) -> bool {
    let tree = tree_of(rt, alloc, ROWS, 1);
    ids_find(rt, alloc, &tree)
}

// Numbers of cells, each with the index of the fragment that a seek of that many finds.
const INDEXES: &[(u64, u64)] = &[(0, 0), (3, 1), (5, 2), (10, 4), (999, 399), (1_000, 400)];

// The index of the fragment that a seek finds, by a cursor.
fn index_of(rt: &impl Abort, tree: &SumTree<Fragment>, bytes: u64) -> u64 {
    tree.known();
    let mut cursor = Cursor::new(tree, Full { bytes: 0 }).expect(rt, "memory");
    cursor
        .seek(&Full { bytes }, Bias::Right)
        .expect(rt, "memory");
    cursor.index()
}

fn has_indexes(rt: &impl Abort, tree: &SumTree<Fragment>) -> bool {
    let mut right = true;
    for &(bytes, want) in INDEXES {
        right = index_of(rt, tree, bytes) == want && right;
    }
    right
}

fn cursors_have_indexes(rt: &impl Abort, alloc: Global) -> bool {
    let tree = tree_of(rt, alloc, ROWS, 100);
    has_indexes(rt, &tree)
}

// The seeks among the rows, that many times over.
const SEEKS: &[(u64, &[Sought])] = &[(1, SOUGHT), (100, SOUGHT_IN_MANY)];

#[test]
fn fragments_are_summed_and_found(rt: HostRuntime) {
    assert!(rt; are_summed(&rt, rt.alloc()));
    assert!(rt; ids_are_places(&rt, rt.alloc()));
    assert!(rt; cursors_have_indexes(&rt, rt.alloc()));
    for &(times, rows) in SEEKS {
        let wrong = wrong_row_of(&rt, rt.alloc(), times, rows);
        assert!(rt; wrong.is_none(), "row {wrong:?}, {times} times");
    }
}

/// Keeps an id where there are few.
pub(crate) fn keep(
    alloc: Global,
    index: &mut InsertionIndex,
    at: Lamport,
    offset: u64,
    id: Locator,
) -> Result<(), OutOfMemory> {
    if index.len() < 1_000 {
        index.add(alloc, at, offset, id)?;
    }
    Ok(())
}

// Cells with the number of the id that belongs to each.
const ADDED: &[(Stamp, u64, u64)] = &[
    ((2, 1), 3, 1),
    ((2, 2), 1, 2),
    ((2, 1), 0, 0),
    ((2, 1), 40, 3),
    ((5, 1), 0, 4),
];

// A cell, and the number of the id that is found for it.
type Found = (Stamp, u64, Option<u64>);

const FOUND: &[Found] = &[
    ((2, 1), 0, Some(0)),
    ((2, 1), 2, Some(0)),
    ((2, 1), 3, Some(1)),
    ((2, 1), 39, Some(1)),
    ((2, 1), 1_000, Some(3)),
    ((2, 2), 1, Some(2)),
    ((2, 2), u64::MAX, Some(2)),
    ((5, 1), 7, Some(4)),
    ((2, 2), 0, None),
    ((1, 9), 5, None),
    ((3, 1), 5, None),
    ((5, 2), 0, None),
];

fn finds(rt: &impl Abort, alloc: Global, index: &InsertionIndex, rows: &[Found]) -> bool {
    let mut right = true;
    for &(at, offset, n) in rows {
        right = is_id(rt, alloc, index.find(stamp(at), offset), n) && right;
    }
    right
}

// Whether an index finds another id once one of its entries changes, and a share of it the old one.
fn finds_what_changes(rt: &impl Abort, alloc: Global, index: &mut InsertionIndex) -> bool {
    let old = index.share().expect(rt, "memory");
    keep(alloc, index, stamp((2, 1)), 3, id(rt, alloc, 7)).expect(rt, "memory");
    let lengths = (index.len(), old.len()) == (5, 5);
    finds(rt, alloc, &old, &[((2, 1), 8, Some(1))]) && lengths
}

fn fill(rt: &impl Abort, alloc: Global, index: &mut InsertionIndex) {
    for &(at, offset, n) in ADDED {
        keep(alloc, index, stamp(at), offset, id(rt, alloc, n)).expect(rt, "memory");
    }
}

fn finds_the_added(rt: &impl Abort, alloc: Global) -> bool {
    let mut index = InsertionIndex::new(alloc).expect(rt, "memory");
    fill(rt, alloc, &mut index);
    let before = finds(rt, alloc, &index, FOUND);
    let kept = finds_what_changes(rt, alloc, &mut index);
    finds(rt, alloc, &index, &[((2, 1), 8, Some(7))]) && before && kept
}

// Whether a copy has the same id, deletions and undos.
fn is_copied(rt: &impl Abort, alloc: Global, fragment: &Fragment) -> bool {
    let copy = fragment.copy(alloc).expect(rt, "memory");
    copy.id.cmp(&fragment.id).is_eq()
        && copy.deletions.as_slice() == fragment.deletions.as_slice()
        && copy.max_undos.as_slice() == fragment.max_undos.as_slice()
}

fn are_copied(rt: &impl Abort, alloc: Global) -> bool {
    let mut right = true;
    for run in ROWS {
        right = is_copied(rt, alloc, &fragment(rt, alloc, id(rt, alloc, 0), run)) && right;
    }
    right
}

#[test]
fn an_index_finds_the_fragment_of_a_cell(rt: HostRuntime) {
    assert!(rt; finds_the_added(&rt, rt.alloc()));
    assert!(rt; are_copied(&rt, rt.alloc()));
}
