//! Selections of bytes that have not come yet.
use crate::made::{Range, are_at, edit, open, select, sets_of};
use selections::{PlacesFault, SelectionSets};
use std::alloc::Global;
use std::process::Abort;
use text_buffer::Snapshot;

// Ranges of `aXb`, and their places in `ab`, where X has not come yet.
struct Row {
    ranges: &'static [Range],
    before: Result<&'static [Range], u64>,
}

const ROWS: &[Row] = &[
    Row {
        ranges: &[(0, 1), (2, 3), (3, 3)],
        before: Ok(&[(0, 1), (1, 2), (2, 2)]),
    },
    Row {
        ranges: &[(0, 1), (1, 2)],
        before: Err(1),
    },
    Row {
        ranges: &[(1, 1)],
        before: Err(0),
    },
    Row {
        ranges: &[(2, 2), (0, 0), (0, 2), (1, 3)],
        before: Err(2),
    },
    Row {
        ranges: &[(0, 3), (1, 3), (0, 2)],
        before: Err(1),
    },
    Row {
        ranges: &[],
        before: Ok(&[]),
    },
];

// Whether the operation is kept before its bytes come, and its ranges are where they should be then and later.
fn comes(before: &Snapshot, later: &Snapshot, sets: &SelectionSets, row: &Row) -> bool {
    let want = match row.before {
        Ok(places) => Ok(Some(places)),
        Err(i) => Err(PlacesFault::Unknown(i)),
    };
    are_at(sets, before, 1, want)
        && are_at(sets, later, 1, Ok(Some(row.ranges)))
        && are_at(sets, before, 2, Ok(None))
}

fn take_from(rt: &impl Abort, alloc: Global, later: &Snapshot, ranges: &[Range]) -> SelectionSets {
    let mut author = sets_of(rt, alloc, 1);
    let _value = select(&mut author, later, ranges);
    let mut sets = sets_of(rt, alloc, 2);
    if let Some(op) = author.copy_of(1).expect(rt, "memory") {
        let _took = sets.take(op);
    }
    sets
}

// A text before X came, and after it.
fn snapshots(rt: &impl Abort, alloc: Global) -> (Snapshot, Snapshot) {
    let mut buffer = open(rt, alloc, "ab");
    let before = buffer.snapshot().expect(rt, "memory");
    let _stamp = edit(rt, alloc, &mut buffer, (1, 1, "X"));
    (before, buffer.snapshot().expect(rt, "memory"))
}

fn holds(rt: &impl Abort, alloc: Global, row: &Row) -> bool {
    let (before, later) = snapshots(rt, alloc);
    let sets = take_from(rt, alloc, &later, row.ranges);
    comes(&before, &later, &sets, row)
}

#[test]
fn the_first_unknown_range_is_named(rt: HostRuntime) {
    for (i, row) in ROWS.iter().enumerate() {
        assert!(rt; holds(&rt, rt.alloc(), row), "row {i}");
    }
}
