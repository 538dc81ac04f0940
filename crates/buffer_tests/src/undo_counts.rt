//! Undo counts, now and at versions.
use crate::operations::{Parts, Stamp, operation, stamp, version};
use lamport_clock::{Lamport, Version};
use op_model::Operation;
use std::alloc::Global;
use std::process::Abort;
use sum_tree::OutOfMemory;
use undo_map::UndoMap;

const FIRST: Lamport = Lamport {
    value: 2,
    replica: 1,
};

const SECOND: Lamport = Lamport {
    value: 3,
    replica: 1,
};

/// An edit, an undo, and the count that it gives.
pub(crate) type Count = (Stamp, Stamp, u32);

// Keeps a count where few are kept.
fn keep(
    alloc: Global,
    map: &mut UndoMap,
    edit: Lamport,
    by: Lamport,
    count: u32,
) -> Result<(), OutOfMemory> {
    if map.len() < 1000 {
        map.set(alloc, edit, by, count)?;
    }
    Ok(())
}

/// The map of these counts.
pub(crate) fn map_of(rt: &impl Abort, alloc: Global, counts: &[Count]) -> UndoMap {
    let mut map = UndoMap::new(alloc).expect(rt, "memory");
    for &(edit, by, count) in counts {
        keep(alloc, &mut map, stamp(edit), stamp(by), count).expect(rt, "memory");
    }
    map
}

// The count of the first edit and whether it is undone, now and at a version.
type Counted = (u32, bool, u32, bool);

// Edits, undos and the counts that they give; and what is counted then, now and where 3.1 and 3.2 are seen.
const COUNTED: &[(&[Count], Counted)] = &[
    (&[], (0, false, 0, false)),
    (
        &[((2, 1), (3, 1), 1), ((2, 1), (3, 2), 1)],
        (1, true, 1, true),
    ),
    (
        &[
            ((2, 1), (3, 1), 1),
            ((2, 1), (3, 2), 1),
            ((2, 1), (5, 1), 2),
        ],
        (2, false, 1, true),
    ),
];

fn counts_of(map: &UndoMap, version: &Version) -> Counted {
    (
        map.count(FIRST),
        map.is_undone(FIRST),
        map.count_at(FIRST, version),
        map.was_undone(FIRST, version),
    )
}

fn counts_in(rt: &impl Abort, alloc: Global, rows: &[Count]) -> Counted {
    let early = version(alloc, &[(3, 1), (3, 2)]).expect(rt, "memory");
    counts_of(
        &map_of(rt, alloc, rows).share().expect(rt, "memory"),
        &early,
    )
}

// The map with the counts of an undo, where there are few.
fn with_undo(rt: &impl Abort, alloc: Global, map: &UndoMap, op: &Operation) -> UndoMap {
    match op {
        Operation::Undo(undo) => {
            if map.len() < 1000 && undo.counts.as_slice().len() < 1000 {
                map.with_undo(alloc, undo).expect(rt, "memory")
            } else {
                map.share().expect(rt, "memory")
            }
        }
        Operation::Edit(_) => map.share().expect(rt, "memory"),
    }
}

// The counts of the first and of the second edit after an undo.
fn counts_with(rt: &impl Abort, alloc: Global, map: &UndoMap) -> (u32, u32) {
    let counts = Parts::Counts(&[((2, 1), 1), ((3, 1), 4), ((2, 1), 3)]);
    let undo = operation(alloc, (5, 2), &[], counts).expect(rt, "memory");
    let after = with_undo(rt, alloc, map, &undo);
    (after.count(FIRST), after.count(SECOND))
}

// Whether an undo's counts are added to a copy of a map.
fn counts_are_added(rt: &impl Abort, alloc: Global) -> bool {
    let before = map_of(rt, alloc, &[((2, 1), (3, 1), 2)]);
    counts_with(rt, alloc, &before) == (3, 4) && before.count(FIRST) == 2
}

#[test]
fn the_greatest_count_decides(rt: HostRuntime) {
    for &(rows, want) in COUNTED {
        assert!(rt; counts_in(&rt, rt.alloc(), rows) == want, "{want:?}");
    }
    assert!(rt; counts_are_added(&rt, rt.alloc()));
}
