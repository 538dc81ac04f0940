//! Operations that wait, what of them is ready, and operations that are applied.
use crate::operations::{Parts, Stamp, operation, stamp, version};
use applied_ops::AppliedList;
use deferred_ops::Deferred;
use lamport_clock::Lamport;
use op_model::Operation;
use std::alloc::Global;
use std::process::Abort;
use sum_tree::OutOfMemory;

const EDIT: Parts = Parts::Pieces(&[]);

const UNDO: Parts = Parts::Counts(&[]);

// What waits, in the order in which it is added, with what it has seen.
const WAITING: &[(Parts, Stamp, &[Stamp])] = &[
    (EDIT, (4, 3), &[(1, 0), (3, 1)]),
    (UNDO, (2, 2), &[(1, 0)]),
    (EDIT, (3, 1), &[(1, 0), (2, 1)]),
    (UNDO, (4, 1), &[(1, 0), (3, 1)]),
];

// Adds an operation where none of its stamp waits.
fn add(deferred: &mut Deferred, op: Operation) -> Result<(), OutOfMemory> {
    if deferred.get(op.stamp()).is_none() {
        deferred.add(op)?;
    }
    Ok(())
}

fn waiting_list(rt: &impl Abort, alloc: Global) -> Deferred {
    let mut deferred = Deferred::new(alloc).expect(rt, "memory");
    for &(parts, at, seen) in WAITING {
        add(
            &mut deferred,
            operation(alloc, at, seen, parts).expect(rt, "memory"),
        )
        .expect(rt, "memory");
    }
    deferred
}

fn stamp_of(op: Option<&Operation>) -> Option<Lamport> {
    match op {
        None => None,
        Some(op) => Some(op.stamp()),
    }
}

fn has(deferred: &Deferred, at: Stamp) -> bool {
    stamp_of(deferred.get(stamp(at))) == Some(stamp(at))
}

// Whether nothing waits, nor is ready.
fn is_empty(rt: &impl Abort, alloc: Global) -> bool {
    let mut deferred = Deferred::new(alloc).expect(rt, "memory");
    let none = deferred.len() == 0 && deferred.remove(stamp((1, 0))).is_none();
    none && !has(&deferred, (1, 0))
        && deferred
            .ready(None, &version(alloc, &[]).expect(rt, "memory"))
            .is_none()
}

// Whether what waits is found by its stamp, until it is removed.
fn is_found(deferred: &mut Deferred) -> bool {
    let before = deferred.len() == 4 && has(deferred, (3, 1)) && !has(deferred, (1, 3));
    let removed = stamp_of(deferred.remove(stamp((3, 1))).as_ref()) == Some(stamp((3, 1)));
    before && removed && deferred.len() == 3 && !has(deferred, (3, 1))
}

// A stamp, and the first that waits past it.
const IN_ORDER: &[(Option<Stamp>, Option<Stamp>)] = &[
    (None, Some((2, 2))),
    (Some((2, 1)), Some((2, 2))),
    (Some((2, 2)), Some((3, 1))),
    (Some((3, 1)), Some((4, 1))),
    (Some((4, 2)), Some((4, 3))),
    (Some((4, 3)), None),
];

// The first row that is wrong of what comes next.
fn wrong_next(deferred: &Deferred) -> Option<usize> {
    for (i, &(t, want)) in IN_ORDER.iter().enumerate() {
        if stamp_of(deferred.after(t.map(stamp))) != want.map(stamp) {
            return Some(i);
        }
    }
    None
}

// A stamp to begin after, what was seen, and what is ready then.
const READY: &[(Option<Stamp>, &[Stamp], Option<Stamp>)] = &[
    (None, &[], None),
    (None, &[(1, 0)], Some((2, 2))),
    (Some((2, 1)), &[(1, 0)], Some((2, 2))),
    (Some((2, 2)), &[(1, 0)], None),
    (Some((2, 2)), &[(1, 0), (3, 1)], Some((3, 1))),
    (Some((3, 1)), &[(1, 0), (3, 1)], Some((4, 1))),
    (Some((4, 1)), &[(1, 0), (3, 1)], Some((4, 3))),
    (Some((4, 3)), &[(1, 0), (3, 1)], None),
];

// What was seen when what waits was watched, where it was.
const WATCHED: &[Option<&[Stamp]>] = &[
    None,
    Some(&[]),
    Some(&[(1, 0)]),
    Some(&[(1, 0), (2, 1)]),
    Some(&[(1, 0), (3, 1)]),
    Some(&[(9, 7)]),
];

fn watch(rt: &impl Abort, alloc: Global, deferred: &mut Deferred, watched: Option<&[Stamp]>) {
    if let Some(seen) = watched {
        deferred.watch(&version(alloc, seen).expect(rt, "memory"));
    }
}

fn ready(
    rt: &impl Abort,
    alloc: Global,
    deferred: &Deferred,
    after: Option<Stamp>,
    have: &[Stamp],
) -> Option<Lamport> {
    let have = version(alloc, have).expect(rt, "memory");
    stamp_of(deferred.ready(after.map(stamp), &have))
}

// The first row that is wrong of what is ready.
fn wrong_row(rt: &impl Abort, alloc: Global, deferred: &Deferred) -> Option<usize> {
    for (i, &(after, have, want)) in READY.iter().enumerate() {
        if ready(rt, alloc, deferred, after, have) != want.map(stamp) {
            return Some(i);
        }
    }
    None
}

fn wrong_row_after(rt: &impl Abort, alloc: Global, watched: Option<&[Stamp]>) -> Option<usize> {
    let mut deferred = waiting_list(rt, alloc);
    watch(rt, alloc, &mut deferred, watched);
    wrong_row(rt, alloc, &deferred)
}

#[test]
fn what_waits_is_gone_through_in_order(rt: HostRuntime) {
    let wrong = wrong_next(&waiting_list(&rt, rt.alloc()));
    assert!(rt; wrong.is_none(), "row {wrong:?}");
}

#[test]
fn the_least_that_misses_nothing_is_ready(rt: HostRuntime) {
    assert!(rt; is_empty(&rt, rt.alloc()) && is_found(&mut waiting_list(&rt, rt.alloc())));
    for &watched in WATCHED {
        let wrong = wrong_row_after(&rt, rt.alloc(), watched);
        assert!(rt; wrong.is_none(), "row {wrong:?}, watched {watched:?}");
    }
}

fn is_applied(applied: &AppliedList, at: Stamp) -> bool {
    stamp_of(applied.find(stamp(at))) == Some(stamp(at))
}

// Puts an operation last where none of its stamp is applied.
fn apply(alloc: Global, applied: &mut AppliedList, op: Operation) -> Result<(), OutOfMemory> {
    if applied.find(op.stamp()).is_none() {
        applied.push(alloc, op)?;
    }
    Ok(())
}

// Whether an operation is found once it is applied.
fn is_found_once_applied(rt: &impl Abort, alloc: Global) -> bool {
    let mut applied = AppliedList::new(alloc).expect(rt, "memory");
    let before = is_applied(&applied, (2, 1));
    apply(
        alloc,
        &mut applied,
        operation(alloc, (2, 1), &[], EDIT).expect(rt, "memory"),
    )
    .expect(rt, "memory");
    !before && is_applied(&applied, (2, 1)) && applied.len() == 1
}

#[test]
fn an_operation_is_found_once_applied(rt: HostRuntime) {
    assert!(rt; is_found_once_applied(&rt, rt.alloc()));
}
