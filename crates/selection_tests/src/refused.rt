//! Calls in which an allocation fails: the sets stay as they were, and the call is made again.
//!
//! Where none fails, each call is made once. `bench/refused_calls.sh` refuses each allocation in turn.
use crate::made::{Range, keeps, open, operation};
use selections::{
    OutOfMemory, PlacesFault, SelFault, SelTook, SelectionOp, SelectionSets, SetFault,
};
use std::alloc::Global;
use std::process::Abort;
use text_buffer::Snapshot;

const RANGES: &[Range] = &[(0, 1), (1, 1), (1, 2)];

// Makes a call again once, where its allocation failed.
fn set_again(sets: &mut SelectionSets, snapshot: &Snapshot) -> bool {
    match sets.set(snapshot, RANGES) {
        Ok(op) => op.stamp.value == 1 && keeps(sets, &[(1, 1)]),
        Err(SetFault::OutOfMemory) => keeps(sets, &[]) && sets.set(snapshot, RANGES).is_ok(),
        Err(_) => false,
    }
}

fn operation_again(alloc: Global) -> Option<SelectionOp> {
    match operation(alloc, (7, 3), &[(0, 2)]) {
        Ok(op) => Some(op),
        Err(OutOfMemory) => operation(alloc, (7, 3), &[(0, 2)]).ok(),
    }
}

fn take_again(alloc: Global, sets: &mut SelectionSets) -> bool {
    match operation_again(alloc) {
        None => false,
        Some(op) => match sets.take(op) {
            Ok(took) => took == SelTook::Set && keeps(sets, &[(1, 1), (7, 3)]),
            Err(SelFault::OutOfMemory) => keeps(sets, &[(1, 1)]) && take_now(alloc, sets),
            Err(_) => false,
        },
    }
}

fn take_now(alloc: Global, sets: &mut SelectionSets) -> bool {
    operation_again(alloc).is_some_and(|op| sets.take(op) == Ok(SelTook::Set))
}

fn places_again(sets: &SelectionSets, snapshot: &Snapshot) -> bool {
    match sets.places(snapshot, 1) {
        Ok(Some(places)) => places.as_slice() == RANGES,
        Err(PlacesFault::OutOfMemory) => sets.places(snapshot, 1).is_ok(),
        _ => false,
    }
}

fn copy_again(sets: &SelectionSets) -> bool {
    match sets.copy_of(3) {
        Ok(op) => op.is_some(),
        Err(OutOfMemory) => sets.copy_of(3).is_ok(),
    }
}

// A buffer and its snapshot, where an allocation may fail as they are made.
fn snapshot_of(rt: &impl Abort, alloc: Global) -> Snapshot {
    open(rt, alloc, "ab").snapshot().expect(rt, "memory")
}

fn comes_through(alloc: Global, snapshot: &Snapshot, sets: &mut SelectionSets) -> bool {
    set_again(sets, snapshot)
        && take_again(alloc, sets)
        && places_again(sets, snapshot)
        && copy_again(sets)
}

fn new_sets(alloc: Global) -> Option<SelectionSets> {
    SelectionSets::new(alloc, 1).ok()
}

#[test]
fn calls_are_made_again(rt: HostRuntime) {
    let snapshot = snapshot_of(&rt, rt.alloc());
    let comes = new_sets(rt.alloc()).is_some_and(|mut sets| comes_through(
        rt.alloc(),
        &snapshot,
        &mut sets,
    ));
    assert!(rt; comes);
}
