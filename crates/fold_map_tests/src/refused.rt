//! Calls in which an allocation fails: the map stays as it was, and the call is made again.
//!
//! Where none fails, each call is made once. `bench/refused_calls.sh` refuses each allocation in turn.
ghost use Rattle.std.specs.Prelude.{◌≡◌, IfSome, OnErr};
ghost use Rattle.text_buffer.specs.Document.{IsFront};

use crate::editor::{Change, before_and_after, map_over, shows};
use fold_map::{FoldFault, FoldMap, OutOfMemory, Snapshot, SyncFault};
use std::alloc::Global;
use std::process::Abort;

// Whether this is what a map shows, asked again where an allocation fails.
fn shows_again(map: &FoldMap, want: &str) -> bool {
    match map.text() {
        Ok(text) => text.as_str() == want,
        Err(OutOfMemory) => shows(map, want),
    }
}

fn new_again(alloc: Global, snapshot: &Snapshot) -> Option<FoldMap>
    ensures { IfSome result (λ m. m.history ≡ snapshot.now) }
{
    match map_over(alloc, snapshot) {
        Ok(map) => Some(map),
        Err(OutOfMemory) => map_over(alloc, snapshot).ok(),
    }
}

// Folds a range of a map that shows this before it.
fn fold_again(map: &mut FoldMap, before: &str, s: u64, e: u64) -> bool
    ensures { map.new.history ≡ map.old.history }
{
    match map.fold(s, e) {
        Ok(()) => true,
        Err(FoldFault::OutOfMemory) => shows_again(map, before) && map.fold(s, e) == Ok(()),
        Err(_) => false,
    }
}

fn unfold_again(map: &mut FoldMap, before: &str, s: u64, e: u64) -> bool {
    match map.unfold(s, e) {
        Ok(count) => count == 1,
        Err(FoldFault::OutOfMemory) => shows_again(map, before) && map.unfold(s, e) == Ok(1),
        Err(_) => false,
    }
}

fn go_on_to(map: &mut FoldMap, snapshot: &Snapshot) -> Result<(), SyncFault>
    requires { IsFront map.old.history snapshot.now }
    ensures { OnErr result (map.new ≡ map.old) }
{
    let shared = snapshot.share()?;
    map.sync(shared)
}

fn stays_and_goes_on(map: &mut FoldMap, before: &str, snapshot: &Snapshot) -> bool
    requires { IsFront map.old.history snapshot.now }
{
    shows_again(map, before) && go_on_to(map, snapshot) == Ok(())
}

fn sync_again(map: &mut FoldMap, before: &str, snapshot: &Snapshot) -> bool
    requires { IsFront map.old.history snapshot.now }
{
    match go_on_to(map, snapshot) {
        Ok(()) => true,
        Err(SyncFault::OutOfMemory) => stays_and_goes_on(map, before, snapshot),
        Err(_) => false,
    }
}

fn fold_both(map: &mut FoldMap) -> bool
    ensures { map.new.history ≡ map.old.history }
{
    fold_again(map, "abcdefghijkl", 1, 4) && fold_again(map, "a⋯efghijkl", 6, 8)
}

fn makes_again(map: &mut FoldMap, now: &Snapshot) -> bool
    requires { IsFront map.old.history now.now }
{
    fold_both(map)
        && sync_again(map, "a⋯ef⋯ijkl", now)
        && unfold_again(map, "AB⋯ef⋯ijk", 7, 8)
        && shows_again(map, "AB⋯efgXhijk")
}

fn comes_through(alloc: Global, then: &Snapshot, now: &Snapshot) -> bool
    requires { IsFront then.now now.now }
{
    match new_again(alloc, then) {
        Some(mut map) => makes_again(&mut map, now),
        None => false,
    }
}

// The edits, the last one first in the text.
const CHANGES: &[Change] = &[(11, 12, ""), (7, 7, "X"), (0, 1, "AB")];

// With a buffer, where an allocation may not fail.
fn is_made_again(rt: &impl Abort, alloc: Global) -> bool {
    let (then, now) = before_and_after(rt, alloc, "abcdefghijkl", CHANGES);
    comes_through(alloc, &then, &now)
}

#[test]
fn calls_are_made_again(rt: HostRuntime) {
    assert!(rt; is_made_again(&rt, rt.alloc()));
}
