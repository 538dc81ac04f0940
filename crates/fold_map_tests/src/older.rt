//! Snapshots that are older, equal, or of another replica.
ghost use Rattle.std.specs.Prelude.{◌≡◌};
ghost use Rattle.op_model.specs.Steps.{new_state};
ghost use Rattle.text_buffer.specs.Document.{IsFront};

use crate::editor::{
    Change, before_and_after, edit, fold, go_on, map_at, map_of, map_over_base, open, open_as,
    shows,
};
use fold_map::{FoldMap, SyncFault};
use std::alloc::Global;
use std::process::Abort;
use text_buffer::{Buffer, Snapshot};

// What a map answers to a snapshot of which it is known that some of the map's operations are not in it.
fn goes_back(map: &mut FoldMap, now: &Snapshot, then: &Snapshot) -> Option<SyncFault>
    requires { map.old.history ≡ now.now }
{
    then.version().first_missing(now.version())?;
    map.sync(then.share().ok()?).err()
}

const CHANGES: &[Change] = &[(2, 2, "X")];

// Whether a map with a fold refuses an older snapshot, and shows what it did.
fn refuses(map: &mut FoldMap, now: &Snapshot, then: &Snapshot) -> bool
    requires { map.old.history ≡ now.now }
{
    let folded = fold(map, 1, 4) == Ok(());
    let refused = goes_back(map, now, then) == Some(SyncFault::Older(1));
    folded & refused & shows(map, "a⋯def")
}

fn is_refused(rt: &impl Abort, alloc: Global, now: &Snapshot, then: &Snapshot) -> bool {
    let mut map = map_at(rt, alloc, now);
    refuses(&mut map, now, then)
}

fn stays(rt: &impl Abort, alloc: Global) -> bool {
    let (then, now) = before_and_after(rt, alloc, "abcdef", CHANGES);
    is_refused(rt, alloc, &now, &then)
}

#[test]
fn an_older_snapshot_changes_nothing(rt: HostRuntime) {
    assert!(rt; stays(&rt, rt.alloc()));
}

// Whether a map over `abcdef` goes on to a buffer and then shows the same, with a fold.
fn follows(rt: &impl Abort, map: &mut FoldMap, buffer: &Buffer) -> bool
    requires { IsFront map.old.history buffer.now.history }
{
    let folded = fold(map, 1, 4) == Ok(());
    go_on(rt, buffer, map);
    folded & shows(map, "a⋯ef")
}

fn follows_itself(rt: &impl Abort, alloc: Global, buffer: &Buffer) -> bool {
    let mut map = map_of(rt, alloc, buffer);
    follows(rt, &mut map, buffer)
}

fn is_same(rt: &impl Abort, alloc: Global) -> bool {
    let buffer = open(rt, alloc, "abcdef");
    follows_itself(rt, alloc, &buffer)
}

#[test]
fn an_equal_snapshot_changes_nothing(rt: HostRuntime) {
    assert!(rt; is_same(&rt, rt.alloc()));
}

// The buffer of another replica over the base, after an edit.
fn other_buffer(rt: &impl Abort, alloc: Global, base: &str) -> Buffer
    ensures { IsFront (new_state base.now).history result.history }
{
    let mut buffer = open_as(rt, alloc, 2, base);
    edit(rt, alloc, &mut buffer, (2, 2, "X"));
    buffer
}

fn goes_over(rt: &impl Abort, alloc: Global, base: &str) -> bool {
    let buffer = other_buffer(rt, alloc, base);
    let mut map = map_over_base(rt, alloc, base);
    follows(rt, &mut map, &buffer)
}

#[test]
fn a_map_goes_on_to_another_replica(rt: HostRuntime) {
    assert!(rt; goes_over(&rt, rt.alloc(), "abcdef"));
}
