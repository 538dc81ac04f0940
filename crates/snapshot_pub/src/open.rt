//! How pairs are made.
ghost use Rattle.std.specs.Prelude.{◌≡◌, ◌≤◌, ◌∷◌, [], false, length, map, replicate, All, IfOk, OnOk, vec_capacity};
ghost use Rattle.left_right.specs.Sides.{view};
ghost use Rattle.snapshot_pub.specs.Logs.{log_list};
ghost use Rattle.snapshot_pub.specs.States.{ReaderState, HasLearned};
ghost use Rattle.snapshot_pub.specs.Fields.{AreOpen, Shows, side_pair};

use crate::OutOfMemory;
use crate::growth::Growth;
use crate::kept::Kept;
use crate::publisher::{Publisher, Side, close_all};
use crate::reader::SnapReader;
use crate::rule::Hand;
use crate::steps::{ReadEnd, WriteEnd, show_in};
use std::alloc::Global;
use std::sync::Wait;
use text_buffer::Snapshot;

/// A publisher and its readers, each with a pair of its own, the reader at place i with pair i. `first` is published to
/// each pair, and its reader has learned it. Linear in the number of readers.
///
/// # Errors
///
/// `OutOfMemory` alone. No writer is then left.
///
/// # Examples
///
/// `opens` of `crates/session_tests/src/pairs.rt`.
pub fn open_pairs<R: Wait>(
    rt: &R,
    alloc: Global,
    first: Snapshot,
    readers: u32,
) -> Result<(Publisher, Vec<SnapReader>), OutOfMemory>
    ensures count { IfOk result (λ r. length r.1.items ≡ readers) }
    ensures published { IfOk result (λ r. r.0.published ≡ replicate readers first) }
    ensures pairs { IfOk result (λ r. map (λ (x : ReaderState). x.pair) r.1.items ≡ r.0.pairs) }
    ensures learned { IfOk result (λ r. All (HasLearned first) r.1.items) }
{
    open_over(rt, alloc, &first, readers)
}

// The same, for a snapshot that is lent.
fn open_over<R: Wait>(
    rt: &R,
    alloc: Global,
    first: &Snapshot,
    readers: u32,
) -> Result<(Publisher, Vec<SnapReader>), OutOfMemory>
    ensures count { IfOk result (λ r. length r.1.items ≡ readers) }
    ensures published { IfOk result (λ r. r.0.published ≡ replicate readers first.now) }
    ensures pairs { IfOk result (λ r. map (λ (x : ReaderState). x.pair) r.1.items ≡ r.0.pairs) }
    ensures learned { IfOk result (λ r. All (HasLearned first.now) r.1.items) }
{
    let mut ends = Vec::with_capacity(alloc, readers as usize)?;
    let mut sides = Vec::with_capacity(alloc, readers as usize)?;
    match open_all(rt, alloc, &mut sides, &mut ends, first, readers) {
        Ok(()) => Ok((Publisher { sides }, ends)),
        Err(refused) => {
            close_all(rt, sides);
            Err(refused)
        }
    }
}

fn open_all<R: Wait>(
    rt: &R,
    alloc: Global,
    sides: &mut Vec<Side>,
    ends: &mut Vec<SnapReader>,
    first: &Snapshot,
    readers: u32,
) -> Result<(), OutOfMemory>
    requires empty { (sides.old.items ≡ []) × (ends.old.items ≡ []) }
    requires room { (readers ≤ vec_capacity sides.old) × (readers ≤ vec_capacity ends.old) }
    ensures open { OnOk result (AreOpen first.now readers sides.new.items ends.new.items) }
{
    for _i in 0..readers {
        let (side, end) = open_pair(rt, alloc, first)?;
        sides.push_reserved(side);
        ends.push_reserved(end);
    }
    Ok(())
}

fn open_pair<R: Wait>(
    rt: &R,
    alloc: Global,
    first: &Snapshot,
) -> Result<(Side, SnapReader), OutOfMemory>
    ensures shown { IfOk result (λ r. Shows first.now r.0) }
    ensures learned { IfOk result (λ r. HasLearned first.now r.1) }
    ensures own { IfOk result (λ r. r.1.pair ≡ side_pair r.0) }
{
    let (growth, longest) = begin_log(first)?;
    let (end, reader) = open_ends(rt, alloc, &longest)?;
    Ok((
        Side { end, growth },
        SnapReader {
            end: reader,
            longest,
            entered: false,
        },
    ))
}

// A log whose list is that of the snapshot, and the snapshot with it.
fn begin_log(first: &Snapshot) -> Result<(Growth, Kept), OutOfMemory>
    ensures snapshot { IfOk result (λ r. r.1.snapshot ≡ first.now) }
    ensures reached { IfOk result (λ r. r.1.reached ≡ r.0.reached) }
{
    let snapshot = first.share()?;
    let growth = Growth::open(&snapshot);
    let reached = growth.reached.again();
    Ok((growth, Kept { snapshot, reached }))
}

// The two ends of a pair in which the snapshot is shown. Both have seen it.
fn open_ends<R: Wait>(
    rt: &R,
    alloc: Global,
    kept: &Kept,
) -> Result<(WriteEnd, ReadEnd), OutOfMemory>
    ensures shown { IfOk result (λ r. r.0.desk.shown.value ≡ kept.now) }
    ensures told { IfOk result (λ r. view r.0.desk.place ≡ kept.now ∷ []) }
    ensures learned { IfOk result (λ r. view r.1.place ≡ kept.now ∷ []) }
{
    let mut end = make_writer(alloc, kept)?;
    match start(rt, &mut end, kept) {
        Ok(reader) => Ok((end, reader)),
        Err(refused) => {
            end.take(rt);
            Err(refused)
        }
    }
}

// A writer's end that shows the snapshot. Nobody has seen it.
fn make_writer(alloc: Global, kept: &Kept) -> Result<WriteEnd, OutOfMemory>
    ensures { IfOk result (λ e. e.desk.shown.value ≡ kept.now) }
{
    WriteEnd::new(alloc, kept.share()?, kept.share()?, 1)
}

// Publishes the first snapshot, and makes the reader's end, which learns it.
fn start<R: Wait>(rt: &R, end: &mut WriteEnd, kept: &Kept) -> Result<ReadEnd, OutOfMemory>
    requires { kept.now ≡ end.old.desk.shown.value }
    ensures shown { OnOk result (end.new.desk.shown.value ≡ kept.now) }
    ensures told { OnOk result (view end.new.desk.place ≡ kept.now ∷ []) }
    ensures learned { IfOk result (λ r. view r.place ≡ kept.now ∷ []) }
{
    show_in(end, rt, kept.share()?);
    make_reader(end)
}

// A reader's end that has seen what the writer has seen.
fn make_reader(end: &mut WriteEnd) -> Result<ReadEnd, OutOfMemory>
    ensures shown { end.new.desk.shown ≡ end.old.desk.shown }
    ensures told { view end.new.desk.place ≡ view end.old.desk.place }
    ensures learned { IfOk result (λ r. view r.place ≡ view end.old.desk.place) }
{
    let mut reader = end.factory().reader()?;
    reader.learn::<Hand>(end.tell::<Hand>());
    Ok(reader)
}
