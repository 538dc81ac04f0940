//! A publisher beside a reader's loop, in two threads.
ghost use Rattle.std.specs.Prelude.{◌≡◌, ◌∷◌, [], List, OnOk};
ghost use Rattle.op_model.specs.declared.operation.Operation.{Operation};
ghost use Rattle.text_buffer.specs.Document.{IsFront};

use crate::pairs::{edit, open};
use crate::tally::{Host, Tally};
use snapshot_pub::{Publisher, SnapReader};
use std::alloc::Global;
use std::sync::Wait;
use std::thread::{Threads, join};
use sum_tree::OutOfMemory;
use text_buffer::{Buffer, EditFault};

// How many snapshots are published after the first.
const COUNT: u64 = 100_000;

fn publish<R: Wait>(rt: &R, publisher: &mut Publisher, buffer: &Buffer) -> Result<(), OutOfMemory>
    requires { (first : List Operation) × (publisher.old.published ≡ first ∷ [])
        × IsFront first buffer.now.history }
    ensures { OnOk result (publisher.new.published ≡ buffer.now.history ∷ []) }
{
    let snapshot = buffer.snapshot()?;
    publisher.publish(rt, 0, &snapshot)
}

// Publishes what the buffer is after each of COUNT edits without ranges, which change nothing and count as operations.
fn publish_all<R: Wait>(
    rt: &R,
    publisher: &mut Publisher,
    buffer: &mut Buffer,
) -> Result<(), EditFault>
    requires { publisher.old.published ≡ buffer.old.history ∷ [] }
{
    for _i in 0..COUNT {
        edit(buffer, &[])?;
        publish(rt, publisher, buffer)?;
    }
    Ok(())
}

// How many operations `latest` shows; 0 if an allocation fails.
fn count_latest(reader: &mut SnapReader) -> u64 {
    match reader.latest() {
        Ok(snapshot) => snapshot.applied().len(),
        Err(_) => 0,
    }
}

// Looks until the last snapshot is there: how often it stepped back, and how often it did not enter.
fn watch(reader: &mut SnapReader) -> (u64, u64) {
    let mut last: u64 = 1;
    let mut back: u64 = 0;
    let mut unentered: u64 = 0;
    for _i in 0..1_000_000_000u64 {
        let length = count_latest(reader);
        back = back.saturating_add((length < last) as u64);
        unentered = unentered.saturating_add(!reader.entered() as u64);
        last = length;
        if last > COUNT {
            break;
        }
    }
    (back, unentered)
}

fn run_both<R: Threads + Wait + Sync>(
    rt: &R,
    publisher: &mut Publisher,
    buffer: &mut Buffer,
    reader: &mut SnapReader,
) -> bool
    requires { publisher.old.published ≡ buffer.old.history ∷ [] }
{
    let (published, watched) = join(
        rt,
        || -> Result<(), EditFault>
            requires { publisher.now.published ≡ buffer.now.history ∷ [] }
        { publish_all(rt, publisher, buffer) },
        || watch(reader),
    );
    published == Ok(()) && watched == (0, 0) && count_latest(reader) == COUNT + 1
}

fn show_beside<R: Threads + Wait + Sync>(rt: &R, alloc: Global) -> bool {
    let Some((mut buffer, mut publisher, mut readers)) = open(rt, alloc, 1) else {
        return false;
    };
    let is_right = match readers.pop() {
        Some(mut reader) => run_both(rt, &mut publisher, &mut buffer, &mut reader),
        None => false,
    };
    publisher.close(rt);
    is_right
}

/// Tests a reader in one thread beside a publisher in another.
pub fn test<R: Host>(rt: &R, tally: &mut Tally) {
    let is_right = show_beside(rt, rt.alloc());
    tally.note(
        rt,
        "pairs",
        "a reader beside a publisher never steps back",
        is_right,
    );
}
