//! A snapshot of a buffer that is published to a reader, first alone and then while it looks.
ghost use Rattle.std.specs.Prelude.{◌≡◌, ◌∷◌, []};

use crate::buffers::open_long;
use bench_reports::{Done, Report, sum_of};
use snapshot_pub::{Publisher, SnapReader, open_pairs};
use std::sync::Wait;
use std::thread::{Threads, join};
use text_buffer::Snapshot;

/// Publishes a snapshot of a buffer over `size` bytes n times, takes the latest n times, and does both at once in two
/// threads.
pub fn works<R: Threads + Wait + Sync>(rt: &R, report: &mut Report<'_>, size: u32, n: u32) -> Done {
    let snapshot = open_long(report.alloc(), 1, size)?.snapshot()?;
    run(rt, report, &snapshot, u64::from(n))
}

fn run<R: Threads + Wait + Sync>(rt: &R, report: &mut Report<'_>, base: &Snapshot, n: u64) -> Done {
    let other = base.share()?;
    let (mut publisher, mut readers) = open_pairs(rt, report.alloc(), base.share()?, 1)?;
    if let Some(mut reader) = readers.pop() {
        report.begin();
        report.add("Publish", publish_all(rt, &mut publisher, base, n));
        report.sum("Latest", n, |_| latest_len(&mut reader));
        report.add(
            "Both",
            publish_beside(rt, &mut publisher, &mut reader, other),
        );
    }
    publisher.close(rt);
    Ok(())
}

// Publishes a snapshot n times: how many times no allocation failed.
fn publish_all<R: Wait>(rt: &R, publisher: &mut Publisher, snapshot: &Snapshot, n: u64) -> u64
    requires { publisher.old.published ≡ snapshot.now ∷ [] }
    ensures { publisher.new.published ≡ snapshot.now ∷ [] }
{
    let mut count = 0u64;
    for _i in 0..n {
        count = count.wrapping_add(publish(rt, publisher, snapshot) as u64);
    }
    count
}

fn publish<R: Wait>(rt: &R, publisher: &mut Publisher, snapshot: &Snapshot) -> bool
    requires { publisher.old.published ≡ snapshot.now ∷ [] }
    ensures { publisher.new.published ≡ snapshot.now ∷ [] }
{
    publisher.publish(rt, 0, snapshot).is_ok()
}

// The length of the latest snapshot.
fn latest_len(reader: &mut SnapReader) -> u64 {
    reader.latest().map_or(0, |snapshot| snapshot.text().len())
}

// Both at once, in two threads, 100,000 times each: the sum of both answers.
fn publish_beside<R: Threads + Wait + Sync>(
    rt: &R,
    publisher: &mut Publisher,
    reader: &mut SnapReader,
    snapshot: Snapshot,
) -> u64
    requires { publisher.old.published ≡ snapshot ∷ [] }
{
    let (count, sum) = join(
        rt,
        move || -> u64
            requires { publisher.now.published ≡ snapshot ∷ [] }
        { publish_all(rt, publisher, &snapshot, 100_000) },
        || sum_of(100_000, |_| latest_len(reader)),
    );
    count.wrapping_add(sum)
}
