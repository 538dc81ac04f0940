//! Works on folds of a snapshot: ranges are folded and unfolded, places converted, what is shown is copied, and the
//! map goes on to later snapshots.
ghost use Rattle.std.specs.Prelude.{◌≡◌, OnOk};
ghost use Rattle.text_buffer.specs.Document.{IsFront};

use crate::buffers::open_long;
use bench_reports::{Done, Report, short_text, step};
use fold_map::{Bias, FoldMap};
use op_model::{Piece, Text};
use std::alloc::Global;
use sum_tree::OutOfMemory;
use text_buffer::Buffer;

// How many edits are made before a map goes on, and then with a map that goes on after each.
const EDITS: u32 = 1_000;

/// Works on `count` folds of up to 63 bytes in a text of `bytes` bytes.
pub fn works(report: &mut Report<'_>, bytes: u32, count: u32) -> Done {
    let mut buffer = open_long(report.alloc(), 1, bytes)?;
    let mut map = FoldMap::new(report.alloc(), buffer.snapshot()?)?;
    works_on(report, &mut buffer, &mut map, bytes.into(), count)
}

// The same on a map of the buffer, which has no folds yet.
fn works_on(
    report: &mut Report<'_>,
    buffer: &mut Buffer,
    map: &mut FoldMap,
    len: u64,
    count: u32,
) -> Done
    requires { map.old.history ≡ buffer.old.history }
{
    report.begin();
    report.add("Fold", fold_all(map, len, count));
    looks(report, map, len, count)?;
    report.add("Copy", buffer.text()?.len() as u64);
    syncs(report, map, buffer)?;
    report.add("Unfold", unfold_all(map, len, count));
    Ok(())
}

// The range that a number draws.
fn range(x: u64, len: u64) -> (u64, u64) {
    let start = (x >> 20) % len.max(1);
    (start, start.saturating_add((x >> 50) % 64).min(len))
}

// How many of the ranges are folded; the others hold nothing.
fn fold_all(map: &mut FoldMap, len: u64, count: u32) -> u64
    ensures { map.new.history ≡ map.old.history }
{
    let (mut x, mut folded) = (1u64, 0u64);
    for _ in 0..count {
        x = step(x);
        let (start, end) = range(x, len);
        folded = folded.wrapping_add(map.fold(start, end).is_ok() as u64);
    }
    folded
}

// How many folds are taken away by half as many ranges.
fn unfold_all(map: &mut FoldMap, len: u64, count: u32) -> u64 {
    let (mut x, mut unfolded) = (3u64, 0u64);
    for _ in 0..count / 2 {
        x = step(x);
        let (start, end) = range(x, len);
        unfolded = unfolded.wrapping_add(map.unfold(start, end).unwrap_or(0));
    }
    unfolded
}

// Places of both texts converted, and what is shown copied.
fn looks(report: &mut Report<'_>, map: &FoldMap, len: u64, count: u32) -> Done {
    let (n, shown) = (u64::from(count), map.len().max(1));
    report.sum("ToShown", n, |x| {
        map.to_shown(x % len.max(1), Bias::Left).unwrap_or(0)
    });
    report.sum(
        "ToText",
        n,
        |x| map.to_text(x % shown, Bias::Left).unwrap_or(0),
    );
    report.add("Text", map.text()?.len() as u64);
    Ok(())
}

// Replaces up to two bytes, drawn by chance, by 1 to 8.
fn edit(alloc: Global, buffer: &mut Buffer, x: u64) -> Done
    ensures { OnOk result (IsFront buffer.old.history buffer.new.history) }
{
    let len = buffer.summary().len;
    let start = (x >> 20) % len.max(1);
    let end = start.saturating_add((x >> 50) % 3).min(len);
    let text = Text::new(String::from_str(alloc, short_text(x >> 56))?);
    match buffer.edit_uncounted(&[Piece::new(start, end, text)]) {
        Ok(_) => Ok(()),
        Err(_) => Err(OutOfMemory),
    }
}

fn go_on(map: &mut FoldMap, buffer: &Buffer) -> Done
    requires { IsFront map.old.history buffer.now.history }
    ensures { OnOk result (map.new.history ≡ buffer.now.history) }
{
    let snapshot = buffer.snapshot()?;
    map.sync(snapshot).or(Err(OutOfMemory))
}

// Edits at random places, each while there is a snapshot.
fn edit_all(alloc: Global, buffer: &mut Buffer) -> Done
    ensures { OnOk result (IsFront buffer.old.history buffer.new.history) }
{
    let mut x = 5u64;
    for _ in 0..EDITS {
        x = step(x);
        let _snapshot = buffer.snapshot()?;
        edit(alloc, buffer, x)?;
    }
    Ok(())
}

// Edits at random places; the map goes on after each.
fn follow_all(alloc: Global, map: &mut FoldMap, buffer: &mut Buffer) -> Done
    requires { IsFront map.old.history buffer.old.history }
{
    let mut x = 7u64;
    for _ in 0..EDITS {
        x = step(x);
        edit(alloc, buffer, x)?;
        go_on(map, buffer)?;
    }
    Ok(())
}

// The lengths of what is shown.
fn syncs(report: &mut Report<'_>, map: &mut FoldMap, buffer: &mut Buffer) -> Done
    requires { map.old.history ≡ buffer.old.history }
{
    let alloc = report.alloc();
    report.begin();
    edit_all(alloc, buffer)?;
    report.add("Edits", buffer.summary().len);
    go_on(map, buffer)?;
    report.add("SyncScattered", map.len());
    follow_all(alloc, map, buffer)?;
    report.add("EditsSynced", map.len());
    Ok(())
}
