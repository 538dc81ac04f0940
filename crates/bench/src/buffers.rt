//! Buffers, and works on them: snapshots, edits, undos, anchors, and operations that wait and are forgotten.
ghost use Rattle.std.specs.Prelude.{◌≤◌};

use crate::carets;
use bench_reports::{Answer, Done, Report, long_text, short_text, step};
use lamport_clock::{Lamport, Version};
use op_model::{EditOp, Operation, Piece, Pieces, Text};
use std::alloc::Global;
use std::cmp::Ordering;
use sum_tree::OutOfMemory;
use text_buffer::{Anchor, Bias, Buffer, Limits, Snapshot, Took};

// How many edits of a kind are made, and how many anchors.
const EDITS: u32 = 200;

const ANCHORS: u64 = 10_000;

// A letter put at random, also while there is a snapshot, up to 4 bytes replaced by 1 to 8, or a letter put after the
// last one.
#[derive(Clone, Copy)]
enum Change {
    Letter,
    Shared,
    Random,
    Typed,
}

/// A replica's buffer over a text. Any fault of a call here would be a failed allocation.
pub fn open(alloc: Global, replica: u16, base: &str) -> Result<Buffer, OutOfMemory>
    requires least { 1 ≤ replica }
    requires greatest { replica ≤ 1023 }
{
    Buffer::new(alloc, replica, base, Limits::MOST).or(Err(OutOfMemory))
}

/// The same over a text of `bytes` bytes.
pub fn open_long(alloc: Global, replica: u16, bytes: u32) -> Result<Buffer, OutOfMemory>
    requires least { 1 ≤ replica }
    requires greatest { replica ≤ 1023 }
{
    open(alloc, replica, long_text(alloc, bytes, false)?.as_str())
}

fn edit(buffer: &mut Buffer, pieces: &[Piece]) -> Result<Operation, OutOfMemory> {
    buffer.edit_uncounted(pieces).or(Err(OutOfMemory))
}

/// Takes an operation.
pub fn take(buffer: &mut Buffer, op: Operation) -> Result<Took, OutOfMemory> {
    buffer.take(op).or(Err(OutOfMemory))
}

/// Puts a text in the place of a range.
pub fn replace(alloc: Global, buffer: &mut Buffer, start: u64, end: u64, text: &str) -> Done {
    let text = Text::new(String::from_str(alloc, text)?);
    edit(buffer, &[Piece::new(start, end, text)])?;
    Ok(())
}

/// The work that a word names, if it names one. Some need a buffer of about `size` fragments: letters are put into it
/// at random.
pub fn works(report: &mut Report<'_>, work: &str, size: u32) -> Done {
    let (bytes, letters) = match work {
        "snapshot" => (size, 0),
        "forget" => (8, 0),
        "anchors" | "edits" | "selections" | "undo" => (size.saturating_mul(8), size / 2),
        _ => return Ok(()),
    };
    let mut buffer = open_long(report.alloc(), 1, bytes)?;
    time(report, &mut buffer, work, size, letters)
}

fn time(report: &mut Report<'_>, buffer: &mut Buffer, work: &str, size: u32, letters: u32) -> Done {
    make(report.alloc(), buffer, Change::Letter, letters)?;
    match work {
        "snapshot" => snapshots(report, buffer),
        "forget" => forgets(report, buffer, size),
        "edits" => edits(report, buffer, size),
        "anchors" => anchors(report, buffer),
        "selections" => carets::works(report, &buffer.snapshot()?),
        _ => undos(report, buffer),
    }
}

fn make(alloc: Global, buffer: &mut Buffer, change: Change, n: u32) -> Done {
    let mut x = 1u64;
    for number in 0..n {
        x = step(x);
        match change {
            Change::Letter => put(alloc, buffer, x >> 20, 0, "a")?,
            Change::Shared => put_beside(alloc, buffer, x >> 20)?,
            Change::Random => put(alloc, buffer, x >> 20, (x >> 50) % 5, short_text(x >> 56))?,
            Change::Typed => put(alloc, buffer, u64::from(number) + 1_000, 0, "a")?,
        }
    }
    Ok(())
}

// Puts a text in the place of up to `gone` bytes.
fn put(alloc: Global, buffer: &mut Buffer, at: u64, gone: u64, text: &str) -> Done {
    let len = buffer.summary().len;
    let start = at % len.max(1);
    let end = start.saturating_add(gone).min(len).max(start);
    replace(alloc, buffer, start, end, text)
}

// Puts a letter while there is a snapshot.
fn put_beside(alloc: Global, buffer: &mut Buffer, at: u64) -> Done {
    let _snapshot = buffer.snapshot()?;
    put(alloc, buffer, at, 0, "a")
}

// Takes snapshots of a buffer, and edits it while there is a snapshot and while there is none: the lengths of the
// text.
fn snapshots(report: &mut Report<'_>, buffer: &mut Buffer) -> Done {
    report.begin();
    report.sum("Snapshots", 100_000, |_| {
        buffer.snapshot().map_or(0, |it| it.applied().len())
    });
    make(report.alloc(), buffer, Change::Shared, 4)?;
    report.add("SnapshotEdits", buffer.summary().len);
    make(report.alloc(), buffer, Change::Letter, 4)?;
    report.add("Edits", buffer.summary().len);
    Ok(())
}

// Edits at random places and then typed ones, which another replica then takes: the lengths of the text.
fn edits(report: &mut Report<'_>, author: &mut Buffer, fragments: u32) -> Done {
    report.begin();
    make(report.alloc(), author, Change::Random, EDITS)?;
    report.add("RandomLocal", author.summary().len);
    make(report.alloc(), author, Change::Typed, EDITS)?;
    report.add("TypedLocal", author.summary().len);
    let mut buffer = open_long(report.alloc(), 2, fragments.saturating_mul(8))?;
    takes(report, &mut buffer, author)
}

fn takes(report: &mut Report<'_>, buffer: &mut Buffer, author: &Buffer) -> Done {
    take_all(report.alloc(), buffer, author, 2 * EDITS as u64)?;
    report.begin();
    take_all(report.alloc(), buffer, author, EDITS as u64)?;
    report.add("RandomRemote", buffer.summary().len);
    take_all(report.alloc(), buffer, author, 0)?;
    report.add("TypedRemote", buffer.summary().len);
    Ok(())
}

// Takes the author's operations from the first that the buffer does not have, except the last ones.
fn take_all(alloc: Global, buffer: &mut Buffer, author: &Buffer, last: u64) -> Done {
    for i in buffer.applied().len()..author.applied().len().saturating_sub(last) {
        if let Some(applied) = author.applied().get(i) {
            take(buffer, applied.op().copy(alloc)?)?;
        }
    }
    Ok(())
}

// Deletes one byte, 100 and 10,000 single bytes, and undoes each of these edits ten times: the lengths of the text.
fn undos(report: &mut Report<'_>, buffer: &mut Buffer) -> Done {
    for (name, count) in [("Undo1", 1), ("Undo100", 100), ("Undo10000", 10_000)] {
        let edit = delete(report.alloc(), buffer, count)?;
        report.begin();
        for _ in 0..10 {
            buffer.undo(&[edit]).or(Err(OutOfMemory))?;
        }
        report.add(name, buffer.summary().len);
    }
    Ok(())
}

// Deletes `count` single bytes, spread evenly.
fn delete(alloc: Global, buffer: &mut Buffer, count: u64) -> Result<Lamport, OutOfMemory> {
    let len = buffer.summary().len;
    let count = count.min(len);
    let mut pieces = Vec::new(alloc);
    for i in 0..count {
        let start = i.wrapping_mul(len / count);
        let text = Text::new(String::new(alloc));
        pieces.push(Piece::new(start, start.saturating_add(1), text))?;
    }
    Ok(edit(buffer, &pieces)?.stamp())
}

// Takes and forgets `count` operations, one after the other, while 1,000 others wait: how many were forgotten.
fn forgets(report: &mut Report<'_>, buffer: &mut Buffer, count: u32) -> Done {
    defer(report.alloc(), buffer, 4, 1_000)?;
    report.begin();
    report.add("Forgets", defer(report.alloc(), buffer, 2, count)?);
    Ok(())
}

// Takes operations that wait. Those of replica 2 are forgotten at once: how many were.
fn defer(alloc: Global, buffer: &mut Buffer, replica: u16, count: u32) -> Answer {
    let mut forgotten = 0u64;
    for value in 1_000_000..count.saturating_add(1_000_000) {
        let stamp = Lamport { value, replica };
        take(buffer, early(alloc, stamp)?)?;
        let is_gone = replica == 2 && buffer.forget(stamp).is_some();
        forgotten = forgotten.wrapping_add(u64::from(is_gone));
    }
    Ok(forgotten)
}

// An edit that waits for one of replica 3, which never comes.
fn early(alloc: Global, stamp: Lamport) -> Result<Operation, OutOfMemory> {
    let version = Version::from_entries(alloc, &[(0, 1), (3, 9)])?;
    Ok(Operation::Edit(EditOp {
        stamp,
        version,
        pieces: Pieces::new(Vec::new(alloc)),
    }))
}

// Works on many anchors, on a hundred of them again and again, as a program does that shows the same carets, and on a
// row.
fn anchors(report: &mut Report<'_>, buffer: &Buffer) -> Done {
    let snapshot = buffer.snapshot()?;
    ask_drawn(report, &snapshot)?;
    ask_row(report, &snapshot)
}

fn ask_drawn(report: &mut Report<'_>, snapshot: &Snapshot) -> Done {
    report.begin();
    let anchors = draw(report.alloc(), snapshot, false)?;
    report.add("Anchors", anchors.len() as u64);
    report.sum("Resolve", 10, |_| places(snapshot, &anchors));
    report.sum("Compare", 10, |_| count_ascents(snapshot, &anchors));
    let few = &anchors[..anchors.len().min(100)];
    report.sum("ResolveFew", 1_000, |_| places(snapshot, few));
    report.sum("CompareFew", 1_000, |_| count_ascents(snapshot, few));
    Ok(())
}

fn ask_row(report: &mut Report<'_>, snapshot: &Snapshot) -> Done {
    let row = draw(report.alloc(), snapshot, true)?;
    report.begin();
    report.sum("ResolveRow", 10, |_| places(snapshot, &row));
    Ok(())
}

// Anchors at places drawn by chance, or in a row.
fn draw(alloc: Global, snapshot: &Snapshot, row: bool) -> Result<Vec<Anchor>, OutOfMemory> {
    let len = snapshot.text().len().max(1);
    let mut anchors = Vec::new(alloc);
    let mut x = 1u64;
    for number in 0..ANCHORS {
        x = step(x);
        let next = number.wrapping_mul(len) / ANCHORS;
        let at = if row { next } else { (x >> 20) % len };
        add(&mut anchors, snapshot, at, x >> 10)?;
    }
    Ok(anchors)
}

// Adds the anchor at a place, Left for an even number.
fn add(anchors: &mut Vec<Anchor>, snapshot: &Snapshot, at: u64, number: u64) -> Done {
    let bias = [Bias::Left, Bias::Right][(number % 2) as usize];
    match snapshot.anchor(at, bias) {
        Ok(anchor) => Ok(anchors.push(anchor)?),
        Err(_) => Ok(()),
    }
}

// Resolves all anchors: the sum of their places.
fn places(snapshot: &Snapshot, anchors: &[Anchor]) -> u64 {
    anchors.iter().fold(0, |sum, anchor| {
        u64::wrapping_add(sum, snapshot.resolve(anchor).unwrap_or(0))
    })
}

// Compares each anchor with the next: how often it is before that.
fn count_ascents(snapshot: &Snapshot, anchors: &[Anchor]) -> u64 {
    let pairs = anchors.iter().zip(anchors.iter().skip(1));
    pairs.fold(0, |count, (one, next)| {
        let ascends = snapshot.compare(one, next) == Ok(Ordering::Less);
        u64::wrapping_add(count, ascends as u64)
    })
}
