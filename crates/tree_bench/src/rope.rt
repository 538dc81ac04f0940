//! Works on ropes.
ghost use Rattle.std.specs.Prelude.{◌≤◌, length, IfOk};
ghost use Rattle.std.specs.Str.{IsAscii};

use crate::MOST;
use bench_reports::{Answer, Done, Report, long_text, short_text, step};
use rope_chunks::Rope;
use snapshot_search::{find_all, find_all_par};
use std::alloc::Global;
use std::thread::Threads;
use sum_tree::OutOfMemory;
use text_dims::Point;

/// Works on a rope of `bytes` bytes, n times each.
pub fn works(report: &mut Report<'_>, bytes: u32, n: u32) -> Done {
    let text = long_text(report.alloc(), bytes, false)?;
    report.begin();
    let mut rope = ascii_rope(report.alloc(), text.as_str())?;
    report.add("Build", rope.len());
    report.add("ChunksBuilt", chunks(&rope));
    reads(report, &rope, n as u64)?;
    replaces(report, &mut rope, n as u64)
}

fn reads(report: &mut Report<'_>, rope: &Rope, n: u64) -> Done
    requires { IsAscii rope.now }
{
    report.sum("Points", n / 2, |x| point(rope, x));
    report.sum("Offsets", n / 2, |x| row_start(rope, x));
    report.add("Slices", slices(report.alloc(), rope, n / 2)?);
    report.sum("Shares", n / 2, |_| rope.share().map_or(0, |it| it.len()));
    let mut other = rope.share()?;
    replace_all(report.alloc(), &mut other, n, false, true)?;
    report.add("Parts", other.len());
    Ok(())
}

fn replaces(report: &mut Report<'_>, rope: &mut Rope, n: u64) -> Done
    requires { IsAscii rope.old }
{
    replace_all(report.alloc(), rope, n, false, false)?;
    report.add("Replaces", rope.len());
    report.add("Chunks", chunks(rope));
    let sum = replace_all(report.alloc(), rope, n, true, false)?;
    report.add("ShareReplaces", sum);
    Ok(())
}

// The rope of a text, empty where that is not ASCII or too long.
fn ascii_rope(alloc: Global, text: &str) -> Result<Rope, OutOfMemory>
    ensures { IfOk result (λ rope. IsAscii rope) }
{
    if text.is_ascii() && (text.len() as u64) < MOST {
        return Rope::from_str(alloc, text);
    }
    Rope::new(alloc)
}

fn chunks(rope: &Rope) -> u64 {
    rope.chunks().fold(0, |sum, _| u64::wrapping_add(sum, 1))
}

// The sum of the row and the column of the point at an offset, the one that x draws.
fn point(rope: &Rope, x: u64) -> u64 {
    let point = rope.offset_to_point(x % rope.len().saturating_add(1));
    point.map_or(0, |point| point.row.wrapping_add(point.column))
}

// The offset at which a row begins, the one that x draws.
fn row_start(rope: &Rope, x: u64) -> u64 {
    let row = x % rope.summary().lines.row.saturating_add(1);
    rope.point_to_offset(Point { row, column: 0 }).unwrap_or(0)
}

// A range of a rope, with fewer bytes than `most`, drawn by chance.
fn range(rope: &Rope, x: u64, most: u64) -> (u64, u64)
    requires { 1 ≤ most }
    ensures order { result.0 ≤ result.1 }
    ensures within { result.1 ≤ length rope.now }
{
    let len = rope.len();
    let start = (x >> 20) % len.saturating_add(1);
    let end = start.saturating_add((x >> 8) % most).min(len);
    (start, end)
}

// Appends a rope to another, where there is room.
fn append(alloc: Global, front: &mut Rope, part: Rope) -> Done
    requires front { IsAscii front.old }
    requires part { IsAscii part }
    ensures { IfOk result (λ _. IsAscii front.new) }
{
    if front.len() >= MOST || part.len() >= MOST {
        return Ok(());
    }
    front.append(alloc, part)
}

// Takes n parts, of up to half of the rope, and appends each to one that is begun again once it is as long as this
// one.
fn slices(alloc: Global, rope: &Rope, n: u64) -> Answer
    requires { IsAscii rope.now }
{
    let most = (rope.len() / 2).max(1);
    let mut whole = Rope::new(alloc)?;
    let (mut sum, mut x) = (0u64, 1u64);
    for _ in 0..n {
        x = step(x);
        let (start, end) = range(rope, x, most);
        append(alloc, &mut whole, rope.slice(alloc, start, end)?)?;
        sum = sum.wrapping_add(whole.len());
        if whole.len() >= rope.len() {
            whole = Rope::new(alloc)?;
        }
    }
    Ok(sum)
}

// Replaces n ranges of up to 8 bytes by texts of 1 to 8: the sum of the lengths of the ropes that shared the chunks.
fn replace_all(alloc: Global, rope: &mut Rope, n: u64, shared: bool, by_parts: bool) -> Answer
    requires { IsAscii rope.old }
    ensures { IfOk result (λ _. IsAscii rope.new) }
{
    let (mut sum, mut x) = (0u64, if shared { 5u64 } else { 1u64 });
    for _ in 0..n {
        x = step(x);
        let old = if shared { Some(rope.share()?) } else { None };
        replace(alloc, rope, x, by_parts)?;
        sum = sum.wrapping_add(old.as_ref().map_or(0, |old| old.len()));
    }
    Ok(sum)
}

fn replace(alloc: Global, rope: &mut Rope, x: u64, by_parts: bool) -> Done
    requires { IsAscii rope.old }
    ensures { IfOk result (λ _. IsAscii rope.new) }
{
    let text = short_text(x >> 32);
    if !text.is_ascii() || text.len() > 8 || rope.len() >= MOST {
        return Ok(());
    }
    let (start, end) = range(rope, x, 9);
    if !by_parts {
        return rope.replace(alloc, start, end, text);
    }
    let rest = rope.slice(alloc, end, rope.len())?;
    *rope = rope.slice(alloc, 0, start)?;
    if rope.len() < MOST {
        rope.push_str(alloc, text)?;
    }
    append(alloc, rope, rest)
}

/// Searches texts of `bytes` bytes, first words and then one letter, by one thread and in four parts.
pub fn searches<R: Threads + Sync>(rt: &R, report: &mut Report<'_>, bytes: u32) -> Done {
    let words = long_text(report.alloc(), bytes, true)?;
    let text = words.as_str();
    search(rt, report, text, ["Absent", "AbsentIn4", "hapaxlegomenon"])?;
    search(rt, report, text, ["Rare", "RareIn4", "summary"])?;
    search(rt, report, text, ["Frequent", "FrequentIn4", "th"])?;
    search(rt, report, text, ["OneByte", "OneByteIn4", "q"])?;
    let same = "a".repeat(report.alloc(), bytes as usize)?;
    let text = same.as_str();
    search(rt, report, text, ["Near", "NearIn4", "aaaaaaaaaaaaaaab"])?;
    search(rt, report, text, ["Each", "EachIn4", "aaaa"])?;
    let needle = "a".repeat(report.alloc(), 4096)?;
    let work = ["Periodic", "PeriodicIn4", needle.as_str()];
    search(rt, report, text, work)
}

// `work` is the name of a search, that of the one in parts, and the needle.
fn search<R: Threads + Sync>(rt: &R, report: &mut Report<'_>, text: &str, work: [&str; 3]) -> Done {
    let alloc = report.alloc();
    let rope = ascii_rope(alloc, text)?;
    report.begin();
    let found = find_all(alloc, &rope, work[2]).map_or(0, |all| all.len() as u64);
    report.add(work[0], found);
    let found = find_all_par(rt, alloc, &rope, work[2], 4).map_or(0, |all| all.len() as u64);
    report.add(work[1], found);
    Ok(())
}
