//! Works on selections: selected and looked up in a buffer of many fragments, and taken from many authors.
use bench_reports::{Answer, Done, Report, step};
use lamport_clock::Lamport;
use selections::{Ranges, SelTook, Selection, SelectionOp, SelectionSets};
use std::alloc::Global;
use sum_tree::OutOfMemory;
use text_buffer::{Anchor, Snapshot};

const CARET: Selection = Selection {
    start: Anchor::Greatest,
    end: Anchor::Greatest,
};

/// Selects 1,024 ranges 10 times, and asks 10 times for their places. Then operations of 1,000 authors are made, 100
/// of each, and are made and taken: how many are set.
pub fn works(report: &mut Report<'_>, snapshot: &Snapshot) -> Done {
    let ranges = draw(report.alloc(), snapshot.text().len())?;
    let mut sets = SelectionSets::new(report.alloc(), 1)?;
    report.begin();
    report.add("Selects", select(&mut sets, snapshot, &ranges));
    report.sum("SelectedPlaces", 10, |_| sum_of_places(&sets, snapshot));
    report.add("SelectionsMade", make_all(report.alloc())?);
    report.add("SelectionsTaken", take_all(report.alloc(), &mut sets)?);
    Ok(())
}

// 1,024 ranges of up to 63 bytes, drawn by chance.
fn draw(alloc: Global, len: u64) -> Result<Vec<(u64, u64)>, OutOfMemory> {
    let mut ranges = Vec::new(alloc);
    let mut x = 1u64;
    for _ in 0..1_024 {
        x = step(x);
        let start = (x >> 20) % len.max(1);
        ranges.push((start, start.saturating_add(x >> 58).min(len).max(start)))?;
    }
    Ok(ranges)
}

// The values of ten stamps together.
fn select(sets: &mut SelectionSets, snapshot: &Snapshot, ranges: &[(u64, u64)]) -> u64 {
    let mut sum = 0u64;
    for _ in 0..10 {
        let value = sets
            .set(snapshot, ranges)
            .map_or(0, |op| u64::from(op.stamp.value));
        sum = sum.wrapping_add(value);
    }
    sum
}

fn sum_of_places(sets: &SelectionSets, snapshot: &Snapshot) -> u64 {
    match sets.places(snapshot, 1) {
        Ok(Some(places)) => places
            .as_slice()
            .iter()
            .fold(0, |sum, range| u64::wrapping_add(sum, range.1)),
        _ => 0,
    }
}

fn operation(alloc: Global, value: u32, replica: u16) -> Result<SelectionOp, OutOfMemory> {
    Ok(SelectionOp {
        stamp: Lamport { value, replica },
        ranges: Ranges::new(Vec::from_slice(alloc, &[CARET])?),
    })
}

// Makes operations of 1,000 authors, 100 of each: the sum of their values.
fn make_all(alloc: Global) -> Answer {
    let mut sum = 0u64;
    for value in 100..200 {
        for author in 2..1_002 {
            let op = operation(alloc, value, author)?;
            sum = sum.wrapping_add(u64::from(op.stamp.value));
        }
    }
    Ok(sum)
}

// Makes and takes them: how many are set.
fn take_all(alloc: Global, sets: &mut SelectionSets) -> Answer {
    let mut count = 0u64;
    for value in 100..200 {
        for author in 2..1_002 {
            let op = operation(alloc, value, author)?;
            count = count.wrapping_add(u64::from(sets.take(op) == Ok(SelTook::Set)));
        }
    }
    Ok(count)
}
