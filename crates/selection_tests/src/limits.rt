//! As many ranges as an operation has at most, and one more.
use crate::made::{Range, Stamp, keeps, open, operation, select, sets_of};
use selections::{OutOfMemory, SelFault, SelTook, SelectionSets, SetFault};
use std::alloc::Global;
use std::process::Abort;
use text_buffer::Snapshot;

// That many ranges, of which the last is given; the value of their stamp, or their fault; the stamps that are kept then.
type Many = (usize, Range, Result<u32, SetFault>, &'static [Stamp]);

const SELECTED: [Many; 6] = [
    (1024, (1, 1), Ok(1), &[(1, 1)]),
    (1025, (1, 1), Err(SetFault::TooMany(1025)), &[]),
    (2000, (0, 2), Err(SetFault::TooMany(2000)), &[]),
    (1025, (1, 0), Err(SetFault::Reversed(1024)), &[]),
    (1025, (2, 9), Err(SetFault::PastEnd(1024, 4)), &[]),
    (1025, (0, 3), Err(SetFault::InsideChar(1024)), &[]),
];

// A stamp, and that many ranges; the answer where 2.1 is kept with one range.
const TAKEN: [(Stamp, usize, Result<SelTook, SelFault>); 5] = [
    ((3, 1), 1024, Ok(SelTook::Set)),
    ((3, 1), 1025, Err(SelFault::TooMany(1025))),
    ((1, 1), 1025, Err(SelFault::TooMany(1025))),
    ((2, 1), 1025, Err(SelFault::TooMany(1025))),
    ((0, 1), 1025, Err(SelFault::BadStamp)),
];

fn ranges_of(alloc: Global, count: usize, last: Range) -> Result<Vec<Range>, OutOfMemory> {
    let mut ranges = Vec::new(alloc);
    for _ in 1..count {
        ranges.push((1, 2))?;
    }
    ranges.push(last)?;
    Ok(ranges)
}

fn snapshot_of(rt: &impl Abort, alloc: Global) -> Snapshot {
    open(rt, alloc, "abé").snapshot().expect(rt, "memory")
}

fn select_many(
    rt: &impl Abort,
    alloc: Global,
    sets: &mut SelectionSets,
    count: usize,
    last: Range,
) -> Result<u32, SetFault> {
    let ranges = ranges_of(alloc, count, last).expect(rt, "memory");
    select(sets, &snapshot_of(rt, alloc), &ranges)
}

fn selects(rt: &impl Abort, alloc: Global, (count, last, want, kept): Many) -> bool {
    let mut sets = sets_of(rt, alloc, 1);
    let answer = select_many(rt, alloc, &mut sets, count, last);
    keeps(&sets, kept) && answer == want
}

fn take(
    rt: &impl Abort,
    alloc: Global,
    sets: &mut SelectionSets,
    at: Stamp,
    count: usize,
) -> Result<SelTook, SelFault> {
    let ranges = ranges_of(alloc, count, (0, 1)).expect(rt, "memory");
    sets.take(operation(alloc, at, &ranges).expect(rt, "memory"))
}

fn takes(
    rt: &impl Abort,
    alloc: Global,
    (at, count, want): (Stamp, usize, Result<SelTook, SelFault>),
) -> bool {
    let mut sets = sets_of(rt, alloc, 2);
    take(rt, alloc, &mut sets, (2, 1), 1) == Ok(SelTook::Set)
        && take(rt, alloc, &mut sets, at, count) == want
}

#[test]
fn no_more_ranges_are_selected(rt: HostRuntime) {
    for (i, &row) in SELECTED.iter().enumerate() {
        assert!(rt; selects(&rt, rt.alloc(), row), "row {i}");
    }
}

#[test]
fn no_more_ranges_are_taken(rt: HostRuntime) {
    for (i, &row) in TAKEN.iter().enumerate() {
        assert!(rt; takes(&rt, rt.alloc(), row), "row {i}");
    }
}
