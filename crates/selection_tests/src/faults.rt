//! Ranges that are not selected.
use crate::made::{Range, keeps, open, select, sets_of};
use selections::SetFault;
use selections::SetFault::{InsideChar, PastEnd, Reversed};
use std::alloc::Global;
use std::process::Abort;
use text_buffer::Snapshot;

struct Row {
    name: &'static str,
    text: &'static str,
    ranges: &'static [Range],
    fault: SetFault,
}

const ROWS: &[Row] = &[
    Row {
        name: "a reversed range",
        text: "ab",
        ranges: &[(2, 1)],
        fault: Reversed(0),
    },
    Row {
        name: "reversed comes before past the end",
        text: "ab",
        ranges: &[(0, 1), (0, 3), (1, 0), (2, 1)],
        fault: Reversed(2),
    },
    Row {
        name: "past the end, both of its ends",
        text: "ab",
        ranges: &[(0, 2), (18446744073709551615, 18446744073709551615)],
        fault: PastEnd(1, 2),
    },
    Row {
        name: "past the end comes before inside a character",
        text: "é",
        ranges: &[(1, 2), (2, 3), (0, 4)],
        fault: PastEnd(1, 2),
    },
    Row {
        name: "an end inside a character",
        text: "aé",
        ranges: &[(0, 1), (1, 2), (2, 2)],
        fault: InsideChar(1),
    },
    Row {
        name: "a start inside a character",
        text: "aé",
        ranges: &[(2, 3)],
        fault: InsideChar(0),
    },
    Row {
        name: "a range in an empty text",
        text: "",
        ranges: &[(0, 0), (0, 1)],
        fault: PastEnd(1, 0),
    },
];

fn snapshot_of(rt: &impl Abort, alloc: Global, text: &str) -> Snapshot {
    open(rt, alloc, text).snapshot().expect(rt, "memory")
}

// Whether the ranges meet the fault, and the sets stay as they were.
fn meets(rt: &impl Abort, alloc: Global, row: &Row) -> bool {
    let snapshot = snapshot_of(rt, alloc, row.text);
    let mut sets = sets_of(rt, alloc, 1);
    select(&mut sets, &snapshot, row.ranges) == Err(row.fault)
        && keeps(&sets, &[])
        && select(&mut sets, &snapshot, &[]) == Ok(1)
        && select(&mut sets, &snapshot, row.ranges) == Err(row.fault)
        && keeps(&sets, &[(1, 1)])
}

#[test]
fn ranges_meet_faults(rt: HostRuntime) {
    for row in ROWS {
        assert!(rt; meets(&rt, rt.alloc(), row), "{}", row.name);
    }
}
