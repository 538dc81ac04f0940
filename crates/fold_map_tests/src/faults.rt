//! Ranges that are refused, and what is shown then.
use crate::editor::{map_over_base, shows};
use fold_map::FoldFault;
use std::alloc::Global;
use std::process::Abort;

struct Row {
    base: &'static str,
    range: (u64, u64),
    fault: FoldFault,
}

const ROWS: &[Row] = &[
    Row {
        base: "abcdef",
        range: (1, 1),
        fault: FoldFault::EmptyRange,
    },
    Row {
        base: "abcdef",
        range: (3, 2),
        fault: FoldFault::Reversed(0),
    },
    Row {
        base: "abcdef",
        range: (9, 8),
        fault: FoldFault::Reversed(0),
    },
    Row {
        base: "abcdef",
        range: (2, 7),
        fault: FoldFault::PastEnd(0, 6),
    },
    Row {
        base: "abcdef",
        range: (9, 9),
        fault: FoldFault::PastEnd(0, 6),
    },
    Row {
        base: "aéb",
        range: (2, 2),
        fault: FoldFault::InsideChar(0),
    },
    Row {
        base: "aéb",
        range: (0, 2),
        fault: FoldFault::InsideChar(0),
    },
    Row {
        base: "aéb",
        range: (2, 4),
        fault: FoldFault::InsideChar(0),
    },
    Row {
        base: "",
        range: (0, 0),
        fault: FoldFault::EmptyRange,
    },
];

// Whether both calls answer with the fault of a row, and the map shows its text as before.
fn meets(rt: &impl Abort, alloc: Global, row: &Row) -> bool {
    let Row {
        base,
        range: (s, e),
        fault,
    } = *row;
    let mut map = map_over_base(rt, alloc, base);
    let folded = map.fold(s, e) == Err(fault);
    let unfolded = map.unfold(s, e) == Err(fault);
    folded & unfolded & shows(&map, base)
}

#[test]
fn ranges_meet_faults(rt: HostRuntime) {
    for (i, row) in ROWS.iter().enumerate() {
        assert!(rt; meets(&rt, rt.alloc(), row), "row {i}");
    }
}
