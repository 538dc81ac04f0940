//! Selections of a text that changes, and comes back by an undo.
use crate::made::{Change, Range, are_at, edit, open, select, sets_of};
use selections::SelectionSets;
use std::alloc::Global;
use std::process::Abort;
use text_buffer::{Buffer, Snapshot};

// A text, ranges of it, and where they are once the text is changed by another author.
struct Row {
    name: &'static str,
    text: &'static str,
    ranges: &'static [Range],
    change: Change,
    moved: &'static [Range],
}

const ROWS: &[Row] = &[
    Row {
        name: "text before a caret",
        text: "ab",
        ranges: &[(1, 1)],
        change: (0, 0, "X"),
        moved: &[(2, 2)],
    },
    Row {
        name: "text at a caret",
        text: "ab",
        ranges: &[(1, 1)],
        change: (1, 1, "X"),
        moved: &[(2, 2)],
    },
    Row {
        name: "text after a caret",
        text: "ab",
        ranges: &[(1, 1)],
        change: (2, 2, "X"),
        moved: &[(1, 1)],
    },
    Row {
        name: "text inside a range",
        text: "abcd",
        ranges: &[(1, 3)],
        change: (2, 2, "X"),
        moved: &[(1, 4)],
    },
    Row {
        name: "text at the start of a range is outside",
        text: "abcd",
        ranges: &[(1, 3)],
        change: (1, 1, "X"),
        moved: &[(2, 4)],
    },
    Row {
        name: "text at the end of a range is outside",
        text: "abcd",
        ranges: &[(1, 3)],
        change: (3, 3, "X"),
        moved: &[(1, 3)],
    },
    Row {
        name: "a range that is deleted is a caret",
        text: "abcd",
        ranges: &[(1, 3)],
        change: (1, 3, ""),
        moved: &[(1, 1)],
    },
    Row {
        name: "a range that is deleted with what is around it",
        text: "abcd",
        ranges: &[(1, 3)],
        change: (0, 4, ""),
        moved: &[(0, 0)],
    },
    Row {
        name: "a range that is deleted in part",
        text: "abcd",
        ranges: &[(1, 3)],
        change: (2, 4, ""),
        moved: &[(1, 2)],
    },
    Row {
        name: "a range that is replaced is a caret after the new text",
        text: "abcd",
        ranges: &[(1, 3)],
        change: (1, 3, "XYZ"),
        moved: &[(4, 4)],
    },
    Row {
        name: "the whole text, with text before it",
        text: "ab",
        ranges: &[(0, 2)],
        change: (0, 0, "X"),
        moved: &[(1, 3)],
    },
    Row {
        name: "the whole text, with text after it",
        text: "ab",
        ranges: &[(0, 2)],
        change: (2, 2, "X"),
        moved: &[(0, 2)],
    },
    Row {
        name: "carets at both ends, with text at the start",
        text: "ab",
        ranges: &[(0, 0), (2, 2)],
        change: (0, 0, "X"),
        moved: &[(1, 1), (3, 3)],
    },
    Row {
        name: "carets at both ends, with text at the end",
        text: "ab",
        ranges: &[(0, 0), (2, 2)],
        change: (2, 2, "X"),
        moved: &[(0, 0), (3, 3)],
    },
    Row {
        name: "a caret in an empty text",
        text: "",
        ranges: &[(0, 0)],
        change: (0, 0, "X"),
        moved: &[(1, 1)],
    },
    Row {
        name: "ranges stay in their order, and are not merged",
        text: "abcdef",
        ranges: &[(4, 5), (0, 3), (2, 4), (2, 4), (1, 1)],
        change: (2, 2, "X"),
        moved: &[(5, 6), (0, 4), (3, 5), (3, 5), (1, 1)],
    },
    Row {
        name: "no caret",
        text: "ab",
        ranges: &[],
        change: (1, 1, "X"),
        moved: &[],
    },
    Row {
        name: "characters of several bytes",
        text: "é⋯",
        ranges: &[(0, 2), (2, 5), (5, 5)],
        change: (2, 2, "€"),
        moved: &[(0, 2), (5, 8), (8, 8)],
    },
];

// Whether the ranges are where they should be, at their author and at another replica that took them.
fn both_at(
    sets: &SelectionSets,
    others: &SelectionSets,
    snapshot: &Snapshot,
    want: &[Range],
) -> bool {
    are_at(sets, snapshot, 1, Ok(Some(want))) && are_at(others, snapshot, 1, Ok(Some(want)))
}

// Sends what a set keeps to another.
fn send(rt: &impl Abort, sets: &SelectionSets, others: &mut SelectionSets) {
    if let Some(op) = sets.copy_of(1).expect(rt, "memory") {
        let _took = others.take(op);
    }
}

fn is_at(
    rt: &impl Abort,
    buffer: &Buffer,
    sets: &SelectionSets,
    others: &SelectionSets,
    want: &[Range],
) -> bool {
    both_at(sets, others, &buffer.snapshot().expect(rt, "memory"), want)
}

fn is_selected(
    rt: &impl Abort,
    buffer: &Buffer,
    sets: &mut SelectionSets,
    ranges: &[Range],
) -> bool {
    select(sets, &buffer.snapshot().expect(rt, "memory"), ranges) == Ok(1)
}

// Whether the ranges move with the change, and come back with its undo.
fn moves(
    rt: &impl Abort,
    alloc: Global,
    buffer: &mut Buffer,
    sets: &SelectionSets,
    others: &SelectionSets,
    row: &Row,
) -> bool {
    let first = is_at(rt, buffer, sets, others, row.ranges);
    let change = edit(rt, alloc, buffer, row.change);
    let then = is_at(rt, buffer, sets, others, row.moved);
    let undone = buffer.undo(&[change]).is_ok();
    first && then && undone && is_at(rt, buffer, sets, others, row.ranges)
}

fn holds(rt: &impl Abort, alloc: Global, row: &Row) -> bool {
    let mut buffer = open(rt, alloc, row.text);
    let mut sets = sets_of(rt, alloc, 1);
    let mut others = sets_of(rt, alloc, 2);
    let selected = is_selected(rt, &buffer, &mut sets, row.ranges);
    send(rt, &sets, &mut others);
    selected && moves(rt, alloc, &mut buffer, &sets, &others, row)
}

#[test]
fn ranges_move_with_their_text(rt: HostRuntime) {
    for row in ROWS {
        assert!(rt; holds(&rt, rt.alloc(), row), "{}", row.name);
    }
}
