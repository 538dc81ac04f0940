//! Undos among fragments: what they show and hide, what is seen of them, and what becomes of the texts.
use crate::operations::{Stamp, stamp, stamps};
use crate::places::index_of;
use crate::runs::{Run, tree_of};
use crate::undo_counts::{Count, map_of};
use fragments::{Fragment, InsertionIndex};
use remote_edit::{Move, Placed, mark_undo, mark_undo_by_index};
use std::alloc::Global;
use std::process::Abort;
use sum_tree::SumTree;
use undo_map::UndoMap;

// Fragments and what is counted with the undo (edit, undo, count); the undo and the edits that it counts; the text that is
// shown then, how many fragments have seen the undo, and the moves.
struct Row {
    runs: &'static [Run],
    counts: &'static [Count],
    by: Stamp,
    edits: &'static [Stamp],
    text: &'static str,
    seen: u64,
    moves: &'static [Move],
}

// A deletion of b, and Q put after it where it is hidden.
const AMONG_HIDDEN: &[Run] = &[
    ((1, 0), 0, "a", true, &[], &[]),
    ((1, 0), 1, "b", false, &[(2, 1)], &[]),
    ((3, 1), 0, "Q", true, &[], &[]),
    ((1, 0), 2, "c", true, &[], &[]),
];

// X between the cells of the base, hidden and shown.
const HIDDEN_X: &[Run] = &[
    ((1, 0), 0, "a", true, &[], &[]),
    ((2, 1), 0, "X", false, &[], &[]),
    ((1, 0), 1, "b", true, &[], &[]),
];

// b is deleted by the first edit, what is shown then by the second.
const ALL_DELETED: &[Run] = &[
    ((1, 0), 0, "a", false, &[(3, 1)], &[]),
    ((1, 0), 1, "b", false, &[(2, 1)], &[]),
    ((1, 0), 2, "c", false, &[(3, 1)], &[]),
];

// X in the place of bc, and Y put between b and c by an author who had not seen that.
const TWO_AUTHORS: &[Run] = &[
    ((1, 0), 0, "a", true, &[], &[]),
    ((2, 1), 0, "X", true, &[], &[]),
    ((1, 0), 1, "b", false, &[(2, 1)], &[]),
    ((2, 2), 0, "Y", true, &[], &[]),
    ((1, 0), 2, "c", false, &[(2, 1)], &[]),
    ((1, 0), 3, "d", true, &[], &[]),
];

// b is deleted by two edits that have not seen one another.
const TWICE_DELETED: &[Run] = &[
    ((1, 0), 0, "a", true, &[], &[]),
    ((1, 0), 1, "b", false, &[(2, 2), (2, 1)], &[]),
    ((1, 0), 2, "c", true, &[], &[]),
];

const ROWS: &[Row] = &[
    Row {
        runs: AMONG_HIDDEN,
        counts: &[((2, 1), (4, 1), 1)],
        by: (4, 1),
        edits: &[(2, 1)],
        text: "abQc",
        seen: 1,
        moves: &[Move::Visible(1), Move::Show(1), Move::Visible(2)],
    },
    // Two undos of one count hide what one hides.
    Row {
        runs: HIDDEN_X,
        counts: &[((2, 1), (3, 1), 1), ((2, 1), (3, 2), 1)],
        by: (3, 2),
        edits: &[(2, 1)],
        text: "ab",
        seen: 1,
        moves: &[Move::Visible(1), Move::Hidden(1), Move::Visible(1)],
    },
    Row {
        runs: HIDDEN_X,
        counts: &[
            ((2, 1), (3, 1), 1),
            ((2, 1), (3, 2), 1),
            ((2, 1), (5, 1), 2),
        ],
        by: (5, 1),
        edits: &[(2, 1)],
        text: "aXb",
        seen: 1,
        moves: &[Move::Visible(1), Move::Show(1), Move::Visible(1)],
    },
    Row {
        runs: ALL_DELETED,
        counts: &[((2, 1), (4, 1), 1)],
        by: (4, 1),
        edits: &[(2, 1)],
        text: "b",
        seen: 1,
        moves: &[Move::Hidden(1), Move::Show(1), Move::Hidden(1)],
    },
    Row {
        runs: TWO_AUTHORS,
        counts: &[((2, 1), (4, 1), 1)],
        by: (4, 1),
        edits: &[(2, 1)],
        text: "abYcd",
        seen: 3,
        moves: &[
            Move::Visible(1),
            Move::Hide(1),
            Move::Show(1),
            Move::Visible(1),
            Move::Show(1),
            Move::Visible(1),
        ],
    },
    // The base is undone, and done again.
    Row {
        runs: AMONG_HIDDEN,
        counts: &[((1, 0), (4, 1), 1)],
        by: (4, 1),
        edits: &[(1, 0)],
        text: "Q",
        seen: 3,
        moves: &[
            Move::Hide(1),
            Move::Hidden(1),
            Move::Visible(1),
            Move::Hide(1),
        ],
    },
    Row {
        runs: &[((1, 0), 0, "ab", false, &[], &[])],
        counts: &[((1, 0), (2, 1), 1), ((1, 0), (3, 1), 2)],
        by: (3, 1),
        edits: &[(1, 0)],
        text: "ab",
        seen: 1,
        moves: &[Move::Show(2)],
    },
    // Of two deletions one is undone, then both are.
    Row {
        runs: TWICE_DELETED,
        counts: &[((2, 1), (3, 1), 1)],
        by: (3, 1),
        edits: &[(2, 1)],
        text: "ac",
        seen: 1,
        moves: &[Move::Visible(1), Move::Hidden(1), Move::Visible(1)],
    },
    Row {
        runs: TWICE_DELETED,
        counts: &[((2, 1), (3, 1), 1), ((2, 2), (3, 1), 1)],
        by: (3, 1),
        edits: &[(2, 1), (2, 2), (2, 1)],
        text: "abc",
        seen: 1,
        moves: &[Move::Visible(1), Move::Show(1), Move::Visible(1)],
    },
    // An undo that counts nothing.
    Row {
        runs: AMONG_HIDDEN,
        counts: &[],
        by: (4, 1),
        edits: &[],
        text: "aQc",
        seen: 0,
        moves: &[Move::Visible(3), Move::Hidden(1)],
    },
];

// Whether the fragment of an index is shown.
fn is_shown(tree: &SumTree<Fragment>, i: u64) -> bool {
    match tree.get(i) {
        None => false,
        Some(fragment) => fragment.visible,
    }
}

// The text that is shown.
fn shown_text(rt: &impl Abort, alloc: Global, tree: &SumTree<Fragment>, runs: &[Run]) -> String {
    let mut text = String::new(alloc);
    for (i, run) in runs.iter().enumerate() {
        if is_shown(tree, i as u64) {
            text.push_str(run.2).expect(rt, "memory");
        }
    }
    text
}

// How many fragments have seen an undo.
fn count_sights(tree: &SumTree<Fragment>, by: Stamp) -> u64 {
    let mut seen = 0u64;
    for i in 0..tree.len() {
        if let Some(fragment) = tree.get(i) {
            if fragment.max_undos.sees(stamp(by)) {
                seen = seen.saturating_add(1);
            }
        }
    }
    seen
}

fn is_as_wanted(rt: &impl Abort, alloc: Global, placed: &Placed, row: &Row) -> bool {
    let seen = count_sights(&placed.fragments, row.by) == row.seen;
    let moves = placed.moves.as_slice() == row.moves;
    let text = shown_text(rt, alloc, &placed.fragments, row.runs);
    text.as_str() == row.text && seen && moves
}

fn place(rt: &impl Abort, alloc: Global, row: &Row, undos: &UndoMap) -> Placed {
    let tree = tree_of(rt, alloc, row.runs, 1);
    let edits = stamps(alloc, row.edits).expect(rt, "memory");
    let index = InsertionIndex::new(alloc).expect(rt, "memory");
    mark_undo(alloc, &tree, &index, undos, stamp(row.by), &edits).expect(rt, "memory")
}

fn place_by_index(rt: &impl Abort, alloc: Global, row: &Row, undos: &UndoMap) -> Placed {
    let tree = tree_of(rt, alloc, row.runs, 1);
    let edits = stamps(alloc, row.edits).expect(rt, "memory");
    let index = index_of(rt, alloc, &tree);
    mark_undo_by_index(alloc, &tree, &index, undos, stamp(row.by), &edits).expect(rt, "memory")
}

// Whether the undo of a row leaves what is wanted, among its fragments and with its counts.
fn undoes(rt: &impl Abort, alloc: Global, row: &Row) -> bool {
    let undos = map_of(rt, alloc, row.counts);
    let placed = place(rt, alloc, row, &undos);
    is_as_wanted(rt, alloc, &placed, row)
}

// The same of the undo that finds the fragments by an index of them.
fn undoes_by_index(rt: &impl Abort, alloc: Global, row: &Row) -> bool {
    let undos = map_of(rt, alloc, row.counts);
    let placed = place_by_index(rt, alloc, row, &undos);
    is_as_wanted(rt, alloc, &placed, row)
}

#[test]
fn undos_show_and_hide_by_the_counts(rt: HostRuntime) {
    for (i, row) in ROWS.iter().enumerate() {
        assert!(rt;
            undoes(&rt, rt.alloc(), row) && undoes_by_index(&rt, rt.alloc(), row),
            "row {i}, where {} is shown",
            row.text
        );
    }
}
