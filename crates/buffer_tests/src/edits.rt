//! Edits since a version, among fragments.
use crate::operations::{Stamp, version};
use crate::rows::assert_rows;
use crate::runs::{Run, tree_of};
use crate::undo_counts::{Count, map_of};
use edits_since::since;
use op_model::TextEdit;
use std::alloc::Global;
use std::process::Abort;

// Fragments and what is counted (edit, undo, count); what the version has seen; the edits since.
struct Row {
    runs: &'static [Run],
    counts: &'static [Count],
    version: &'static [Stamp],
    edits: &'static [TextEdit],
}

// X is put between a and b, and b is deleted.
const PUT_AND_DELETED: &[Run] = &[
    ((1, 0), 0, "a", true, &[], &[]),
    ((2, 1), 0, "X", true, &[], &[]),
    ((1, 0), 1, "b", false, &[(3, 1)], &[]),
];

// Two bytes of 2.1 that are deleted again stand after a new one, and before one that is gone.
const NEVER_BETWEEN: &[Run] = &[
    ((1, 0), 0, "ab", true, &[], &[]),
    ((4, 1), 0, "P", true, &[], &[]),
    ((2, 1), 0, "QR", false, &[(3, 1)], &[]),
    ((1, 0), 2, "cde", false, &[(5, 1)], &[]),
    ((1, 0), 5, "f", true, &[], &[]),
    ((6, 2), 0, "STUV", true, &[], &[]),
];

// The base is undone and done again, and its last byte is deleted.
const UNDONE: &[Run] = &[
    ((1, 0), 0, "ab", true, &[], &[(2, 1), (3, 1)]),
    ((1, 0), 2, "c", false, &[(4, 1)], &[(2, 1), (3, 1)]),
];

const BASE_COUNTS: &[Count] = &[((1, 0), (2, 1), 1), ((1, 0), (3, 1), 2)];

// A deletion is undone.
const SHOWN_AGAIN: &[Run] = &[
    ((1, 0), 0, "abc", true, &[], &[]),
    ((1, 0), 3, "de", true, &[(2, 1)], &[(3, 2)]),
    ((1, 0), 5, "f", true, &[], &[]),
];

const DELETION_COUNTS: &[Count] = &[((2, 1), (3, 2), 1)];

const ROWS: &[Row] = &[
    Row {
        runs: PUT_AND_DELETED,
        counts: &[],
        version: &[(1, 0)],
        edits: &[TextEdit {
            old: (1, 2),
            new: (1, 2),
        }],
    },
    Row {
        runs: PUT_AND_DELETED,
        counts: &[],
        version: &[(1, 0), (2, 1)],
        edits: &[TextEdit {
            old: (2, 3),
            new: (2, 2),
        }],
    },
    Row {
        runs: PUT_AND_DELETED,
        counts: &[],
        version: &[(1, 0), (3, 1)],
        edits: &[],
    },
    // Bytes that were never shown join nothing and part nothing.
    Row {
        runs: NEVER_BETWEEN,
        counts: &[],
        version: &[(1, 0)],
        edits: &[
            TextEdit {
                old: (2, 5),
                new: (2, 3),
            },
            TextEdit {
                old: (6, 6),
                new: (4, 8),
            },
        ],
    },
    // They were shown once.
    Row {
        runs: NEVER_BETWEEN,
        counts: &[],
        version: &[(1, 0), (2, 1)],
        edits: &[
            TextEdit {
                old: (2, 7),
                new: (2, 3),
            },
            TextEdit {
                old: (8, 8),
                new: (4, 8),
            },
        ],
    },
    Row {
        runs: NEVER_BETWEEN,
        counts: &[],
        version: &[(1, 0), (5, 1)],
        edits: &[TextEdit {
            old: (4, 4),
            new: (4, 8),
        }],
    },
    // Across an undo and its redo, between the two, and after both.
    Row {
        runs: UNDONE,
        counts: BASE_COUNTS,
        version: &[(1, 0)],
        edits: &[TextEdit {
            old: (2, 3),
            new: (2, 2),
        }],
    },
    Row {
        runs: UNDONE,
        counts: BASE_COUNTS,
        version: &[(1, 0), (2, 1)],
        edits: &[TextEdit {
            old: (0, 0),
            new: (0, 2),
        }],
    },
    Row {
        runs: UNDONE,
        counts: BASE_COUNTS,
        version: &[(1, 0), (3, 1)],
        edits: &[TextEdit {
            old: (2, 3),
            new: (2, 2),
        }],
    },
    Row {
        runs: SHOWN_AGAIN,
        counts: DELETION_COUNTS,
        version: &[(1, 0), (2, 1)],
        edits: &[TextEdit {
            old: (3, 3),
            new: (3, 5),
        }],
    },
    Row {
        runs: SHOWN_AGAIN,
        counts: DELETION_COUNTS,
        version: &[(1, 0)],
        edits: &[],
    },
    Row {
        runs: &[],
        counts: &[],
        version: &[],
        edits: &[],
    },
];

fn finds(rt: &impl Abort, alloc: Global, row: &Row) -> bool {
    let tree = tree_of(rt, alloc, row.runs, 1);
    let undos = map_of(rt, alloc, row.counts);
    let version = version(alloc, row.version).expect(rt, "memory");
    since(alloc, &tree, &undos, &version)
        .expect(rt, "memory")
        .as_slice()
        == row.edits
}

#[test]
fn edits_since_versions_are_found(rt: HostRuntime) {
    assert_rows(&rt, rt.alloc(), ROWS, finds);
}
