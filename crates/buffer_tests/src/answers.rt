//! A row for each answer to an operation, where a base, an edit without pieces and its undo are applied, and an edit waits.
use crate::cases::{AMPLE, Case, assert_cases};
use crate::operations::{Parts, Stamp};
use crate::steps::Row;
use crate::steps::Step::{Keep, Take};
use Parts::{Counts, Letters, Pieces};
use Took::{Applied, Repeat, Waits};
use lamport_clock::Lamport;
use op_model::OpFault::{
    BadStamp, Conflict, Forked, InsideChar, NoBase, NoSuchEdit, OpenVersion, Overlap, PastEnd,
    Reversed, TextLimit,
};
use text_buffer::Took;

const EDIT: Lamport = Lamport {
    value: 2,
    replica: 1,
};

const UNDO: Lamport = Lamport {
    value: 3,
    replica: 1,
};

const WAITS: Lamport = Lamport {
    value: 9,
    replica: 3,
};

const NOWHERE: Lamport = Lamport {
    value: 7,
    replica: 1,
};

const BASE: &[Stamp] = &[(1, 0)];

const EDITED: &[Stamp] = &[(1, 0), (2, 1)];

const NONE: Parts = Pieces(&[]);

// An `a` and a character of two bytes.
const TEXT: &str = "aé";

const EDIT_IS_APPLIED: Row = (Take((2, 1), BASE, NONE, Ok(Applied(1))), TEXT);

const UNDO_IS_APPLIED: Row = (
    Take((3, 1), EDITED, Counts(&[((2, 1), 1)]), Ok(Applied(1))),
    TEXT,
);

const EDIT_WAITS: Row = (
    Take(
        (9, 3),
        &[(1, 0), (4, 2)],
        NONE,
        Ok(Waits {
            replica: 2,
            value: 4,
        }),
    ),
    TEXT,
);

// Answers that change nothing.
const REPEATS_AND_REFUSALS: Case = Case {
    name: "repeats and refusals",
    base: TEXT,
    limits: AMPLE,
    rows: &[
        EDIT_IS_APPLIED,
        UNDO_IS_APPLIED,
        EDIT_WAITS,
        (Take((4_294_967_295, 4), BASE, NONE, Err(BadStamp)), TEXT),
        (Take((1, 0), &[], NONE, Err(BadStamp)), TEXT),
        (Take((9, 4), &[(2, 1)], Counts(&[]), Err(NoBase)), TEXT),
        (
            Take((9, 4), BASE, Letters(1, 65_537), Err(TextLimit(65_537))),
            TEXT,
        ),
        (
            Take((9, 4), BASE, Pieces(&[(2, 1, "")]), Err(Reversed(0))),
            TEXT,
        ),
        (
            Take(
                (9, 4),
                BASE,
                Pieces(&[(0, 1, ""), (0, 1, "x")]),
                Err(Overlap(1)),
            ),
            TEXT,
        ),
        // Equal ones are applied or wait.
        (Take((2, 1), BASE, NONE, Ok(Repeat)), TEXT),
        (
            Take((3, 1), EDITED, Counts(&[((2, 1), 1)]), Ok(Repeat)),
            TEXT,
        ),
        (Take((9, 3), &[(1, 0), (4, 2)], NONE, Ok(Repeat)), TEXT),
        // Others of their stamps.
        (
            Take((2, 1), BASE, Pieces(&[(0, 0, "W")]), Err(Conflict(EDIT))),
            TEXT,
        ),
        (
            Take((3, 1), EDITED, Counts(&[((2, 1), 2)]), Err(Conflict(UNDO))),
            TEXT,
        ),
        (Take((9, 3), BASE, NONE, Err(Conflict(WAITS))), TEXT),
        // The author's last operation is not seen.
        (Take((4, 1), BASE, NONE, Err(Forked(3))), TEXT),
        (Take((4, 1), EDITED, Counts(&[]), Err(Forked(3))), TEXT),
        // An entry is no operation.
        (
            Take((9, 4), &[(1, 0), (1, 1)], NONE, Err(OpenVersion(1))),
            TEXT,
        ),
        (
            Take(
                (9, 4),
                &[(1, 0), (1, 1)],
                Counts(&[((7, 1), 1)]),
                Err(OpenVersion(1)),
            ),
            TEXT,
        ),
        (
            Take(
                (9, 4),
                BASE,
                Pieces(&[(0, 2, ""), (3, 4, "q")]),
                Err(PastEnd(1, 3)),
            ),
            TEXT,
        ),
        (
            Take(
                (9, 4),
                BASE,
                Pieces(&[(0, 1, ""), (1, 2, "q")]),
                Err(InsideChar(1)),
            ),
            TEXT,
        ),
        // The edit is not seen, there is no such edit, or it is an undo.
        (
            Take(
                (9, 4),
                BASE,
                Counts(&[((1, 0), 1), ((2, 1), 2)]),
                Err(NoSuchEdit(EDIT)),
            ),
            TEXT,
        ),
        (
            Take(
                (9, 4),
                EDITED,
                Counts(&[((7, 1), 1), ((9, 3), 1)]),
                Err(NoSuchEdit(NOWHERE)),
            ),
            TEXT,
        ),
        (
            Take(
                (9, 4),
                &[(1, 0), (3, 1)],
                Counts(&[((3, 1), 1)]),
                Err(NoSuchEdit(UNDO)),
            ),
            TEXT,
        ),
        (Keep(1, &[]), TEXT),
    ],
};

const AN_EDIT_WAITS: Case = Case {
    name: "an edit waits for the first of two causes",
    base: TEXT,
    limits: AMPLE,
    rows: &[
        EDIT_IS_APPLIED,
        UNDO_IS_APPLIED,
        EDIT_WAITS,
        (
            Take(
                (9, 4),
                &[(1, 0), (4, 1), (5, 2)],
                NONE,
                Ok(Waits {
                    replica: 1,
                    value: 4,
                }),
            ),
            TEXT,
        ),
        (Keep(2, &[]), TEXT),
    ],
};

const AN_UNDO_WAITS: Case = Case {
    name: "an undo of no edit waits for a cause",
    base: TEXT,
    limits: AMPLE,
    rows: &[
        EDIT_IS_APPLIED,
        UNDO_IS_APPLIED,
        EDIT_WAITS,
        (
            Take(
                (9, 4),
                &[(1, 0), (3, 1), (5, 2)],
                Counts(&[((7, 1), 1)]),
                Ok(Waits {
                    replica: 2,
                    value: 5,
                }),
            ),
            TEXT,
        ),
        (Keep(2, &[]), TEXT),
    ],
};

const AN_EDIT_IS_GOOD: Case = Case {
    name: "an edit of two pieces is good",
    base: TEXT,
    limits: AMPLE,
    rows: &[
        EDIT_IS_APPLIED,
        UNDO_IS_APPLIED,
        EDIT_WAITS,
        (
            Take(
                (9, 4),
                BASE,
                Pieces(&[(0, 0, "p"), (1, 3, "q")]),
                Ok(Applied(1)),
            ),
            "paq",
        ),
    ],
};

const AN_UNDO_IS_GOOD: Case = Case {
    name: "an undo that counts an edit twice is good",
    base: TEXT,
    limits: AMPLE,
    rows: &[
        EDIT_IS_APPLIED,
        UNDO_IS_APPLIED,
        EDIT_WAITS,
        (
            Take(
                (9, 4),
                EDITED,
                Counts(&[((2, 1), 2), ((1, 0), 7), ((2, 1), 2)]),
                Ok(Applied(1)),
            ),
            "",
        ),
    ],
};

const AN_EMPTY_UNDO_IS_GOOD: Case = Case {
    name: "an undo without counts is good",
    base: TEXT,
    limits: AMPLE,
    rows: &[
        EDIT_IS_APPLIED,
        UNDO_IS_APPLIED,
        EDIT_WAITS,
        (Take((9, 4), BASE, Counts(&[]), Ok(Applied(1))), TEXT),
    ],
};

const CASES: &[Case] = &[
    REPEATS_AND_REFUSALS,
    AN_EDIT_WAITS,
    AN_UNDO_WAITS,
    AN_EDIT_IS_GOOD,
    AN_UNDO_IS_GOOD,
    AN_EMPTY_UNDO_IS_GOOD,
];

#[test]
fn operations_are_answered(rt: HostRuntime) {
    assert_cases(&rt, rt.alloc(), CASES);
}
