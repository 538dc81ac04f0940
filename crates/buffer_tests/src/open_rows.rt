//! Lists of operations that open no buffer, each with its first fault, and the words of such faults.
use crate::cases::AMPLE;
use crate::fault_rows::Given;
use crate::operations::{Parts, Stamp};
use Endings::{AsIs, Lf};
use OpFault::{
    BadStamp, CarriageReturn, Conflict, Forked, Full, InsideChar, NoBase, NoSuchEdit, OpenVersion,
    Overlap, PastEnd, Reversed, TextLimit,
};
use OpenFault::{Early, NotBase, Op, Repeat};
use Parts::{Counts, Letters, Pieces};
use lamport_clock::Lamport;
use text_buffer::{Endings, Limits, OpFault, OpenFault, Unit};

/// A list that is opened under limits and a rule on line endings, and its fault.
pub(crate) type Row = (Limits, Endings, &'static [Given], OpenFault);

const BASE: &[Stamp] = &[(1, 0)];

const BY_ONE: &[Stamp] = &[(1, 0), (2, 1)];

const NONE: Parts = Pieces(&[]);

/// A base of two characters, of which the second has two bytes.
pub(crate) const TEXT: Given = ((1, 0), &[], Pieces(&[(0, 0, "aé")]));

/// An edit of replica 1, and the undo of it.
pub(crate) const EDIT: Given = ((2, 1), BASE, Pieces(&[(1, 1, "X")]));

pub(crate) const UNDO: Given = ((3, 1), BY_ONE, Counts(&[((2, 1), 1)]));

const STAMP: Lamport = Lamport {
    value: 2,
    replica: 1,
};

const NOWHERE: Lamport = Lamport {
    value: 7,
    replica: 1,
};

// What stands after a first fault, with a fault of its own.
const REVERSED: Given = ((8, 5), BASE, Pieces(&[(2, 1, "")]));

const EARLY: Given = ((9, 6), &[(1, 0), (8, 7)], NONE);

const FEW: Limits = Limits {
    bytes: 4,
    entries: 3,
};

const LONG: Limits = Limits {
    bytes: 2,
    entries: 3,
};

/// Each list has further faults after its first one.
pub(crate) const ROWS: &[Row] = &[
    // No base: no operation, an undo, another stamp, a version, no piece, two pieces, a range that is not empty or begins later.
    (AMPLE, AsIs, &[], NotBase),
    (
        AMPLE,
        AsIs,
        &[((1, 0), &[], Counts(&[])), REVERSED],
        NotBase,
    ),
    (
        AMPLE,
        AsIs,
        &[((1, 1), &[], Pieces(&[(0, 0, "ab")])), REVERSED],
        NotBase,
    ),
    (
        AMPLE,
        AsIs,
        &[((2, 0), &[], Pieces(&[(0, 0, "ab")])), REVERSED],
        NotBase,
    ),
    (
        AMPLE,
        AsIs,
        &[((1, 0), &[(1, 5)], Pieces(&[(0, 0, "ab")])), REVERSED],
        NotBase,
    ),
    (AMPLE, AsIs, &[((1, 0), &[], NONE), REVERSED], NotBase),
    (
        AMPLE,
        AsIs,
        &[((1, 0), &[], Pieces(&[(0, 0, "ab"), (0, 0, "")])), REVERSED],
        NotBase,
    ),
    (
        AMPLE,
        AsIs,
        &[((1, 0), &[], Pieces(&[(0, 1, "ab")])), REVERSED],
        NotBase,
    ),
    (
        AMPLE,
        AsIs,
        &[((1, 0), &[], Pieces(&[(1, 1, "ab")])), REVERSED],
        NotBase,
    ),
    (LONG, Lf, &[EDIT, TEXT], NotBase),
    // The base breaks the rule, then passes the limit of bytes.
    (
        LONG,
        Lf,
        &[((1, 0), &[], Pieces(&[(0, 0, "a\r\nb")])), REVERSED],
        Op(0, CarriageReturn(0)),
    ),
    (
        LONG,
        AsIs,
        &[TEXT, REVERSED],
        Op(
            0,
            Full {
                unit: Unit::Bytes,
                held: 0,
                adds: 3,
            },
        ),
    ),
    // A second base.
    (AMPLE, AsIs, &[TEXT, TEXT, REVERSED], Op(1, BadStamp)),
    (AMPLE, AsIs, &[TEXT, EDIT, TEXT, REVERSED], Op(2, BadStamp)),
    // Each fault of an operation that is taken.
    (
        AMPLE,
        AsIs,
        &[TEXT, EDIT, ((9, 1024), BASE, NONE), REVERSED],
        Op(2, BadStamp),
    ),
    (
        AMPLE,
        AsIs,
        &[TEXT, EDIT, ((9, 4), &[], NONE), REVERSED],
        Op(2, NoBase),
    ),
    (
        AMPLE,
        AsIs,
        &[TEXT, ((9, 4), BASE, Letters(1, 65_537)), REVERSED],
        Op(1, TextLimit(65_537)),
    ),
    (
        AMPLE,
        AsIs,
        &[TEXT, EDIT, REVERSED, EARLY],
        Op(2, Reversed(0)),
    ),
    (
        AMPLE,
        AsIs,
        &[
            TEXT,
            ((9, 4), BASE, Pieces(&[(0, 3, ""), (1, 3, "x")])),
            REVERSED,
        ],
        Op(1, Overlap(1)),
    ),
    (
        AMPLE,
        Lf,
        &[
            TEXT,
            EDIT,
            ((9, 4), BASE, Pieces(&[(0, 0, "a"), (1, 1, "\r")])),
            REVERSED,
        ],
        Op(2, CarriageReturn(1)),
    ),
    (
        AMPLE,
        AsIs,
        &[TEXT, EDIT, UNDO, ((2, 1), BASE, NONE), REVERSED],
        Op(3, Conflict(STAMP)),
    ),
    (
        AMPLE,
        AsIs,
        &[TEXT, EDIT, ((4, 1), BASE, NONE), REVERSED],
        Op(2, Forked(2)),
    ),
    (
        AMPLE,
        AsIs,
        &[TEXT, EDIT, ((4, 4), &[(1, 0), (1, 1)], NONE), REVERSED],
        Op(2, OpenVersion(1)),
    ),
    (
        AMPLE,
        AsIs,
        &[TEXT, EDIT, ((4, 4), BASE, Pieces(&[(4, 4, "q")])), REVERSED],
        Op(2, PastEnd(0, 3)),
    ),
    (
        AMPLE,
        AsIs,
        &[TEXT, EDIT, ((4, 4), BASE, Pieces(&[(2, 2, "q")])), REVERSED],
        Op(2, InsideChar(0)),
    ),
    (
        AMPLE,
        AsIs,
        &[TEXT, EDIT, ((4, 4), BASE, Counts(&[((7, 1), 1)])), REVERSED],
        Op(2, NoSuchEdit(NOWHERE)),
    ),
    // The same operation twice, and one before what it has seen.
    (AMPLE, AsIs, &[TEXT, EDIT, EDIT, REVERSED], Repeat(2)),
    (AMPLE, AsIs, &[TEXT, EDIT, UNDO, EDIT, EARLY], Repeat(3)),
    (
        AMPLE,
        AsIs,
        &[TEXT, ((3, 2), BY_ONE, NONE), EDIT, REVERSED],
        Early {
            i: 1,
            replica: 1,
            value: 2,
        },
    ),
    (
        AMPLE,
        AsIs,
        &[TEXT, EDIT, EARLY, REVERSED],
        Early {
            i: 2,
            replica: 7,
            value: 8,
        },
    ),
    // Bytes and entries pass the limit at the last.
    (
        FEW,
        AsIs,
        &[TEXT, EDIT, ((3, 1), BY_ONE, Pieces(&[(0, 0, "y")]))],
        Op(
            2,
            Full {
                unit: Unit::Bytes,
                held: 4,
                adds: 1,
            },
        ),
    ),
    (
        FEW,
        AsIs,
        &[TEXT, EDIT, ((3, 1), BY_ONE, Pieces(&[(0, 1, "")]))],
        Op(
            2,
            Full {
                unit: Unit::Entries,
                held: 2,
                adds: 2,
            },
        ),
    ),
];

/// Faults, and their words.
pub(crate) const WORDS: &[(OpenFault, &str)] = &[
    (NotBase, "the first operation is no base"),
    (
        Op(17, PastEnd(0, 2)),
        "operation 17: piece 0 ends past the 2 bytes that its version sees",
    ),
    (
        Op(0, CarriageReturn(0)),
        "operation 0: the text of piece 0 holds a carriage return",
    ),
    (Repeat(2), "operation 2 stands in the list before"),
    (
        Early {
            i: 1,
            replica: 1,
            value: 2,
        },
        "operation 1 has seen 2.1, which is not in the list before it",
    ),
    (OpenFault::OutOfMemory, "out of memory"),
];
