//! Operations with a fault each, and the answers of two buffers.
use crate::cases::AMPLE;
use crate::operations::{Parts, Stamp};
use crate::steps::Step;
use OpFault::{
    BadStamp, Conflict, Forked, Full, InsideChar, NoBase, NoSuchEdit, OpenVersion, Overlap,
    PastEnd, Reversed, TextLimit,
};
use Parts::{Counts, Letters, Pieces};
use Step::Take;
use Took::{Applied, Waits};
use lamport_clock::Lamport;
use text_buffer::{Limits, OpFault, Took, Unit};

/// An operation: its stamp, what it has seen, and its parts.
pub(crate) type Given = (Stamp, &'static [Stamp], Parts);

pub(crate) type Answer = Result<Took, OpFault>;

/// An operation, and its answer.
pub(crate) type Asked = (Given, Answer);

/// An operation, and its answers at the first and at the second buffer.
pub(crate) type Row = (Limits, Given, Answer, Answer);

const BASE: &[Stamp] = &[(1, 0)];

const BY_ONE: &[Stamp] = &[(1, 0), (2, 1)];

const BY_TWO: &[Stamp] = &[(1, 0), (2, 2)];

const NONE: Parts = Pieces(&[]);

const NO_COUNTS: Parts = Counts(&[]);

/// The text of both buffers: of its four bytes the second and the third are one character.
pub(crate) const TEXT: &str = "aéz";

/// What the first buffer has taken. An edit is applied that hides é behind ñ, so that all bytes are those of `añéz`, then an undo
/// and an operation that has seen it, and one waits.
pub(crate) const FIRST: &[Step] = &[
    Take((2, 1), BASE, Pieces(&[(1, 3, "ñ")]), Ok(Applied(1))),
    Take((3, 1), BY_ONE, Counts(&[((2, 1), 2)]), Ok(Applied(1))),
    Take((4, 5), &[(1, 0), (3, 1)], NONE, Ok(Applied(1))),
    Take(
        (9, 3),
        &[(1, 0), (4, 2)],
        NONE,
        Ok(Waits {
            replica: 2,
            value: 4,
        }),
    ),
];

/// What the second one has taken, of which again the last waits.
pub(crate) const SECOND: &[Step] = &[
    Take((2, 2), BASE, Pieces(&[(0, 0, "b")]), Ok(Applied(1))),
    Take((5, 6), BY_TWO, NONE, Ok(Applied(1))),
    Take(
        (8, 3),
        &[(1, 0), (4, 1)],
        NONE,
        Ok(Waits {
            replica: 1,
            value: 4,
        }),
    ),
];

const EDIT: Lamport = Lamport {
    value: 2,
    replica: 1,
};

const UNDO: Lamport = Lamport {
    value: 3,
    replica: 1,
};

const WAITS: Lamport = Lamport {
    value: 9,
    replica: 3,
};

const OTHER: Lamport = Lamport {
    value: 2,
    replica: 2,
};

const OTHER_WAITS: Lamport = Lamport {
    value: 8,
    replica: 3,
};

const BY_SIX: Lamport = Lamport {
    value: 5,
    replica: 6,
};

const NOWHERE: Lamport = Lamport {
    value: 7,
    replica: 1,
};

const MISSES_ONE: Answer = Ok(Waits {
    replica: 1,
    value: 2,
});

const MISSES_UNDO: Answer = Ok(Waits {
    replica: 1,
    value: 3,
});

const MISSES_TWO: Answer = Ok(Waits {
    replica: 2,
    value: 2,
});

/// What only one of the buffers can judge, the other one lacks a cause of.
pub(crate) const ROWS: &[Row] = &[
    // Values 0 and 4,294,967,295; authors 0 and 1024; an entry for 1024, and one that equals the value.
    (AMPLE, ((0, 4), &[], NONE), Err(BadStamp), Err(BadStamp)),
    (
        AMPLE,
        ((4_294_967_295, 4), BASE, NO_COUNTS),
        Err(BadStamp),
        Err(BadStamp),
    ),
    (
        AMPLE,
        ((9, 0), BASE, NO_COUNTS),
        Err(BadStamp),
        Err(BadStamp),
    ),
    (AMPLE, ((9, 1024), BASE, NONE), Err(BadStamp), Err(BadStamp)),
    (
        AMPLE,
        ((9, 4), &[(1, 0), (1, 1024)], NONE),
        Err(BadStamp),
        Err(BadStamp),
    ),
    (
        AMPLE,
        ((9, 4), &[(1, 0), (9, 1)], NO_COUNTS),
        Err(BadStamp),
        Err(BadStamp),
    ),
    // The base is not seen, or something else as the base.
    (AMPLE, ((9, 4), &[], NONE), Err(NoBase), Err(NoBase)),
    (
        AMPLE,
        ((9, 4), &[(2, 0)], NO_COUNTS),
        Err(NoBase),
        Err(NoBase),
    ),
    (
        AMPLE,
        ((9, 4), BASE, Letters(1, 65_537)),
        Err(TextLimit(65_537)),
        Err(TextLimit(65_537)),
    ),
    (
        AMPLE,
        ((9, 4), BASE, Letters(2, 32_769)),
        Err(TextLimit(65_538)),
        Err(TextLimit(65_538)),
    ),
    (
        AMPLE,
        ((9, 4), BASE, Pieces(&[(0, 1, ""), (3, 2, "")])),
        Err(Reversed(1)),
        Err(Reversed(1)),
    ),
    (
        AMPLE,
        ((9, 4), BASE, Pieces(&[(2, 1, ""), (0, 1, "")])),
        Err(Reversed(0)),
        Err(Reversed(0)),
    ),
    (
        AMPLE,
        ((9, 4), BASE, Pieces(&[(0, 3, ""), (1, 3, "x")])),
        Err(Overlap(1)),
        Err(Overlap(1)),
    ),
    // Other operations of these stamps are applied, or wait.
    (
        AMPLE,
        ((2, 1), BASE, Pieces(&[(0, 0, "W")])),
        Err(Conflict(EDIT)),
        Ok(Applied(1)),
    ),
    (
        AMPLE,
        ((3, 1), BY_ONE, Counts(&[((2, 1), 3)])),
        Err(Conflict(UNDO)),
        MISSES_ONE,
    ),
    (
        AMPLE,
        ((9, 3), BASE, NONE),
        Err(Conflict(WAITS)),
        Ok(Applied(1)),
    ),
    (
        AMPLE,
        ((2, 2), BASE, NO_COUNTS),
        Ok(Applied(1)),
        Err(Conflict(OTHER)),
    ),
    (
        AMPLE,
        ((5, 6), BY_TWO, NO_COUNTS),
        MISSES_TWO,
        Err(Conflict(BY_SIX)),
    ),
    (
        AMPLE,
        ((8, 3), BASE, NO_COUNTS),
        Ok(Applied(1)),
        Err(Conflict(OTHER_WAITS)),
    ),
    // The author's last operation is not seen.
    (AMPLE, ((4, 1), BASE, NONE), Err(Forked(3)), Ok(Applied(2))),
    (
        AMPLE,
        ((4, 1), BY_ONE, NO_COUNTS),
        Err(Forked(3)),
        MISSES_ONE,
    ),
    (AMPLE, ((6, 5), BASE, NONE), Err(Forked(4)), Ok(Applied(1))),
    (AMPLE, ((4, 2), BASE, NONE), Ok(Applied(2)), Err(Forked(2))),
    (
        AMPLE,
        ((6, 6), BASE, NO_COUNTS),
        Ok(Applied(1)),
        Err(Forked(5)),
    ),
    // An entry is no operation, or one that has seen more.
    (
        AMPLE,
        ((9, 4), &[(1, 0), (1, 1)], NONE),
        Err(OpenVersion(1)),
        Ok(Waits {
            replica: 1,
            value: 1,
        }),
    ),
    (
        AMPLE,
        ((9, 4), &[(1, 0), (1, 2)], Counts(&[((7, 1), 1)])),
        Ok(Waits {
            replica: 2,
            value: 1,
        }),
        Err(OpenVersion(2)),
    ),
    (
        AMPLE,
        ((9, 4), &[(1, 0), (4, 5)], NONE),
        Err(OpenVersion(5)),
        Ok(Waits {
            replica: 5,
            value: 4,
        }),
    ),
    (
        AMPLE,
        ((9, 4), &[(1, 0), (5, 6)], NO_COUNTS),
        Ok(Waits {
            replica: 6,
            value: 5,
        }),
        Err(OpenVersion(6)),
    ),
    // Past the end of what each version sees, hidden bytes among it.
    (
        AMPLE,
        ((9, 4), BASE, Pieces(&[(0, 1, ""), (3, 5, "q")])),
        Err(PastEnd(1, 4)),
        Err(PastEnd(1, 4)),
    ),
    (
        AMPLE,
        ((9, 4), BASE, Pieces(&[(5, 5, "q")])),
        Err(PastEnd(0, 4)),
        Err(PastEnd(0, 4)),
    ),
    (
        AMPLE,
        ((9, 4), BY_ONE, Pieces(&[(6, 7, "")])),
        Err(PastEnd(0, 6)),
        MISSES_ONE,
    ),
    (
        AMPLE,
        ((9, 4), BY_ONE, Pieces(&[(7, 7, "q")])),
        Err(PastEnd(0, 6)),
        MISSES_ONE,
    ),
    (
        AMPLE,
        ((9, 4), BY_TWO, Pieces(&[(5, 6, "")])),
        MISSES_TWO,
        Err(PastEnd(0, 5)),
    ),
    // Inside é, which the first buffer hides, at the start of a range and at its end; then inside ñ.
    (
        AMPLE,
        ((9, 4), BASE, Pieces(&[(2, 3, "")])),
        Err(InsideChar(0)),
        Err(InsideChar(0)),
    ),
    (
        AMPLE,
        ((9, 4), BASE, Pieces(&[(0, 1, ""), (1, 2, "q")])),
        Err(InsideChar(1)),
        Err(InsideChar(1)),
    ),
    (
        AMPLE,
        ((9, 4), BY_ONE, Pieces(&[(4, 5, "")])),
        Err(InsideChar(0)),
        MISSES_ONE,
    ),
    (
        AMPLE,
        ((9, 4), BY_ONE, Pieces(&[(3, 4, "")])),
        Err(InsideChar(0)),
        MISSES_ONE,
    ),
    (
        AMPLE,
        ((9, 4), BY_ONE, Pieces(&[(1, 1, ""), (2, 2, "q")])),
        Err(InsideChar(1)),
        MISSES_ONE,
    ),
    (
        AMPLE,
        ((9, 4), BY_TWO, Pieces(&[(3, 3, "q")])),
        MISSES_TWO,
        Err(InsideChar(0)),
    ),
    // No edit, one that the version has not seen, and an undo.
    (
        AMPLE,
        ((9, 4), BASE, Counts(&[((1, 0), 1), ((7, 1), 1)])),
        Err(NoSuchEdit(NOWHERE)),
        Err(NoSuchEdit(NOWHERE)),
    ),
    (
        AMPLE,
        ((9, 4), BASE, Counts(&[((2, 1), 1)])),
        Err(NoSuchEdit(EDIT)),
        Err(NoSuchEdit(EDIT)),
    ),
    (
        AMPLE,
        ((9, 4), BASE, Counts(&[((2, 2), 1)])),
        Err(NoSuchEdit(OTHER)),
        Err(NoSuchEdit(OTHER)),
    ),
    (
        AMPLE,
        ((9, 4), &[(1, 0), (3, 1)], Counts(&[((3, 1), 1)])),
        Err(NoSuchEdit(UNDO)),
        MISSES_UNDO,
    ),
    // The first buffer holds 6 bytes and 5 entries, the second one 5 and 3. Bytes come first.
    (
        Limits {
            bytes: 8,
            entries: 6,
        },
        ((9, 4), BASE, Pieces(&[(0, 0, "xyz")])),
        Err(Full {
            unit: Unit::Bytes,
            held: 6,
            adds: 3,
        }),
        Ok(Applied(1)),
    ),
    (
        Limits {
            bytes: 7,
            entries: 6,
        },
        ((9, 4), BASE, Pieces(&[(0, 0, "x")])),
        Err(Full {
            unit: Unit::Entries,
            held: 5,
            adds: 2,
        }),
        Ok(Applied(1)),
    ),
    (
        Limits {
            bytes: 7,
            entries: 6,
        },
        (
            (9, 4),
            BASE,
            Counts(&[((1, 0), 2), ((1, 0), 2), ((1, 0), 2)]),
        ),
        Err(Full {
            unit: Unit::Entries,
            held: 5,
            adds: 4,
        }),
        Err(Full {
            unit: Unit::Entries,
            held: 3,
            adds: 4,
        }),
    ),
    (
        Limits {
            bytes: 7,
            entries: 6,
        },
        (
            (9, 4),
            BASE,
            Pieces(&[(0, 0, "xyz"), (0, 0, ""), (0, 0, ""), (0, 0, "")]),
        ),
        Err(Full {
            unit: Unit::Bytes,
            held: 6,
            adds: 3,
        }),
        Err(Full {
            unit: Unit::Bytes,
            held: 5,
            adds: 3,
        }),
    ),
];
