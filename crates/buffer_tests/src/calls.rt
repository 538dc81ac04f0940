//! Calls of buffers, with what they answer and the text after each.
use crate::cases::{AMPLE, Case, assert_cases};
use crate::operations::{Parts, Stamp};
use crate::steps::Question;
use crate::steps::Step::{Ask, Edit, Keep, Last, Settle, Take, Undo};
use Parts::{Counts, Letters, Pieces};
use Took::{Applied, Repeat, Waits};
use lamport_clock::Lamport;
use op_model::OpFault;
use text_buffer::EditFault::InsideChar;
use text_buffer::UndoFault::{ClockEnd, CountEnd, NoSuchEdit, Twice};
use text_buffer::{EditFault, Limits, Refused, Took, UndoFault, Unit};

const BASE: Lamport = Lamport {
    value: 1,
    replica: 0,
};

const EDIT: Lamport = Lamport {
    value: 2,
    replica: 9,
};

const NEXT: Lamport = Lamport {
    value: 3,
    replica: 9,
};

const SIXTH: Lamport = Lamport {
    value: 6,
    replica: 9,
};

const BY_ONE: Lamport = Lamport {
    value: 2,
    replica: 1,
};

const NEXT_BY_ONE: Lamport = Lamport {
    value: 3,
    replica: 1,
};

const THIRD_BY_ONE: Lamport = Lamport {
    value: 4,
    replica: 1,
};

const BY_TWO: Lamport = Lamport {
    value: 2,
    replica: 2,
};

const NEXT_BY_TWO: Lamport = Lamport {
    value: 3,
    replica: 2,
};

const LAST_BY_TWO: Lamport = Lamport {
    value: 5,
    replica: 2,
};

const BY_THREE: Lamport = Lamport {
    value: 2,
    replica: 3,
};

const BY_SEVEN: Lamport = Lamport {
    value: 4,
    replica: 7,
};

const SEES_BASE: &[Stamp] = &[(1, 0)];

const SEES_ONE: &[Stamp] = &[(1, 0), (2, 1)];

const SEES_NEXT_BY_ONE: &[Stamp] = &[(1, 0), (3, 1)];

const SEES_TWO: &[Stamp] = &[(1, 0), (2, 2)];

const SEES_EDIT: &[Stamp] = &[(1, 0), (2, 9)];

const MISSES_ONE: Result<Took, OpFault> = Ok(Waits {
    replica: 1,
    value: 2,
});

const MISSES_NEXT_BY_ONE: Result<Took, OpFault> = Ok(Waits {
    replica: 1,
    value: 3,
});

const MISSES_TWO: Result<Took, OpFault> = Ok(Waits {
    replica: 2,
    value: 2,
});

const MISSES_EDIT: Result<Took, OpFault> = Ok(Waits {
    replica: 9,
    value: 2,
});

const INSIDE_A_CHARACTER: Case = Case {
    name: "inside a character",
    base: "é😀\n",
    limits: AMPLE,
    rows: &[
        (Edit(&[(2, 2, "x"), (3, 6, "")], Err(InsideChar(1))), "é😀\n"),
        (Edit(&[(0, 2, "e"), (6, 7, "")], Ok(2)), "e😀"),
        (
            Take(
                (2, 1),
                SEES_BASE,
                Pieces(&[(1, 1, "x")]),
                Err(OpFault::InsideChar(0)),
            ),
            "e😀",
        ),
        (Settle(0), "e😀"),
        (Keep(0, &[]), "e😀"),
    ],
};

const TWO_AT_ONE_PLACE: Case = Case {
    name: "two at one place",
    base: "ab",
    limits: AMPLE,
    rows: &[
        (
            Take((2, 1), SEES_BASE, Pieces(&[(1, 1, "X")]), Ok(Applied(1))),
            "aXb",
        ),
        (
            Take((2, 2), SEES_BASE, Pieces(&[(1, 1, "Y")]), Ok(Applied(1))),
            "aYXb",
        ),
        (Keep(0, &[]), "aYXb"),
    ],
};

const IN_THE_OTHER_ORDER: Case = Case {
    name: "two at one place, in the other order",
    base: "ab",
    limits: AMPLE,
    rows: &[
        (
            Take((2, 2), SEES_BASE, Pieces(&[(1, 1, "Y")]), Ok(Applied(1))),
            "aYb",
        ),
        (
            Take((2, 1), SEES_BASE, Pieces(&[(1, 1, "X")]), Ok(Applied(1))),
            "aYXb",
        ),
        (Keep(0, &[]), "aYXb"),
    ],
};

const CAUSES_COME_LAST: Case = Case {
    name: "causes come last",
    base: "",
    limits: AMPLE,
    rows: &[
        (
            Take(
                (4, 1),
                SEES_NEXT_BY_ONE,
                Pieces(&[(0, 0, "c")]),
                MISSES_NEXT_BY_ONE,
            ),
            "",
        ),
        (
            Take((3, 1), SEES_ONE, Pieces(&[(0, 0, "b")]), MISSES_ONE),
            "",
        ),
        (
            Take((2, 1), SEES_BASE, Pieces(&[(0, 0, "a")]), Ok(Applied(3))),
            "cba",
        ),
        (Keep(0, &[]), "cba"),
    ],
};

const IN_WRONG_ORDER: Case = Case {
    name: "in wrong order",
    base: "ab",
    limits: AMPLE,
    rows: &[
        (
            Take(
                (3, 2),
                SEES_TWO,
                Pieces(&[(0, 1, ""), (3, 3, "!")]),
                MISSES_TWO,
            ),
            "ab",
        ),
        (
            Take(
                (3, 2),
                SEES_TWO,
                Pieces(&[(0, 1, ""), (3, 3, "!")]),
                Ok(Repeat),
            ),
            "ab",
        ),
        (
            Take(
                (3, 2),
                SEES_TWO,
                Pieces(&[]),
                Err(OpFault::Conflict(NEXT_BY_TWO)),
            ),
            "ab",
        ),
        (
            Take((2, 1), SEES_BASE, Pieces(&[(0, 0, "P")]), Ok(Applied(1))),
            "Pab",
        ),
        (Settle(0), "Pab"),
        (
            Take((2, 2), SEES_BASE, Pieces(&[(1, 1, "R")]), Ok(Applied(2))),
            "PRb!",
        ),
        (
            Take(
                (3, 2),
                SEES_TWO,
                Pieces(&[(0, 1, ""), (3, 3, "!")]),
                Ok(Repeat),
            ),
            "PRb!",
        ),
        (Keep(0, &[]), "PRb!"),
    ],
};

// Two have seen the edit that comes next, of which the second is past the end.
const APPLIED_AND_REFUSED: Case = Case {
    name: "one applied and one refused",
    base: "",
    limits: AMPLE,
    rows: &[
        (
            Take((3, 8), SEES_EDIT, Pieces(&[(0, 0, "b")]), MISSES_EDIT),
            "",
        ),
        (
            Take((4, 7), SEES_EDIT, Pieces(&[(2, 2, "c")]), MISSES_EDIT),
            "",
        ),
        (
            Take(
                (4, 1),
                SEES_NEXT_BY_ONE,
                Pieces(&[(0, 0, "d")]),
                MISSES_NEXT_BY_ONE,
            ),
            "",
        ),
        (Edit(&[(0, 0, "a")], Ok(2)), "a"),
        (Settle(1), "ba"),
        (
            Keep(
                1,
                &[Refused {
                    stamp: BY_SEVEN,
                    fault: OpFault::PastEnd(0, 1),
                }],
            ),
            "ba",
        ),
    ],
};

const REFUSED_AFTER_TAKING: Case = Case {
    name: "refused after taking",
    base: "ab",
    limits: AMPLE,
    rows: &[
        (
            Take((3, 2), SEES_ONE, Pieces(&[(0, 9, "")]), MISSES_ONE),
            "ab",
        ),
        (
            Take((2, 1), SEES_BASE, Pieces(&[(0, 0, "P")]), Ok(Applied(1))),
            "Pab",
        ),
        (Settle(0), "Pab"),
        (
            Keep(
                0,
                &[Refused {
                    stamp: NEXT_BY_TWO,
                    fault: OpFault::PastEnd(0, 3),
                }],
            ),
            "Pab",
        ),
    ],
};

// An operation of the buffer's own replica waits, and an equal edit is made.
const EQUAL_IS_DROPPED: Case = Case {
    name: "an equal one is dropped",
    base: "",
    limits: AMPLE,
    rows: &[
        (
            Take((3, 9), SEES_EDIT, Pieces(&[(0, 0, "b")]), MISSES_EDIT),
            "",
        ),
        (Edit(&[(0, 0, "a")], Ok(2)), "a"),
        (Edit(&[(0, 0, "b")], Ok(3)), "ba"),
        (Settle(0), "ba"),
        (Keep(0, &[]), "ba"),
    ],
};

const UNDO_AND_REDO: Case = Case {
    name: "undo and redo",
    base: "ab",
    limits: AMPLE,
    rows: &[
        (Edit(&[(1, 1, "X")], Ok(2)), "aXb"),
        (Undo(&[EDIT], Ok(3)), "ab"),
        (Undo(&[EDIT], Ok(4)), "aXb"),
        (Undo(&[BASE], Ok(5)), "X"),
        (Edit(&[(0, 1, "Y")], Ok(6)), "Y"),
        (Undo(&[BASE, SIXTH], Ok(7)), "aXb"),
        (Undo(&[], Ok(8)), "aXb"),
        (Keep(0, &[]), "aXb"),
    ],
};

// The edit is applied, and the undo that counts it has not seen it.
const FAULTS_OF_UNDOS: Case = Case {
    name: "faults of undos",
    base: "ab",
    limits: AMPLE,
    rows: &[
        (Edit(&[(0, 1, "")], Ok(2)), "b"),
        (Undo(&[EDIT], Ok(3)), "ab"),
        (Undo(&[NEXT], Err(NoSuchEdit(NEXT))), "ab"),
        (Undo(&[BASE, BASE, BY_ONE], Err(NoSuchEdit(BY_ONE))), "ab"),
        (Undo(&[BASE, EDIT, EDIT, BASE], Err(Twice(EDIT))), "ab"),
        (
            Take(
                (2, 1),
                SEES_BASE,
                Counts(&[((1, 0), 1), ((2, 9), 1)]),
                Err(OpFault::NoSuchEdit(EDIT)),
            ),
            "ab",
        ),
        (
            Take(
                (4_294_967_294, 1),
                SEES_BASE,
                Counts(&[((1, 0), 1)]),
                Ok(Applied(1)),
            ),
            "",
        ),
        (Undo(&[BASE], Err(ClockEnd)), ""),
        (Undo(&[BY_TWO], Err(NoSuchEdit(BY_TWO))), ""),
        (Keep(0, &[]), ""),
    ],
};

// Two edits and an undo of each, with the greatest count for the second.
const COUNTS_OF_UNDOS: Case = Case {
    name: "counts of undos",
    base: "",
    limits: AMPLE,
    rows: &[
        (Take((2, 1), SEES_BASE, Pieces(&[]), Ok(Applied(1))), ""),
        (Take((3, 1), SEES_ONE, Pieces(&[]), Ok(Applied(1))), ""),
        (
            Take(
                (4, 1),
                SEES_NEXT_BY_ONE,
                Counts(&[((2, 1), 1)]),
                Ok(Applied(1)),
            ),
            "",
        ),
        (
            Take(
                (5, 2),
                SEES_NEXT_BY_ONE,
                Counts(&[((3, 1), u32::MAX)]),
                Ok(Applied(1)),
            ),
            "",
        ),
        (
            Undo(&[BY_ONE, BY_THREE, THIRD_BY_ONE], Err(NoSuchEdit(BY_THREE))),
            "",
        ),
        (Undo(&[THIRD_BY_ONE], Err(NoSuchEdit(THIRD_BY_ONE))), ""),
        (
            Undo(
                &[BY_ONE, BY_ONE, NEXT_BY_ONE, LAST_BY_TWO],
                Err(NoSuchEdit(LAST_BY_TWO)),
            ),
            "",
        ),
        (
            Undo(
                &[BY_ONE, NEXT_BY_ONE, NEXT_BY_ONE, BY_ONE],
                Err(Twice(NEXT_BY_ONE)),
            ),
            "",
        ),
        (Undo(&[NEXT_BY_ONE, BY_ONE, BY_ONE], Err(Twice(BY_ONE))), ""),
        (Undo(&[BY_ONE, NEXT_BY_ONE], Err(CountEnd(NEXT_BY_ONE))), ""),
        (Undo(&[BY_ONE], Ok(6)), ""),
        (
            Last((6, 9), &[(1, 0), (4, 1), (5, 2)], Counts(&[((2, 1), 2)])),
            "",
        ),
        (Undo(&[], Ok(7)), ""),
        (
            Last((7, 9), &[(1, 0), (4, 1), (5, 2), (6, 9)], Counts(&[])),
            "",
        ),
    ],
};

const DELETED_BY_TWO: Case = Case {
    name: "deleted by two",
    base: "abc",
    limits: AMPLE,
    rows: &[
        (
            Take((2, 1), SEES_BASE, Pieces(&[(1, 2, "")]), Ok(Applied(1))),
            "ac",
        ),
        (
            Take((2, 2), SEES_BASE, Pieces(&[(1, 2, "")]), Ok(Applied(1))),
            "ac",
        ),
        (Undo(&[BY_ONE], Ok(4)), "ac"),
        (Undo(&[BY_TWO], Ok(5)), "abc"),
        (Keep(0, &[]), "abc"),
    ],
};

// Each of two authors undoes what the other did.
const UNDONE_BY_BOTH: Case = Case {
    name: "undone by both",
    base: "ab",
    limits: AMPLE,
    rows: &[
        (Edit(&[(0, 0, "X")], Ok(2)), "Xab"),
        (
            Take((2, 2), SEES_BASE, Pieces(&[(0, 1, "Y")]), Ok(Applied(1))),
            "XYb",
        ),
        (Undo(&[BY_TWO], Ok(4)), "Xab"),
        (
            Take(
                (4, 2),
                &[(1, 0), (2, 2), (2, 9)],
                Counts(&[((2, 9), 1)]),
                Ok(Applied(1)),
            ),
            "ab",
        ),
        (Keep(0, &[]), "ab"),
    ],
};

const WAITS_FOR_ITS_EDIT: Case = Case {
    name: "an undo waits for its edit",
    base: "ab",
    limits: AMPLE,
    rows: &[
        (
            Take((3, 2), SEES_ONE, Counts(&[((2, 1), 1)]), MISSES_ONE),
            "ab",
        ),
        (
            Take((2, 1), SEES_BASE, Pieces(&[(0, 1, "X")]), Ok(Applied(2))),
            "ab",
        ),
        (Keep(0, &[]), "ab"),
    ],
};

const A_TEXT_THAT_IS_TOO_LONG: Case = Case {
    name: "a text that is too long",
    base: "ab",
    limits: AMPLE,
    rows: &[
        (
            Take(
                (2, 1),
                SEES_BASE,
                Letters(1, 65_537),
                Err(OpFault::TextLimit(65_537)),
            ),
            "ab",
        ),
        (Keep(0, &[]), "ab"),
    ],
};

// The ranges of edits are counted past hidden bytes.
const AMONG_HIDDEN_BYTES: Case = Case {
    name: "among hidden bytes",
    base: "abc",
    limits: AMPLE,
    rows: &[
        (Edit(&[(1, 2, "")], Ok(2)), "ac"),
        (Last((2, 9), SEES_BASE, Pieces(&[(1, 2, "")])), "ac"),
        (Edit(&[(1, 1, "Q")], Ok(3)), "aQc"),
        (Last((3, 9), SEES_EDIT, Pieces(&[(2, 2, "Q")])), "aQc"),
        (Edit(&[(0, 2, "")], Ok(4)), "c"),
        (Last((4, 9), &[(1, 0), (3, 9)], Pieces(&[(0, 3, "")])), "c"),
        (Edit(&[(1, 1, "d")], Ok(5)), "cd"),
        (
            Last((5, 9), &[(1, 0), (4, 9)], Pieces(&[(4, 4, "d")])),
            "cd",
        ),
        (Ask(Question::Applied(5, &[(0, 1), (9, 5)])), "cd"),
    ],
};

const FEW: Limits = Limits {
    bytes: 5,
    entries: 2,
};

const EDITS_AT_THE_LIMITS: Case = Case {
    name: "edits at the limits",
    base: "abc",
    limits: FEW,
    rows: &[
        (
            Edit(
                &[(0, 0, "xyz")],
                Err(EditFault::Full {
                    unit: Unit::Bytes,
                    held: 3,
                    adds: 3,
                }),
            ),
            "abc",
        ),
        (Edit(&[(0, 0, "x")], Ok(2)), "xabc"),
        (
            Edit(
                &[(0, 1, "")],
                Err(EditFault::Full {
                    unit: Unit::Entries,
                    held: 2,
                    adds: 2,
                }),
            ),
            "xabc",
        ),
        (
            Undo(
                &[BASE, EDIT],
                Err(UndoFault::Full {
                    unit: Unit::Entries,
                    held: 2,
                    adds: 3,
                }),
            ),
            "xabc",
        ),
        (Keep(0, &[]), "xabc"),
    ],
};

const TAKEN_AT_THE_LIMITS: Case = Case {
    name: "taken at the limits",
    base: "abc",
    limits: FEW,
    rows: &[
        (
            Take(
                (2, 1),
                SEES_BASE,
                Pieces(&[(0, 0, "xyz")]),
                Err(OpFault::Full {
                    unit: Unit::Bytes,
                    held: 3,
                    adds: 3,
                }),
            ),
            "abc",
        ),
        (
            Take((2, 1), SEES_BASE, Pieces(&[(0, 0, "P")]), Ok(Applied(1))),
            "Pabc",
        ),
        (
            Take(
                (2, 2),
                SEES_BASE,
                Pieces(&[(0, 1, "")]),
                Err(OpFault::Full {
                    unit: Unit::Entries,
                    held: 2,
                    adds: 2,
                }),
            ),
            "Pabc",
        ),
        (Keep(0, &[]), "Pabc"),
    ],
};

const UNDOS_AT_THE_LIMITS: Case = Case {
    name: "undos at the limits",
    base: "ab",
    limits: FEW,
    rows: &[
        (
            Take(
                (2, 1),
                SEES_BASE,
                Counts(&[((1, 0), 1), ((1, 0), 1)]),
                Err(OpFault::Full {
                    unit: Unit::Entries,
                    held: 0,
                    adds: 3,
                }),
            ),
            "ab",
        ),
        (Undo(&[BASE], Ok(2)), ""),
        (
            Undo(
                &[],
                Err(UndoFault::Full {
                    unit: Unit::Entries,
                    held: 2,
                    adds: 1,
                }),
            ),
            "",
        ),
        (Keep(0, &[]), ""),
    ],
};

const OPERATIONS: &[Case] = &[
    INSIDE_A_CHARACTER,
    TWO_AT_ONE_PLACE,
    IN_THE_OTHER_ORDER,
    CAUSES_COME_LAST,
    IN_WRONG_ORDER,
    APPLIED_AND_REFUSED,
    REFUSED_AFTER_TAKING,
    EQUAL_IS_DROPPED,
];

#[test]
fn operations_are_taken(rt: HostRuntime) {
    assert_cases(&rt, rt.alloc(), OPERATIONS);
}

const UNDOS: &[Case] = &[
    UNDO_AND_REDO,
    FAULTS_OF_UNDOS,
    COUNTS_OF_UNDOS,
    DELETED_BY_TWO,
    UNDONE_BY_BOTH,
    WAITS_FOR_ITS_EDIT,
];

#[test]
fn undos_come_out_as_they_should(rt: HostRuntime) {
    assert_cases(&rt, rt.alloc(), UNDOS);
}

const AT_LIMITS: &[Case] = &[
    A_TEXT_THAT_IS_TOO_LONG,
    AMONG_HIDDEN_BYTES,
    EDITS_AT_THE_LIMITS,
    TAKEN_AT_THE_LIMITS,
    UNDOS_AT_THE_LIMITS,
];

#[test]
fn limits_are_kept(rt: HostRuntime) {
    assert_cases(&rt, rt.alloc(), AT_LIMITS);
}
