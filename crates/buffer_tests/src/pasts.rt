//! Snapshots that are taken while the buffer goes on: what is applied in them, texts at versions and the edits since these.
use crate::cases::{AMPLE, Case, assert_cases};
use crate::operations::Stamp;
use crate::steps::Question::{Applied, Past};
use crate::steps::Step::{Ask, Count, Edit, Undo};
use lamport_clock::Lamport;
use text_buffer::SinceFault::{OpenVersion, Unseen};
use text_buffer::TextEdit;

const BASE: Lamport = Lamport {
    value: 1,
    replica: 0,
};

const FIRST: Lamport = Lamport {
    value: 2,
    replica: 9,
};

const SECOND: Lamport = Lamport {
    value: 3,
    replica: 9,
};

const THIRD: Lamport = Lamport {
    value: 4,
    replica: 9,
};

const START: &[Stamp] = &[(1, 0)];

const AFTER_FIRST: &[Stamp] = &[(1, 0), (2, 9)];

const AFTER_SECOND: &[Stamp] = &[(1, 0), (3, 9)];

const AFTER_THIRD: &[Stamp] = &[(1, 0), (4, 9)];

const MARKS: Case = Case {
    name: "marks of two edits and three undos",
    base: "ab",
    limits: AMPLE,
    rows: &[
        (Ask(Past(START, Ok(("ab", &[])))), "ab"),
        (Edit(&[(1, 1, "X")], Ok(2)), "aXb"),
        (Edit(&[(2, 3, "")], Ok(3)), "aX"),
        (
            Ask(Past(
                START,
                Ok((
                    "ab",
                    &[TextEdit {
                        old: (1, 2),
                        new: (1, 2),
                    }],
                )),
            )),
            "aX",
        ),
        (
            Ask(Past(
                AFTER_FIRST,
                Ok((
                    "aXb",
                    &[TextEdit {
                        old: (2, 3),
                        new: (2, 2),
                    }],
                )),
            )),
            "aX",
        ),
        (Ask(Past(AFTER_SECOND, Ok(("aX", &[])))), "aX"),
        (Ask(Past(AFTER_THIRD, Err(Unseen(9)))), "aX"),
        (Ask(Past(&[(1, 0), (5, 1), (2, 9)], Err(Unseen(1)))), "aX"),
        (Ask(Past(&[(1, 0), (1, 1), (1, 7)], Err(Unseen(1)))), "aX"),
        (Ask(Past(&[(2, 9)], Err(OpenVersion(9)))), "aX"),
        (Ask(Past(&[(1, 1), (2, 9)], Err(Unseen(1)))), "aX"),
        (
            Ask(Past(
                &[],
                Ok((
                    "",
                    &[TextEdit {
                        old: (0, 0),
                        new: (0, 2),
                    }],
                )),
            )),
            "aX",
        ),
        (Undo(&[SECOND], Ok(4)), "aXb"),
        (
            Ask(Past(
                AFTER_SECOND,
                Ok((
                    "aX",
                    &[TextEdit {
                        old: (2, 2),
                        new: (2, 3),
                    }],
                )),
            )),
            "aXb",
        ),
        (Undo(&[BASE], Ok(5)), "X"),
        (
            Ask(Past(
                AFTER_THIRD,
                Ok((
                    "aXb",
                    &[
                        TextEdit {
                            old: (0, 1),
                            new: (0, 0),
                        },
                        TextEdit {
                            old: (2, 3),
                            new: (1, 1),
                        },
                    ],
                )),
            )),
            "X",
        ),
        (Undo(&[BASE], Ok(6)), "aXb"),
        (Ask(Past(AFTER_THIRD, Ok(("aXb", &[])))), "aXb"),
    ],
};

const NEVER_SHOWN: Case = Case {
    name: "bytes that no version saw",
    base: "abcd",
    limits: AMPLE,
    rows: &[
        (Edit(&[(2, 2, "X")], Ok(2)), "abXcd"),
        (Edit(&[(1, 5, "")], Ok(3)), "a"),
        (
            Ask(Past(
                START,
                Ok((
                    "abcd",
                    &[TextEdit {
                        old: (1, 4),
                        new: (1, 1),
                    }],
                )),
            )),
            "a",
        ),
        (Edit(&[(0, 1, "é"), (1, 1, "😀")], Ok(4)), "é😀"),
        (
            Ask(Past(
                AFTER_FIRST,
                Ok((
                    "abXcd",
                    &[TextEdit {
                        old: (0, 5),
                        new: (0, 6),
                    }],
                )),
            )),
            "é😀",
        ),
    ],
};

const COUNTED: Case = Case {
    name: "edits whose steps are counted",
    base: "abc",
    limits: AMPLE,
    rows: &[
        (Ask(Applied(1, &[(0, 1)])), "abc"),
        (Count(&[(3, 3, "d")], Ok(2)), "abcd"),
        (Ask(Applied(2, &[(0, 1), (9, 2)])), "abcd"),
        (Count(&[(0, 1, "é")], Ok(3)), "ébcd"),
        (Ask(Applied(3, &[(0, 1), (9, 3)])), "ébcd"),
        (Count(&[(2, 4, "")], Ok(4)), "éd"),
        (Ask(Applied(4, &[(0, 1), (9, 4)])), "éd"),
        (Undo(&[FIRST, THIRD], Ok(5)), "ébc"),
        (Ask(Applied(5, &[(0, 1), (9, 5)])), "ébc"),
    ],
};

const UNDO_OF_NOTHING: Case = Case {
    name: "an undo of nothing",
    base: "abc",
    limits: AMPLE,
    rows: &[
        (Undo(&[], Ok(2)), "abc"),
        (Ask(Applied(2, &[(0, 1), (9, 2)])), "abc"),
    ],
};

const CASES: &[Case] = &[MARKS, NEVER_SHOWN, COUNTED, UNDO_OF_NOTHING];

#[test]
fn pasts_are_answered(rt: HostRuntime) {
    assert_cases(&rt, rt.alloc(), CASES);
}
