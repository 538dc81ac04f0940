//! Operations that wait and meet a fault each when what they wait for comes.
use crate::cases::AMPLE;
use crate::fault_rows::{Answer, Asked};
use crate::operations::{Parts, Stamp};
use crate::steps::Step;
use OpFault::{Conflict, Forked, Full, InsideChar, NoSuchEdit, OpenVersion, PastEnd};
use Parts::{Counts, Pieces};
use Step::{Edit, Keep, Take};
use Took::{Applied, Waits};
use lamport_clock::Lamport;
use text_buffer::{Limits, OpFault, Refused, Took, Unit};

/// Operations that wait at the first buffer until the last one comes, which the second buffer and its twin take before them.
pub(crate) struct Late {
    pub(crate) limits: Limits,
    /// What the first buffer takes and makes, to the last one; and what it keeps then.
    pub(crate) settling: &'static [Step],
    /// What the second one and its twin make and take before the others.
    pub(crate) before: &'static [Step],
    /// The others, with their answers at once.
    pub(crate) at_once: &'static [Asked],
}

const BASE: &[Stamp] = &[(1, 0)];

const BY_ONE: &[Stamp] = &[(1, 0), (2, 1)];

const BY_TWO: &[Stamp] = &[(1, 0), (2, 2)];

const NONE: Parts = Pieces(&[]);

const NO_COUNTS: Parts = Counts(&[]);

const EDIT: Lamport = Lamport {
    value: 2,
    replica: 1,
};

const NOWHERE: Lamport = Lamport {
    value: 7,
    replica: 1,
};

const OWN: Lamport = Lamport {
    value: 3,
    replica: 9,
};

const OWN_FIRST: Lamport = Lamport {
    value: 2,
    replica: 9,
};

const FORK: Lamport = Lamport {
    value: 4,
    replica: 7,
};

const BAD: Lamport = Lamport {
    value: 9,
    replica: 4,
};

const MISSES_ONE: Answer = Ok(Waits {
    replica: 1,
    value: 2,
});

const MISSES_TWO: Answer = Ok(Waits {
    replica: 2,
    value: 2,
});

// The last one, without pieces.
const LAST: Step = Take((2, 1), BASE, NONE, Ok(Applied(1)));

// The last one, which hides é behind ñ.
const HIDES: Step = Take((2, 1), BASE, Pieces(&[(1, 3, "ñ")]), Ok(Applied(1)));

// Edits without pieces that a buffer makes itself.
const OWN_EDIT: Step = Edit(&[], Ok(2));

const NEXT_EDIT: Step = Edit(&[], Ok(3));

/// An operation that meets one of `BadStamp`, `NoBase`, `TextLimit`, `Reversed`, `Overlap` never waits, since these are looked for
/// before its causes. `Conflict` needs an operation that the buffer has made itself under a stamp that waits.
pub(crate) const WAITING: &[Late] = &[
    Late {
        limits: AMPLE,
        settling: &[
            Take((3, 9), BY_ONE, NONE, MISSES_ONE),
            OWN_EDIT,
            NEXT_EDIT,
            LAST,
            Keep(
                0,
                &[Refused {
                    stamp: OWN,
                    fault: Conflict(OWN),
                }],
            ),
        ],
        before: &[OWN_EDIT, NEXT_EDIT, LAST],
        at_once: &[(((3, 9), BY_ONE, NONE), Err(Conflict(OWN)))],
    },
    Late {
        limits: AMPLE,
        settling: &[
            Take((3, 7), BY_ONE, Pieces(&[(0, 0, "q")]), MISSES_ONE),
            Take((4, 7), BY_ONE, NONE, MISSES_ONE),
            Take((2, 1), BASE, NONE, Ok(Applied(2))),
            Keep(
                0,
                &[Refused {
                    stamp: FORK,
                    fault: Forked(3),
                }],
            ),
        ],
        before: &[LAST],
        at_once: &[
            (((3, 7), BY_ONE, Pieces(&[(0, 0, "q")])), Ok(Applied(1))),
            (((4, 7), BY_ONE, NONE), Err(Forked(3))),
        ],
    },
    Late {
        limits: AMPLE,
        settling: &[
            Take(
                (9, 4),
                &[(1, 0), (1, 1)],
                NONE,
                Ok(Waits {
                    replica: 1,
                    value: 1,
                }),
            ),
            LAST,
            Keep(
                0,
                &[Refused {
                    stamp: BAD,
                    fault: OpenVersion(1),
                }],
            ),
        ],
        before: &[LAST],
        at_once: &[(((9, 4), &[(1, 0), (1, 1)], NONE), Err(OpenVersion(1)))],
    },
    Late {
        limits: AMPLE,
        settling: &[
            Take((3, 1), BY_TWO, NONE, MISSES_TWO),
            Take(
                (9, 4),
                &[(1, 0), (3, 1)],
                NO_COUNTS,
                Ok(Waits {
                    replica: 1,
                    value: 3,
                }),
            ),
            Take((2, 2), BASE, NONE, Ok(Applied(2))),
            Keep(
                0,
                &[Refused {
                    stamp: BAD,
                    fault: OpenVersion(1),
                }],
            ),
        ],
        before: &[Take((2, 2), BASE, NONE, Ok(Applied(1)))],
        at_once: &[
            (((3, 1), BY_TWO, NONE), Ok(Applied(1))),
            (((9, 4), &[(1, 0), (3, 1)], NO_COUNTS), Err(OpenVersion(1))),
        ],
    },
    Late {
        limits: AMPLE,
        settling: &[
            Take((9, 4), BY_ONE, Pieces(&[(0, 5, "")]), MISSES_ONE),
            LAST,
            Keep(
                0,
                &[Refused {
                    stamp: BAD,
                    fault: PastEnd(0, 4),
                }],
            ),
        ],
        before: &[LAST],
        at_once: &[(((9, 4), BY_ONE, Pieces(&[(0, 5, "")])), Err(PastEnd(0, 4)))],
    },
    Late {
        limits: AMPLE,
        settling: &[
            Take(
                (9, 4),
                BY_ONE,
                Pieces(&[(0, 0, ""), (7, 7, "q")]),
                MISSES_ONE,
            ),
            HIDES,
            Keep(
                0,
                &[Refused {
                    stamp: BAD,
                    fault: PastEnd(1, 6),
                }],
            ),
        ],
        before: &[HIDES],
        at_once: &[(
            ((9, 4), BY_ONE, Pieces(&[(0, 0, ""), (7, 7, "q")])),
            Err(PastEnd(1, 6)),
        )],
    },
    Late {
        limits: AMPLE,
        settling: &[
            Take((9, 4), BY_ONE, Pieces(&[(4, 5, "")]), MISSES_ONE),
            HIDES,
            Keep(
                0,
                &[Refused {
                    stamp: BAD,
                    fault: InsideChar(0),
                }],
            ),
        ],
        before: &[HIDES],
        at_once: &[(((9, 4), BY_ONE, Pieces(&[(4, 5, "")])), Err(InsideChar(0)))],
    },
    Late {
        limits: AMPLE,
        settling: &[
            Take(
                (9, 4),
                BY_ONE,
                Pieces(&[(0, 1, ""), (1, 2, "")]),
                MISSES_ONE,
            ),
            HIDES,
            Keep(
                0,
                &[Refused {
                    stamp: BAD,
                    fault: InsideChar(1),
                }],
            ),
        ],
        before: &[HIDES],
        at_once: &[(
            ((9, 4), BY_ONE, Pieces(&[(0, 1, ""), (1, 2, "")])),
            Err(InsideChar(1)),
        )],
    },
    Late {
        limits: AMPLE,
        settling: &[
            Take(
                (9, 4),
                BY_ONE,
                Counts(&[((2, 1), 1), ((7, 1), 1)]),
                MISSES_ONE,
            ),
            LAST,
            Keep(
                0,
                &[Refused {
                    stamp: BAD,
                    fault: NoSuchEdit(NOWHERE),
                }],
            ),
        ],
        before: &[LAST],
        at_once: &[(
            ((9, 4), BY_ONE, Counts(&[((2, 1), 1), ((7, 1), 1)])),
            Err(NoSuchEdit(NOWHERE)),
        )],
    },
    Late {
        limits: AMPLE,
        settling: &[
            Take((9, 4), BY_ONE, Counts(&[((2, 9), 1)]), MISSES_ONE),
            OWN_EDIT,
            LAST,
            Keep(
                0,
                &[Refused {
                    stamp: BAD,
                    fault: NoSuchEdit(OWN_FIRST),
                }],
            ),
        ],
        before: &[OWN_EDIT, LAST],
        at_once: &[(
            ((9, 4), BY_ONE, Counts(&[((2, 9), 1)])),
            Err(NoSuchEdit(OWN_FIRST)),
        )],
    },
    Late {
        limits: AMPLE,
        settling: &[
            Take((9, 4), BY_ONE, Counts(&[((2, 1), 1)]), MISSES_ONE),
            Take((2, 1), BASE, NO_COUNTS, Ok(Applied(1))),
            Keep(
                0,
                &[Refused {
                    stamp: BAD,
                    fault: NoSuchEdit(EDIT),
                }],
            ),
        ],
        before: &[Take((2, 1), BASE, NO_COUNTS, Ok(Applied(1)))],
        at_once: &[(
            ((9, 4), BY_ONE, Counts(&[((2, 1), 1)])),
            Err(NoSuchEdit(EDIT)),
        )],
    },
    Late {
        limits: Limits {
            bytes: 6,
            entries: 9,
        },
        settling: &[
            Take((9, 4), BY_ONE, Pieces(&[(0, 0, "yz")]), MISSES_ONE),
            Take((2, 1), BASE, Pieces(&[(0, 0, "x")]), Ok(Applied(1))),
            Keep(
                0,
                &[Refused {
                    stamp: BAD,
                    fault: Full {
                        unit: Unit::Bytes,
                        held: 5,
                        adds: 2,
                    },
                }],
            ),
        ],
        before: &[Take((2, 1), BASE, Pieces(&[(0, 0, "x")]), Ok(Applied(1)))],
        at_once: &[(
            ((9, 4), BY_ONE, Pieces(&[(0, 0, "yz")])),
            Err(Full {
                unit: Unit::Bytes,
                held: 5,
                adds: 2,
            }),
        )],
    },
    Late {
        limits: Limits {
            bytes: 9,
            entries: 3,
        },
        settling: &[
            Take((9, 4), BY_ONE, Pieces(&[(0, 0, "")]), MISSES_ONE),
            Take((2, 1), BASE, Pieces(&[(0, 0, "")]), Ok(Applied(1))),
            Keep(
                0,
                &[Refused {
                    stamp: BAD,
                    fault: Full {
                        unit: Unit::Entries,
                        held: 2,
                        adds: 2,
                    },
                }],
            ),
        ],
        before: &[Take((2, 1), BASE, Pieces(&[(0, 0, "")]), Ok(Applied(1)))],
        at_once: &[(
            ((9, 4), BY_ONE, Pieces(&[(0, 0, "")])),
            Err(Full {
                unit: Unit::Entries,
                held: 2,
                adds: 2,
            }),
        )],
    },
];
