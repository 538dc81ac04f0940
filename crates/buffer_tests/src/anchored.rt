//! Anchors, each asked of a snapshot that is taken while the buffer goes on.
use crate::cases::{AMPLE, Case, assert_cases};
use crate::steps::Question::{Compare, Make, Resolve};
use crate::steps::Step::{Ask, Edit, Undo};
use Anchor::{Greatest, Least};
use Bias::{Left, Right};
use Ordering::{Equal, Greater, Less};
use lamport_clock::Lamport;
use std::cmp::Ordering;
use text_buffer::PlaceFault::{InsideChar, PastEnd};
use text_buffer::{Anchor, Bias, UnknownAnchor};

const BASE: Lamport = Lamport {
    value: 1,
    replica: 0,
};

const FIRST: Lamport = Lamport {
    value: 2,
    replica: 9,
};

// An edit of another replica, which no buffer here has.
const FORKED: Lamport = Lamport {
    value: 2,
    replica: 1,
};

const AFTER_FIRST: Anchor = Anchor::At {
    stamp: BASE,
    offset: 1,
    bias: Left,
};

const BEFORE_SECOND: Anchor = Anchor::At {
    stamp: BASE,
    offset: 1,
    bias: Right,
};

const AFTER_SECOND: Anchor = Anchor::At {
    stamp: BASE,
    offset: 2,
    bias: Left,
};

const BEFORE_THIRD: Anchor = Anchor::At {
    stamp: BASE,
    offset: 2,
    bias: Right,
};

const AFTER_THIRD: Anchor = Anchor::At {
    stamp: BASE,
    offset: 3,
    bias: Left,
};

const BEFORE_SIXTH: Anchor = Anchor::At {
    stamp: BASE,
    offset: 5,
    bias: Right,
};

const AFTER_NINTH: Anchor = Anchor::At {
    stamp: BASE,
    offset: 9,
    bias: Left,
};

const BEFORE_TENTH: Anchor = Anchor::At {
    stamp: BASE,
    offset: 9,
    bias: Right,
};

const AFTER_NONE: Anchor = Anchor::At {
    stamp: BASE,
    offset: 0,
    bias: Left,
};

const IN_AN_EDIT: Anchor = Anchor::At {
    stamp: FIRST,
    offset: 1,
    bias: Left,
};

const IN_A_FORK: Anchor = Anchor::At {
    stamp: FORKED,
    offset: 1,
    bias: Left,
};

const SECOND: Lamport = Lamport {
    value: 3,
    replica: 9,
};

const NOT_IN_AN_EDIT: UnknownAnchor = UnknownAnchor { anchor: IN_AN_EDIT };

const NOT_IN_A_FORK: UnknownAnchor = UnknownAnchor { anchor: IN_A_FORK };

const BOTH_SIDES: Case = Case {
    name: "both sides of a gap",
    base: "ab",
    limits: AMPLE,
    rows: &[
        (Ask(Make(1, Left, Ok(AFTER_FIRST))), "ab"),
        (Ask(Make(1, Right, Ok(BEFORE_SECOND))), "ab"),
        (Ask(Compare(AFTER_FIRST, BEFORE_SECOND, Ok(Less))), "ab"),
        (Ask(Resolve(IN_AN_EDIT, Err(NOT_IN_AN_EDIT))), "ab"),
        (Edit(&[(1, 1, "X")], Ok(2)), "aXb"),
        (Ask(Resolve(AFTER_FIRST, Ok(1))), "aXb"),
        (Ask(Resolve(BEFORE_SECOND, Ok(2))), "aXb"),
        (Ask(Resolve(IN_AN_EDIT, Ok(2))), "aXb"),
        (Ask(Resolve(IN_A_FORK, Err(NOT_IN_A_FORK))), "aXb"),
        (
            Ask(Compare(IN_A_FORK, IN_AN_EDIT, Err(NOT_IN_A_FORK))),
            "aXb",
        ),
        (
            Ask(Compare(IN_AN_EDIT, IN_A_FORK, Err(NOT_IN_A_FORK))),
            "aXb",
        ),
        (Ask(Compare(BEFORE_SECOND, IN_AN_EDIT, Ok(Greater))), "aXb"),
        (Edit(&[(0, 1, ""), (2, 3, "")], Ok(3)), "X"),
        (Ask(Resolve(AFTER_FIRST, Ok(0))), "X"),
        (Ask(Resolve(BEFORE_SECOND, Ok(1))), "X"),
        (Ask(Compare(AFTER_FIRST, BEFORE_SECOND, Ok(Less))), "X"),
        (Ask(Compare(AFTER_FIRST, AFTER_FIRST, Ok(Equal))), "X"),
    ],
};

const OVER_A_DELETION: Case = Case {
    name: "over a deletion",
    base: "abcd",
    limits: AMPLE,
    rows: &[
        (Ask(Make(3, Left, Ok(AFTER_THIRD))), "abcd"),
        (Edit(&[(2, 2, "X")], Ok(2)), "abXcd"),
        (Ask(Resolve(AFTER_THIRD, Ok(4))), "abXcd"),
        (Edit(&[(1, 5, "")], Ok(3)), "a"),
        (Ask(Resolve(AFTER_THIRD, Ok(1))), "a"),
        (Undo(&[SECOND], Ok(4)), "abXcd"),
        (Ask(Resolve(AFTER_THIRD, Ok(4))), "abXcd"),
        (Undo(&[BASE], Ok(5)), "X"),
        (Ask(Resolve(AFTER_THIRD, Ok(1))), "X"),
    ],
};

const EMPTY: Case = Case {
    name: "both ends of an empty text",
    base: "",
    limits: AMPLE,
    rows: &[
        (Ask(Make(0, Left, Ok(Least))), ""),
        (Ask(Make(0, Right, Ok(Greatest))), ""),
        (Ask(Make(1, Left, Err(PastEnd(0)))), ""),
        (Ask(Compare(Least, Greatest, Ok(Less))), ""),
        (Edit(&[(0, 0, "x")], Ok(2)), "x"),
        (Ask(Resolve(Least, Ok(0))), "x"),
        (Ask(Resolve(Greatest, Ok(1))), "x"),
    ],
};

const WIDE_CHARACTERS: Case = Case {
    name: "characters of 2, 3 and 4 bytes",
    base: "é€😀",
    limits: AMPLE,
    rows: &[
        (Ask(Make(2, Left, Ok(AFTER_SECOND))), "é€😀"),
        (Ask(Make(2, Right, Ok(BEFORE_THIRD))), "é€😀"),
        (Ask(Compare(AFTER_SECOND, BEFORE_THIRD, Ok(Less))), "é€😀"),
        (Ask(Make(5, Right, Ok(BEFORE_SIXTH))), "é€😀"),
        (Ask(Make(9, Left, Ok(AFTER_NINTH))), "é€😀"),
        (Ask(Make(9, Right, Ok(Greatest))), "é€😀"),
        (Ask(Make(1, Left, Err(InsideChar))), "é€😀"),
        (Ask(Make(4, Right, Err(InsideChar))), "é€😀"),
        (Ask(Make(8, Right, Err(InsideChar))), "é€😀"),
        (Ask(Make(10, Left, Err(PastEnd(9)))), "é€😀"),
        (
            Ask(Resolve(AFTER_NONE, Err(UnknownAnchor { anchor: AFTER_NONE }))),
            "é€😀",
        ),
        (
            Ask(Resolve(
                AFTER_THIRD,
                Err(UnknownAnchor {
                    anchor: AFTER_THIRD,
                }),
            )),
            "é€😀",
        ),
        (
            Ask(Resolve(
                BEFORE_TENTH,
                Err(UnknownAnchor {
                    anchor: BEFORE_TENTH,
                }),
            )),
            "é€😀",
        ),
        (Edit(&[(2, 5, "")], Ok(2)), "é😀"),
        (Ask(Resolve(BEFORE_SIXTH, Ok(2))), "é😀"),
        (Ask(Resolve(AFTER_NINTH, Ok(6))), "é😀"),
    ],
};

const CASES: &[Case] = &[BOTH_SIDES, OVER_A_DELETION, EMPTY, WIDE_CHARACTERS];

#[test]
fn anchors_are_answered(rt: HostRuntime) {
    assert_cases(&rt, rt.alloc(), CASES);
}
