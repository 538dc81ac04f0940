//! Operations that replica 2 takes, in one order and another.
use crate::made::{Range, Stamp, keeps, open, operation, select, sets_of, stamp};
use SelFault::{BadStamp, Conflict};
use SelTook::{Old, Repeat, Set};
use lamport_clock::Lamport;
use selections::{SelFault, SelTook, SelectionSets, SetFault};
use std::alloc::Global;
use std::process::Abort;

// An operation's stamp and its ranges, the answer to it, and what is kept then, in the order of the authors.
type Step = (
    Stamp,
    &'static [Range],
    Result<SelTook, SelFault>,
    &'static [Stamp],
);

// What replica 2 takes, and the value of the stamp that it selects with after that. Every operation that is kept moves
// the clock on by at least one, so the value depends on the order, too.
struct Case {
    name: &'static str,
    steps: &'static [Step],
    next: Result<u32, SetFault>,
}

const A: &[Range] = &[(0, 1)];

const B: &[Range] = &[(1, 2)];

const BOTH: &[Range] = &[(0, 1), (1, 2)];

const SECOND_OF_1: Lamport = Lamport {
    value: 2,
    replica: 1,
};

const FOURTH_OF_1: Lamport = Lamport {
    value: 4,
    replica: 1,
};

const SECOND_OF_3: Lamport = Lamport {
    value: 2,
    replica: 3,
};

const SEVENTH_OF_2: Lamport = Lamport {
    value: 7,
    replica: 2,
};

const CASES: &[Case] = &[
    Case {
        name: "stamps that no replica makes",
        steps: &[
            ((0, 1), A, Err(BadStamp), &[]),
            ((4294967295, 1), A, Err(BadStamp), &[]),
            ((1, 0), A, Err(BadStamp), &[]),
            ((1, 1024), A, Err(BadStamp), &[]),
            ((1, 65535), A, Err(BadStamp), &[]),
            ((1, 1023), A, Ok(Set), &[(1, 1023)]),
        ],
        next: Ok(2),
    },
    Case {
        name: "an older one after a newer one",
        steps: &[
            ((2, 1), A, Ok(Set), &[(2, 1)]),
            ((1, 1), B, Ok(Old(SECOND_OF_1)), &[(2, 1)]),
        ],
        next: Ok(3),
    },
    Case {
        name: "a repeat, and others with the stamp",
        steps: &[
            ((2, 1), A, Ok(Set), &[(2, 1)]),
            ((2, 1), A, Ok(Repeat), &[(2, 1)]),
            ((2, 1), B, Err(Conflict(SECOND_OF_1)), &[(2, 1)]),
            ((2, 1), BOTH, Err(Conflict(SECOND_OF_1)), &[(2, 1)]),
            ((2, 1), &[], Err(Conflict(SECOND_OF_1)), &[(2, 1)]),
            ((2, 1), A, Ok(Repeat), &[(2, 1)]),
        ],
        next: Ok(3),
    },
    Case {
        name: "another with the stamp of one that was replaced",
        steps: &[
            ((1, 1), A, Ok(Set), &[(1, 1)]),
            ((2, 1), A, Ok(Set), &[(2, 1)]),
            ((1, 1), B, Ok(Old(SECOND_OF_1)), &[(2, 1)]),
        ],
        next: Ok(3),
    },
    Case {
        name: "three authors, in the order of stamps",
        steps: &[
            ((1, 3), A, Ok(Set), &[(1, 3)]),
            ((2, 3), B, Ok(Set), &[(2, 3)]),
            ((3, 1), A, Ok(Set), &[(3, 1), (2, 3)]),
            ((4, 1), B, Ok(Set), &[(4, 1), (2, 3)]),
            ((9, 7), &[], Ok(Set), &[(4, 1), (2, 3), (9, 7)]),
        ],
        next: Ok(10),
    },
    Case {
        name: "the same in another order, with repeats",
        steps: &[
            ((9, 7), &[], Ok(Set), &[(9, 7)]),
            ((4, 1), B, Ok(Set), &[(4, 1), (9, 7)]),
            ((3, 1), A, Ok(Old(FOURTH_OF_1)), &[(4, 1), (9, 7)]),
            ((4, 1), B, Ok(Repeat), &[(4, 1), (9, 7)]),
            ((1, 3), A, Ok(Set), &[(4, 1), (1, 3), (9, 7)]),
            ((2, 3), B, Ok(Set), &[(4, 1), (2, 3), (9, 7)]),
            ((1, 3), A, Ok(Old(SECOND_OF_3)), &[(4, 1), (2, 3), (9, 7)]),
            ((9, 7), &[], Ok(Repeat), &[(4, 1), (2, 3), (9, 7)]),
        ],
        next: Ok(13),
    },
    Case {
        name: "a forged one with the own id",
        steps: &[
            ((7, 2), A, Ok(Set), &[(7, 2)]),
            ((3, 2), A, Ok(Old(SEVENTH_OF_2)), &[(7, 2)]),
        ],
        next: Ok(8),
    },
    Case {
        name: "the last value ends the clock",
        steps: &[
            ((4294967294, 1), A, Ok(Set), &[(4294967294, 1)]),
            ((5, 3), A, Ok(Set), &[(4294967294, 1), (5, 3)]),
        ],
        next: Err(SetFault::ClockEnd),
    },
];

// Whether `get` and `copy_of` have what is kept for an author, and nothing for another one.
fn has(rt: &impl Abort, sets: &SelectionSets, at: Stamp, author: u16) -> bool {
    let copy = sets.copy_of(author).expect(rt, "memory");
    match sets.get(author) {
        Some(op) => op.stamp == stamp(at) && copy.is_some_and(|copy| copy.same(op)),
        None => author != at.1 && copy.is_none(),
    }
}

fn has_kept(rt: &impl Abort, sets: &SelectionSets, kept: &[Stamp]) -> bool {
    keeps(sets, kept)
        && has(rt, sets, (0, 0), 500)
        && kept.iter().all(|&at| has(rt, sets, at, at.1))
}

// How many steps come out as they should before the first that does not.
fn count_right(rt: &impl Abort, alloc: Global, sets: &mut SelectionSets, steps: &[Step]) -> usize {
    for (i, &(at, ranges, answer, kept)) in steps.iter().enumerate() {
        let op = operation(alloc, at, ranges).expect(rt, "memory");
        if sets.take(op) != answer || !has_kept(rt, sets, kept) {
            return i;
        }
    }
    steps.len()
}

fn next(rt: &impl Abort, alloc: Global, sets: &mut SelectionSets) -> Result<u32, SetFault> {
    let snapshot = open(rt, alloc, "ab").snapshot().expect(rt, "memory");
    select(sets, &snapshot, &[(0, 1)])
}

// How many steps of a case come out as they should; one fewer where what is selected then has another stamp.
fn count_case(rt: &impl Abort, alloc: Global, case: &Case) -> usize {
    let mut sets = sets_of(rt, alloc, 2);
    let right = count_right(rt, alloc, &mut sets, case.steps);
    right.saturating_sub((next(rt, alloc, &mut sets) != case.next) as usize)
}

#[test]
fn the_newest_of_each_author_is_kept(rt: HostRuntime) {
    for case in CASES {
        let right = count_case(&rt, rt.alloc(), case);
        assert!(rt; right == case.steps.len(), "{}: step {right}", case.name);
    }
}
