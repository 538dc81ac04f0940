//! Operations that wait and are forgotten; and a caller that bounds how many wait.
use crate::cases::{AMPLE, Case, assert_cases, opened};
use crate::operations::{Parts, Stamp, operation};
use crate::steps;
use crate::steps::Step::{Forget, Keep, Settle, Take};
use Parts::Pieces;
use Took::{Applied, Repeat, Waits};
use deferred_ops::Deferred;
use lamport_clock::Lamport;
use op_model::Operation;
use std::alloc::Global;
use std::mem;
use std::process::Abort;
use text_buffer::{Buffer, OpFault, Took};

const BASE: &[Stamp] = &[(1, 0)];

const BY_ONE: &[Stamp] = &[(1, 0), (2, 1)];

const MISSES_ONE: Result<Took, OpFault> = Ok(Waits {
    replica: 1,
    value: 2,
});

const STAMP: Lamport = Lamport {
    value: 3,
    replica: 8,
};

const ANOTHER_WAITS: Case = Case {
    name: "another one waits once the first is forgotten",
    base: "ab",
    limits: AMPLE,
    rows: &[
        (
            Take((3, 8), BY_ONE, Pieces(&[(0, 0, "q")]), MISSES_ONE),
            "ab",
        ),
        (
            Take(
                (3, 8),
                BY_ONE,
                Pieces(&[(0, 0, "r")]),
                Err(OpFault::Conflict(STAMP)),
            ),
            "ab",
        ),
        (Forget((9, 9), false), "ab"),
        (Forget((1, 0), false), "ab"),
        (Keep(1, &[]), "ab"),
        (Forget((3, 8), true), "ab"),
        (Forget((3, 8), false), "ab"),
        (Keep(0, &[]), "ab"),
        (
            Take((3, 8), BY_ONE, Pieces(&[(0, 0, "r")]), MISSES_ONE),
            "ab",
        ),
        (Keep(1, &[]), "ab"),
        (Take((2, 1), BASE, Pieces(&[]), Ok(Applied(2))), "rab"),
        (Forget((3, 8), false), "rab"),
        (
            Take(
                (3, 8),
                BY_ONE,
                Pieces(&[(0, 0, "q")]),
                Err(OpFault::Conflict(STAMP)),
            ),
            "rab",
        ),
    ],
};

const THE_SAME_AGAIN: Case = Case {
    name: "a forgotten operation is taken again",
    base: "ab",
    limits: AMPLE,
    rows: &[
        (
            Take((3, 8), BY_ONE, Pieces(&[(0, 0, "q")]), MISSES_ONE),
            "ab",
        ),
        (
            Take((4, 7), BY_ONE, Pieces(&[(2, 2, "t")]), MISSES_ONE),
            "ab",
        ),
        (Forget((3, 8), true), "ab"),
        (Take((2, 1), BASE, Pieces(&[]), Ok(Applied(2))), "abt"),
        (Settle(0), "abt"),
        (
            Take((3, 8), BY_ONE, Pieces(&[(0, 0, "q")]), Ok(Applied(1))),
            "qabt",
        ),
        (
            Take((3, 8), BY_ONE, Pieces(&[(0, 0, "q")]), Ok(Repeat)),
            "qabt",
        ),
        (Keep(0, &[]), "qabt"),
    ],
};

const CASES: &[Case] = &[ANOTHER_WAITS, THE_SAME_AGAIN];

#[test]
fn what_is_forgotten_waits_no_more(rt: HostRuntime) {
    assert_cases(&rt, rt.alloc(), CASES);
}

// ---- A caller that lets at most so many operations of each author wait.

const MOST: u64 = 2;

// How many operations of an author wait, and the stamp of the newest.
fn newest_of(waiting: &Deferred, author: u16) -> (u64, Option<Lamport>) {
    let mut count = 0u64;
    let mut newest = None;
    let mut t = None;
    for _ in 0..waiting.len() {
        match waiting.after(t) {
            None => return (count, newest),
            Some(op) => {
                t = Some(op.stamp());
                if op.stamp().replica == author {
                    count = count.saturating_add(1);
                    newest = t;
                }
            }
        }
    }
    (count, newest)
}

// Forgets the newest operation of an author where too many wait.
fn forget_newest(buffer: &mut Buffer, author: u16) -> Option<Operation> {
    let (count, newest) = newest_of(buffer.deferred(), author);
    if count <= MOST {
        return None;
    }
    buffer.forget(newest?)
}

// Takes an operation. What would be too much to wait is set aside, for a later time.
fn take(buffer: &mut Buffer, aside: &mut Vec<Operation>, op: Operation) -> Result<(), OpFault> {
    let author = op.stamp().replica;
    let _answer = steps::take(buffer, op)?;
    if let Some(op) = forget_newest(buffer, author) {
        aside.push(op)?;
    }
    Ok(())
}

// Takes again what was set aside. What is still too much is set aside again.
fn take_again(
    alloc: Global,
    buffer: &mut Buffer,
    aside: &mut Vec<Operation>,
) -> Result<(), OpFault> {
    for op in mem::replace(aside, Vec::new(alloc)) {
        take(buffer, aside, op)?;
    }
    Ok(())
}

// ---- Its test.

// An operation: its stamp, what it has seen, and its parts.
type Given = (Stamp, &'static [Stamp], Parts);

// Edits of one author, the newest first, and how many are set aside after each. Each has seen the one before it.
const CHAIN: &[(Given, usize)] = &[
    (((8, 1), &[(1, 0), (7, 1)], Pieces(&[(0, 0, "g")])), 0),
    (((7, 1), &[(1, 0), (6, 1)], Pieces(&[(0, 0, "f")])), 0),
    (((6, 1), &[(1, 0), (5, 1)], Pieces(&[(0, 0, "e")])), 1),
    (((5, 1), &[(1, 0), (4, 1)], Pieces(&[(0, 0, "d")])), 2),
    (((4, 1), &[(1, 0), (3, 1)], Pieces(&[(0, 0, "c")])), 3),
    (((3, 1), BY_ONE, Pieces(&[(0, 0, "b")])), 4),
    (((2, 1), BASE, Pieces(&[(0, 0, "a")])), 4),
];

// How many are set aside after each time that these are taken again.
const AGAIN: &[usize] = &[1, 0];

// Whether the chain is taken, and never too much waits.
fn takes_chain(
    rt: &impl Abort,
    alloc: Global,
    buffer: &mut Buffer,
    aside: &mut Vec<Operation>,
) -> bool {
    let mut right = true;
    for &((at, seen, parts), count) in CHAIN {
        let op = operation(alloc, at, seen, parts).expect(rt, "memory");
        right = take(buffer, aside, op).is_ok() && right;
        let waits = newest_of(buffer.deferred(), 1).0;
        right = right & (aside.len() == count) & (waits <= MOST);
    }
    right
}

fn is_bounded(
    rt: &impl Abort,
    alloc: Global,
    buffer: &mut Buffer,
    aside: &mut Vec<Operation>,
) -> bool {
    let mut right = takes_chain(rt, alloc, buffer, aside);
    for &left in AGAIN {
        right = take_again(alloc, buffer, aside).is_ok() && right;
        right = right & (aside.len() == left);
    }
    buffer.text().expect(rt, "memory").as_str() == "gfedcba" && right
}

fn bounds(rt: &impl Abort, alloc: Global, buffer: &mut Buffer) -> bool {
    is_bounded(rt, alloc, buffer, &mut Vec::new(alloc))
}

fn bounds_what_waits(rt: &impl Abort, alloc: Global) -> bool {
    bounds(rt, alloc, &mut opened(rt, alloc, "", AMPLE))
}

#[test]
fn a_caller_bounds_what_waits(rt: HostRuntime) {
    assert!(rt; bounds_what_waits(&rt, rt.alloc()));
}
