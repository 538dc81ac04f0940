//! Shapes of operations, equal operations and copies.
use crate::operations::{Parts, Stamp, operation};
use op_model::{Endings, OpFault, Operation, ShapeFault, lf, lf_len, rule_fault, shape};
use std::alloc::Global;
use std::process::Abort;

// A stamp, what it has seen, the parts, and what `shape` answers.
type Row = (Stamp, &'static [Stamp], Parts, Result<(), ShapeFault>);

const BASE: &[Stamp] = &[(1, 0)];

const NONE: Parts = Parts::Pieces(&[]);

const BAD: Result<(), ShapeFault> = Err(ShapeFault::BadStamp);

// No two of these are equal.
const ROWS: &[Row] = &[
    ((0, 1), BASE, NONE, BAD),
    ((4_294_967_295, 1), BASE, NONE, BAD),
    ((2, 0), BASE, NONE, BAD),
    ((2, 1024), BASE, NONE, BAD),
    ((9, 1), &[(1, 0), (3, 1024)], NONE, BAD),
    ((3, 1), &[(1, 0), (3, 2)], Parts::Counts(&[]), BAD),
    (
        (4_294_967_294, 1023),
        &[(1, 0), (4_294_967_293, 1023)],
        NONE,
        Ok(()),
    ),
    (
        (2, 4),
        &[],
        Parts::Pieces(&[(0, 0, "q")]),
        Err(ShapeFault::NoBase),
    ),
    (
        (3, 4),
        &[(2, 0)],
        Parts::Counts(&[((7, 1), 1)]),
        Err(ShapeFault::NoBase),
    ),
    (
        (9, 4),
        BASE,
        Parts::Pieces(&[(0, 0, "x"), (2, 1, "")]),
        Err(ShapeFault::Reversed(1)),
    ),
    (
        (9, 4),
        BASE,
        Parts::Pieces(&[(0, 2, ""), (1, 1, "x")]),
        Err(ShapeFault::Overlap(1)),
    ),
    (
        (9, 4),
        BASE,
        Parts::Pieces(&[(0, 2, ""), (2, 2, "x"), (2, 9, "y")]),
        Ok(()),
    ),
    (
        (9, 4),
        BASE,
        Parts::Pieces(&[(0, 2, ""), (2, 2, "x"), (2, 9, "yz")]),
        Ok(()),
    ),
    (
        (9, 4),
        BASE,
        Parts::Pieces(&[(0, 2, ""), (2, 2, "x")]),
        Ok(()),
    ),
    (
        (9, 4),
        &[(1, 0), (3, 4)],
        Parts::Pieces(&[(0, 2, ""), (2, 2, "x")]),
        Ok(()),
    ),
    ((9, 4), BASE, NONE, Ok(())),
    ((9, 4), BASE, Parts::Counts(&[]), Ok(())),
    ((9, 4), BASE, Parts::Counts(&[((7, 1), 1)]), Ok(())),
    ((9, 4), BASE, Parts::Counts(&[((7, 1), 2)]), Ok(())),
    ((2, 1), BASE, Parts::Letters(4096, 16), Ok(())),
    (
        (2, 1),
        BASE,
        Parts::Letters(4097, 16),
        Err(ShapeFault::TextLimit(65_552)),
    ),
];

fn operation_of(rt: &impl Abort, alloc: Global, row: &Row) -> Operation {
    operation(alloc, row.0, row.1, row.2).expect(rt, "memory")
}

fn is_shaped(rt: &impl Abort, alloc: Global, row: &Row) -> bool {
    shape(&operation_of(rt, alloc, row)) == row.3
}

fn operations(rt: &impl Abort, alloc: Global) -> Vec<Operation> {
    let mut all = Vec::new(alloc);
    for row in ROWS {
        all.push(operation_of(rt, alloc, row)).expect(rt, "memory");
    }
    all
}

// Whether an operation is the same as that of this index alone.
fn is_same_alone(all: &[Operation], op: &Operation, at: usize) -> bool {
    let mut right = true;
    for (i, other) in all.iter().enumerate() {
        right = right && op.same(other) == (i == at);
    }
    right
}

// A copy of a copy that is shared.
fn shared_copy(rt: &impl Abort, alloc: Global, op: &Operation) -> Operation {
    op.copy(alloc)
        .expect(rt, "memory")
        .into_shared(alloc)
        .expect(rt, "memory")
        .copy(alloc)
        .expect(rt, "memory")
}

// How many operations are the same as their copies, and as no others.
fn count_copies(rt: &impl Abort, alloc: Global, all: &[Operation]) -> usize {
    for (i, op) in all.iter().enumerate() {
        if !is_same_alone(all, &op.copy(alloc).expect(rt, "memory"), i)
            || !is_same_alone(all, &shared_copy(rt, alloc, op), i)
        {
            return i;
        }
    }
    all.len()
}

#[test]
fn operations_have_shapes_and_copies(rt: HostRuntime) {
    for row in ROWS {
        assert!(rt;
            is_shaped(&rt, rt.alloc(), row),
            "{:?} for {:?}",
            row.3,
            row.0
        );
    }
    let all = operations(&rt, rt.alloc());
    let right = count_copies(&rt, rt.alloc(), all.as_slice());
    assert!(rt; right == all.len(), "row {right}");
}

// A text, and the text with each CR LF, and each other CR, as one LF.
const TEXTS: &[(&str, &str)] = &[
    ("", ""),
    ("é\n\n😀", "é\n\n😀"),
    ("\r", "\n"),
    ("\r\n", "\n"),
    ("\n\r", "\n\n"),
    ("\r\r\n", "\n\n"),
    ("\r\n\r\n", "\n\n"),
    ("\ré\r\n€\n😀\r", "\né\n€\n😀\n"),
];

// Parts, and the fault that the rule `Lf` finds in them.
const RULES: &[(Parts, Option<OpFault>)] = &[
    (NONE, None),
    (Parts::Counts(&[((7, 1), 1)]), None),
    (Parts::Pieces(&[(0, 0, "a\n"), (2, 2, "")]), None),
    (
        Parts::Pieces(&[(0, 0, "a\r")]),
        Some(OpFault::CarriageReturn(0)),
    ),
    (
        Parts::Pieces(&[(0, 0, "a"), (2, 3, "\r\n"), (4, 4, "\r")]),
        Some(OpFault::CarriageReturn(1)),
    ),
];

fn is_lf(rt: &impl Abort, alloc: Global, text: &str, want: &str) -> bool {
    let made = lf(alloc, text).expect(rt, "memory");
    made.as_str() == want && lf_len(text) == want.len()
}

// Whether the rule `Lf` finds this fault, and the rule `AsIs` none.
fn is_ruled(rt: &impl Abort, alloc: Global, parts: Parts, want: Option<OpFault>) -> bool {
    let op = operation(alloc, (9, 4), BASE, parts).expect(rt, "memory");
    rule_fault(Endings::Lf, &op) == want && rule_fault(Endings::AsIs, &op).is_none()
}

#[test]
fn texts_end_rows_with_lf(rt: HostRuntime) {
    for &(text, want) in TEXTS {
        assert!(rt; is_lf(&rt, rt.alloc(), text, want), "{text:?}");
    }
    for &(parts, want) in RULES {
        assert!(rt; is_ruled(&rt, rt.alloc(), parts, want), "{want:?}");
    }
}
