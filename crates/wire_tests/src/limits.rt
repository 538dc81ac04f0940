//! Operations at the limit and past it.
use crate::cases::{comes_back, counts, deletions, letters};
use Number::{Counts, Letters, Pieces};
use op_model::Operation;
use op_wire::{EncodeFault, OutOfMemory, encode};
use std::alloc::Global;

// What an operation has a number of.
#[derive(Clone, Copy)]
enum Number {
    Pieces,
    Letters,
    Counts,
}

// The name of a row, a number, and the size of the record, or the number that is refused.
type Row = (&'static str, Number, usize, Result<usize, u64>);

const ROWS: &[Row] = &[
    ("most pieces", Pieces, 65_536, Ok(15 + 20 * 65_536)),
    ("a piece more", Pieces, 65_537, Err(65_537)),
    ("most letters", Letters, 65_535, Ok(15 + 2 * 20 + 65_536)),
    ("a letter more", Letters, 65_536, Err(65_537)),
    ("a text too long", Letters, 70_000, Err(70_000)),
    ("most counts", Counts, 65_536, Ok(15 + 10 * 65_536)),
    ("a count more", Counts, 65_537, Err(65_537)),
];

fn operation_of(alloc: Global, number: Number, amount: usize) -> Result<Operation, OutOfMemory> {
    match number {
        Pieces => deletions(alloc, amount),
        Letters => letters(alloc, amount),
        Counts => counts(alloc, amount),
    }
}

// Whether an operation has a record of that size, which is read as it, or is refused for that number.
fn has_record(alloc: Global, op: &Operation, want: Result<usize, u64>) -> bool {
    match (encode(alloc, op), want) {
        (Ok(record), Ok(size)) => record.len() == size
            && size > 0
            && comes_back(alloc, &record, size),
        (Err(fault), Err(number)) => fault == EncodeFault::Long(number),
        _ => false,
    }
}

fn is_so(alloc: Global, &(_, number, amount, want): &Row) -> bool {
    match operation_of(alloc, number, amount) {
        Ok(op) => has_record(alloc, &op, want),
        Err(_) => false,
    }
}

#[test]
fn numbers_have_a_limit(rt: HostRuntime) {
    for row in ROWS {
        assert!(rt; is_so(rt.alloc(), row), "{}", row.0);
    }
}
