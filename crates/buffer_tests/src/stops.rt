//! Calls that stop where an allocation fails, and are called again: what comes of them is what comes of calls that never stop.
//!
//! Where no allocation fails, each call is called once. `bench/refused_calls.sh` refuses each allocation in turn.
use crate::alike::{apply_alike, show_alike, wait_alike};
use crate::cases::{AMPLE, open};
use crate::fault_rows::Given;
use crate::open_rows::{EDIT, TEXT, UNDO};
use crate::operations::{Parts, Stamp, operation, stamp};
use crate::steps::{Step, comes, keeps, settle};
use Parts::{Counts, Pieces};
use Step::{Edit, Take};
use Took::{Applied, Repeat, Waits};
use lamport_clock::Lamport;
use op_model::OpFault::{Conflict, Forked, PastEnd};
use op_model::Operation;
use std::alloc::Global;
use sum_tree::OutOfMemory;
use text_buffer::{Buffer, Endings, OpFault, OpenFault, Refused, Took};

// How often a call is called at most.
const TRIES: u32 = 4;

// A text, and what is taken and made over it; the text then, how many operations wait, and which were refused.
struct Mix {
    base: &'static str,
    steps: &'static [Step],
    text: &'static str,
    waits: u64,
    refused: &'static [Refused],
}

const BASE: &[Stamp] = &[(1, 0)];

const BY_ONE: &[Stamp] = &[(1, 0), (2, 1)];

const BY_TWO: &[Stamp] = &[(1, 0), (3, 2)];

const NONE: Parts = Pieces(&[]);

const FIRST_REFUSED: Lamport = Lamport {
    value: 3,
    replica: 2,
};

const FORK: Lamport = Lamport {
    value: 4,
    replica: 7,
};

const OWN: Lamport = Lamport {
    value: 4,
    replica: 9,
};

const LATE_FORK: Lamport = Lamport {
    value: 5,
    replica: 6,
};

const MIXES: &[Mix] = &[
    // What waits meets a fault.
    Mix {
        base: "ab",
        steps: &[
            Take(
                (3, 2),
                &[(1, 0), (2, 3)],
                Pieces(&[(9, 9, "q")]),
                Ok(Waits {
                    replica: 3,
                    value: 2,
                }),
            ),
            Take((2, 3), BASE, NONE, Ok(Applied(1))),
        ],
        text: "ab",
        waits: 0,
        refused: &[Refused {
            stamp: FIRST_REFUSED,
            fault: PastEnd(0, 2),
        }],
    },
    // The buffer makes an operation that equals one that waits, which is dropped, and another one of the stamp of one that waits; of
    // two of one author the second has not seen the first.
    Mix {
        base: "ab",
        steps: &[
            Take(
                (3, 9),
                &[(1, 0), (2, 9)],
                NONE,
                Ok(Waits {
                    replica: 9,
                    value: 2,
                }),
            ),
            Take((4, 9), BY_ONE, NONE, MISSES_ONE),
            Take((3, 7), BY_ONE, Pieces(&[(0, 0, "q")]), MISSES_ONE),
            Take((4, 7), BY_ONE, NONE, MISSES_ONE),
            Take(
                (5, 5),
                &[(1, 0), (2, 1), (3, 7)],
                Pieces(&[(1, 2, "é")]),
                MISSES_ONE,
            ),
            Edit(&[], Ok(2)),
            Edit(&[], Ok(3)),
            Edit(&[], Ok(4)),
            Take((2, 1), BASE, Pieces(&[(0, 0, "x")]), Ok(Applied(3))),
        ],
        text: "qéab",
        waits: 0,
        refused: &[
            Refused {
                stamp: FORK,
                fault: Forked(3),
            },
            Refused {
                stamp: OWN,
                fault: Conflict(OWN),
            },
        ],
    },
    // Settling twice: an edit and an undo of what it has seen; then an edit and one that is forked. One waits to the end.
    Mix {
        base: "abc",
        steps: &[
            Take(
                (8, 5),
                &[(1, 0), (7, 5)],
                NONE,
                Ok(Waits {
                    replica: 5,
                    value: 7,
                }),
            ),
            Take(
                (6, 4),
                &[(1, 0), (2, 1), (5, 3)],
                Counts(&[((2, 1), 1)]),
                MISSES_ONE,
            ),
            Take((5, 3), BY_ONE, Pieces(&[(0, 1, "")]), MISSES_ONE),
            Take((4, 6), BY_TWO, Pieces(&[(3, 3, "t")]), MISSES_TWO),
            Take((4, 6), BY_TWO, Pieces(&[(3, 3, "t")]), Ok(Repeat)),
            Take((5, 6), BY_TWO, NONE, MISSES_TWO),
            Take((2, 1), BASE, Pieces(&[(0, 0, "xy")]), Ok(Applied(3))),
            Take((3, 2), BASE, Pieces(&[(1, 2, "")]), Ok(Applied(2))),
        ],
        text: "act",
        waits: 1,
        refused: &[Refused {
            stamp: LATE_FORK,
            fault: Forked(4),
        }],
    },
];

const MISSES_ONE: Result<Took, OpFault> = Ok(Waits {
    replica: 1,
    value: 2,
});

const MISSES_TWO: Result<Took, OpFault> = Ok(Waits {
    replica: 2,
    value: 3,
});

// Settles until no allocation fails. Returns whether that came.
fn settles(buffer: &mut Buffer) -> bool {
    for _ in 0..TRIES {
        if settle(buffer).is_ok() {
            return true;
        }
    }
    false
}

// Whether a step comes out as it should, or stopped once its operation was applied; and whether the buffer settles then.
fn comes_or_stops(alloc: Global, buffer: &mut Buffer, step: Step) -> bool {
    let right = comes(alloc, buffer, step).unwrap_or(false);
    match step {
        Take(at, _, _, _) => (right || buffer.version().sees(stamp(at))) && settles(buffer),
        _ => right,
    }
}

fn comes_at_last(alloc: Global, buffer: &mut Buffer, step: Step) -> bool {
    for _ in 0..TRIES {
        if comes_or_stops(alloc, buffer, step) {
            return true;
        }
    }
    false
}

// A buffer and its twin.
#[derive(Drop)]
struct Pair {
    buffer: Buffer,
    twin: Buffer,
}

// Whether each step comes out as it should at a buffer and its twin.
fn play(alloc: Global, pair: &mut Pair, steps: &[Step]) -> bool {
    let mut right = true;
    for &step in steps {
        right = comes_at_last(alloc, &mut pair.buffer, step) && right;
        right = comes_at_last(alloc, &mut pair.twin, step) && right;
    }
    right
}

fn count_of(refused: &[Refused], stamp: Lamport) -> usize {
    let mut count = 0usize;
    for one in refused {
        if one.stamp == stamp {
            count = count.saturating_add(1);
        }
    }
    count
}

// Whether the same stamps are refused as often.
fn refuse_alike(a: &[Refused], b: &[Refused]) -> bool {
    let mut right = a.len() == b.len();
    for one in a {
        right = right && count_of(a, one.stamp) == count_of(b, one.stamp);
    }
    right
}

// Whether two buffers have applied the same in the same order, keep the same waiting and show one text.
fn end_alike(a: &Buffer, b: &Buffer) -> Result<bool, OutOfMemory> {
    let shown = show_alike(a, b)?;
    Ok(
        shown
            & apply_alike(a.applied(), b.applied())
            & wait_alike(a.deferred(), b.deferred())
            & refuse_alike(a.refused(), b.refused()),
    )
}

// Whether they end alike and with the text of a mix, and one of them, which never stopped, keeps what it says.
fn is_right(a: &Buffer, b: &Buffer, mix: &Mix) -> Result<bool, OutOfMemory> {
    let kept = keeps(a, mix.waits, mix.refused) | keeps(b, mix.waits, mix.refused);
    Ok(a.text()?.as_str() == mix.text && end_alike(a, b)? && kept)
}

// Two buffers of replica 9 over one text.
fn open_two(alloc: Global, base: &str) -> Result<Pair, OutOfMemory> {
    let buffer = open(alloc, base, AMPLE)?;
    let twin = open(alloc, base, AMPLE)?;
    Ok(Pair { buffer, twin })
}

fn holds(alloc: Global, mix: &Mix) -> Result<bool, OutOfMemory> {
    let mut pair = open_two(alloc, mix.base)?;
    let right = play(alloc, &mut pair, mix.steps);
    Ok(is_right(&pair.buffer, &pair.twin, mix)? && right)
}

// The same, once more where no buffer can be made or asked. Where none ever can, nothing is compared.
fn holds_at_last(alloc: Global, mix: &Mix) -> bool {
    for _ in 0..TRIES {
        if let Ok(right) = holds(alloc, mix) {
            return right;
        }
    }
    true
}

#[test]
fn stopped_calls_end_as_others(rt: HostRuntime) {
    for (i, mix) in MIXES.iter().enumerate() {
        assert!(rt; holds_at_last(rt.alloc(), mix), "mix {i}");
    }
}

// ---- Opening a list.

const LIST: &[Given] = &[TEXT, EDIT, UNDO];

fn list(alloc: Global) -> Result<Vec<Operation>, OutOfMemory> {
    let mut ops = Vec::new(alloc);
    for &(at, seen, parts) in LIST {
        ops.push(operation(alloc, at, seen, parts)?)?;
    }
    Ok(ops)
}

// Whether a list opens with its text.
fn opens(alloc: Global) -> Result<bool, OutOfMemory> {
    match Buffer::open(alloc, 9, list(alloc)?, AMPLE, Endings::Lf) {
        Ok(buffer) => Ok(buffer.text()?.as_str() == "aé" && keeps(&buffer, 0, &[])),
        Err(OpenFault::OutOfMemory) => Err(OutOfMemory),
        Err(_) => Ok(false),
    }
}

// The same, once more where an allocation failed.
fn opens_at_last(alloc: Global) -> bool {
    for _ in 0..TRIES {
        if let Ok(right) = opens(alloc) {
            return right;
        }
    }
    true
}

#[test]
fn a_list_that_was_stopped_opens(rt: HostRuntime) {
    assert!(rt; opens_at_last(rt.alloc()));
}
