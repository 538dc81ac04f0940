//! Operations of three replicas, each with a part turned by chance, at two buffers that take them in opposite orders.
use crate::alike::{look_alike, show_alike};
use crate::cases::{AMPLE, opened};
use crate::groups::{copies, drawn_operations, next};
use crate::operations::{edit_of, piece, undo_of};
use crate::steps::take;
use applied_ops::Applied;
use lamport_clock::{Lamport, Version};
use op_model::{Operation, Piece, UndoCount};
use std::alloc::Global;
use std::process::Abort;
use sum_tree::SumTree;
use text_buffer::{Buffer, OpFault, Took};

// Some 50 operations are drawn of each.
const SEEDS: u64 = 10;

// How often the operations of a seed are turned, each time by other numbers.
const TURNS: u64 = 4;

// How often all are taken again, until no answer changes anything.
const ROUNDS: u32 = 12;

// One more or one less.
fn beside(value: u32, x: u64) -> u32 {
    if x % 2 == 0 {
        value.wrapping_add(1)
    } else {
        value.wrapping_sub(1)
    }
}

fn turned_stamp(t: Lamport, x: u64) -> Lamport {
    if x % 3 == 0 {
        Lamport {
            value: t.value,
            replica: (t.replica % 4).wrapping_add(1),
        }
    } else {
        Lamport {
            value: beside(t.value, x >> 8),
            replica: t.replica,
        }
    }
}

// The version, or the one with one entry turned.
fn turned_version(rt: &impl Abort, alloc: Global, version: &Version, x: Option<u64>) -> Version {
    let Some(x) = x else {
        return version.copy(alloc).expect(rt, "memory");
    };
    let at = x % version.len().max(1);
    let mut entries = Vec::new(alloc);
    for (i, &(replica, value)) in version.as_slice().iter().enumerate() {
        let is_turned = i as u64 == at;
        entries
            .push((
                replica,
                if is_turned {
                    beside(value, x >> 8)
                } else {
                    value
                },
            ))
            .expect(rt, "memory");
    }
    Version::from_entries(alloc, entries.as_slice()).expect(rt, "memory")
}

// The piece, or the one with its text or its range turned.
fn turned_piece(rt: &impl Abort, alloc: Global, whole: &Piece, x: Option<u64>) -> Piece {
    let text = whole.text.as_str();
    let (start, end, text) = match x {
        None => (whole.start, whole.end, text),
        Some(x) => match x % 4 {
            0 => (whole.start, whole.end, "é"),
            1 => (whole.start.wrapping_add(1), whole.end, text),
            2 => (whole.start, whole.end.wrapping_add(1), text),
            _ => (whole.start, whole.end.wrapping_sub(1), text),
        },
    };
    piece(alloc, start, end, text).expect(rt, "memory")
}

fn turned_pieces(rt: &impl Abort, alloc: Global, pieces: &[Piece], x: Option<u64>) -> Vec<Piece> {
    let mut turned = Vec::new(alloc);
    for piece in pieces {
        turned
            .push(turned_piece(rt, alloc, piece, x))
            .expect(rt, "memory");
    }
    turned
}

fn turned_counts(
    rt: &impl Abort,
    alloc: Global,
    counts: &[UndoCount],
    x: Option<u64>,
) -> Vec<UndoCount> {
    let mut turned = Vec::new(alloc);
    for &UndoCount { edit, count } in counts {
        let count = match x {
            Some(x) => beside(count, x),
            None => count,
        };
        turned.push(UndoCount { edit, count }).expect(rt, "memory");
    }
    turned
}

// The operation of this stamp and version, with its parts or these turned.
fn with_parts(
    rt: &impl Abort,
    alloc: Global,
    op: &Operation,
    stamp: Lamport,
    version: Version,
    x: Option<u64>,
) -> Operation {
    match op {
        Operation::Edit(edit) => {
            let pieces = turned_pieces(rt, alloc, edit.pieces.as_slice(), x);
            edit_of(stamp, version, Ok(pieces)).expect(rt, "memory")
        }
        Operation::Undo(undo) => {
            let counts = turned_counts(rt, alloc, undo.counts.as_slice(), x);
            undo_of(stamp, version, Ok(counts)).expect(rt, "memory")
        }
    }
}

// The operation with a part turned: its stamp, an entry of its version, or its pieces or counts.
fn turned(rt: &impl Abort, alloc: Global, op: &Operation, x: u64) -> Operation {
    let (seen, parts) = match (x >> 40) % 8 {
        0 => (None, None),
        1 => (Some(x >> 20), None),
        _ => (None, Some(x >> 20)),
    };
    let stamp = if (x >> 40) % 8 == 0 {
        turned_stamp(op.stamp(), x >> 20)
    } else {
        op.stamp()
    };
    let version = turned_version(rt, alloc, op.version(), seen);
    with_parts(rt, alloc, op, stamp, version, parts)
}

// Adds of each operation the turned one and the one as it was made, of which either may come first.
fn push_turned(
    rt: &impl Abort,
    alloc: Global,
    all: &mut Vec<Operation>,
    ops: &[Operation],
    seed: u64,
) {
    let mut x = seed;
    for op in ops {
        x = next(x);
        let is_last = x >> 63 == 1;
        if !is_last {
            all.push(turned(rt, alloc, op, x)).expect(rt, "memory");
        }
        all.push(op.copy(alloc).expect(rt, "memory"))
            .expect(rt, "memory");
        if is_last {
            all.push(turned(rt, alloc, op, x)).expect(rt, "memory");
        }
    }
}

// Whether an operation is applied, or begins to wait.
fn changes(buffer: &mut Buffer, op: Operation) -> bool {
    matches!(take(buffer, op), Ok(Took::Applied(_) | Took::Waits { .. }))
}

// Whether any of these changes the buffer, which takes them from the first to the last, or from the last to the first.
fn any_changes(
    rt: &impl Abort,
    alloc: Global,
    buffer: &mut Buffer,
    ops: &[Operation],
    is_back: bool,
) -> bool {
    let mut any = false;
    for i in 0..ops.len() {
        let last = ops.len().saturating_sub(i).saturating_sub(1);
        if let Some(op) = ops.get(if is_back { last } else { i }) {
            any = changes(buffer, op.copy(alloc).expect(rt, "memory")) || any;
        }
    }
    any
}

// Whether after some rounds each operation is applied, waits or is refused, for good.
fn comes_to_rest(
    rt: &impl Abort,
    alloc: Global,
    buffer: &mut Buffer,
    ops: &[Operation],
    is_back: bool,
) -> bool {
    for _ in 0..ROUNDS {
        if !any_changes(rt, alloc, buffer, ops, is_back) {
            return true;
        }
    }
    false
}

fn has(applied: &SumTree<Applied>, op: &Operation) -> bool {
    for i in 0..applied.len() {
        match applied.get(i) {
            Some(x) if x.op().same(op) => return true,
            _ => {}
        }
    }
    false
}

// Whether the other buffer has applied, too, what one has applied and a version has seen.
fn has_seen(a: &SumTree<Applied>, b: &SumTree<Applied>, version: &Version) -> bool {
    for i in 0..a.len() {
        match a.get(i) {
            Some(x) if !version.sees(x.op().stamp()) || has(b, x.op()) => {}
            _ => return false,
        }
    }
    true
}

// Whether of what a version has seen both buffers have applied the same.
fn see_alike(a: &Buffer, b: &Buffer, version: &Version) -> bool {
    has_seen(a.applied(), b.applied(), version) && has_seen(b.applied(), a.applied(), version)
}

// Whether another operation of the stamp or the author came first.
fn is_late(buffer: &mut Buffer, op: Operation) -> bool {
    matches!(
        take(buffer, op),
        Err(OpFault::Conflict(_) | OpFault::Forked(_))
    )
}

// Whether both buffers have applied an operation or neither has, unless another one with its stamp or before it came first.
fn ends_alike(
    rt: &impl Abort,
    alloc: Global,
    a: &mut Buffer,
    b: &mut Buffer,
    op: &Operation,
) -> bool {
    if has(a.applied(), op) == has(b.applied(), op) || !see_alike(a, b, op.version()) {
        return true;
    }
    is_late(a, op.copy(alloc).expect(rt, "memory"))
        || is_late(b, op.copy(alloc).expect(rt, "memory"))
}

// Whether two buffers have applied the same operations, in whatever order, show one text, have the same edits since the
// base and place anchors alike.
fn agree(rt: &impl Abort, alloc: Global, a: &Buffer, b: &Buffer) -> bool {
    let alike = see_alike(a, b, a.version()) & (a.applied().len() == b.applied().len());
    let shown = show_alike(a, b).expect(rt, "memory");
    look_alike(rt, alloc, a, b) & alike & shown
}

// Whether a buffer that takes these, the last first, ends as another one.
fn comes_to(
    rt: &impl Abort,
    alloc: Global,
    buffer: &mut Buffer,
    ops: &[Operation],
    other: &Buffer,
) -> bool {
    let rests = comes_to_rest(rt, alloc, buffer, ops, true);
    agree(rt, alloc, other, buffer) && rests
}

// Whether a new buffer that takes these, the last first, ends as another one.
fn is_repeated(rt: &impl Abort, alloc: Global, buffer: &Buffer, ops: &[Operation]) -> bool {
    comes_to(rt, alloc, &mut opened(rt, alloc, "", AMPLE), ops, buffer)
}

// Whether a new buffer that takes what a buffer has applied ends as that one.
fn repeats(rt: &impl Abort, alloc: Global, buffer: &Buffer) -> bool {
    is_repeated(rt, alloc, buffer, copies(rt, alloc, buffer).as_slice())
}

// Whether two buffers that take these in opposite orders come to rest, each with what a buffer shows that takes what it applied.
fn ends(rt: &impl Abort, alloc: Global, a: &mut Buffer, b: &mut Buffer, all: &[Operation]) -> bool {
    let mut right = comes_to_rest(rt, alloc, a, all, false);
    right = comes_to_rest(rt, alloc, b, all, true) && right;
    for op in all {
        right = ends_alike(rt, alloc, a, b, op) && right;
    }
    right = repeats(rt, alloc, a) && right;
    repeats(rt, alloc, b) && right
}

fn ends_beside(rt: &impl Abort, alloc: Global, a: &mut Buffer, all: &[Operation]) -> bool {
    ends(rt, alloc, a, &mut opened(rt, alloc, "", AMPLE), all)
}

fn both_end(rt: &impl Abort, alloc: Global, all: &[Operation]) -> bool {
    ends_beside(rt, alloc, &mut opened(rt, alloc, "", AMPLE), all)
}

fn ends_turned(rt: &impl Abort, alloc: Global, ops: &[Operation], x: u64) -> bool {
    let mut all = Vec::new(alloc);
    push_turned(rt, alloc, &mut all, ops, x);
    both_end(rt, alloc, all.as_slice())
}

// How often the operations of a seed are turned until these do not end as they should.
fn count_right(rt: &impl Abort, alloc: Global, seed: u64) -> u64 {
    let ops = drawn_operations(rt, alloc, seed);
    for turn in 0..TURNS {
        let x = seed.wrapping_mul(TURNS).wrapping_add(turn);
        if !ends_turned(rt, alloc, ops.as_slice(), x) {
            return turn;
        }
    }
    TURNS
}

#[test]
fn turned_operations_come_to_rest(rt: HostRuntime) {
    for seed in 0..SEEDS {
        let right = count_right(&rt, rt.alloc(), seed);
        assert!(rt; right == TURNS, "seed {seed}, turn {right}");
    }
}
