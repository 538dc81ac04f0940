//! Buffers that are opened with a list of operations: the first fault of a list, and what an opened buffer answers beside the one whose
//! operations it has.
ghost use Rattle.std.specs.Prelude.{◌≤◌};

use crate::alike::answer_alike;
use crate::cases::{AMPLE, limits_of};
use crate::fault_rows::Given;
use crate::groups::{copies, drawn_change, drawn_edit, next};
use crate::open_rows::{EDIT, ROWS, Row, TEXT, UNDO, WORDS};
use crate::operations::Parts::Pieces;
use crate::operations::{operation, stamp};
use crate::rows::assert_rows;
use crate::steps::Step::{self, Forget, Keep, Settle, Take};
use crate::steps::{count_right, edit, take};
use Took::{Applied, Waits};
use lamport_clock::Lamport;
use op_model::Operation;
use std::alloc::Global;
use std::process::Abort;
use sum_tree::OutOfMemory;
use text_buffer::{Bias, Buffer, Endings, Limits, OpenFault, Snapshot, Took};

fn operations(rt: &impl Abort, alloc: Global, list: &[Given]) -> Vec<Operation> {
    let mut ops = Vec::new(alloc);
    for &(at, seen, parts) in list {
        ops.push(operation(alloc, at, seen, parts).expect(rt, "memory"))
            .expect(rt, "memory");
    }
    ops
}

// The fault of a list, if it has one.
fn fault_of(
    alloc: Global,
    ops: Vec<Operation>,
    limits: Limits,
    endings: Endings,
) -> Option<OpenFault> {
    Buffer::open(alloc, 9, ops, limits_of(limits), endings).err()
}

fn fails(rt: &impl Abort, alloc: Global, row: &Row) -> bool {
    let &(limits, endings, list, fault) = row;
    fault_of(alloc, operations(rt, alloc, list), limits, endings) == Some(fault)
}

#[test]
fn a_list_fails_by_its_first_fault(rt: HostRuntime) {
    assert_rows(&rt, rt.alloc(), ROWS, fails);
}

fn has_words(rt: &impl Abort, alloc: Global, row: &(OpenFault, &str)) -> bool {
    let (fault, words) = row;
    format!(in alloc; "{fault}").expect(rt, "memory").as_str() == *words
}

#[test]
fn faults_name_the_operation_and_the_cause(rt: HostRuntime) {
    assert_rows(&rt, rt.alloc(), WORDS, has_words);
}

// ---- Saving.

/// What is kept of a snapshot: copies of its applied operations, which share their texts.
fn saved(alloc: Global, snapshot: &Snapshot) -> Result<Vec<Operation>, OutOfMemory> {
    let mut ops = Vec::new(alloc);
    for i in 0..snapshot.applied().len() {
        if let Some(applied) = snapshot.applied().get(i) {
            ops.push(applied.op().copy(alloc)?)?;
        }
    }
    Ok(ops)
}

/// The buffer of a replica that has applied what a snapshot has.
fn reopened(rt: &impl Abort, alloc: Global, replica: u16, snapshot: &Snapshot) -> Buffer
    requires least { 1 ≤ replica }
    requires greatest { replica ≤ 1023 }
{
    let ops = saved(alloc, snapshot).expect(rt, "memory");
    Buffer::open(alloc, replica, ops, AMPLE, Endings::AsIs).expect(rt, "a list that opens")
}

// A snapshot in which an edit has put a letter between two.
fn snapshot_of_edit(rt: &impl Abort, alloc: Global) -> Snapshot {
    let mut author = Buffer::new(alloc, 1, "ac", AMPLE).expect(rt, "a buffer");
    let _made = edit(alloc, &mut author, &[(1, 1, "b")]).expect(rt, "memory");
    author.snapshot().expect(rt, "memory")
}

// Whether a buffer shows a text, and the anchor at 2 of a snapshot is at 2 in it.
fn keeps(rt: &impl Abort, snapshot: &Snapshot, buffer: &Buffer, text: &str) -> bool {
    let now = buffer.snapshot().expect(rt, "memory");
    let same = match snapshot.anchor(2, Bias::Right) {
        Ok(anchor) => now.resolve(&anchor) == Ok(2),
        Err(_) => false,
    };
    buffer.text().expect(rt, "memory").as_str() == text && same
}

// Whether an opened buffer goes on: the edit of the first author can be undone in it.
fn goes_on(rt: &impl Abort, buffer: &mut Buffer) -> bool {
    let edit = stamp((2, 1));
    buffer.undo(&[edit]).is_ok() && buffer.text().expect(rt, "memory").as_str() == "ac"
}

// Whether a replica opens what a snapshot has applied, and goes on.
fn opens(rt: &impl Abort, alloc: Global, replica: u16, snapshot: &Snapshot) -> bool
    requires least { 1 ≤ replica }
    requires greatest { replica ≤ 1023 }
{
    let mut buffer = reopened(rt, alloc, replica, snapshot);
    keeps(rt, snapshot, &buffer, "abc") && goes_on(rt, &mut buffer)
}

#[test]
fn what_is_saved_opens_in_each_replica(rt: HostRuntime) {
    let snapshot = snapshot_of_edit(&rt, rt.alloc());
    assert!(rt; opens(&rt, rt.alloc(), 1, &snapshot), "its own");
    assert!(rt; opens(&rt, rt.alloc(), 7, &snapshot), "another one");
}

// ---- Drawn histories.

const SEEDS: u64 = 300;

const ACTS: u32 = 24;

// Replica 1, 2 or 3, by its place.
fn id_at(i: usize) -> u16
    ensures least { 1 ≤ result }
    ensures greatest { result ≤ 1023 }
{
    match i {
        0 => 1,
        1 => 2,
        _ => 3,
    }
}

fn add_buffer(rt: &impl Abort, alloc: Global, group: &mut Vec<Buffer>, i: usize) {
    let buffer = Buffer::new(alloc, id_at(i), "aé\n", AMPLE).expect(rt, "a buffer");
    group.push(buffer).expect(rt, "memory");
}

// What a buffer has applied beside the base, by its place.
fn copies_at(rt: &impl Abort, alloc: Global, group: &[Buffer], i: usize) -> Vec<Operation> {
    match group.get(i) {
        Some(buffer) => copies(rt, alloc, buffer),
        None => Vec::new(alloc),
    }
}

fn take_each(buffer: &mut Buffer, ops: Vec<Operation>) {
    for op in ops {
        let _answer = take(buffer, op);
    }
}

// A drawn edit or undo, which may be refused.
fn act(alloc: Global, buffer: &mut Buffer, x: u64) {
    match ((x >> 14) % 4, drawn_edit(buffer, x)) {
        (0, Some(edit)) => {
            let _undone = buffer.undo(&[stamp(edit)]);
        }
        _ => {
            let change = drawn_change(x, buffer.summary().len);
            let _made = edit(alloc, buffer, &[change]);
        }
    }
}

// A drawn act of one of three buffers, or its taking all that another one has.
fn draw(rt: &impl Abort, alloc: Global, group: &mut [Buffer], x: u64) {
    let i = ((x >> 10) % 3) as usize;
    let taken = copies_at(rt, alloc, group, i.wrapping_add(1) % 3);
    if let Some(buffer) = group.get_mut(i) {
        if (x >> 60) % 4 == 0 {
            take_each(buffer, taken);
        } else {
            act(alloc, buffer, x);
        }
    }
}

fn drawn_group(rt: &impl Abort, alloc: Global, seed: u64) -> Vec<Buffer> {
    let mut group = Vec::new(alloc);
    for i in 0..3 {
        add_buffer(rt, alloc, &mut group, i);
    }
    let mut x = seed;
    for _ in 0..ACTS {
        x = next(x);
        draw(rt, alloc, group.as_mut_slice(), x);
    }
    group
}

fn newest(buffer: &Buffer) -> Option<Lamport> {
    let applied = buffer.applied();
    match applied.get(applied.len().saturating_sub(1)) {
        Some(last) => Some(last.op().stamp()),
        None => None,
    }
}

fn undoes(buffer: &mut Buffer, edits: &[Lamport], made: &Operation) -> bool {
    match buffer.undo(edits) {
        Ok(op) => op.same(made),
        Err(_) => false,
    }
}

// Whether the undo of the newest edit is the same operation.
fn undo_alike(buffer: &mut Buffer, twin: &mut Buffer) -> bool {
    match newest(buffer) {
        Some(edit) => match buffer.undo(&[edit]) {
            Ok(made) => undoes(twin, &[edit], &made),
            Err(_) => false,
        },
        None => false,
    }
}

// Whether a buffer and one that is opened with what it has applied answer alike, and make the same edit and the same undo.
fn opens_alike(rt: &impl Abort, alloc: Global, buffer: &mut Buffer, replica: u16) -> bool
    requires least { 1 ≤ replica }
    requires greatest { replica ≤ 1023 }
{
    let snapshot = buffer.snapshot().expect(rt, "memory");
    let mut twin = reopened(rt, alloc, replica, &snapshot);
    answer_alike(rt, alloc, buffer, &mut twin) && undo_alike(buffer, &mut twin)
}

// Whether all three of a drawn history do.
fn all_open_alike(rt: &impl Abort, alloc: Global, group: &mut [Buffer]) -> bool {
    let mut right = true;
    for i in 0..3 {
        if let Some(buffer) = group.get_mut(i) {
            right = opens_alike(rt, alloc, buffer, id_at(i)) && right;
        }
    }
    right
}

fn holds_drawn(rt: &impl Abort, alloc: Global, seed: u64) -> bool {
    all_open_alike(rt, alloc, drawn_group(rt, alloc, seed).as_mut_slice())
}

#[test]
fn drawn_histories_open_alike(rt: HostRuntime) {
    for seed in 0..SEEDS {
        assert!(rt; holds_drawn(&rt, rt.alloc(), seed), "seed {seed}");
    }
}

// ---- After opening.

const LIST: &[Given] = &[TEXT, EDIT, UNDO];

const LATE: Step = Take(
    (6, 3),
    &[(1, 0), (3, 1), (5, 2)],
    Pieces(&[(0, 0, "z")]),
    Ok(Waits {
        replica: 2,
        value: 5,
    }),
);

const CAUSE: Step = Take(
    (5, 2),
    &[(1, 0), (3, 1)],
    Pieces(&[(4, 4, "y")]),
    Ok(Applied(2)),
);

// An operation waits, is forgotten and waits again until its cause comes.
const AFTER: &[(Step, &str)] = &[
    (Keep(0, &[]), "aé"),
    (LATE, "aé"),
    (Forget((6, 3), true), "aé"),
    (Settle(0), "aé"),
    (LATE, "aé"),
    (CAUSE, "zaéy"),
    (Keep(0, &[]), "zaéy"),
    (Step::Edit(&[(0, 1, "")], Ok(7)), "aéy"),
    (Step::Undo(&[SECOND], Ok(8)), "aXéy"),
];

const SECOND: Lamport = Lamport {
    value: 2,
    replica: 1,
};

fn count_after(rt: &impl Abort, alloc: Global) -> usize {
    let ops = operations(rt, alloc, LIST);
    let buffer = Buffer::open(alloc, 9, ops, AMPLE, Endings::AsIs).expect(rt, "a list that opens");
    count_right(rt, alloc, buffer, AFTER)
}

#[test]
fn an_opened_buffer_goes_on(rt: HostRuntime) {
    let right = count_after(&rt, rt.alloc());
    assert!(rt; right == AFTER.len(), "row {right}");
}
