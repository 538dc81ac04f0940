//! Three replicas that work on one text: by rows, and by drawn edits, undos and exchanges.
ghost use Rattle.std.specs.Prelude.{◌≤◌};

use crate::operations::{Change, Stamp, stamps};
use crate::replica::Replica;
use crate::steps::{edit, take, undo};
use lamport_clock::Lamport;
use op_model::Operation;
use std::alloc::Global;
use std::process::Abort;
use text_buffer::{Buffer, Limits, NewFault, Took};

// What a replica does, by its place: an edit, an undo of edits, or taking all that another one has.
#[derive(Clone, Copy)]
enum Act<'a> {
    Edit(usize, &'a [Change]),
    Undo(usize, &'a [Stamp]),
    Take(usize, usize),
}

// Replica 1, at place 0, begins with a text, edit 2.1, which replica 2 takes; then the acts, and the text of both.
type Row = (&'static str, &'static [Act<'static>], [&'static str; 2]);

const ROWS: &[Row] = &[
    // Equal values.
    (
        "ab",
        &[
            Act::Edit(0, &[(1, 1, "X")]),
            Act::Edit(1, &[(1, 1, "Y")]),
            Act::Take(0, 1),
            Act::Take(1, 0),
        ],
        ["aYXb", "aYXb"],
    ),
    // Among hidden bytes.
    (
        "abc",
        &[
            Act::Edit(0, &[(1, 2, "")]),
            Act::Edit(0, &[(1, 1, "Q")]),
            Act::Take(1, 0),
            Act::Undo(0, &[(3, 1)]),
        ],
        ["abQc", "aQc"],
    ),
    // Two pieces at one place.
    (
        "ab",
        &[Act::Edit(0, &[(1, 1, "X"), (1, 2, "Y")])],
        ["aXY", "ab"],
    ),
    // Of two undos the greatest count.
    (
        "ab",
        &[
            Act::Edit(0, &[(1, 1, "X")]),
            Act::Take(1, 0),
            Act::Undo(0, &[(3, 1)]),
            Act::Undo(1, &[(3, 1)]),
            Act::Take(0, 1),
            Act::Take(1, 0),
            Act::Undo(0, &[(3, 1)]),
        ],
        ["aXb", "ab"],
    ),
    // A deletion over hidden bytes.
    (
        "abc",
        &[
            Act::Edit(0, &[(1, 2, "")]),
            Act::Edit(0, &[(0, 2, "")]),
            Act::Undo(0, &[(3, 1)]),
        ],
        ["b", "abc"],
    ),
    // A late branch.
    (
        "ab",
        &[
            Act::Edit(0, &[(1, 1, "P")]),
            Act::Edit(0, &[(2, 2, "Q")]),
            Act::Edit(1, &[(1, 1, "R")]),
            Act::Take(1, 0),
            Act::Take(0, 1),
        ],
        ["aRPQb", "aRPQb"],
    ),
    // A replacement that was written into, undone.
    (
        "abcd",
        &[
            Act::Edit(0, &[(1, 3, "X")]),
            Act::Edit(1, &[(2, 2, "Y")]),
            Act::Take(1, 0),
            Act::Take(0, 1),
            Act::Undo(0, &[(3, 1)]),
            Act::Take(1, 0),
        ],
        ["abYcd", "abYcd"],
    ),
    // One byte deleted by both: one undo shows nothing, that of both does; one without edits changes nothing.
    (
        "abc",
        &[
            Act::Edit(0, &[(1, 2, "")]),
            Act::Edit(1, &[(1, 2, "")]),
            Act::Take(0, 1),
            Act::Take(1, 0),
            Act::Undo(1, &[(3, 1)]),
            Act::Undo(0, &[(3, 1), (3, 2)]),
            Act::Undo(0, &[]),
        ],
        ["abc", "ac"],
    ),
    // The first text undone and done again, the base with it.
    (
        "ab",
        &[
            Act::Edit(0, &[(1, 1, "X")]),
            Act::Undo(0, &[(2, 1), (1, 0)]),
            Act::Take(1, 0),
            Act::Undo(0, &[(1, 0), (2, 1)]),
        ],
        ["aXb", "X"],
    ),
];

fn open(rt: &impl Abort, alloc: Global, replica: u16) -> Replica
    requires least { 1 ≤ replica }
    requires greatest { replica ≤ 1023 }
{
    let buffer = Buffer::new(alloc, replica, "", Limits::MOST).expect(rt, "memory");
    Replica::new(alloc, buffer)
}

fn add(rt: &impl Abort, alloc: Global, group: &mut Vec<Replica>, replica: u16)
    requires least { 1 ≤ replica }
    requires greatest { replica ≤ 1023 }
{
    group.push(open(rt, alloc, replica)).expect(rt, "memory");
}

fn add_three(rt: &impl Abort, alloc: Global, group: &mut Vec<Replica>) {
    add(rt, alloc, group, 1);
    add(rt, alloc, group, 2);
    add(rt, alloc, group, 3);
}

// Replicas 1 to 3, without text.
fn group(rt: &impl Abort, alloc: Global) -> Vec<Replica> {
    let mut group = Vec::new(alloc);
    add_three(rt, alloc, &mut group);
    group
}

fn edits(rt: &impl Abort, alloc: Global, replica: &mut Replica, changes: &[Change]) -> bool {
    let made = edit(alloc, &mut replica.buffer, changes)
        .expect(rt, "memory")
        .is_ok();
    replica.agrees(rt, alloc) && made
}

fn undoes(rt: &impl Abort, alloc: Global, replica: &mut Replica, edits: &[Lamport]) -> bool {
    let made = undo(&mut replica.buffer, edits).is_ok();
    replica.agrees(rt, alloc) && made
}

fn undoes_all(rt: &impl Abort, alloc: Global, replica: &mut Replica, edits: &[Stamp]) -> bool {
    let edits = stamps(alloc, edits).expect(rt, "memory");
    undoes(rt, alloc, replica, edits.as_slice())
}

// Takes an operation that is applied at once.
fn takes(rt: &impl Abort, alloc: Global, replica: &mut Replica, op: Operation) -> bool {
    let taken = take(&mut replica.buffer, op) == Ok(Took::Applied(1));
    replica.agrees(rt, alloc) && taken
}

// The operation of that number that a replica has applied, where another one has not.
fn new_operation(
    rt: &impl Abort,
    alloc: Global,
    from: &Buffer,
    i: u64,
    to: &Buffer,
) -> Option<Operation> {
    match from.applied().get(i) {
        Some(applied) if !to.version().sees(applied.op().stamp()) => {
            Some(applied.op().copy(alloc).expect(rt, "memory"))
        }
        _ => None,
    }
}

fn next_operation(
    rt: &impl Abort,
    alloc: Global,
    group: &[Replica],
    i: usize,
    j: usize,
    at: u64,
) -> Option<Operation> {
    match (group.get(i), group.get(j)) {
        (Some(to), Some(from)) => new_operation(rt, alloc, &from.buffer, at, &to.buffer),
        _ => None,
    }
}

fn count_applied(group: &[Replica], i: usize) -> u64 {
    match group.get(i) {
        Some(replica) => replica.buffer.applied().len(),
        None => 0,
    }
}

// Whether replica i takes all that replica j has and it has not.
fn takes_all(rt: &impl Abort, alloc: Global, group: &mut [Replica], i: usize, j: usize) -> bool {
    let mut right = true;
    for at in 0..count_applied(group, j) {
        if let Some(op) = next_operation(rt, alloc, group, i, j, at) {
            right = takes_at(rt, alloc, group, i, op) && right;
        }
    }
    right
}

fn takes_at(
    rt: &impl Abort,
    alloc: Global,
    group: &mut [Replica],
    i: usize,
    op: Operation,
) -> bool {
    match group.get_mut(i) {
        Some(replica) => takes(rt, alloc, replica, op),
        None => false,
    }
}

// Whether an act meets no fault, and all that it changes agrees with the plain cells.
fn acts(rt: &impl Abort, alloc: Global, group: &mut [Replica], act: Act) -> bool {
    match act {
        Act::Take(i, j) => takes_all(rt, alloc, group, i, j),
        Act::Edit(i, changes) => match group.get_mut(i) {
            Some(replica) => edits(rt, alloc, replica, changes),
            None => false,
        },
        Act::Undo(i, undone) => match group.get_mut(i) {
            Some(replica) => undoes_all(rt, alloc, replica, undone),
            None => false,
        },
    }
}

fn shows(rt: &impl Abort, group: &[Replica], i: usize, text: &str) -> bool {
    match group.get(i) {
        Some(replica) => replica.buffer.text().expect(rt, "memory").as_str() == text,
        None => false,
    }
}

fn plays(rt: &impl Abort, alloc: Global, group: &mut [Replica], row: &Row) -> bool {
    let first = acts(rt, alloc, group, Act::Edit(0, &[(0, 0, row.0)]));
    let mut right = acts(rt, alloc, group, Act::Take(1, 0)) && first;
    for &act in row.1 {
        right = acts(rt, alloc, group, act) && right;
    }
    shows(rt, group, 0, row.2[0]) && shows(rt, group, 1, row.2[1]) && right
}

fn holds(rt: &impl Abort, alloc: Global, row: &Row) -> bool {
    plays(rt, alloc, group(rt, alloc).as_mut_slice(), row)
}

#[test]
fn rows_of_acts_leave_their_texts(rt: HostRuntime) {
    for (i, row) in ROWS.iter().enumerate() {
        assert!(rt; holds(&rt, rt.alloc(), row), "row {i}, over {}", row.0);
    }
}

const STEPS: u32 = 80;

const SEEDS: u64 = 4;

/// The next of a row of numbers that look as if drawn by chance.
pub(crate) fn next(x: u64) -> u64 {
    x.wrapping_mul(6364136223846793005)
        .wrapping_add(1442695040888963407)
}

/// An edit at a drawn place of a text of that many bytes.
pub(crate) fn drawn_change(x: u64, len: u64) -> Change {
    let start = (x >> 20) % len.wrapping_add(1).max(1);
    let deleted = ((x >> 50) % 4).min(len.saturating_sub(start));
    let text = match (x >> 40) % 4 {
        0 => "",
        1 => "a",
        2 => "bc",
        _ => "def",
    };
    (start, start.wrapping_add(deleted), text)
}

/// The stamp of a drawn operation that is applied, if it is an edit.
pub(crate) fn drawn_edit(buffer: &Buffer, x: u64) -> Option<Stamp> {
    let count = buffer.applied().len().max(1);
    match buffer.applied().get((x >> 20) % count) {
        Some(applied) => match applied.op() {
            Operation::Edit(edit) => Some((edit.stamp.value, edit.stamp.replica)),
            Operation::Undo(_) => None,
        },
        None => None,
    }
}

// What is drawn for a replica alone: its edit, or an edit to undo, if one is drawn.
fn draw_for(group: &[Replica], i: usize, x: u64) -> (Change, Option<Stamp>) {
    match group.get(i) {
        Some(replica) => (
            drawn_change(x, replica.buffer.summary().len),
            drawn_edit(&replica.buffer, x),
        ),
        None => ((0, 0, ""), None),
    }
}

// Whether a drawn act agrees with the plain cells.
fn draws(rt: &impl Abort, alloc: Global, group: &mut [Replica], x: u64) -> bool {
    let i = ((x >> 10) % 3) as usize;
    let (change, edit) = draw_for(group, i, x);
    match ((x >> 14) % 8, edit) {
        (0, _) => takes_all(rt, alloc, group, i, i.wrapping_add(1) % 3),
        (1, _) => takes_all(rt, alloc, group, i, i.wrapping_add(2) % 3),
        (2 | 3, Some(edit)) => acts(rt, alloc, group, Act::Undo(i, &[edit])),
        (2 | 3, None) => true,
        _ => acts(rt, alloc, group, Act::Edit(i, &[change])),
    }
}

// Who takes what whom has, until all have all.
const EXCHANGE: &[(usize, usize)] = &[(0, 1), (0, 2), (1, 0), (2, 0)];

// Whether all show one text once each has what the others have.
fn come_together(rt: &impl Abort, alloc: Global, group: &mut [Replica]) -> bool {
    let mut right = true;
    for &(i, j) in EXCHANGE {
        right = takes_all(rt, alloc, group, i, j) && right;
    }
    are_alike(rt, group) && right
}

fn are_alike(rt: &impl Abort, group: &[Replica]) -> bool {
    let Some(first) = group.first() else {
        return false;
    };
    let text = first.buffer.text().expect(rt, "memory");
    shows(rt, group, 1, text.as_str()) && shows(rt, group, 2, text.as_str())
}

fn plays_drawn(rt: &impl Abort, alloc: Global, group: &mut [Replica], seed: u64) -> bool {
    let mut right = true;
    let mut x = seed;
    for _ in 0..STEPS {
        x = next(x);
        right = draws(rt, alloc, group, x) && right;
    }
    come_together(rt, alloc, group) && right
}

/// Copies of the operations that a buffer has applied, without the base.
pub(crate) fn copies(rt: &impl Abort, alloc: Global, buffer: &Buffer) -> Vec<Operation> {
    let mut ops = Vec::new(alloc);
    for i in 1..buffer.applied().len() {
        if let Some(applied) = buffer.applied().get(i) {
            ops.push(applied.op().copy(alloc).expect(rt, "memory"))
                .expect(rt, "memory");
        }
    }
    ops
}

fn operations_of(
    rt: &impl Abort,
    alloc: Global,
    group: &mut [Replica],
    seed: u64,
) -> Vec<Operation> {
    let _right = plays_drawn(rt, alloc, group, seed);
    match group.first() {
        Some(replica) => copies(rt, alloc, &replica.buffer),
        None => Vec::new(alloc),
    }
}

/// The operations that three replicas make of drawn acts, in an order in which they may be taken.
pub(crate) fn drawn_operations(rt: &impl Abort, alloc: Global, seed: u64) -> Vec<Operation> {
    operations_of(rt, alloc, group(rt, alloc).as_mut_slice(), seed)
}

fn holds_drawn(rt: &impl Abort, alloc: Global, seed: u64) -> bool {
    plays_drawn(rt, alloc, group(rt, alloc).as_mut_slice(), seed)
}

#[test]
fn drawn_acts_agree_with_plain_cells(rt: HostRuntime) {
    for seed in 0..SEEDS {
        assert!(rt; holds_drawn(&rt, rt.alloc(), seed), "seed {seed}");
    }
}
