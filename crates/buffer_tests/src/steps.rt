//! Steps of a buffer: calls and questions, each with its answer.
use crate::counted::edit_and_count;
use crate::operations::{Change, Parts, Stamp, operation, pieces, stamp, version};
use crate::replica::Replica;
use lamport_clock::{Lamport, Version};
use op_model::Operation;
use rope_chunks::Rope;
use std::alloc::Global;
use std::cmp::Ordering;
use std::process::Abort;
use sum_tree::OutOfMemory;
use text_buffer::{
    Anchor, Bias, Buffer, EditFault, OpFault, PlaceFault, Refused, SinceFault, Snapshot, TextEdit,
    Took, UndoFault, UnknownAnchor, agree, anchors_stay, edits_make_the_text, snapshots_agree,
    snapshots_answer_alike, snapshots_append,
};

/// A call of a buffer or a question to it, with its answer.
#[derive(Clone, Copy)]
pub(crate) enum Step {
    /// An edit, and its stamp's value.
    Edit(&'static [Change], Result<u32, EditFault>),
    /// The same by the call that counts its steps.
    Count(&'static [Change], Result<u32, EditFault>),
    /// An undo, and its stamp's value.
    Undo(&'static [Lamport], Result<u32, UndoFault>),
    /// An operation of another replica: its stamp, what it has seen, and its parts.
    Take(Stamp, &'static [Stamp], Parts, Result<Took, OpFault>),
    /// How many operations settling applies.
    Settle(u64),
    /// Forgetting the operation of a stamp, and whether one waits.
    Forget(Stamp, bool),
    /// The operation that was applied last.
    Last(Stamp, &'static [Stamp], Parts),
    /// How many operations wait, and which were refused while settling.
    Keep(u64, &'static [Refused]),
    /// A question to a snapshot.
    Ask(Question),
}

/// A question to a snapshot, and its answer.
#[derive(Clone, Copy)]
pub(crate) enum Question {
    /// How many operations are applied, the base first, and the version's entries.
    Applied(u64, &'static [(u16, u32)]),
    /// The anchor at an offset.
    Make(u64, Bias, Result<Anchor, PlaceFault>),
    Resolve(Anchor, Result<u64, UnknownAnchor>),
    Compare(Anchor, Anchor, Result<Ordering, UnknownAnchor>),
    /// The text that a version saw, and the edits since.
    Past(&'static [Stamp], Past),
}

/// A text and the edits since it, or why there are none.
pub(crate) type Past = Result<(&'static str, &'static [TextEdit]), SinceFault>;

/// A step, and the text after it.
pub(crate) type Row = (Step, &'static str);

// The stamp's value of an operation that was applied last, and 0 of another one.
fn value_of_last(buffer: &Buffer, op: &Operation) -> u32 {
    if is_last(buffer, op) {
        op.stamp().value
    } else {
        0
    }
}

fn is_last(buffer: &Buffer, op: &Operation) -> bool {
    let applied = buffer.applied();
    match applied.get(applied.len().saturating_sub(1)) {
        Some(last) => last.op().same(op),
        None => false,
    }
}

/// Makes an edit. Returns its stamp's value.
pub(crate) fn edit(
    alloc: Global,
    buffer: &mut Buffer,
    changes: &[Change],
) -> Result<Result<u32, EditFault>, OutOfMemory> {
    let pieces = pieces(alloc, changes)?;
    match buffer.edit_uncounted(pieces.as_slice()) {
        Ok(op) => Ok(Ok(value_of_last(buffer, &op))),
        Err(fault) => Ok(Err(fault)),
    }
}

fn count_edit(
    alloc: Global,
    buffer: &mut Buffer,
    changes: &[Change],
) -> Result<Result<u32, EditFault>, OutOfMemory> {
    let pieces = pieces(alloc, changes)?;
    match edit_and_count(buffer, pieces.as_slice()) {
        Ok(op) => Ok(Ok(value_of_last(buffer, &op))),
        Err(fault) => Ok(Err(fault)),
    }
}

/// Makes an undo. Returns its stamp's value.
pub(crate) fn undo(buffer: &mut Buffer, edits: &[Lamport]) -> Result<u32, UndoFault> {
    match buffer.undo(edits) {
        Ok(op) => Ok(value_of_last(buffer, &op)),
        Err(fault) => Err(fault),
    }
}

/// Takes an operation.
pub(crate) fn take(buffer: &mut Buffer, op: Operation) -> Result<Took, OpFault> {
    buffer.take(op)
}

/// Settles. Returns how many operations were applied.
pub(crate) fn settle(buffer: &mut Buffer) -> Result<u64, OutOfMemory> {
    buffer.settle()
}

// Whether an operation is forgotten, where one of that stamp waits.
fn forget(buffer: &mut Buffer, at: Stamp) -> bool {
    match buffer.forget(stamp(at)) {
        Some(op) => op.stamp() == stamp(at),
        None => false,
    }
}

/// Whether that many operations wait, and these were refused while settling.
pub(crate) fn keeps(buffer: &Buffer, waits: u64, refused: &[Refused]) -> bool {
    buffer.known();
    agree(buffer, buffer);
    buffer.deferred().len() == waits && buffer.refused() == refused
}

// Whether the first operation is the base.
fn has_base(snapshot: &Snapshot) -> bool {
    match snapshot.applied().first() {
        None => false,
        Some(applied) => applied.op().stamp().replica == 0,
    }
}

fn has_applied(snapshot: &Snapshot, count: u64, entries: &[(u16, u32)]) -> bool {
    let seen = snapshot.version().as_slice() == entries;
    has_base(snapshot) && snapshot.applied().len() == count && seen
}

fn text_is(snapshot: &Snapshot, version: &Version, want: Past) -> bool {
    match snapshot.text_at(version) {
        Ok(text) => match want {
            Ok((want, _)) => text.as_str() == want,
            Err(_) => false,
        },
        Err(fault) => want.err() == Some(fault),
    }
}

fn edits_are(snapshot: &Snapshot, version: &Version, want: Past) -> bool {
    match snapshot.since(version) {
        Ok(edits) => match want {
            Ok((_, want)) => edits.as_slice() == want,
            Err(_) => false,
        },
        Err(fault) => want.err() == Some(fault),
    }
}

fn past_is(
    alloc: Global,
    snapshot: &Snapshot,
    seen: &[Stamp],
    want: Past,
) -> Result<bool, OutOfMemory> {
    let version = version(alloc, seen)?;
    Ok(text_is(snapshot, &version, want) && edits_are(snapshot, &version, want))
}

/// Whether a snapshot answers a question so.
pub(crate) fn answers(
    alloc: Global,
    snapshot: &Snapshot,
    question: Question,
) -> Result<bool, OutOfMemory> {
    match question {
        Question::Applied(count, entries) => Ok(has_applied(snapshot, count, entries)),
        Question::Make(offset, bias, want) => Ok(snapshot.anchor(offset, bias) == want),
        Question::Resolve(a, want) => Ok(snapshot.resolve(&a) == want),
        Question::Compare(a, b, want) => Ok(snapshot.compare(&a, &b) == want),
        Question::Past(seen, want) => past_is(alloc, snapshot, seen, want),
    }
}

/// Whether a step comes out as it should.
pub(crate) fn comes(alloc: Global, buffer: &mut Buffer, step: Step) -> Result<bool, OutOfMemory> {
    match step {
        Step::Edit(changes, want) => Ok(edit(alloc, buffer, changes)? == want),
        Step::Count(changes, want) => Ok(count_edit(alloc, buffer, changes)? == want),
        Step::Undo(edits, want) => Ok(undo(buffer, edits) == want),
        Step::Take(at, seen, parts, want) => {
            Ok(take(buffer, operation(alloc, at, seen, parts)?) == want)
        }
        Step::Settle(want) => Ok(settle(buffer)? == want),
        Step::Forget(at, want) => Ok(forget(buffer, at) == want),
        Step::Last(at, seen, parts) => { Ok(is_last(buffer, &operation(alloc, at, seen, parts)?)) }
        Step::Keep(waits, refused) => Ok(keeps(buffer, waits, refused)),
        Step::Ask(question) => answers(alloc, &buffer.snapshot()?, question),
    }
}

fn is_text(rt: &impl Abort, alloc: Global, rope: &Rope, text: &str) -> bool {
    rope.to_string(alloc).expect(rt, "memory").as_str() == text
}

fn shows(rt: &impl Abort, alloc: Global, snapshot: &Snapshot, text: &str) -> bool {
    is_text(rt, alloc, snapshot.text(), text)
}

// Whether a step comes out as it should, and leaves the text of its row, and text and fragments are those of the cells.
fn holds(rt: &impl Abort, alloc: Global, replica: &mut Replica, row: &Row) -> bool {
    let right = comes(alloc, &mut replica.buffer, row.0).expect(rt, "memory");
    let agrees = replica.agrees(rt, alloc);
    replica.buffer.text().expect(rt, "memory").as_str() == row.1 && right && agrees
}

// A snapshot after each row, up to the first that comes out wrong.
fn keep_snapshots(
    rt: &impl Abort,
    alloc: Global,
    replica: &mut Replica,
    rows: &[Row],
    snapshots: &mut Vec<Snapshot>,
) {
    for row in rows {
        if !holds(rt, alloc, replica, row) {
            return;
        }
        snapshots
            .push(replica.buffer.snapshot().expect(rt, "memory"))
            .expect(rt, "memory");
    }
}

fn kept_snapshots(
    rt: &impl Abort,
    alloc: Global,
    replica: &mut Replica,
    rows: &[Row],
) -> Vec<Snapshot> {
    let mut snapshots = Vec::new(alloc);
    keep_snapshots(rt, alloc, replica, rows, &mut snapshots);
    snapshots
}

fn play(rt: &impl Abort, alloc: Global, buffer: Buffer, rows: &[Row]) -> Vec<Snapshot> {
    let mut replica = Replica::new(alloc, buffer);
    kept_snapshots(rt, alloc, &mut replica, rows)
}

// Calls what is for proofs. It does nothing when it runs.
fn call_laws(snapshot: &Snapshot) {
    snapshots_agree(snapshot, snapshot);
    snapshots_append(snapshot, snapshot);
    snapshots_answer_alike(snapshot, snapshot);
    anchors_stay(snapshot, snapshot);
    edits_make_the_text(snapshot);
}

// Whether a snapshot is what it was after its row.
fn stays(rt: &impl Abort, alloc: Global, snapshot: &Snapshot, row: &Row) -> bool {
    call_laws(snapshot);
    let shown = shows(rt, alloc, snapshot, row.1);
    match row.0 {
        Step::Ask(question) => answers(alloc, snapshot, question).expect(rt, "memory") && shown,
        _ => shown,
    }
}

// How many snapshots are what they were after their rows, before the first that is not, and so are shares of them.
fn count_stays(rt: &impl Abort, alloc: Global, snapshots: &[Snapshot], rows: &[Row]) -> usize {
    for (i, (snapshot, row)) in snapshots.iter().zip(rows.iter()).enumerate() {
        if !stays(rt, alloc, snapshot, row)
            || !stays(rt, alloc, &snapshot.share().expect(rt, "memory"), row)
        {
            return i;
        }
    }
    snapshots.len()
}

/// How many rows come out as they should in a buffer before the first that does not, with snapshots that stay as they were once
/// the buffer is gone.
pub(crate) fn count_right(rt: &impl Abort, alloc: Global, buffer: Buffer, rows: &[Row]) -> usize {
    count_stays(rt, alloc, play(rt, alloc, buffer, rows).as_slice(), rows)
}
