//! Buffers of authors, and a map that goes along with one.
ghost use Rattle.std.specs.Prelude.{◌≡◌, ◌≤◌, IfOk};
ghost use Rattle.op_model.specs.Steps.{new_state};
ghost use Rattle.text_buffer.specs.Buffer.{state};
ghost use Rattle.text_buffer.specs.Document.{IsFront};

use fold_map::{Bias, FoldFault, FoldMap, OutOfMemory};
use lamport_clock::Lamport;
use op_model::{Operation, Piece, Text};
use std::alloc::Global;
use std::process::Abort;
use text_buffer::{Buffer, Limits, Snapshot};

/// The author who has the map, and another one.
const OWN: u16 = 1;

const OTHER: u16 = 2;

/// The buffer of a replica over a base.
pub(crate) fn open_as(rt: &impl Abort, alloc: Global, replica: u16, base: &str) -> Buffer
    requires least { 1 ≤ replica }
    requires greatest { replica ≤ 1023 }
    ensures { state result ≡ new_state base.now }
{
    Buffer::new(alloc, replica, base, Limits::MOST).expect(rt, "a buffer")
}

/// The buffer over a base.
pub(crate) fn open(rt: &impl Abort, alloc: Global, base: &str) -> Buffer {
    open_as(rt, alloc, OWN, base)
}

/// A map of a buffer, without folds.
pub(crate) fn map_of(rt: &impl Abort, alloc: Global, buffer: &Buffer) -> FoldMap
    ensures { result.history ≡ buffer.now.history }
{
    let snapshot = buffer.snapshot().expect(rt, "memory");
    FoldMap::new(alloc, snapshot).expect(rt, "memory")
}

/// A map over a base, without folds.
pub(crate) fn map_over_base(rt: &impl Abort, alloc: Global, base: &str) -> FoldMap
    ensures { result.history ≡ (new_state base.now).history }
{
    let buffer = open_as(rt, alloc, OWN, base);
    map_of(rt, alloc, &buffer)
}

/// The map goes on to the buffer.
pub(crate) fn go_on(rt: &impl Abort, buffer: &Buffer, map: &mut FoldMap)
    requires { IsFront map.old.history buffer.now.history }
    ensures { map.new.history ≡ buffer.now.history }
{
    let snapshot = buffer.snapshot().expect(rt, "memory");
    map.sync(snapshot).expect(rt, "a later snapshot");
}

/// Folds a range.
pub(crate) fn fold(map: &mut FoldMap, s: u64, e: u64) -> Result<(), FoldFault>
    ensures { map.new.history ≡ map.old.history }
{
    map.fold(s, e)
}

/// Unfolds a range.
pub(crate) fn unfold(map: &mut FoldMap, s: u64, e: u64) -> Result<u64, FoldFault>
    ensures { map.new.history ≡ map.old.history }
{
    map.unfold(s, e)
}

/// A range, and the text in its place.
pub(crate) type Change = (u64, u64, &'static str);

fn piece(alloc: Global, change: Change) -> Result<Piece, OutOfMemory> {
    let text = Text::new(String::from_str(alloc, change.2)?);
    Ok(Piece::new(change.0, change.1, text))
}

/// Makes an edit.
pub(crate) fn edit(rt: &impl Abort, alloc: Global, buffer: &mut Buffer, change: Change) -> Operation
    ensures { IsFront buffer.old.history buffer.new.history }
{
    let piece = piece(alloc, change).expect(rt, "memory");
    buffer.edit_uncounted(&[piece]).expect(rt, "an edit")
}

// Makes edits, one after another.
fn edit_all(rt: &impl Abort, alloc: Global, buffer: &mut Buffer, changes: &[Change])
    ensures { IsFront buffer.old.history buffer.new.history }
{
    for &change in changes {
        edit(rt, alloc, buffer, change);
    }
}

/// The snapshots of a buffer over a base before some edits and after them.
pub(crate) fn before_and_after(
    rt: &impl Abort,
    alloc: Global,
    base: &str,
    changes: &[Change],
) -> (Snapshot, Snapshot)
    ensures { IsFront result.0 result.1 }
{
    let mut buffer = open(rt, alloc, base);
    let before = buffer.snapshot().expect(rt, "memory");
    edit_all(rt, alloc, &mut buffer, changes);
    let after = buffer.snapshot().expect(rt, "memory");
    (before, after)
}

/// A map of a snapshot, without folds.
pub(crate) fn map_over(alloc: Global, snapshot: &Snapshot) -> Result<FoldMap, OutOfMemory>
    ensures { IfOk result (λ m. m.history ≡ snapshot.now) }
{
    FoldMap::new(alloc, snapshot.share()?)
}

/// The same, where an allocation may not fail.
pub(crate) fn map_at(rt: &impl Abort, alloc: Global, snapshot: &Snapshot) -> FoldMap
    ensures { result.history ≡ snapshot.now }
{
    map_over(alloc, snapshot).expect(rt, "memory")
}

// Undoes the author's edit that has this value in its stamp, or redoes it.
fn undo(rt: &impl Abort, buffer: &mut Buffer, value: u32) -> Operation
    ensures { IsFront buffer.old.history buffer.new.history }
{
    let stamp = Lamport {
        value,
        replica: OWN,
    };
    buffer.undo(&[stamp]).expect(rt, "an undo")
}

// Takes an operation, which may wait.
fn take(rt: &impl Abort, buffer: &mut Buffer, op: Operation)
    ensures { IsFront buffer.old.history buffer.new.history }
{
    buffer.take(op).expect(rt, "an operation without fault");
}

// Takes operations, the last one first, so that they wait for the others.
fn take_all(rt: &impl Abort, buffer: &mut Buffer, ops: &mut Vec<Operation>)
    ensures { IsFront buffer.old.history buffer.new.history }
{
    while let Some(op) = ops.pop() {
        take(rt, buffer, op);
    }
}

/// Two authors, and what each has made that the other has not taken.
#[derive(Drop)]
pub(crate) struct Authors {
    pub own: Buffer,
    other: Buffer,
    own_ops: Vec<Operation>,
    other_ops: Vec<Operation>,
}

impl Authors {
    /// Two authors over a base.
    pub(crate) fn new(rt: &impl Abort, alloc: Global, base: &str) -> Authors {
        Authors {
            own: open_as(rt, alloc, OWN, base),
            other: open_as(rt, alloc, OTHER, base),
            own_ops: Vec::new(alloc),
            other_ops: Vec::new(alloc),
        }
    }

    /// An edit of the first author.
    pub(crate) fn edit(&mut self, rt: &impl Abort, alloc: Global, change: Change)
        ensures { IsFront self.old.own.history self.new.own.history }
    {
        let op = edit(rt, alloc, &mut self.own, change);
        self.own_ops.push(op).expect(rt, "memory");
    }

    /// Undoes the edit of the first author that has this value in its stamp, or redoes it.
    pub(crate) fn undo(&mut self, rt: &impl Abort, value: u32)
        ensures { IsFront self.old.own.history self.new.own.history }
    {
        let op = undo(rt, &mut self.own, value);
        self.own_ops.push(op).expect(rt, "memory");
    }

    /// An edit of the other author.
    pub(crate) fn edit_theirs(&mut self, rt: &impl Abort, alloc: Global, change: Change)
        ensures { self.new.own ≡ self.old.own }
    {
        let op = edit(rt, alloc, &mut self.other, change);
        self.other_ops.push(op).expect(rt, "memory");
    }

    /// Each takes what the other has made.
    pub(crate) fn meet(&mut self, rt: &impl Abort)
        ensures { IsFront self.old.own.history self.new.own.history }
    {
        take_all(rt, &mut self.other, &mut self.own_ops);
        take_all(rt, &mut self.own, &mut self.other_ops);
    }
}

/// Whether this is what a map shows, and its length.
pub(crate) fn shows(map: &FoldMap, want: &str) -> bool {
    match map.text() {
        Ok(text) => text.as_str() == want && map.len() == want.len() as u64,
        Err(_) => false,
    }
}

/// A place, and the places that it has in the other text, Left and Right, if it has any.
pub(crate) type Places = (u64, Option<(u64, u64)>);

fn pair(left: Option<u64>, right: Option<u64>) -> Option<(u64, u64)> {
    Some((left?, right?))
}

/// Whether a place of the text is shown at these places.
pub(crate) fn is_shown_at(map: &FoldMap, (place, want): Places) -> bool {
    pair(
        map.to_shown(place, Bias::Left),
        map.to_shown(place, Bias::Right),
    ) == want
}

/// Whether these places of the text are shown at a place.
pub(crate) fn comes_from(map: &FoldMap, (place, want): Places) -> bool {
    pair(
        map.to_text(place, Bias::Left),
        map.to_text(place, Bias::Right),
    ) == want
}
