//! Operations.
ghost use Rattle.std.specs.Prelude.{◌≡◌};
ghost use Rattle.op_model.specs.Operations.{stamp_of, version_of};

use crate::{Counts, Pieces, Text};
use lamport_clock::{Lamport, Version};

/// A text in place of a range of bytes.
#[derive(Drop)]
pub struct Piece {
    /// The start of the range, in bytes.
    pub start: u64,
    /// The end of the range, in bytes. The range is empty if this equals its start.
    pub end: u64,
    /// The new text. It is empty if the range is only deleted.
    pub text: Text,
}

impl Piece {
    /// The text in place of the bytes from `start` to `end`.
    pub fn new(start: u64, end: u64, text: Text) -> Piece
        ensures { result ≡ record { start = start; end = end; text = text } }
    {
        Piece { start, end, text }
    }
}

/// An edit: its stamp, its author's version before it, and its pieces. The ranges of the pieces are in full offsets,
/// which count the bytes of all insertions that the version sees, including hidden ones.
#[derive(Drop)]
pub struct EditOp {
    /// The name of the edit: its author, and the value of the author's clock.
    pub stamp: Lamport,
    /// What the author had applied before it: the greatest stamp value of each replica.
    pub version: Version,
    /// The pieces, in the order of their ranges, in full offsets.
    pub pieces: Pieces,
}

/// The undo count that an undo operation gives an edit. An edit is undone if its greatest count is odd.
#[derive(Clone, Copy, Debug, PartialEq, Eq)]
pub struct UndoCount {
    /// The stamp of the edit.
    pub edit: Lamport,
    /// The count that the edit is given. The greatest of all its counts decides.
    pub count: u32,
}

/// An undo or redo: its stamp, its author's version before it, and the counts that it gives.
#[derive(Drop)]
pub struct UndoOp {
    /// The name of the undo: its author, and the value of the author's clock.
    pub stamp: Lamport,
    /// What the author had applied before it: the greatest stamp value of each replica.
    pub version: Version,
    /// One count for each edit that it undoes or redoes.
    pub counts: Counts,
}

/// What one replica did and the others apply.
#[derive(Drop)]
pub enum Operation {
    /// New texts in place of ranges.
    Edit(EditOp),
    /// Edits undone or redone.
    Undo(UndoOp),
}

impl Operation {
    /// The stamp that names the operation.
    pub fn stamp(&self) -> Lamport
        ensures { result ≡ stamp_of self.now }
    {
        match self {
            Operation::Edit(edit) => edit.stamp,
            Operation::Undo(undo) => undo.stamp,
        }
    }

    /// The author's version before the operation.
    pub fn version(&self) -> &Version
        ensures { result.now ≡ version_of self.now }
    {
        match self {
            Operation::Edit(edit) => &edit.version,
            Operation::Undo(undo) => &undo.version,
        }
    }
}

fn sends<T: Send>(_value: &T) {}

fn shares<T: Sync>(_value: &T) {}

/// Operations can be sent to threads and shared by them.
pub fn crosses_threads(operation: &Operation) {
    sends(operation);
    shares(operation);
}
