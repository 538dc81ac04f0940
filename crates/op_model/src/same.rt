//! Equal operations, and copies of operations.
ghost use Rattle.std.specs.Prelude.{◌≡◌, ◌==◌, IfOk};
ghost use Rattle.op_model.specs.Answers.{same_version, same_piece, same_count, same_list, same_op};
ghost use Rattle.op_model.specs.declared.operation.Operation.TheVariants.{Edit, Undo};

use crate::{EditOp, Operation, OutOfMemory, Piece, Text, UndoCount, UndoOp};
use lamport_clock::{Version, is_same};
use std::alloc::Global;

impl Operation {
    /// Whether the two are equal: of the same kind, with the same stamp, equal versions, and the same pieces or counts
    /// in the same order. Linear in the operation; does not allocate.
    pub fn same(&self, other: &Operation) -> bool
        ensures { result ≡ same_op self.now other.now }
    {
        match self {
            Operation::Edit(edit) => match other {
                Operation::Edit(other) => same_edits(edit, other),
                Operation::Undo(_) => false,
            },
            Operation::Undo(undo) => match other {
                Operation::Edit(_) => false,
                Operation::Undo(other) => same_undos(undo, other),
            },
        }
    }

    /// Returns an equal operation. Shared pieces and counts (`into_shared`) are not copied; then this is linear in the
    /// version, otherwise in the operation and its texts.
    pub fn copy(&self, alloc: Global) -> Result<Operation, OutOfMemory>
        ensures { IfOk result (λ op. op ≡ self.now) }
    {
        match self {
            Operation::Edit(edit) => Ok(Operation::Edit(edit.copy(alloc)?)),
            Operation::Undo(undo) => Ok(Operation::Undo(undo.copy(alloc)?)),
        }
    }

    /// Returns an equal operation whose copies share its pieces or counts, without spare capacity. Linear in their number
    /// if there is some, otherwise O(1); copies no text. If an allocation fails, the operation is dropped.
    pub fn into_shared(self, alloc: Global) -> Result<Operation, OutOfMemory>
        ensures { IfOk result (λ op. op ≡ self) }
    {
        match self {
            Operation::Edit(edit) => Ok(Operation::Edit(edit.into_shared(alloc)?)),
            Operation::Undo(undo) => Ok(Operation::Undo(undo.into_shared(alloc)?)),
        }
    }
}

impl EditOp {
    /// Returns an equal edit. Shared pieces (`into_shared`) are not copied; then this is linear in the version,
    /// otherwise in the edit and its texts.
    pub fn copy(&self, alloc: Global) -> Result<EditOp, OutOfMemory>
        ensures { IfOk result (λ edit. edit ≡ self.now) }
    {
        Ok(EditOp {
            stamp: self.stamp,
            version: self.version.copy(alloc)?,
            pieces: self.pieces.copy(alloc)?,
        })
    }

    /// Returns an equal edit whose copies share its pieces. Costs what `Pieces::into_shared` does; copies no text. If an
    /// allocation fails, the edit is dropped.
    pub fn into_shared(self, alloc: Global) -> Result<EditOp, OutOfMemory>
        ensures { IfOk result (λ edit. edit ≡ self) }
    {
        Ok(EditOp {
            stamp: self.stamp,
            version: self.version,
            pieces: self.pieces.into_shared(alloc)?,
        })
    }
}

impl UndoOp {
    /// Returns an equal undo. Shared counts (`into_shared`) are not copied; then this is linear in the version,
    /// otherwise in the undo.
    pub fn copy(&self, alloc: Global) -> Result<UndoOp, OutOfMemory>
        ensures { IfOk result (λ undo. undo ≡ self.now) }
    {
        Ok(UndoOp {
            stamp: self.stamp,
            version: self.version.copy(alloc)?,
            counts: self.counts.copy(alloc)?,
        })
    }

    /// Returns an equal undo whose copies share its counts. Costs what `Counts::into_shared` does. If an allocation fails,
    /// the undo is dropped.
    pub fn into_shared(self, alloc: Global) -> Result<UndoOp, OutOfMemory>
        ensures { IfOk result (λ undo. undo ≡ self) }
    {
        Ok(UndoOp {
            stamp: self.stamp,
            version: self.version,
            counts: self.counts.into_shared(alloc)?,
        })
    }
}

fn same_edits(a: &EditOp, b: &EditOp) -> bool
    ensures { result ≡ same_op (Edit a.now) (Edit b.now) }
{
    is_same(a.stamp, b.stamp)
        && same_versions(&a.version, &b.version)
        && same_pieces(a.pieces.as_slice(), b.pieces.as_slice())
}

fn same_undos(a: &UndoOp, b: &UndoOp) -> bool
    ensures { result ≡ same_op (Undo a.now) (Undo b.now) }
{
    is_same(a.stamp, b.stamp)
        && same_versions(&a.version, &b.version)
        && same_counts(a.counts.as_slice(), b.counts.as_slice())
}

fn same_versions(u: &Version, v: &Version) -> bool
    ensures { result ≡ same_version u.now v.now }
{
    u.as_slice() == v.as_slice()
}

fn same_texts(a: &Text, b: &Text) -> bool
    ensures { result ≡ same_list (λ x y. x == y) a.now b.now }
{
    a.as_str() == b.as_str()
}

fn same_piece(a: &Piece, b: &Piece) -> bool
    ensures { result ≡ same_piece a.now b.now }
{
    a.start == b.start && a.end == b.end && same_texts(&a.text, &b.text)
}

fn same_pieces(a: &[Piece], b: &[Piece]) -> bool
    ensures { result ≡ same_list same_piece a.now b.now }
{
    if a.len() != b.len() {
        return false;
    }
    for (i, piece) in a.iter().enumerate() {
        if !same_piece(piece, &b[i]) {
            return false;
        }
    }
    true
}

fn same_count(a: &UndoCount, b: &UndoCount) -> bool
    ensures { result ≡ same_count a.now b.now }
{
    is_same(a.edit, b.edit) && a.count == b.count
}

fn same_counts(a: &[UndoCount], b: &[UndoCount]) -> bool
    ensures { result ≡ same_list same_count a.now b.now }
{
    if a.len() != b.len() {
        return false;
    }
    for (i, count) in a.iter().enumerate() {
        if !same_count(count, &b[i]) {
            return false;
        }
    }
    true
}
