//! Undo and redo.
ghost use Rattle.std.specs.Prelude.{◌≡◌, ◌⊎◌, ◌++◌, ◌∷◌, [], None, Some, IfErr, IfOk, OnErr, OnOk};
ghost use Rattle.op_model.specs.Steps.Step.{Undoes};
ghost use Rattle.text_buffer.specs.Buffer.{after_call, undo_of, undo_fault, after_undo};

use crate::document::with_copy;
use crate::faults::Excess;
use crate::{Buffer, OutOfMemory};
use lamport_clock::Lamport;
use op_answers::listed_fault;
use op_model::{Operation, UndoFault, UndoOp};
use undo_map::next_counts;

impl Buffer {
    /// Undoes edits, or redoes those that are undone: gives each of them one more than its present undo count. The base, 1.0, may
    /// be among them, and edits of other replicas. An empty list makes an operation without counts. Returns the operation, and keeps
    /// an equal one. O(k log n), where k is the number of fragments that the edits inserted or deleted and n that of all fragments.
    ///
    /// # Errors
    ///
    /// Of the faults in the order of `UndoFault` the first, each for the first stamp in the list that meets it: `NoSuchEdit` (it is
    /// no applied edit), `Twice` (it stands in the list before), `CountEnd` (its count is 4,294,967,295), each asked of the whole
    /// list before the next; then `ClockEnd`, and `Full` where entries pass their limit. `OutOfMemory` if an
    /// allocation fails, and only where there is none of these. After an error the buffer is as before.
    pub fn undo(&mut self, edits: &[Lamport]) -> Result<Operation, UndoFault>
        ensures ok { OnOk result (undo_fault self.old edits.now ≡ None) }
        ensures made { IfOk result (λ op. op ≡ undo_of self.old edits.now) }
        ensures new { OnOk result (self.new ≡ after_undo self.old edits.now) }
        ensures history { IfOk result (λ op. self.new.history ≡ self.old.history ++ op ∷ []) }
        ensures fault { IfErr result (λ e. (undo_fault self.old edits.now ≡ Some e)
            ⊎ ((undo_fault self.old edits.now ≡ None) × (e ≡ UndoFault.OutOfMemory))) }
        ensures err { OnErr result (self.new ≡ self.old) }
        ensures step { OnOk result (self.new ≡ after_call (Undoes edits.now) self.old) }
        ensures refused { IfErr result (λ e. (self.new ≡ after_call (Undoes edits.now) self.old)
            ⊎ (e ≡ UndoFault.OutOfMemory)) }
    {
        match self.undo_fault(edits) {
            Some(fault) => Err(fault),
            None => Ok(self.make_undo(edits)?),
        }
    }

    // Makes an undo that meets no fault.
    fn make_undo(&mut self, edits: &[Lamport]) -> Result<Operation, OutOfMemory>
        requires { undo_fault self.old edits.now ≡ None }
        ensures made { IfOk result (λ op. op ≡ undo_of self.old edits.now) }
        ensures new { OnOk result (self.new ≡ after_undo self.old edits.now) }
        ensures err { OnErr result (self.new ≡ self.old) }
    {
        let undo = self.undo_operation(edits)?;
        let (made, kept) = with_copy(self.alloc, undo)?;
        self.apply(kept)?;
        Ok(made)
    }

    // The fault that an undo of the edits meets, if any.
    fn undo_fault(&self, edits: &[Lamport]) -> Option<UndoFault>
        ensures { result ≡ undo_fault self.now edits.now }
    {
        if let Some(fault) = listed_fault(
            self.alloc,
            self.document.operations(),
            self.document.undos(),
            edits,
        ) {
            return Some(fault);
        }
        if self.document.clock() == u32::MAX {
            return Some(UndoFault::ClockEnd);
        }
        let Excess { unit, held, adds } = self.excess(0, 1 + edits.len() as u64)?;
        Some(UndoFault::Full { unit, held, adds })
    }

    // The operation of an undo that meets no fault.
    fn undo_operation(&self, edits: &[Lamport]) -> Result<Operation, OutOfMemory>
        requires { undo_fault self.now edits.now ≡ None }
        ensures { IfOk result (λ op. op ≡ undo_of self.now edits.now) }
    {
        Ok(Operation::Undo(UndoOp {
            stamp: self.next_stamp(),
            version: self.document.version().copy(self.alloc)?,
            counts: next_counts(self.alloc, self.document.undos(), edits)?,
        }))
    }
}
