//! The applied operations in their order, found by their stamps.
ghost use Rattle.std.specs.Prelude.{◌≡◌, ◌++◌, ◌∷◌, [], None, length, IfOk, OnErr, OnOk};
ghost use Rattle.std.specs.Option.{option_copied};
ghost use Rattle.op_model.specs.Operations.{stamp_of};
ghost use Rattle.op_model.specs.Histories.{Distinct, has_edit, operation_at};
ghost use Rattle.applied_ops.specs.Placed.{is_edit_found};

use crate::OutOfMemory;
use crate::operation::Applied;
use crate::stamp_entry::StampEntry;
use lamport_clock::{Lamport, is_same};
use op_model::Operation;
use std::alloc::Global;
use std::marker::Model;
use sum_tree::{Continuation, Nothing, SumTree};

/// The most operations of a list.
const MOST: u64 = 1 << 40;

/// Operations in the order of their application, no two with one stamp, seen as their list: a tree, and beside it one
/// of their indices by their stamps. Lists share their nodes and their operations.
#[derive(Drop)]
pub struct AppliedList {
    operations: SumTree<Applied>,
    entries: SumTree<StampEntry>,
}

impl Model for AppliedList {
    ghost use Rattle.std.specs.Prelude.{List};
    ghost use Rattle.op_model.specs.declared.operation.Operation.{Operation};

    ghost Value = { List Operation };

    ghost use Rattle.applied_ops.specs.Placed.{AreEntriesOf};

    ghost view = { λ a. a.operations.items };

    ghost invariant = { λ a. AreEntriesOf a.entries.items a.operations.items };
}

impl AppliedList {
    /// A list without operations.
    ///
    /// # Errors
    ///
    /// `OutOfMemory` if an allocation fails.
    pub fn new(alloc: Global) -> Result<AppliedList, OutOfMemory>
        ensures { IfOk result (λ a. a ≡ []) }
    {
        Ok(AppliedList {
            operations: SumTree::new(alloc)?,
            entries: SumTree::new(alloc)?,
        })
    }

    /// Returns an equal list that has the same nodes. O(1); does not allocate, and fails only if a node cannot count
    /// another owner.
    pub fn share(&self) -> Result<AppliedList, OutOfMemory>
        ensures { IfOk result (λ a. a ≡ self.now) }
    {
        Ok(AppliedList {
            operations: self.operations.share()?,
            entries: self.entries.share()?,
        })
    }

    /// The operations, in their order. O(1); does not allocate.
    pub fn tree(&self) -> &SumTree<Applied>
        ensures { result.now.items ≡ self.now }
    {
        &self.operations
    }

    /// How many operations there are. O(1); does not allocate.
    pub fn len(&self) -> u64
        ensures { result ≡ length self.now }
    {
        self.operations.len()
    }

    /// The operation that has the stamp, if it is applied. Logarithmic in the number of operations; does not allocate.
    pub fn find(&self, t: Lamport) -> Option<&Operation>
        ensures { option_copied result ≡ operation_at self.now t }
    {
        let Some(entry) = self.entries.find(&t) else {
            return None;
        };
        let Some(applied) = self.operations.get(entry.index) else {
            return None;
        };
        // A push that failed may have left the entry of an operation that is not applied.
        let op = applied.op();
        if is_same(op.stamp(), t) {
            Some(op)
        } else {
            None
        }
    }

    /// Whether the stamp is that of an applied edit. Logarithmic in the number of operations; does not allocate.
    pub fn has_edit(&self, t: Lamport) -> bool
        requires { Distinct self.now }
        ensures { result ≡ has_edit self.now t }
    {
        is_edit(self.find(t))
    }

    /// Puts an operation last; none with its stamp is there yet. Logarithmic in the number of operations; what no other
    /// list shares is changed in place.
    ///
    /// # Errors
    ///
    /// `OutOfMemory` if an allocation fails, or if the list has 2^40 operations, or as many stamps with those of pushes
    /// that failed. The operation is then dropped, and the list is as before.
    pub fn push(&mut self, alloc: Global, op: Operation) -> Result<(), OutOfMemory>
        requires { operation_at self.old (stamp_of op) ≡ None }
        ensures ok { OnOk result (self.new ≡ self.old ++ op ∷ []) }
        ensures err { OnErr result (self.new ≡ self.old) }
    {
        self.push_then(alloc, op, &mut Nothing)
    }

    /// Does what `push` does once a continuation has succeeded: first all is done that may fail, then the continuation
    /// is run, and then the operation is put last, which does not allocate and cannot fail. The conditions are that of
    /// `push` and the continuation's own.
    ///
    /// # Errors
    ///
    /// `OutOfMemory` as of `push`, or if the continuation fails. The operation is then dropped, and the list is as before.
    pub fn push_then<K: Continuation>(
        &mut self,
        alloc: Global,
        op: Operation,
        rest: &mut K,
    ) -> Result<(), OutOfMemory>
        requires new { operation_at self.old (stamp_of op) ≡ None }
        requires may { K.may rest.old }
        ensures ok { OnOk result (self.new ≡ self.old ++ op ∷ []) }
        ensures err { OnErr result (self.new ≡ self.old) }
        ensures done { OnOk result (K.done rest.old rest.new) }
        ensures kept { OnErr result (K.kept rest.old rest.new) }
    {
        let index = self.operations.len();
        if index >= MOST || self.entries.len() >= MOST {
            return Err(OutOfMemory);
        }
        let stamp = op.stamp();
        let applied = Applied::new(alloc, op)?;
        self.entries.insert(alloc, StampEntry { stamp, index })?;
        self.operations.push_then(alloc, applied, rest)?;
        Ok(())
    }
}

fn is_edit(found: Option<&Operation>) -> bool
    ensures { result ≡ is_edit_found (option_copied found.entry) }
{
    match found {
        Some(Operation::Edit(_)) => true,
        _ => false,
    }
}
