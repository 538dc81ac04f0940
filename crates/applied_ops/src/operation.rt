//! An applied operation, as it stands in a tree.
ghost use Rattle.std.specs.Prelude.{◌≡◌, IfOk};

use crate::OutOfMemory;
use op_model::Operation;
use std::alloc::Global;
use std::marker::Model;
use sum_tree::{Count, Item};

/// An operation whose pieces or counts are shared, so that a copy copies no text. Contracts see it as the operation.
#[derive(Drop)]
pub struct Applied {
    op: Operation,
}

impl Model for Applied {
    ghost use Rattle.op_model.specs.declared.operation.Operation.{Operation};

    ghost Value = { Operation };

    ghost view = { λ a. a.op };
}

impl Applied {
    /// Makes an item of an operation, whose pieces or counts are shared (`Operation::into_shared`). If an allocation
    /// fails, the operation is dropped.
    pub fn new(alloc: Global, op: Operation) -> Result<Applied, OutOfMemory>
        ensures { IfOk result (λ a. a ≡ op) }
    {
        Ok(Applied {
            op: op.into_shared(alloc)?,
        })
    }

    /// Borrows the operation. O(1); does not allocate.
    pub fn op(&self) -> &Operation
        ensures { result.now ≡ self.now }
    {
        &self.op
    }
}

impl Item for Applied {
    type Summary = Count;

    ghost sum_of = { λ a. record { items = 1 } };

    ghost admitted = { λ a. tt };

    ghost is_single = { λ a. tt };

    fn summary(&self, _alloc: Global) -> Result<Count, OutOfMemory> {
        Ok(Count { items: 1 })
    }

    fn copy(&self, alloc: Global) -> Result<Applied, OutOfMemory> {
        Ok(Applied {
            op: self.op.copy(alloc)?,
        })
    }
}
