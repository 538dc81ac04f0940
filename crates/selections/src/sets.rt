//! The sets of a replica: of each author the latest operation that it made or took.
ghost use Rattle.std.specs.Prelude.{◌≡◌, ◌≤◌, None, IsOk, IfErr, IfOk, IsSome, OnOk, OnErr};
ghost use Rattle.std.specs.Option.{option_copied};
ghost use Rattle.op_model.specs.Operations.{last_replica};
ghost use Rattle.selections.specs.Sets.{AscendFrom, IsGap, IsMade, IsPlace, IsSelectionState, find_of, keep, kept_for, new_state, put};

use crate::{OutOfMemory, SelectionOp};
use lamport_clock::Clock;
use std::alloc::Global;
use std::marker::Model;

/// Of each author the latest selections that this replica made or took, and a clock of their own. Contracts see the
/// replica, the value of the clock, which the next own operation has, and the kept operations, in ascending order of
/// their authors.
#[derive(Drop)]
pub struct SelectionSets {
    pub(crate) replica: u16,
    pub(crate) clock: Clock,
    pub(crate) kept: Vec<SelectionOp>,
}

impl Model for SelectionSets {
    ghost use Rattle.selections.specs.Sets.{SelectionState, IsSelectionState};

    ghost Value = { SelectionState };

    ghost view = { λ s.
        record { replica = s.replica; clock = s.clock.value; kept = s.kept.items } };

    ghost invariant = { λ s. IsSelectionState
        (record { replica = s.replica; clock = s.clock.value; kept = s.kept.items }) };
}

impl SelectionSets {
    /// The sets of a replica that has selected nothing and taken nothing: the clock is at 1. The replica's id is 1 to
    /// 1023. This does not allocate yet, so it is always Ok.
    pub fn new(alloc: Global, replica: u16) -> Result<SelectionSets, OutOfMemory>
        requires least { 1 ≤ replica }
        requires greatest { replica ≤ last_replica }
        ensures new { IfOk result (λ s. s ≡ new_state replica) }
        ensures succeeds { IsOk result }
    {
        Ok(SelectionSets {
            replica,
            clock: Clock::new(replica),
            kept: Vec::new(alloc),
        })
    }

    /// Says what is true of all sets, for callers' proofs. Does nothing when it runs.
    pub fn known(&self)
        ensures { IsSelectionState self.now }
    {
        let _kept = &self.kept;
    }

    /// The operation that is kept for an author. Logarithmic in the number of authors; does not allocate.
    pub fn get(&self, author: u16) -> Option<&SelectionOp>
        ensures { option_copied result ≡ kept_for author self.now }
    {
        match search(&self.kept, author) {
            Ok(at) => Some(&self.kept[at]),
            Err(_) => None,
        }
    }

    /// A copy of the operation that is kept for an author, as `SelectionOp::copy` makes it.
    ///
    /// # Errors
    ///
    /// `OutOfMemory` if an allocation fails, and only where an operation is kept for the author.
    pub fn copy_of(&self, author: u16) -> Result<Option<SelectionOp>, OutOfMemory>
        ensures copy { IfOk result (λ op. op ≡ kept_for author self.now) }
        ensures err { OnErr result (IsSome (kept_for author self.now)) }
    {
        match self.get(author) {
            Some(op) => Ok(Some(op.copy(*self.kept.allocator())?)),
            None => Ok(None),
        }
    }

    /// The kept operations, one for each author, in ascending order of the authors. Does not allocate.
    pub fn authors(&self) -> &[SelectionOp]
        ensures { result.now ≡ self.now.kept }
    {
        &self.kept
    }

    // Keeps an operation in place of its author's, and moves the clock past its stamp. Only a further author's
    // allocates; if that fails, the operation is dropped.
    pub(crate) fn keep(&mut self, op: SelectionOp) -> Result<(), OutOfMemory>
        requires { IsMade op }
        ensures ok { OnOk result (self.new ≡ keep op self.old) }
        ensures err { OnErr result (self.new ≡ self.old) }
        ensures absent { OnErr result (kept_for op.stamp.replica self.old ≡ None) }
    {
        let stamp = op.stamp;
        put(&mut self.kept, op)?;
        self.clock.observe(stamp);
        Ok(())
    }
}

// The place of an author's operation, or where it would go.
fn search(kept: &[SelectionOp], author: u16) -> Result<usize, usize>
    requires { AscendFrom 1 kept.now }
    ensures place { IfOk result (IsPlace author kept.now) }
    ensures gap { IfErr result (IsGap author kept.now) }
{
    kept.binary_search_by_key(&author, |op| op.stamp.replica)
}

// Puts an operation in place of its author's, or before those of greater authors.
fn put(kept: &mut Vec<SelectionOp>, op: SelectionOp) -> Result<(), OutOfMemory>
    requires { AscendFrom 1 kept.old.items }
    ensures ok { OnOk result (kept.new.items ≡ put op kept.old.items) }
    ensures err { OnErr result (kept.new.items ≡ kept.old.items) }
    ensures absent { OnErr result (find_of op.stamp.replica kept.old.items ≡ None) }
{
    match search(kept.as_slice(), op.stamp.replica) {
        Ok(at) => {
            kept[at] = op;
            Ok(())
        }
        Err(at) => Ok(kept.insert(at, op)?),
    }
}
