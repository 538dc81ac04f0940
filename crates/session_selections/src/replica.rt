//! The sets of a replica of a session.
ghost use Rattle.std.specs.Prelude.{◌≡◌, ◌≤◌, ◌⊎◌, ◌==◌, Err, Some, IfOk, OnErr, OnOk};
ghost use Rattle.op_model.specs.Operations.{last_replica};
ghost use Rattle.selections.specs.Places.{places_of};
ghost use Rattle.selections.specs.Sets.{kept_for, new_state};
ghost use Rattle.session_selections.specs.Answers.{after_set, after_take, selected_answer, set_outcome, share_answer};

use crate::{OutOfMemory, answers};
use selections::{SelectionOp, SelectionSets, SetFault};
use session_more::{SelectedAnswer, ShareAnswer};
use std::alloc::Global;
use std::marker::Model;
use text_buffer::Snapshot;

/// The sets of a replica, with its id. Seen as the sets.
#[derive(Drop)]
pub struct ReplicaSets {
    id: u16,
    sets: SelectionSets,
}

impl Model for ReplicaSets {
    ghost use Rattle.selections.specs.Sets.{SelectionState};

    ghost Value = { SelectionState };

    ghost view = { λ r. r.sets };

    ghost use Rattle.session_selections.specs.ReplicaId.{GoesByReplica};

    ghost invariant = { GoesByReplica };
}

impl ReplicaSets {
    /// The sets of the replica with that id, which has selected nothing and taken nothing.
    pub fn new(alloc: Global, id: u16) -> Result<ReplicaSets, OutOfMemory>
        requires least { 1 ≤ id }
        requires greatest { id ≤ last_replica }
        ensures { IfOk result (λ r. r ≡ new_state id) }
    {
        Ok(ReplicaSets {
            id,
            sets: SelectionSets::new(alloc, id)?,
        })
    }

    /// Whether they are those of the replica with that id.
    pub fn has_id(&self, id: u16) -> bool
        ensures { result ≡ (self.now.replica == id) }
    {
        self.id == id
    }

    /// Selects ranges of the snapshot's text.
    pub fn set(
        &mut self,
        snapshot: &Snapshot,
        ranges: &[(u64, u64)],
    ) -> Result<SelectionOp, SetFault>
        ensures outcome { (result ≡ set_outcome self.old snapshot.now ranges.now)
            ⊎ (result ≡ Err SetFault.OutOfMemory) }
        ensures after { self.new ≡ after_set result self.old }
    {
        self.sets.set(snapshot, ranges)
    }

    /// Takes the operation, if there is one.
    pub fn share(&mut self, op: Option<SelectionOp>) -> Result<ShareAnswer, OutOfMemory>
        ensures answer { IfOk result (λ a. share_answer op self.old ≡ Some a) }
        ensures after { OnOk result (self.new ≡ after_take op self.old) }
        ensures err { OnErr result (self.new ≡ self.old) }
    {
        match op {
            Some(op) => answers::take_answer(self.sets.take(op)),
            None => Ok(ShareAnswer::Nothing),
        }
    }

    /// Where the selections of an author are in the snapshot's text.
    pub fn selected(
        &self,
        alloc: Global,
        snapshot: &Snapshot,
        author: u16,
    ) -> Result<SelectedAnswer, OutOfMemory>
        ensures { IfOk result (λ a. selected_answer
            (places_of snapshot.now (kept_for author self.now)) ≡ Some a) }
    {
        answers::selected_answer(alloc, self.sets.places(snapshot, author))
    }
}
