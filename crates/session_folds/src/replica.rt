//! The folds of a replica of a session.
ghost use Rattle.std.specs.Prelude.{◌≡◌, ◌⊎◌, ◌==◌, Some, IfOk, OnErr, OnOk};
ghost use Rattle.fold_map.specs.Calls.{fold_fault};
ghost use Rattle.fold_map.specs.Folds.{shown};
ghost use Rattle.session_folds.specs.Answers.{after_fold, after_unfold, display_answer, fold_answer, unfold_answer, unfold_outcome};
ghost use Rattle.session_folds.specs.State.{GoesOn, no_folds, synced, with_map};

use crate::{OutOfMemory, answers};
use fold_map::FoldMap;
use op_model::Text;
use session_more::{DisplayAnswer, FoldAnswer, UnfoldAnswer};
use std::alloc::Global;
use std::marker::Model;
use text_buffer::Snapshot;

/// A replica's map of folds, once a line has asked for it, with the replica's id.
#[derive(Drop)]
pub struct ReplicaMap {
    id: u16,
    map: Option<FoldMap>,
}

impl Model for ReplicaMap {
    ghost use Rattle.session_folds.specs.State.{ReplicaFolds};

    ghost Value = { ReplicaFolds };

    ghost view = { λ r. record { replica = r.id; shown = r.map } };
}

impl ReplicaMap {
    /// The replica with that id, which has no map yet.
    pub fn new(id: u16) -> ReplicaMap
        ensures { result ≡ no_folds id }
    {
        ReplicaMap { id, map: None }
    }

    /// Whether it is the replica with that id.
    pub fn has_id(&self, id: u16) -> bool
        ensures { result ≡ (self.now.replica == id) }
    {
        self.id == id
    }

    // Takes out the map, once it has gone on to the snapshot. If an allocation fails, it stays as it was.
    fn take_synced(&mut self, alloc: Global, snapshot: Snapshot) -> Result<FoldMap, OutOfMemory>
        requires { GoesOn snapshot self.old.shown }
        ensures ok { IfOk result (λ m. m ≡ synced snapshot self.old) }
        ensures replica { self.new.replica ≡ self.old.replica }
        ensures err { OnErr result (self.new ≡ self.old) }
    {
        let Some(mut map) = self.map.take() else {
            return FoldMap::new(alloc, snapshot);
        };
        match map.sync(snapshot) {
            Ok(()) => Ok(map),
            // the snapshot has all that the map's own has, so only an allocation can fail
            Err(_) => {
                self.map = Some(map);
                Err(OutOfMemory)
            }
        }
    }

    /// Hides a range of the snapshot's text.
    pub fn fold(
        &mut self,
        alloc: Global,
        snapshot: Snapshot,
        start: u64,
        end: u64,
    ) -> Result<FoldAnswer, OutOfMemory>
        requires { GoesOn snapshot self.old.shown }
        ensures answer { IfOk result (λ a. fold_answer (fold_fault snapshot start end) ≡ Some a) }
        ensures after { OnOk result (self.new
            ≡ with_map (after_fold start end (synced snapshot self.old)) self.old) }
        ensures err { OnErr result ((self.new ≡ self.old)
            ⊎ (self.new ≡ with_map (synced snapshot self.old) self.old)) }
    {
        let mut map = self.take_synced(alloc, snapshot)?;
        let folded = map.fold(start, end);
        self.map = Some(map);
        answers::fold_answer(folded)
    }

    /// Takes away the folds that share a byte with a range of the snapshot's text.
    pub fn unfold(
        &mut self,
        alloc: Global,
        snapshot: Snapshot,
        start: u64,
        end: u64,
    ) -> Result<UnfoldAnswer, OutOfMemory>
        requires { GoesOn snapshot self.old.shown }
        ensures answer { IfOk result (λ a. unfold_answer
            (unfold_outcome start end (synced snapshot self.old)) ≡ Some a) }
        ensures after { OnOk result (self.new
            ≡ with_map (after_unfold start end (synced snapshot self.old)) self.old) }
        ensures err { OnErr result ((self.new ≡ self.old)
            ⊎ (self.new ≡ with_map (synced snapshot self.old) self.old)) }
    {
        let mut map = self.take_synced(alloc, snapshot)?;
        let unfolded = map.unfold(start, end);
        self.map = Some(map);
        answers::unfold_answer(unfolded)
    }

    /// What is shown of the snapshot's text.
    pub fn text(&mut self, alloc: Global, snapshot: Snapshot) -> Result<Text, OutOfMemory>
        requires { GoesOn snapshot self.old.shown }
        ensures text { IfOk result (λ t. t ≡ shown (synced snapshot self.old)) }
        ensures after { OnOk result (self.new ≡ with_map (synced snapshot self.old) self.old) }
        ensures err { OnErr result ((self.new ≡ self.old)
            ⊎ (self.new ≡ with_map (synced snapshot self.old) self.old)) }
    {
        let map = self.take_synced(alloc, snapshot)?;
        let text = map.text();
        self.map = Some(map);
        Ok(Text::new(text?))
    }

    /// The shown places of a place of the snapshot's text.
    pub fn display(
        &mut self,
        alloc: Global,
        snapshot: Snapshot,
        offset: u64,
    ) -> Result<DisplayAnswer, OutOfMemory>
        requires { GoesOn snapshot self.old.shown }
        ensures answer { IfOk result (λ a. a ≡ display_answer (synced snapshot self.old) offset) }
        ensures after { OnOk result (self.new ≡ with_map (synced snapshot self.old) self.old) }
        ensures err { OnErr result (self.new ≡ self.old) }
    {
        let map = self.take_synced(alloc, snapshot)?;
        let answer = answers::display_answer(&map, offset);
        self.map = Some(map);
        Ok(answer)
    }
}
