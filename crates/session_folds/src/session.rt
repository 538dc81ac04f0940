//! What a session has folded, line by line.
ghost use Rattle.std.specs.Prelude.{◌≡◌, ◌⊎◌, ◌==◌, map, IfOk, OnErr, OnOk};
ghost use Rattle.std.specs.List.{position};
ghost use Rattle.session_folds.specs.Lines.{after_fold_line, after_sync, after_unfold_line, display_report, fold_report, folded_report, unfold_report};
ghost use Rattle.session_folds.specs.State.{GoesOnAt, no_folds, opening_folds};

use crate::OutOfMemory;
use crate::replica::ReplicaMap;
use session_more::MoreReport;
use std::alloc::Global;
use std::marker::Model;
use text_buffer::Snapshot;

/// The maps of folds of a session's replicas. Contracts see each replica, in the header's order, with the history and
/// the folds of its map, which is made at the first line that asks for it.
///
/// The snapshot that a call takes is one of the replica's buffer, and has all operations of the one that the
/// replica's last call took. The map goes on to it first. Where an allocation fails, the map is as before or has gone
/// on to the snapshot, and nothing is folded or unfolded.
#[derive(Drop)]
pub struct SessionFolds {
    replicas: Vec<ReplicaMap>,
}

impl Model for SessionFolds {
    ghost use Rattle.std.specs.Prelude.{List};
    ghost use Rattle.session_folds.specs.State.{ReplicaFolds};

    ghost Value = { List ReplicaFolds };

    ghost view = { λ s. s.replicas.items };
}

impl SessionFolds {
    /// The replicas of a header, none of which has a map yet. Linear in their number.
    ///
    /// # Errors
    ///
    /// `OutOfMemory` if an allocation fails.
    pub fn new(alloc: Global, ids: &[u16]) -> Result<SessionFolds, OutOfMemory>
        ensures { IfOk result (λ s. s ≡ opening_folds ids.now) }
    {
        Ok(SessionFolds {
            replicas: open_replicas(alloc, ids)?,
        })
    }

    /// Works a `fold` line, as `FoldMap::fold` does. Returns the line of the report, or `None` if no replica of the
    /// session has the id.
    ///
    /// # Errors
    ///
    /// `OutOfMemory` if an allocation fails.
    pub fn fold(
        &mut self,
        alloc: Global,
        id: u16,
        snapshot: Snapshot,
        start: u64,
        end: u64,
    ) -> Result<Option<MoreReport>, OutOfMemory>
        requires { GoesOnAt id snapshot self.old }
        ensures report { IfOk result (λ r. r ≡ fold_report id start end snapshot self.old) }
        ensures state { OnOk result (self.new ≡ after_fold_line id start end snapshot self.old) }
        ensures err { OnErr result ((self.new ≡ self.old)
            ⊎ (self.new ≡ after_sync id snapshot self.old)) }
    {
        let Some(index) = index_of(&self.replicas, id) else {
            return Ok(None);
        };
        let answer = self.replicas[index].fold(alloc, snapshot, start, end)?;
        Ok(Some(MoreReport::Fold {
            replica: id,
            answer,
        }))
    }

    /// Works an `unfold` line, as `FoldMap::unfold` does. Returns the line of the report, or `None` if no replica of
    /// the session has the id.
    ///
    /// # Errors
    ///
    /// `OutOfMemory` if an allocation fails.
    pub fn unfold(
        &mut self,
        alloc: Global,
        id: u16,
        snapshot: Snapshot,
        start: u64,
        end: u64,
    ) -> Result<Option<MoreReport>, OutOfMemory>
        requires { GoesOnAt id snapshot self.old }
        ensures report { IfOk result (λ r. r ≡ unfold_report id start end snapshot self.old) }
        ensures state { OnOk result (self.new ≡ after_unfold_line id start end snapshot self.old) }
        ensures err { OnErr result ((self.new ≡ self.old)
            ⊎ (self.new ≡ after_sync id snapshot self.old)) }
    {
        let Some(index) = index_of(&self.replicas, id) else {
            return Ok(None);
        };
        let answer = self.replicas[index].unfold(alloc, snapshot, start, end)?;
        Ok(Some(MoreReport::Unfold {
            replica: id,
            answer,
        }))
    }

    /// Works a `folded` line: what is shown of the replica's text. Returns the line of the report, or `None` if no
    /// replica of the session has the id. Linear in what is shown.
    ///
    /// # Errors
    ///
    /// `OutOfMemory` if an allocation fails.
    pub fn folded(
        &mut self,
        alloc: Global,
        id: u16,
        snapshot: Snapshot,
    ) -> Result<Option<MoreReport>, OutOfMemory>
        requires { GoesOnAt id snapshot self.old }
        ensures report { IfOk result (λ r. r ≡ folded_report id snapshot self.old) }
        ensures state { OnOk result (self.new ≡ after_sync id snapshot self.old) }
        ensures err { OnErr result ((self.new ≡ self.old)
            ⊎ (self.new ≡ after_sync id snapshot self.old)) }
    {
        let Some(index) = index_of(&self.replicas, id) else {
            return Ok(None);
        };
        let text = self.replicas[index].text(alloc, snapshot)?;
        Ok(Some(MoreReport::Folded { replica: id, text }))
    }

    /// Works a `display` line: the shown places of a place of the replica's text, as `FoldMap::to_shown` has them to
    /// the left and to the right. Returns the line of the report, or `None` if no replica of the session has the id.
    ///
    /// # Errors
    ///
    /// `OutOfMemory` if an allocation fails.
    pub fn display(
        &mut self,
        alloc: Global,
        id: u16,
        snapshot: Snapshot,
        offset: u64,
    ) -> Result<Option<MoreReport>, OutOfMemory>
        requires { GoesOnAt id snapshot self.old }
        ensures report { IfOk result (λ r. r ≡ display_report id offset snapshot self.old) }
        ensures state { OnOk result (self.new ≡ after_sync id snapshot self.old) }
        ensures err { OnErr result (self.new ≡ self.old) }
    {
        let Some(index) = index_of(&self.replicas, id) else {
            return Ok(None);
        };
        let answer = self.replicas[index].display(alloc, snapshot, offset)?;
        Ok(Some(MoreReport::Display {
            offset,
            replica: id,
            answer,
        }))
    }
}

// The replicas with these ids, without maps.
fn open_replicas(alloc: Global, ids: &[u16]) -> Result<Vec<ReplicaMap>, OutOfMemory>
    ensures { IfOk result (λ v. v.items ≡ map no_folds ids.now) }
{
    let mut replicas = Vec::with_capacity(alloc, ids.len())?;
    for id in ids {
        replicas.push(ReplicaMap::new(*id))?;
    }
    Ok(replicas)
}

// The index of the replica with that id.
fn index_of(replicas: &[ReplicaMap], id: u16) -> Option<usize>
    ensures { result ≡ position (λ f. f.replica == id) replicas.now }
{
    replicas.iter().position(|folds| folds.has_id(id))
}
