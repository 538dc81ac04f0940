//! What a session has selected, line by line.
ghost use Rattle.std.specs.Prelude.{◌≡◌, ◌⊎◌, ◌==◌, Some, map, IfOk, OnErr, OnOk};
ghost use Rattle.std.specs.List.{All, position};
ghost use Rattle.std.specs.Option.{option_copied};
ghost use Rattle.std.specs.Result.{result_ok};
ghost use Rattle.op_model.specs.Domains.{IsReplica};
ghost use Rattle.selections.specs.Sets.{new_state};
ghost use Rattle.session_selections.specs.Answers.{select_answer};
ghost use Rattle.session_selections.specs.Lines.{after_select, after_share, select_report, selected_report, sets_after_select, share_report};
ghost use Rattle.session_selections.specs.Names.{by_bytes, with_name};
ghost use Rattle.session_selections.specs.State.{opening_selections, sets_of};

use crate::replica::ReplicaSets;
use crate::{OutOfMemory, answers, names};
use op_model::Text;
use selections::{SelectionOp, SetFault};
use session_more::{MoreReport, SelectAnswer};
use std::alloc::Global;
use std::collections::BTreeMap;
use std::marker::Model;
use text_buffer::Snapshot;

/// What the replicas of a session have selected and taken, and the operations that are kept under names for all of them.
/// Contracts see the sets of the replicas, in the header's order, and the operations by their names.
#[derive(Drop)]
pub struct SessionSelections {
    replicas: Vec<ReplicaSets>,
    selects: BTreeMap<String, SelectionOp>,
}

impl Model for SessionSelections {
    ghost use Rattle.session_selections.specs.Names.{by_bytes};
    ghost use Rattle.session_selections.specs.State.{SelectionWork};

    ghost Value = { SelectionWork };

    ghost view = { λ s. record {
      sets = s.replicas.items;
      selects = by_bytes s.selects.entries;
    } };
}

impl SessionSelections {
    /// The replicas of a header, which have selected nothing yet. Linear in their number.
    ///
    /// # Errors
    ///
    /// `OutOfMemory` if an allocation fails.
    pub fn new(alloc: Global, ids: &[u16]) -> Result<SessionSelections, OutOfMemory>
        requires { All IsReplica ids.now }
        ensures { IfOk result (λ s. s ≡ opening_selections ids.now) }
    {
        Ok(SessionSelections {
            replicas: open_replicas(alloc, ids)?,
            selects: BTreeMap::new(alloc),
        })
    }

    /// Works a `select` line: the replica selects ranges of the text of a snapshot of its buffer, and the operation that it makes
    /// of them is kept under the name, in the place of an earlier one. Ranges that are refused change nothing. Returns the
    /// line of the report, or `None` if no replica of the session has the id.
    ///
    /// Each range is a few descents in the snapshot; besides, linear in the number of replicas and logarithmic in the names.
    ///
    /// # Errors
    ///
    /// `OutOfMemory` if an allocation fails. Then nothing more is kept under names, and the replica may have selected the ranges.
    pub fn select(
        &mut self,
        alloc: Global,
        id: u16,
        name: Text,
        snapshot: &Snapshot,
        ranges: &[(u64, u64)],
    ) -> Result<Option<MoreReport>, OutOfMemory>
        ensures report { IfOk result
            (λ r. r ≡ select_report id name ranges.now snapshot.now self.old) }
        ensures state { OnOk result
            (self.new ≡ after_select id name ranges.now snapshot.now self.old) }
        ensures err { OnErr result (self.new.selects ≡ self.old.selects) }
        ensures sets { OnErr result ((self.new.sets ≡ self.old.sets)
            ⊎ (self.new.sets ≡ sets_after_select id ranges.now snapshot.now self.old.sets)) }
    {
        let Some(index) = index_of(&self.replicas, id) else {
            return Ok(None);
        };
        let made = self.replicas[index].set(snapshot, ranges);
        let answer = keep_made(alloc, &mut self.selects, &name, made)?;
        Ok(Some(MoreReport::Select { name, answer }))
    }

    /// Works a `share` line: the replica takes a copy of the operation that is kept under the name, if one is. Returns the line
    /// of the report, or `None` if no replica of the session has the id. Linear in the number of replicas and of those that the
    /// replica has operations of, and logarithmic in the names.
    ///
    /// # Errors
    ///
    /// `OutOfMemory` if an allocation fails; nothing has changed then.
    pub fn share(
        &mut self,
        alloc: Global,
        id: u16,
        name: Text,
    ) -> Result<Option<MoreReport>, OutOfMemory>
        ensures report { IfOk result (λ r. r ≡ share_report id name self.old) }
        ensures state { OnOk result (self.new ≡ after_share id name self.old) }
        ensures err { OnErr result (self.new ≡ self.old) }
    {
        let Some(index) = index_of(&self.replicas, id) else {
            return Ok(None);
        };
        let op = names::copy_under(alloc, &self.selects, &name)?;
        let answer = self.replicas[index].share(op)?;
        Ok(Some(MoreReport::Share {
            name,
            replica: id,
            answer,
        }))
    }

    /// Works a `selected` line: where the selections are that the replica has of the author, in the text of a snapshot of the
    /// replica's buffer. Returns the line of the report, or `None` if no replica of the session has the id. Each range is a few
    /// descents in the snapshot; besides, linear in the number of replicas.
    ///
    /// # Errors
    ///
    /// `OutOfMemory` if an allocation fails.
    pub fn selected(
        &self,
        alloc: Global,
        id: u16,
        author: u16,
        snapshot: &Snapshot,
    ) -> Result<Option<MoreReport>, OutOfMemory>
        ensures { IfOk result (λ r. r ≡ selected_report id author snapshot.now self.now) }
    {
        let Some(sets) = find(&self.replicas, id) else {
            return Ok(None);
        };
        let answer = sets.selected(alloc, snapshot, author)?;
        Ok(Some(MoreReport::Selected {
            author,
            replica: id,
            answer,
        }))
    }
}

// The sets of replicas that have selected nothing.
fn open_replicas(alloc: Global, ids: &[u16]) -> Result<Vec<ReplicaSets>, OutOfMemory>
    requires { All IsReplica ids.now }
    ensures { IfOk result (λ v. v.items ≡ map new_state ids.now) }
{
    let mut replicas = Vec::with_capacity(alloc, ids.len())?;
    for id in ids {
        replicas.push(ReplicaSets::new(alloc, *id)?)?;
    }
    Ok(replicas)
}

// The index of the replica with that id.
fn index_of(replicas: &[ReplicaSets], id: u16) -> Option<usize>
    ensures { result ≡ position (λ s. s.replica == id) replicas.now }
{
    replicas.iter().position(|sets| sets.has_id(id))
}

// The sets of the replica with that id.
fn find(replicas: &[ReplicaSets], id: u16) -> Option<&ReplicaSets>
    ensures { option_copied result ≡ sets_of id replicas.now }
{
    match index_of(replicas, id) {
        Some(index) => Some(&replicas[index]),
        None => None,
    }
}

// Keeps the operation that was made, if one was, and returns what is reported of it.
fn keep_made(
    alloc: Global,
    selects: &mut BTreeMap<String, SelectionOp>,
    name: &Text,
    made: Result<SelectionOp, SetFault>,
) -> Result<SelectAnswer, OutOfMemory>
    ensures answer { IfOk result (λ a. select_answer made ≡ Some a) }
    ensures selects { OnOk result (by_bytes selects.new.entries
        ≡ with_name name.now (result_ok made) (by_bytes selects.old.entries)) }
    ensures err { OnErr result (by_bytes selects.new.entries ≡ by_bytes selects.old.entries) }
{
    match made {
        Ok(op) => {
            let stamp = op.stamp;
            names::keep(alloc, selects, name, op)?;
            Ok(SelectAnswer::Made(stamp))
        }
        Err(fault) => answers::set_refusal(fault),
    }
}
