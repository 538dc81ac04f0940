//! The replicas of a session, which are found by their ids.
ghost use Rattle.op_model.specs.Domains.{IsReplica};
ghost use Rattle.std.specs.Prelude.{◌≡◌, ◌⊎◌, ◌≤◌, ◌<◌, ◌^◌, ◌++◌, ◌==◌, ℕ, None, Some, get_or, length, map, All, IfErr, IfOk, OnOk};
ghost use Rattle.std.specs.Option.{option_and_then, option_copied, option_map};
ghost use Rattle.std.specs.Result.{result_ok};
ghost use Rattle.std.specs.List.{position};
ghost use Rattle.session_lines.specs.Report.{report_text};
ghost use Rattle.op_model.specs.Rules.{text_under};
ghost use Rattle.text_buffer.specs.Buffer.{base_fault, base_under};
ghost use Rattle.text_buffer.specs.declared.faults.NewFault.{NewFault};
ghost use Rattle.session_work.specs.Exchange.{undo_outcome_of};
ghost use Rattle.session_work.specs.Later.{AllGrow};
ghost use Rattle.session_work.specs.Parts.{after_parts_from, outcomes_from, settled_from};
ghost use Rattle.session_work.specs.Work.{after_give, after_outcome, after_reopen, applied_count, buffer_of, edit_outcome, give_answer, first_buffer, outcome_reports, reports_at, with_buffer, session_limit};

use crate::OutOfMemory;
use crate::replica::Replica;
use lamport_clock::Lamport;
use op_model::{LAST_REPLICA, Operation, Pieces};
use session_excerpts::SplitParts;
use session_lines::GiveAnswer;
use session_more::PartAnswer;
use std::alloc::Global;
use std::marker::Model;
use text_buffer::{Base, Endings, NewFault};

/// How many ids the table has, from 0: an id in a header is one of them.
const IDS: u16 = LAST_REPLICA + 1;

/// Replicas in the header's order, each found by its id in constant time. Seen as the list of their buffers.
#[derive(Drop)]
pub struct Replicas {
    list: Vec<Replica>,
    /// The index in the list of the first replica with each id of the table, if one has it.
    indices: Vec<Option<usize>>,
}

impl Model for Replicas {
    ghost use Rattle.std.specs.Prelude.{List};
    ghost use Rattle.text_buffer.specs.Buffer.{BufferState};

    ghost Value = { List BufferState };

    ghost use Rattle.session_work.specs.ReplicaIndices.{AreFound};

    ghost view = { λ r. r.list.items };

    ghost invariant = { AreFound };
}

impl Replicas {
    /// The replicas over a base, which is made ready once for all of them. Takes the time of that, and of a walk along the ids for
    /// each id of the table.
    pub fn over(
        alloc: Global,
        endings: Endings,
        ids: &[u16],
        base: &str,
    ) -> Result<Replicas, OutOfMemory>
        requires ids { All IsReplica ids.now }
        requires base { length base.now ≤ session_limit }
        ensures { IfOk result
            (λ r. r ≡ map (first_buffer (base_under endings base.now)) ids.now) }
    {
        let list = replicas_over(alloc, endings, ids, base)?;
        let indices = indices_of(alloc, ids)?;
        Ok(Replicas { list, indices })
    }

    /// The replicas, in the header's order.
    pub fn as_slice(&self) -> &[Replica]
        ensures { result.now ≡ self.now }
    {
        self.list.as_slice()
    }

    /// The index of the replica with that id, where it is there. In constant time, where the id is one of the table.
    pub fn index_of(&self, id: u16) -> Option<usize>
        ensures { result ≡ position (λ b. b.replica == id) self.now }
    {
        match self.indices.get(id as usize) {
            Some(index) => *index,
            None => index_among(self.list.as_slice(), id),
        }
    }

    /// The replica with that id, where it is there.
    pub fn find(&self, id: u16) -> Option<&Replica>
        ensures { option_copied result ≡ buffer_of id self.now }
    {
        match self.index_of(id) {
            Some(index) => Some(&self.list[index]),
            None => None,
        }
    }

    /// Edits the text of the replica with that id, where it is there, as the operation line with that number. Gives the operation,
    /// where one is made.
    pub fn edit(
        &mut self,
        alloc: Global,
        id: u16,
        number: u64,
        pieces: &Pieces,
        out: &mut Vec<u8>,
    ) -> Result<Option<Operation>, OutOfMemory>
        ensures report { OnOk result (out.new.items ≡ out.old.items
            ++ report_text (reports_at
            (λ b. outcome_reports number (edit_outcome number pieces.now b) b)
            (buffer_of id self.old))) }
        ensures after { OnOk result (self.new
            ≡ with_buffer id (λ b. after_outcome (edit_outcome number pieces.now b) b) self.old) }
        ensures made { IfOk result (λ o. o ≡ option_and_then
            (λ b. result_ok (edit_outcome number pieces.now b)) (buffer_of id self.old)) }
        ensures grows { AllGrow self.old self.new }
    {
        let Some(index) = self.index_of(id) else {
            return Ok(None);
        };
        self.list[index].edit(alloc, number, pieces, out)
    }

    /// Undoes or redoes the edits with these stamps at the replica with that id, if there is one, as the operation line with that
    /// number, unless it names a number without an operation. Gives the undo, where one is made.
    pub fn undo(
        &mut self,
        alloc: Global,
        id: u16,
        number: u64,
        unnamed: Option<u64>,
        edits: &[Lamport],
        out: &mut Vec<u8>,
    ) -> Result<Option<Operation>, OutOfMemory>
        ensures report { OnOk result (out.new.items ≡ out.old.items
            ++ report_text (reports_at
            (λ b. outcome_reports number (undo_outcome_of number unnamed edits.now b) b)
            (buffer_of id self.old))) }
        ensures after { OnOk result (self.new
            ≡ with_buffer id (λ b. after_outcome
            (undo_outcome_of number unnamed edits.now b) b) self.old) }
        ensures made { IfOk result (λ o. o ≡ option_and_then
            (λ b. result_ok (undo_outcome_of number unnamed edits.now b))
            (buffer_of id self.old)) }
        ensures grows { AllGrow self.old self.new }
    {
        let Some(index) = self.index_of(id) else {
            return Ok(None);
        };
        self.list[index].undo(alloc, number, unnamed, edits, out)
    }

    /// Edits the text of each replica by its pieces of an edit of excerpts, if it has some, and settles it. Reports the settling alone.
    /// Returns for each replica the operation, or what is said in its place.
    pub fn edit_parts(
        &mut self,
        alloc: Global,
        parts: &SplitParts,
        out: &mut Vec<u8>,
    ) -> Result<Vec<Result<Operation, PartAnswer>>, OutOfMemory>
        requires { length self.old < 2 ^ 32 }
        ensures report { OnOk result (out.new.items
            ≡ out.old.items ++ report_text (settled_from 0 parts.now self.old)) }
        ensures after { OnOk result (self.new ≡ after_parts_from 0 parts.now self.old) }
        ensures outcomes { IfOk result (λ v. v.items ≡ outcomes_from 0 parts.now self.old) }
        ensures grows { AllGrow self.old self.new }
    {
        edit_each(&mut self.list, alloc, parts, out)
    }

    /// Gives the operation with that number, if there is one, to the replica with that id, if there is one. Returns its answer.
    pub fn give(
        &mut self,
        id: u16,
        operation: Option<Operation>,
    ) -> Result<Option<GiveAnswer>, OutOfMemory>
        ensures answer { IfOk result (λ g. g ≡ option_map (give_answer operation)
            (buffer_of id self.old)) }
        ensures after { OnOk result (self.new ≡ with_buffer id (after_give operation) self.old) }
        ensures grows { AllGrow self.old self.new }
    {
        let Some(index) = self.index_of(id) else {
            return Ok(None);
        };
        Ok(Some(self.list[index].give(operation)?))
    }

    /// Opens the buffer of the replica with that id, if there is one, with copies of what it has applied. Returns how many operations
    /// that are, the base not counted.
    pub fn reopen(&mut self, alloc: Global, id: u16) -> Result<Option<u64>, OutOfMemory>
        ensures count { IfOk result (λ count. count
            ≡ option_map (λ b. applied_count b.history) (buffer_of id self.old)) }
        ensures after { OnOk result (self.new ≡ with_buffer id after_reopen self.old) }
        ensures grows { AllGrow self.old self.new }
    {
        let Some(index) = self.index_of(id) else {
            return Ok(None);
        };
        Ok(Some(self.list[index].reopen(alloc)?))
    }
}

/// Edits the text of each replica by its pieces of an edit of excerpts, if it has some, and settles it. Reports the settling alone.
fn edit_each(
    replicas: &mut [Replica],
    alloc: Global,
    parts: &SplitParts,
    out: &mut Vec<u8>,
) -> Result<Vec<Result<Operation, PartAnswer>>, OutOfMemory>
    requires { length replicas.old < 2 ^ 32 }
    ensures report { OnOk result (out.new.items
        ≡ out.old.items ++ report_text (settled_from 0 parts.now replicas.old)) }
    ensures after { OnOk result (replicas.new ≡ after_parts_from 0 parts.now replicas.old) }
    ensures outcomes { IfOk result (λ v. v.items ≡ outcomes_from 0 parts.now replicas.old) }
    ensures grows { AllGrow replicas.old replicas.new }
{
    let mut outcomes = Vec::with_capacity(alloc, replicas.len())?;
    for index in 0..replicas.len() {
        let pieces = parts.pieces_of(index as u32);
        let outcome = replicas[index].edit_part(alloc, pieces, out)?;
        outcomes.push(outcome)?;
    }
    Ok(outcomes)
}

/// The index of the replica with that id, by a walk along them.
fn index_among(replicas: &[Replica], id: u16) -> Option<usize>
    ensures { result ≡ position (λ b. b.replica == id) replicas.now }
{
    replicas.iter().position(|replica| replica.has_id(id))
}

/// The index of an id among the ids.
fn index_in(ids: &[u16], id: u16) -> Option<usize>
    ensures { result ≡ position (λ i. i == id) ids.now }
{
    ids.iter().position(|other| *other == id)
}

/// The index among the ids of each id of the table.
fn indices_of(alloc: Global, ids: &[u16]) -> Result<Vec<Option<usize>>, OutOfMemory>
    ensures { IfOk result (λ v. (k : ℕ) → k < length v.items
        → get_or v.items k None ≡ position (λ i. i == k) ids.now) }
{
    let mut indices = Vec::with_capacity(alloc, IDS as usize)?;
    for id in 0..IDS {
        indices.push(index_in(ids, id))?;
    }
    Ok(indices)
}

/// The base of a text, by what the buffers over it do with line endings.
fn base_under(alloc: Global, endings: Endings, text: &str) -> Result<Base, NewFault>
    ensures new { IfOk result (λ b. b ≡ base_under endings text.now) }
    ensures fault { IfErr result (λ e. (base_fault (text_under endings text.now) ≡ Some e)
        ⊎ ((base_fault (text_under endings text.now) ≡ None) × (e ≡ NewFault.OutOfMemory))) }
{
    match endings {
        Endings::AsIs => Base::new(alloc, text),
        Endings::Lf => Base::new_lf(alloc, text),
    }
}

/// The replicas over the base, which is made ready once for all of them, by what their buffers do with line endings.
fn replicas_over(
    alloc: Global,
    endings: Endings,
    ids: &[u16],
    base: &str,
) -> Result<Vec<Replica>, OutOfMemory>
    requires ids { All IsReplica ids.now }
    requires base { length base.now ≤ session_limit }
    ensures { IfOk result
        (λ v. v.items ≡ map (first_buffer (base_under endings base.now)) ids.now) }
{
    match base_under(alloc, endings, base) {
        Ok(base) => open_replicas(alloc, ids, &base),
        // the base is within every limit, and no longer once it has entered
        Err(NewFault::Full { .. }) => unreachable!(),
        Err(NewFault::OutOfMemory) => Err(OutOfMemory),
    }
}

/// The replicas over a base that they share.
fn open_replicas(alloc: Global, ids: &[u16], base: &Base) -> Result<Vec<Replica>, OutOfMemory>
    requires ids { All IsReplica ids.now }
    requires base { length base.now.text ≤ session_limit }
    ensures { IfOk result (λ v. v.items ≡ map (first_buffer base.now) ids.now) }
{
    let mut replicas = Vec::with_capacity(alloc, ids.len())?;
    for id in ids {
        replicas.push(Replica::new(alloc, *id, base)?)?;
    }
    Ok(replicas)
}
