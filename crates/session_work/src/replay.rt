//! A session worked line by line, and its report.
ghost use Rattle.std.specs.Prelude.{◌≡◌, ◌≤◌, ◌<◌, ◌+◌, ◌^◌, ◌++◌, ◌==◌, [], ◌∷◌, is_some, length, map, ℕ, Some, IfOk, OnOk};
ghost use Rattle.std.specs.Option.{option_copied, option_map, option_to_list};
ghost use Rattle.std.specs.List.{All, count_by, flat_map, position};
ghost use Rattle.op_model.specs.Domains.{IsReplica};
ghost use Rattle.op_model.specs.Operations.{stamp_of};
ghost use Rattle.session_lines.specs.Report.{report_text};
ghost use Rattle.session_lines.specs.declared.report.Report.{Report};
ghost use Rattle.session_lines.specs.declared.session.SessionLine.{SessionLine};
ghost use Rattle.session_more.specs.Reports.{more_report_text};
ghost use Rattle.session_more.specs.declared.session.MoreLine.{MoreLine};
ghost use Rattle.session_work.specs.Later.{AllGrow};
ghost use Rattle.session_work.specs.Work.{at_end, buffer_of, events, next_number, with_operation_line, first_buffer, step, session_limit, histories};
ghost use Rattle.session_work.specs.Room.{HasRoom};
ghost use Rattle.session_work.specs.Queries.{plain_line};
ghost use Rattle.session_work.specs.MoreQueries.{more_queries_from, more_query_at, more_report_of};
ghost use Rattle.session_work.specs.MoreWork.{IsMoreSession, after_all_more, all_more_events};
ghost use Rattle.session_work.specs.Parts.{medit_answer, parts_of, settled_from, with_parts};
ghost use Rattle.session_work.specs.Making.{text_len};
ghost use Rattle.session_work.specs.Names.{by_bytes};
ghost use Rattle.session_work.specs.Working.{more_state_of, state_of};
ghost use Rattle.text_buffer.specs.Buffer.{BufferState, base_under};

use crate::exchange::Exchange;
use crate::more::MoreProgress;
use crate::replica::Replica;
use crate::{OutOfMemory, names};
use lamport_clock::Version;
use op_model::{Anchor, Bias, Endings, Operation, Pieces, Text};
use session_excerpts::{SplitAnswer, SplitParts};
use session_lines::{Numbers, Report, SessionLine, write_line};
use session_more::{MeditAnswer, MoreLine, MoreQueue, MoreSession};
use std::alloc::Global;
use std::collections::BTreeMap;
use text_buffer::Snapshot;

/// A session as far as it was worked.
#[derive(Drop)]
pub struct Progress {
    /// The replicas, and the operation of each operation line.
    pub exchange: Exchange,
    /// The anchors that are kept under names.
    pub anchors: BTreeMap<String, Anchor>,
    /// The versions that are kept under names.
    pub marks: BTreeMap<String, Version>,
    /// The lines of the events.
    pub report: Vec<u8>,
}

impl Progress {
    /// What the replica with that id is now, where it is there.
    pub fn snapshot_of(&self, id: u16) -> Result<Option<Snapshot>, OutOfMemory>
        ensures { IfOk result (λ s. s ≡ option_map (λ (b : BufferState). b.history)
            (buffer_of id self.now.exchange.buffers)) }
    {
        let Some(replica) = self.exchange.find(id) else {
            return Ok(None);
        };
        Ok(Some(replica.snapshot()?))
    }

    /// Works an edit line.
    fn work_edit(&mut self, alloc: Global, id: u16, pieces: &Pieces) -> Result<(), OutOfMemory>
        ensures report { OnOk result (self.new.report.items
            ≡ self.old.report.items
            ++ report_text (events (SessionLine.Edit id pieces.now) (state_of self.old))) }
        ensures state { OnOk result (state_of self.new
            ≡ step (SessionLine.Edit id pieces.now) (state_of self.old)) }
        ensures grows { AllGrow self.old.exchange.buffers self.new.exchange.buffers }
    {
        self.exchange.edit(alloc, id, pieces, &mut self.report)
    }

    /// Works an undo line.
    fn work_undo(&mut self, alloc: Global, id: u16, numbers: &Numbers) -> Result<(), OutOfMemory>
        ensures report { OnOk result (self.new.report.items
            ≡ self.old.report.items
            ++ report_text (events (SessionLine.Undo id numbers.now) (state_of self.old))) }
        ensures state { OnOk result (state_of self.new
            ≡ step (SessionLine.Undo id numbers.now) (state_of self.old)) }
        ensures grows { AllGrow self.old.exchange.buffers self.new.exchange.buffers }
    {
        self.exchange
            .undo(alloc, id, numbers.as_slice(), &mut self.report)
    }

    /// Works a line that has an operation in it.
    fn work_operation(&mut self, alloc: Global, operation: Operation) -> Result<(), OutOfMemory>
        ensures report { OnOk result (self.new.report.items
            ≡ self.old.report.items
            ++ report_text (Report.Made (next_number (state_of self.old)) (stamp_of operation)
            ∷ [])) }
        ensures state { OnOk result (state_of self.new
            ≡ with_operation_line self.old.exchange.buffers (Some operation) (state_of self.old)) }
        ensures grows { AllGrow self.old.exchange.buffers self.new.exchange.buffers }
    {
        let number = self.exchange.next_number();
        let stamp = operation.stamp();
        self.exchange.keep(alloc, operation)?;
        write_line(alloc, &mut self.report, &Report::Made { number, stamp })?;
        Ok(())
    }

    /// Works a line that gives an operation to a replica.
    fn work_give(&mut self, alloc: Global, id: u16, number: u64) -> Result<(), OutOfMemory>
        ensures report { OnOk result (self.new.report.items
            ≡ self.old.report.items
            ++ report_text (events (SessionLine.Give id number) (state_of self.old))) }
        ensures state { OnOk result (state_of self.new
            ≡ step (SessionLine.Give id number) (state_of self.old)) }
        ensures grows { AllGrow self.old.exchange.buffers self.new.exchange.buffers }
    {
        let Some(answer) = self.exchange.give(alloc, id, number)? else {
            return Ok(());
        };
        let report = Report::Give {
            number,
            replica: id,
            answer,
        };
        write_line(alloc, &mut self.report, &report)?;
        Ok(())
    }

    /// Works a line that shows a text.
    #[tactic(auto, using(crate::proofs::Growth::all_themselves))]
    fn work_text(&mut self, alloc: Global, id: u16) -> Result<(), OutOfMemory>
        ensures report { OnOk result (self.new.report.items
            ≡ self.old.report.items
            ++ report_text (events (SessionLine.Text id) (state_of self.old))) }
        ensures state { OnOk result (state_of self.new
            ≡ step (SessionLine.Text id) (state_of self.old)) }
        ensures grows { AllGrow self.old.exchange.buffers self.new.exchange.buffers }
    {
        let Some(replica) = self.exchange.find(id) else {
            return Ok(());
        };
        replica.write_shown(alloc, &mut self.report)?;
        Ok(())
    }

    /// Works a line that makes an anchor.
    #[tactic(auto, using(crate::proofs::Growth::all_themselves))]
    fn work_anchor(
        &mut self,
        alloc: Global,
        id: u16,
        name: Text,
        offset: u64,
        bias: Bias,
    ) -> Result<(), OutOfMemory>
        ensures report { OnOk result (self.new.report.items
            ≡ self.old.report.items
            ++ report_text (events (SessionLine.Anchor id name offset bias)
            (state_of self.old))) }
        ensures state { OnOk result (state_of self.new
            ≡ step (SessionLine.Anchor id name offset bias) (state_of self.old)) }
        ensures grows { AllGrow self.old.exchange.buffers self.new.exchange.buffers }
    {
        let Some(snapshot) = self.snapshot_of(id)? else {
            return Ok(());
        };
        let made = snapshot.anchor(offset, bias);
        drop(snapshot);
        let answer = names::keep_anchor(alloc, &mut self.anchors, &name, made)?;
        write_line(alloc, &mut self.report, &Report::Anchor { name, answer })?;
        Ok(())
    }

    /// Works a line that asks where an anchor is.
    #[tactic(auto, using(crate::proofs::Growth::all_themselves))]
    fn work_where(&mut self, alloc: Global, id: u16, name: Text) -> Result<(), OutOfMemory>
        ensures report { OnOk result (self.new.report.items
            ≡ self.old.report.items
            ++ report_text (events (SessionLine.Where id name) (state_of self.old))) }
        ensures state { OnOk result (state_of self.new
            ≡ step (SessionLine.Where id name) (state_of self.old)) }
        ensures grows { AllGrow self.old.exchange.buffers self.new.exchange.buffers }
    {
        let Some(snapshot) = self.snapshot_of(id)? else {
            return Ok(());
        };
        let answer = names::where_answer(&snapshot, names::find(&self.anchors, &name));
        drop(snapshot);
        let report = Report::Where {
            name,
            replica: id,
            answer,
        };
        write_line(alloc, &mut self.report, &report)?;
        Ok(())
    }

    /// Works a line that keeps a version.
    #[tactic(auto, using(crate::proofs::Growth::all_themselves))]
    fn work_mark(&mut self, alloc: Global, id: u16, name: Text) -> Result<(), OutOfMemory>
        ensures report { OnOk result (self.new.report.items
            ≡ self.old.report.items
            ++ report_text (events (SessionLine.Mark id name) (state_of self.old))) }
        ensures state { OnOk result (state_of self.new
            ≡ step (SessionLine.Mark id name) (state_of self.old)) }
        ensures grows { AllGrow self.old.exchange.buffers self.new.exchange.buffers }
    {
        let Some(snapshot) = self.snapshot_of(id)? else {
            return Ok(());
        };
        let version = snapshot.version().copy(alloc)?;
        drop(snapshot);
        names::keep(alloc, &mut self.marks, &name, version)?;
        write_line(alloc, &mut self.report, &Report::Mark { name })?;
        Ok(())
    }

    /// What a line reports that asks what changed since a version, where both are there.
    fn since_of(&self, id: u16, name: Text) -> Result<Option<Report>, OutOfMemory>
        ensures { IfOk result (λ r. option_to_list r
            ≡ events (SessionLine.Since id name) (state_of self.now)) }
    {
        let Some(version) = names::find(&self.marks, &name) else {
            return Ok(None);
        };
        let Some(snapshot) = self.snapshot_of(id)? else {
            return Ok(None);
        };
        let answer = names::since_answer(&snapshot, version)?;
        drop(snapshot);
        Ok(Some(Report::Since {
            name,
            replica: id,
            answer,
        }))
    }

    /// Works a line that asks what changed since a version.
    #[tactic(auto, using(crate::proofs::Growth::all_themselves))]
    fn work_since(&mut self, alloc: Global, id: u16, name: Text) -> Result<(), OutOfMemory>
        ensures report { OnOk result (self.new.report.items
            ≡ self.old.report.items
            ++ report_text (events (SessionLine.Since id name) (state_of self.old))) }
        ensures state { OnOk result (state_of self.new
            ≡ step (SessionLine.Since id name) (state_of self.old)) }
        ensures grows { AllGrow self.old.exchange.buffers self.new.exchange.buffers }
    {
        let Some(report) = self.since_of(id, name)? else {
            return Ok(());
        };
        write_line(alloc, &mut self.report, &report)?;
        Ok(())
    }

    /// Works a line that opens a replica's buffer.
    fn work_reopen(&mut self, alloc: Global, id: u16) -> Result<(), OutOfMemory>
        ensures report { OnOk result (self.new.report.items
            ≡ self.old.report.items
            ++ report_text (events (SessionLine.Reopen id) (state_of self.old))) }
        ensures state { OnOk result (state_of self.new
            ≡ step (SessionLine.Reopen id) (state_of self.old)) }
        ensures grows { AllGrow self.old.exchange.buffers self.new.exchange.buffers }
    {
        let Some(count) = self.exchange.reopen(alloc, id)? else {
            return Ok(());
        };
        let report = Report::Reopen { replica: id, count };
        write_line(alloc, &mut self.report, &report)?;
        Ok(())
    }

    /// Edits the text of each replica by its pieces of an edit of excerpts, if it has some, and settles it. Each replica takes a number of
    /// operation lines, even if the edit is refused. Reports the settling alone, to `out`, and returns what is said of the edit.
    pub fn work_split(
        &mut self,
        alloc: Global,
        split: Option<SplitAnswer>,
        out: &mut Vec<u8>,
    ) -> Result<Option<MeditAnswer>, OutOfMemory>
        requires { length self.old.exchange.buffers < 2 ^ 32 }
        ensures answer { IfOk result (λ a. a
            ≡ medit_answer (next_number (state_of self.old)) split self.old.exchange.buffers) }
        ensures settled { OnOk result (out.new.items ≡ out.old.items
            ++ report_text (settled_from 0 (parts_of split) self.old.exchange.buffers)) }
        ensures state { OnOk result (state_of self.new
            ≡ with_parts (parts_of split) (state_of self.old)) }
        ensures report { self.new.report ≡ self.old.report }
        ensures grows { AllGrow self.old.exchange.buffers self.new.exchange.buffers }
    {
        let none = SplitParts::new(Vec::new(alloc));
        match split {
            Some(SplitAnswer::Parts(parts)) => {
                let numbers = self.exchange.edit_parts(alloc, &parts, out)?;
                Ok(Some(MeditAnswer::Numbers(numbers)))
            }
            Some(SplitAnswer::Refused(fault)) => {
                let _numbers = self.exchange.edit_parts(alloc, &none, out)?;
                Ok(Some(MeditAnswer::Refused(fault)))
            }
            None => {
                let _numbers = self.exchange.edit_parts(alloc, &none, out)?;
                Ok(None)
            }
        }
    }

    /// Works a line. An operation or a name in it is moved to where it is kept or reported.
    pub fn work_line(&mut self, alloc: Global, line: SessionLine) -> Result<(), OutOfMemory>
        ensures report { OnOk result (self.new.report.items
            ≡ self.old.report.items ++ report_text (events line (state_of self.old))) }
        ensures state { OnOk result (state_of self.new ≡ step line (state_of self.old)) }
        ensures grows { AllGrow self.old.exchange.buffers self.new.exchange.buffers }
    {
        match line {
            SessionLine::Op(edit) => self.work_operation(alloc, Operation::Edit(edit)),
            SessionLine::Uop(undo) => self.work_operation(alloc, Operation::Undo(undo)),
            SessionLine::Anchor {
                replica,
                name,
                offset,
                bias,
            } => self.work_anchor(alloc, replica, name, offset, bias),
            SessionLine::Where { replica, name } => self.work_where(alloc, replica, name),
            SessionLine::Mark { replica, name } => self.work_mark(alloc, replica, name),
            SessionLine::Since { replica, name } => self.work_since(alloc, replica, name),
            line => self.work_copy(alloc, &line),
        }
    }

    /// Works a line that its caller keeps: an operation or a name in it is copied.
    #[tactic(auto, using(crate::proofs::Growth::all_themselves, session_lines::proofs::Reports::nothing_written))]
    pub fn work_copy(&mut self, alloc: Global, line: &SessionLine) -> Result<(), OutOfMemory>
        ensures report { OnOk result (self.new.report.items
            ≡ self.old.report.items ++ report_text (events line.now (state_of self.old))) }
        ensures state { OnOk result (state_of self.new ≡ step line.now (state_of self.old)) }
        ensures grows { AllGrow self.old.exchange.buffers self.new.exchange.buffers }
    {
        match line {
            SessionLine::Edit { replica, pieces } => self.work_edit(alloc, *replica, pieces)?,
            SessionLine::Undo { replica, numbers } => self.work_undo(alloc, *replica, numbers)?,
            SessionLine::Op(edit) => {
                self.work_operation(alloc, Operation::Edit(edit.copy(alloc)?))?
            }
            SessionLine::Uop(undo) => {
                self.work_operation(alloc, Operation::Undo(undo.copy(alloc)?))?
            }
            SessionLine::Give { replica, number } => self.work_give(alloc, *replica, *number)?,
            SessionLine::Text { replica } => self.work_text(alloc, *replica)?,
            SessionLine::Anchor {
                replica,
                name,
                offset,
                bias,
            } => self.work_anchor(alloc, *replica, name.copy(alloc)?, *offset, *bias)?,
            SessionLine::Where { replica, name } => {
                self.work_where(alloc, *replica, name.copy(alloc)?)?
            }
            SessionLine::Mark { replica, name } => {
                self.work_mark(alloc, *replica, name.copy(alloc)?)?
            }
            SessionLine::Since { replica, name } => {
                self.work_since(alloc, *replica, name.copy(alloc)?)?
            }
            // queries change nothing, and are answered apart
            SessionLine::Find { .. } => {}
            SessionLine::Point { .. } => {}
            SessionLine::Offset { .. } => {}
            SessionLine::Reopen { replica } => self.work_reopen(alloc, *replica)?,
        }
        Ok(())
    }
}

impl Progress {
    /// Replicas over a base, which have done nothing yet, by what their buffers do with line endings.
    pub fn new(
        alloc: Global,
        endings: Endings,
        ids: &[u16],
        base: &str,
    ) -> Result<Progress, OutOfMemory>
        requires ids { All IsReplica ids.now }
        requires base { length base.now ≤ session_limit }
        ensures buffers { IfOk result
            (λ p. p.exchange.buffers ≡ map (first_buffer (base_under endings base.now)) ids.now) }
        ensures operations { IfOk result (λ p. p.exchange.operations ≡ []) }
        ensures anchors { IfOk result (λ p. by_bytes p.anchors.entries ≡ []) }
        ensures marks { IfOk result (λ p. by_bytes p.marks.entries ≡ []) }
        ensures report { IfOk result (λ p. p.report.items ≡ []) }
    {
        Ok(Progress {
            exchange: Exchange::over(alloc, endings, ids, base)?,
            anchors: BTreeMap::new(alloc),
            marks: BTreeMap::new(alloc),
            report: Vec::new(alloc),
        })
    }

    /// How many bytes the text of the replica with that id has, if it is there.
    pub fn text_len(&self, id: u16) -> u64
        ensures len { result ≡ text_len (buffer_of id self.now.exchange.buffers) }
        ensures bound { result ≤ 2 ^ 40 }
    {
        match self.exchange.find(id) {
            Some(replica) => replica.text_len(),
            None => 0,
        }
    }

    /// The replicas, in the header's order.
    pub fn replicas(&self) -> &[Replica]
        ensures { result.now ≡ self.now.exchange.buffers }
    {
        self.exchange.as_slice()
    }

    /// The index of the replica with that id.
    pub fn index_of(&self, id: u16) -> Option<usize>
        ensures { result ≡ position (λ b. b.replica == id) self.now.exchange.buffers }
    {
        self.exchange.index_of(id)
    }

    /// What each replica is now.
    pub fn snapshots(&self, alloc: Global) -> Result<Vec<Snapshot>, OutOfMemory>
        ensures { IfOk result (λ v. v.items ≡ histories self.now.exchange.buffers) }
    {
        let mut snapshots = Vec::new(alloc);
        for replica in self.exchange.as_slice() {
            snapshots.push(replica.snapshot()?)?;
        }
        Ok(snapshots)
    }

    /// The text of the report, with these lines for the queries.
    pub fn finish(mut self, alloc: Global, answers: &[Report]) -> Result<Vec<u8>, OutOfMemory>
        ensures { IfOk result (λ v. v.items
            ≡ (self.report.items ++ report_text answers.now)
            ++ report_text (flat_map at_end self.exchange.buffers)) }
    {
        write_answers(alloc, answers, &mut self.report)?;
        write_ends(alloc, self.exchange.as_slice(), &mut self.report)?;
        Ok(self.report)
    }

    /// How many operation lines made an operation.
    pub fn made_count(&self) -> u64
        ensures { result ≡ count_by is_some self.now.exchange.operations }
    {
        self.exchange.made_count()
    }
}

/// Writes the lines of all queries.
fn write_answers(alloc: Global, answers: &[Report], out: &mut Vec<u8>) -> Result<(), OutOfMemory>
    ensures { OnOk result (out.new.items ≡ out.old.items ++ report_text answers.now) }
{
    for answer in answers {
        write_line(alloc, out, answer)?;
    }
    Ok(())
}

/// What all replicas report at the end.
fn write_ends(alloc: Global, replicas: &[Replica], out: &mut Vec<u8>) -> Result<(), OutOfMemory>
    ensures { OnOk result (out.new.items
        ≡ out.old.items ++ report_text (flat_map at_end replicas.now)) }
{
    for replica in replicas {
        replica.write_end(alloc, out)?;
    }
    Ok(())
}

/// Answers the line on the spot, where it is a query.
fn answer_if_query(
    progress: &MoreProgress,
    alloc: Global,
    line: &MoreLine,
    answers: &mut Vec<Report>,
) -> Result<(), OutOfMemory>
    ensures { OnOk result (answers.new.items
        ≡ answers.old.items ++ map plain_line
        (more_query_at (length answers.old.items + 1) line.now (more_state_of progress.now))) }
{
    let number = answers.len() as u64 + 1;
    if let Some(answer) = progress.answer(alloc, number, line)? {
        answers.push(answer)?;
    }
    Ok(())
}

/// Works the lines, and answers those that are queries.
fn work_lines(
    progress: &mut MoreProgress,
    alloc: Global,
    mut lines: MoreQueue,
    answers: &mut Vec<Report>,
) -> Result<(), OutOfMemory>
    requires { HasRoom (length lines) (more_state_of progress.old) }
    ensures report { OnOk result (progress.new.plain.report.items
        ≡ progress.old.plain.report.items
        ++ more_report_text (all_more_events lines (more_state_of progress.old))) }
    ensures state { OnOk result (more_state_of progress.new
        ≡ after_all_more lines (more_state_of progress.old)) }
    ensures answers { OnOk result (answers.new.items
        ≡ answers.old.items ++ map plain_line
        (more_queries_from (length answers.old.items + 1) lines (more_state_of progress.old))) }
{
    while let Some((line, rest)) = lines.split_first(alloc)? {
        answer_if_query(progress, alloc, &line, answers)?;
        progress.work_line(alloc, line)?;
        lines = rest;
    }
    Ok(())
}

/// The text of a session's report.
pub fn report(alloc: Global, session: MoreSession) -> Result<Vec<u8>, OutOfMemory>
    requires { IsMoreSession session }
    ensures { IfOk result (λ v. v.items ≡ more_report_text (more_report_of session)) }
{
    let mut progress = MoreProgress::new(alloc, &session)?;
    let mut answers = Vec::new(alloc);
    work_lines(
        &mut progress,
        alloc,
        session.lines.into_queue(),
        &mut answers,
    )?;
    progress.finish(alloc, answers.as_slice())
}
