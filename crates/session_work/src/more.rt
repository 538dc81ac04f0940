//! A session worked line by line, with its lines of further kinds.
ghost use Rattle.std.specs.Prelude.{◌≡◌, ◌++◌, ◌==◌, [], map, IfOk, OnOk};
ghost use Rattle.std.specs.Option.{option_map, option_to_list};
ghost use Rattle.std.specs.List.{flat_map, position};
ghost use Rattle.session_lines.specs.Report.{report_text};
ghost use Rattle.session_more.specs.Reports.{more_report_text};
ghost use Rattle.session_more.specs.declared.report.MoreReport.{MoreReport};
ghost use Rattle.session_more.specs.declared.session.MoreLine.{MoreLine};
ghost use Rattle.session_excerpts.specs.State.{HasRoomAt};
ghost use Rattle.session_work.specs.Work.{at_end, histories};
ghost use Rattle.session_work.specs.MoreWork.{IsMoreSession, more_events, more_opening, more_step};
ghost use Rattle.session_work.specs.Packing.{with_lines};
ghost use Rattle.session_work.specs.Room.{HasRoomFor};
ghost use Rattle.session_work.specs.Working.{buffers_of, more_state_of};

use crate::OutOfMemory;
use crate::replay::Progress;
use crate::replica::Replica;
use op_model::{Operation, Pieces, Text};
use session_excerpts::SessionExcerpts;
use session_folds::SessionFolds;
use session_lines::Report;
use session_more::{MeditAnswer, MoreLine, MoreReport, MoreSession, TextRanges};
use session_selections::SessionSelections;
use std::alloc::Global;
use std::marker::Model;
use text_buffer::Snapshot;

/// A session as far as it was worked, with what its lines of further kinds came to. Contracts see its parts. What a
/// part has taken in of a replica is not ahead of the replica's buffer.
#[derive(Drop)]
pub struct MoreProgress {
    /// What its lines of `session_lines` came to, and the lines of the events.
    pub(crate) plain: Progress,
    /// What its replicas have selected.
    selections: SessionSelections,
    /// What its replicas have folded.
    folds: SessionFolds,
    /// Its excerpts, under names.
    excerpts: SessionExcerpts,
}

impl Model for MoreProgress {
    ghost use Rattle.session_work.specs.Working.{ProgressState};

    ghost Value = { ProgressState };

    ghost use Rattle.session_work.specs.MoreInside.{IsMoreInside, progress_of};

    ghost view = { progress_of };

    ghost invariant = { IsMoreInside };
}

impl MoreProgress {
    /// A session before its first line.
    pub fn new(alloc: Global, session: &MoreSession) -> Result<MoreProgress, OutOfMemory>
        requires { IsMoreSession session.now }
        ensures state { IfOk result (λ p. more_state_of p ≡ more_opening session.now) }
        ensures report { IfOk result (λ p. p.plain.report.items ≡ []) }
    {
        let plain = Progress::new(
            alloc,
            session.endings(),
            session.replicas.as_slice(),
            session.base.as_str(),
        )?;
        let selections = SessionSelections::new(alloc, session.replicas.as_slice())?;
        let folds = SessionFolds::new(alloc, session.replicas.as_slice())?;
        Ok(MoreProgress {
            plain,
            selections,
            folds,
            excerpts: SessionExcerpts::new(alloc),
        })
    }

    /// Works a line that selects ranges.
    fn work_select(
        &mut self,
        alloc: Global,
        id: u16,
        name: Text,
        ranges: &TextRanges,
    ) -> Result<(), OutOfMemory>
        ensures report { OnOk result (self.new.plain.report.items
            ≡ self.old.plain.report.items
            ++ more_report_text (more_events (MoreLine.Select id name ranges.now)
            (more_state_of self.old))) }
        ensures state { OnOk result (more_state_of self.new
            ≡ more_step (MoreLine.Select id name ranges.now) (more_state_of self.old)) }
    {
        let Some(snapshot) = self.plain.snapshot_of(id)? else {
            return Ok(());
        };
        let report = self
            .selections
            .select(alloc, id, name, &snapshot, ranges.as_slice())?;
        drop(snapshot);
        write_event(alloc, report, &mut self.plain.report)
    }

    /// Works a line that gives a replica the selections under a name.
    fn work_share(&mut self, alloc: Global, id: u16, name: Text) -> Result<(), OutOfMemory>
        ensures report { OnOk result (self.new.plain.report.items
            ≡ self.old.plain.report.items
            ++ more_report_text (more_events (MoreLine.Share id name)
            (more_state_of self.old))) }
        ensures state { OnOk result (more_state_of self.new
            ≡ more_step (MoreLine.Share id name) (more_state_of self.old)) }
    {
        let report = self.selections.share(alloc, id, name)?;
        write_event(alloc, report, &mut self.plain.report)
    }

    /// Works a line that asks where an author's selections are.
    fn work_selected(&mut self, alloc: Global, id: u16, author: u16) -> Result<(), OutOfMemory>
        ensures report { OnOk result (self.new.plain.report.items
            ≡ self.old.plain.report.items
            ++ more_report_text (more_events (MoreLine.Selected id author)
            (more_state_of self.old))) }
        ensures state { OnOk result (more_state_of self.new
            ≡ more_step (MoreLine.Selected id author) (more_state_of self.old)) }
    {
        let Some(snapshot) = self.plain.snapshot_of(id)? else {
            return Ok(());
        };
        let report = self.selections.selected(alloc, id, author, &snapshot)?;
        drop(snapshot);
        write_event(alloc, report, &mut self.plain.report)
    }

    /// Works a line that folds a range.
    fn work_fold(&mut self, alloc: Global, id: u16, start: u64, end: u64) -> Result<(), OutOfMemory>
        ensures report { OnOk result (self.new.plain.report.items
            ≡ self.old.plain.report.items
            ++ more_report_text (more_events (MoreLine.Fold id start end)
            (more_state_of self.old))) }
        ensures state { OnOk result (more_state_of self.new
            ≡ more_step (MoreLine.Fold id start end) (more_state_of self.old)) }
    {
        let Some(snapshot) = self.plain.snapshot_of(id)? else {
            return Ok(());
        };
        let report = self.folds.fold(alloc, id, snapshot, start, end)?;
        write_event(alloc, report, &mut self.plain.report)
    }

    /// Works a line that unfolds a range.
    fn work_unfold(
        &mut self,
        alloc: Global,
        id: u16,
        start: u64,
        end: u64,
    ) -> Result<(), OutOfMemory>
        ensures report { OnOk result (self.new.plain.report.items
            ≡ self.old.plain.report.items
            ++ more_report_text (more_events (MoreLine.Unfold id start end)
            (more_state_of self.old))) }
        ensures state { OnOk result (more_state_of self.new
            ≡ more_step (MoreLine.Unfold id start end) (more_state_of self.old)) }
    {
        let Some(snapshot) = self.plain.snapshot_of(id)? else {
            return Ok(());
        };
        let report = self.folds.unfold(alloc, id, snapshot, start, end)?;
        write_event(alloc, report, &mut self.plain.report)
    }

    /// Works a line that shows a text as it is folded.
    fn work_folded(&mut self, alloc: Global, id: u16) -> Result<(), OutOfMemory>
        ensures report { OnOk result (self.new.plain.report.items
            ≡ self.old.plain.report.items
            ++ more_report_text (more_events (MoreLine.Folded id) (more_state_of self.old))) }
        ensures state { OnOk result (more_state_of self.new
            ≡ more_step (MoreLine.Folded id) (more_state_of self.old)) }
    {
        let Some(snapshot) = self.plain.snapshot_of(id)? else {
            return Ok(());
        };
        let report = self.folds.folded(alloc, id, snapshot)?;
        write_event(alloc, report, &mut self.plain.report)
    }

    /// Works a line that asks where a place of a text is shown as it is folded.
    fn work_display(&mut self, alloc: Global, id: u16, offset: u64) -> Result<(), OutOfMemory>
        ensures report { OnOk result (self.new.plain.report.items
            ≡ self.old.plain.report.items
            ++ more_report_text (more_events (MoreLine.Display id offset)
            (more_state_of self.old))) }
        ensures state { OnOk result (more_state_of self.new
            ≡ more_step (MoreLine.Display id offset) (more_state_of self.old)) }
    {
        let Some(snapshot) = self.plain.snapshot_of(id)? else {
            return Ok(());
        };
        let report = self.folds.display(alloc, id, snapshot, offset)?;
        write_event(alloc, report, &mut self.plain.report)
    }

    /// Works a line that makes a range an excerpt.
    fn work_excerpt(
        &mut self,
        alloc: Global,
        name: Text,
        id: u16,
        start: u64,
        end: u64,
    ) -> Result<(), OutOfMemory>
        requires { HasRoomAt name self.old.excerpts }
        ensures report { OnOk result (self.new.plain.report.items
            ≡ self.old.plain.report.items
            ++ more_report_text (more_events (MoreLine.Excerpt name id start end)
            (more_state_of self.old))) }
        ensures state { OnOk result (more_state_of self.new
            ≡ more_step (MoreLine.Excerpt name id start end) (more_state_of self.old)) }
    {
        let Some(index) = self.plain.index_of(id) else {
            return Ok(());
        };
        let snapshots = self.plain.snapshots(alloc)?;
        let report = self
            .excerpts
            .excerpt(alloc, name, index, snapshots, start, end)?;
        write_event(alloc, Some(report), &mut self.plain.report)
    }

    /// Works a line that shows the text of excerpts.
    fn work_multi(&mut self, alloc: Global, name: Text) -> Result<(), OutOfMemory>
        ensures report { OnOk result (self.new.plain.report.items
            ≡ self.old.plain.report.items
            ++ more_report_text (more_events (MoreLine.Multi name) (more_state_of self.old))) }
        ensures state { OnOk result (more_state_of self.new
            ≡ more_step (MoreLine.Multi name) (more_state_of self.old)) }
    {
        let snapshots = self.plain.snapshots(alloc)?;
        let report = self.excerpts.multi(name, snapshots)?;
        write_event(alloc, report, &mut self.plain.report)
    }

    /// Works a line that edits the text of excerpts.
    fn work_medit(&mut self, alloc: Global, name: Text, pieces: &Pieces) -> Result<(), OutOfMemory>
        ensures report { OnOk result (self.new.plain.report.items
            ≡ self.old.plain.report.items
            ++ more_report_text (more_events (MoreLine.Medit name pieces.now)
            (more_state_of self.old))) }
        ensures state { OnOk result (more_state_of self.new
            ≡ more_step (MoreLine.Medit name pieces.now) (more_state_of self.old)) }
    {
        let snapshots = self.plain.snapshots(alloc)?;
        let split = self.excerpts.split(&name, snapshots, pieces)?;
        let mut settled = Vec::new(alloc);
        let answer = self.plain.work_split(alloc, split, &mut settled)?;
        let report = medit_report(name, answer);
        write_event(alloc, report, &mut self.plain.report)?;
        self.plain.report.extend_from_slice(settled.as_slice())?;
        Ok(())
    }

    /// Works a line. An operation or a name in it is moved to where it is kept or reported.
    pub fn work_line(&mut self, alloc: Global, line: MoreLine) -> Result<(), OutOfMemory>
        requires { HasRoomFor line (more_state_of self.old) }
        ensures report { OnOk result (self.new.plain.report.items
            ≡ self.old.plain.report.items
            ++ more_report_text (more_events line (more_state_of self.old))) }
        ensures state { OnOk result (more_state_of self.new
            ≡ more_step line (more_state_of self.old)) }
    {
        match line {
            MoreLine::Plain(line) => self.plain.work_line(alloc, line),
            MoreLine::Select {
                replica,
                name,
                ranges,
            } => self.work_select(alloc, replica, name, &ranges),
            MoreLine::Share { replica, name } => self.work_share(alloc, replica, name),
            MoreLine::Selected { replica, author } => self.work_selected(alloc, replica, author),
            MoreLine::Fold {
                replica,
                start,
                end,
            } => self.work_fold(alloc, replica, start, end),
            MoreLine::Unfold {
                replica,
                start,
                end,
            } => self.work_unfold(alloc, replica, start, end),
            MoreLine::Folded { replica } => self.work_folded(alloc, replica),
            MoreLine::Display { replica, offset } => self.work_display(alloc, replica, offset),
            MoreLine::Excerpt {
                name,
                replica,
                start,
                end,
            } => self.work_excerpt(alloc, name, replica, start, end),
            MoreLine::Multi { name } => self.work_multi(alloc, name),
            MoreLine::Medit { name, pieces } => self.work_medit(alloc, name, &pieces),
        }
    }

    /// The index of the replica with that id.
    pub fn index_of(&self, id: u16) -> Option<usize>
        ensures { result ≡ position (λ b. b.replica == id) (buffers_of self.now) }
    {
        self.plain.index_of(id)
    }

    /// The replicas, in the header's order.
    pub fn replicas(&self) -> &[Replica]
        ensures { result.now ≡ buffers_of self.now }
    {
        self.plain.replicas()
    }

    /// What each replica is now.
    pub fn snapshots(&self, alloc: Global) -> Result<Vec<Snapshot>, OutOfMemory>
        ensures { IfOk result (λ v. v.items ≡ histories (buffers_of self.now)) }
    {
        self.plain.snapshots(alloc)
    }

    /// The operations that stand under the numbers from 1 on, each with its line, where the lines are those of the
    /// numbers in turn.
    pub fn made(&self, alloc: Global, lines: &[u64]) -> Result<Vec<(u64, &Operation)>, OutOfMemory>
        ensures { IfOk result (λ v. map (λ p. (p.0, p.1.now)) v.items
            ≡ with_lines 0 lines.now (more_state_of self.now).plain.operations) }
    {
        self.plain.exchange.made(alloc, lines)
    }

    /// Drops the lines of the events.
    pub fn clear_report(&mut self)
        ensures { more_state_of self.new ≡ more_state_of self.old }
    {
        self.plain.report.clear();
    }

    /// The text of the report, with these lines for the queries.
    pub fn finish(self, alloc: Global, answers: &[Report]) -> Result<Vec<u8>, OutOfMemory>
        ensures { IfOk result (λ v. v.items
            ≡ (self.plain.report.items ++ report_text answers.now)
            ++ report_text (flat_map at_end (buffers_of self))) }
    {
        let MoreProgress { plain, .. } = self;
        plain.finish(alloc, answers)
    }
}

/// The line of an edit of excerpts, where something is said of it.
fn medit_report(name: Text, answer: Option<MeditAnswer>) -> Option<MoreReport>
    ensures { result ≡ option_map (MoreReport.Medit name) answer }
{
    match answer {
        Some(answer) => Some(MoreReport::Medit { name, answer }),
        None => None,
    }
}

/// Writes the line of an event, if there is one.
#[tactic(auto, using(crate::proofs::MoreReports::nothing_written, crate::proofs::MoreReports::one_written))]
fn write_event(
    alloc: Global,
    report: Option<MoreReport>,
    out: &mut Vec<u8>,
) -> Result<(), OutOfMemory>
    ensures { OnOk result (out.new.items
        ≡ out.old.items ++ more_report_text (option_to_list report)) }
{
    if let Some(report) = report {
        session_more::write_line(alloc, out, &report)?;
    }
    Ok(())
}
