//! A session whose queries are answered by workers beside the editor.
ghost use Rattle.std.specs.Prelude.{◌≡◌, ◌≤◌, ◌<◌, ◌+◌, [], ◌∷◌, ◌++◌, List, length, map, IfOk, OnErr, OnOk, All, Some};
ghost use Rattle.std.specs.List.{flat_map};
ghost use Rattle.session_lines.specs.Report.{report_text};
ghost use Rattle.session_lines.specs.declared.report.QueryAnswer.{QueryAnswer};
ghost use Rattle.session_more.specs.Lines.{query_count};
ghost use Rattle.session_more.specs.Reports.{more_report_text};
ghost use Rattle.queries.specs.Asks.{Ask};
ghost use Rattle.queries.specs.States.{DeskState, DispatcherState};
ghost use Rattle.queries.specs.declared.query.Answer.{Answer};
ghost use Rattle.queries.specs.Dealt.{AreEnds, HasAsked, told_lists, told_pairs};
ghost use Rattle.queries.specs.Final.{AreGathered, HaveWorked, IsPast};
ghost use Rattle.queries.specs.Published.{AreLevel, columns, published_lists, rows_of};
ghost use Rattle.session_replay.specs.Beside.{AsksMore, CanEdit, HasEdited, HasLeft, IsAsking, KeepsEnds, line_of};
ghost use Rattle.session_replay.specs.Replies.{IsReport};
ghost use Rattle.session_work.specs.MoreQueries.{more_queries_from, more_query_at};
ghost use Rattle.session_work.specs.MoreWork.{IsMoreSession, after_all_more, all_more_events, more_events, more_step};
ghost use Rattle.session_work.specs.Room.{HasRoom, HasRoomFor};
ghost use Rattle.session_work.specs.Queries.{plain_answer, query_with};
ghost use Rattle.session_work.specs.Work.{at_end, histories};
ghost use Rattle.session_work.specs.Working.{buffers_of, more_state_of};
ghost use Rattle.session_work.specs.declared.queries.Question.{Question};

use crate::OutOfMemory;
use crate::text_query::TextQuery;
use queries::{
    Answer, Desk, Dispatcher, Done, Gate, Gathering, Publishers, open_desks, work_beside,
};
use session_lines::{QueryAnswer, Report};
use session_more::{MoreLine, MoreQueue, MoreSession};
use session_work::{MoreProgress, Question, more_question_of, query_line};
use snapshot_pub::Told;
use std::alloc::Global;
use std::sync::Wait;
use std::thread::Threads;

/// The editor: the session as far as it was worked, and where its queries are put.
#[derive(Drop)]
pub struct Editor {
    workers: u32,
    progress: MoreProgress,
    dispatcher: Dispatcher<TextQuery>,
}

/// What the editor leaves: the session as it was worked, and what the answers are gathered from.
#[derive(Drop)]
pub struct Edited {
    progress: MoreProgress,
    gathering: Gathering<TextQuery>,
}

impl Editor {
    /// Puts a query of the replica with that id, if it is there.
    fn put<R: Wait>(
        &mut self,
        rt: &R,
        publishers: &mut Publishers,
        id: u16,
        question: Question,
    ) -> Result<(), OutOfMemory>
        requires asking { (asks : List (Ask Question))
            × IsAsking (buffers_of self.old.progress) asks self.old.dispatcher publishers.old }
        requires room { self.old.dispatcher.count < self.old.dispatcher.limit }
        ensures same { (self.new.workers ≡ self.old.workers)
            × (self.new.progress ≡ self.old.progress) }
        ensures ends { KeepsEnds self.old.dispatcher publishers.old self.new.dispatcher
            publishers.new }
        ensures asking { OnOk result (AsksMore (buffers_of self.old.progress) self.old.dispatcher
            publishers.old
            (λ n. query_with n (more_state_of self.old.progress).plain (Some (id, question)))
            (buffers_of self.old.progress) self.new.dispatcher publishers.new) }
        ensures err { OnErr result (self.new.dispatcher ≡ self.old.dispatcher) }
    {
        let Some(index) = self.progress.index_of(id) else {
            return Ok(());
        };
        let snapshot = self.progress.replicas()[index].snapshot()?;
        let index = index as u32;
        self.dispatcher
            .ask(rt, publishers, index, &snapshot, TextQuery::new(question))?;
        Ok(())
    }

    /// Puts a line that is a query, and works any other.
    fn work_line<R: Wait>(
        &mut self,
        rt: &R,
        alloc: Global,
        publishers: &mut Publishers,
        line: MoreLine,
    ) -> Result<(), OutOfMemory>
        requires asking { (asks : List (Ask Question))
            × IsAsking (buffers_of self.old.progress) asks self.old.dispatcher publishers.old }
        requires room { self.old.dispatcher.count + query_count (line ∷ [])
            ≤ self.old.dispatcher.limit }
        requires few { HasRoomFor line (more_state_of self.old.progress) }
        ensures same { self.new.workers ≡ self.old.workers }
        ensures report { OnOk result (self.new.progress.plain.report.items
            ≡ self.old.progress.plain.report.items
            ++ more_report_text (more_events line (more_state_of self.old.progress))) }
        ensures state { OnOk result (more_state_of self.new.progress
            ≡ more_step line (more_state_of self.old.progress)) }
        ensures ends { KeepsEnds self.old.dispatcher publishers.old self.new.dispatcher
            publishers.new }
        ensures asking { OnOk result (AsksMore (buffers_of self.old.progress) self.old.dispatcher
            publishers.old (λ n. more_query_at n line (more_state_of self.old.progress))
            (buffers_of self.new.progress) self.new.dispatcher publishers.new) }
        ensures err { OnErr result ((asks : List (Ask Question))
            × HasAsked self.new.dispatcher asks) }
    {
        match more_question_of(line) {
            Ok((id, question)) => self.put(rt, publishers, id, question),
            Err(line) => self.progress.work_line(alloc, line),
        }
    }

    /// Works the lines in their order, each once the gate lets the editor pass, and puts those that are queries.
    fn work_lines<R: Threads + Wait + Sync, G: Gate>(
        &mut self,
        rt: &R,
        alloc: Global,
        gate: &G,
        publishers: &mut Publishers,
        mut lines: MoreQueue,
    ) -> Result<(), OutOfMemory>
        requires asking { (asks : List (Ask Question))
            × IsAsking (buffers_of self.old.progress) asks self.old.dispatcher publishers.old }
        requires room { self.old.dispatcher.count + query_count lines
            ≤ self.old.dispatcher.limit }
        requires few { HasRoom (length lines) (more_state_of self.old.progress) }
        ensures same { self.new.workers ≡ self.old.workers }
        ensures report { OnOk result (self.new.progress.plain.report.items
            ≡ self.old.progress.plain.report.items
            ++ more_report_text (all_more_events lines (more_state_of self.old.progress))) }
        ensures state { OnOk result (more_state_of self.new.progress
            ≡ after_all_more lines (more_state_of self.old.progress)) }
        ensures ends { KeepsEnds self.old.dispatcher publishers.old self.new.dispatcher
            publishers.new }
        ensures asking { OnOk result (AsksMore (buffers_of self.old.progress) self.old.dispatcher
            publishers.old (λ n. more_queries_from n lines (more_state_of self.old.progress))
            (buffers_of self.new.progress) self.new.dispatcher publishers.new) }
        ensures err { OnErr result ((asks : List (Ask Question))
            × HasAsked self.new.dispatcher asks) }
    {
        let count = lines.len();
        while let Some((line, rest)) = lines.split_first(alloc)? {
            // the header is line 1
            let number = 1 + (count - rest.len());
            gate.hold(rt, self.workers, number);
            self.work_line(rt, alloc, publishers, line)?;
            lines = rest;
        }
        Ok(())
    }

    /// Puts the end marks, and leaves what the answers are gathered from.
    fn leave<R: Wait>(
        self,
        rt: &R,
        alloc: Global,
        publishers: &Publishers,
    ) -> Result<Edited, OutOfMemory>
        requires asking { (asks : List (Ask Question))
            × IsAsking (buffers_of self.progress) asks self.dispatcher publishers.now }
        requires workers { self.workers ≡ publishers.now.workers }
        ensures progress { IfOk result (λ e. e.progress ≡ self.progress) }
        ensures left { IfOk result (λ e. (asks : List (Ask Question))
            → IsAsking (buffers_of self.progress) asks self.dispatcher publishers.now
            → HasLeft (buffers_of self.progress) asks self.dispatcher e) }
    {
        let Editor {
            workers,
            progress,
            dispatcher,
        } = self;
        let count = dispatcher.count();
        let inboxes = dispatcher.end(rt);
        let tolds = tell_workers(alloc, publishers, workers)?;
        let sizes = publishers.sizes(alloc)?;
        let gathering = Gathering {
            inboxes,
            tolds,
            sizes,
            count,
        };
        Ok(Edited {
            progress,
            gathering,
        })
    }

    /// Puts the end marks, so that the workers end.
    fn give_up<R: Wait>(self, rt: &R)
        requires { (asks : List (Ask Question)) × HasAsked self.dispatcher asks }
    {
        let Editor {
            workers: _,
            progress: _,
            dispatcher,
        } = self;
        let _inboxes = dispatcher.end(rt);
    }

    /// Works the lines, and puts the end marks, even if an allocation failed.
    fn edit<R: Threads + Wait + Sync, G: Gate>(
        mut self,
        rt: &R,
        alloc: Global,
        gate: &G,
        publishers: &mut Publishers,
        lines: MoreQueue,
    ) -> Result<Edited, OutOfMemory>
        requires { CanEdit lines self publishers.old }
        ensures { IfOk result (λ e. HasEdited lines self e) }
    {
        match self.work_lines(rt, alloc, gate, publishers, lines) {
            Ok(()) => self.leave(rt, alloc, publishers),
            Err(refused) => {
                self.give_up(rt);
                Err(refused)
            }
        }
    }
}

/// What was last published to the pairs of each worker.
fn tell_workers(
    alloc: Global,
    publishers: &Publishers,
    workers: u32,
) -> Result<Vec<Vec<Told>>, OutOfMemory>
    requires workers { workers ≡ publishers.now.workers }
    requires level { AreLevel publishers.now }
    ensures pairs { IfOk result (λ v. map told_pairs (map (λ t. t.items) v.items)
        ≡ columns workers (rows_of publishers.now)) }
    ensures lists { IfOk result (λ v. All (λ t. told_lists t ≡ published_lists publishers.now)
        (map (λ t. t.items) v.items)) }
{
    let mut tolds = Vec::new(alloc);
    for worker in 0..workers {
        tolds.push(publishers.tell_all(alloc, worker)?)?;
    }
    Ok(tolds)
}

/// The lines of the answers.
fn answer_lines(
    alloc: Global,
    answers: Vec<Answer<TextQuery, QueryAnswer>>,
) -> Result<Vec<Report>, OutOfMemory>
    ensures { IfOk result (λ v. v.items ≡ map line_of answers.items) }
{
    let mut lines = Vec::new(alloc);
    for answer in answers {
        let Answer {
            number,
            index: _,
            query: _,
            snapshot,
            answer,
        } = answer;
        lines.push(query_line(number, answer, &snapshot))?;
    }
    Ok(lines)
}

/// The text of the report, with the workers' answers in the order of the queries.
fn gathered_report<R: Threads + Sync>(
    rt: &R,
    alloc: Global,
    edited: Edited,
    dones: Vec<Done<TextQuery, QueryAnswer>>,
) -> Result<Vec<u8>, OutOfMemory>
    requires { (asks : List (Ask Question)) × (d : DispatcherState Question)
        × (desks : List DeskState) × HasLeft (buffers_of edited.progress) asks d edited
        × All (IsPast (histories (buffers_of edited.progress))) asks × AreEnds d.inboxes desks
        × HaveWorked plain_answer desks dones.items }
    ensures { (asks : List (Ask Question)) → (d : DispatcherState Question)
        → HasLeft (buffers_of edited.progress) asks d edited
        → IfOk result (λ v. (answers : List (Answer Question QueryAnswer))
        × AreGathered plain_answer (length d.inboxes) (histories (buffers_of edited.progress))
        asks answers
        × (v.items ≡ (edited.progress.plain.report.items ++ report_text (map line_of answers))
        ++ report_text (flat_map at_end (buffers_of edited.progress)))) }
{
    let Edited {
        progress,
        gathering,
    } = edited;
    let lasts = progress.snapshots(alloc)?;
    let (answers, _readers) = gathering.gather(rt, alloc, dones, lasts.as_slice())?;
    let lines = answer_lines(alloc, answers)?;
    progress.finish(alloc, lines.as_slice())
}

/// Runs the editor beside its workers, until all have ended.
fn edit_beside<R: Threads + Wait + Sync, G: Gate>(
    rt: &R,
    alloc: Global,
    gate: &G,
    publishers: &mut Publishers,
    editor: Editor,
    desks: Vec<Desk<TextQuery>>,
    lines: MoreQueue,
) -> Result<(Edited, Vec<Done<TextQuery, QueryAnswer>>), OutOfMemory>
    requires { CanEdit lines editor publishers.old }
    ensures edited { IfOk result (λ r. HasEdited lines editor r.0) }
    ensures worked { IfOk result (λ r. HaveWorked plain_answer desks.items r.1.items) }
{
    let (edited, dones) = work_beside(
        rt,
        alloc,
        gate,
        desks,
        move || -> Result<Edited, OutOfMemory>
            requires { CanEdit lines editor publishers.now }
            ensures { IfOk result (λ e. HasEdited lines editor e) }
        { editor.edit(rt, alloc, gate, publishers, lines) },
    );
    Ok((edited?, dones?))
}

/// Opens the pairs and queues, and replays the session beside the workers.
fn replay_beside<R: Threads + Wait + Sync, G: Gate>(
    rt: &R,
    alloc: Global,
    gate: &G,
    publishers: &mut Publishers,
    workers: u32,
    session: MoreSession,
) -> Result<Vec<u8>, OutOfMemory>
    requires session { IsMoreSession session }
    requires some { 1 ≤ workers }
    requires none { (publishers.old.workers ≡ workers) × (publishers.old.list ≡ [])
        × (publishers.old.sizes ≡ []) }
    ensures { IfOk result (λ v. IsReport session workers v.items) }
{
    let progress = MoreProgress::new(alloc, &session)?;
    let firsts = progress.snapshots(alloc)?;
    let limit = session.query_count();
    let lines = session.lines.into_queue();
    let (dispatcher, desks) = open_desks(rt, alloc, publishers, firsts, limit)?;
    let editor = Editor {
        workers,
        progress,
        dispatcher,
    };
    let (edited, dones) = edit_beside(rt, alloc, gate, publishers, editor, desks, lines)?;
    gathered_report(rt, alloc, edited, dones)
}

/// The text of a session's report, its queries answered by this many workers, each in a thread, beside the editor.
pub fn report_beside<R: Threads + Wait + Sync, G: Gate>(
    rt: &R,
    alloc: Global,
    gate: &G,
    workers: u32,
    session: MoreSession,
) -> Result<Vec<u8>, OutOfMemory>
    requires session { IsMoreSession session }
    requires some { 1 ≤ workers }
    ensures { IfOk result (λ v. IsReport session workers v.items) }
{
    let mut publishers = Publishers::new(alloc, workers);
    let report = replay_beside(rt, alloc, gate, &mut publishers, workers, session);
    publishers.close(rt);
    report
}
