//! The answers to queries, from what a replica was.
ghost use Rattle.std.specs.Prelude.{◌≡◌, ◌↔◌, ℕ, List, length, map, Err, IfErr, IfOk, None, Some};
ghost use Rattle.std.specs.Option.{option_map, option_to_list};
ghost use Rattle.op_model.specs.Shown.{text};
ghost use Rattle.text_dims.specs.Places.{place_at_offset};
ghost use Rattle.snapshot_search.specs.Starts.{starts};
ghost use Rattle.snapshot_search.specs.declared.fault.FindFault.{FindFault};
ghost use Rattle.session_lines.specs.declared.session.SessionLine.{SessionLine};
ghost use Rattle.session_lines.specs.declared.report.Report.{Report};
ghost use Rattle.session_work.specs.Working.{more_state_of, state_of};
ghost use Rattle.session_work.specs.Work.{applied_count};
ghost use Rattle.session_work.specs.MoreQueries.{more_query_at, more_question_of};
ghost use Rattle.session_work.specs.Queries.{answer_line, find_answer, offset_answer, place_answer, plain_line, point_answer, query_at, question_of};
ghost use Rattle.session_work.specs.declared.queries.Question.TheVariants.{OffsetOf, PointOf, StartsOf};

use crate::OutOfMemory;
use crate::more::MoreProgress;
use crate::replay::Progress;
use op_model::Text;
use rope_chunks::Rope;
use session_lines::{
    FindAnswer, Numbers, OffsetAnswer, PointAnswer, QueryAnswer, Report, SessionLine,
};
use session_more::MoreLine;
use snapshot_search::{FindFault, find_all};
use std::alloc::Global;
use text_buffer::Snapshot;
use text_dims::Point;
use tree_cursor::Bias;

/// What a query asks of a text.
#[derive(Drop)]
pub enum Question {
    /// All places of a needle.
    StartsOf(Text),
    /// The point at a byte offset.
    PointOf(u64),
    /// The byte offset at a point.
    OffsetOf(Point),
}

/// The replica that a line asks, and what it asks, where the line is a query.
///
/// # Errors
///
/// The line itself, if it is not one.
pub fn question_of(line: SessionLine) -> Result<(u16, Question), SessionLine>
    ensures ok { IfOk result (λ asked. question_of line ≡ Some asked) }
    ensures err { IfErr result (λ other. (other ≡ line) × (question_of line ≡ None)) }
{
    match line {
        SessionLine::Find { replica, needle } => Ok((replica, Question::StartsOf(needle))),
        SessionLine::Point { replica, offset } => Ok((replica, Question::PointOf(offset))),
        SessionLine::Offset {
            replica,
            row,
            column,
        } => Ok((replica, Question::OffsetOf(Point { row, column }))),
        other => Err(other),
    }
}

/// The replica that a line asks, and what it asks, where the line is a query.
///
/// # Errors
///
/// The line itself, if it is not one.
pub fn more_question_of(line: MoreLine) -> Result<(u16, Question), MoreLine>
    ensures ok { IfOk result (λ asked. more_question_of line ≡ Some asked) }
    ensures err { IfErr result (λ other. (other ≡ line) × (more_question_of line ≡ None)) }
{
    match line {
        MoreLine::Plain(line) => match question_of(line) {
            Ok(asked) => Ok(asked),
            Err(line) => Err(MoreLine::Plain(line)),
        },
        other => Err(other),
    }
}

// How many operations it has, the base not counted.
fn applied_count(snapshot: &Snapshot) -> u64
    ensures { result ≡ applied_count snapshot.now }
{
    snapshot.applied().len().saturating_sub(1)
}

/// What a search has found, as an answer.
pub fn answer_of(found: Result<Vec<u64>, FindFault>) -> Result<FindAnswer, OutOfMemory>
    ensures { (needle t : List ℕ) → IfOk found (λ v. v.items ≡ starts t needle)
        → ((found ≡ Err FindFault.EmptyNeedle) ↔ (length needle ≡ 0))
        → IfOk result (λ a. a ≡ find_answer needle t) }
{
    match found {
        Ok(starts) => Ok(FindAnswer::Starts(Numbers::new(starts))),
        Err(FindFault::EmptyNeedle) => Ok(FindAnswer::EmptyNeedle),
        Err(FindFault::OutOfMemory) => Err(OutOfMemory),
    }
}

/// The places of a needle in a rope's text, as an answer. Linear in the text; allocates for the places.
pub fn find_answer(alloc: Global, rope: &Rope, needle: &str) -> Result<FindAnswer, OutOfMemory>
    ensures { IfOk result (λ a. a ≡ find_answer needle.now rope.now) }
{
    answer_of(find_all(alloc, rope, needle))
}

// The place at the offset, in all kinds of position, where there is one.
fn place_answer(rope: &Rope, offset: u64) -> Option<PointAnswer>
    ensures { result ≡ option_map place_answer (place_at_offset rope.now offset) }
{
    let point = rope.offset_to_point(offset)?;
    let utf16 = rope.offset_to_utf16(offset)?;
    let point_utf16 = rope.point_to_utf16(point)?;
    Some(PointAnswer::Point {
        point,
        utf16,
        point_utf16,
    })
}

/// The point at a byte offset of a rope's text, as an answer. A few descents; does not allocate.
pub fn point_answer(rope: &Rope, offset: u64) -> PointAnswer
    ensures { result ≡ point_answer offset rope.now }
{
    match place_answer(rope, offset) {
        Some(answer) => answer,
        None => PointAnswer::Clips {
            left: rope.clip_offset(offset, Bias::Left),
            right: rope.clip_offset(offset, Bias::Right),
        },
    }
}

/// The byte offset at a point of a rope's text, as an answer. A few descents; does not allocate.
pub fn offset_answer(rope: &Rope, point: Point) -> OffsetAnswer
    ensures { result ≡ offset_answer point rope.now }
{
    match rope.point_to_offset(point) {
        Some(offset) => OffsetAnswer::Offset { offset },
        None => OffsetAnswer::Clips {
            left: rope.clip_point(point, Bias::Left),
            right: rope.clip_point(point, Bias::Right),
        },
    }
}

/// The line of a query with that number, which was answered so on the snapshot.
pub fn query_line(number: u64, answer: QueryAnswer, snapshot: &Snapshot) -> Report
    ensures { result ≡ Report.Query number (applied_count snapshot.now) answer }
{
    Report::Query {
        number,
        applied: applied_count(snapshot),
        answer,
    }
}

// Where the needle occurs in the snapshot's text.
fn find_line(
    alloc: Global,
    number: u64,
    needle: &str,
    snapshot: &Snapshot,
) -> Result<Report, OutOfMemory>
    ensures { IfOk result (λ line. line
        ≡ answer_line number (applied_count snapshot.now) (StartsOf needle.now)
        (text snapshot.now)) }
{
    let answer = find_answer(alloc, snapshot.text(), needle)?;
    Ok(query_line(number, QueryAnswer::Find(answer), snapshot))
}

// The point at a byte offset of the snapshot's text.
fn point_line(number: u64, offset: u64, snapshot: &Snapshot) -> Report
    ensures { result ≡ answer_line number (applied_count snapshot.now) (PointOf offset)
        (text snapshot.now) }
{
    let answer = point_answer(snapshot.text(), offset);
    query_line(number, QueryAnswer::Point(answer), snapshot)
}

// The byte offset at a point of the snapshot's text.
fn offset_line(number: u64, point: Point, snapshot: &Snapshot) -> Report
    ensures { result ≡ answer_line number (applied_count snapshot.now) (OffsetOf point)
        (text snapshot.now) }
{
    let answer = offset_answer(snapshot.text(), point);
    query_line(number, QueryAnswer::Offset(answer), snapshot)
}

impl Progress {
    /// The line of the query that a line is, answered on the spot as query `number`, if it is one.
    pub fn answer(
        &self,
        alloc: Global,
        number: u64,
        line: &SessionLine,
    ) -> Result<Option<Report>, OutOfMemory>
        ensures { IfOk result (λ r. option_to_list r
            ≡ map plain_line (query_at number line.now (state_of self.now))) }
    {
        match line {
            SessionLine::Edit { .. } => Ok(None),
            SessionLine::Undo { .. } => Ok(None),
            SessionLine::Op(_) => Ok(None),
            SessionLine::Uop(_) => Ok(None),
            SessionLine::Give { .. } => Ok(None),
            SessionLine::Text { .. } => Ok(None),
            SessionLine::Anchor { .. } => Ok(None),
            SessionLine::Where { .. } => Ok(None),
            SessionLine::Mark { .. } => Ok(None),
            SessionLine::Since { .. } => Ok(None),
            SessionLine::Reopen { .. } => Ok(None),
            SessionLine::Find { replica, needle } => self.answer_find(
                alloc, number, *replica, needle,
            ),
            SessionLine::Point { replica, offset } => self.answer_point(number, *replica, *offset),
            SessionLine::Offset {
                replica,
                row,
                column,
            } => {
                let point = Point {
                    row: *row,
                    column: *column,
                };
                self.answer_offset(number, *replica, point)
            }
        }
    }

    /// The line of a query for the places of a needle, where the replica is there.
    fn answer_find(
        &self,
        alloc: Global,
        number: u64,
        id: u16,
        needle: &Text,
    ) -> Result<Option<Report>, OutOfMemory>
        ensures { IfOk result (λ r. option_to_list r
            ≡ map plain_line (query_at number (SessionLine.Find id needle.now)
            (state_of self.now))) }
    {
        match self.snapshot_of(id)? {
            Some(snapshot) => Ok(Some(find_line(alloc, number, needle.as_str(), &snapshot)?)),
            None => Ok(None),
        }
    }

    /// The line of a query for the point at a byte offset, where the replica is there.
    fn answer_point(&self, number: u64, id: u16, offset: u64) -> Result<Option<Report>, OutOfMemory>
        ensures { IfOk result (λ r. option_to_list r
            ≡ map plain_line (query_at number (SessionLine.Point id offset) (state_of self.now))) }
    {
        match self.snapshot_of(id)? {
            Some(snapshot) => Ok(Some(point_line(number, offset, &snapshot))),
            None => Ok(None),
        }
    }

    /// The line of a query for the byte offset at a point, where the replica is there.
    fn answer_offset(
        &self,
        number: u64,
        id: u16,
        point: Point,
    ) -> Result<Option<Report>, OutOfMemory>
        ensures { IfOk result (λ r. option_to_list r
            ≡ map plain_line (query_at number (SessionLine.Offset id point.row point.column)
            (state_of self.now))) }
    {
        match self.snapshot_of(id)? {
            Some(snapshot) => Ok(Some(offset_line(number, point, &snapshot))),
            None => Ok(None),
        }
    }
}

impl MoreProgress {
    /// The line of the query that a line is, answered on the spot as query `number`, if it is one.
    pub fn answer(
        &self,
        alloc: Global,
        number: u64,
        line: &MoreLine,
    ) -> Result<Option<Report>, OutOfMemory>
        ensures { IfOk result (λ r. option_to_list r
            ≡ map plain_line (more_query_at number line.now (more_state_of self.now))) }
    {
        match line {
            MoreLine::Plain(line) => self.plain.answer(alloc, number, line),
            MoreLine::Select { .. } => Ok(None),
            MoreLine::Share { .. } => Ok(None),
            MoreLine::Selected { .. } => Ok(None),
            MoreLine::Fold { .. } => Ok(None),
            MoreLine::Unfold { .. } => Ok(None),
            MoreLine::Folded { .. } => Ok(None),
            MoreLine::Display { .. } => Ok(None),
            MoreLine::Excerpt { .. } => Ok(None),
            MoreLine::Multi { .. } => Ok(None),
            MoreLine::Medit { .. } => Ok(None),
        }
    }
}
