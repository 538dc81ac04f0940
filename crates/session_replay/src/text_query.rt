//! The queries that workers answer.
ghost use Rattle.std.specs.Prelude.{◌≡◌, IfOk};
ghost use Rattle.session_work.specs.Queries.{find_answer};

use crate::OutOfMemory;
use queries::Query;
use rope_chunks::Rope;
use session_lines::{FindAnswer, QueryAnswer};
use session_work::{Question, answer_of, find_answer, offset_answer, point_answer};
use snapshot_search::find_all_par;
use std::alloc::Global;
use std::marker::Model;
use std::thread::Threads;
use text_buffer::Snapshot;

// How many bytes a text has at least that is searched in parts: a thread for fewer would cost more than it saves.
const LARGE: u64 = 1_048_576;

// In how many parts.
const PARTS: u32 = 4;

/// A question as a query that workers answer, seen as the question.
#[derive(Drop)]
pub struct TextQuery {
    question: Question,
}

impl Model for TextQuery {
    ghost use Rattle.session_work.specs.declared.queries.Question.{Question};

    ghost Value = { Question };

    ghost view = { λ q. q.question };
}

impl TextQuery {
    /// The query that asks this.
    pub fn new(question: Question) -> TextQuery
        ensures { result ≡ question }
    {
        TextQuery { question }
    }
}

impl Query<QueryAnswer> for TextQuery {
    ghost use Rattle.session_work.specs.Queries.{plain_answer};

    ghost plain = { plain_answer };

    fn answer<R: Threads + Sync>(
        &self,
        rt: &R,
        alloc: Global,
        snapshot: &Snapshot,
    ) -> Result<QueryAnswer, OutOfMemory> {
        let rope = snapshot.text();
        match &self.question {
            Question::StartsOf(needle) => {
                let answer = find_answer_beside(rt, alloc, rope, needle.as_str())?;
                Ok(QueryAnswer::Find(answer))
            }
            Question::PointOf(offset) => Ok(QueryAnswer::Point(point_answer(rope, *offset))),
            Question::OffsetOf(point) => Ok(QueryAnswer::Offset(offset_answer(rope, *point))),
        }
    }
}

// The same answer, for which a large text is searched in parts, beside each other.
fn find_answer_beside<R: Threads + Sync>(
    rt: &R,
    alloc: Global,
    rope: &Rope,
    needle: &str,
) -> Result<FindAnswer, OutOfMemory>
    ensures { IfOk result (λ a. a ≡ find_answer needle.now rope.now) }
{
    if rope.len() < LARGE {
        find_answer(alloc, rope, needle)
    } else {
        answer_of(find_all_par(rt, alloc, rope, needle, PARTS))
    }
}
