//! A worker.
ghost use Rattle.std.specs.Prelude.{◌≡◌, false, true, [], ◌∷◌, ◌++◌, List, IfOk, OnOk};
ghost use Rattle.text_buffer.specs.Document.{IsFront};
ghost use Rattle.queries.specs.Queue.{IsFor, pairs_of};
ghost use Rattle.queries.specs.Asks.{Ask, ask_of};
ghost use Rattle.queries.specs.Answers.{HasAnswered, HasWorked, IsAnswerTo};
ghost use Rattle.queries.specs.declared.job.Entry.{Entry};

use crate::OutOfMemory;
use crate::desk::{Desk, Done};
use crate::gate::Gate;
use crate::job::{Entry, Job};
use crate::query::{Answer, Query};
use crate::steps::take;
use snapshot_pub::SnapReader;
use std::alloc::Global;
use std::sync::Wait;
use std::thread;
use std::thread::Threads;

/// Takes jobs in their order until the end mark, and answers each. After a failed allocation it takes the others and answers none of
/// them; the gate is called for each job all the same.
pub(crate) fn work<R: Threads + Wait + Sync, G: Gate, Q: Query<A> + Drop, A: Drop>(
    rt: &R,
    alloc: Global,
    gate: &G,
    desk: Desk<Q>,
) -> Done<Q, A>
    ensures { HasWorked Q.plain desk result }
{
    let Desk {
        queue,
        mut pass,
        mut readers,
        number,
    } = desk;
    let mut answers = Vec::new(alloc);
    let mut failed = false;
    for _ in rt.forever() {
        match take(rt, &queue, &mut pass) {
            None => thread::yield_now(),
            Some(Entry::End) => {
                let answers = answers_or_failure(failed, answers);
                return Done {
                    pass,
                    readers,
                    answers,
                };
            }
            Some(Entry::Job(job)) => {
                let query = job.number;
                gate.hold(rt, number, query);
                failed = answer_also(rt, alloc, failed, &mut readers, job, &mut answers);
                gate.done(rt, number, query);
            }
        }
    }
    unreachable!()
}

fn answers_or_failure<Q: Drop, A: Drop>(
    failed: bool,
    answers: Vec<Answer<Q, A>>,
) -> Result<Vec<Answer<Q, A>>, OutOfMemory>
    ensures { IfOk result (λ v. (failed ≡ false) × (v.items ≡ answers.items)) }
{
    if failed {
        Err(OutOfMemory)
    } else {
        Ok(answers)
    }
}

// Answers one job more, unless an allocation failed for an earlier one: then the job is dropped, since no answer is handed on.
// Returns whether an allocation failed, now or before.
fn answer_also<R: Threads + Wait + Sync, Q: Query<A> + Drop, A: Drop>(
    rt: &R,
    alloc: Global,
    failed: bool,
    readers: &mut Vec<SnapReader>,
    job: Job<Q>,
    answers: &mut Vec<Answer<Q, A>>,
) -> bool
    requires own { IsFor readers.old.items (Entry.Job job) }
    ensures pairs { pairs_of readers.new.items ≡ pairs_of readers.old.items }
    ensures failed { result ≡ false → failed ≡ false }
    ensures dropped { failed ≡ true → (result ≡ true)
        × (readers.new.items ≡ readers.old.items) × (answers.new.items ≡ answers.old.items) }
    ensures answered { result ≡ false → (asks : List (Ask Q))
        → HasAnswered Q.plain asks readers.old.items answers.old.items
        → HasAnswered Q.plain (asks ++ ask_of job ∷ []) readers.new.items answers.new.items }
{
    if failed {
        return true;
    }
    match answer_in(rt, alloc, readers, job, answers) {
        Ok(()) => false,
        Err(_) => true,
    }
}

fn answer_in<R: Threads + Wait + Sync, Q: Query<A> + Drop, A: Drop>(
    rt: &R,
    alloc: Global,
    readers: &mut Vec<SnapReader>,
    job: Job<Q>,
    answers: &mut Vec<Answer<Q, A>>,
) -> Result<(), OutOfMemory>
    requires own { IsFor readers.old.items (Entry.Job job) }
    ensures pairs { pairs_of readers.new.items ≡ pairs_of readers.old.items }
    ensures answered { OnOk result ((asks : List (Ask Q))
        → HasAnswered Q.plain asks readers.old.items answers.old.items
        → HasAnswered Q.plain (asks ++ ask_of job ∷ []) readers.new.items answers.new.items) }
{
    let place = job.index as usize;
    let answer = answer_on(rt, alloc, &mut readers[place], job)?;
    answers.push(answer)?;
    Ok(())
}

// Learns what was told, and answers on the latest snapshot.
fn answer_on<R: Threads + Wait + Sync, Q: Query<A> + Drop, A: Drop>(
    rt: &R,
    alloc: Global,
    reader: &mut SnapReader,
    job: Job<Q>,
) -> Result<Answer<Q, A>, OutOfMemory>
    requires { job.told.pair ≡ reader.old.pair }
    ensures pair { reader.new.pair ≡ reader.old.pair }
    ensures begins { IsFront reader.old.longest reader.new.longest }
    ensures answered { IfOk result (λ a. IsAnswerTo Q.plain a (ask_of job)) }
    ensures latest { IfOk result (λ a. a.snapshot ≡ reader.new.longest) }
{
    let Job {
        number,
        index,
        query,
        told,
    } = job;
    reader.learn(told);
    let snapshot = reader.latest()?;
    let answer = query.answer(rt, alloc, &snapshot)?;
    Ok(Answer {
        number,
        index,
        query,
        snapshot,
        answer,
    })
}
