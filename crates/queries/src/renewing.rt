//! The answers of one worker, once it and the editor have ended.
ghost use Rattle.std.specs.Prelude.{◌≡◌, ◌<◌, ◌≤◌, List, [], length, map, reverse, IfOk, IfSome, OnOk, All};
ghost use Rattle.std.specs.List.{AllZip};
ghost use Rattle.op_model.specs.declared.operation.Operation.{Operation};
ghost use Rattle.text_buffer.specs.Document.{IsFront};
ghost use Rattle.queries.specs.Answers.{HasAnswered};
ghost use Rattle.queries.specs.Asks.{asks_of};
ghost use Rattle.queries.specs.Queue.{IsEnded, pairs_of};
ghost use Rattle.queries.specs.declared.query.Answer.{Answer};
ghost use Rattle.queries.specs.Dealt.{AllAt, told_lists, told_pairs};
ghost use Rattle.queries.specs.Final.{AreBounds, AreFinal, ComesTo, HasLooked, HasRenewed, HaveLooked, IsBound, IsPast, bound_of};

use crate::OutOfMemory;
use crate::collecting::collect;
use crate::desk::{Done, Inbox};
use crate::query::{Answer, Query};
use snapshot_pub::{SnapReader, Told};
use std::alloc::Global;
use std::thread::Threads;
use text_buffer::Snapshot;

// A last look of a reader: it learns what was last published to its pair, a list of this length, and takes `latest` once
// more. Gives the reader back, and how many operations an answer of it may have that stays: none, where it did not enter.
fn look_last(
    mut reader: SnapReader,
    told: Told,
    size: u64,
) -> Result<(SnapReader, u64), OutOfMemory>
    requires pair { told.pair ≡ reader.pair }
    requires size { size ≡ length told.list }
    ensures looked { IfOk result (λ r. HasLooked told.list reader r.0) }
    ensures bound_is { IfOk result (λ r. r.1 ≡ bound_of (length told.list) r.0) }
    ensures bound { IfOk result (λ r. (h : List Operation) → IsFront h reader.longest
        → length h ≤ r.1 → IsFront h told.list) }
{
    look_again(&mut reader, told)?;
    let bound = bound_for(&reader, size);
    Ok((reader, bound))
}

// So many, where the reader entered; else none.
fn bound_for(reader: &SnapReader, size: u64) -> u64
    ensures { result ≡ bound_of size reader.now }
{
    if reader.entered() { size } else { 0 }
}

// The look itself, of a reader that is lent.
fn look_again(reader: &mut SnapReader, told: Told) -> Result<(), OutOfMemory>
    requires { told.pair ≡ reader.old.pair }
    ensures { OnOk result (HasLooked told.list reader.old reader.new) }
{
    reader.learn(told);
    drop(reader.latest()?);
    Ok(())
}

// The last looks of a worker's readers, in the order of the replicas: the readers, and their bounds.
fn look_all(
    alloc: Global,
    readers: Vec<SnapReader>,
    tolds: Vec<Told>,
    sizes: &[u64],
) -> Result<(Vec<SnapReader>, Vec<u64>), OutOfMemory>
    requires pairs { told_pairs tolds.items ≡ pairs_of readers.items }
    requires sizes { sizes.now ≡ map (λ (h : List Operation). length h) (told_lists tolds.items) }
    ensures looked { IfOk result (λ r. HaveLooked (told_lists tolds.items) readers.items
        r.0.items) }
    ensures bounds_are { IfOk result (λ r. AreBounds (told_lists tolds.items) r.0.items r.1.items) }
    ensures count { IfOk result (λ r. length r.1.items ≡ length tolds.items) }
    ensures bounds { IfOk result (λ r. AllAt
        (IsBound (told_lists tolds.items) readers.items) r.1.items) }
{
    let mut looked = Vec::new(alloc);
    let mut bounds = Vec::new(alloc);
    let mut readers = readers.into_iter();
    let mut tolds = tolds.into_iter();
    for size in sizes {
        let (Some(reader), Some(told)) = (readers.next(), tolds.next()) else {
            unreachable!()
        };
        let (reader, bound) = look_last(reader, told, *size)?;
        looked.push(reader)?;
        bounds.push(bound)?;
    }
    Ok((looked, bounds))
}

// The answer as it is, where it is on no more operations than its replica's bound; else it is made again on what the replica is at
// the end.
fn renew<R: Threads + Sync, Q: Query<A> + Drop, A: Drop>(
    rt: &R,
    alloc: Global,
    answer: Answer<Q, A>,
    bounds: &[u64],
    lasts: &[Snapshot],
) -> Result<Answer<Q, A>, OutOfMemory>
    requires index { (answer.index < length bounds.now) × (answer.index < length lasts.now) }
    requires plain { answer.answer ≡ Q.plain answer.query answer.snapshot }
    ensures { IfOk result (λ a. ComesTo Q.plain bounds.now lasts.now a answer) }
{
    let place = answer.index as usize;
    if answer.snapshot.applied().len() <= bounds[place] {
        return Ok(answer);
    }
    answer_anew(rt, alloc, answer, &lasts[place])
}

// The answer to the same query on another snapshot.
fn answer_anew<R: Threads + Sync, Q: Query<A> + Drop, A: Drop>(
    rt: &R,
    alloc: Global,
    former: Answer<Q, A>,
    snapshot: &Snapshot,
) -> Result<Answer<Q, A>, OutOfMemory>
    ensures number { IfOk result (λ a. a.number ≡ former.number) }
    ensures index { IfOk result (λ a. a.index ≡ former.index) }
    ensures query { IfOk result (λ a. a.query ≡ former.query) }
    ensures snapshot { IfOk result (λ a. a.snapshot ≡ snapshot.now) }
    ensures answer { IfOk result (λ a. a.answer ≡ Q.plain former.query snapshot.now) }
{
    let (number, index, query) = ask_parts(former);
    let answer = query.answer(rt, alloc, snapshot)?;
    let snapshot = snapshot.share()?;
    Ok(Answer {
        number,
        index,
        query,
        snapshot,
        answer,
    })
}

// What was asked: its number, the index and the query. The answer is dropped.
fn ask_parts<Q: Drop, A: Drop>(answer: Answer<Q, A>) -> (u64, u32, Q)
    ensures number { result.0 ≡ answer.number }
    ensures index { result.1 ≡ answer.index }
    ensures query { result.2 ≡ answer.query }
{
    let Answer {
        number,
        index,
        query,
        snapshot: _,
        answer: _,
    } = answer;
    (number, index, query)
}

// The answers, each renewed; the last of them first.
fn renew_all<R: Threads + Sync, Q: Query<A> + Drop, A: Drop>(
    rt: &R,
    alloc: Global,
    mut answers: Vec<Answer<Q, A>>,
    bounds: &[u64],
    lasts: &[Snapshot],
) -> Result<Vec<Answer<Q, A>>, OutOfMemory>
    requires indices { All (λ (a : Answer Q A). (a.index < length bounds.now)
        × (a.index < length lasts.now)) answers.items }
    requires plain { All (λ (a : Answer Q A). a.answer ≡ Q.plain a.query a.snapshot) answers.items }
    ensures { IfOk result (λ v. AllZip (ComesTo Q.plain bounds.now lasts.now)
        (reverse v.items) answers.items) }
{
    let mut renewed = Vec::new(alloc);
    renew_each(rt, alloc, &mut answers, &mut renewed, bounds, lasts)?;
    Ok(renewed)
}

// The same, into a list that is empty at first.
fn renew_each<R: Threads + Sync, Q: Query<A> + Drop, A: Drop>(
    rt: &R,
    alloc: Global,
    answers: &mut Vec<Answer<Q, A>>,
    renewed: &mut Vec<Answer<Q, A>>,
    bounds: &[u64],
    lasts: &[Snapshot],
) -> Result<(), OutOfMemory>
    requires indices { All (λ (a : Answer Q A). (a.index < length bounds.now)
        × (a.index < length lasts.now)) answers.old.items }
    requires plain { All (λ (a : Answer Q A). a.answer ≡ Q.plain a.query a.snapshot)
        answers.old.items }
    requires none { renewed.old.items ≡ [] }
    ensures { OnOk result (AllZip (ComesTo Q.plain bounds.now lasts.now)
        (reverse renewed.new.items) answers.old.items) }
{
    while let Some(answer) = answers.pop() {
        renewed.push(renew(rt, alloc, answer, bounds, lasts)?)?;
    }
    Ok(())
}

/// The answers of a worker, renewed, the last of them first: those that its readers gave on more than was last published, and all of
/// a reader that did not enter at its last look, are made again. Gives the readers back too.
///
/// # Errors
///
/// `OutOfMemory` alone.
pub(crate) fn renew_worker<R: Threads + Sync, Q: Query<A> + Drop, A: Drop>(
    rt: &R,
    alloc: Global,
    inbox: Inbox<Q>,
    done: Done<Q, A>,
    tolds: Vec<Told>,
    sizes: &[u64],
    lasts: &[Snapshot],
) -> Result<(Vec<Answer<Q, A>>, Vec<SnapReader>), OutOfMemory>
    requires own { done.queue ≡ inbox.queue }
    requires ended { IsEnded inbox.sent × IsEnded done.taken }
    requires answered { IfSome done.answers (λ v. HasAnswered Q.plain
        (asks_of done.taken) done.readers v) }
    requires pairs { told_pairs tolds.items ≡ pairs_of done.readers }
    requires sizes { sizes.now ≡ map (λ (h : List Operation). length h) (told_lists tolds.items) }
    requires fronts { AllZip IsFront (told_lists tolds.items) lasts.now }
    requires asked { All (IsPast lasts.now) (asks_of inbox.sent) }
    ensures ended { IfOk result (λ r. AreFinal Q.plain lasts.now (asks_of inbox.sent)
        (reverse r.0.items)) }
    ensures renewed { IfOk result (λ r. HasRenewed Q.plain (told_lists tolds.items) lasts.now done
        r.1.items (reverse r.0.items)) }
{
    let (readers, answers) = collect(inbox, done)?;
    let (looked, bounds) = look_all(alloc, readers, tolds, sizes)?;
    let renewed = renew_all(rt, alloc, answers, bounds.as_slice(), lasts)?;
    Ok((renewed, looked))
}
