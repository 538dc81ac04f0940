//! The answers of all workers, in the order of the queries.
ghost use Rattle.std.specs.Prelude.{◌≡◌, ◌<◌, ◌≤◌, ◌==◌, List, length, map, reverse, IfOk, All};
ghost use Rattle.std.specs.List.{AllZip, filter};
ghost use Rattle.op_model.specs.declared.operation.Operation.{Operation};
ghost use Rattle.text_buffer.specs.Document.{IsFront};
ghost use Rattle.queries.specs.Asks.{Ask, asks_of, asks_to, worker_of};
ghost use Rattle.queries.specs.States.{DeskState};
ghost use Rattle.queries.specs.declared.query.Answer.{Answer};
ghost use Rattle.queries.specs.Dealt.{AllAt, AreEnds, AreNumbered, told_lists};
ghost use Rattle.queries.specs.Final.{AreFinal, AreGathered, AreRenewed, CanRenewAll, HaveRenewed, HaveWorked, IsPast, IsReady};

use crate::OutOfMemory;
use crate::desk::{Done, Inbox};
use crate::query::{Answer, Query};
use crate::renewing::renew_worker;
use snapshot_pub::{SnapReader, Told};
use std::alloc::Global;
use std::thread::Threads;
use text_buffer::Snapshot;

/// What the editor leaves: the closed inboxes of all workers; what was last published to the pairs of each; how many operations that
/// is, of each replica; and how many queries were asked.
///
/// # Examples
///
/// `leave` of `crates/session_replay/src/beside.rt` makes one; `gather`: `gathered_report` there.
#[derive(Drop)]
pub struct Gathering<Q> {
    pub inboxes: Vec<Inbox<Q>>,
    pub tolds: Vec<Vec<Told>>,
    pub sizes: Vec<u64>,
    pub count: u64,
}

impl<Q: Drop> Gathering<Q> {
    /// The answers of all workers, in the order of the queries, given what each replica is at the end, and the readers of each worker
    /// after a last look. An answer on more than was last published of its replica is made again, and so is each of a reader that did not
    /// enter at its last look; so each is on what its replica has applied at some time until the end. The others are as the workers gave
    /// them.
    ///
    /// # Errors
    ///
    /// `OutOfMemory` alone: a worker missed memory, or it is missing now.
    pub fn gather<R: Threads + Sync, A: Drop>(
        self,
        rt: &R,
        alloc: Global,
        dones: Vec<Done<Q, A>>,
        lasts: &[Snapshot],
    ) -> Result<(Vec<Answer<Q, A>>, Vec<Vec<SnapReader>>), OutOfMemory>
    where
        Q: Query<A>,
        requires ready { (published : List (List Operation)) × (asks : List (Ask Q))
            × (desks : List DeskState)
            × IsReady self.inboxes.items (map (λ v. v.items) self.tolds.items) self.sizes.items
            published asks
            × AllZip IsFront published lasts.now × All (IsPast lasts.now) asks
            × (self.count ≡ length asks)
            × AreEnds self.inboxes.items desks × HaveWorked Q.plain desks dones.items }
        ensures gathered { (asks : List (Ask Q)) → AreNumbered asks → self.count ≡ length asks
            → (published : List (List Operation))
            → IsReady self.inboxes.items (map (λ v. v.items) self.tolds.items) self.sizes.items
            published asks
            → IfOk result (λ r. AreGathered Q.plain (length self.inboxes.items) lasts.now asks
            r.0.items) }
        ensures renewed { (asks : List (Ask Q)) → AreNumbered asks → self.count ≡ length asks
            → (published : List (List Operation))
            → IsReady self.inboxes.items (map (λ v. v.items) self.tolds.items) self.sizes.items
            published asks
            → IfOk result (λ r. AreRenewed Q.plain published lasts.now dones.items
            (map (λ v. v.items) r.1.items) r.0.items) }
    {
        let Gathering {
            inboxes,
            tolds,
            sizes,
            count,
        } = self;
        let (lists, looked) = renew_workers(
            rt,
            alloc,
            inboxes,
            dones,
            tolds,
            sizes.as_slice(),
            lasts,
        )?;
        let answers = in_order(alloc, lists, count)?;
        Ok((answers, looked))
    }
}

// The renewed answers of each worker, the last of them first, and its readers.
fn renew_workers<R: Threads + Sync, Q: Query<A> + Drop, A: Drop>(
    rt: &R,
    alloc: Global,
    inboxes: Vec<Inbox<Q>>,
    dones: Vec<Done<Q, A>>,
    tolds: Vec<Vec<Told>>,
    sizes: &[u64],
    lasts: &[Snapshot],
) -> Result<(Vec<Vec<Answer<Q, A>>>, Vec<Vec<SnapReader>>), OutOfMemory>
    requires { CanRenewAll Q.plain sizes.now lasts.now inboxes.items dones.items
        (map (λ v. v.items) tolds.items) }
    ensures ended { IfOk result (λ r. AllZip
        (λ l i. AreFinal Q.plain lasts.now (asks_of i.sent) (reverse l.items)) r.0.items
        inboxes.items) }
    ensures renewed { IfOk result (λ r. HaveRenewed Q.plain (map (λ v. v.items) tolds.items) lasts.now
        dones.items (map (λ v. v.items) r.1.items) (map (λ v. reverse v.items) r.0.items)) }
{
    let mut lists = Vec::new(alloc);
    let mut all_looked = Vec::new(alloc);
    let mut inboxes = inboxes.into_iter();
    let mut dones = dones.into_iter();
    let mut tolds = tolds.into_iter();
    while let Some(inbox) = inboxes.next() {
        let (Some(done), Some(told)) = (dones.next(), tolds.next()) else {
            unreachable!()
        };
        let (answers, looked) = renew_worker(rt, alloc, inbox, done, told, sizes, lasts)?;
        lists.push(answers)?;
        all_looked.push(looked)?;
    }
    Ok((lists, all_looked))
}

// The answers of all workers, one after another from the ends of the lists in turn.
fn in_order<Q: Query<A> + Drop, A: Drop>(
    alloc: Global,
    mut lists: Vec<Vec<Answer<Q, A>>>,
    count: u64,
) -> Result<Vec<Answer<Q, A>>, OutOfMemory>
    requires some { 0 < length lists.items }
    requires enough { (asks : List (Ask Q)) × AreNumbered asks × (count ≡ length asks)
        × AllAt (λ w r. length r.items ≡ length (asks_to (length lists.items) w asks))
        lists.items }
    ensures { (lasts : List (List Operation)) → (asks : List (Ask Q)) → AreNumbered asks
        → count ≡ length asks
        → AllAt (λ w r. AreFinal Q.plain lasts (asks_to (length lists.items) w asks)
        (reverse r.items)) lists.items
        → IfOk result (λ v. AreGathered Q.plain (length lists.items) lasts asks v.items
        × AllAt (λ w r. filter (λ (a : Answer Q A). worker_of (length lists.items) a.number == w)
        v.items ≡ reverse r.items) lists.items) }
{
    let workers = lists.len() as u64;
    let mut answers = Vec::new(alloc);
    for turn in 0..count {
        let worker = (turn % workers) as usize;
        match lists[worker].pop() {
            Some(answer) => answers.push(answer)?,
            None => unreachable!(),
        }
    }
    Ok(answers)
}
