//! What a worker has answered, once it and the editor have ended.
ghost use Rattle.std.specs.Prelude.{◌≡◌, IfOk, IfSome, Some};
ghost use Rattle.queries.specs.Queue.{IsEnded};
ghost use Rattle.queries.specs.Asks.{asks_of};
ghost use Rattle.queries.specs.Answers.{HasAnswered};

use crate::OutOfMemory;
use crate::desk::{Done, Inbox};
use crate::query::{Answer, Query};
use crate::steps::join;
use snapshot_pub::SnapReader;

/// The readers of a worker, and the answers that it gave: one to each job that was put into its inbox, in their order.
///
/// # Errors
///
/// `OutOfMemory` alone: an allocation of the worker failed.
pub(crate) fn collect<Q: Query<A> + Drop, A: Drop>(
    inbox: Inbox<Q>,
    done: Done<Q, A>,
) -> Result<(Vec<SnapReader>, Vec<Answer<Q, A>>), OutOfMemory>
    requires own { done.queue ≡ inbox.queue }
    requires ended { IsEnded inbox.sent × IsEnded done.taken }
    requires answered { IfSome done.answers (λ v. HasAnswered Q.plain
        (asks_of done.taken) done.readers v) }
    ensures readers { IfOk result (λ r. r.0.items ≡ done.readers) }
    ensures gave { IfOk result (λ r. done.answers ≡ Some r.1.items) }
    ensures answered { IfOk result (λ r. HasAnswered Q.plain
        (asks_of inbox.sent) done.readers r.1.items) }
{
    let Inbox { queue, pass } = inbox;
    let Done {
        pass: theirs,
        readers,
        answers,
    } = done;
    join(&queue, pass, theirs);
    Ok((readers, answers?))
}
