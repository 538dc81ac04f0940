//! An editor beside its workers.
ghost use Rattle.std.specs.Prelude.{◌≡◌, ◌<◌, ℕ, length, slice_index_or, IfOk};
ghost use Rattle.queries.specs.Answers.{HasWorked};
ghost use Rattle.queries.specs.States.{DeskState, DoneState};

use crate::OutOfMemory;
use crate::desk::{Desk, Done};
use crate::gate::Gate;
use crate::query::Query;
use crate::worker::work;
use std::alloc::Global;
use std::sync::Wait;
use std::thread;
use std::thread::Threads;

/// The work of all workers, each in a thread.
fn work_all<R: Threads + Wait + Sync, G: Gate, Q: Query<A> + Send + Drop, A: Send + Drop>(
    rt: &R,
    alloc: Global,
    gate: &G,
    desks: Vec<Desk<Q>>,
) -> Result<Vec<Done<Q, A>>, OutOfMemory>
    ensures count { IfOk result (λ v. length v.items ≡ length desks.items) }
    ensures worked { IfOk result (λ v. (i : ℕ) (d : DoneState Q A) (e : DeskState)
        → i < length desks.items
        → HasWorked Q.plain (slice_index_or desks.items i e) (slice_index_or v.items i d)) }
{
    thread::map_vec(rt, desks, &|desk| work(rt, alloc, gate, desk))
}

// Works on the desks in a new thread, or last where none can be made, and runs the editor in this one. `Send` of what is worked on is
// asked here of a type parameter, so that the closure needs nothing more.
fn run_beside<R: Threads, D: Send + Drop, X: Send, W: Fn(D) -> X + Sync, E, F: FnOnce() -> E>(
    rt: &R,
    desks: D,
    work: &W,
    editor: F,
) -> (E, X)
    requires work { (work : W) (desks : D) → W.pre work desks }
    requires editor { F.pre editor }
    ensures edited { F.post editor result.0 }
    ensures worked { W.post work.now desks result.1 }
{
    let (done, edited) = thread::join(rt, move || work(desks), editor);
    (edited, done)
}

/// Runs the workers, each in a thread, and the editor beside them, until all have ended. Where no thread can be made, the editor goes
/// first.
///
/// # Errors
///
/// `OutOfMemory` alone, in place of what the workers give back.
pub fn work_beside<
    R: Threads + Wait + Sync,
    G: Gate,
    Q: Query<A> + Send + Drop,
    A: Send + Drop,
    E,
    F: FnOnce() -> E,
>(
    rt: &R,
    alloc: Global,
    gate: &G,
    desks: Vec<Desk<Q>>,
    editor: F,
) -> (E, Result<Vec<Done<Q, A>>, OutOfMemory>)
    requires { F.pre editor }
    ensures edited { F.post editor result.0 }
    ensures count { IfOk result.1 (λ v. length v.items ≡ length desks.items) }
    ensures worked { IfOk result.1 (λ v. (i : ℕ) (d : DoneState Q A) (e : DeskState)
        → i < length desks.items
        → HasWorked Q.plain (slice_index_or desks.items i e) (slice_index_or v.items i d)) }
{
    run_beside(rt, desks, &|desks| work_all(rt, alloc, gate, desks), editor)
}
