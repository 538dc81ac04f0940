//! The queue of a worker, and its rule.
use crate::job::Entry;
use crossbeam_queue::protocol::{Join, Lesson, Outcome, Protocol, Split};
use crossbeam_queue::{Pass, RuledArrayQueue};
use snapshot_pub::SnapReader;
use std::collections::LinkedList;
use std::marker::{Brand, PhantomData};

/// What a pass may do, what was sent and taken as far as it knows, and the worker's readers. No value of it is made.
pub struct Log<Q> {
    pub sends: bool,
    pub takes: bool,
    pub sent: LinkedList<Entry<Q>>,
    pub taken: LinkedList<Entry<Q>>,
    pub readers: LinkedList<SnapReader>,
}

/// What was sent is what was taken and then what the queue holds, and each token is of a pair of the worker's own readers.
pub struct InOrder;

impl<Q> Protocol<Entry<Q>, Log<Q>> for InOrder {
    ghost use Rattle.std.specs.Prelude.{true, []};
    ghost use Rattle.queries.specs.Queue.{log, IsHandedOn};

    ghost holds = { IsHandedOn };

    ghost first = { log true true [] [] [] };
}

/// The readers of a worker, which the call that splits its pass off picks.
pub trait Readers {
    ghost use Rattle.std.specs.Prelude.{List};
    ghost use Rattle.snapshot_pub.specs.States.{ReaderState};

    ghost readers: { List ReaderState };
}

impl Readers for Brand {
    ghost use Rattle.std.specs.Prelude.{[]};

    ghost readers = { [] };
}

/// The editor's pass sends, and the worker's takes.
pub struct Roles<B> {
    of: PhantomData<B>,
}

impl<B: Readers, Q> Split<Log<Q>> for Roles<B> {
    ghost use Rattle.std.specs.Prelude.{true, false, []};
    ghost use Rattle.queries.specs.Queue.{log};

    ghost left = { λ v. log true false v.sent [] B.readers };

    ghost right = { λ v. log false true [] v.taken B.readers };
}

/// The worker's pass ends in the editor's.
pub struct Ends;

impl<Q> Join<Log<Q>> for Ends {
    ghost use Rattle.std.specs.Prelude.{true, false, []};
    ghost use Rattle.queries.specs.Queue.{log};

    ghost both = { λ v w. log true true v.sent w.taken v.readers };

    ghost spent = { log false false [] [] [] };
}

/// One entry more was sent.
pub struct Push;

impl<Q> Outcome<Entry<Q>, Log<Q>> for Push {
    ghost use Rattle.std.specs.Prelude.{◌≡◌, [], ◌∷◌, ◌++◌};
    ghost use Rattle.queries.specs.Queue.{log};

    ghost then = { λ v x w. w ≡ log v.sends v.takes (v.sent ++ x ∷ []) v.taken v.readers };
}

impl<Q> Lesson<Entry<Q>, Log<Q>> for Push {
    ghost use Rattle.std.specs.Prelude.{◌≤◌, length};

    ghost fact = { λ v items. length items ≤ length v.sent };
}

/// One entry more was taken.
pub struct Pop;

impl<Q> Outcome<Entry<Q>, Log<Q>> for Pop {
    ghost use Rattle.std.specs.Prelude.{◌≡◌, [], ◌∷◌, ◌++◌};
    ghost use Rattle.queries.specs.Queue.{log, IsFor};

    ghost then = { λ v x w. (w ≡ log v.sends v.takes v.sent (v.taken ++ x ∷ []) v.readers)
        × IsFor v.readers x };
}

impl<Q> Lesson<Entry<Q>, Log<Q>> for Pop {
    ghost fact = { λ _ _. Unit {0} };
}

/// What was sent is what was taken and what is left.
pub struct Rest;

impl<Q> Lesson<Entry<Q>, Log<Q>> for Rest {
    ghost use Rattle.std.specs.Prelude.{◌≡◌, ◌++◌};

    ghost fact = { λ v items. v.sent ≡ v.taken ++ items };
}

/// The queue of one worker.
pub type Queue<Q> = RuledArrayQueue<Entry<Q>, Log<Q>, InOrder>;

/// The right to use one end of it.
pub type QueuePass<Q> = Pass<Entry<Q>, Log<Q>>;
