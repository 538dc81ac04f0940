//! How far the list of a pair has grown: a log of all that was ever to be shown there. It is there for proofs. At run
//! time there is one word, which is always 0.
//!
//! The rule of a log cannot say that only one publisher adds to it. So an entry names its pair, and the next word of the
//! pair: that word is away until the pair's next entry is added, and one right alone can bring it home. Whoever has that
//! right knows all entries of the pair, so adding one more cannot fail.
ghost use Rattle.std.specs.Prelude.{◌≡◌};
ghost use Rattle.logbook.specs.Pages.{may_write};
ghost use Rattle.text_buffer.specs.Document.{IsFront};
ghost use Rattle.snapshot_pub.specs.Logs.{log_list, log_next, pair_of, root_of, word_of};

use crate::entry::Entry;
use crate::kept::Kept;
use logbook::{Gain, Offer, Pen, Plain, Play, Rule, Seen, Start, Word};
use text_buffer::Snapshot;

/// A log that was reached. It has no bytes.
pub type Reached = Seen<Entry, u64, Grown>;

type LogWord = Word<Entry, u64, Grown>;

type Update = Offer<Entry, u64, Grown, Nothing>;

/// The rule of a log: when an entry is added, the word that the pair's entry before it names comes home.
pub struct Grown;

impl Rule<Entry, u64> for Grown {
    ghost use Rattle.std.specs.Prelude.{[]};
    ghost use base.Fml.{ftrue};
    ghost use Rattle.snapshot_pub.specs.Logs.{IsGrown};

    ghost holds = { λ cells log. IsGrown cells log };

    ghost first = { [] };

    ghost hinted = { λ n log. Unit {0} };

    ghost shows = { λ log. [] };

    ghost keeps = { λ names log. ftrue };

    ghost moves = { λ ask before after answer. Unit {0} };
}

/// Nothing is traded for a step.
pub struct Nothing;

impl Gain<Entry, u64> for Nothing {
    ghost use base.Fml.{ftrue};

    ghost after = { λ names about answer. ftrue };
}

/// The step that begins a pair with the list of a snapshot.
pub struct Begin;

impl Play<Entry, u64> for Begin {
    ghost use Rattle.snapshot_pub.specs.Logs.{Begins};

    ghost then = { Begins };
}

impl Plain<Snapshot, Entry, u64> for Begin {
    ghost use Rattle.std.specs.Prelude.{None};

    ghost ask = { λ x. record { root = 0; added = x; next = 0 } };

    ghost state = { λ x. None };
}

/// The step that adds a word, for an entry to name.
pub struct Reserve;

impl Play<Entry, u64> for Reserve {
    ghost use Rattle.snapshot_pub.specs.Logs.{Reserves};

    ghost then = { Reserves };
}

impl Plain<(), Entry, u64> for Reserve {
    ghost use Rattle.std.specs.Prelude.{None, []};

    ghost ask = { λ x. record { root = 0; added = []; next = 0 } };

    ghost state = { λ x. None };
}

/// A snapshot that begins with the list of a log, and the right to the word that its entry names.
pub struct More {
    reached: Reached,
    snapshot: Snapshot,
    right: Pen,
}

/// The step that adds the operations that a snapshot has beyond those of the log.
pub struct Add;

impl Play<Entry, u64> for Add {
    ghost use Rattle.snapshot_pub.specs.Logs.{Adds};

    ghost then = { Adds };
}

impl Plain<More, Entry, u64> for Add {
    ghost use Rattle.std.specs.Prelude.{None, drop, length};

    ghost ask = { λ x. record {
      root = root_of x.reached.log;
      added = drop (length (log_list x.reached.log)) x.snapshot;
      next = x.right.nib.key;
    } };

    ghost state = { λ x. None };
}

/// The log of a pair, and the right to add to it.
#[derive(Drop)]
pub struct Growth {
    word: LogWord,
    right: Pen,
    pub(crate) reached: Reached,
    ghost word_is: { word ≡ word_of reached.book },
    ghost own: { (right.book ≡ reached.book) × (right.nib.right ≡ may_write) },
    ghost next: { right.nib.key ≡ log_next reached.log },
}

impl Growth {
    /// A log whose list is that of the snapshot. Does not allocate.
    pub fn open(snapshot: &Snapshot) -> Growth
        ensures { log_list result.reached.log ≡ snapshot.now }
    {
        let (mut reached, mut first, _second) = Seen::open(Start::alone(), 0, 0);
        let word = Word::tracked(0, &mut first);
        let mut update: Update = reached.plain::<Nothing, Snapshot, Begin>(snapshot);
        let mut right = reached.no_pen();
        word.compare_exchange::<Begin, Nothing>(0, 0, &mut reached, &mut update, &mut right);
        let _next: LogWord = Word::tracked(0, &mut right);
        Growth {
            word,
            right,
            reached,
        }
    }

    /// Adds the operations that the snapshot has beyond those of the log. Does not allocate and cannot fail.
    pub fn grow(&mut self, snapshot: Snapshot) -> Kept
        requires { IsFront (log_list self.old.reached.log) snapshot }
        ensures pair { pair_of self.new.reached.book self.new.reached.log
            ≡ pair_of self.old.reached.book self.old.reached.log }
        ensures snapshot { result.snapshot ≡ snapshot }
        ensures reached { result.reached ≡ self.new.reached }
    {
        let more = More {
            reached: self.reached.again(),
            snapshot,
            right: reserve_next(&self.word, &self.reached),
        };
        let reached = extend(&self.word, &mut self.right, &more);
        let More {
            reached: _,
            snapshot,
            right,
        } = more;
        self.right = right;
        self.reached = reached.again();
        Kept { snapshot, reached }
    }
}

// The right to bring home a new word.
fn reserve_next(word: &LogWord, reached: &Reached) -> Pen
    requires { word.now ≡ word_of reached.now.book }
    ensures { (result.book ≡ reached.now.book) × (result.nib.right ≡ may_write) }
{
    let mut reached = reached.again();
    let mut update: Update = reached.plain::<Nothing, (), Reserve>(&());
    let mut right = reached.no_pen();
    word.compare_exchange::<Reserve, Nothing>(0, 0, &mut reached, &mut update, &mut right);
    let _word: LogWord = Word::tracked(0, &mut right);
    right
}

// The log with the snapshot's entry, for which the word of the right comes home.
fn extend(word: &LogWord, right: &mut Pen, more: &More) -> Reached
    requires word { word.now ≡ word_of more.now.reached.book }
    requires own { (right.old.book ≡ more.now.reached.book) × (right.old.nib.right ≡ may_write) }
    requires next { right.old.nib.key ≡ log_next more.now.reached.log }
    requires front { IsFront (log_list more.now.reached.log) more.now.snapshot }
    ensures pair { pair_of result.book result.log
        ≡ pair_of more.now.reached.book more.now.reached.log }
    ensures next { log_next result.log ≡ more.now.right.nib.key }
    ensures grown { log_list result.log ≡ more.now.snapshot }
{
    let mut reached = more.reached.again();
    let mut update: Update = reached.plain::<Nothing, More, Add>(more);
    word.compare_exchange::<Add, Nothing>(0, 0, &mut reached, &mut update, right);
    reached
}
