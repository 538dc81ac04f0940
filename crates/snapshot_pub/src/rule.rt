//! The rule of a pair, and what each step ensures.
use crate::kept::Kept;
use atomic_table::{Join, Split};
use crossbeam_utils::rule::{Outcome, Protocol};
use std::collections::LinkedList;
use std::marker::{Brand, PhantomData};

/// What a party of a pair has seen, the last first. No value of it is made.
pub type View = LinkedList<Kept>;

/// What is shown begins with all that each party has seen, and is of the same log.
pub struct Shown;

impl Protocol<Kept, View> for Shown {
    ghost use Rattle.std.specs.Prelude.{[]};
    ghost use Rattle.snapshot_pub.specs.Rule.{KeepsAll};

    ghost holds = { KeepsAll };

    ghost first = { [] };
}

/// What is shown after the step is all that the writer keeps of what it has seen.
pub struct Show;

impl Outcome<Kept, View> for Show {
    ghost use Rattle.std.specs.Prelude.{◌≡◌, [], ◌∷◌};

    ghost then = { λ _ _ y w. w ≡ y ∷ [] };
}

/// How many operations a snapshot has at least that counts as seen, which the call of the step picks.
pub trait Least {
    ghost use Rattle.std.specs.Prelude.{ℕ};

    ghost least: { ℕ };
}

impl Least for Brand {
    ghost least = { 0 };
}

/// What is shown is seen, after all that was seen before, unless it has fewer operations.
pub struct See<B> {
    of: PhantomData<B>,
}

impl<B: Least> Outcome<Kept, View> for See<B> {
    ghost use Rattle.snapshot_pub.specs.Rule.{Sees};

    ghost then = { λ v _ y w. Sees B.least v y w };
}

/// What the writer has seen, for a new reader.
pub struct Hand;

impl Split<View> for Hand {
    ghost left = { λ v. v };

    ghost right = { λ v. v };
}

impl Join<View> for Hand {
    ghost use Rattle.std.specs.Prelude.{[]};

    ghost both = { λ _ w. w };

    ghost spent = { [] };
}
