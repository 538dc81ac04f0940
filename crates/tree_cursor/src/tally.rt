//! Who counts what a walk looks at.
ghost use Rattle.std.specs.Prelude.{◌≡◌, ℕ, ◌+◌, ◌≤◌};

use std::sync::ledger::Ledger;
use sum_tree::Steps;

// What is told of each part that a walk looks at: it counts a step for each, or for none.
pub(crate) trait Tally {
    ghost count: { Self → ℕ };

    ghost step: { ℕ };

    // One part more.
    fn look(&mut self)
        ensures { count self.new ≡ count self.old + step };

    ghost small: { step ≤ 1 };
}

impl<L: Ledger> Tally for Steps<L> {
    ghost use Rattle.tree_cursor.specs.Tallies.{one_step};

    ghost count = { λ s. s };

    ghost step = { 1 };

    ghost small = { one_step };

    fn look(&mut self) {
        self.tick();
    }
}

// A tally that counts nothing.
#[derive(Drop)]
pub(crate) struct NoTally;

impl Tally for NoTally {
    ghost use Rattle.tree_cursor.specs.Tallies.{no_step};

    ghost count = { λ s. 0 };

    ghost step = { 0 };

    ghost small = { no_step };

    fn look(&mut self) {}
}
