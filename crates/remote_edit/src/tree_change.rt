//! A change of a tree of fragments that is still to be made.
ghost use Rattle.std.specs.Prelude.{◌≡◌, OnErr, OnOk};
ghost use Rattle.remote_edit.specs.Changes.{after_change, MayChange, ChangeFew};

use crate::OutOfMemory;
use crate::walk::put;
use fragments::Fragment;
use std::alloc::Global;
use std::sync::ledger::Ledger;
use sum_tree::{Steps, SumTree};

/// A change of a tree of fragments.
#[derive(Drop)]
pub enum TreeChange {
    /// Fragments in the place of those whose indices are in a range, which the numbers begin and end.
    Range(u64, u64, Vec<Fragment>),
    /// A tree in the place of the whole one.
    Whole(SumTree<Fragment>),
}

impl TreeChange {
    /// Makes the change. Nodes of the tree that no other tree shares are changed in place. Counts a step for each node
    /// that is made, even if the call fails.
    ///
    /// # Errors
    ///
    /// Fails only if an allocation fails. The tree is then as before.
    pub fn make<L: Ledger>(
        self,
        alloc: Global,
        tree: &mut SumTree<Fragment>,
        steps: &mut Steps<L>,
    ) -> Result<(), OutOfMemory>
        requires { MayChange self tree.old.items }
        ensures ok { OnOk result (tree.new.items ≡ after_change self tree.old.items) }
        ensures err { OnErr result (tree.new ≡ tree.old) }
        ensures cost { ChangeFew self steps.old steps.new }
    {
        match self {
            TreeChange::Range(from, to, made) => put(tree, alloc, from, to, made, steps),
            TreeChange::Whole(whole) => {
                *tree = whole;
                Ok(())
            }
        }
    }
}
