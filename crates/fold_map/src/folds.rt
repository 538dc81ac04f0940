//! The folds of a map, by their numbers.
ghost use Rattle.std.specs.Prelude.{◌≡◌, ℕ, ◌++◌, ◌∷◌, [], length, slice_get, IfOk, OnErr, OnOk};
ghost use Rattle.std.specs.Option.{option_copied};
ghost use Rattle.std.specs.Ordering.{nat_cmp};
ghost use Rattle.sum_tree.specs.Keyed.{item_of_key, remove_key};
ghost use Rattle.fold_map.specs.Numbered.{number_of, fold_of, folds_of, AreNumbered};

use crate::OutOfMemory;
use crate::fold::{Fold, NumberedFold};
use std::alloc::Global;
use std::marker::Model;
use sum_tree::SumTree;

/// The most folds of a map.
const MOST: u64 = 1 << 40;

/// Folds with numbers that ascend, in the order in which they were made. Contracts see their list. Copies share nodes.
#[derive(Drop)]
pub(crate) struct Folds {
    tree: SumTree<NumberedFold>,
    // More than any number that a fold has or had.
    next: u64,
}

impl Model for Folds {
    ghost use Rattle.std.specs.Prelude.{List};
    ghost use Rattle.fold_map.specs.declared.fold.NumberedFold.{NumberedFold};
    ghost use Rattle.fold_map.specs.Numbered.{AreNumbered};

    ghost Value = { List NumberedFold };

    ghost view = { λ folds. folds.tree.items };

    ghost invariant = { λ folds. AreNumbered folds.next folds.tree.items };
}

impl Folds {
    /// No folds. Makes one node; fails only if an allocation fails.
    pub(crate) fn new(alloc: Global) -> Result<Folds, OutOfMemory>
        ensures { IfOk result (λ folds. folds ≡ []) }
    {
        let tree = SumTree::new(alloc)?;
        Ok(Folds { tree, next: 0 })
    }

    /// Equal folds with the same nodes. O(1); fails only if a node cannot count another owner.
    pub(crate) fn share(&self) -> Result<Folds, OutOfMemory>
        ensures { IfOk result (λ folds. folds ≡ self.now) }
    {
        let tree = self.tree.share()?;
        Ok(Folds {
            tree,
            next: self.next,
        })
    }

    /// The number of folds. O(1); does not allocate.
    pub(crate) fn len(&self) -> u64
        ensures { result ≡ length self.now }
    {
        self.tree.len()
    }

    /// The fold of an index. O(log n); does not allocate.
    pub(crate) fn get(&self, index: u64) -> Option<&NumberedFold>
        ensures { option_copied result ≡ slice_get self.now index }
    {
        self.tree.get(index)
    }

    /// The fold of a number. O(log n); does not allocate.
    pub(crate) fn find(&self, number: u64) -> Option<&NumberedFold>
        ensures { option_copied result ≡ item_of_key nat_cmp number_of number self.now }
    {
        self.tree.find(&number)
    }

    /// Puts a fold last, under a new number, and returns the number. O(log n).
    ///
    /// # Errors
    ///
    /// Fails if an allocation fails, or at 2^40 folds or after 2^64 - 1 of them. The folds are then as before.
    pub(crate) fn push(&mut self, alloc: Global, fold: Fold) -> Result<u64, OutOfMemory>
        ensures ok { IfOk result (λ n. self.new ≡ self.old ++ record { number = n; fold = fold } ∷ []) }
        ensures err { OnErr result (self.new ≡ self.old) }
    {
        if self.tree.len() >= MOST || self.next == u64::MAX {
            return Err(OutOfMemory);
        }
        let number = self.next;
        self.tree.push(alloc, NumberedFold { number, fold })?;
        self.next += 1;
        Ok(number)
    }

    /// Takes out the fold of a number, if there is one. O(log n).
    ///
    /// # Errors
    ///
    /// Fails only if an allocation fails. The folds are then as before.
    pub(crate) fn remove(&mut self, alloc: Global, number: u64) -> Result<(), OutOfMemory>
        ensures ok { OnOk result (self.new ≡ remove_key nat_cmp number_of number self.old) }
        ensures err { OnErr result (self.new ≡ self.old) }
    {
        self.tree.remove(alloc, &number)?;
        Ok(())
    }

    /// What holds of all folds, for callers that see only their list. Does nothing when it runs.
    pub(crate) fn known(&self)
        ensures { (n : ℕ) × AreNumbered n self.now }
    {
        let _next = self.next;
    }
}
