//! The summary that counts items.
ghost use Rattle.std.specs.Prelude.{◌≡◌, ◌^◌, ◌<◌};
ghost use Rattle.sum_tree.specs.Count.{no_items, count_sum, CountFits, AnyCount};
ghost use Rattle.sum_tree.specs.CountLaws.{count_laws};

use crate::OutOfMemory;
use crate::traits::Summary;
use std::alloc::Global;

/// The number of items in a tree or subtree.
#[derive(Clone, Copy, Debug, PartialEq, Eq)]
pub struct Count {
    pub items: u64,
}

impl Summary for Count {
    ghost empty = { no_items };

    ghost op = { count_sum };

    ghost admits = { AnyCount };

    ghost fits = { CountFits };

    ghost single = { AnyCount };

    ghost laws = { count_laws };

    fn zero(_alloc: Global) -> Count {
        Count { items: 0 }
    }

    fn add(&mut self, _alloc: Global, other: &Count) -> Result<(), OutOfMemory> {
        self.items += other.items;
        Ok(())
    }
}
