//! Where the operation of a stamp is in the list.
ghost use Rattle.std.specs.Prelude.{◌≡◌, Some};
ghost use Rattle.applied_ops.specs.Placed.{stamp_at};

use crate::OutOfMemory;
use lamport_clock::Lamport;
use std::alloc::Global;
use sum_tree::{Item, KeyedItem};
use tree_cursor::Greatest;

/// A stamp, and the index of its operation in the list.
#[derive(Clone, Copy, Debug, PartialEq, Eq)]
pub struct StampEntry {
    pub stamp: Lamport,
    pub index: u64,
}

impl Item for StampEntry {
    type Summary = Greatest<Lamport>;

    ghost sum_of = { λ e. record { key = Some e.stamp } };

    ghost admitted = { λ e. tt };

    ghost is_single = { λ e. tt };

    fn summary(&self, _alloc: Global) -> Result<Greatest<Lamport>, OutOfMemory> {
        Ok(Greatest {
            key: Some(self.stamp),
        })
    }

    fn copy(&self, _alloc: Global) -> Result<StampEntry, OutOfMemory> {
        Ok(*self)
    }
}

impl KeyedItem for StampEntry {
    type Key = Lamport;

    ghost key_of = { stamp_at };

    fn key(&self) -> Lamport {
        self.stamp
    }

    fn last_key(sum: &Greatest<Lamport>) -> Option<Lamport> {
        sum.key
    }
}
