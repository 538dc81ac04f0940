//! Runs of cells that an edit deleted, and their keys.
ghost use Rattle.std.specs.Prelude.{◌≡◌, Some, IfOk};
ghost use Rattle.fragments.specs.DeletedRuns.{run_key};

use crate::OutOfMemory;
use crate::index_entry::IndexKey;
use lamport_clock::Lamport;
use std::alloc::Global;
use std::cmp::Reverse;
use sum_tree::{Item, KeyedItem};
use tree_cursor::Greatest;

/// A run of cells of one edit that another edit deleted. A fragment of these cells that is split later leaves it as it
/// is.
#[derive(Clone, Copy, Debug, PartialEq, Eq)]
pub struct DeletedRun {
    /// The edit that deleted the cells.
    pub edit: Lamport,
    /// The number of runs in the index when this one was added: no two runs have the same.
    pub number: u64,
    /// The edit that inserted the cells.
    pub stamp: Lamport,
    /// The number of the first cell.
    pub offset: u64,
    /// The number of cells.
    pub len: u64,
}

impl Item for DeletedRun {
    type Summary = Greatest<IndexKey>;

    ghost sum_of = { λ r. record { key = Some (run_key r) } };

    ghost admitted = { λ r. tt };

    ghost is_single = { λ r. tt };

    fn summary(&self, _alloc: Global) -> Result<Greatest<IndexKey>, OutOfMemory> {
        Ok(Greatest {
            key: Some(self.key()),
        })
    }

    fn copy(&self, _alloc: Global) -> Result<DeletedRun, OutOfMemory> {
        Ok(*self)
    }
}

/// Runs are ordered by the edit that deleted them, then by their numbers, the greatest first.
impl KeyedItem for DeletedRun {
    type Key = IndexKey;

    ghost key_of = { run_key };

    fn key(&self) -> IndexKey {
        IndexKey {
            stamp: self.edit,
            offset: Reverse(self.number),
        }
    }

    fn last_key(sum: &Greatest<IndexKey>) -> Option<IndexKey> {
        sum.key
    }
}
